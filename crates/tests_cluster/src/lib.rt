//! Clients and replicas in one process, as tests: the requests that clients sign, which replies they count, when they accept a result, and what they make
//! of replies to several requests at a time; what replicas answer, where they stand at the end, their checkpoints, how they catch up, and that nothing is
//! left where memory runs out.
#![tactic(auto)]

#[cfg(test)]
mod accepted;
#[cfg(test)]
mod blocks;
#[cfg(test)]
mod calls;
#[cfg(test)]
mod catching_up;
#[cfg(test)]
mod checkpoints;
#[cfg(test)]
mod emptied;
#[cfg(test)]
mod passed_over;
#[cfg(test)]
mod replies;
#[cfg(test)]
mod requests;
#[cfg(test)]
mod run;
#[cfg(test)]
mod signed;
#[cfg(test)]
mod silence;
#[cfg(test)]
mod waiting;
