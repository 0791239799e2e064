//! Four replicas that order requests, change their view, make checkpoints and adopt them, as tests. `.ci/refusals` runs some of them with each growth of
//! memory, and each start of a thread, refused in turn; in the gate's run of the tests nothing is refused.
#![tactic(auto)]

#[cfg(test)]
mod alone;
#[cfg(test)]
mod beginning;
#[cfg(test)]
mod catching_up;
#[cfg(test)]
mod replica;
#[cfg(test)]
mod replicas;
#[cfg(test)]
mod requests;
#[cfg(test)]
mod resending;
#[cfg(test)]
mod script;
#[cfg(test)]
mod settling;
#[cfg(test)]
mod views;
