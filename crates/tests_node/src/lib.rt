//! One replica, as tests: with what it begins, a request's way through it, what it executes as it advances, what it refuses, what waits of what
//! it is offered, and when a batch comes, when a batch is hashed, its checkpoints, what it adopts and collects, and calls as values.
#![tactic(auto)]

#[cfg(test)]
mod adoption;
#[cfg(test)]
mod advancing;
#[cfg(test)]
mod alone;
#[cfg(test)]
mod beginning;
#[cfg(test)]
mod behind;
#[cfg(test)]
mod collecting;
#[cfg(test)]
mod gates;
#[cfg(test)]
mod hashing;
#[cfg(test)]
mod keyrings;
#[cfg(test)]
mod offering;
#[cfg(test)]
mod parts;
#[cfg(test)]
mod performing;
#[cfg(test)]
mod refusals;
#[cfg(test)]
mod replica;
#[cfg(test)]
mod script;
#[cfg(test)]
mod texts;
#[cfg(test)]
mod waiting;
