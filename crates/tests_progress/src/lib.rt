//! Tests of progress: replicas as processes by a time of its own, while messages are lost and replicas are silent, and behind that.
#![tactic(auto)]

#[cfg(test)]
mod asking;
#[cfg(test)]
mod named;
#[cfg(test)]
mod playing;
#[cfg(test)]
mod policies;
#[cfg(test)]
mod schedules;
#[cfg(test)]
mod world;
