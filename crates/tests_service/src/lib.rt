//! Tests of replicas as processes: what frames come, and what they tell.
#![tactic(auto)]

#[cfg(test)]
mod calls;
#[cfg(test)]
mod folder;
#[cfg(test)]
mod lives;
#[cfg(test)]
mod rubbish;
#[cfg(test)]
mod script;
#[cfg(test)]
mod serving;
#[cfg(test)]
mod terms;
#[cfg(test)]
mod world;
