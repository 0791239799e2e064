//! The bytes of files in blocks that copies share: each call, and changes that are drawn at random beside plain vectors of bytes.
#![tactic(auto)]

#[cfg(test)]
mod calls;
#[cfg(test)]
mod changes;
#[cfg(test)]
mod files;
#[cfg(test)]
mod owners;
#[cfg(test)]
mod refusals;
