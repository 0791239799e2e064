//! What is executed on file systems that were restored, and the digests that inodes keep, as tests.
#![tactic(auto)]

#[cfg(test)]
mod executed;
#[cfg(test)]
mod files;
#[cfg(test)]
mod kept;
