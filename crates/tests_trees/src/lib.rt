//! Worked examples of inodes, directories and trees, as tests whose expected values were written by hand.
#![tactic(auto)]

#[cfg(test)]
mod ancestry;
#[cfg(test)]
mod growing;
#[cfg(test)]
mod inodes;
#[cfg(test)]
mod pages;
#[cfg(test)]
mod stores;
#[cfg(test)]
mod trees;
