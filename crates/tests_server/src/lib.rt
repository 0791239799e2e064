//! Procedures and batches, one request after another, as tests whose expected values come from outside: the standards' own
//! tables, and bytes that were written by hand. And who may do what: each call that looks at modes, by callers of each class, at all modes of an inode.
#![tactic(auto)]

#[cfg(test)]
mod answers;
#[cfg(test)]
mod batches;
#[cfg(test)]
mod callers;
#[cfg(test)]
mod fresh;
#[cfg(test)]
mod hostile;
#[cfg(test)]
mod limits;
#[cfg(test)]
mod modes;
#[cfg(test)]
mod owners;
#[cfg(test)]
mod parts;
#[cfg(test)]
mod refusals;
#[cfg(test)]
mod session;
#[cfg(test)]
mod steps;
