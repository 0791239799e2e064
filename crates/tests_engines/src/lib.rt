//! Batches, executed by each engine with several numbers of workers, as tests: worked ones, whose expected values were written by hand, and ones that were
//! made up or generated, beside the same ones executed one request after another.
#![tactic(auto)]

#[cfg(test)]
mod alike;
#[cfg(test)]
mod batches;
#[cfg(test)]
mod conflicts;
#[cfg(test)]
mod directories;
#[cfg(test)]
mod engines;
#[cfg(test)]
mod files;
#[cfg(test)]
mod generated;
#[cfg(test)]
mod links;
#[cfg(test)]
mod listings;
#[cfg(test)]
mod many;
#[cfg(test)]
mod refusals;
#[cfg(test)]
mod times;
