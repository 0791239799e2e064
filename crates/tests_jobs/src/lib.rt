//! Jobs, as tests: split off a tree, run one after another or by workers, and merged; which results are refused; what runs at one time, by
//! workers and by engines, and that each job is run once and has its result once.
#![tactic(auto)]

#[cfg(test)]
mod engines;
#[cfg(test)]
mod jobs;
#[cfg(test)]
mod merges;
#[cfg(test)]
mod queues;
#[cfg(test)]
mod results;
#[cfg(test)]
mod splits;
#[cfg(test)]
mod workers;
