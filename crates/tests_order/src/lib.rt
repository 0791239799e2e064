//! One replica's order, as tests: a worked run, each refusal with those before and behind it, certificates, checkpoints and views, among 1, 4 and 31
//! replicas. And the requests that wait to be ordered, and calls as values.
#![tactic(auto)]

#[cfg(test)]
mod checkpoints;
#[cfg(test)]
mod normal;
#[cfg(test)]
mod parts;
#[cfg(test)]
mod pending;
#[cfg(test)]
mod performing;
#[cfg(test)]
mod refusals;
#[cfg(test)]
mod replica;
#[cfg(test)]
mod script;
#[cfg(test)]
mod views;
