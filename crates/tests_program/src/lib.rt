//! Traces and their verbs, the command line, and runs of traces, as tests whose expected values come from outside.
#![tactic(auto)]

#[cfg(test)]
mod callers;
#[cfg(test)]
mod changed;
#[cfg(test)]
mod command_line;
#[cfg(test)]
mod engines;
#[cfg(test)]
mod input;
#[cfg(test)]
mod output;
#[cfg(test)]
mod populations;
#[cfg(test)]
mod settings;
#[cfg(test)]
mod traces;
#[cfg(test)]
mod verbs;
#[cfg(test)]
mod writers;
