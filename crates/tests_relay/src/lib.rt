//! A relay, as tests: what it answers by itself, on bytes of RFC 1094 appendix A and RFC 5531; calls that replicas answer, and when; calls that wait; what it
//! sends again, and when; what it passes over; and, where it is a filter's machine, which timestamps it reserves before a request leaves, and which indexes of its
//! key it signs by.
#![tactic(auto)]

#[cfg(test)]
mod again;
#[cfg(test)]
mod asking;
#[cfg(test)]
mod filtering;
#[cfg(test)]
mod given_keys;
#[cfg(test)]
mod leading;
#[cfg(test)]
mod own_replies;
#[cfg(test)]
mod rubbish;
#[cfg(test)]
mod run;
#[cfg(test)]
mod script;
#[cfg(test)]
mod signing;
#[cfg(test)]
mod stores;
#[cfg(test)]
mod waiting;
