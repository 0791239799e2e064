//! Worked examples of items, calls, results and times, as tests whose expected values come from outside: the standards' own tables, and bytes that were
//! written by hand. And messages of all kinds, beside bytes that an implementation in Python spelled.
#![tactic(auto)]

#[cfg(test)]
mod arguments;
#[cfg(test)]
mod calls;
#[cfg(test)]
mod changed;
#[cfg(test)]
mod items;
#[cfg(test)]
mod kinds;
#[cfg(test)]
mod malformed;
#[cfg(test)]
mod readings;
#[cfg(test)]
mod results;
#[cfg(test)]
mod sharing;
#[cfg(test)]
mod spelled;
#[cfg(test)]
mod times;
