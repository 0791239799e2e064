//! What processes of the service read and write: turns and answers, beside bytes that were written by hand; filters, turns in and answers out, over readers and
//! writers in memory, with a machine and a writer that refuse; and documents of clusters, with what an operator is told of those that are none.
#![tactic(auto)]

#[cfg(test)]
mod answers;
#[cfg(test)]
mod documents;
#[cfg(test)]
mod faults;
#[cfg(test)]
mod serving;
#[cfg(test)]
mod turns;
#[cfg(test)]
mod writers;
