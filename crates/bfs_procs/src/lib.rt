//! The procedures of NFS version 2 (RFC 1094 section 2.2), and the way from the bytes of a request to those of its reply.
#![tactic(auto)]

mod attributes;
mod calls;
mod data;
mod found;
mod making;
mod names;
mod not_done;
mod removing;
mod renaming;
mod requests;
mod status;
mod steps;
mod successes;

pub use calls::run;
pub use requests::answer;
