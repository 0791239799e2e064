//! The way of inodes from a tree to the jobs that change them, and back.
#![tactic(auto)]

mod held;
mod job;
mod laws;
mod loans;
mod moves;
mod parts;
mod results;
mod share;

pub use job::{Done, Job, run_job};
pub use laws::{
    complete_results_are_taken, results_are_out, results_come_home, split_requests_are_carried_out,
};
pub use loans::{Loan, Loans};
pub use parts::{split, split_part, split_request};
pub use results::{MergeError, NumberedReply, merge, merge_one};
pub use share::Share;
