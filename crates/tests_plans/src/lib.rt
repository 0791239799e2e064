//! What calls touch, and how batches are planned, as worked examples whose expected values were written by hand and beside a plain planner; and groups of
//! calls that overtake each other on the pure machine, beside the same calls executed one after another.
#![tactic(auto)]

#[cfg(test)]
mod generated_groups;
#[cfg(test)]
mod generated_plans;
#[cfg(test)]
mod groups;
#[cfg(test)]
mod plans;
#[cfg(test)]
mod refusals;
#[cfg(test)]
mod renames;
#[cfg(test)]
mod touching;
#[cfg(test)]
mod worked_groups;
