//! The view change, as tests: which VIEW-CHANGEs are valid, what is chosen from them, which NEW-VIEWs are right, and what a replica makes of its log. Then
//! one replica that changes its view: which view it is to follow, and which VIEW-CHANGEs and NEW-VIEWs it refuses.
#![tactic(auto)]

#[cfg(test)]
mod asked;
#[cfg(test)]
mod certificates;
#[cfg(test)]
mod choices;
#[cfg(test)]
mod entering;
#[cfg(test)]
mod following;
#[cfg(test)]
mod making;
#[cfg(test)]
mod new_views;
#[cfg(test)]
mod parts;
#[cfg(test)]
mod steps;
#[cfg(test)]
mod view_changes;
