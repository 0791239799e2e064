//! Replicas of which some lie, in schedules that are drawn at random, and in worked ones.
#![tactic(auto)]

#[cfg(test)]
mod playing;
#[cfg(test)]
mod schedules;
#[cfg(test)]
mod scripts;
