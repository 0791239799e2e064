//! Clients see one server, which answers one call after another: schedules with replicas and clients of which some lie, and worked ones.
#![tactic(auto)]

#[cfg(test)]
mod book;
#[cfg(test)]
mod correct;
#[cfg(test)]
mod crowd;
#[cfg(test)]
mod faulty;
#[cfg(test)]
mod judging;
#[cfg(test)]
mod lies;
#[cfg(test)]
mod playing;
#[cfg(test)]
mod scripts;
#[cfg(test)]
mod seeds;
#[cfg(test)]
mod seen;
#[cfg(test)]
mod server;
