//! A relay: it takes calls of NFS clients, has them ordered as requests of BFS clients whose keys it holds, counts the replicas' replies, and answers. It
//! answers NULL and MOUNT, and refuses, by itself. What it does in a turn is a function of the turn; sockets, files and clocks are others'.
#![tactic(auto)]

mod given_keys;
mod laws;
mod leaders;
mod mount;
mod own_replies;
mod parcels;
mod program_calls;
mod relay;
mod seats;
mod turns;

pub use laws::what_is_told_has_its_origin;
pub use relay::{MOST_WAITING, Relay};
