//! ONC RPC version 2 (RFC 5531) for a server of NFS version 2: a message read as a call, or the reason for which it is refused,
//! and the headers of replies.
#![tactic(auto)]

mod call;
mod cred;
mod reject;
mod reply;

pub use bfs_types::Cred;
pub use call::{Call, parse_call};
pub use reject::Reject;
pub use reply::{put_success, write_garbage, write_reject, write_success};
