//! The requests that tests make in the name of a client.
use crate::replica::members;
use bfs_codec::encode;
use bfs_testing::numbers::{CREATE, WRITE};
use bfs_testing::words::{self, A, ROOT, UNSET};
use bfs_testing_nodes::members::{request as asked, request_message};
use bfs_types::Memory;
use std::alloc::Global;

// of client 1, for 3f + 1 replicas
fn signed(alloc: Global, f: u32, timestamp: u32, call: &[u8]) -> Result<Vec<u8>, Memory> {
    let request = asked(alloc, 1, timestamp as u64, call)?;
    encode(
        alloc,
        &request_message(members(f).request(alloc, 1, request)?),
    )
}

/// The bytes of client 1's request of that timestamp to create `a` in the root, for 3f + 1 replicas.
pub fn request(alloc: Global, f: u32, timestamp: u32) -> Result<Vec<u8>, Memory> {
    let call = words::request(alloc, timestamp, CREATE, &[ROOT, A, UNSET])?;
    signed(alloc, f, timestamp, &call)
}

/// The bytes of client 1's request of that timestamp to write 8,192 bytes, which the root does not take, for four replicas.
pub fn large_request(alloc: Global, timestamp: u32) -> Result<Vec<u8>, Memory> {
    let mut call = words::request(alloc, timestamp, WRITE, &[ROOT, &[0, 0, 0, 8_192]])?;
    call.extend_from_slice(Vec::from_elem(alloc, 7u8, 8_192)?.as_slice())?;
    signed(alloc, 1, timestamp, &call)
}
