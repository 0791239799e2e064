//! Keyed hashes that are wrong.
use bfs_auth::{Authenticator, KeyedHashes, MOST_REPLICAS};
use bfs_types::Memory;
use std::alloc::Global;

/// The entries of an authenticator, with the first byte of that replica's changed.
pub fn with_changed_entry(
    alloc: Global,
    auth: &Authenticator,
    replica: usize,
) -> Result<Authenticator, Memory> {
    let mut changed = KeyedHashes::new(alloc);
    for (place, entry) in auth.entries().iter().enumerate() {
        let mut entry = *entry;
        if place == replica {
            entry[0] ^= 1;
        }
        if changed.as_slice().len() < MOST_REPLICAS {
            changed.push(entry)?;
        }
    }
    Ok(Authenticator::Hashes(changed))
}
