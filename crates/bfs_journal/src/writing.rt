ghost use Rattle.std.specs.Prelude.{◌≡◌, ◌++◌, OnOk};
ghost use Rattle.bfs_journal.specs.Records.{IsBody, record_of};

use sha2::{Digest, Sha256};
use std::alloc::AllocError;

/// The most bytes of a record's body.
pub const MOST_BODY_BYTES: usize = 1 << 30;

/// Puts the record of a body behind the bytes: its length in four bytes, twice, its SHA-256 (FIPS 180-4), and the body. After an error, which is want of memory,
/// a part of it may stand there.
#[tactic(auto, unfolding(crate::specs::Records::record_of))]
pub fn put_record(bytes: &mut Vec<u8>, body: &[u8]) -> Result<(), AllocError>
    requires { IsBody body.now }
    ensures { OnOk result (bytes.new.items ≡ bytes.old.items ++ record_of body.now) }
{
    let len = (body.len() as u32).to_be_bytes();
    bytes.extend_from_slice(&len)?;
    bytes.extend_from_slice(&len)?;
    bytes.extend_from_slice(&Sha256::digest(body))?;
    bytes.extend_from_slice(body)
}
