ghost use Rattle.std.specs.Prelude.{◌≡◌, ◌≤◌, ◌++◌, bytes_eq, length, take, drop, map, IfOk, IfSome, IfNone};
ghost use Rattle.sha2.specs.Sha256.{sha256};
ghost use Rattle.bfs_journal.specs.Records.{IsBody, LacksRecord, Splits, journal_of, record_of};
ghost use Rattle.bfs_journal.specs.Rests.{digest_at, head_bytes, rest_of};

use crate::rest::{HEAD_BYTES, Rest, rest_of, told_length};
use sha2::{Digest, Sha256};
use std::alloc::{AllocError, Global};

/// What a journal tells.
#[derive(Debug, Drop)]
pub struct Recovered<'a> {
    /// The bodies of its whole records, in their order.
    pub bodies: Vec<&'a [u8]>,
    /// Where the last of them ends, in bytes from the front.
    pub end: usize,
    /// What stands from there on.
    pub rest: Rest,
}

/// Reads a journal's whole records, up to the first that is none. Each byte is hashed at most once, and none is copied. The error is want of memory.
pub fn read_journal(alloc: Global, bytes: &[u8]) -> Result<Recovered<'_>, AllocError>
    ensures split { IfOk result (λ found. Splits bytes.now (map (λ body. body.now) found.bodies.items) (drop found.end bytes.now)) }
    ensures within { IfOk result (λ found. found.end ≤ length bytes.now) }
    // Cut there, the bytes are the journal of these bodies.
    ensures cut { IfOk result (λ found. take found.end bytes.now ≡ journal_of (map (λ body. body.now) found.bodies.items)) }
    ensures rest { IfOk result (λ found. found.rest ≡ rest_of (drop found.end bytes.now)) }
{
    let mut bodies = Vec::new(alloc);
    let mut left = bytes;
    while let Some((body, behind)) = first_record(left) {
        bodies.push(body)?;
        left = behind;
    }
    Ok(Recovered {
        bodies,
        end: bytes.len() - left.len(),
        rest: rest_of(left),
    })
}

// the body of the record at the front, and what stands behind it
fn first_record(bytes: &[u8]) -> Option<(&[u8], &[u8])>
    ensures found { IfSome result (λ found. bytes.now ≡ record_of found.0.now ++ found.1.now) }
    ensures body { IfSome result (λ found. IsBody found.0.now) }
    ensures none { IfNone result (LacksRecord bytes.now) }
{
    if bytes.len() < HEAD_BYTES {
        return None;
    }
    let Some(len) = told_length(bytes) else {
        return None;
    };
    let (_, behind) = bytes.split_at(HEAD_BYTES);
    if behind.len() < len {
        return None;
    }
    let (body, rest) = behind.split_at(len);
    if has_digest(bytes, body) {
        Some((body, rest))
    } else {
        None
    }
}

// whether the body has the digest that a record at the front tells
fn has_digest(bytes: &[u8], body: &[u8]) -> bool
    requires { head_bytes ≤ length bytes.now }
    ensures { result ≡ bytes_eq (sha256 body.now) (digest_at bytes.now) }
{
    Sha256::digest(body).as_slice() == &bytes[8..HEAD_BYTES]
}
