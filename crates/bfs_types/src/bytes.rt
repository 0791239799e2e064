ghost use Rattle.std.specs.Prelude.{◌≡◌, ◌≤◌, length, IfOk};

use crate::limits::{MOST_NAME_BYTES, MOST_PATH_BYTES};
use crate::memory::Memory;
use std::alloc::Global;
use std::marker::Model;

/// Bytes of a request, a reply, a path or a name, at most `MOST` of them.
#[derive(Debug, Drop)]
pub struct Bytes<const MOST: usize> {
    bytes: Vec<u8>,
}

/// A name in a directory: at most `MOST_NAME_BYTES` (RFC 1094 section 2.3.7, filename).
pub type Name = Bytes<MOST_NAME_BYTES>;

/// The path that a symbolic link holds: at most `MOST_PATH_BYTES` (RFC 1094 section 2.3.8, path).
pub type LinkPath = Bytes<MOST_PATH_BYTES>;

impl<const MOST: usize> Model for Bytes<MOST> {
    ghost use Rattle.std.specs.Prelude.{ℕ, List, ◌≤◌, length};

    ghost Value = { List ℕ };

    ghost view = { λ held. held.bytes.items };

    ghost invariant = { λ held. length held.bytes.items ≤ MOST };
}

impl<const MOST: usize> Bytes<MOST> {
    /// A copy of those bytes. `Memory` if memory runs out.
    pub fn new(alloc: Global, bytes: &[u8]) -> Result<Bytes<MOST>, Memory>
        requires { length bytes.now ≤ MOST }
        ensures { IfOk result (λ held. held ≡ bytes.now) }
    {
        let mut held = Vec::new(alloc);
        held.extend_from_slice(bytes)?;
        Ok(Bytes { bytes: held })
    }

    /// How many bytes there are.
    pub fn len(&self) -> usize
        ensures value { result ≡ length self.now }
        ensures within { result ≤ MOST }
    {
        self.bytes.len()
    }

    /// The bytes.
    pub fn as_slice(&self) -> &[u8]
        ensures value { result.now ≡ self.now }
        ensures within { length result.now ≤ MOST }
    {
        self.bytes.as_slice()
    }
}
