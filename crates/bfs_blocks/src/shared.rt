// Bytes that never change again, and their digest: what the blocks of copies of a file share.
ghost use Rattle.std.specs.Prelude.{◌≡◌, ◌≤◌, length, take, IfOk, IfErr, IfSome};
ghost use Rattle.sha2.specs.Sha256.{sha256};

use std::alloc::{AllocError, Global};
use std::marker::Model;
use std::sync::Arc;

/// Bytes that never change, and their SHA-256 (FIPS 180-4).
#[derive(Debug, Drop)]
pub(crate) struct Hashed {
    bytes: Vec<u8>,
    digest: [u8; 32],
}

impl Model for Hashed {
    ghost use Rattle.std.specs.Prelude.{◌≡◌, ℕ, List};
    ghost use Rattle.sha2.specs.Sha256.{sha256};

    ghost Value = { List ℕ };

    ghost view = { λ hashed. hashed.bytes.items };

    ghost invariant = { λ hashed. hashed.digest ≡ sha256 hashed.bytes.items };
}

impl Hashed {
    fn as_slice(&self) -> &[u8]
        ensures { result.now ≡ self.now }
    {
        self.bytes.as_slice()
    }

    fn digest(&self) -> [u8; 32]
        ensures { result ≡ sha256 self.now }
    {
        self.digest
    }

    fn into_bytes(self) -> Vec<u8>
        ensures { result.items ≡ self }
    {
        let Hashed { bytes, digest: _ } = self;
        bytes
    }
}

/// The first so many of bytes that never change. A copy shares them.
#[derive(Debug, Drop)]
pub(crate) struct Shared {
    hashed: Arc<Hashed>,
    count: usize,
}

impl Model for Shared {
    ghost use Rattle.std.specs.Prelude.{◌≤◌, ℕ, List, length, take};
    ghost use Rattle.std.specs.Arc.{arc_value};

    ghost Value = { List ℕ };

    ghost view = { λ shared. take shared.count (arc_value shared.hashed) };

    ghost invariant = { λ shared. shared.count ≤ length (arc_value shared.hashed) };
}

impl Shared {
    /// Those bytes, of which that is the SHA-256. If memory runs out, they are given back.
    pub(crate) fn new(alloc: Global, bytes: Vec<u8>, digest: [u8; 32]) -> Result<Shared, Vec<u8>>
        requires { digest ≡ sha256 bytes.items }
        ensures ok { IfOk result (λ shared. shared ≡ bytes.items) }
        ensures err { IfErr result (λ given. given.items ≡ bytes.items) }
    {
        let count = bytes.len();
        match Arc::new(alloc, Hashed { bytes, digest }) {
            Ok(hashed) => Ok(Shared { hashed, count }),
            Err(refused) => Err(refused.value.into_bytes()),
        }
    }

    /// How many they are.
    pub(crate) fn len(&self) -> usize
        ensures { result ≡ length self.now }
    {
        self.count
    }

    /// The bytes.
    pub(crate) fn as_slice(&self) -> &[u8]
        ensures { result.now ≡ self.now }
    {
        let (first, _) = self.hashed.as_slice().split_at(self.count);
        first
    }

    /// Their SHA-256, or `None` if some were cut off.
    pub(crate) fn digest(&self) -> Option<[u8; 32]>
        ensures { IfSome result (λ digest. digest ≡ sha256 self.now) }
    {
        if self.count == self.hashed.as_slice().len() {
            Some(self.hashed.digest())
        } else {
            None
        }
    }

    /// Cuts off those behind.
    pub(crate) fn cut(&mut self, count: usize)
        requires { count ≤ length self.old }
        ensures { self.new ≡ take count self.old }
    {
        self.count = count;
    }

    /// The same bytes, shared once more.
    pub(crate) fn share(&self) -> Result<Shared, AllocError>
        ensures { IfOk result (λ copy. copy ≡ self.now) }
    {
        let hashed = Arc::try_clone(&self.hashed)?;
        Ok(Shared {
            hashed,
            count: self.count,
        })
    }

    /// The bytes without a copy of them, if no other block shares them; else this one is given back.
    pub(crate) fn into_own(self) -> Result<Vec<u8>, Shared>
        ensures own { IfOk result (λ bytes. bytes.items ≡ self) }
        ensures shared { IfErr result (λ given. given ≡ self) }
    {
        let Shared { hashed, count } = self;
        match Arc::try_unwrap(hashed) {
            Ok(hashed) => {
                let mut bytes = hashed.into_bytes();
                bytes.truncate(count);
                Ok(bytes)
            }
            Err(hashed) => Err(Shared { hashed, count }),
        }
    }
}
