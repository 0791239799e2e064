// A block of a file: bytes of its own, or bytes that it shares.
ghost use Rattle.std.specs.Prelude.{◌≡◌, ◌+◌, ◌<◌, ◌≤◌, ◌^◌, ◌++◌, length, take, replicate, None, IfOk, IfSome, OnOk, OnErr};
ghost use Rattle.sha2.specs.Sha256.{sha256};
ghost use Rattle.bfs_blocks.specs.Blocks.{IsReady, bytes_in, put_at};

use crate::shared::Shared;
use sha2::{Digest, Sha256};
use std::alloc::{AllocError, Global};

/// Bytes of a file that stand together.
#[derive(Debug, Drop)]
pub(crate) struct Block {
    // its bytes; where it shares bytes, room for some that are to take their place
    pub(crate) own: Vec<u8>,
    pub(crate) shared: Option<Shared>,
}

impl Block {
    /// A copy of those bytes.
    pub(crate) fn new(alloc: Global, bytes: &[u8]) -> Result<Block, AllocError>
        ensures { IfOk result (λ block. bytes_in block ≡ bytes.now) }
    {
        let own = Vec::from_slice(alloc, bytes)?;
        Ok(Block { own, shared: None })
    }

    /// That many zeros.
    pub(crate) fn zeros(alloc: Global, count: usize) -> Result<Block, AllocError>
        ensures { IfOk result (λ block. bytes_in block ≡ replicate count 0) }
    {
        let mut own = Vec::new(alloc);
        own.resize(count, 0)?;
        Ok(Block { own, shared: None })
    }

    /// How many bytes there are.
    pub(crate) fn len(&self) -> usize
        ensures { result ≡ length (bytes_in self.now) }
    {
        match &self.shared {
            Some(shared) => shared.len(),
            None => self.own.len(),
        }
    }

    /// The bytes.
    pub(crate) fn as_slice(&self) -> &[u8]
        ensures { result.now ≡ bytes_in self.now }
    {
        match &self.shared {
            Some(shared) => shared.as_slice(),
            None => self.own.as_slice(),
        }
    }

    /// The SHA-256 of the bytes, if it is kept.
    pub(crate) fn digest(&self) -> Option<[u8; 32]>
        ensures { IfSome result (λ digest. digest ≡ sha256 (bytes_in self.now)) }
    {
        match &self.shared {
            Some(shared) => shared.digest(),
            None => None,
        }
    }

    /// Cuts off the bytes behind.
    pub(crate) fn cut(&mut self, count: usize)
        requires { count ≤ length (bytes_in self.old) }
        ensures { bytes_in self.new ≡ take count (bytes_in self.old) }
    {
        match &mut self.shared {
            Some(shared) => shared.cut(count),
            None => self.own.truncate(count),
        }
    }

    /// Makes the bytes its own.
    pub(crate) fn make_own(&mut self) -> Result<(), AllocError>
        ensures own { OnOk result (self.new.shared ≡ None) }
        ensures bytes { bytes_in self.new ≡ bytes_in self.old }
    {
        let Some(shared) = self.shared.take() else {
            return Ok(());
        };
        match shared.into_own() {
            Ok(bytes) => {
                self.own = bytes;
                Ok(())
            }
            Err(shared) => {
                self.own.clear();
                let copied = self.own.extend_from_slice(shared.as_slice());
                if copied.is_err() {
                    self.shared = Some(shared);
                }
                copied
            }
        }
    }

    /// Puts bytes behind them.
    pub(crate) fn extend(&mut self, bytes: &[u8]) -> Result<(), AllocError>
        ensures ok { OnOk result (bytes_in self.new ≡ bytes_in self.old ++ bytes.now) }
        ensures err { OnErr result (bytes_in self.new ≡ bytes_in self.old) }
    {
        self.make_own()?;
        self.own.extend_from_slice(bytes)
    }

    /// Makes sure that so many bytes can be put over some of them: these become its own, or there is room for those that take the place
    /// of all of them.
    pub(crate) fn make_ready(&mut self, count: usize) -> Result<(), AllocError>
        ensures ok { OnOk result (IsReady self.new count) }
        ensures bytes { bytes_in self.new ≡ bytes_in self.old }
    {
        if self.shared.is_some() && count == self.len() {
            self.own.clear();
            self.own.reserve_exact(count)
        } else {
            self.make_own()
        }
    }

    /// Puts bytes over them from a start on.
    pub(crate) fn put(&mut self, start: usize, bytes: &[u8])
        requires ready { IsReady self.old (length bytes.now) }
        requires within { start + length bytes.now ≤ length (bytes_in self.old) }
        ensures { bytes_in self.new ≡ put_at start bytes.now (bytes_in self.old) }
    {
        if self.shared.is_some() {
            self.own.extend_from_slice(bytes).unwrap();
            self.shared = None;
        } else {
            self.own[start..start + bytes.len()].copy_from_slice(bytes);
        }
    }

    /// Keeps the SHA-256 of its bytes, if it is not kept. Copies of it share the bytes then.
    pub(crate) fn keep(&mut self, alloc: Global, digest: [u8; 32]) -> Result<(), AllocError>
        requires { digest ≡ sha256 (bytes_in self.old) }
        ensures { bytes_in self.new ≡ bytes_in self.old }
    {
        if self.digest().is_some() {
            return Ok(());
        }
        self.make_own()?;
        let own = std::mem::replace(&mut self.own, Vec::new(alloc));
        match Shared::new(alloc, own, digest) {
            Ok(shared) => {
                self.shared = Some(shared);
                Ok(())
            }
            Err(own) => {
                self.own = own;
                Err(AllocError)
            }
        }
    }

    /// Hashes its bytes, if their SHA-256 is not kept, and keeps it.
    pub(crate) fn hash(&mut self, alloc: Global) -> Result<(), AllocError>
        ensures { bytes_in self.new ≡ bytes_in self.old }
    {
        if self.digest().is_some() {
            return Ok(());
        }
        let digest = Sha256::digest(self.as_slice());
        self.keep(alloc, digest)
    }

    /// A block of the same bytes, which it shares if they keep their digest.
    pub(crate) fn copy(&self, alloc: Global) -> Result<Block, AllocError>
        ensures { IfOk result (λ copy. bytes_in copy ≡ bytes_in self.now) }
    {
        match &self.shared {
            Some(shared) => {
                let shared = shared.share()?;
                Ok(Block {
                    own: Vec::new(alloc),
                    shared: Some(shared),
                })
            }
            None => Block::new(alloc, &self.own),
        }
    }
}
