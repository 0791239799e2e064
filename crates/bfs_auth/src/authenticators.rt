ghost use Rattle.std.specs.Prelude.{◌≡◌, ◌<◌, ◌≤◌, [], ◌∷◌, ◌++◌, length, IfOk, IfSome, OnOk, OnErr};
ghost use Rattle.std.specs.Option.{option_map};
ghost use Rattle.bfs_model.specs.Server.Limits.{most_replicas};
ghost use Rattle.bfs_auth.specs.Authenticators.{AreHashes, bytes_to_hash, entries_of, entry_at, entry_for, signature_in};
ghost use Rattle.bfs_auth.specs.Signatures.{most_signature_bytes};
ghost use Rattle.bfs_auth.specs.declared.authenticators.Authenticator.TheVariants as auth;

use crate::principals::Principal;
use bfs_types::{Bytes, Memory, TryClone};
use smallvec::SmallVec;
use std::alloc::{AllocError, Global};
use std::marker::Model;
use std::sync::Arc;

/// How many bytes a signature has at most.
pub const MOST_SIGNATURE_BYTES: usize = 12_288;

/// Keyed hashes of one message: an entry of 32 bytes for each replica, by their numbers, or one entry for a client (TOCS 2002
/// section 3). At most `MOST_REPLICAS` entries.
#[derive(Debug, Drop)]
pub struct KeyedHashes {
    // one lies in the value itself: a client's, and where there is one replica
    entries: SmallVec<[u8; 32], 1>,
}

impl Model for KeyedHashes {
    ghost use Rattle.std.specs.Prelude.{ℕ, List, ◌≡◌, ◌≤◌, length, All};
    ghost use Rattle.bfs_model.specs.Server.Limits.{most_replicas};

    ghost Value = { List (List ℕ) };

    ghost view = { λ hashes. hashes.entries.items };

    ghost invariant = { λ hashes. (length hashes.entries.items ≤ most_replicas) × All (λ entry. length entry ≡ 32) hashes.entries.items };
}

/// The bytes of a signature, at most `MOST_SIGNATURE_BYTES` of them. Copies share them.
#[derive(Debug, Drop)]
pub struct SignatureBytes {
    bytes: Arc<Bytes<MOST_SIGNATURE_BYTES>>,
}

impl Model for SignatureBytes {
    ghost use Rattle.std.specs.Prelude.{ℕ, List};
    ghost use Rattle.std.specs.Arc.{arc_value};

    ghost Value = { List ℕ };

    ghost view = { λ signature. arc_value signature.bytes };
}

/// What tells a message's receivers that it is its sender's.
#[derive(Debug, Drop)]
pub enum Authenticator {
    /// Keyed hashes, of which each receiver checks its own.
    Hashes(KeyedHashes),
    /// A signature, which each receiver checks alike.
    Signature(SignatureBytes),
}

impl KeyedHashes {
    /// None.
    pub fn new(alloc: Global) -> KeyedHashes
        ensures { result ≡ [] }
    {
        KeyedHashes {
            entries: SmallVec::new(alloc),
        }
    }

    /// Puts an entry behind the others. `Memory` if memory runs out; then nothing changes.
    pub fn push(&mut self, entry: [u8; 32]) -> Result<(), Memory>
        requires { length self.old < most_replicas }
        ensures ok { OnOk result (self.new ≡ self.old ++ entry ∷ []) }
        ensures err { OnErr result (self.new ≡ self.old) }
    {
        Ok(self.entries.push(entry)?)
    }

    /// The entries, in order.
    pub fn as_slice(&self) -> &[[u8; 32]]
        ensures value { result.now ≡ self.now }
        ensures limits { AreHashes result.now }
    {
        self.entries.as_slice()
    }

    /// The entry for a receiver: that of its number for a replica, the first for a client.
    pub fn entry_for(&self, receiver: Principal) -> Option<&[u8; 32]>
        ensures { option_map (λ entry. entry.now) result ≡ entry_at receiver self.now }
    {
        match receiver {
            Principal::Replica(number) => self.as_slice().get(number as usize),
            Principal::Client(_) => self.as_slice().first(),
        }
    }
}

impl SignatureBytes {
    /// A copy of these bytes, at most `MOST_SIGNATURE_BYTES`. `Memory` if memory runs out.
    pub(crate) fn new(alloc: Global, bytes: &[u8]) -> Result<SignatureBytes, Memory>
        requires { length bytes.now ≤ most_signature_bytes }
        ensures { IfOk result (λ made. made ≡ bytes.now) }
    {
        Ok(SignatureBytes {
            bytes: Arc::new(alloc, Bytes::new(alloc, bytes)?)?,
        })
    }

    /// The bytes.
    pub fn as_slice(&self) -> &[u8]
        ensures value { result.now ≡ self.now }
        ensures within { length self.now ≤ most_signature_bytes }
    {
        self.bytes.as_slice()
    }

    /// The same bytes, shared. An error where so many share them that no more can.
    pub(crate) fn share(&self) -> Result<SignatureBytes, AllocError>
        ensures { IfOk result (λ shared. shared ≡ self.now) }
    {
        Ok(SignatureBytes {
            bytes: Arc::try_clone(&self.bytes)?,
        })
    }
}

impl Authenticator {
    /// Keyed hashes with no entries.
    pub fn new(alloc: Global) -> Authenticator
        ensures { result ≡ auth.Hashes [] }
    {
        Authenticator::Hashes(KeyedHashes::new(alloc))
    }

    /// A signature with a copy of these bytes, at most `MOST_SIGNATURE_BYTES`. `Memory` if memory runs out.
    pub fn of_signature(alloc: Global, bytes: &[u8]) -> Result<Authenticator, Memory>
        requires { length bytes.now ≤ most_signature_bytes }
        ensures { IfOk result (λ made. made ≡ auth.Signature bytes.now) }
    {
        Ok(Authenticator::Signature(SignatureBytes::new(alloc, bytes)?))
    }

    /// The entries of keyed hashes, in order; none of a signature.
    pub fn entries(&self) -> &[[u8; 32]]
        ensures value { result.now ≡ entries_of self.now }
        ensures limits { AreHashes result.now }
    {
        match self {
            Authenticator::Hashes(hashes) => hashes.as_slice(),
            Authenticator::Signature(_) => &[],
        }
    }

    /// The entry of keyed hashes for a receiver: that of its number for a replica, the first for a client. `None` where there is none,
    /// and of a signature.
    pub fn entry_for(&self, receiver: Principal) -> Option<&[u8; 32]>
        ensures { option_map (λ entry. entry.now) result ≡ entry_for receiver self.now }
    {
        match self {
            Authenticator::Hashes(hashes) => hashes.entry_for(receiver),
            Authenticator::Signature(_) => None,
        }
    }

    /// About how many bytes are hashed to check it, beside the text, as `least_items` counts them.
    pub fn bytes_to_hash(&self) -> usize
        ensures { result ≡ bytes_to_hash self.now }
    {
        match self {
            Authenticator::Hashes(_) => 0,
            Authenticator::Signature(_) => 262_144,
        }
    }

    pub(crate) fn signature_bytes(&self) -> Option<&SignatureBytes>
        ensures { option_map (λ bytes. bytes.now) result ≡ signature_in self.now }
    {
        match self {
            Authenticator::Hashes(_) => None,
            Authenticator::Signature(signature) => Some(signature),
        }
    }

    /// The bytes of a signature; `None` of keyed hashes.
    pub fn signature(&self) -> Option<&[u8]>
        ensures value { option_map (λ bytes. bytes.now) result ≡ signature_in self.now }
        ensures within { IfSome result (λ bytes. length bytes.now ≤ most_signature_bytes) }
    {
        match self {
            Authenticator::Hashes(_) => None,
            Authenticator::Signature(signature) => Some(signature.as_slice()),
        }
    }
}

impl TryClone for KeyedHashes {
    fn try_clone(&self, alloc: Global) -> Result<KeyedHashes, Memory> {
        Ok(KeyedHashes {
            entries: SmallVec::from_slice(alloc, self.as_slice())?,
        })
    }
}

impl TryClone for SignatureBytes {
    fn try_clone(&self, _alloc: Global) -> Result<SignatureBytes, Memory> {
        Ok(self.share()?)
    }
}

impl TryClone for Authenticator {
    fn try_clone(&self, alloc: Global) -> Result<Authenticator, Memory> {
        match self {
            Authenticator::Hashes(hashes) => Ok(Authenticator::Hashes(hashes.try_clone(alloc)?)),
            Authenticator::Signature(signature) => {
                Ok(Authenticator::Signature(signature.try_clone(alloc)?))
            }
        }
    }
}
