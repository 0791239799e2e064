ghost use Rattle.std.specs.Prelude.{◌≡◌};
ghost use Rattle.lms.specs.Keys.{public_key_bytes, public_key_in};

use crate::bytes::{array_at, put_at, word_at};
use crate::types::{LmsType, OtsType};

/// The public key of one tree (RFC 8554 section 5.3).
#[derive(Clone, Copy, Debug, PartialEq, Eq)]
pub struct PublicKey {
    /// The type of its tree.
    pub lms: LmsType,
    /// The type of its one-time signatures.
    pub ots: OtsType,
    /// What tells its tree from every other one, and all that is hashed for it begins with.
    pub id: [u8; 16],
    /// The root of its tree.
    pub root: [u8; 32],
}

impl PublicKey {
    /// How many bytes a public key has.
    pub const LENGTH: usize = 56;

    /// The public key that the bytes are. `None` where they are not 56, or begin with typecodes of no known types.
    pub fn from_bytes(bytes: &[u8]) -> Option<PublicKey>
        ensures { result ≡ public_key_in bytes.now }
    {
        if bytes.len() != PublicKey::LENGTH {
            return None;
        }
        let lms = LmsType::from_code(word_at(bytes, 0))?;
        let ots = OtsType::from_code(word_at(bytes, 4))?;
        Some(PublicKey {
            lms,
            ots,
            id: array_at(bytes, 8),
            root: array_at(bytes, 24),
        })
    }

    /// Its bytes: two typecodes, then `id` and `root`.
    pub fn to_bytes(&self) -> [u8; 56]
        ensures { result ≡ public_key_bytes self.now }
    {
        let mut bytes = [0; 56];
        put_at(&mut bytes, 0, &self.lms.code().to_be_bytes());
        put_at(&mut bytes, 4, &self.ots.code().to_be_bytes());
        put_at(&mut bytes, 8, &self.id);
        put_at(&mut bytes, 24, &self.root);
        bytes
    }
}
