ghost use Rattle.std.specs.Prelude.{◌≡◌, take, drop};
ghost use Rattle.lms.specs.Chains.{front};
ghost use Rattle.lms.specs.Secrets.{randomizer, secret, value_after};
ghost use Rattle.lms.specs.Signers.{child_key};

use crate::bytes::array_at;
use crate::chains::{chain_block, one_step, run_steps};
use crate::types::{LmsType, OtsType, TreeTypes};

// what stands before what is hashed of randomizers, behind the numbers of all chains
const RANDOMIZER: u16 = 0xfffd;

// and of seeds and of `id`s of trees below a leaf
const CHILD_SEED: u16 = 0xfffe;

const CHILD_ID: u16 = 0xffff;

/// A private key of one tree: what all its secrets are made from (RFC 8554 appendix A). Each of its leaves may sign one text only; who has two signatures of
/// different texts by one leaf can make more.
#[derive(Clone, Copy, PartialEq, Eq)]
pub struct PrivateKey {
    /// The type of its tree.
    pub lms: LmsType,
    /// The type of its one-time signatures.
    pub ots: OtsType,
    /// What tells its tree from every other one.
    pub id: [u8; 16],
    /// What its secrets are made from: 32 random bytes.
    pub seed: [u8; 32],
}

impl PrivateKey {
    // the key of the tree below a leaf
    pub(crate) fn child(&self, types: TreeTypes, leaf: u32) -> PrivateKey
        ensures { result ≡ child_key self.now types leaf }
    {
        PrivateKey {
            lms: types.lms,
            ots: types.ots,
            id: array_at(&self.secret(leaf, CHILD_ID), 0),
            seed: self.secret(leaf, CHILD_SEED),
        }
    }

    // what is hashed beside a text that a leaf signs
    pub(crate) fn randomizer(&self, leaf: u32) -> [u8; 32]
        ensures { result ≡ randomizer self.now leaf }
    {
        self.secret(leaf, RANDOMIZER)
    }

    // the value of a chain after so many steps
    pub(crate) fn value_after(&self, leaf: u32, chain: u16, count: u8) -> [u8; 32]
        ensures { result ≡ value_after self.now leaf chain count }
    {
        let mut block = self.secret_block(leaf, chain);
        run_steps(&mut block, 0, count);
        array_at(&block, 23)
    }

    // what is made from the seed for a leaf
    fn secret(&self, leaf: u32, kind: u16) -> [u8; 32]
        ensures { result ≡ secret self.now leaf kind }
    {
        array_at(&self.secret_block(leaf, kind), 23)
    }

    // a block that holds what is made from the seed for a leaf
    fn secret_block(&self, leaf: u32, kind: u16) -> [u8; 55]
        ensures front { take 22 result ≡ front self.now.id leaf kind }
        ensures value { drop 23 result ≡ secret self.now leaf kind }
    {
        let mut block = chain_block(&self.id, leaf, kind, &self.seed);
        one_step(&mut block, 255);
        block
    }
}
