//! Calls one behind another, each with the results that it is to get.
ghost use Rattle.std.specs.Prelude.{◌∷◌, [], ◌++◌, ◌≡◌, IfOk};
ghost use Rattle.std.specs.List.{flat_map};
ghost use Rattle.bfs_model.specs.Bytes.Items.{words};

use crate::words::{call, put_parts};
use bfs_types::Memory;
use bfs_xdr::put_words;
use std::alloc::Global;

/// A call's procedure, the words of its arguments, and those of the results that it is to get.
pub struct Step(
    pub u32,
    pub &'static [&'static [u32]],
    pub &'static [&'static [u32]],
);

impl Step {
    /// The bytes of the call, by a caller without a credential.
    pub fn request(&self, alloc: Global, xid: u32) -> Result<Vec<u8>, Memory>
        ensures { IfOk result (λ bytes. bytes.items ≡ words (xid ∷ 0 ∷ 2 ∷ 100003 ∷ 2 ∷ self.now.0 ∷ 0 ∷ 0 ∷ 0 ∷ 0 ∷ []) ++ flat_map (λ part. words part.now) self.now.1.now) }
    {
        let Step(procedure, arguments, _) = self;
        let mut bytes = call(alloc, xid, *procedure)?;
        put_parts(&mut bytes, arguments)?;
        Ok(bytes)
    }

    /// The bytes of the reply to the call, with those results.
    pub fn reply(&self, alloc: Global, xid: u32) -> Result<Vec<u8>, Memory>
        ensures { IfOk result (λ bytes. bytes.items ≡ words (xid ∷ 1 ∷ 0 ∷ 0 ∷ 0 ∷ 0 ∷ []) ++ flat_map (λ part. words part.now) self.now.2.now) }
    {
        let Step(_, _, results) = self;
        let mut bytes = Vec::new(alloc);
        put_words(&mut bytes, &[xid, 1, 0, 0, 0, 0])?;
        put_parts(&mut bytes, results)?;
        Ok(bytes)
    }
}
