// VIEW-CHANGEs that are kept.
ghost use Rattle.std.specs.Prelude.{◌≡◌, ◌++◌, OnOk};
ghost use Rattle.bfs_codec.specs.Codes.{Reads};
ghost use Rattle.bfs_saving.specs.Parts.{FitChanges, changes_from, changes_text};

use crate::items::{Saved, put_many, put_optional};
use crate::reader::SavedReader;
use bfs_codec::DecodeError;
use bfs_messages::{Signed, ViewChange};
use bfs_types::Memory;
use bfs_view_change::KeptViewChanges;
use std::alloc::Global;

/// Appends the text of VIEW-CHANGEs that are kept. `Memory` if memory runs out.
#[tactic(auto, using(std::proofs::lemmas::List::append_assoc))]
pub fn put_changes(kept: &KeptViewChanges, alloc: Global, out: &mut Vec<u8>) -> Result<(), Memory>
    ensures text { OnOk result (out.new.items ≡ out.old.items ++ changes_text kept.now) }
    ensures fits { OnOk result (FitChanges kept.now) }
{
    put_many(kept.asked(), alloc, out)?;
    put_many(kept.changes(), alloc, out)?;
    put_optional(kept.own(), alloc, out)
}

/// Reads VIEW-CHANGEs that are kept.
#[tactic(auto, unfolding(crate::specs::Parts::changes_from))]
pub(crate) fn read_changes(reader: &mut SavedReader<'_>) -> Result<KeptViewChanges, DecodeError>
    ensures { Reads (λ kept. kept) result (changes_from reader.old) reader.new }
{
    let asked = reader.many::<u64>()?;
    let changes = reader.many::<Option<Signed<ViewChange>>>()?;
    let own = Option::<Signed<ViewChange>>::read(reader)?;
    match KeptViewChanges::from_parts(asked, changes, own) {
        Some(kept) => Ok(kept),
        None => Err(DecodeError::Malformed),
    }
}
