// What a saved replica is made of, and lists of it.
ghost use Rattle.std.specs.Prelude.{◌≡◌, ◌++◌, ℕ, List, flat_map, length, OnOk};
ghost use Rattle.std.specs.List.{AllByRecursion};
ghost use Rattle.std.specs.Option.{option_map};
ghost use Rattle.bfs_model.specs.Bytes.Formats.{Reading, hyper_from};
ghost use Rattle.bfs_model.specs.Bytes.Items.{hyper};
ghost use Rattle.bfs_model.specs.Server.Stored.{AreBytes, IsDouble};
ghost use Rattle.bfs_codec.specs.Codes.{Reads};
ghost use Rattle.bfs_saving.specs.Items.{FitMany, FitsLong, FitsOptional, long_text, many_text, optional_from, optional_text};

use crate::reader::SavedReader;
use bfs_codec::DecodeError;
use bfs_types::Memory;
use bfs_xdr::{put_bool, put_u64};
use std::alloc::Global;

/// A part of what is saved, which has one text, and is read back from it.
pub trait Saved: Drop + Sized {
    /// Its text.
    ghost text: { Self → List ℕ };

    /// The limits of those that have a text.
    ghost fits: { Self → Type 0 };

    /// What the bytes begin with.
    ghost from: { List ℕ → Reading Self };

    /// Appends its text. `Memory` if memory runs out.
    fn put(&self, alloc: Global, out: &mut Vec<u8>) -> Result<(), Memory>
        ensures text { OnOk result (out.new.items ≡ out.old.items ++ text self.now) }
        ensures fits { OnOk result (fits self.now) };

    /// Reads it.
    fn read(reader: &mut SavedReader<'_>) -> Result<Self, DecodeError>
        ensures { Reads (λ part. part) result (from reader.old) reader.new };
}

impl Saved for u64 {
    ghost text = { hyper };

    ghost fits = { IsDouble };

    ghost from = { hyper_from };

    fn put(&self, _alloc: Global, out: &mut Vec<u8>) -> Result<(), Memory> {
        put_u64(out, *self)
    }

    fn read(reader: &mut SavedReader<'_>) -> Result<u64, DecodeError> {
        reader.u64()
    }
}

impl<T: Saved> Saved for Option<T> {
    ghost text = { optional_text T.text };

    ghost fits = { FitsOptional T.fits };

    ghost from = { optional_from T.from };

    fn put(&self, alloc: Global, out: &mut Vec<u8>) -> Result<(), Memory> {
        put_optional(self.as_ref(), alloc, out)
    }

    #[tactic(auto, unfolding(crate::specs::Items::optional_from))]
    fn read(reader: &mut SavedReader<'_>) -> Result<Option<T>, DecodeError> {
        if !reader.boolean()? {
            return Ok(None);
        }
        Ok(Some(T::read(reader)?))
    }
}

/// Appends one thing, or that there is none. `Memory` if memory runs out.
#[tactic(auto, using(std::proofs::lemmas::List::append_assoc))]
pub(crate) fn put_optional<T: Saved>(
    item: Option<&T>,
    alloc: Global,
    out: &mut Vec<u8>,
) -> Result<(), Memory>
    ensures text { OnOk result (out.new.items ≡ out.old.items ++ optional_text T.text (option_map (λ item. item.now) item.entry)) }
    ensures fits { OnOk result (FitsOptional T.fits (option_map (λ item. item.now) item.entry)) }
{
    match item {
        None => put_bool(out, false),
        Some(item) => {
            put_bool(out, true)?;
            item.put(alloc, out)
        }
    }
}

/// Appends bytes behind their number. `Memory` if memory runs out.
#[tactic(auto, using(std::proofs::lemmas::List::append_assoc))]
pub fn put_long(out: &mut Vec<u8>, bytes: &[u8]) -> Result<(), Memory>
    ensures text { OnOk result (out.new.items ≡ out.old.items ++ long_text bytes.now) }
    ensures fits { OnOk result (FitsLong bytes.now) }
{
    are_bytes(bytes);
    put_u64(out, bytes.len() as u64)?;
    Ok(out.extend_from_slice(bytes)?)
}

/// What is said is the contract.
pub(crate) fn are_bytes(bytes: &[u8])
    ensures double { IsDouble (length bytes.now) }
    ensures bytes { AreBytes bytes.now }
{
    let _count = bytes.len() as u64;
}

/// Appends things behind their number. `Memory` if memory runs out.
#[tactic(auto, using(std::proofs::lemmas::List::append_assoc))]
pub fn put_many<T: Saved>(list: &[T], alloc: Global, out: &mut Vec<u8>) -> Result<(), Memory>
    ensures text { OnOk result (out.new.items ≡ out.old.items ++ many_text T.text list.now) }
    ensures fits { OnOk result (FitMany T.fits list.now) }
{
    put_u64(out, list.len() as u64)?;
    put_items(list, alloc, out)
}

#[tactic(auto, using(crate::proofs::Loops::all_taken))]
fn put_items<T: Saved>(list: &[T], alloc: Global, out: &mut Vec<u8>) -> Result<(), Memory>
    ensures text { OnOk result (out.new.items ≡ out.old.items ++ flat_map T.text list.now) }
    ensures fits { OnOk result (AllByRecursion T.fits list.now) }
{
    for item in list {
        item.put(alloc, out)?;
    }
    Ok(())
}
