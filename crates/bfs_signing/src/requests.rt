// What is signed of what a relay tells replicas.
ghost use Rattle.std.specs.Prelude.{◌≡◌, ◌≤◌, ◌++◌, length, map, option_to_list, IfOk, OnOk};
ghost use Rattle.std.specs.Option.{option_map};
ghost use Rattle.bfs_signatures.specs.Hashes.{leaf_hash};
ghost use Rattle.bfs_messages.specs.Spelling.{body_text};
ghost use Rattle.bfs_codec.specs.Reading.{message_of};
ghost use Rattle.bfs_frames.specs.Parcels.{told_by};
ghost use Rattle.bfs_signing.specs.Requests as model;

use bfs_auth::Text;
use bfs_codec::{DecodeError, decode};
use bfs_frames::{Parcel, To};
use bfs_messages::{Message, Signed};
use bfs_signatures::{MOST_TEXTS, leaf_hasher};
use bfs_types::Memory;
use sha2::Digest;
use std::alloc::Global;

pub(crate) fn goes_to_replicas(to: To) -> bool
    ensures { result ≡ model.goes_to_replicas to }
{
    match to {
        To::Replicas | To::Replica(_) => true,
        To::Client(_) | To::Operator | To::Caller(_) => false,
    }
}

/// The message that bytes spell, if they spell one. `Memory` if memory runs out.
pub(crate) fn message_of(alloc: Global, bytes: &[u8]) -> Result<Option<Signed<Message>>, Memory>
    ensures { IfOk result (λ signed. signed ≡ message_of bytes.now) }
{
    match decode(alloc, bytes) {
        Ok(signed) => Ok(Some(signed)),
        Err(DecodeError::Malformed) => Ok(None),
        Err(DecodeError::Memory) => Err(Memory),
    }
}

fn message_to(alloc: Global, parcel: &Parcel) -> Result<Option<Signed<Message>>, Memory>
    ensures { IfOk result (λ signed. signed ≡ model.message_to parcel.now.to parcel.now.frame.payload.items) }
{
    if goes_to_replicas(parcel.to) {
        message_of(alloc, parcel.frame.payload.as_slice())
    } else {
        Ok(None)
    }
}

fn leaf_of(message: &Message) -> [u8; 32]
    ensures { result ≡ leaf_hash (body_text message.now) }
{
    let mut hasher = leaf_hasher();
    message.hash(&mut hasher);
    hasher.finalize()
}

fn add_leaf(alloc: Global, leaves: &mut Vec<[u8; 32]>, parcel: &Parcel) -> Result<(), Memory>
    ensures { OnOk result (leaves.new.items ≡ leaves.old.items ++ map leaf_hash (option_to_list (model.text_told (told_by parcel.now)))) }
{
    if let Some(signed) = message_to(alloc, parcel)? {
        leaves.push(leaf_of(&signed.message))?;
    }
    Ok(())
}

fn all_leaves(alloc: Global, parcels: &[Parcel]) -> Result<Vec<[u8; 32]>, Memory>
    ensures { IfOk result (λ leaves. leaves.items ≡ map leaf_hash (model.texts_told (map told_by parcels.now))) }
{
    let mut leaves = Vec::new(alloc);
    for parcel in parcels {
        add_leaf(alloc, &mut leaves, parcel)?;
    }
    Ok(leaves)
}

/// The leaves of the texts that are signed, in their order. `Memory` if memory runs out.
#[tactic(auto, using(crate::proofs::Texts::first_leaves))]
pub(crate) fn leaves_of(alloc: Global, parcels: &[Parcel]) -> Result<Vec<[u8; 32]>, Memory>
    ensures leaves { IfOk result (λ leaves. leaves.items ≡ map leaf_hash (model.signed_texts (map told_by parcels.now))) }
    ensures within { IfOk result (λ leaves. length leaves.items ≤ model.most_texts) }
{
    let mut leaves = all_leaves(alloc, parcels)?;
    leaves.truncate(MOST_TEXTS);
    Ok(leaves)
}
