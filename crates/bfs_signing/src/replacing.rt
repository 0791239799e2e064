// Signatures in the place of keyed hashes.
ghost use Rattle.std.specs.Prelude.{◌≡◌, ◌≤◌, ◌+◌, ◌++◌, length, map, slice_get, IfOk, OnOk};
ghost use Rattle.bfs_auth.specs.Signatures.{most_signature_bytes};
ghost use Rattle.bfs_messages.specs.Spelling.{signed_text};
ghost use Rattle.bfs_codec.specs.Reading.{message_of};
ghost use Rattle.bfs_frames.specs.Parcels.{told_by};
ghost use Rattle.bfs_signing.specs.Requests as model;

use crate::requests::{goes_to_replicas, message_of};
use bfs_auth::{Authenticator, MOST_SIGNATURE_BYTES};
use bfs_codec::encode;
use bfs_frames::{Frame, Parcel};
use bfs_messages::{Message, Signed};
use bfs_types::Memory;
use std::alloc::Global;
use std::marker::Model;

/// What is told so far, and how many signatures are in it.
#[derive(Drop)]
struct Replaced {
    used: usize,
    parcels: Vec<Parcel>,
}

impl Model for Replaced {
    ghost use Rattle.std.specs.Prelude.{map};
    ghost use Rattle.bfs_frames.specs.Parcels.{told_by};
    ghost use Rattle.bfs_signing.specs.Requests as model;

    ghost Value = { model.Replaced };

    ghost view = { λ so_far. record { used = so_far.used; told = map told_by so_far.parcels.items } };
}

impl Replaced {
    // A message to replicas with the next of the signatures, anything else as it is.
    fn add(&mut self, alloc: Global, signatures: &[Vec<u8>], parcel: Parcel) -> Result<(), Memory>
        ensures { OnOk result (self.new ≡ model.replaced_also (map (λ bytes. bytes.items) signatures.now) self.old (told_by parcel)) }
    {
        if !goes_to_replicas(parcel.to) {
            self.parcels.push(parcel)?;
            return Ok(());
        }
        match message_of(alloc, parcel.frame.payload.as_slice())? {
            Some(signed) => self.add_signed(alloc, signatures, signed, parcel),
            None => Ok(()),
        }
    }

    fn add_signed(
        &mut self,
        alloc: Global,
        signatures: &[Vec<u8>],
        signed: Signed<Message>,
        parcel: Parcel,
    ) -> Result<(), Memory>
        ensures { OnOk result (self.new ≡ model.replaced_with (Some signed) (slice_get (map (λ bytes. bytes.items) signatures.now) self.old.used) (told_by parcel) self.old) }
    {
        let Some(signature) = signatures.get(self.used) else {
            return Ok(());
        };
        self.used += 1;
        self.tell(alloc, signed, signature.as_slice(), parcel)
    }

    fn tell(
        &mut self,
        alloc: Global,
        signed: Signed<Message>,
        signature: &[u8],
        parcel: Parcel,
    ) -> Result<(), Memory>
        ensures { OnOk result (self.new ≡ record self.old { told = self.old.told ++ model.request_with signed signature.now (told_by parcel) }) }
    {
        if signature.len() > MOST_SIGNATURE_BYTES {
            return Ok(());
        }
        let payload = text_with(alloc, signed, signature)?;
        self.parcels.push(Parcel {
            to: parcel.to,
            frame: Frame {
                kind: parcel.frame.kind,
                payload,
            },
        })?;
        Ok(())
    }
}

fn text_with(alloc: Global, signed: Signed<Message>, signature: &[u8]) -> Result<Vec<u8>, Memory>
    requires { length signature.now ≤ most_signature_bytes }
    ensures { IfOk result (λ text. text.items ≡ signed_text (model.with_signature signed signature.now)) }
{
    let signed = Signed {
        message: signed.message,
        auth: Authenticator::of_signature(alloc, signature)?,
    };
    encode(alloc, &signed)
}

/// Each message to replicas with the next of the signatures, and all else as it is. What is left without a signature isn't told. `Memory` if memory runs out.
pub(crate) fn with_signatures(
    alloc: Global,
    signatures: &[Vec<u8>],
    parcels: Vec<Parcel>,
) -> Result<Vec<Parcel>, Memory>
    ensures { IfOk result (λ told. map told_by told.items ≡ model.told_with (map (λ bytes. bytes.items) signatures.now) (map told_by parcels.items)) }
{
    let mut so_far = Replaced {
        used: 0,
        parcels: Vec::new(alloc),
    };
    for parcel in parcels {
        so_far.add(alloc, signatures, parcel)?;
    }
    Ok(so_far.parcels)
}
