// Messages of a node, as parcels to those who are to have them.
ghost use Rattle.std.specs.Prelude.{◌≡◌, ◌∷◌, [], ◌++◌, map, IfOk, OnOk};
ghost use Rattle.bfs_frames.specs.Parcels.{told_by};
ghost use Rattle.bfs_service.specs.Telling.{kind_of, message_given, message_told, place_of, told_to};

use bfs_codec::encode;
use bfs_frames::{Frame, Kind, Parcel, To};
use bfs_messages::{Message, Signed};
use bfs_node::{Receivers, receivers_of};
use bfs_types::Memory;
use std::alloc::Global;

/// A parcel for each message, in their order.
#[tactic(auto, using(crate::proofs::Folding::map_more))]
pub(crate) fn parcels_of(alloc: Global, sent: &[Signed<Message>]) -> Result<Vec<Parcel>, Memory>
    ensures { IfOk result (λ parcels. map told_by parcels.items ≡ map message_told sent.now) }
{
    let mut parcels = Vec::new(alloc);
    for signed in sent {
        parcels.push(parcel_of(alloc, signed)?)?;
    }
    Ok(parcels)
}

fn parcel_of(alloc: Global, signed: &Signed<Message>) -> Result<Parcel, Memory>
    ensures { IfOk result (λ parcel. told_by parcel ≡ message_told signed.now) }
{
    parcel_to(alloc, place_of(receivers_of(&signed.message)), signed)
}

fn parcel_to(alloc: Global, to: To, signed: &Signed<Message>) -> Result<Parcel, Memory>
    ensures { IfOk result (λ parcel. told_by parcel ≡ told_to to signed.now) }
{
    let payload = encode(alloc, signed)?;
    Ok(Parcel {
        to,
        frame: Frame {
            kind: kind_of(&signed.message),
            payload,
        },
    })
}

/// A parcel to one replica for each message, in their order.
#[tactic(auto, using(crate::proofs::Folding::map_more))]
pub(crate) fn parcels_to(
    alloc: Global,
    number: u32,
    sent: &[Signed<Message>],
) -> Result<Vec<Parcel>, Memory>
    ensures { IfOk result (λ parcels. map told_by parcels.items ≡ map (message_given number) sent.now) }
{
    let mut parcels = Vec::new(alloc);
    for signed in sent {
        parcels.push(parcel_to(alloc, To::Replica(number), signed)?)?;
    }
    Ok(parcels)
}

fn place_of(receivers: Receivers) -> To
    ensures { result ≡ place_of receivers }
{
    match receivers {
        Receivers::Replicas => To::Replicas,
        Receivers::Client(number) => To::Client(number),
    }
}

fn kind_of(message: &Message) -> Kind
    ensures { result ≡ kind_of message.now }
{
    match message {
        Message::Request(_) => Kind::Request,
        Message::Order(_) => Kind::Order,
        Message::ViewChange(_) => Kind::ViewChange,
        Message::NewView(_) => Kind::NewView,
        Message::Reply(_) => Kind::Reply,
    }
}
