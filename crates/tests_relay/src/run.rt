//! A relay of some clients, where one of four replicas may be faulty; its turns, and what it tells.
ghost use Rattle.std.specs.Prelude.{◌<◌, ◌^◌};
ghost use Rattle.bfs_auth.specs.Principals.{number_of};

use bfs_auth::{Keys, Principal, sign_text_for_client};
use bfs_clients::{Clients, Counter};
use bfs_codec::{decode, encode};
use bfs_frames::{Frame, Kind, Parcel, To, Turn};
use bfs_messages::{Message, Reply, Request, Signed, is_signed};
use bfs_relay::Relay;
use bfs_settings::Settings;
use bfs_testing::words::ROOT_REQUEST;
use bfs_types::{MOST_NUMBER, MOST_REPLY_BYTES, Memory, Time};
use std::alloc::Global;
use std::test::Fail;
use std::thread::Threads;

const SECRET: &[u8] = b"a secret";

/// The timestamp of each client's first request.
pub const FIRST: u64 = 100;

/// The result that replicas tell.
pub const RIGHT: &[u8] = b"right";

fn clients_of(alloc: Global, count: u32) -> Result<Clients, Fail> {
    let settings = Settings::new(alloc, 1, count, SECRET)?;
    Ok(Clients::new(alloc, &settings)?)
}

fn counters_of(alloc: Global, count: u32) -> Result<Vec<Counter>, Memory> {
    let mut counters = Vec::new(alloc);
    for client in 0..count {
        counters.push(Counter::new(client, FIRST))?;
    }
    Ok(counters)
}

/// A relay that speaks for so many clients.
pub fn relay_of(alloc: Global, clients: u32) -> Result<Relay, Fail> {
    let counters = counters_of(alloc, clients)?;
    Ok(Relay::new(alloc, clients_of(alloc, clients)?, counters)?)
}

/// The keys of a replica or a client, where there are four replicas and 16 clients.
pub fn keys_of(alloc: Global, me: Principal) -> Result<Keys, Memory>
    requires { number_of me < 2 ^ 32 }
{
    Keys::derive(alloc, SECRET, me, 4, 16)
}

fn keys_of_replica(alloc: Global, number: u32) -> Result<Keys, Memory> {
    keys_of(alloc, Principal::Replica(number))
}

/// A frame of that kind.
pub fn frame_of(alloc: Global, kind: Kind, payload: &[u8]) -> Result<Frame, Memory> {
    let payload = Vec::from_slice(alloc, payload)?;
    Ok(Frame { kind, payload })
}

// a ticket, and a call or its reply
fn ticketed(alloc: Global, ticket: u64, message: &[u8]) -> Result<Vec<u8>, Memory> {
    let mut payload = Vec::from_slice(alloc, &ticket.to_be_bytes())?;
    payload.extend_from_slice(message)?;
    Ok(payload)
}

/// The frame of a call with that ticket.
pub fn call_frame(alloc: Global, ticket: u64, message: &[u8]) -> Result<Frame, Memory> {
    let payload = ticketed(alloc, ticket, message)?;
    Ok(Frame {
        kind: Kind::Call,
        payload,
    })
}

// signed by a replica
fn signed_reply(
    alloc: Global,
    signer: u32,
    client: u32,
    message: Message,
) -> Result<Signed<Message>, Fail> {
    let keys = keys_of_replica(alloc, signer)?;
    if client as usize >= keys.clients() {
        return Err("no such client".into());
    }
    let auth = sign_text_for_client(alloc, &keys, client, &message)?;
    Ok(Signed { message, auth })
}

fn reply_of(
    alloc: Global,
    sender: u32,
    view: u64,
    request: (u32, u64),
    bytes: &[u8],
) -> Result<Message, Fail> {
    if bytes.len() > MOST_REPLY_BYTES || view > MOST_NUMBER {
        return Err("no such reply".into());
    }
    Ok(Message::Reply(Reply::new(alloc, sender, view, request.0, request.1, bytes)?))
}

/// The frame of a reply that says to be of the first replica, in a view, and is signed by the second one.
pub fn reply_frame_by(
    alloc: Global,
    names: (u32, u32),
    view: u64,
    request: (u32, u64),
    bytes: &[u8],
) -> Result<Frame, Fail> {
    let message = reply_of(alloc, names.0, view, request, bytes)?;
    let signed = signed_reply(alloc, names.1, request.0, message)?;
    let payload = encode(alloc, &signed)?;
    Ok(Frame {
        kind: Kind::Reply,
        payload,
    })
}

/// The frame of a replica's reply to the request of a client and a timestamp.
pub fn reply_frame(
    alloc: Global,
    sender: u32,
    request: (u32, u64),
    bytes: &[u8],
) -> Result<Frame, Fail> {
    reply_frame_by(alloc, (sender, sender), 0, request, bytes)
}

/// What it tells in a turn of these frames.
pub fn turn(
    rt: &(impl Threads + Sync),
    relay: &mut Relay,
    seconds: u32,
    frames: Vec<Frame>,
) -> Result<Vec<Parcel>, Fail> {
    let time = Time::new(seconds, 0).ok_or("a time")?;
    Ok(relay.turn(rt, &Turn { time, frames })?)
}

/// What it tells in a turn of one frame.
pub fn turn_with(
    rt: &(impl Threads + Sync),
    alloc: Global,
    relay: &mut Relay,
    seconds: u32,
    frame: Frame,
) -> Result<Vec<Parcel>, Fail> {
    let mut frames = Vec::new(alloc);
    frames.push(frame)?;
    turn(rt, relay, seconds, frames)
}

/// How many parcels it tells in a turn of one frame, at the first second.
pub fn count_told(
    rt: &(impl Threads + Sync),
    alloc: Global,
    relay: &mut Relay,
    frame: Frame,
) -> Result<usize, Fail> {
    Ok(turn_with(rt, alloc, relay, 1, frame)?.len())
}

/// The parcel, where there is just one.
pub fn only_one(parcels: &[Parcel]) -> Result<&Parcel, Fail> {
    match parcels {
        [parcel] => Ok(parcel),
        _ => Err("another number of parcels".into()),
    }
}

fn goes(parcel: &Parcel, to: To, kind: Kind) -> bool {
    parcel.to == to && parcel.frame.kind == kind
}

/// Whether the parcel is the reply to the call of that ticket, with these bytes.
pub fn is_answer(alloc: Global, parcel: &Parcel, ticket: u64, reply: &[u8]) -> Result<bool, Fail> {
    let wanted = ticketed(alloc, ticket, reply)?;
    Ok(
        goes(parcel, To::Caller(ticket), Kind::Answer)
            && parcel.frame.payload.as_slice() == wanted.as_slice(),
    )
}

/// Whether the parcel tells the operator that calls are dropped.
pub fn is_dropped(parcel: &Parcel) -> bool {
    goes(parcel, To::Operator, Kind::Log)
        && parcel.frame.payload.as_slice() == b"calls are dropped: too many wait".as_slice()
}

fn is_signed_for_all(alloc: Global, signed: &Signed<Message>) -> Result<bool, Memory> {
    for replica in 0u32..4 {
        let keys = keys_of_replica(alloc, replica)?;
        if !is_signed(&keys, signed) {
            return Ok(false);
        }
    }
    Ok(true)
}

fn asks_for_the_root(
    alloc: Global,
    request: &Request,
    client: u32,
    timestamp: u64,
) -> Result<bool, Fail> {
    let wanted = hex::decode(alloc, ROOT_REQUEST)?;
    Ok(
        request.client() == client
            && request.timestamp() == timestamp
            && request.call() == wanted.as_slice(),
    )
}

fn is_signed_request(
    alloc: Global,
    bytes: &[u8],
    client: u32,
    timestamp: u64,
) -> Result<bool, Fail> {
    let signed = decode(alloc, bytes)?;
    let Message::Request(request) = &signed.message else {
        return Ok(false);
    };
    Ok(asks_for_the_root(alloc, request, client, timestamp)? && is_signed_for_all(alloc, &signed)?)
}

/// Whether the parcel is a request for the root's attributes, of that client and timestamp, that goes there and is signed for all replicas.
pub fn is_request(
    alloc: Global,
    parcel: &Parcel,
    to: To,
    client: u32,
    timestamp: u64,
) -> Result<bool, Fail> {
    if !goes(parcel, to, Kind::Request) {
        return Ok(false);
    }
    is_signed_request(alloc, parcel.frame.payload.as_slice(), client, timestamp)
}
