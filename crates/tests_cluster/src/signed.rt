//! Replies to clients, signed by one of four replicas.
use crate::run::SECRET;
use bfs_auth::{Authenticator, Keys, Principal, sign_text_for_client};
use bfs_messages::{Message, Reply, Signed};
use bfs_types::{MOST_REPLY_BYTES, Memory};
use std::alloc::Global;
use std::test::Fail;

/// The keys of a replica, where there are 16 clients. Those with one client are the same however many there are.
pub fn keys_of_replica(alloc: Global, number: u32) -> Result<Keys, Memory> {
    Keys::derive(alloc, SECRET, Principal::Replica(number), 4, 16)
}

/// A replica's reply to a client's request.
pub fn reply(
    alloc: Global,
    sender: u32,
    (client, timestamp): (u32, u64),
    bytes: &[u8],
) -> Result<Message, Fail> {
    if bytes.len() > MOST_REPLY_BYTES {
        return Err("a result that is too long".into());
    }
    let reply = Reply::new(alloc, sender, 0, client, timestamp, bytes)?;
    Ok(Message::Reply(reply))
}

/// A replica's keyed hash of a message for one of the clients.
pub fn hashed_by(
    alloc: Global,
    replica: u32,
    client: u32,
    message: &Message,
) -> Result<Authenticator, Fail> {
    let keys = keys_of_replica(alloc, replica)?;
    if client as usize >= keys.clients() {
        return Err("no such client".into());
    }
    Ok(sign_text_for_client(alloc, &keys, client, message)?)
}

/// A message with that keyed hash.
pub fn signed_by(
    alloc: Global,
    replica: u32,
    client: u32,
    message: Message,
) -> Result<Signed<Message>, Fail> {
    let auth = hashed_by(alloc, replica, client, &message)?;
    Ok(Signed { message, auth })
}

/// A replica's reply to the request of a client, with its keyed hash for another one perhaps.
pub fn signed_reply(
    alloc: Global,
    sender: u32,
    request: (u32, u64),
    receiver: u32,
    bytes: &[u8],
) -> Result<Signed<Message>, Fail> {
    signed_by(
        alloc,
        sender,
        receiver,
        reply(alloc, sender, request, bytes)?,
    )
}
