//! A message of each kind, made, spelled and read.
ghost use Rattle.std.specs.Prelude.{◌<◌};

use crate::spelled::{
    CHECKPOINT, COMMIT, EACH, NULL_PRE_PREPARE, PRE_PREPARE, PREPARE, REPLY, REQUEST,
    SIGNED_REQUEST,
};
use bfs_auth::{Authenticator, Keys, Principal};
use bfs_codec::{decode, encode};
use bfs_messages::{
    Checkpoint, Message, OrderMessage, OrderedBatch, PrePrepare, Reply, Request, Signed, Vote, sign,
};
use bfs_testing::words::spells;
use bfs_testing::{holds, same};
use bfs_types::{Memory, Time};
use sha2::{Digest, Sha256};
use std::alloc::Global;
use std::sync::Arc;
use std::test::Fail;

const SECRET: &[u8] = &[0; 32];

fn replica(alloc: Global, number: u32) -> Result<Keys, Memory> {
    Keys::derive(alloc, SECRET, Principal::Replica(number), 4, 16)
}

fn client(alloc: Global, number: u32) -> Result<Keys, Memory>
    requires { number < 16 }
{
    Keys::derive(alloc, SECRET, Principal::Client(number), 4, 16)
}

// the batch of `PRE_PREPARE`
fn batch(alloc: Global) -> Result<Arc<OrderedBatch>, Memory> {
    let mut requests = Vec::new(alloc);
    requests.push(Signed {
        message: Request::new(alloc, 3, 5, b"a call")?,
        auth: Authenticator::new(alloc),
    })?;
    let time = Time::new(1, 2).ok_or(Memory)?;
    Ok(Arc::new(alloc, OrderedBatch::new(time, requests))?)
}

// what the holder of the keys signs
fn spelled(alloc: Global, keys: &Keys, message: Message) -> Result<Vec<u8>, Memory> {
    encode(alloc, &sign(alloc, keys, message)?)
}

/// `.ci/refusals` runs this one with each growth of memory refused in turn.
#[test]
fn each_kind_is_written_as_it_was_read(rt: HostRuntime) -> Result<(), Fail> {
    let alloc = rt.alloc();
    for text in EACH.iter() {
        let bytes = hex::decode(alloc, *text)?;
        let signed = decode(alloc, bytes.as_slice())?;
        spells(alloc, encode(alloc, &signed)?.as_slice(), *text)?;
    }
    Ok(())
}

#[test]
fn a_request_is_its_clients(rt: HostRuntime) -> Result<(), Fail> {
    let alloc = rt.alloc();
    let request = Request::new(alloc, 3, 5, b"a call")?;
    same!(rt; request.client(), 3);
    same!(rt; request.timestamp(), 5);
    holds!(rt; request.call() == b"a call".as_slice());
    let bytes = spelled(alloc, &client(alloc, 3)?, Message::Request(request))?;
    spells(alloc, bytes.as_slice(), REQUEST)
}

#[test]
fn a_request_may_have_a_signature(rt: HostRuntime) -> Result<(), Fail> {
    let alloc = rt.alloc();
    let signed = Signed {
        message: Message::Request(Request::new(alloc, 3, 5, b"a call")?),
        auth: Authenticator::of_signature(alloc, b"signed")?,
    };
    spells(alloc, encode(alloc, &signed)?.as_slice(), SIGNED_REQUEST)?;
    let read = decode(alloc, hex::decode(alloc, SIGNED_REQUEST)?.as_slice())?;
    holds!(rt; read.auth.signature() == Some(b"signed".as_slice()));
    Ok(())
}

#[test]
fn a_pre_prepare_is_followed_by_its_batch(rt: HostRuntime) -> Result<(), Fail> {
    let alloc = rt.alloc();
    let keys = replica(alloc, 0)?;
    let proposal = PrePrepare::new(0, 0, 1, batch(alloc)?);
    same!(rt; proposal.batch().requests().len(), 1);
    let bytes = spelled(
        alloc,
        &keys,
        Message::Order(OrderMessage::PrePrepare(proposal)),
    )?;
    spells(alloc, bytes.as_slice(), PRE_PREPARE)?;
    let null = PrePrepare::new(0, 0, 2, Arc::new(alloc, OrderedBatch::null())?);
    holds!(rt; null.batch().requests().is_empty());
    let bytes = spelled(alloc, &keys, Message::Order(OrderMessage::PrePrepare(null)))?;
    spells(alloc, bytes.as_slice(), NULL_PRE_PREPARE)
}

#[test]
fn votes_and_checkpoints(rt: HostRuntime) -> Result<(), Fail> {
    let alloc = rt.alloc();
    let keys = replica(alloc, 2)?;
    let vote = Vote::new(2, 0, 1, batch(alloc)?.digest());
    same!(rt; (vote.sender(), vote.view(), vote.number()), (2, 0, 1));
    let prepare = spelled(alloc, &keys, Message::Order(OrderMessage::Prepare(vote)))?;
    spells(alloc, prepare.as_slice(), PREPARE)?;
    let commit = spelled(alloc, &keys, Message::Order(OrderMessage::Commit(vote)))?;
    spells(alloc, commit.as_slice(), COMMIT)?;
    let checkpoint = Checkpoint::new(1, 16, Sha256::digest(b"node"));
    same!(rt; (checkpoint.sender(), checkpoint.number()), (1, 16));
    let told = spelled(
        alloc,
        &replica(alloc, 1)?,
        Message::Order(OrderMessage::Checkpoint(checkpoint)),
    )?;
    spells(alloc, told.as_slice(), CHECKPOINT)
}
