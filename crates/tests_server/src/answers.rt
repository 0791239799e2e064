//! Answers to calls, one at a time (RFC 5531 section 9, RFC 1094 section 2.2).
ghost use Rattle.std.specs.Prelude.{◌≡◌, IsTrue};
ghost use Rattle.bfs_model.specs.Server.Footprints.{Footprint, IsFreshFor};
ghost use Rattle.bfs_model.specs.Server.Tree.{first_ordinal};
ghost use Rattle.bfs_model.specs.Server.Short.{IsShort};
ghost use Rattle.bfs_wire.specs.Calls.{call_seen};

use crate::fresh::new_tree;
use crate::steps::run_whole;
use bfs_inode::FileId;
use bfs_procs::answer;
use bfs_rpc::Cred;
use bfs_testing::words::ROOT_REQUEST;
use bfs_testing::{holds, same};
use bfs_tree::Store;
use bfs_types::{Attributes, FileType, Gids, Memory, Ordinal, Time};
use bfs_wire::{NfsCall, NfsReply, Status};
use std::alloc::Global;
use std::test::Fail;

const ROOT_REPLY: &str =
    "0000000100000001000000000000000000000000000000000000000000000002000041ff000000020000000000000000000000400000100000000000000000010000000100000002000000000000000000000000000000000000000000000000";

// GETATTR of the root with xid 9 and one thing wrong, and all of it
static REFUSED: &[(&str, &str, &str)] = &[
    (
        "the third RPC version",
        "000000090000000000000003000186a30000000200000001000000000000000000000000000000004246533200000001000000020000000000000000000000000000000000000000",
        "000000090000000100000001000000000000000200000002",
    ),
    (
        "a credential of flavor 6",
        "000000090000000000000002000186a30000000200000001000000060000000000000000000000004246533200000001000000020000000000000000000000000000000000000000",
        "0000000900000001000000010000000100000001",
    ),
    (
        "another program",
        "000000090000000000000002000186a40000000200000001000000000000000000000000000000004246533200000001000000020000000000000000000000000000000000000000",
        "000000090000000100000000000000000000000000000001",
    ),
    (
        "the third version of NFS",
        "000000090000000000000002000186a30000000300000001000000000000000000000000000000004246533200000001000000020000000000000000000000000000000000000000",
        "0000000900000001000000000000000000000000000000020000000200000002",
    ),
    (
        "procedure 18",
        "000000090000000000000002000186a30000000200000012000000000000000000000000000000004246533200000001000000020000000000000000000000000000000000000000",
        "000000090000000100000000000000000000000000000003",
    ),
    (
        "a byte after the handle",
        "000000090000000000000002000186a3000000020000000100000000000000000000000000000000424653320000000100000002000000000000000000000000000000000000000000",
        "000000090000000100000000000000000000000000000004",
    ),
    (
        "all six at once",
        "000000090000000000000003000186a4000000030000001200000006000000000000000000000000424653320000000100000002000000000000000000000000000000000000000000",
        "000000090000000100000001000000000000000200000002",
    ),
];

// a whole store knows what any request reads, and the first ordinal is fresh
#[tactic(auto, using(bfs_serial::proofs::Public::knows_all_touched))]
fn answer_whole<S: Store>(alloc: Global, store: &mut S, request: &[u8]) -> Result<Vec<u8>, Memory>
    requires whole { IsTrue ((S.reach store.old).whole) }
    requires fresh { (footprint : Footprint) → IsFreshFor (S.inodes store.old) first_ordinal footprint }
    ensures { S.reach store.new ≡ S.reach store.old }
{
    answer(alloc, store, Ordinal::first(), Time::epoch(), request)
}

// of a new tree, in hexadecimal
fn answer_to(alloc: Global, request: &str) -> Result<String, Fail> {
    let request = hex::decode(alloc, request)?;
    let mut tree = new_tree(alloc)?;
    let reply = answer_whole(alloc, &mut tree, request.as_slice())?;
    Ok(hex::encode(alloc, reply.as_slice())?)
}

#[test]
fn answers_the_attributes_of_the_root(rt: HostRuntime) -> Result<(), Fail> {
    same!(rt; answer_to(rt.alloc(), ROOT_REQUEST)?.as_str(), ROOT_REPLY);
    Ok(())
}

#[test]
fn refuses_calls_in_order(rt: HostRuntime) -> Result<(), Fail> {
    for (wrong, request, reply) in REFUSED {
        let given = answer_to(rt.alloc(), request)?;
        same!(rt; (*wrong, given.as_str()), (*wrong, *reply));
    }
    Ok(())
}

fn somebody() -> Cred {
    Cred {
        uid: 1000,
        gid: 100,
        gids: Gids::none(),
    }
}

// of a new tree
fn reply_to(alloc: Global, call: &NfsCall) -> Result<NfsReply, Memory>
    requires { IsShort (call_seen call.now) }
{
    let mut tree = new_tree(alloc)?;
    run_whole(
        alloc,
        &mut tree,
        Ordinal::first(),
        Time::epoch(),
        &somebody(),
        call,
    )
}

fn is_void(alloc: Global, call: &NfsCall) -> Result<bool, Memory>
    requires { IsShort (call_seen call.now) }
{
    Ok(matches!(reply_to(alloc, call)?, NfsReply::Void))
}

#[test]
fn replies_nothing_to_calls_without_results(rt: HostRuntime) -> Result<(), Fail> {
    holds!(rt; is_void(rt.alloc(), &NfsCall::Null)?);
    holds!(rt; is_void(rt.alloc(), &NfsCall::Root)?);
    holds!(rt; is_void(rt.alloc(), &NfsCall::WriteCache)?);
    Ok(())
}

#[test]
fn refuses_a_stale_handle(rt: HostRuntime) -> Result<(), Fail> {
    let reply = reply_to(rt.alloc(), &NfsCall::GetAttr { file: None })?;
    holds!(rt; matches!(reply, NfsReply::Refused(Status::Stale)));
    Ok(())
}

fn attributes_of_root(alloc: Global) -> Result<Option<Attributes>, Memory> {
    let file = Some(FileId::root());
    match reply_to(alloc, &NfsCall::GetAttr { file })? {
        NfsReply::Attributes(attributes) => Ok(Some(attributes)),
        _ => Ok(None),
    }
}

#[test]
fn replies_the_attributes_of_the_root(rt: HostRuntime) -> Result<(), Fail> {
    let attributes = attributes_of_root(rt.alloc())?.ok_or("attributes")?;
    same!(rt; attributes.file_type, FileType::Directory);
    same!(rt; attributes.permissions, 0o777);
    same!(rt; attributes.size, 64);
    Ok(())
}
