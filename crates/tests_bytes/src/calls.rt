//! Calls that are read, and replies that are written (RFC 5531 section 9).
use bfs_rpc::{Reject, parse_call, put_success, write_garbage, write_reject, write_success};
use bfs_testing::words::{ROOT_REQUEST, spelled, spells};
use bfs_testing::{holds, same};
use bfs_types::{FileId, Memory, Procedure};
use bfs_wire::{
    GarbageArgs, NfsCall, NfsReply, Status, handle_bytes, handle_id, parse_args, put_reply,
    write_reply,
};
use std::alloc::Global;
use std::test::Fail;

#[test]
fn reads_a_call(rt: HostRuntime) -> Result<(), Fail> {
    let request = hex::decode(rt.alloc(), ROOT_REQUEST)?;
    match parse_call(request.as_slice()) {
        Ok(call) => {
            same!(rt; (call.xid, call.proc), (1, Procedure::GetAttr));
            same!(rt; (call.cred.uid, call.cred.gid), (65534, 65534));
            holds!(rt; is_getattr_of_root(call.proc, call.args));
            same!(rt; handle_id(call.args), Some(FileId::root()));
        }
        Err(_) => assert!(rt; false, "the call is good"),
    }
    Ok(())
}

fn is_getattr_of_root(procedure: Procedure, arguments: &[u8]) -> bool {
    let file = Some(FileId::root());
    parse_args(procedure, arguments) == Ok(NfsCall::GetAttr { file })
}

#[test]
fn numbers_are_those_of_procedures(rt: HostRuntime) {
    same!(rt; Procedure::new(8), Some(Procedure::Write));
    same!(rt; Procedure::FileSystemStatus.number(), 17);
    same!(rt; Procedure::new(18), None);
}

#[test]
fn reads_handles(rt: HostRuntime) {
    let third = FileId::new(3);
    same!(rt; handle_id(handle_bytes(third).as_slice()), Some(third));
    holds!(rt; parse_args(Procedure::GetAttr, &[]) == Err(GarbageArgs));
    holds!(rt; matches!(parse_call(&[]), Err(Reject::Silent)));
}

#[test]
fn tells_why_by_codes(rt: HostRuntime) {
    for (reject, code) in [
        (Reject::Silent, 5),
        (Reject::RpcMismatch(1), 6),
        (Reject::BadCred(1), 7),
        (Reject::ProgUnavail(1), 8),
        (Reject::ProgMismatch(1), 9),
        (Reject::ProcUnavail(1), 10),
    ] {
        same!(rt; reject.code(), code);
    }
    same!(rt; GarbageArgs.code(), 11);
    same!(rt; Memory.code(), 40);
    same!(rt; Status::NoSpc.number(), 28);
}

// a GETATTR without its handle, for uid 1000 and gid 100 on the machine `replay`
const SYSTEM_CALL: &[u32] = &[
    1, 0, 2, 100003, 2, 1, 1, 28, 0, 6, 0x7265706c, 0x61790000, 1000, 100, 0, 0, 0,
];

#[test]
fn reads_a_credential(rt: HostRuntime) -> Result<(), Fail> {
    let bytes = spelled(rt.alloc(), &[SYSTEM_CALL])?;
    match parse_call(bytes.as_slice()) {
        Ok(call) => {
            same!(rt; (call.cred.uid, call.cred.gid), (1000, 100));
            same!(rt; call.args.len(), 0);
        }
        Err(_) => assert!(rt; false, "the call is good"),
    }
    Ok(())
}

#[test]
fn writes_refusals(rt: HostRuntime) -> Result<(), Fail> {
    let alloc = rt.alloc();
    spells(
        alloc,
        write_garbage(alloc, 9)?.as_slice(),
        "000000090000000100000000000000000000000000000004",
    )?;
    spells(
        alloc,
        write_reject(alloc, &Reject::BadCred(9))?.as_slice(),
        "0000000900000001000000010000000100000001",
    )
}

#[test]
fn writes_successes(rt: HostRuntime) -> Result<(), Fail> {
    let alloc = rt.alloc();
    spells(
        alloc,
        write_success(alloc, 9, &[1, 2, 3, 4])?.as_slice(),
        "00000009000000010000000000000000000000000000000001020304",
    )
}

fn success(alloc: Global) -> Result<Vec<u8>, Memory> {
    let mut out = Vec::new(alloc);
    put_success(&mut out, 9)?;
    put_reply(&mut out, &NfsReply::Refused(Status::Stale))?;
    Ok(out)
}

#[test]
fn writes_a_status(rt: HostRuntime) -> Result<(), Fail> {
    let alloc = rt.alloc();
    spells(
        alloc,
        success(alloc)?.as_slice(),
        "00000009000000010000000000000000000000000000000000000046",
    )?;
    let stale = write_reply(alloc, &NfsReply::Refused(Status::Stale))?;
    spells(alloc, stale.as_slice(), "00000046")
}
