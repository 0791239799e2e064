//! What a relay answers by itself: MOUNT (RFC 1094 appendix A), NULL, and what is refused (RFC 5531 section 9). The bytes are written by hand from those
//! documents.
use crate::run::{call_frame, count_told, is_answer, only_one, relay_of, turn_with};
use bfs_relay::Relay;
use bfs_testing::same;
use std::alloc::Global;
use std::process::Abort;
use std::test::Fail;
use std::thread::Threads;

// a call of MOUNT, version 1, with xid 17 and no credential, up to its procedure; what stands behind it; and the reply up to its results
const MOUNT: &str = "000000110000000000000002000186a500000001";

const NO_CREDENTIAL: &str = "00000000000000000000000000000000";

const DONE: &str = "000000110000000100000000000000000000000000000000";

const GARBAGE: &str = "000000110000000100000000000000000000000000000004";

// procedure, arguments, and what is answered: the header of the reply, and the results
static MOUNT_ROWS: &[(&str, &str, &str, &str)] = &[
    // NULL
    ("00000000", "", DONE, ""),
    ("00000000", "00000000", GARBAGE, ""),
    // MNT of `/`: status 0 and the root's handle; of `/home` and of the empty path: status 2
    (
        "00000001",
        "000000012f000000",
        DONE,
        "000000004246533200000001000000020000000000000000000000000000000000000000",
    ),
    ("00000001", "000000052f686f6d65000000", DONE, "00000002"),
    ("00000001", "00000000", DONE, "00000002"),
    ("00000001", "", GARBAGE, ""),
    ("00000001", "000000012f00000000000000", GARBAGE, ""),
    // DUMP: no entry
    ("00000002", "", DONE, "00000000"),
    // UMNT and UMNTALL
    ("00000003", "000000012f000000", DONE, ""),
    ("00000003", "00000400", GARBAGE, ""),
    ("00000004", "", DONE, ""),
    // EXPORT: `/`, no group, and no other
    (
        "00000005",
        "",
        DONE,
        "00000001000000012f0000000000000000000000",
    ),
    // PROC_UNAVAIL
    (
        "00000006",
        "",
        "000000110000000100000000000000000000000000000003",
        "",
    ),
];

// a message, and what is answered
static ROWS: &[(&str, &str)] = &[
    // MOUNT version 3: PROG_MISMATCH, from 1 to 1
    (
        "000000120000000000000002000186a5000000030000000000000000000000000000000000000000",
        "0000001200000001000000000000000000000000000000020000000100000001",
    ),
    // NULL of NFS, and with arguments
    (
        "000000130000000000000002000186a3000000020000000000000000000000000000000000000000",
        "000000130000000100000000000000000000000000000000",
    ),
    (
        "000000130000000000000002000186a300000002000000000000000000000000000000000000000000000000",
        "000000130000000100000000000000000000000000000004",
    ),
    // NFS version 3: PROG_MISMATCH, from 2 to 2
    (
        "000000140000000000000002000186a3000000030000000000000000000000000000000000000000",
        "0000001400000001000000000000000000000000000000020000000200000002",
    ),
    // procedure 18 of NFS: PROC_UNAVAIL
    (
        "000000150000000000000002000186a3000000020000001200000000000000000000000000000000",
        "000000150000000100000000000000000000000000000003",
    ),
    // the port mapper: PROG_UNAVAIL
    (
        "000000160000000000000002000186a0000000020000000300000000000000000000000000000000",
        "000000160000000100000000000000000000000000000001",
    ),
    // RPC version 3: RPC_MISMATCH, from 2 to 2
    (
        "000000170000000000000003000186a5000000010000000000000000000000000000000000000000",
        "000000170000000100000001000000000000000200000002",
    ),
    // flavor 6: AUTH_BADCRED
    (
        "000000180000000000000002000186a5000000010000000000000006000000000000000000000000",
        "0000001800000001000000010000000100000001",
    ),
];

// whether it answers the message in hexadecimal with that reply, under the ticket 5
fn is_answered_so<R: Threads + Sync>(
    rt: &R,
    alloc: Global,
    relay: &mut Relay,
    message: &str,
    reply: &str,
) -> Result<bool, Fail> {
    let message = hex::decode(alloc, message)?;
    let frame = call_frame(alloc, 5, message.as_slice())?;
    let told = turn_with(rt, alloc, relay, 1, frame)?;
    let reply = hex::decode(alloc, reply)?;
    is_answer(alloc, only_one(&told)?, 5, reply.as_slice())
}

fn answers_mount<R: Threads + Sync + Abort>(
    rt: &R,
    alloc: Global,
    relay: &mut Relay,
) -> Result<(), Fail> {
    for (place, row) in MOUNT_ROWS.iter().enumerate() {
        let (procedure, arguments, header, results) = *row;
        let message = format!(in alloc; "{MOUNT}{procedure}{NO_CREDENTIAL}{arguments}")?;
        let reply = format!(in alloc; "{header}{results}")?;
        let answered = is_answered_so(rt, alloc, relay, message.as_str(), reply.as_str())?;
        same!(rt; (place, answered), (place, true));
    }
    Ok(())
}

#[test]
fn mount_is_answered_by_the_relay(rt: HostRuntime) -> Result<(), Fail> {
    let mut relay = relay_of(rt.alloc(), 1)?;
    answers_mount(&rt, rt.alloc(), &mut relay)
}

fn answers_rows<R: Threads + Sync + Abort>(
    rt: &R,
    alloc: Global,
    relay: &mut Relay,
) -> Result<(), Fail> {
    for (place, row) in ROWS.iter().enumerate() {
        let (message, reply) = *row;
        let answered = is_answered_so(rt, alloc, relay, message, reply)?;
        same!(rt; (place, answered), (place, true));
    }
    Ok(())
}

#[test]
fn null_and_what_is_refused_are_answered_by_the_relay(rt: HostRuntime) -> Result<(), Fail> {
    let mut relay = relay_of(rt.alloc(), 1)?;
    answers_rows(&rt, rt.alloc(), &mut relay)
}

// nothing, a reply, and a call whose verifier is cut
static NO_CALLS: [&str; 3] = [
    "",
    "000000130000000100000000000000000000000000000000",
    "000000130000000000000002000186a30000000200000000000000000000000000000000",
];

fn replies_to_none<R: Threads + Sync + Abort>(
    rt: &R,
    alloc: Global,
    relay: &mut Relay,
) -> Result<(), Fail> {
    for message in &NO_CALLS {
        let message = hex::decode(alloc, *message)?;
        let frame = call_frame(alloc, 6, message.as_slice())?;
        same!(rt; count_told(rt, alloc, relay, frame)?, 0);
    }
    Ok(())
}

#[test]
fn what_is_no_call_gets_no_reply(rt: HostRuntime) -> Result<(), Fail> {
    let mut relay = relay_of(rt.alloc(), 1)?;
    replies_to_none(&rt, rt.alloc(), &mut relay)
}
