// MOUNT version 1 (RFC 1094 appendix A): the reply to each of its calls.
ghost use Rattle.std.specs.Prelude.{◌≡◌, ◌++◌, OnOk, IfOk};
ghost use Rattle.std.specs.Option.{option_map};
ghost use Rattle.bfs_relay.specs.Mount as model;
ghost use Rattle.bfs_relay.specs.Views.{call_seen};

use crate::program_calls::ProgramCall;
use bfs_rpc::{Reject, write_garbage, write_reject, write_success};
use bfs_types::{FileId, Memory};
use bfs_wire::handle_bytes;
use bfs_xdr::{Reader, put_bool, put_opaque, put_u32, put_words};
use std::alloc::Global;

pub(crate) const MOUNT_PROGRAM: u32 = 100_005;

const MOUNT_VERSION: u32 = 1;

// the bytes of a path (appendix A, MNTPATHLEN)
const MOST_PATH_BYTES: u32 = 1_024;

// the path that can be mounted
const MOUNTED_PATH: &[u8] = b"/";

// the status of a path that there isn't (appendix A, fhstatus), as NFSERR_NOENT
const NO_PATH: u32 = 2;

// the words of RFC 5531 section 9 by their names there
const REPLY: u32 = 1;

const MSG_ACCEPTED: u32 = 0;

const AUTH_NONE: u32 = 0;

const PROG_MISMATCH: u32 = 2;

/// The reply to a call of MOUNT. `Memory` if memory runs out.
#[tactic(auto, unfolding(crate::specs::Mount::mount_reply, crate::specs::Mount::version_mismatch))]
pub(crate) fn mount_reply(alloc: Global, call: &ProgramCall<'_>) -> Result<Vec<u8>, Memory>
    ensures { IfOk result (λ reply. reply.items ≡ model.mount_reply (call_seen call.now)) }
{
    if call.version == MOUNT_VERSION {
        return procedure_reply(alloc, call);
    }
    let mut reply = Vec::new(alloc);
    put_words(
        &mut reply,
        &[
            call.xid,
            REPLY,
            MSG_ACCEPTED,
            AUTH_NONE,
            0,
            PROG_MISMATCH,
            MOUNT_VERSION,
            MOUNT_VERSION,
        ],
    )?;
    Ok(reply)
}

#[tactic(auto, unfolding(crate::specs::Mount::procedure_reply, crate::specs::Mount::no_mounts))]
fn procedure_reply(alloc: Global, call: &ProgramCall<'_>) -> Result<Vec<u8>, Memory>
    ensures { IfOk result (λ reply. reply.items ≡ model.procedure_reply (call_seen call.now)) }
{
    match call.procedure {
        0 | 4 => void_reply(alloc, call.xid, call.arguments, &[]),
        1 => mounting_reply(alloc, call),
        2 => void_reply(
            alloc,
            call.xid,
            call.arguments,
            no_mounts(alloc)?.as_slice(),
        ),
        3 => unmounting_reply(alloc, call),
        5 => void_reply(alloc, call.xid, call.arguments, exports(alloc)?.as_slice()),
        _ => write_reject(alloc, &Reject::ProcUnavail(call.xid)),
    }
}

/// The reply to a call of a procedure that takes no arguments. `Memory` if memory runs out.
#[tactic(auto, unfolding(crate::specs::Mount::void_reply))]
pub(crate) fn void_reply(
    alloc: Global,
    xid: u32,
    arguments: &[u8],
    results: &[u8],
) -> Result<Vec<u8>, Memory>
    ensures { IfOk result (λ reply. reply.items ≡ model.void_reply xid arguments.now results.now) }
{
    if arguments.is_empty() {
        write_success(alloc, xid, results)
    } else {
        write_garbage(alloc, xid)
    }
}

fn mounting_reply(alloc: Global, call: &ProgramCall<'_>) -> Result<Vec<u8>, Memory>
    ensures { IfOk result (λ reply. reply.items ≡ model.mounting_reply call.now.xid (model.path_of call.now.arguments.now)) }
{
    match path_of(call.arguments) {
        Some(path) => write_success(alloc, call.xid, mount_results(alloc, path)?.as_slice()),
        None => write_garbage(alloc, call.xid),
    }
}

fn unmounting_reply(alloc: Global, call: &ProgramCall<'_>) -> Result<Vec<u8>, Memory>
    ensures { IfOk result (λ reply. reply.items ≡ model.unmounting_reply call.now.xid (model.path_of call.now.arguments.now)) }
{
    match path_of(call.arguments) {
        Some(_) => write_success(alloc, call.xid, &[]),
        None => write_garbage(alloc, call.xid),
    }
}

// the path that arguments spell, with nothing after it
#[tactic(auto, unfolding(crate::specs::Mount::path_of))]
fn path_of(arguments: &[u8]) -> Option<&[u8]>
    ensures { option_map (λ path. path.now) result ≡ model.path_of arguments.now }
{
    let mut reader = Reader::new(arguments);
    let path = reader.opaque(MOST_PATH_BYTES).ok()?;
    if reader.rest().is_empty() {
        Some(path)
    } else {
        None
    }
}

// the root's handle, where it is the path that can be mounted
#[tactic(auto, unfolding(crate::specs::Mount::mount_results))]
fn mount_results(alloc: Global, path: &[u8]) -> Result<Vec<u8>, Memory>
    ensures { IfOk result (λ results. results.items ≡ model.mount_results path.now) }
{
    let mut results = Vec::new(alloc);
    if path == MOUNTED_PATH {
        put_words(&mut results, &[0])?;
        results.extend_from_slice(&handle_bytes(FileId::root()))?;
    } else {
        put_words(&mut results, &[NO_PATH])?;
    }
    Ok(results)
}

#[tactic(auto, unfolding(crate::specs::Mount::no_mounts))]
fn no_mounts(alloc: Global) -> Result<Vec<u8>, Memory>
    ensures { IfOk result (λ results. results.items ≡ model.no_mounts) }
{
    let mut results = Vec::new(alloc);
    put_bool(&mut results, false)?;
    Ok(results)
}

#[tactic(auto, unfolding(crate::specs::Mount::exports))]
fn exports(alloc: Global) -> Result<Vec<u8>, Memory>
    ensures { IfOk result (λ results. results.items ≡ model.exports) }
{
    let mut results = Vec::new(alloc);
    put_bool(&mut results, true)?;
    put_opaque(&mut results, MOUNTED_PATH)?;
    put_bool(&mut results, false)?;
    put_bool(&mut results, false)?;
    Ok(results)
}
