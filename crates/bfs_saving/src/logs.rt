// The messages of a log.
ghost use Rattle.std.specs.Prelude.{◌≡◌, ◌++◌, Some, None, IfOk, OnOk, if◌then◌else◌};
ghost use Rattle.bfs_codec.specs.Codes.{Reads};
ghost use Rattle.bfs_saving.specs.Logs.{FitsLog, is_log, log_from, log_text, may_follow};

use crate::items::put_many;
use crate::reader::SavedReader;
use bfs_codec::DecodeError;
use bfs_log::{Log, Slot};
use bfs_messages::{OrderMessage, Signed};
use bfs_types::{MOST_REPLICAS, Memory};
use std::alloc::Global;

/// Appends the text of a log's messages, in the order in which they came. `Memory` if memory runs out.
pub(crate) fn put_log(log: &Log, alloc: Global, out: &mut Vec<u8>) -> Result<(), Memory>
    ensures text { OnOk result (out.new.items ≡ out.old.items ++ log_text log.now) }
    ensures fits { OnOk result (FitsLog log.now) }
{
    log.messages_differ();
    put_many(log.messages(), alloc, out)
}

/// Reads the messages of a log.
pub(crate) fn read_log(reader: &mut SavedReader<'_>) -> Result<Log, DecodeError>
    ensures { Reads (λ log. log) result (log_from reader.old) reader.new }
{
    let messages = reader.many()?;
    match log_of(reader.alloc(), messages)? {
        Some(log) => Ok(log),
        None => Err(DecodeError::Malformed),
    }
}

// The log of these messages, if they may be those of one.
#[tactic(auto, using(crate::proofs::Apart::whole_log))]
fn log_of(alloc: Global, messages: Vec<Signed<OrderMessage>>) -> Result<Option<Log>, Memory>
    ensures { IfOk result (λ log. log ≡ (if is_log messages.items then Some messages.items else None)) }
{
    let mut log = Log::new(alloc);
    for signed in messages {
        if !may_follow(&log, &signed.message) {
            return Ok(None);
        }
        log.push(signed)?;
    }
    log.messages_differ();
    Ok(Some(log))
}

// Whether its sender can be a replica, and none of its kind, sender, view and number is there.
fn may_follow(log: &Log, message: &OrderMessage) -> bool
    ensures { result ≡ may_follow log.now message.now }
{
    message.sender() < MOST_REPLICAS as u32 && !log.has(Slot::of(message))
}
