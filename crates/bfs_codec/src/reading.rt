// Messages, read strictly.
ghost use Rattle.std.specs.Prelude.{◌≡◌, ◌↔◌, IfOk, IsErrOf, None, Some, is_some, if◌then◌else◌};
ghost use Rattle.bfs_codec.specs.Codes.{Fails, Gives, Passes, Reads};
ghost use Rattle.bfs_codec.specs.declared.error.DecodeError.TheVariants as errors;
ghost use Rattle.bfs_messages.specs.Fits.{FitsMessage};
ghost use Rattle.bfs_messages.specs.Limits.{FitsSigned};
ghost use Rattle.bfs_codec.specs.Reading.{behind_tag_from, message_of, signed_from};
ghost use Rattle.bfs_messages.specs.Spelling.{signed_text};

use crate::batches::{read_behind_proposal, skip_behind_proposal};
use crate::error::{DecodeError, Malformed};
use crate::parts::{read_behind, skip_behind};
use crate::reader::MessageReader;
use bfs_messages::{
    CHECKPOINT_TAG, COMMIT_TAG, Checkpoint, Message, NEW_VIEW_TAG, NewView, OrderMessage,
    PRE_PREPARE_TAG, PREPARE_TAG, REPLY_TAG, REQUEST_TAG, Reply, Request, Signed, VIEW_CHANGE_TAG,
    ViewChange, Vote,
};
use std::alloc::Global;

/// The message that the bytes spell, all of them. `Malformed` if they spell none, whether memory runs out or not: that is told without
/// memory. `Memory` if they spell one and memory runs out.
pub fn decode(alloc: Global, bytes: &[u8]) -> Result<Signed<Message>, DecodeError>
    // What is read is spelled so.
    ensures found { IfOk result (λ signed. (bytes.now ≡ signed_text signed) × FitsSigned FitsMessage signed) }
    // What is spelled so is read.
    ensures only { (signed : Signed Message) → FitsSigned FitsMessage signed → bytes.now ≡ signed_text signed → Gives result (Some signed) }
    ensures exact { Gives result (message_of bytes.now) }
    // So memory runs out only of bytes that spell a message.
    ensures malformed { IsErrOf result errors.Malformed ↔ (message_of bytes.now ≡ None) }
{
    match read_whole(alloc, bytes) {
        Ok(signed) => Ok(signed),
        Err(error) => Err(why_unread(alloc, bytes, error)),
    }
}

// Why bytes were not read: though memory ran out, they are malformed, unless they spell a message.
fn why_unread(alloc: Global, bytes: &[u8], error: DecodeError) -> DecodeError
    requires { Fails error (message_of bytes.now) }
    ensures { result ≡ (if is_some (message_of bytes.now) then errors.Memory else errors.Malformed) }
{
    if is_message(alloc, bytes) {
        error
    } else {
        DecodeError::Malformed
    }
}

// Whether the bytes spell a message, all of them. No memory is taken.
#[tactic(auto, unfolding(crate::specs::Reading::message_of, crate::specs::Reading::signed_from))]
fn is_message(alloc: Global, bytes: &[u8]) -> bool
    ensures { result ≡ is_some (message_of bytes.now) }
{
    let mut reader = MessageReader::new(alloc, bytes);
    skip_message(&mut reader).is_ok() && reader.is_at_end()
}

#[tactic(auto, unfolding(crate::specs::Reading::signed_from))]
fn skip_message(reader: &mut MessageReader<'_>) -> Result<(), Malformed>
    ensures { Passes result (signed_from reader.old) reader.new }
{
    let tag = reader.u32()?;
    skip_behind_tag(tag, reader)
}

#[tactic(auto, unfolding(crate::specs::Reading::behind_tag_from))]
fn skip_behind_tag(tag: u32, reader: &mut MessageReader<'_>) -> Result<(), Malformed>
    ensures { Passes result (behind_tag_from tag reader.old) reader.new }
{
    match tag {
        REQUEST_TAG => skip_behind::<Request>(reader),
        PRE_PREPARE_TAG => skip_behind_proposal(reader),
        PREPARE_TAG | COMMIT_TAG => skip_behind::<Vote>(reader),
        CHECKPOINT_TAG => skip_behind::<Checkpoint>(reader),
        VIEW_CHANGE_TAG => skip_behind::<ViewChange>(reader),
        NEW_VIEW_TAG => skip_behind::<NewView>(reader),
        REPLY_TAG => skip_behind::<Reply>(reader),
        _ => Err(Malformed),
    }
}

#[tactic(auto, unfolding(crate::specs::Reading::message_of, crate::specs::Reading::signed_from))]
fn read_whole(alloc: Global, bytes: &[u8]) -> Result<Signed<Message>, DecodeError>
    ensures { Gives result (message_of bytes.now) }
{
    let mut reader = MessageReader::new(alloc, bytes);
    let tag = reader.u32()?;
    let signed = read_behind_tag(tag, &mut reader)?;
    if !reader.is_at_end() {
        return Err(DecodeError::Malformed);
    }
    Ok(signed)
}

#[tactic(auto, unfolding(crate::specs::Reading::behind_tag_from))]
fn read_behind_tag(tag: u32, reader: &mut MessageReader<'_>) -> Result<Signed<Message>, DecodeError>
    ensures { Reads (λ signed. signed) result (behind_tag_from tag reader.old) reader.new }
{
    let (message, auth) = match tag {
        REQUEST_TAG => {
            let signed = read_behind(reader)?;
            (Message::Request(signed.message), signed.auth)
        }
        PRE_PREPARE_TAG => {
            let signed = read_behind_proposal(reader)?;
            (
                Message::Order(OrderMessage::PrePrepare(signed.message)),
                signed.auth,
            )
        }
        PREPARE_TAG => {
            let signed = read_behind(reader)?;
            (
                Message::Order(OrderMessage::Prepare(signed.message)),
                signed.auth,
            )
        }
        COMMIT_TAG => {
            let signed = read_behind(reader)?;
            (
                Message::Order(OrderMessage::Commit(signed.message)),
                signed.auth,
            )
        }
        CHECKPOINT_TAG => {
            let signed = read_behind(reader)?;
            (
                Message::Order(OrderMessage::Checkpoint(signed.message)),
                signed.auth,
            )
        }
        VIEW_CHANGE_TAG => {
            let signed = read_behind(reader)?;
            (Message::ViewChange(signed.message), signed.auth)
        }
        NEW_VIEW_TAG => {
            let signed = read_behind(reader)?;
            (Message::NewView(signed.message), signed.auth)
        }
        REPLY_TAG => {
            let signed = read_behind(reader)?;
            (Message::Reply(signed.message), signed.auth)
        }
        _ => return Err(DecodeError::Malformed),
    };
    Ok(Signed { message, auth })
}
