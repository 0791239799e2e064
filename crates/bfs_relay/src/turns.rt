ghost use Rattle.std.specs.Prelude.{◌≡◌, ◌++◌, [], map, option_to_list, IfOk, OnOk};
ghost use Rattle.std.specs.List.{filter_map};
ghost use Rattle.bfs_model.specs.Bytes.Items.{hyper_at};
ghost use Rattle.bfs_codec.specs.Reading.{message_of};
ghost use Rattle.bfs_frames.specs.Parcels.{told_by};
ghost use Rattle.bfs_relay.specs.Turns as model;

use crate::own_replies::own_reply;
use crate::relay::Relay;
use crate::seats::Call;
use bfs_codec::{DecodeError, decode};
use bfs_frames::{Frame, Kind, Parcel, Turn};
use bfs_messages::{Message, Signed};
use bfs_types::{MOST_REQUEST_BYTES, Memory};
use bfs_xdr::Reader;
use std::alloc::Global;
use std::thread::Threads;

impl Relay {
    /// Takes a turn, and gives what is to be told: it hears the replies, then takes the calls, then asks again where a result was waited for long
    /// enough. Frames of other kinds are passed over, and frames that spell nothing. The keyed hashes of replies are checked by as many threads as there
    /// are processors, unless there is too little to hash for them. `Memory` if memory runs out; then a part of the turn is taken, and what it tells is told in
    /// the next one.
    pub fn turn(&mut self, rt: &(impl Threads + Sync), turn: &Turn) -> Result<Vec<Parcel>, Memory>
        ensures relay { OnOk result (self.new ≡ record (model.turned turn.now self.old) { told = [] }) }
        ensures told { IfOk result (λ parcels. map told_by parcels.items ≡ (model.turned turn.now self.old).told) }
    {
        let now = turn.microseconds();
        self.hear_all(rt, now, &turn.frames)?;
        self.take_calls(now, &turn.frames)?;
        self.ask_all(now)?;
        Ok(self.told.take())
    }

    #[tactic(auto, using(crate::proofs::Folding::fold_more))]
    fn hear_all(
        &mut self,
        rt: &(impl Threads + Sync),
        now: u64,
        frames: &[Frame],
    ) -> Result<(), Memory>
        ensures { OnOk result (self.new ≡ model.replies_heard now frames.now self.old) }
    {
        let replies = replies_in(self.alloc, frames)?;
        let passes = self.clients.are_signed(rt, &replies)?;
        for number in 0..replies.len() {
            self.hear(now, &replies[number], passes[number])?;
        }
        Ok(())
    }

    #[tactic(auto, using(crate::proofs::Folding::fold_more))]
    fn take_calls(&mut self, now: u64, frames: &[Frame]) -> Result<(), Memory>
        ensures { OnOk result (self.new ≡ model.calls_taken now frames.now self.old) }
    {
        for frame in frames {
            self.take_frame(now, frame)?;
        }
        Ok(())
    }

    fn take_frame(&mut self, now: u64, frame: &Frame) -> Result<(), Memory>
        ensures { OnOk result (self.new ≡ model.call_taken now self.old frame.now) }
    {
        match frame.kind {
            Kind::Call => self.take_message(now, frame.payload.as_slice()),
            _ => Ok(()),
        }
    }

    // a ticket, and an RPC message
    fn take_message(&mut self, now: u64, payload: &[u8]) -> Result<(), Memory>
        ensures { OnOk result (self.new ≡ model.taken_as (hyper_at payload.now) now self.old) }
    {
        let mut reader = Reader::new(payload);
        let Ok(ticket) = reader.u64() else {
            return Ok(());
        };
        let message = reader.rest();
        if message.len() > MOST_REQUEST_BYTES {
            return Ok(());
        }
        match own_reply(self.alloc, message)? {
            Some(reply) => self.told.tell_reply(ticket, reply.as_slice()),
            None => self.take_call(now, Call::new(self.alloc, ticket, message)?),
        }
    }
}

// the messages of frames that are to be replies, in their order
fn replies_in(alloc: Global, frames: &[Frame]) -> Result<Vec<Signed<Message>>, Memory>
    ensures { IfOk result (λ replies. replies.items ≡ filter_map model.reply_in frames.now) }
{
    let mut replies = Vec::new(alloc);
    for frame in frames {
        add_reply(alloc, &mut replies, frame)?;
    }
    Ok(replies)
}

fn add_reply(alloc: Global, replies: &mut Vec<Signed<Message>>, frame: &Frame) -> Result<(), Memory>
    ensures { OnOk result (replies.new.items ≡ replies.old.items ++ option_to_list (model.reply_in frame.now)) }
{
    if let Some(signed) = reply_in(alloc, frame)? {
        replies.push(signed)?;
    }
    Ok(())
}

fn reply_in(alloc: Global, frame: &Frame) -> Result<Option<Signed<Message>>, Memory>
    ensures { IfOk result (λ signed. signed ≡ model.reply_in frame.now) }
{
    match frame.kind {
        Kind::Reply => message_of(alloc, frame.payload.as_slice()),
        _ => Ok(None),
    }
}

fn message_of(alloc: Global, bytes: &[u8]) -> Result<Option<Signed<Message>>, Memory>
    ensures { IfOk result (λ signed. signed ≡ message_of bytes.now) }
{
    match decode(alloc, bytes) {
        Ok(signed) => Ok(Some(signed)),
        Err(DecodeError::Malformed) => Ok(None),
        Err(DecodeError::Memory) => Err(Memory),
    }
}
