// What frames of a turn say to a node.
ghost use Rattle.std.specs.Prelude.{◌≡◌, OnOk};
ghost use Rattle.bfs_model.specs.Bytes.Items.{word_at};
ghost use Rattle.bfs_service.specs.Acting.{IsOwn};
ghost use Rattle.bfs_service.specs.Journals.{Goes, Journals};
ghost use Rattle.bfs_service.specs.Turns.{Hears, HearsOne, begins_as, frame_delivered, is_message, is_of_kind};

use crate::acting::Actor;
use bfs_codec::{DecodeError, decode};
use bfs_frames::{Frame, Kind};
use bfs_messages::{Message, Signed};
use bfs_types::{Memory, Time};
use bfs_xdr::Reader;
use std::alloc::Global;
use std::sync::Wait;
use std::thread::Threads;

// the numbers that texts of messages begin with
const PRE_PREPARE: u32 = 2;

const CHECKPOINT: u32 = 5;

const VIEW_CHANGE: u32 = 6;

const NEW_VIEW: u32 = 7;

impl Actor {
    /// Gives its node each message of a replica among the frames, one after another. What it refuses is passed over. All that is committed is executed before the
    /// next one comes: a CHECKPOINT that makes a later number stable would drop it (OSDI 1999 section 4.3). Before a NEW-VIEW a primary forgets what it has proposed.
    #[tactic(auto, using(crate::proofs::Frames::hears_more, crate::proofs::Doing::journals_both, crate::proofs::Doing::journals_none))]
    pub(crate) fn deliver_all<R: Threads + Wait + Sync>(
        &mut self,
        rt: &R,
        time: Time,
        frames: &[Frame],
    ) -> Result<(), Memory>
        ensures hears { OnOk result (Hears time frames.now self.old.acting self.new.acting) }
        ensures journals { OnOk result (Journals self.old self.new) }
    {
        for frame in frames {
            self.hear_frame(rt, time, frame)?;
        }
        Ok(())
    }

    fn hear_frame<R: Threads + Wait + Sync>(
        &mut self,
        rt: &R,
        time: Time,
        frame: &Frame,
    ) -> Result<(), Memory>
        ensures hears { OnOk result (HearsOne time frame.now self.old.acting self.new.acting) }
        ensures journals { OnOk result (Journals self.old self.new) }
    {
        self.forget_before(rt, time, frame)?;
        self.deliver_frame(rt, frame)?;
        self.advance_if_ready(rt, time)?;
        Ok(())
    }

    // A primary that may enter a later view, without asking for it, forgets what it has proposed in its own: its clients send it again.
    #[tactic(auto, using(crate::proofs::Doing::goes_nowhere))]
    fn forget_before<R: Threads + Wait + Sync>(
        &mut self,
        rt: &R,
        time: Time,
        frame: &Frame,
    ) -> Result<(), Memory>
        ensures { OnOk result (Goes (IsOwn time) self.old self.new) }
    {
        if frame.kind == Kind::NewView && self.node().leads() {
            self.forget_proposed(rt, time)?;
        }
        Ok(())
    }

    fn deliver_frame<R: Threads + Wait + Sync>(
        &mut self,
        rt: &R,
        frame: &Frame,
    ) -> Result<(), Memory>
        ensures delivered { OnOk result (self.new.acting ≡ frame_delivered self.old.acting frame.now) }
        ensures journals { OnOk result (Journals self.old self.new) }
    {
        if is_message(frame) {
            self.deliver(rt, frame.payload.as_slice())?;
        }
        Ok(())
    }
}

// whether a frame is to hold a message of a replica
fn is_message(frame: &Frame) -> bool
    ensures { result ≡ is_message frame.now }
{
    match Reader::new(frame.payload.as_slice()).u32() {
        Ok(tag) => is_of_kind(frame.kind, tag),
        Err(_) => false,
    }
}

fn is_of_kind(kind: Kind, tag: u32) -> bool
    ensures { result ≡ is_of_kind kind tag }
{
    match kind {
        Kind::Order => PRE_PREPARE <= tag && tag <= CHECKPOINT,
        Kind::ViewChange => tag == VIEW_CHANGE,
        Kind::NewView => tag == NEW_VIEW,
        _ => false,
    }
}

/// The REQUESTs among the frames, in their order.
pub(crate) fn requests_in(alloc: Global, frames: &[Frame]) -> Result<Vec<Signed<Message>>, Memory> {
    let mut requests = Vec::new(alloc);
    for frame in frames {
        if let Kind::Request = frame.kind {
            match decode(alloc, frame.payload.as_slice()) {
                Ok(signed) => requests.push(signed)?,
                Err(DecodeError::Malformed) => {}
                Err(DecodeError::Memory) => return Err(Memory),
            }
        }
    }
    Ok(requests)
}
