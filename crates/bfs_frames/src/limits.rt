ghost use Rattle.std.specs.Prelude.{◌≡◌};
ghost use Rattle.bfs_frames.specs.Frames.{kind_within, most_of};
ghost use Rattle.bfs_frames.specs.Limits.{default_limits};

use crate::kind::Kind;
use bfs_auth::MOST_SIGNATURE_BYTES;
use bfs_types::{MOST_REPLICAS, MOST_REPLY_BYTES, MOST_REQUEST_BYTES};

// the keyed hashes of a message: their number, and 32 bytes of each
const HASHES: u32 = 4 + 32 * MOST_REPLICAS as u32;

// a signature, which a REQUEST may have in their place: what stands in front of it, and its number of bytes and those
const SIGNATURE: u32 = 8 + MOST_SIGNATURE_BYTES as u32;

const MEBIBYTE: u32 = 1 << 20;

/// The most bytes of a payload, for each kind of frame. What is longer is read over.
#[derive(Clone, Copy, Debug, PartialEq, Eq)]
pub struct Limits {
    pub request: u32,
    pub order: u32,
    pub view_change: u32,
    pub new_view: u32,
    pub reply: u32,
    pub status: u32,
    pub ask_state: u32,
    pub state: u32,
    pub ask_report: u32,
    pub report: u32,
    pub call: u32,
    pub answer: u32,
    pub log: u32,
}

impl Limits {
    /// Room for every REQUEST, REPLY, call and answer, for messages of the order of 4 MiB, which a PRE-PREPARE has whose requests have a mebibyte, however
    /// small each of them is, for VIEW-CHANGEs and NEW-VIEWs of 64 MiB, and for pieces of a state of two mebibytes. The latter are a choice: 64 MiB is the
    /// most that transports carry.
    pub fn new() -> Limits
        ensures { result ≡ default_limits }
    {
        Limits {
            request: 20 + MOST_REQUEST_BYTES as u32 + SIGNATURE,
            order: 4 * MEBIBYTE,
            view_change: 64 * MEBIBYTE,
            new_view: 64 * MEBIBYTE,
            reply: 32 + MOST_REPLY_BYTES as u32 + HASHES,
            status: 2_048,
            ask_state: 2_048,
            state: 2 * MEBIBYTE,
            ask_report: 2_048,
            report: MEBIBYTE,
            call: 8 + MOST_REQUEST_BYTES as u32,
            answer: 8 + MOST_REPLY_BYTES as u32,
            log: 4_096,
        }
    }

    /// The most bytes of a payload of that kind.
    pub fn of(&self, kind: Kind) -> u32
        ensures { result ≡ most_of self.now kind }
    {
        match kind {
            Kind::Request => self.request,
            Kind::Order => self.order,
            Kind::ViewChange => self.view_change,
            Kind::NewView => self.new_view,
            Kind::Reply => self.reply,
            Kind::Status => self.status,
            Kind::AskState => self.ask_state,
            Kind::State => self.state,
            Kind::AskReport => self.ask_report,
            Kind::Report => self.report,
            Kind::Call => self.call,
            Kind::Answer => self.answer,
            Kind::Log => self.log,
        }
    }

    /// The kind of a frame that begins with that number and has a payload of so many bytes, or `None` where there is no such kind, or its limit is
    /// below.
    pub fn kind_within(&self, number: u8, size: u32) -> Option<Kind>
        ensures { result ≡ kind_within self.now number size }
    {
        let kind = Kind::new(number)?;
        if size <= self.of(kind) {
            Some(kind)
        } else {
            None
        }
    }
}
