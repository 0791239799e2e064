// Where a message of the order stands.
ghost use Rattle.std.specs.Prelude.{◌≡◌};
ghost use Rattle.bfs_log.specs.Headers.{message_header};
ghost use Rattle.bfs_log.specs.Logs.{stays};
ghost use Rattle.bfs_log.specs.Places.{place_of};

use crate::places::Place;
use bfs_messages::{CHECKPOINT_TAG, OrderMessage};

/// A kind of message, by its tag, a sender, a view and a number.
#[derive(Clone, Copy, Debug, PartialEq, Eq)]
pub struct Slot {
    pub tag: u32,
    pub sender: u32,
    pub view: u64,
    pub number: u64,
}

impl Slot {
    /// That of a message.
    pub fn of(message: &OrderMessage) -> Slot
        ensures { result ≡ record { tag = (message_header message.now).tag; sender = (message_header message.now).sender; view = (message_header message.now).view; number = (message_header message.now).number } }
    {
        Slot {
            tag: message.tag(),
            sender: message.sender(),
            view: message.view(),
            number: message.number(),
        }
    }

    pub(crate) fn place(self) -> Place
        ensures { result ≡ record { number = self.number; view = self.view; tag = self.tag } }
    {
        Place {
            number: self.number,
            view: self.view,
            tag: self.tag,
        }
    }
}

pub(crate) fn place_of(message: &OrderMessage) -> Place
    ensures { result ≡ place_of (message_header message.now) }
{
    Slot::of(message).place()
}

/// Whether a message is above a checkpoint, or a CHECKPOINT that tells it.
pub(crate) fn does_stay(message: &OrderMessage, number: u64, digest: &[u8; 32]) -> bool
    ensures { result ≡ stays number digest.now (message_header message.now) }
{
    number < message.number()
        || (message.tag() == CHECKPOINT_TAG
            && (message.number() == number && message.digest() == digest))
}
