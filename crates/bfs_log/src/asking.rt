// What is asked of a log.
ghost use Rattle.std.specs.Prelude.{◌≡◌};
ghost use Rattle.std.specs.Option.{option_map};
ghost use Rattle.bfs_votes.specs.Votes.{has_slot, told};
ghost use Rattle.bfs_log.specs.Logs.{headers, message_at, said_of};

use crate::headers::Slot;
use crate::logs::Log;
use crate::rows::{does_tell, find_from, has_from};
use crate::said::Said;
use bfs_messages::{OrderMessage, Signed};

impl Log {
    /// Whether there is a message of that kind, sender, view and number.
    pub fn has(&self, slot: Slot) -> bool
        ensures { result ≡ has_slot (headers self.now) slot.tag slot.sender slot.view slot.number }
    {
        has_from(self.row(slot.place()), slot.sender)
    }

    /// Whether the sender has told that digest by a message of that kind, view and number.
    pub fn is_told(&self, slot: Slot, digest: &[u8; 32]) -> bool
        ensures { result ≡ told (headers self.now) slot.tag slot.sender slot.view slot.number digest.now }
    {
        does_tell(self.row(slot.place()), digest, slot.sender)
    }

    /// What the message of that kind, sender, view and number says.
    pub fn find(&self, slot: Slot) -> Option<&Said>
        ensures { option_map (λ said. said.now) result ≡ said_of self.now slot.tag slot.sender slot.view slot.number }
    {
        find_from(self.row(slot.place()), slot.sender)
    }

    /// The message of that kind, sender, view and number, as it was accepted.
    pub fn message(&self, slot: Slot) -> Option<&Signed<OrderMessage>>
        ensures { option_map (λ m. m.now) result ≡ message_at self.now slot.tag slot.sender slot.view slot.number }
    {
        match self.find(slot) {
            Some(said) => Some(said.signed()),
            None => None,
        }
    }
}
