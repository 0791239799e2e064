// What a replica has said is given again.
ghost use Rattle.std.specs.Prelude.{◌≡◌, ◌++◌, IfOk, OnOk};
ghost use Rattle.bfs_log.specs.Logs.{as_messages};
ghost use Rattle.bfs_order.specs.Replica.Resending.{are_together, own_answers, own_message, resent, resent_of};

use crate::order::Order;
use bfs_log::Slot;
use bfs_messages::{CHECKPOINT_TAG, COMMIT_TAG, Message, PRE_PREPARE_TAG, PREPARE_TAG, Signed};
use bfs_types::{Memory, TryClone};

/// How far another replica is, as it tells: the view that it has entered, the number that it has executed last, and that of its stable checkpoint.
#[derive(Clone, Copy, Debug, PartialEq, Eq)]
pub struct Lag {
    pub view: u64,
    pub last: u64,
    pub stable: u64,
}

impl Order {
    /// Copies of what it has said that a replica may lack which is so far: if both are in one view, its own PRE-PREPAREs of it for numbers above the
    /// one last executed there, and its PREPAREs and COMMITs of it above the stable one there, since who executed a number in an earlier view
    /// may lack them in this one; and its own CHECKPOINTs of numbers above the stable one there. They stand by rising numbers. Nothing of it is new. It looks in the log for each number of the window, and walks through no messages. `Memory` if memory runs out.
    pub fn said_since(&self, to: Lag) -> Result<Vec<Signed<Message>>, Memory>
        ensures { IfOk result (λ sent. sent.items ≡ as_messages (resent self.now to)) }
    {
        let mut sent = Vec::new(self.alloc);
        for number in self.low..self.high() + 1 {
            self.add_resent(to, number, &mut sent)?;
        }
        Ok(sent)
    }

    fn add_resent(
        &self,
        to: Lag,
        number: u64,
        sent: &mut Vec<Signed<Message>>,
    ) -> Result<(), Memory>
        ensures { OnOk result (sent.new.items ≡ sent.old.items ++ as_messages (resent_of self.now to number)) }
    {
        if self.is_together(to) && to.last < number {
            self.add_own(PRE_PREPARE_TAG, self.view, number, sent)?;
        }
        if self.is_together(to) && to.stable < number {
            self.add_own_answers(number, sent)?;
        }
        if to.stable < number {
            self.add_own(CHECKPOINT_TAG, 0, number, sent)?;
        }
        Ok(())
    }

    fn is_together(&self, to: Lag) -> bool
        ensures { result ≡ are_together self.now to }
    {
        self.asked <= self.view && to.view == self.view
    }

    fn add_own_answers(&self, number: u64, sent: &mut Vec<Signed<Message>>) -> Result<(), Memory>
        ensures { OnOk result (sent.new.items ≡ sent.old.items ++ as_messages (own_answers self.now number)) }
    {
        self.add_own(PREPARE_TAG, self.view, number, sent)?;
        self.add_own(COMMIT_TAG, self.view, number, sent)
    }

    // Its own message of a kind, view and number, if it has said it.
    fn add_own(
        &self,
        tag: u32,
        view: u64,
        number: u64,
        sent: &mut Vec<Signed<Message>>,
    ) -> Result<(), Memory>
        ensures { OnOk result (sent.new.items ≡ sent.old.items ++ as_messages (own_message self.now tag view number)) }
    {
        let slot = Slot {
            tag,
            sender: self.me,
            view,
            number,
        };
        if let Some(signed) = self.log.message(slot) {
            sent.push(signed.try_clone(self.alloc)?.into_message())?;
        }
        Ok(())
    }
}
