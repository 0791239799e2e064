// The next batch to be executed.
ghost use Rattle.std.specs.Prelude.{◌≡◌, ◌+◌, None, Some, if◌then◌else◌};
ghost use Rattle.std.specs.Option.{option_map};
ghost use Rattle.bfs_votes.specs.Votes.{committed, primary};
ghost use Rattle.bfs_log.specs.Logs.{said_of};
ghost use Rattle.bfs_order.specs.Replica.Executing.{executed, next_committed};
ghost use Rattle.bfs_order.specs.Replica.States.{known};
ghost use Rattle.bfs_votes.specs.Tags.{pre_prepare_tag};

use crate::order::Order;
use bfs_log::{Committed, Said, Slot};
use bfs_messages::PRE_PREPARE_TAG;

impl Order {
    // What the PRE-PREPARE for the next number says, in the view last entered.
    fn next_proposal(&self) -> Option<&Said>
        ensures { option_map (λ said. said.now) result ≡ said_of self.now.log pre_prepare_tag (primary self.now.f self.now.view) self.now.view (self.now.last + 1) }
    {
        let slot = Slot {
            tag: PRE_PREPARE_TAG,
            sender: self.leader(self.view),
            view: self.view,
            number: self.last + 1,
        };
        self.log.find(slot)
    }

    fn where_committed<'a>(&self, proposal: &'a Said) -> Option<&'a Committed>
        ensures { option_map (λ committed. committed.now) result ≡ (if committed self.now.f self.now.me (known self.now) self.now.view (self.now.last + 1) proposal.now.digest then proposal.now.batch else None) }
    {
        let number = self.last + 1;
        let digest = proposal.digest();
        if !self
            .log
            .is_committed(self.f, self.me, self.view, number, digest)
        {
            return None;
        }
        proposal.batch()
    }

    /// The batch after the one last executed, once it is committed in the view last entered. It takes no memory.
    pub fn next_committed(&self) -> Option<&Committed>
        ensures { option_map (λ committed. committed.now) result ≡ next_committed self.now }
    {
        match self.next_proposal() {
            Some(proposal) => self.where_committed(proposal),
            None => None,
        }
    }

    /// Notes that the next committed batch was executed, which has that number.
    pub fn executed(&mut self, number: u64)
        requires { option_map (λ committed. committed.number) (next_committed self.old) ≡ Some number }
        ensures { self.new ≡ (executed self.old number).now }
    {
        let Some(committed) = self.next_committed() else {
            return;
        };
        self.last = committed.number();
    }
}
