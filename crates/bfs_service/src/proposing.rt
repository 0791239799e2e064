// A batch is proposed, and a view is left.
ghost use Rattle.std.specs.Prelude.{OnOk};
ghost use Rattle.bfs_service.specs.Acting.{IsOwn};
ghost use Rattle.bfs_service.specs.Journals.{Goes};

use crate::service::Service;
use bfs_policy::Leaving;
use bfs_types::{Memory, Time};
use std::sync::Wait;
use std::thread::Threads;

impl Service {
    #[tactic(auto, using(crate::proofs::Doing::goes_nowhere))]
    pub(crate) fn propose<R: Threads + Wait + Sync>(
        &mut self,
        rt: &R,
        time: Time,
        proposes: bool,
    ) -> Result<(), Memory>
        ensures { OnOk result (Goes (IsOwn time) self.old self.new) }
    {
        if !proposes {
            return Ok(());
        }
        self.propose_now(rt, time)?;
        self.advance(rt, time)?;
        Ok(())
    }

    fn propose_now<R: Threads + Wait + Sync>(&mut self, rt: &R, time: Time) -> Result<(), Memory>
        ensures { OnOk result (Goes (IsOwn time) self.old self.new) }
    {
        let does = self.actor.propose(rt, time)?;
        if does {
            self.proposed = self.actor.last_number();
            self.proposed_in = self.actor.node().view();
        }
        Ok(())
    }

    pub(crate) fn is_to_propose(&self) -> bool {
        self.may_propose() && !self.actor.node().waiting().is_empty()
    }

    // it leads, and its last batch is executed
    pub(crate) fn may_propose(&self) -> bool {
        let node = self.actor.node();
        node.leads() && (self.proposed_in != node.view() || self.proposed <= node.last_executed())
    }

    #[tactic(auto, using(crate::proofs::Doing::goes_nowhere))]
    pub(crate) fn leave<R: Threads + Wait + Sync>(
        &mut self,
        rt: &R,
        time: Time,
        leaving: Leaving,
    ) -> Result<(), Memory>
        ensures { OnOk result (Goes (IsOwn time) self.old self.new) }
    {
        if let Leaving::Stays = leaving {
            return Ok(());
        }
        self.forget_proposed(rt, time)?;
        self.leave_now(rt, time, leaving)?;
        self.advance(rt, time)?;
        Ok(())
    }

    // What it has proposed in its view may be in the way of the next one: its clients send it again.
    fn forget_proposed<R: Threads + Wait + Sync>(
        &mut self,
        rt: &R,
        time: Time,
    ) -> Result<(), Memory>
        ensures { OnOk result (Goes (IsOwn time) self.old self.new) }
    {
        self.actor.forget_proposed(rt, time)?;
        Ok(())
    }

    fn leave_now<R: Threads + Wait + Sync>(
        &mut self,
        rt: &R,
        time: Time,
        leaving: Leaving,
    ) -> Result<(), Memory>
        ensures { OnOk result (Goes (IsOwn time) self.old self.new) }
    {
        let does = self.leave_view(rt, time, leaving)?;
        if does {
            let asked = self.actor.node().view_asked();
            self.tell_operator("a view is asked for: ", asked)?;
        }
        Ok(())
    }

    // Whether it did.
    #[tactic(auto, using(crate::proofs::Doing::goes_nowhere))]
    fn leave_view<R: Threads + Wait + Sync>(
        &mut self,
        rt: &R,
        time: Time,
        leaving: Leaving,
    ) -> Result<bool, Memory>
        ensures { OnOk result (Goes (IsOwn time) self.old self.new) }
    {
        match leaving {
            Leaving::Follows(view) => self.actor.leave_for(rt, time, view),
            Leaving::TimesOut => self.actor.time_out(rt, time),
            Leaving::Stays => Ok(false),
        }
    }
}
