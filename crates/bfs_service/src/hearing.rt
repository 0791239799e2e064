// What it does about frames that hold no messages.
ghost use Rattle.std.specs.Prelude.{◌≡◌, OnOk};
ghost use Rattle.bfs_service.specs.Acting.{IsOwn};
ghost use Rattle.bfs_service.specs.Journals.{Goes};

use crate::fetching::{Fetched, Heard};
use crate::reporting::report_of;
use crate::service::Service;
use crate::standings::Status;
use bfs_frames::{Frame, Kind, To};
use bfs_log::StableCheckpoint;
use bfs_types::{Memory, Time};
use std::sync::Wait;
use std::thread::Threads;

impl Service {
    #[tactic(auto, using(crate::proofs::Doing::goes_both, crate::proofs::Doing::goes_nowhere))]
    pub(crate) fn hear_all<R: Threads + Wait + Sync>(
        &mut self,
        rt: &R,
        now: u64,
        time: Time,
        frames: &[Frame],
    ) -> Result<(), Memory>
        ensures { OnOk result (Goes (IsOwn time) self.old self.new) }
    {
        for frame in frames {
            self.hear(rt, now, time, frame)?;
        }
        Ok(())
    }

    fn hear<R: Threads + Wait + Sync>(
        &mut self,
        rt: &R,
        now: u64,
        time: Time,
        frame: &Frame,
    ) -> Result<(), Memory>
        ensures { OnOk result (Goes (IsOwn time) self.old self.new) }
    {
        match frame.kind {
            Kind::Status => Ok(self.hear_status(frame.payload.as_slice())),
            Kind::AskState => self.give_state(now, frame.payload.as_slice()),
            Kind::State => self.hear_state(rt, time, frame.payload.as_slice()),
            Kind::AskReport => self.report(rt),
            _ => Ok(()),
        }
    }

    // another one tells where it stands
    fn hear_status(&mut self, payload: &[u8])
        ensures { self.new ≡ self.old }
    {
        if let Ok(status) = Status::read(payload) {
            self.policy.hear(status.sender, status.standing);
        }
    }

    fn give_state(&mut self, now: u64, payload: &[u8]) -> Result<(), Memory>
        ensures { self.new ≡ self.old }
    {
        self.giving
            .give(now, self.actor.node(), payload, &mut self.notes)
    }

    #[tactic(auto, using(crate::proofs::Doing::goes_both, crate::proofs::Doing::goes_nowhere))]
    fn hear_state<R: Threads + Wait + Sync>(
        &mut self,
        rt: &R,
        time: Time,
        payload: &[u8],
    ) -> Result<(), Memory>
        ensures { OnOk result (Goes (IsOwn time) self.old self.new) }
    {
        let heard = self
            .fetching
            .hear(self.actor.node(), payload, &mut self.notes)?;
        match heard {
            Heard::Nothing => Ok(()),
            heard => self.catch_up(rt, time, &heard),
        }
    }

    fn catch_up<R: Threads + Wait + Sync>(
        &mut self,
        rt: &R,
        time: Time,
        heard: &Heard,
    ) -> Result<(), Memory>
        ensures { OnOk result (Goes (IsOwn time) self.old self.new) }
    {
        self.take_over(rt, time, heard)?;
        self.forget_answered(rt, time)?;
        self.advance(rt, time)?;
        Ok(())
    }

    #[tactic(auto, using(crate::proofs::Doing::goes_nowhere))]
    fn take_over<R: Threads + Wait + Sync>(
        &mut self,
        rt: &R,
        time: Time,
        heard: &Heard,
    ) -> Result<(), Memory>
        ensures { OnOk result (Goes (IsOwn time) self.old self.new) }
    {
        match heard {
            Heard::State(fetched) => self.adopt(rt, time, fetched),
            Heard::Shown(certificate) => self.settle(rt, time, certificate),
            Heard::Nothing => Ok(()),
        }
    }

    // What was executed before such a state waits no longer.
    fn forget_answered<R: Threads + Wait + Sync>(
        &mut self,
        rt: &R,
        time: Time,
    ) -> Result<(), Memory>
        ensures { OnOk result (Goes (IsOwn time) self.old self.new) }
    {
        self.actor.forget_answered(rt, time)?;
        Ok(())
    }

    fn adopt<R: Threads + Wait + Sync>(
        &mut self,
        rt: &R,
        time: Time,
        fetched: &Fetched,
    ) -> Result<(), Memory>
        ensures { OnOk result (Goes (IsOwn time) self.old self.new) }
    {
        let does = self
            .actor
            .adopt(rt, time, fetched.text.as_slice(), &fetched.certificate)?;
        if does {
            self.tell_operator(
                "a state is adopted, of number ",
                fetched.certificate.number(),
            )?;
        }
        Ok(())
    }

    fn settle<R: Threads + Wait + Sync>(
        &mut self,
        rt: &R,
        time: Time,
        certificate: &StableCheckpoint,
    ) -> Result<(), Memory>
        ensures { OnOk result (Goes (IsOwn time) self.old self.new) }
    {
        let does = self.actor.settle(rt, time, certificate)?;
        if does {
            self.tell_operator("a checkpoint is settled, of number ", certificate.number())?;
        }
        Ok(())
    }

    // what it says of itself
    fn report<R: Threads + Sync>(&mut self, rt: &R) -> Result<(), Memory>
        ensures { self.new ≡ self.old }
    {
        let text = report_of(self.alloc, rt, self.actor.node(), self.queue.len())?;
        self.notes
            .add(To::Operator, Kind::Report, text.into_bytes())
    }
}
