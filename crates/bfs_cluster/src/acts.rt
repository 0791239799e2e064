// What each replica does by itself, one after another.
ghost use Rattle.std.specs.Prelude.{◌≡◌, ◌<◌, length, IsSome, OnErr, OnOk};
ghost use Rattle.bfs_cluster.specs.Blocks.{each_does};
ghost use Rattle.bfs_cluster.specs.Inside.Acts.{acting, deed, deed_at};
ghost use Rattle.bfs_cluster.specs.Timeouts.{timing_out, waiting_proposal, with_timeout, with_waiting};
ghost use Rattle.bfs_cluster.specs.World.{SomeActs, emptied};

use crate::cluster::Cluster;
use bfs_types::{Memory, Time};

/// What a replica is to do.
#[derive(Debug, Drop)]
pub(crate) enum Act {
    /// It proposes at that time.
    Propose(Time),
    /// It proposes at that time, if requests wait.
    ProposeWaiting(Time),
    /// Time has run out for its view.
    TimeOut,
}

impl Cluster {
    /// Time runs out for each replica that is heard, by rising number: it leaves its view, and asks for the next one (OSDI 1999 section
    /// 4.4). `Memory` if memory runs out; the cluster is empty then.
    pub fn timeout(&mut self) -> Result<(), Memory>
        ensures ok { OnOk result (self.new ≡ with_timeout self.old) }
        ensures memory { OnErr result (SomeActs timing_out self.old) }
        ensures err { OnErr result (self.new ≡ emptied) }
    {
        match self.act(&Act::TimeOut) {
            Ok(()) => Ok(()),
            Err(Memory) => Err(self.empty()),
        }
    }

    /// Each replica that is heard and is a primary proposes the requests that wait there at that time, by rising number; where none waits
    /// it proposes nothing. `Memory` if memory runs out; the cluster is empty then.
    pub fn propose_waiting(&mut self, time: Time) -> Result<(), Memory>
        ensures ok { OnOk result (self.new ≡ with_waiting self.old time) }
        ensures memory { OnErr result (SomeActs (waiting_proposal time) self.old) }
        ensures err { OnErr result (self.new ≡ emptied) }
    {
        match self.act(&Act::ProposeWaiting(time)) {
            Ok(()) => Ok(()),
            Err(Memory) => Err(self.empty()),
        }
    }

    /// Each replica that is heard does that, unless it refuses to, by rising number.
    pub(crate) fn act(&mut self, act: &Act) -> Result<(), Memory>
        ensures ok { OnOk result (self.new ≡ each_does (deed act.now) self.old) }
        ensures memory { OnErr result (SomeActs (deed act.now) self.old) }
    {
        for number in 0..self.replicas.len() {
            self.act_at(act, number)?;
        }
        Ok(())
    }

    fn act_at(&mut self, act: &Act, number: usize) -> Result<(), Memory>
        requires { number < length self.old.replicas }
        ensures ok { OnOk result (self.new ≡ acting act.now self.old number) }
        ensures memory { OnErr result (IsSome (deed_at act.now self.old number)) }
    {
        let sent = self.replicas[number].act(self.alloc, act)?;
        self.post_if(number, sent)
    }
}
