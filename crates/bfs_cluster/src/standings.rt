ghost use Rattle.std.specs.Prelude.{◌≡◌, None, Some, IfOk, IsErr, OnErr, option_copied};
ghost use Rattle.bfs_cluster.specs.Standings.{are_in, common_view, first_among_enough, is_in, most_executed, quorum, standing_at, standings};
ghost use Rattle.bfs_cluster.specs.World.{SomeHeard};

use crate::cluster::Cluster;
use crate::replica::Replica;
use bfs_types::Memory;
use std::thread::Threads;

/// Where a replica stands at the end.
#[derive(Clone, Copy, Debug, PartialEq, Eq)]
pub enum Standing {
    /// It has executed the most: its number, and its digest.
    Digest(usize, [u8; 32]),
    /// Another one has executed more: its number, and the last number that it executed.
    Behind(usize, u64),
}

impl Cluster {
    /// Where each replica that is heard stands, by rising number. `Memory` if memory runs out, and where it ran out before: where a replica
    /// that is heard and has executed the most has a file system that has failed.
    pub fn standings<R: Threads + Sync>(&self, rt: &R) -> Result<Vec<Standing>, Memory>
        ensures ok { IfOk result (λ all. standings self.now ≡ Some all.items) }
        ensures failed { standings self.now ≡ None → IsErr result }
        ensures memory { OnErr result (SomeHeard self.now) }
    {
        let most = self.most_executed();
        let mut all = Vec::new(self.alloc);
        for (number, replica) in self.replicas.iter().enumerate() {
            if replica.heard {
                all.push(standing_of(rt, replica, most, number)?)?;
            }
        }
        Ok(all)
    }

    /// The view that 2f + 1 replicas which are heard are in, if there is one.
    pub fn common_view(&self) -> Option<u64>
        ensures { result ≡ common_view self.now }
    {
        match self.first_among_enough() {
            Some(found) => Some(found.node.view()),
            None => None,
        }
    }

    fn first_among_enough(&self) -> Option<&Replica>
        ensures { option_copied result ≡ first_among_enough self.now }
    {
        self.replicas
            .iter()
            .find(|replica| self.are_in(replica.node.view()))
    }

    fn are_in(&self, view: u64) -> bool
        ensures { result ≡ are_in self.now view }
    {
        let number = self
            .replicas
            .iter()
            .filter(|replica| replica.is_in(view))
            .count();
        quorum(self.replicas.len()) <= number
    }

    fn most_executed(&self) -> u64
        ensures { result ≡ most_executed self.now.replicas }
    {
        let mut most = 0;
        for replica in &self.replicas {
            if replica.heard {
                most = most.max(replica.node.last_executed());
            }
        }
        most
    }
}

fn quorum(replicas: usize) -> usize
    ensures { result ≡ quorum replicas }
{
    2 * (replicas / 3) + 1
}

fn standing_of<R: Threads + Sync>(
    rt: &R,
    replica: &Replica,
    most: u64,
    number: usize,
) -> Result<Standing, Memory>
    ensures { IfOk result (λ standing. standing_at most number replica.now.node ≡ Some standing) }
{
    let last = replica.node.last_executed();
    if last != most {
        return Ok(Standing::Behind(number, last));
    }
    match replica.node.digest(rt) {
        Ok(digest) => Ok(Standing::Digest(number, digest)),
        // a file system fails only where memory runs out
        Err(_) => Err(Memory),
    }
}
