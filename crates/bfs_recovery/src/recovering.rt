ghost use Rattle.std.specs.Prelude.{◌≡◌, ◌≢◌, ◌≤◌, length, map, IfErr, IfOk};
ghost use Rattle.bfs_model.specs.Server.Limits.{most_clients};
ghost use Rattle.bfs_auth.specs.Principals.{number_of as number_in};
ghost use Rattle.bfs_auth.specs.Replicas.{AreOfReplica};
ghost use Rattle.bfs_log.specs.Certificates.{faults};
ghost use Rattle.bfs_node.specs.Nodes as model;
ghost use Rattle.bfs_recovery.specs.Holding.{IsHeld};
ghost use Rattle.bfs_recovery.specs.Recovering.{IsReadFrom, IsRecovered, ReplaysAll};

use crate::error::RecoverError;
use bfs_auth::Keys;
use bfs_node::{Executor, Node};
use bfs_steps::{ReplayError, replay};
use std::alloc::Global;
use std::sync::Wait;
use std::thread::Threads;

/// The replica with these keys that a folder holds: the saved one of that text, once it has made each step again that the bodies of the journal's records spell.
/// `Saved` if the text is refused, `Malformed` if a body spells no steps, `Memory` if memory runs out.
pub fn recover<R: Threads + Wait + Sync>(
    rt: &R,
    alloc: Global,
    keys: Keys,
    executor: Executor,
    text: &[u8],
    bodies: &[&[u8]],
) -> Result<Node, RecoverError>
    requires replica { AreOfReplica (faults keys) (number_in keys.me) keys }
    requires clients { length keys.clients ≤ most_clients }
    // What is held is recovered, and
    ensures held { (node : model.Node) → IsHeld keys (record { text = text.now; bodies = map (λ body. body.now) bodies.now }) node → IsRecovered node result }
    // whatever is recovered is read so.
    ensures found { IfOk result (IsReadFrom keys (record { text = text.now; bodies = map (λ body. body.now) bodies.now })) }
{
    let mut node = Node::restored(rt, alloc, keys, text)?;
    match replay_all(&mut node, rt, &executor, alloc, bodies) {
        Ok(()) => Ok(node),
        Err(error) => Err(RecoverError::from(error)),
    }
}

// Each body, one after another.
fn replay_all<R: Threads + Wait + Sync>(
    node: &mut Node,
    rt: &R,
    executor: &Executor,
    alloc: Global,
    bodies: &[&[u8]],
) -> Result<(), ReplayError>
    ensures { ReplaysAll node.old (map (λ body. body.now) bodies.now) result node.new }
{
    for body in bodies {
        match replay(node, rt, *executor, alloc, body) {
            Ok(()) => {}
            Err(error) => return Err(error),
        }
    }
    Ok(())
}
