// A replica is read again from the bytes by which it was saved.
ghost use Rattle.std.specs.Prelude.{◌≡◌, ◌≢◌, ◌≤◌, List, Option, map, length, IfErr, IfOk};
ghost use Rattle.bfs_model.specs.Server.Limits.{most_clients};
ghost use Rattle.bfs_auth.specs.Principals.{number_of as number_in};
ghost use Rattle.bfs_auth.specs.Replicas.{AreOfReplica};
ghost use Rattle.bfs_checkpoints.specs.Keeping as keeping;
ghost use Rattle.bfs_checkpoints.specs.Snapshots.{IsTaken};
ghost use Rattle.bfs_checkpoints.specs.States.{IsStateReadAs, state_text as own_text};
ghost use Rattle.bfs_replies.specs.Tables.{IsKept, Table};
ghost use Rattle.std.specs.Option.{ForSome};
ghost use Rattle.bfs_model.specs.Server.Stored.{IsLive};
ghost use Rattle.bfs_model.specs.Server.Tree as state;
ghost use Rattle.bfs_digest.specs.declared.errors.RestoreError.TheVariants as restore;
ghost use Rattle.bfs_log.specs.Certificates.{faults};
ghost use Rattle.bfs_node.specs.Nodes as model;
ghost use Rattle.bfs_node.specs.Saving.{AreTaken, IsKeptReadAs, IsOf, IsReadAs, IsSavable, of_state, saved, saved_snapshot, text_of};
ghost use Rattle.bfs_saving.specs.Errors.{IsOnly, refusal};
ghost use Rattle.bfs_saving.specs.Saved.{FitsSaved};
ghost use Rattle.bfs_saving.specs.declared.error.SavedError.TheVariants as error;

use crate::node::Node;
use bfs_auth::Keys;
use bfs_checkpoints::{Kept, Snapshots, read_state, restore_snapshot};
use bfs_digest::RestoreError;
use bfs_log::faults_of;
use bfs_replies::ReplyTable;
use bfs_saving::{SavedError, SavedNode, SavedState, read_saved, refusal};
use bfs_serial::FileSystem;
use std::alloc::Global;
use std::thread::Threads;

impl Node {
    /// The very replica of which `save` made these bytes, with its keys: these tell its number, and how many replicas and clients there are. What it
    /// costs is linear in the bytes but for what is sorted in a tree, and the states in it are hashed. It is refused: `WrongVersion` if the bytes are
    /// of another version, `OtherSettings` if they are of a replica that knows another number of clients or of other replicas, `OtherReplica` if of
    /// another number; `Malformed` if they were cut or changed, or spell none; `Memory` if memory runs out.
    pub fn restored(
        rt: &(impl Threads + Sync),
        alloc: Global,
        keys: Keys,
        bytes: &[u8],
    ) -> Result<Node, SavedError>
        requires replica { AreOfReplica (faults keys) (number_in keys.me) keys }
        requires clients { length keys.clients ≤ most_clients }
        // What is read is saved so, and
        ensures found { IfOk result (λ node. bytes.now ≡ text_of node) }
        ensures holder { IfOk result (IsOf keys) }
        // what is saved so is read.
        ensures only { (node : model.Node) → IsSavable node → IsOf keys node → bytes.now ≡ text_of node → IsOnly node result }
        ensures refused { IfErr result (λ e. e ≢ error.Memory → e ≡ refusal (length keys.clients) (faults keys) (number_in keys.me) bytes.now) }
    {
        let (f, me, clients) = (faults_of(&keys), keys.me().number(), keys.clients() as u32);
        match read_saved(alloc, &keys, f, me, bytes) {
            Ok(saved) => match Node::of_saved(rt, alloc, keys, saved) {
                Ok(node) => Ok(node),
                Err(error) => Err(why_refused(error, refusal(clients, f, me, bytes))),
            },
            Err(error) => Err(error),
        }
    }

    fn of_saved(
        rt: &(impl Threads + Sync),
        alloc: Global,
        keys: Keys,
        parts: SavedNode<'_>,
    ) -> Result<Node, RestoreError>
        requires { FitsSaved keys (faults keys) (number_in keys.me) parts }
        ensures found { IfOk result (λ node. parts.entry ≡ saved node) }
        ensures holder { IfOk result (IsOf keys) }
        ensures only { (node : model.Node) → IsSavable node → IsOf keys node → parts.entry ≡ saved node → IsReadAs node result }
    {
        let SavedNode {
            clients,
            order,
            pending,
            changes,
            new_view,
            stable,
            states,
            own,
        } = parts;
        let (files, table) = match restore_own(alloc, clients, own) {
            Ok(state) => state,
            Err(refused) => return Err(refused),
        };
        match restore_snapshots(rt, alloc, &states) {
            Ok(kept) => Ok(Node {
                alloc,
                keys,
                files,
                table,
                pending,
                changes,
                snapshots: Snapshots::with_kept(order.f(), kept, stable),
                order,
                new_view,
            }),
            Err(refused) => Err(refused),
        }
    }
}

// A state that can't be read is a fault of the text.
fn why_refused(error: RestoreError, refused: SavedError) -> SavedError
    ensures { result ≡ of_state error refused }
{
    match error {
        RestoreError::Malformed | RestoreError::WrongVersion | RestoreError::NotWellFormed => {
            refused
        }
        RestoreError::Memory => SavedError::Memory,
    }
}

// What it is now, with a table of so many clients.
fn restore_own(
    alloc: Global,
    clients: u32,
    own: &[u8],
) -> Result<(FileSystem, ReplyTable), RestoreError>
    ensures text { IfOk result (λ read. own.now ≡ own_text read.0 read.1) }
    ensures clients { IfOk result (λ read. length read.1 ≡ clients) }
    ensures only { (files : Option state.FileSystem) (table : Table) → ForSome files IsLive → IsKept table → length table ≡ clients → own.now ≡ own_text files table
        → IsStateReadAs files table result }
{
    match read_state(alloc, own) {
        Ok((files, table)) => {
            if table.clients() == clients {
                Ok((files, table))
            } else {
                Err(RestoreError::Malformed)
            }
        }
        Err(refused) => Err(refused),
    }
}

fn restore_snapshots(
    rt: &(impl Threads + Sync),
    alloc: Global,
    states: &[SavedState<'_>],
) -> Result<Vec<Kept>, RestoreError>
    ensures found { IfOk result (λ kept. map saved_snapshot kept.items ≡ states.now) }
    ensures only { (kept : List keeping.Kept) → AreTaken kept → states.now ≡ map saved_snapshot kept → IfOk result (λ read. read.items ≡ kept) }
    ensures refused { (kept : List keeping.Kept) → AreTaken kept → states.now ≡ map saved_snapshot kept → IfErr result (λ e. e ≡ restore.Memory) }
{
    let mut kept = Vec::new(alloc);
    for state in states {
        match restore_kept(rt, alloc, state) {
            Ok(one) => {
                if kept.push(one).is_err() {
                    return Err(RestoreError::Memory);
                }
            }
            Err(refused) => return Err(refused),
        }
    }
    Ok(kept)
}

fn restore_kept(
    rt: &(impl Threads + Sync),
    alloc: Global,
    state: &SavedState<'_>,
) -> Result<Kept, RestoreError>
    ensures found { IfOk result (λ kept. saved_snapshot kept ≡ state.now) }
    ensures only { (kept : keeping.Kept) → IsTaken kept.snapshot → state.now ≡ saved_snapshot kept → IsKeptReadAs kept result }
{
    match restore_snapshot(rt, alloc, state.text) {
        Ok(snapshot) => Ok(Kept::new(state.number, snapshot)),
        Err(refused) => Err(refused),
    }
}
