ghost use Rattle.std.specs.Prelude.{◌≡◌, ◌≢◌, ◌↔◌, ◌<◌, ◌≤◌, length, is_some, IfOk, IfErr, IfSome, IsErrOf, None, Some};
ghost use Rattle.std.specs.Option.{option_map};
ghost use Rattle.bfs_model.specs.Server.Limits.{most_clients, most_requests};
ghost use Rattle.bfs_model.specs.Server.Tree.{FileSystem as Files};
ghost use Rattle.bfs_votes.specs.Votes.{replicas};
ghost use Rattle.bfs_auth.specs.Principals.{number_of as number_in};
ghost use Rattle.bfs_auth.specs.Replicas.{AreOfReplica};
ghost use Rattle.bfs_checkpoints.specs.Keeping.{IsStable, stable};
ghost use Rattle.bfs_checkpoints.specs.Outcomes.{NodeHasOtherVersion, NodeIsMalformed, SpellsIllFormedNode};
ghost use Rattle.bfs_checkpoints.specs.Texts.{node_digest};
ghost use Rattle.bfs_order.specs.Replica.Behind.{is_behind};
ghost use Rattle.bfs_order.specs.Replica.Proposing.{leads};
ghost use Rattle.bfs_log.specs.Certificates.{faults};
ghost use Rattle.bfs_replies.specs.Classes.{class_of};
ghost use Rattle.bfs_node.specs.Changing.{view_to_follow};
ghost use Rattle.bfs_node.specs.Errors.{IsTextError};
ghost use Rattle.bfs_node.specs.Nodes.{BeginsWith, beginning_with, keys_of_replica, new_node};
ghost use Rattle.bfs_node.specs.declared.error.NodeError.TheVariants as error;

use crate::error::NodeError;
use bfs_auth::{Keys, Principal, derived_keys_are_of_replicas};
use bfs_checkpoints::{AdoptError, Snapshots, StableSnapshot, digest_node, read_node};
use bfs_log::faults_of;
use bfs_messages::{NewView, Request, Signed};
use bfs_order::Order;
use bfs_pending::PendingRequests;
use bfs_replies::{Class, ReplyTable};
use bfs_serial::FileSystem;
use bfs_settings::Settings;
use bfs_types::Memory;
use bfs_view_change::KeptViewChanges;
use std::alloc::Global;
use std::marker::Model;
use std::thread::Threads;

/// One replica: what it knows of the order of batches, its file system, the last reply to each client, the requests that wait to be
/// ordered, and the snapshots that it keeps (OSDI 1999 section 4).
///
/// Its calls give the messages that are to be sent; `receivers_of` tells to whom each goes. A replica does no input or output itself.
#[derive(Drop)]
pub struct Node {
    pub(crate) alloc: Global,
    pub(crate) keys: Keys,
    pub(crate) order: Order,
    pub(crate) files: FileSystem,
    pub(crate) table: ReplyTable,
    pub(crate) pending: PendingRequests,
    pub(crate) changes: KeptViewChanges,
    pub(crate) snapshots: Snapshots,
    pub(crate) new_view: Option<Signed<NewView>>,
}

impl Model for Node {
    ghost use Rattle.bfs_node.specs.Inside.Bounds.{IsWhole};
    ghost use Rattle.bfs_node.specs.Nodes as model;
    ghost use Rattle.std.specs.Coded.{codes};
    ghost use Rattle.bfs_serial.specs.Codes.{inodes_code};

    ghost Value = { model.Node };

    ghost coded = { Prim.hlevel (codes, inodes_code) };

    ghost view = { λ n. record { keys = n.keys; order = n.order; files = n.files; table = n.table; pending = n.pending; changes = n.changes; snapshots = n.snapshots; new_view = n.new_view } };

    ghost invariant = { λ n. IsWhole (record { keys = n.keys; order = n.order; files = n.files; table = n.table; pending = n.pending; changes = n.changes; snapshots = n.snapshots; new_view = n.new_view }) };
}

impl Node {
    /// A replica that has done nothing. Its number, and how many replicas and clients there are, is told by its keys. `Memory` if memory runs
    /// out.
    pub fn new(alloc: Global, keys: Keys) -> Result<Node, Memory>
        requires replica { AreOfReplica (faults keys) (number_in keys.me) keys }
        requires clients { length keys.clients ≤ most_clients }
        ensures { IfOk result (λ node. node ≡ new_node keys) }
    {
        let files = FileSystem::new(alloc)?;
        let table = ReplyTable::new(alloc, keys.clients() as u32)?;
        Node::with_state(alloc, keys, files, table)
    }

    /// The replica of that number under the settings, which has done nothing: its keys are derived from their secret. `Memory` if memory
    /// runs out.
    pub fn of_settings(alloc: Global, settings: &Settings, me: u32) -> Result<Node, Memory>
        requires { me < replicas settings.now.f }
        ensures { IfOk result (λ node. node ≡ new_node (keys_of_replica settings.now me)) }
    {
        derived_keys_are_of_replicas();
        let keys = Keys::derive(
            alloc,
            settings.secret(),
            Principal::Replica(me),
            settings.replicas(),
            settings.clients(),
        )?;
        Node::new(alloc, keys)
    }

    /// A replica that begins with the file system and the last replies that the text of a replica's state spells, as of number 0: so all
    /// replicas of a cluster begin that is set up from a backup. `stable` gives such a text. It is refused, in this order:
    /// `MalformedText`, also where it is one of another number of clients; `WrongVersion`; `NotWellFormed`; `Memory`.
    pub fn from_text(alloc: Global, keys: Keys, text: &[u8]) -> Result<Node, NodeError>
        requires replica { AreOfReplica (faults keys) (number_in keys.me) keys }
        requires clients { length keys.clients ≤ most_clients }
        ensures ok { IfOk result (λ node. BeginsWith keys text.now node) }
        ensures malformed { IsErrOf result error.MalformedText ↔ NodeIsMalformed (length keys.clients) text.now }
        ensures wrong_version { IsErrOf result error.WrongVersion ↔ NodeHasOtherVersion (length keys.clients) text.now }
        ensures ill_formed { IsErrOf result error.NotWellFormed → SpellsIllFormedNode (length keys.clients) text.now }
        ensures errors { IfErr result IsTextError }
    {
        match read_node(alloc, text, keys.clients() as u32) {
            Ok((files, table)) => Ok(Node::with_state(alloc, keys, files, table)?),
            Err(error) => Err(NodeError::from(AdoptError::from(error))),
        }
    }

    // with a live file system
    fn with_state(
        alloc: Global,
        keys: Keys,
        files: FileSystem,
        table: ReplyTable,
    ) -> Result<Node, Memory>
        requires replica { AreOfReplica (faults keys) (number_in keys.me) keys }
        requires clients { length table ≡ length keys.clients }
        ensures { IfOk result (λ node. (live : Files) → files ≡ Some live → node ≡ beginning_with keys live table) }
    {
        let f = faults_of(&keys);
        let me = keys.me().number();
        Ok(Node {
            alloc,
            keys,
            order: Order::new(alloc, f, me),
            files,
            table,
            pending: PendingRequests::new(alloc),
            changes: KeptViewChanges::new(alloc, f)?,
            snapshots: Snapshots::new(alloc, f),
            new_view: None,
        })
    }

    /// How many of its replicas may be faulty: f of 3f + 1.
    pub fn f(&self) -> u32
        ensures { result ≡ self.now.order.f }
    {
        self.order.f()
    }

    /// Its number among the replicas.
    pub fn number(&self) -> u32
        ensures { result ≡ self.now.order.me }
    {
        self.order.me()
    }

    /// How many clients there are.
    pub fn clients(&self) -> u32
        ensures { result ≡ length self.now.table }
    {
        self.table.clients()
    }

    /// Whether it is the primary of the view that it has entered, and has asked for no later one: then it may propose.
    pub fn leads(&self) -> bool
        ensures { result ≡ leads self.now.order }
    {
        self.order.leads()
    }

    /// The view last entered.
    pub fn view(&self) -> u64
        ensures { result ≡ self.now.order.view }
    {
        self.order.view()
    }

    /// The view last asked for: above the one entered while a view change is under way.
    pub fn view_asked(&self) -> u64
        ensures { result ≡ self.now.order.asked }
    {
        self.order.asked()
    }

    /// The NEW-VIEW by which it has entered its view, its own where it leads the view: by it one that lags can enter too. None in view 0.
    pub fn new_view(&self) -> Option<&Signed<NewView>>
        ensures { option_map (λ new. new.now) result ≡ self.now.new_view }
    {
        self.new_view.as_ref()
    }

    /// The least view above those that it has entered and asked for which replicas ask for, once f + 1 ask for views above them: then time
    /// has run out for a correct one, and to `leave_for` that view is due here too (OSDI 1999 section 4.5.2).
    pub fn view_to_follow(&self) -> Option<u64>
        ensures { result ≡ view_to_follow self.now }
    {
        let own = self.order.view().max(self.order.asked());
        self.changes.least_asked(own, self.order.f() as usize + 1)
    }

    /// Whether f + 1 other replicas have told checkpoints above the number last executed here: then it may adopt the snapshot of one that is
    /// ahead.
    pub fn is_behind(&self) -> bool
        ensures { result ≡ is_behind self.now.order }
    {
        self.order.is_behind()
    }

    /// The number of the last stable checkpoint, 0 before the first: what is ordered lies at most `LOG_SIZE` above it.
    pub fn stable_number(&self) -> u64
        ensures { result ≡ self.now.order.low }
    {
        self.order.low()
    }

    /// The number last executed, 0 where none was.
    pub fn last_executed(&self) -> u64
        ensures { result ≡ self.now.order.last }
    {
        self.order.last_executed()
    }

    /// How many requests wait to be ordered, at most `MOST_REQUESTS`.
    pub fn pending(&self) -> u32
        ensures value { result ≡ length self.now.pending }
        ensures within { result ≤ most_requests }
    {
        self.pending.len()
    }

    /// The requests that wait to be ordered, in the order in which they came. Each has passed, so its client has signed it for this replica.
    pub fn waiting(&self) -> &[Signed<Request>]
        ensures { result.now ≡ self.now.pending }
    {
        self.pending.as_slice()
    }

    /// What a request of that client and timestamp is to the client's last one that was executed here: `Class::New` where it has not been executed.
    pub fn classify(&self, client: u32, timestamp: u64) -> Class
        ensures { result ≡ class_of self.now.table client timestamp }
    {
        self.table.classify(client, timestamp)
    }

    /// Whether the file system has not failed.
    pub fn is_live(&self) -> bool
        ensures { result ≡ is_some self.now.files }
    {
        self.files.is_live()
    }

    /// The digest of its file system and of the last replies. `Failed` if the file system has failed, `Memory` if memory runs out.
    pub fn digest(&self, rt: &(impl Threads + Sync)) -> Result<[u8; 32], NodeError>
        ensures value { IfOk result (λ digest. option_map (λ live. node_digest live self.now.table) self.now.files ≡ Some digest) }
        ensures failed { IsErrOf result error.Failed ↔ (self.now.files ≡ None) }
        ensures errors { IfErr result (λ e. e ≢ error.Memory → e ≡ error.Failed) }
    {
        Ok(digest_node(rt, self.alloc, &self.files, &self.table)?)
    }

    /// The stable snapshot, by which another replica catches up. None as long as no checkpoint is stable of which this replica has a
    /// snapshot.
    pub fn stable(&self) -> Option<StableSnapshot<'_>>
        ensures value { option_map (λ stable. (stable.snapshot.now.text, stable.checkpoint.now)) result ≡ stable self.now.snapshots }
        ensures certified { IfSome result (λ stable. IsStable self.now.order.f stable.snapshot.now.text stable.checkpoint.now) }
    {
        self.snapshots.stable()
    }
}
