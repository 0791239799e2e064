ghost use Rattle.std.specs.Prelude.{◌≡◌, false, IfOk, IfSome, IsTrue, Some, length, map};
ghost use Rattle.std.specs.Option.{ForSome, option_and_then, option_map, option_map_or};
ghost use Rattle.bfs_model.specs.Server.Groups.{footprints_at};
ghost use Rattle.bfs_model.specs.Laws.Overtaking.{IsGroup};
ghost use Rattle.bfs_footprint.specs.Seen.{footprint_seen};
ghost use Rattle.bfs_serial.specs.Parts.{file_system_of};
ghost use Rattle.bfs_tree.specs.Tree.{at_home, reach_of};
ghost use Rattle.bfs_overtaking.specs.Machine.{Happens, Plays, at_start, is_complete, played, reply_to};
ghost use Rattle.bfs_overtaking.specs.Seen.{start_of};
ghost use Rattle.bfs_levels.specs.Parts.{first_requests};
ghost use Rattle.bfs_levels.specs.Requests.{requests_from};
ghost use Rattle.bfs_overtaking.specs.declared.events.Event.TheVariants as event;

use crate::calls::all_waiting;
use crate::claims::claims_of;
use crate::errors::CoreError;
use crate::events::Event;
use crate::running::Running;
use bfs_footprint::Footprint;
use bfs_levels::{Group, Part};
use bfs_serial::Batch;
use bfs_tree::Tree;
use bfs_types::{Memory, Ordinal, Time};
use std::alloc::Global;
use std::marker::Model;

/// The pure machine of a group's calls over the tree that they are carried out on. A call is taken, by which the inodes that it writes
/// leave the tree, and later finished, by which it is carried out and they come home. Calls that don't conflict may be under way at one
/// time, and finished in any order. The core fails when memory runs out.
#[derive(Drop)]
pub struct Core<'a> {
    running: Option<Running<'a>>,
}

impl<'a> Model for Core<'a> {
    ghost use Rattle.std.specs.Prelude.{Option};
    ghost use Rattle.std.specs.Coded.{codes};
    ghost use Rattle.bfs_serial.specs.Codes.{inodes_code};
    ghost use Rattle.bfs_overtaking.specs.Machine as core;

    ghost Value = { Option core.Machine };

    ghost coded = { Prim.hlevel (codes, inodes_code) };

    ghost view = { λ core. core.running };
}

impl<'a> Core<'a> {
    /// The core of a group that was planned on that tree, all of whose calls wait. `ordinal` is that of the group's first request,
    /// and `time` the effective time of the batch; with these the inodes are well formed. `Memory` if memory runs out; the tree is
    /// then dropped.
    pub fn new(
        alloc: Global,
        tree: Tree,
        group: Group,
        batch: &'a Batch,
        ordinal: Ordinal,
        time: Time,
    ) -> Result<Core<'a>, Memory>
        requires whole { IsTrue ((reach_of tree).whole) }
        requires group { IsGroup (file_system_of tree ordinal time) time (requests_from group.first (length group.footprints.items) batch.now.requests) }
        requires planned { map footprint_seen group.footprints.items ≡ footprints_at (at_home tree) ordinal time (requests_from group.first (length group.footprints.items) batch.now.requests) }
        ensures { IfOk result (λ core. core ≡ Some (at_start group.first ordinal time (requests_from group.first (length group.footprints.items) batch.now.requests) (at_home tree))) }
    {
        let part = Part {
            batch,
            first: group.first,
            ordinal,
            time,
        };
        Core::of(alloc, tree, &part, group.footprints)
    }

    /// The core of a group that was planned on that tree, all of whose calls wait: the first of the part's requests, which have these
    /// footprints. With the ordinal of the first and the time the inodes are well formed. `Memory` if memory runs out; the tree is
    /// then dropped.
    pub fn of(
        alloc: Global,
        tree: Tree,
        part: &Part<'a>,
        footprints: Vec<Footprint>,
    ) -> Result<Core<'a>, Memory>
        requires whole { IsTrue ((reach_of tree).whole) }
        requires group { IsGroup (file_system_of tree part.now.ordinal part.now.time) part.now.time (first_requests part.now (length footprints.items)) }
        requires planned { map footprint_seen footprints.items ≡ footprints_at (at_home tree) part.now.ordinal part.now.time (first_requests part.now (length footprints.items)) }
        ensures { IfOk result (λ core. core ≡ Some (start_of part.now (length footprints.items) (at_home tree))) }
    {
        let claims = claims_of(alloc, footprints.as_slice())?;
        let calls = all_waiting(alloc, footprints)?;
        Ok(Core {
            running: Some(Running {
                alloc,
                part: Part { ..*part },
                tree,
                calls,
                claims,
            }),
        })
    }

    /// Takes the call of that number in the batch. It is refused, in this order: `Failed` if the core has failed; `NoSuchCall` if the
    /// group has no such call; `Taken` if it was taken before, also once it is finished; `NotReady` if an earlier call that conflicts
    /// with it is not finished; `Memory` if memory runs out, and the core has then failed. It costs a few
    /// look-ups among what the group's calls touch.
    pub fn take(&mut self, number: u32) -> Result<(), CoreError>
        ensures { Happens self.old (event.Take number) result self.new }
    {
        let Some(running) = self.running.take() else {
            return Err(CoreError::Failed);
        };
        if let Some(refused) = running.take_refusal(number) {
            self.running = Some(running);
            return Err(refused);
        }
        self.running = Some(running.taken(number)?);
        Ok(())
    }

    /// Finishes the call of that number in the batch. It is refused, in this order: `Failed` if the core has failed; `NoSuchCall` if
    /// the group has no such call; `NotTaken` if it was not taken, or is finished; `Memory` if memory runs out, and the core has then
    /// failed.
    pub fn finish(&mut self, number: u32) -> Result<(), CoreError>
        ensures { Happens self.old (event.Finish number) result self.new }
    {
        let Some(running) = self.running.take() else {
            return Err(CoreError::Failed);
        };
        if let Some(refused) = running.finish_refusal(number) {
            self.running = Some(running);
            return Err(refused);
        }
        self.running = Some(running.finished(number)?);
        Ok(())
    }

    /// Whether every call of the group is finished. A core that has failed is not.
    pub fn finished(&self) -> bool
        ensures { result ≡ option_map_or is_complete self.now false }
    {
        match &self.running {
            Some(running) => running.is_finished(),
            None => false,
        }
    }

    /// The tree, of which the inodes that calls under way write are lent out; once all calls are finished it is whole. `None` if the
    /// core has failed.
    pub fn tree(&self) -> Option<&Tree>
        ensures value { option_map (λ tree. at_home tree.now) result ≡ option_map (λ machine. machine.home) self.now }
        ensures whole { IfSome result (λ tree. ForSome self.now (λ machine. IsTrue (is_complete machine) → IsTrue ((reach_of tree.now).whole))) }
    {
        match &self.running {
            Some(running) => Some(running.tree()),
            None => None,
        }
    }

    /// The bytes of the reply to the call of that number in the batch, none if it can't be answered; or `None` if the group has no
    /// such call, if it is not finished, or if the core has failed.
    pub fn reply(&self, number: u32) -> Option<&[u8]>
        ensures { option_map (λ reply. reply.now) result ≡ option_and_then (λ machine. reply_to machine number) self.now }
    {
        match &self.running {
            Some(running) => running.reply(number),
            None => None,
        }
    }

    /// The core of a group after these events, in their order. The first that is refused ends it, and the tree is then dropped, as it
    /// is if memory runs out.
    pub fn play(
        alloc: Global,
        tree: Tree,
        group: Group,
        batch: &'a Batch,
        ordinal: Ordinal,
        time: Time,
        events: &[Event],
    ) -> Result<Core<'a>, CoreError>
        requires whole { IsTrue ((reach_of tree).whole) }
        requires group { IsGroup (file_system_of tree ordinal time) time (requests_from group.first (length group.footprints.items) batch.now.requests) }
        requires planned { map footprint_seen group.footprints.items ≡ footprints_at (at_home tree) ordinal time (requests_from group.first (length group.footprints.items) batch.now.requests) }
        ensures { Plays (played events.now (at_start group.first ordinal time (requests_from group.first (length group.footprints.items) batch.now.requests) (at_home tree))) result }
    {
        let part = Part {
            batch,
            first: group.first,
            ordinal,
            time,
        };
        Core::after(alloc, tree, &part, group.footprints, events)
    }

    /// The core of the first of a part's requests, which are a group and have these footprints, after these events: what `play` gives.
    pub fn after(
        alloc: Global,
        tree: Tree,
        part: &Part<'a>,
        footprints: Vec<Footprint>,
        events: &[Event],
    ) -> Result<Core<'a>, CoreError>
        requires whole { IsTrue ((reach_of tree).whole) }
        requires group { IsGroup (file_system_of tree part.now.ordinal part.now.time) part.now.time (first_requests part.now (length footprints.items)) }
        requires planned { map footprint_seen footprints.items ≡ footprints_at (at_home tree) part.now.ordinal part.now.time (first_requests part.now (length footprints.items)) }
        ensures { Plays (played events.now (start_of part.now (length footprints.items) (at_home tree))) result }
    {
        let mut core = Core::of(alloc, tree, part, footprints)?;
        for event in events {
            core.happen(*event)?;
        }
        Ok(core)
    }

    fn happen(&mut self, event: Event) -> Result<(), CoreError>
        ensures { Happens self.old event result self.new }
    {
        match event {
            Event::Take(number) => self.take(number),
            Event::Finish(number) => self.finish(number),
        }
    }
}
