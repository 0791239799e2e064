ghost use Rattle.std.specs.Prelude.{◌≡◌, IfOk, OnErr};
ghost use Rattle.bfs_recovery.specs.Turns.{Begins, IsUntold, Takes};

use crate::folder::Folder;
use crate::storing::Store;
use bfs_filter::{Machine, TurnError};
use bfs_frames::{Parcel, Turn};
use bfs_node::{Executor, Node};
use bfs_service::{Service, Terms};
use std::alloc::Global;
use std::marker::Model;
use std::sync::Wait;
use std::thread::Threads;

/// A replica as a process that tells nothing before what it did up to then is kept.
#[derive(Drop)]
pub struct Keeping<F: Folder> {
    service: Service,
    store: Store<F>,
}

impl<F: Folder> Model for Keeping<F> {
    ghost use Rattle.bfs_recovery.specs.Turns as model;
    ghost use Rattle.std.specs.Coded.{codes};
    ghost use Rattle.bfs_serial.specs.Codes.{inodes_code};

    ghost Value = { model.Living };

    ghost coded = { Prim.hlevel (codes, inodes_code) };

    ghost view = { λ one. record { acting = one.service.acting; held = one.store.held; due = one.store.due } };
}

impl<F: Folder + Drop> Keeping<F> {
    /// A life of a replica, which begins as that node: it takes the place of all that the folder holds. `Memory` if memory runs out, `Storage` if the folder refuses.
    pub fn begin(
        alloc: Global,
        node: Node,
        executor: Executor,
        terms: Terms,
        folder: F,
    ) -> Result<Keeping<F>, TurnError>
        ensures { IfOk result (Begins node) }
    {
        let mut store = Store::new(alloc, folder);
        store.save(&node)?;
        Ok(Keeping {
            service: Service::new(alloc, node, executor, terms),
            store,
        })
    }

    /// Its node as it is now.
    pub fn node(&self) -> &Node
        ensures { result.now ≡ self.now.acting.node }
    {
        self.service.node()
    }

    /// The folder that keeps it.
    pub fn folder(&self) -> &F
        ensures { F.kept result.now ≡ self.now.held }
    {
        self.store.folder()
    }

    /// Takes a turn as a `Service` does, and keeps what the node did in it, if anything, before it gives what is to be told. Where nothing is to be told, what it did
    /// may wait, and is kept with the next turn of which something is. `Memory` if memory runs out, `Storage` if the folder refuses: the process is to end then, and
    /// to tell nothing of this turn.
    pub fn take_turn<R: Threads + Wait + Sync>(
        &mut self,
        rt: &R,
        turn: &Turn,
    ) -> Result<Vec<Parcel>, TurnError>
        ensures taken { IfOk result (λ parcels. Takes self.old turn.now parcels.items self.new) }
        ensures untold { OnErr result (IsUntold self.old turn.now self.new.held) }
    {
        let parcels = self.service.take_turn(rt, turn)?;
        self.store.keep(&self.service, &parcels)?;
        Ok(parcels)
    }
}

impl<F: Folder + Drop> Machine for Keeping<F> {
    ghost takes = { Takes };

    fn turn<H: Threads + Wait + Sync>(
        &mut self,
        rt: &H,
        turn: Turn,
    ) -> Result<Vec<Parcel>, TurnError> {
        self.take_turn(rt, &turn)
    }

    // The trees grow by which the node signs next.
    fn rest(&self) -> bool {
        self.service.node().grow()
    }
}
