ghost use Rattle.std.specs.Prelude.{◌≡◌, ◌⊎◌, ◌++◌, [], OnErr, OnOk};
ghost use Rattle.bfs_journal.specs.Records.{IsBody};
ghost use Rattle.bfs_recovery.specs.Holding.{with_body};
ghost use Rattle.bfs_recovery.specs.Keeping.{IsKept, IsKeptOrDue, IsSaved};

use crate::folder::Folder;
use bfs_filter::TurnError;
use bfs_frames::Parcel;
use bfs_journal::MOST_BODY_BYTES;
use bfs_node::Node;
use bfs_service::Service;
use bfs_types::Memory;
use std::alloc::Global;
use std::marker::Model;

// Only a journal of more bytes than this is worth a saved node in its place.
const LEAST_JOURNAL_BYTES: usize = 1 << 20;

// No more bytes than this wait to be kept.
const MOST_DUE_BYTES: usize = 1 << 20;

/// A folder, how much was written to it, and what waits to be written.
#[derive(Drop)]
pub(crate) struct Store<F: Folder> {
    folder: F,
    // the text of the steps of turns that told nothing, since the last record
    due: Vec<u8>,
    // bytes of the text that was saved last, and of the bodies that were appended since
    saved: usize,
    journaled: usize,
}

impl<F: Folder> Model for Store<F> {
    ghost use Rattle.bfs_recovery.specs.Keeping as model;

    ghost Value = { model.Keeps };

    ghost view = { λ store. record { held = F.kept store.folder; due = store.due.items } };
}

impl<F: Folder + Drop> Store<F> {
    pub(crate) fn new(alloc: Global, folder: F) -> Store<F>
        ensures { result ≡ record { held = F.kept folder; due = [] } }
    {
        Store {
            folder,
            due: Vec::new(alloc),
            saved: 0,
            journaled: 0,
        }
    }

    pub(crate) fn folder(&self) -> &F
        ensures { F.kept result.now ≡ self.now.held }
    {
        &self.folder
    }

    /// Keeps what a replica did in the turn that it took last, and in those of which nothing was told since the last record, if it did anything: as a record of the
    /// journal, or by saving all of its node where that has adopted a state, or where the journal has grown past the text that was saved last. Where nothing is to be
    /// told of this turn either, that waits. `Memory` if memory runs out, `Storage` if the folder refuses.
    pub(crate) fn keep(&mut self, service: &Service, parcels: &[Parcel]) -> Result<(), TurnError>
        ensures kept { OnOk result (IsKeptOrDue service.now parcels.now self.old self.new) }
        ensures either { OnErr result ((self.new.held ≡ self.old.held) ⊎ IsKept service.now self.old self.new.held) }
    {
        if !service.is_spelled() {
            self.save(service.node())?;
            return Ok(());
        }
        self.wait(service.steps())?;
        if self.due.is_empty() {
            return Ok(());
        }
        if parcels.is_empty() && self.due.len() <= MOST_DUE_BYTES {
            return Ok(());
        }
        if self.is_full() || self.due.len() > MOST_BODY_BYTES {
            self.save(service.node())?;
            return Ok(());
        }
        self.append()?;
        Ok(())
    }

    /// Puts a node in the place of all that is held, and of all that waits.
    pub(crate) fn save(&mut self, node: &Node) -> Result<(), TurnError>
        ensures kept { OnOk result (IsSaved node.now self.new.held) }
        ensures none { OnOk result (self.new.due ≡ []) }
        ensures either { OnErr result ((self.new.held ≡ self.old.held) ⊎ IsSaved node.now self.new.held) }
    {
        let text = node.save()?;
        self.folder.replace(text.as_slice())?;
        self.saved = text.len();
        self.journaled = 0;
        self.due.clear();
        Ok(())
    }

    // The text of more steps waits.
    fn wait(&mut self, steps: &[u8]) -> Result<(), Memory>
        ensures more { OnOk result (self.new ≡ record self.old { due = self.old.due ++ steps.now }) }
        ensures held { self.new.held ≡ self.old.held }
    {
        self.due.extend_from_slice(steps)?;
        Ok(())
    }

    // What waits becomes a record.
    fn append(&mut self) -> Result<(), TurnError>
        requires { IsBody self.old.due }
        ensures kept { OnOk result (self.new.held ≡ with_body self.old.held self.old.due) }
        ensures none { OnOk result (self.new.due ≡ []) }
        ensures either { OnErr result ((self.new.held ≡ self.old.held) ⊎ (self.new.held ≡ with_body self.old.held self.old.due)) }
    {
        self.folder.append(self.due.as_slice())?;
        self.journaled = self.journaled.saturating_add(self.due.len());
        self.due.clear();
        Ok(())
    }

    // whether a saved node is to take the journal's place
    fn is_full(&self) -> bool {
        self.journaled > LEAST_JOURNAL_BYTES && self.journaled > self.saved
    }
}
