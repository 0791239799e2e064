// Why RENAME may not be done.
ghost use Rattle.std.specs.Prelude.{◌≡◌, ◌==◌, ◌&&◌, not, is_some, IsTrue};
ghost use Rattle.std.specs.Result.{result_map_both};
ghost use Rattle.bfs_model.specs.Server.Procedures.Renaming as model;
ghost use Rattle.bfs_model.specs.Server.Refusals.{checked, is_full, has_most_links};
ghost use Rattle.bfs_wire.specs.Replies.{status_seen};

use bfs_inode::FileId;
use bfs_tree::{Store, is_below};
use bfs_types::{Context, MOST_ENTRIES, MOST_LINKS};
use bfs_wire::Status;
use std::marker::Model;

/// What has the new name already.
#[derive(Clone, Copy)]
pub(super) struct Replaced {
    pub(super) id: FileId,
    pub(super) is_directory: bool,
    pub(super) has_entries: bool,
}

impl Model for Replaced {
    ghost use Rattle.bfs_model.specs.Server.Procedures.Renaming as model;

    ghost Value = { model.Replaced };

    ghost view = { λ r. record { id = r.id; is_directory = r.is_directory; has_entries = r.has_entries } };

    ghost inverse = { λ r. record { id = r.id; is_directory = r.is_directory; has_entries = r.has_entries } };
}

/// What is moved, from which directory to which, as far as it says whether that may be.
#[derive(Clone, Copy)]
pub(super) struct Renaming {
    pub(super) from: FileId,
    pub(super) to: FileId,
    /// How many entries and links the directory has that it comes to.
    pub(super) entries: usize,
    pub(super) links: u32,
    pub(super) moved: FileId,
    pub(super) is_directory: bool,
    pub(super) replaced: Option<Replaced>,
}

impl Model for Renaming {
    ghost use Rattle.bfs_model.specs.Server.Procedures.Renaming as model;

    ghost Value = { model.Renaming };

    ghost view = { λ r. record { from = r.from; to = r.to; entries = r.entries; links = r.links; moved = r.moved; is_directory = r.is_directory; replaced = r.replaced } };

    ghost inverse = { λ r. record { from = r.from; to = r.to; entries = r.entries; links = r.links; moved = r.moved; is_directory = r.is_directory; replaced = r.replaced } };
}

impl Renaming {
    /// Whether it may be, or why not.
    pub(super) fn is_allowed<S: Store>(&self, store: &S, context: &Context) -> Result<(), Status>
        requires { IsTrue (model.moves_directory self.now) → IsTrue ((S.reach store.now).whole) }
        ensures { result_map_both (λ _. tt) status_seen result ≡ checked (model.renaming_refusals (S.inodes store.now) context.now self.now) }
    {
        let is_spent = context.ordinal.file_id().is_none();
        if self.goes_below_itself(store) {
            Err(Status::Perm)
        } else if self.is_onto_directory() && !self.is_directory {
            Err(Status::IsDir)
        } else if self.is_directory && self.replaced.is_some() && !self.is_onto_directory() {
            Err(Status::NotDir)
        } else if self.is_onto_entries() {
            Err(Status::NotEmpty)
        } else if is_spent {
            Err(Status::NoSpc)
        } else if self.lacks_entry() {
            Err(Status::NoSpc)
        } else if self.lacks_link() {
            Err(Status::NoSpc)
        } else {
            Ok(())
        }
    }

    /// Whether a directory comes below another one.
    pub(super) fn moves_directory(&self) -> bool
        ensures { result ≡ model.moves_directory self.now }
    {
        self.is_directory && self.from != self.to
    }

    fn goes_below_itself<S: Store>(&self, store: &S) -> bool
        requires { IsTrue (model.moves_directory self.now) → IsTrue ((S.reach store.now).whole) }
        ensures { result ≡ (model.moves_directory self.now && model.is_below (S.inodes store.now) self.now.to self.now.moved) }
    {
        let (to, moved) = (self.to, self.moved);
        self.moves_directory() && is_below(store, to, moved)
    }

    fn is_onto_directory(&self) -> bool
        ensures { result ≡ model.onto_directory self.now }
    {
        self.replaced.is_some_and(|replaced| replaced.is_directory)
    }

    fn is_onto_entries(&self) -> bool
        ensures { result ≡ model.onto_entries self.now }
    {
        self.replaced.is_some_and(|replaced| replaced.has_entries)
    }

    // whether the directory that it comes to has no place for the entry
    fn lacks_entry(&self) -> bool
        ensures { result ≡ (not (is_some self.now.replaced) && not (self.now.from == self.now.to) && is_full self.now.entries) }
    {
        self.replaced.is_none() && self.from != self.to && self.entries >= MOST_ENTRIES
    }

    // whether the directory that it comes to can have no further link
    fn lacks_link(&self) -> bool
        ensures { result ≡ (not (is_some self.now.replaced) && model.moves_directory self.now && has_most_links self.now.links) }
    {
        self.replaced.is_none() && self.moves_directory() && self.links >= MOST_LINKS
    }
}
