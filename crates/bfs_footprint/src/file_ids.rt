ghost use Rattle.std.specs.Prelude.{◌≡◌, ◌<◌, ◌≤◌, ◌+◌, [], ◌∷◌, ◌++◌, length};
ghost use Rattle.bfs_model.specs.Server.Conflicts.{among};
ghost use Rattle.bfs_model.specs.Server.Footprints.{ids_in};

use bfs_types::FileId;
use std::marker::Model;

// how many fileids a call names at most
const MOST: usize = 4;

/// The fileids that a call names: at most four, in the order in which it names them, and one that it names twice stands twice. They lie in
/// the value itself, so no memory is taken.
#[derive(Debug, Drop)]
pub struct FileIds {
    ids: [FileId; MOST],
    // how many of them count
    len: usize,
}

impl Model for FileIds {
    ghost use Rattle.std.specs.Prelude.{ℕ, ◌≤◌, List, take};

    ghost Value = { List ℕ };

    ghost view = { λ ids. take ids.len ids.ids };

    ghost invariant = { λ ids. ids.len ≤ 4 };
}

impl FileIds {
    /// No fileids.
    pub fn none() -> FileIds
        ensures { result ≡ [] }
    {
        FileIds {
            ids: [FileId::root(); MOST],
            len: 0,
        }
    }

    // those that two handles lead to
    pub(crate) fn of(first: Option<FileId>, second: Option<FileId>) -> FileIds
        ensures value { result ≡ ids_in first ++ ids_in second }
        ensures few { length result ≤ 2 }
    {
        FileIds::none().with(first).with(second)
    }

    /// These, and another one behind them.
    pub fn and(mut self, id: FileId) -> FileIds
        requires { length self < 4 }
        ensures { result ≡ self ++ id ∷ [] }
    {
        self.ids[self.len] = id;
        self.len += 1;
        self
    }

    // these, and behind them the one that a handle leads to
    pub(crate) fn with(self, handle: Option<FileId>) -> FileIds
        requires { length self < 4 }
        ensures value { result ≡ self ++ ids_in handle }
        ensures few { length result ≤ length self + 1 }
    {
        match handle {
            Some(id) => self.and(id),
            None => self,
        }
    }

    /// The fileids, in order.
    pub fn as_slice(&self) -> &[FileId]
        ensures value { result.now ≡ self.now }
        ensures few { length result.now ≤ 4 }
    {
        &self.ids[..self.len]
    }

    /// Whether a fileid is among them.
    pub fn has(&self, id: FileId) -> bool
        ensures { result ≡ among self.now id }
    {
        for other in self.as_slice() {
            if *other == id {
                return true;
            }
        }
        false
    }
}
