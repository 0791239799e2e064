ghost use Rattle.std.specs.Prelude.{◌≡◌, ◌↔◌, IsTrue, IfOk, IfSome, Some, None, is_some};
ghost use Rattle.std.specs.Option.{ForSome, option_map};
ghost use Rattle.bfs_model.specs.Server.Stored.{IsLive};
ghost use Rattle.bfs_model.specs.Server.Tree.{new_file_system};
ghost use Rattle.bfs_serial.specs.Parts.{file_system_of};
ghost use Rattle.bfs_tree.specs.Tree.{at_home, reach_of};

use bfs_tree::Tree;
use bfs_types::{Memory, Ordinal, Time};
use std::alloc::Global;
use std::marker::Model;

/// What a file system holds as long as it has not failed: a whole tree, the ordinal of the next request, and the time of
/// the last batch.
#[derive(Debug, Drop)]
pub(crate) struct Live {
    pub(crate) tree: Tree,
    pub(crate) next_ordinal: Ordinal,
    pub(crate) last_time: Time,
}

impl Model for Live {
    ghost use Rattle.bfs_model.specs.Server.Tree as model;
    ghost use Rattle.std.specs.Coded.{codes};
    ghost use Rattle.bfs_serial.specs.Codes.{inodes_code};

    ghost Value = { model.FileSystem };

    ghost coded = { Prim.hlevel (codes, inodes_code) };

    ghost use Rattle.std.specs.Prelude.{IsTrue};
    ghost use Rattle.bfs_model.specs.Server.Stored.{IsLive};
    ghost use Rattle.bfs_serial.specs.Parts.{file_system_of};
    ghost use Rattle.bfs_tree.specs.Tree.{reach_of};

    ghost view = { λ live. file_system_of live.tree live.next_ordinal live.last_time };

    ghost invariant = { λ live. IsTrue ((reach_of live.tree).whole) × IsLive (file_system_of live.tree live.next_ordinal live.last_time) };
}

/// A file system, which is live until it fails because memory ran out. A live one is well formed, and can be stored.
#[derive(Debug, Drop)]
pub struct FileSystem {
    live: Option<Live>,
}

impl Model for FileSystem {
    ghost use Rattle.std.specs.Prelude.{Option};
    ghost use Rattle.bfs_model.specs.Server.Tree as model;
    ghost use Rattle.std.specs.Coded.{codes};
    ghost use Rattle.bfs_serial.specs.Codes.{inodes_code};

    ghost Value = { Option model.FileSystem };

    ghost coded = { Prim.hlevel (codes, inodes_code) };

    ghost view = { λ files. files.live };
}

impl FileSystem {
    /// A file system with the root alone.
    pub fn new(alloc: Global) -> Result<FileSystem, Memory>
        ensures { IfOk result (λ files. files ≡ Some new_file_system) }
    {
        let live = Live::new(alloc)?;
        Ok(FileSystem { live: Some(live) })
    }

    /// Whether it has not failed. A live file system is well formed and can be stored: `IsLive` says what that means.
    pub fn is_live(&self) -> bool
        ensures value { result ≡ is_some self.now }
        ensures live { IsTrue result → ForSome self.now IsLive }
    {
        match &self.live {
            Some(live) => {
                live.is_live();
                true
            }
            None => false,
        }
    }

    /// The ordinal of the next request, from 3 to 4,294,967,296, or `None` if it has failed.
    pub fn next_ordinal(&self) -> Option<u64>
        ensures { result ≡ option_map (λ files. files.next_ordinal) self.now }
    {
        match &self.live {
            Some(live) => Some(live.next_ordinal()),
            None => None,
        }
    }

    /// The time of the last batch, or `None` if it has failed.
    pub fn last_time(&self) -> Option<Time>
        ensures { result ≡ option_map (λ files. files.last_time) self.now }
    {
        match &self.live {
            Some(live) => Some(live.last_time()),
            None => None,
        }
    }

    /// The inodes, or `None` if it has failed. The tree is whole, and the file system is live: well formed, and it can be stored.
    pub fn tree(&self) -> Option<&Tree>
        ensures value { option_map (λ tree. at_home tree.now) result ≡ option_map (λ files. files.tree) self.now }
        ensures whole { IfSome result (λ tree. IsTrue ((reach_of tree.now).whole)) }
        ensures live { IfSome result (λ _. ForSome self.now IsLive) }
    {
        match &self.live {
            Some(live) => {
                live.is_live();
                Some(live.tree())
            }
            None => None,
        }
    }

    /// Takes out what it holds, to be carried on elsewhere and put back by `put_parts`: its tree, the ordinal of the next request, and
    /// the time of the last batch. It has failed from then on. `None` if it has failed before. It takes no memory.
    pub fn take_parts(&mut self) -> Option<(Tree, Ordinal, Time)>
        ensures value { option_map (λ parts. file_system_of parts.0 parts.1 parts.2) result ≡ self.old }
        ensures whole { IfSome result (λ parts. IsTrue ((reach_of parts.0).whole)) }
        ensures live { IfSome result (λ parts. IsLive (file_system_of parts.0 parts.1 parts.2)) }
        ensures failed { self.new ≡ None }
    {
        let Live {
            tree,
            next_ordinal,
            last_time,
        } = self.live.take()?;
        Some((tree, next_ordinal, last_time))
    }

    /// It holds these from then on, and is live, whether it had failed or not. The tree is whole, and the three are those of a live
    /// file system. It takes no memory.
    pub fn put_parts(&mut self, tree: Tree, next_ordinal: Ordinal, last_time: Time)
        requires whole { IsTrue ((reach_of tree).whole) }
        requires live { IsLive (file_system_of tree next_ordinal last_time) }
        ensures { self.new ≡ Some (file_system_of tree next_ordinal last_time) }
    {
        *self = FileSystem::from_parts(tree, next_ordinal, last_time);
    }

    /// A live file system that holds these. The tree is whole, and the three are those of a live file system. It takes no memory.
    pub fn from_parts(tree: Tree, next_ordinal: Ordinal, last_time: Time) -> FileSystem
        requires whole { IsTrue ((reach_of tree).whole) }
        requires live { IsLive (file_system_of tree next_ordinal last_time) }
        ensures { result ≡ Some (file_system_of tree next_ordinal last_time) }
    {
        FileSystem {
            live: Some(Live {
                tree,
                next_ordinal,
                last_time,
            }),
        }
    }
}

impl Live {
    fn new(alloc: Global) -> Result<Live, Memory>
        ensures { IfOk result (λ live. live ≡ new_file_system) }
    {
        Ok(Live {
            tree: Tree::new(alloc)?,
            next_ordinal: Ordinal::first(),
            last_time: Time::epoch(),
        })
    }

    fn next_ordinal(&self) -> u64
        ensures { result ≡ self.now.next_ordinal }
    {
        self.next_ordinal.number()
    }

    fn last_time(&self) -> Time
        ensures { result ≡ self.now.last_time }
    {
        self.last_time
    }

    fn tree(&self) -> &Tree
        ensures value { at_home result.now ≡ self.now.tree }
        ensures whole { IsTrue ((reach_of result.now).whole) }
    {
        &self.tree
    }

    // what is said is the contract
    fn is_live(&self)
        ensures { IsLive self.now }
    {
        let _ = &self.tree;
    }
}
