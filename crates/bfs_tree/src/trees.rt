ghost use Rattle.std.specs.Prelude.{◌≡◌, IfOk, OnOk, OnErr, IsTrue};
ghost use Rattle.std.specs.Arc.{arc_value};
ghost use Rattle.std.specs.Option.{ForSome, option_copied};
ghost use Rattle.std.specs.FinMap.{contains_key, empty, entries, get, insert, keys, remove};
ghost use Rattle.std.specs.List.Sorted.{IsStrictlyIncreasing};
ghost use Rattle.bfs_inode.specs.Records.{frozen_of};
ghost use Rattle.bfs_model.specs.Server.Conflicts.{set_at};
ghost use Rattle.bfs_model.specs.Server.Tree.{Inodes, new_tree};
ghost use Rattle.bfs_model.specs.Server.Procedures.Status.{used_blocks};
ghost use Rattle.bfs_tree.specs.Reach.{Reach};
ghost use Rattle.bfs_tree.specs.Tree.{at_home, brought, lent, reach_of, reserved};
ghost use Rattle.bfs_tree.specs.declared.slots.Slot.TheVariants as slot;
ghost use Rattle.bfs_tree.specs.Laws.Knowing.{knows_all};

use crate::boxed::BoxedInode;
use crate::boxes::Boxes;
use crate::inodes::Inodes;
use crate::places::Places;
use crate::slots::Slot;
use crate::store::Store;
use bfs_inode::{FrozenInode, Inode};
use bfs_types::{FileId, Memory};
use std::alloc::Global;
use std::marker::Model;
use std::sync::Arc;

/// The inodes of a file system by their fileids. Some may be lent out, to be changed elsewhere and brought home; the tree knows and
/// owns all fileids but theirs. It keeps counts of the inodes at home and of the fileids lent out, so that `is_whole` and `count` cost
/// no walk; `used_blocks` walks over all inodes.
#[derive(Debug, Drop)]
pub struct Tree {
    places: Places,
    // for the boxes of its inodes
    alloc: Global,
}

impl Model for Tree {
    ghost use Rattle.std.specs.FinMap as map;
    ghost use Rattle.std.specs.Coded.{coded_ℕ};
    ghost use Rattle.bfs_tree.specs.Slots.{Slots};
    ghost use Rattle.bfs_tree.specs.contracts.slots.Slot as slot;

    ghost Value = { Slots };

    ghost coded = { map.code coded_ℕ slot.the_row.coded };

    ghost view = { λ tree. tree.places };
}

impl Tree {
    /// A tree with the root alone. `Memory` if memory runs out.
    #[tactic(auto, using(crate::proofs::SlotLemmas::home_insert, crate::proofs::SlotLemmas::home_empty, crate::proofs::SlotLemmas::one_is_whole))]
    pub fn new(alloc: Global) -> Result<Tree, Memory>
        ensures value { IfOk result (λ tree. at_home tree ≡ new_tree) }
        ensures whole { IfOk result (λ tree. IsTrue ((reach_of tree).whole)) }
    {
        let Ok(root) = BoxedInode::new(alloc, Inode::root(alloc)) else {
            return Err(Memory);
        };
        let mut places = Places::new(alloc);
        match places.insert(FileId::root(), Slot::Home(root)) {
            Ok(_) => Ok(Tree { places, alloc }),
            Err(_) => Err(Memory),
        }
    }

    /// A tree with no inodes, not even the root, to which those of a file system are to come.
    #[tactic(auto, using(crate::proofs::SlotLemmas::home_empty, crate::proofs::SlotLemmas::none_is_whole))]
    pub fn empty(alloc: Global) -> Tree
        ensures value { at_home result ≡ empty }
        ensures whole { IsTrue ((reach_of result).whole) }
    {
        Tree {
            places: Places::new(alloc),
            alloc,
        }
    }

    /// Makes a place for what may come to a fileid, so that it can be lent out though no inode has it. `Memory` if memory runs out;
    /// then nothing changes.
    #[tactic(auto, using(crate::proofs::SlotLemmas::reserving))]
    pub fn reserve(&mut self, id: FileId) -> Result<(), Memory>
        ensures ok { OnOk result (self.new ≡ reserved self.old id) }
        ensures place { OnOk result (IsTrue (contains_key self.new id)) }
        ensures home { at_home self.new ≡ at_home self.old }
        ensures out { lent self.new ≡ lent self.old }
        ensures err { OnErr result (self.new ≡ self.old) }
    {
        if self.places.get(id).is_some() {
            return Ok(());
        }
        match self.places.insert(id, Slot::Free) {
            Ok(_) => Ok(()),
            Err(_) => Err(Memory),
        }
    }

    /// Takes the inode of a fileid out of its place, or `None` if no inode has it, until it is brought home. It takes no memory.
    #[tactic(auto, using(crate::proofs::SlotLemmas::leaving))]
    pub fn lend_out(&mut self, id: FileId) -> Option<BoxedInode>
        requires place { IsTrue (contains_key self.old id) }
        requires home { IsTrue ((reach_of self.old).owned id) }
        ensures value { result ≡ get (at_home self.old) id }
        ensures lent { self.new ≡ insert self.old id slot.Lent }
        ensures home { at_home self.new ≡ remove (at_home self.old) id }
        ensures out { lent self.new ≡ insert (lent self.old) id tt }
    {
        self.places.replace(id, Slot::Lent)?.into_boxed()
    }

    /// Takes the inode of a fileid out of the tree, or `None` if no inode has it, until it is brought home: what `reserve` and `lend_out` do
    /// one after the other, by one look-up. `Memory` if memory runs out; then nothing changes.
    #[tactic(auto, using(crate::proofs::SlotLemmas::leaving))]
    pub fn lend(&mut self, id: FileId) -> Result<Option<BoxedInode>, Memory>
        requires home { IsTrue ((reach_of self.old).owned id) }
        ensures value { IfOk result (λ inode. inode ≡ get (at_home self.old) id) }
        ensures lent { OnOk result (self.new ≡ insert self.old id slot.Lent) }
        ensures home { OnOk result (at_home self.new ≡ remove (at_home self.old) id) }
        ensures out { OnOk result (lent self.new ≡ insert (lent self.old) id tt) }
        ensures err { OnErr result (self.new ≡ self.old) }
    {
        match self.places.insert(id, Slot::Lent) {
            Ok(Some(was)) => Ok(was.into_boxed()),
            Ok(None) => Ok(None),
            Err(_) => Err(Memory),
        }
    }

    /// Puts an inode back in the place that was lent out. `None` says that no inode has the fileid from then on. It takes no memory.
    #[tactic(auto, using(crate::proofs::SlotLemmas::loan_has_place, crate::proofs::SlotLemmas::coming))]
    pub fn bring_home(&mut self, id: FileId, inode: Option<BoxedInode>)
        requires { IsTrue (contains_key (lent self.old) id) }
        ensures brought { self.new ≡ brought self.old id inode }
        ensures home { at_home self.new ≡ set_at (at_home self.old) id inode }
        ensures out { lent self.new ≡ remove (lent self.old) id }
    {
        match inode {
            Some(inode) => {
                self.places.replace(id, Slot::Home(inode));
            }
            None => {
                self.places.remove(id);
            }
        }
    }

    /// The fileids of the inodes at home, rising. `Memory` if memory runs out.
    #[tactic(auto, using(crate::proofs::MapLemmas::keys_rise))]
    pub fn ids(&self, alloc: Global) -> Result<Vec<FileId>, Memory>
        ensures value { IfOk result (λ ids. ids.items ≡ keys (at_home self.now)) }
        ensures rising { IfOk result (λ ids. IsStrictlyIncreasing ids.items) }
    {
        self.collected_ids(alloc)
    }

    fn collected_ids(&self, alloc: Global) -> Result<Vec<FileId>, Memory>
        ensures { IfOk result (λ ids. ids.items ≡ keys (at_home self.now)) }
    {
        let ids = self.iter().map(|(id, _)| FileId::new(*id));
        Ok(ids.collect(alloc)?)
    }

    /// The inode of a fileid, or `None` if no inode has it, or if it is lent out.
    pub fn home(&self, id: FileId) -> Option<&Inode>
        ensures { option_copied result ≡ get (at_home self.now) id }
    {
        match self.boxed(id) {
            Some(boxed) => Some(boxed.get()),
            None => None,
        }
    }

    /// The same in its box, with what it keeps.
    #[tactic(auto, using(crate::proofs::SlotLemmas::home_at, crate::proofs::SlotLemmas::no_home_at))]
    pub fn boxed(&self, id: FileId) -> Option<&BoxedInode>
        ensures { option_copied result ≡ get (at_home self.now) id }
    {
        self.places.get(id)?.boxed()
    }

    /// Has the inode of a fileid, if there is one at home, keep a frozen one of what it is (`BoxedInode::keep`). It takes no memory.
    pub fn keep(&mut self, id: FileId, frozen: Arc<FrozenInode>)
        requires { ForSome (get (at_home self.old) id) (λ inode. arc_value frozen ≡ frozen_of id inode) }
        ensures { self.new ≡ self.old }
    {
        self.places.keep(id, frozen);
    }

    /// The inodes at home by the numbers of their fileids, which rise.
    #[tactic(auto, using(crate::proofs::SlotLemmas::home_entries))]
    pub fn iter(&self) -> Inodes<'_>
        ensures { result ≡ entries (at_home self.now) }
    {
        Inodes::of(&self.places)
    }

    /// The same in their boxes, with what they keep. No inode is fetched.
    #[tactic(auto, using(crate::proofs::SlotLemmas::home_entries))]
    pub fn boxes(&self) -> Boxes<'_>
        ensures { result ≡ entries (at_home self.now) }
    {
        Boxes::of(&self.places)
    }
}

impl Store for Tree {
    ghost inodes = { λ tree. at_home tree };

    ghost reach = { λ tree. reach_of tree };

    ghost knows_owned = { λ _ _ owned. owned };

    ghost knows_all = { λ tree whole id. knows_all (lent tree) whole id };

    ghost owns_all = { λ tree whole id. knows_all (lent tree) whole id };

    fn is_whole(&self) -> bool {
        self.places.counts().lent == 0
    }

    fn count(&self) -> usize {
        self.places.counts().home
    }

    fn used_blocks(&self) -> u64 {
        blocks_in_all(self)
    }

    #[tactic(auto, using(crate::proofs::SlotLemmas::loan_at, crate::proofs::SlotLemmas::no_loan_at))]
    fn knows(&self, id: FileId) -> bool {
        match self.places.get(id) {
            Some(slot) => !slot.is_lent(),
            None => true,
        }
    }

    fn get(&self, id: FileId) -> Option<&Inode> {
        self.home(id)
    }

    fn get_mut(&mut self, id: FileId) -> Option<&mut Inode> {
        self.places.inode_mut(id)
    }

    #[tactic(auto, using(crate::proofs::SlotLemmas::home_insert, crate::proofs::SlotLemmas::reach_insert))]
    fn insert(&mut self, id: FileId, inode: Inode) -> Result<(), Inode> {
        let boxed = BoxedInode::new(self.alloc, inode)?;
        match self.places.insert(id, Slot::Home(boxed)) {
            Ok(_) => Ok(()),
            Err(refused) => match refused.into_inode() {
                Some(inode) => Err(inode),
                None => Ok(()),
            },
        }
    }

    #[tactic(auto, using(crate::proofs::SlotLemmas::home_remove, crate::proofs::SlotLemmas::reach_remove, crate::proofs::SlotLemmas::home_at, crate::proofs::SlotLemmas::no_home_at))]
    fn remove(&mut self, id: FileId) -> Option<Inode> {
        match self.places.remove(id) {
            Some(slot) => slot.into_inode(),
            None => None,
        }
    }
}

fn blocks_in_all(tree: &Tree) -> u64
    ensures { result ≡ used_blocks (at_home tree.now) }
{
    let mut blocks = 0;
    for (id, inode) in tree.iter() {
        // there are no more inodes before this one than fileids below its own
        prove!(blocks <= u32::MAX as u64 * *id as u64);
        blocks += inode.blocks() as u64;
    }
    blocks
}
