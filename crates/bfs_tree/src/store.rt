ghost use Rattle.std.specs.Prelude.{◌≡◌, ℕ, Bool, true, IsTrue, OnOk, OnErr, IfErr};
ghost use Rattle.std.specs.Option.{option_copied, option_copied_mut};
ghost use Rattle.std.specs.Borrow.{sem};
ghost use Rattle.std.specs.FinMap.{get, insert, len, remove};
ghost use Rattle.bfs_model.specs.Server.Tree.{Inodes};
ghost use Rattle.bfs_model.specs.Server.Procedures.Status.{used_blocks};
ghost use Rattle.bfs_tree.specs.Reach.{Reach};
ghost use Rattle.bfs_tree.specs.Lending.{LendsInode};

use bfs_inode::Inode;
use bfs_types::FileId;

/// Inodes by their fileids. A store may know only some of the fileids; only of these it tells the inodes. It may own only some
/// of those that it knows; only of these it changes the inodes. A store that is whole knows and owns all fileids.
pub trait Store {
    // the inodes by fileid that it stands for
    ghost inodes: { Self → Inodes };

    // which fileids it knows and owns, and whether that is all of them
    ghost reach: { Self → Reach };

    /// Whether it knows and owns every fileid.
    fn is_whole(&self) -> bool
        ensures { result ≡ (reach self.now).whole };

    /// How many inodes there are, in a store that is whole. In another one the number is unspecified.
    fn count(&self) -> usize
        ensures { IsTrue ((reach self.now).whole) → result ≡ len (inodes self.now) };

    /// How many blocks, of `BLOCK_SIZE` bytes each, all inodes take, in a store that is whole. In another one the number is
    /// unspecified.
    fn used_blocks(&self) -> u64
        ensures { IsTrue ((reach self.now).whole) → result ≡ used_blocks (inodes self.now) };

    /// Whether it knows the fileid, that is, which inode has it or that none does.
    fn knows(&self, id: FileId) -> bool
        ensures { result ≡ (reach self.now).known id };

    /// The inode of a fileid that it knows, or `None` if no inode has it.
    fn get(&self, id: FileId) -> Option<&Inode>
        requires { IsTrue ((reach self.now).known id) }
        ensures { option_copied result ≡ get (inodes self.now) id };

    /// The inode of a fileid that it owns, to be changed, or `None` if no inode has it.
    fn get_mut(&mut self, id: FileId) -> Option<&mut Inode>
        requires { IsTrue ((reach self.old).owned id) }
        ensures value { option_copied_mut result ≡ get (inodes self.old) id }
        ensures* writes_back { sem 𝓛 (LendsInode Self.row inodes reach self.entry id result) };

    /// Puts an inode at a fileid that it owns, in the place of one that is there. If memory runs out, the error is the inode
    /// itself; then nothing changes.
    fn insert(&mut self, id: FileId, inode: Inode) -> Result<(), Inode>
        requires { IsTrue ((reach self.old).owned id) }
        ensures reach { reach self.new ≡ reach self.old }
        ensures ok { OnOk result (inodes self.new ≡ insert (inodes self.old) id inode) }
        ensures err { OnErr result (inodes self.new ≡ inodes self.old) }
        ensures back { IfErr result (λ back. back ≡ inode) };

    /// Removes the inode of a fileid that it owns and gives it back, or `None` if no inode has it.
    fn remove(&mut self, id: FileId) -> Option<Inode>
        requires { IsTrue ((reach self.old).owned id) }
        ensures reach { reach self.new ≡ reach self.old }
        ensures value { result ≡ get (inodes self.old) id }
        ensures removed { inodes self.new ≡ remove (inodes self.old) id };

    ghost knows_owned: { (s : Self) (id : ℕ) → (reach s).owned id ≡ true → (reach s).known id ≡ true };

    ghost knows_all: { (s : Self) → (reach s).whole ≡ true → (id : ℕ) → (reach s).known id ≡ true };

    ghost owns_all: { (s : Self) → (reach s).whole ≡ true → (id : ℕ) → (reach s).owned id ≡ true };
}
