ghost use Rattle.std.specs.Prelude.{◌≡◌, IfOk, IfErr, IfSome};
ghost use Rattle.std.specs.Arc.{arc_value};
ghost use Rattle.std.specs.Borrow.{Lends, sem};
ghost use Rattle.bfs_inode.specs.Records.{frozen_of, record_digest};
ghost use Rattle.bfs_inode.specs.contracts.inodes.Inode as inode;
ghost use Rattle.bfs_tree.specs.contracts.boxed.BoxedInode.{the_row};

use bfs_inode::{FrozenInode, Inode};
use bfs_types::FileId;
use std::alloc::Global;
use std::marker::Model;
use std::sync::Arc;

/// An inode in a box of its own. Where it is moved only the box moves, and the bytes of the inode stay where they are.
///
/// Beside the box it may keep a frozen inode of what the inode is, with the digest of its record, so that what didn't change isn't hashed,
/// copied or fetched again. It goes with the box, who may change the inode drops it (`get_mut`), and contracts see nothing of it.
#[derive(Debug, Drop)]
pub struct BoxedInode {
    inode: Box<Inode>,
    // as it is, under that fileid
    kept: Option<(FileId, Arc<FrozenInode>)>,
}

impl Model for BoxedInode {
    ghost use Rattle.std.specs.Prelude.{◌≡◌};
    ghost use Rattle.std.specs.Arc.{arc_value};
    ghost use Rattle.std.specs.Option.{ForSome};
    ghost use Rattle.bfs_inode.specs.Records.{frozen_of};
    ghost use Rattle.bfs_model.specs.Server.Tree as model;

    ghost Value = { model.Inode };

    ghost view = { λ boxed. boxed.inode.value };

    // what it keeps is what the inode is
    ghost invariant = { λ boxed. ForSome boxed.kept (λ kept. arc_value kept.1 ≡ frozen_of kept.0 boxed.inode.value) };
}

impl BoxedInode {
    /// Puts an inode in a box. If memory runs out, the error is the inode itself.
    pub fn new(alloc: Global, inode: Inode) -> Result<BoxedInode, Inode>
        ensures ok { IfOk result (λ boxed. boxed ≡ inode) }
        ensures back { IfErr result (λ back. back ≡ inode) }
    {
        match Box::new(alloc, inode) {
            Ok(inode) => Ok(BoxedInode { inode, kept: None }),
            Err(refused) => Err(refused.value),
        }
    }

    /// The inode.
    pub fn get(&self) -> &Inode
        ensures { result.now ≡ self.now }
    {
        self.inode.as_ref()
    }

    /// The inode, to be changed. What is kept of it is dropped.
    pub fn get_mut(&mut self) -> &mut Inode
        ensures value { result.now ≡ self.old }
        ensures* writes_back { sem 𝓛 (Lends the_row inode.the_row self.entry result (λ left. left)) }
    {
        self.kept = None;
        self.inode.as_mut()
    }

    /// Takes the inode out of its box.
    pub fn into_inode(self) -> Inode
        ensures { result ≡ self }
    {
        Box::into_inner(self.inode)
    }

    /// The frozen inode that it keeps, which is what the inode is under that fileid, or `None` if it keeps none: none was given to it since
    /// somebody could change the inode, or one under another fileid.
    pub fn kept(&self, id: FileId) -> Option<&Arc<FrozenInode>>
        ensures { IfSome result (λ kept. arc_value kept.now ≡ frozen_of id self.now) }
    {
        match &self.kept {
            Some(kept) if kept.0 == id => Some(&kept.1),
            _ => None,
        }
    }

    /// The SHA-256 (FIPS 180-4) of the record of the inode under that fileid, or `None` if it keeps none. It takes no memory.
    pub fn kept_digest(&self, id: FileId) -> Option<[u8; 32]>
        ensures { IfSome result (λ digest. digest ≡ record_digest id self.now) }
    {
        match self.kept(id) {
            Some(kept) => Some(*kept.digest()),
            None => None,
        }
    }

    /// Keeps a frozen inode of what the inode is under that fileid, in the place of one that it kept. It takes no memory.
    pub fn keep(&mut self, id: FileId, frozen: Arc<FrozenInode>)
        requires { arc_value frozen ≡ frozen_of id self.old }
        ensures { self.new ≡ self.old }
    {
        self.kept = Some((id, frozen));
    }
}
