// An inode as it was, which never changes again: what texts and digests need of it.
ghost use Rattle.std.specs.Prelude.{◌≡◌, ◌++◌};
ghost use Rattle.bfs_model.specs.Bytes.Items.{words};
ghost use Rattle.bfs_inode.specs.Frozen.{frozen_text};

use bfs_blocks::FileBlocks;
use bfs_types::FileId;
use std::marker::Model;

/// What an inode held.
#[derive(Debug, Drop)]
pub enum FrozenBody {
    /// The bytes of a regular file. It shares the blocks that the file's own bytes keep the digests of.
    File(FileBlocks),
    /// What a text has of a directory or of a symbolic link, behind the words in front.
    Text(Vec<u8>),
}

/// An inode as it was, with its fileid: what a text has of it, and the digest of its record. Who shares it sees it never change.
#[derive(Debug, Drop)]
pub struct FrozenInode {
    // in front, beside the count of those who share it, so that one fetch reads both
    digest: [u8; 32],
    id: FileId,
    // the words in front
    head: [u32; 12],
    body: FrozenBody,
}

impl Model for FrozenInode {
    ghost use Rattle.std.specs.Prelude.{◌++◌};
    ghost use Rattle.bfs_model.specs.Bytes.Items.{words};
    ghost use Rattle.bfs_inode.specs.Frozen.{frozen_text};
    ghost use Rattle.bfs_inode.specs.Records.{Frozen};

    ghost Value = { Frozen };

    ghost view = { λ frozen. record { id = frozen.id; text = words frozen.head ++ frozen_text frozen.body; digest = frozen.digest } };
}

impl FrozenInode {
    /// The inode of those words in front, which held that, and the digest of its record.
    pub fn new(id: FileId, head: [u32; 12], body: FrozenBody, digest: [u8; 32]) -> FrozenInode
        ensures { result ≡ record { id = id; text = words head ++ frozen_text body; digest = digest } }
    {
        FrozenInode {
            digest,
            id,
            head,
            body,
        }
    }

    /// Its fileid.
    pub fn id(&self) -> FileId
        ensures { result ≡ self.now.id }
    {
        self.id
    }

    /// What a text has of it: the words in front, and what it held.
    pub fn parts(&self) -> (&[u32; 12], &FrozenBody)
        ensures { words result.0.now ++ frozen_text result.1.now ≡ self.now.text }
    {
        (&self.head, &self.body)
    }

    /// The digest of its record.
    pub fn digest(&self) -> &[u8; 32]
        ensures { result.now ≡ self.now.digest }
    {
        &self.digest
    }
}
