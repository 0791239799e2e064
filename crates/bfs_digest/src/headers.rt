// What stands in front of the records of a text.
ghost use Rattle.std.specs.Prelude.{◌≡◌, OnOk, OnErr};
ghost use Rattle.std.specs.Option.{option_map};
ghost use Rattle.bfs_tree.specs.Tree.{at_home, reach_of};
ghost use Rattle.bfs_xdr.specs.Sinks.{Stops, Takes};
ghost use Rattle.bfs_digest.specs.Text.{header_of, header_text, latest_version};

use crate::versions::LATEST_VERSION;
use bfs_serial::FileSystem;
use bfs_tree::{Store, Tree};
use bfs_types::Time;
use bfs_xdr::Sink;
use std::marker::Model;

/// The word in front of every text, whose bytes are `BFSS`.
pub(crate) const MAGIC: u32 = 0x4246_5353;

/// The next ordinal, the last time, and the number of inodes.
#[derive(Debug, Drop)]
pub(crate) struct Header {
    pub(crate) next_ordinal: u64,
    pub(crate) last_time: Time,
    pub(crate) count: u32,
}

impl Model for Header {
    ghost use Rattle.bfs_digest.specs.Text as model;

    ghost Value = { model.Header };

    ghost view = { λ header. record { next_ordinal = header.next_ordinal; last_time = header.last_time; count = header.count } };
}

#[tactic(auto, using(std::proofs::lemmas::List::append_assoc))]
pub(crate) fn put_header<S: Sink>(header: &Header, out: &mut S) -> Result<(), S::Error>
    ensures ok { OnOk result (Takes S.holds out.old out.new (header_text latest_version header.now)) }
    ensures err { OnErr result (Stops S.holds S.begins out.old out.new) }
{
    out.u32(MAGIC)?;
    out.u32(LATEST_VERSION)?;
    out.u64(header.next_ordinal)?;
    out.u32(header.last_time.seconds())?;
    out.u32(header.last_time.useconds())?;
    out.u32(header.count)
}

/// The header of a file system and its inodes, or `None` if it has failed.
pub(crate) fn parts_of(files: &FileSystem) -> Option<(Header, &Tree)>
    ensures header { option_map (λ parts. parts.0) result ≡ option_map header_of files.now }
    ensures tree { option_map (λ parts. at_home parts.1.now) result ≡ option_map (λ files. files.tree) files.now }
{
    let tree = files.tree()?;
    let header = Header {
        next_ordinal: files.next_ordinal()?,
        last_time: files.last_time()?,
        count: tree.count() as u32,
    };
    Some((header, tree))
}
