// Results behind the header of a success, each reply in one vector. What READ and READDIR give is written straight from the inode.
ghost use Rattle.std.specs.Prelude.{◌≡◌, ◌++◌, [], OnOk, IfOk};
ghost use Rattle.std.specs.List.{flat_map};
ghost use Rattle.bfs_model.specs.Bytes.Replies.{entry_item, results, success};
ghost use Rattle.bfs_procs.specs.Borrowed.{contents_seen, found_or_refused, page_seen};
ghost use Rattle.bfs_wire.specs.Replies.{reply_seen};

use crate::data::Contents;
use bfs_inode::Page;
use bfs_rpc::put_success;
use bfs_types::{MOST_DATA_BYTES, Memory};
use bfs_wire::{
    NfsReply, Status, put_contents_front, put_done, put_end_of_entries, put_entry, put_reply,
};
use bfs_xdr::put_padding;
use std::alloc::Global;

// the header, in a vector with room for so many bytes
fn begin(alloc: Global, xid: u32, room: usize) -> Result<Vec<u8>, Memory>
    ensures { IfOk result (λ bytes. bytes.items ≡ success xid []) }
{
    let mut bytes = Vec::with_capacity(alloc, room)?;
    put_success(&mut bytes, xid)?;
    Ok(bytes)
}

/// Of a reply value.
#[tactic(auto, unfolding(bfs_model::specs::Bytes::Replies::success))]
pub(crate) fn success_of(alloc: Global, xid: u32, reply: &NfsReply) -> Result<Vec<u8>, Memory>
    ensures { IfOk result (λ bytes. bytes.items ≡ success xid (results (reply_seen reply.now))) }
{
    let mut bytes = begin(alloc, xid, room_for(reply))?;
    put_reply(&mut bytes, reply)?;
    Ok(bytes)
}

// the bytes that a reply begins with room for: its header, its status and attributes, and a path. Longer ones grow.
fn room_for(reply: &NfsReply) -> usize {
    match reply {
        NfsReply::Void => 24,
        NfsReply::Refused(_) | NfsReply::Done => 28,
        NfsReply::FreeBlocks(_) => 48,
        NfsReply::Attributes(_) => 96,
        NfsReply::Found { .. } => 128,
        NfsReply::Path(path) => path.len() + 35,
        NfsReply::Contents { .. } | NfsReply::Listed { .. } => 512,
    }
}

/// Of READ.
#[tactic(auto, unfolding(bfs_model::specs::Bytes::Replies::success))]
pub(crate) fn success_of_contents(
    alloc: Global,
    xid: u32,
    read: &Result<Contents, Status>,
) -> Result<Vec<u8>, Memory>
    ensures { IfOk result (λ bytes. bytes.items ≡ success xid (results (found_or_refused contents_seen read.now))) }
{
    match read {
        Ok(read) => {
            let mut bytes = begin(alloc, xid, read.len() + 103)?;
            put_read(&mut bytes, read)?;
            Ok(bytes)
        }
        Err(status) => success_of(alloc, xid, &NfsReply::Refused(*status)),
    }
}

// the bytes are copied once, straight from the file
#[tactic(auto, using(std::proofs::lemmas::List::append_assoc), unfolding(bfs_model::specs::Bytes::Replies::results, bfs_model::specs::Bytes::Items::counted, bfs_model::specs::Bytes::Items::fixed))]
fn put_read(out: &mut Vec<u8>, read: &Contents) -> Result<(), Memory>
    ensures { OnOk result (out.new.items ≡ out.old.items ++ results (contents_seen read.now)) }
{
    let count = read.len();
    put_contents_front(out, &read.attributes, count as u32)?;
    read.put_bytes(out)?;
    put_padding(out, count)
}

/// Of READDIR, of a page of at most that many bytes.
#[tactic(auto, unfolding(bfs_model::specs::Bytes::Replies::success))]
pub(crate) fn success_of_page(
    alloc: Global,
    xid: u32,
    count: u32,
    page: Result<Page, Status>,
) -> Result<Vec<u8>, Memory>
    ensures { IfOk result (λ bytes. bytes.items ≡ success xid (results (found_or_refused page_seen page.entry))) }
{
    match page {
        Ok(page) => {
            let mut bytes = begin(alloc, xid, MOST_DATA_BYTES.min(count as usize) + 24)?;
            put_page(&mut bytes, page)?;
            Ok(bytes)
        }
        Err(status) => success_of(alloc, xid, &NfsReply::Refused(status)),
    }
}

#[tactic(auto, using(std::proofs::lemmas::List::append_assoc), unfolding(bfs_model::specs::Bytes::Replies::results))]
fn put_page(out: &mut Vec<u8>, mut page: Page) -> Result<(), Memory>
    ensures { OnOk result (out.new.items ≡ out.old.items ++ results (page_seen page.entry)) }
{
    put_done(out)?;
    put_entries(out, &mut page)?;
    put_end_of_entries(out, page.is_last())
}

// those that are left of a page
#[tactic(auto, using(std::proofs::lemmas::List::append_assoc))]
fn put_entries(out: &mut Vec<u8>, page: &mut Page) -> Result<(), Memory>
    ensures put { OnOk result (out.new.items ≡ out.old.items ++ flat_map entry_item page.old.listed) }
    ensures taken { OnOk result (page.new.listed ≡ []) }
    ensures all { page.new.all ≡ page.old.all }
{
    while let Some(listed) = page.next_entry() {
        put_entry(out, listed.cookie, listed.name, listed.child)?;
    }
    Ok(())
}
