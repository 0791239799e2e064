// What a directory holds, item by item: in a text and in a record that is hashed it is the same.
ghost use Rattle.std.specs.Prelude.{OnOk, OnErr};
ghost use Rattle.bfs_inode.specs.Records.{entries_text, entry_text, listing_text};
ghost use Rattle.bfs_xdr.specs.Sinks.{Stops, Takes};

use bfs_inode::{Directory, Entry};
use bfs_xdr::Sink;

/// Its parent, the number of its entries, and these by rising cookie.
#[tactic(auto, using(std::proofs::lemmas::List::append_assoc))]
pub(crate) fn put_listing<S: Sink>(directory: &Directory, out: &mut S) -> Result<(), S::Error>
    ensures ok { OnOk result (Takes S.holds out.old out.new (listing_text directory.now)) }
    ensures err { OnErr result (Stops S.holds S.begins out.old out.new) }
{
    out.u32(directory.parent().number())?;
    out.u32(directory.len() as u32)?;
    put_entries(directory, out)
}

fn put_entries<S: Sink>(directory: &Directory, out: &mut S) -> Result<(), S::Error>
    ensures ok { OnOk result (Takes S.holds out.old out.new (entries_text directory.now.entries)) }
    ensures err { OnErr result (Stops S.holds S.begins out.old out.new) }
{
    for entry in directory.iter() {
        put_entry(entry, out)?;
    }
    Ok(())
}

#[tactic(auto, using(std::proofs::lemmas::List::append_assoc))]
fn put_entry<S: Sink>(entry: &Entry, out: &mut S) -> Result<(), S::Error>
    ensures ok { OnOk result (Takes S.holds out.old out.new (entry_text entry.now)) }
    ensures err { OnErr result (Stops S.holds S.begins out.old out.new) }
{
    out.u32(entry.cookie)?;
    out.opaque(entry.name.as_slice())?;
    out.u32(entry.child.number())
}
