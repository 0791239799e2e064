// Whether a text spells inodes, without memory: nothing is built of it.
ghost use Rattle.std.specs.Prelude.{◌≡◌, None, IfOk, OnErr};
ghost use Rattle.std.specs.Option.{option_map};
ghost use Rattle.bfs_model.specs.Server.Tree.{first_ordinal, root_id};
ghost use Rattle.bfs_digest.specs.Inside.RecordReading.{body_from, entries_from, listing_from, record_from};
ghost use Rattle.bfs_digest.specs.Inside.TextReading.{files_from, records_from};
ghost use Rattle.bfs_digest.specs.Inside.Taking.{AreSpelled, Reads, Skips};

use crate::errors::Malformed;
use crate::headers::Header;
use crate::readers::TextReader;
use crate::versions::most_bytes_in;
use bfs_inode::FileId;
use bfs_types::{MOST_ENTRIES, MOST_PATH_BYTES};

/// The header of a text of that version, which was read, and the bytes of its records, which end where the text does.
#[tactic(auto, unfolding(crate::specs::Inside::TextReading::files_from))]
pub(crate) fn spelled<'a>(
    reader: &mut TextReader<'a>,
    version: u32,
) -> Result<(Header, &'a [u8]), Malformed>
    ensures ok { IfOk result (λ text. AreSpelled version reader.old text.0 text.1.now) }
    ensures err { OnErr result (files_from version reader.old ≡ None) }
{
    let header = reader.numbers()?;
    let records = reader.rest();
    skip_records(reader, version, header.count)?;
    if !reader.is_at_end() {
        return Err(Malformed);
    }
    Ok((header, records))
}

// so many records, by rising fileid
fn skip_records(reader: &mut TextReader, version: u32, count: u32) -> Result<(), Malformed>
    ensures { Skips result (records_from version count root_id reader.old) reader.new }
{
    let mut least = FileId::root().number() as u64;
    for _record in 0..count {
        let Ok(fileid) = skip_record(reader, version) else {
            return Err(Malformed);
        };
        let id = fileid.number() as u64;
        if id < least {
            return Err(Malformed);
        }
        least = id + 1;
    }
    Ok(())
}

// gives its fileid
#[tactic(auto, unfolding(crate::specs::Inside::RecordReading::record_from))]
fn skip_record(reader: &mut TextReader, version: u32) -> Result<FileId, Malformed>
    ensures { Reads (λ x. x) result (option_map (λ read. (read.0.0, read.1)) (record_from version reader.old)) reader.new }
{
    let head = reader.head()?;
    skip_body(reader, version, head.kind)?;
    Ok(head.fileid)
}

#[tactic(auto, unfolding(crate::specs::Inside::RecordReading::body_from, crate::specs::Inside::RecordReading::file_from, crate::specs::Inside::RecordReading::directory_from, crate::specs::Inside::RecordReading::link_from))]
fn skip_body(reader: &mut TextReader, version: u32, kind: u32) -> Result<(), Malformed>
    ensures { Skips result (body_from version kind reader.old) reader.new }
{
    match kind {
        1 => {
            reader.bytes(most_bytes_in(version))?;
            Ok(())
        }
        2 => skip_listing(reader),
        5 => {
            reader.bytes(MOST_PATH_BYTES as u32)?;
            Ok(())
        }
        _ => Err(Malformed),
    }
}

#[tactic(auto, unfolding(crate::specs::Inside::RecordReading::listing_from))]
fn skip_listing(reader: &mut TextReader) -> Result<(), Malformed>
    ensures { Skips result (listing_from reader.old) reader.new }
{
    let _parent = reader.word()?;
    let count = reader.word()?;
    if count > MOST_ENTRIES as u32 {
        return Err(Malformed);
    }
    skip_entries(reader, count)
}

// so many entries, by rising cookie
fn skip_entries(reader: &mut TextReader, count: u32) -> Result<(), Malformed>
    ensures { Skips result (entries_from count first_ordinal reader.old) reader.new }
{
    let mut least = 3u64;
    for _entry in 0..count {
        let Ok(entry) = reader.entry() else {
            return Err(Malformed);
        };
        let cookie = entry.cookie as u64;
        if cookie < least {
            return Err(Malformed);
        }
        least = cookie + 1;
    }
    Ok(())
}
