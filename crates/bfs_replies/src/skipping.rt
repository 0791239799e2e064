// The text of a table, passed over: nothing is built.
ghost use Rattle.std.specs.Prelude.{◌≡◌, ℕ, List};
ghost use Rattle.std.specs.Option.{option_map};
ghost use Rattle.bfs_model.specs.Bytes.Formats.{items_from};
ghost use Rattle.bfs_replies.specs.TextReading.{last_from, passed, table_from};

use crate::reading::read_last;
use crate::tables::ReplyTable;
use bfs_types::MOST_CLIENTS;
use bfs_xdr::Reader;

impl ReplyTable {
    /// How many clients the table has with whose text the bytes begin, and the bytes behind that text; `None` if they begin with no
    /// table's text. It takes no memory.
    #[tactic(auto, unfolding(crate::specs::TextReading::table_from))]
    pub fn skip_text(bytes: &[u8]) -> Option<(u32, &[u8])>
        ensures { option_map {U = ℕ × List ℕ} (λ skipped. (skipped.0, skipped.1.now)) result ≡ passed (table_from bytes.now) }
    {
        let mut reader = Reader::strict(bytes);
        let Ok(count) = reader.u32() else {
            return None;
        };
        if count > MOST_CLIENTS {
            return None;
        }
        let rest = skip_lasts(count, reader.rest())?;
        Some((count, rest))
    }
}

/// The bytes behind so many lasts, if they begin with these.
pub(crate) fn skip_lasts(count: u32, bytes: &[u8]) -> Option<&[u8]>
    ensures { option_map {U = ℕ × List ℕ} (λ rest. (count, rest.now)) result ≡ passed (items_from last_from count bytes.now) }
{
    let mut left = Reader::strict(bytes);
    for _last in 0..count {
        let Ok(_) = read_last(&mut left) else {
            return None;
        };
    }
    Some(left.rest())
}
