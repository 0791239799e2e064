// What holds of the texts of tables. The bodies are empty: what is said is the contracts.
ghost use Rattle.bfs_replies.specs.TextReading.{TablesAreReadAgain, TablesWereWritten};

/// The text of a table is read again, whatever follows it.
#[tactic(auto, using(crate::proofs::Exact::tables_again))]
pub fn tables_are_read_again()
    ensures { TablesAreReadAgain }
{}

/// Where a table is read from bytes, they begin with its text.
pub fn tables_were_written()
    ensures { TablesWereWritten }
{}
