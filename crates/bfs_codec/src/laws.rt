// What ties the texts of messages to reading them. The bodies are empty: what is said is the contracts.
ghost use Rattle.bfs_codec.specs.Laws.{MessageIsReadAgain, MessageWasWritten, TextSpellsMessage, OneText, OneBatch};

/// A message that was written is read again, whatever follows it.
#[tactic(auto, using(crate::proofs::Whole::message_again))]
pub fn message_is_read_again()
    ensures { MessageIsReadAgain }
{}

/// Where a message is read, it stands there as it is written.
pub fn message_was_written()
    ensures { MessageWasWritten }
{}

/// The text of a message spells it.
#[tactic(auto, using(crate::proofs::Whole::text_spells))]
pub fn text_spells_message()
    ensures { TextSpellsMessage }
{}

/// Messages with one text are one message.
#[tactic(auto, using(crate::proofs::Whole::one_text))]
pub fn one_text()
    ensures { OneText }
{}

/// Batches with one text are one batch.
#[tactic(auto, using(crate::proofs::Whole::one_batch))]
pub fn batches_with_one_text()
    ensures { OneBatch }
{}
