ghost use Rattle.bfs_model.specs.Laws.Spelling.{WordIsReadAgain, HyperIsReadAgain, BooleanIsReadAgain, FixedIsReadAgain, OpaqueIsReadAgain, WordWasWritten, HyperWasWritten, BooleanWasWritten, FixedWasWritten, OpaqueWasWritten, HandleLeadsToItsFile, OnlyTheHandleLeadsToAFile};

/// An unsigned integer below 2^32 that was written is read again, whatever follows it (RFC 4506 section 4.2).
#[tactic(auto, using(crate::proofs::Laws::word_again))]
pub fn word_is_read_again()
    ensures { WordIsReadAgain }
{}

/// An unsigned hyper integer below 2^64 that was written is read again, whatever follows it (RFC 4506 section 4.5).
#[tactic(auto, using(crate::proofs::Laws::hyper_again))]
pub fn hyper_is_read_again()
    ensures { HyperIsReadAgain }
{}

/// A boolean that was written is read again, whatever follows it (RFC 4506 section 4.4).
#[tactic(auto, using(crate::proofs::Laws::boolean_again))]
pub fn boolean_is_read_again()
    ensures { BooleanIsReadAgain }
{}

/// Fixed-length opaque data that were written are read again, strictly or not, whatever follows them (RFC 4506 section 4.9).
#[tactic(auto, using(crate::proofs::Laws::fixed_again))]
pub fn fixed_is_read_again()
    ensures { FixedIsReadAgain }
{}

/// Opaque data or a string of an allowed length that were written are read again, strictly or not, whatever follows them
/// (RFC 4506 sections 4.10 and 4.11).
#[tactic(auto, using(crate::proofs::Laws::opaque_again))]
pub fn opaque_is_read_again()
    ensures { OpaqueIsReadAgain }
{}

/// Where an unsigned integer is read from bytes, it stands there as it is written, and is below 2^32 (RFC 4506 section 4.2).
pub fn word_was_written()
    ensures { WordWasWritten }
{}

/// Where an unsigned hyper integer is read from bytes, it stands there as it is written, and is below 2^64 (RFC 4506 section
/// 4.5).
pub fn hyper_was_written()
    ensures { HyperWasWritten }
{}

/// Where a boolean is read from bytes, it stands there as it is written (RFC 4506 section 4.4).
#[tactic(auto, using(crate::proofs::Laws::boolean_written))]
pub fn boolean_was_written()
    ensures { BooleanWasWritten }
{}

/// Where fixed-length opaque data are read strictly, they stand there as they are written, and are as long as was asked
/// (RFC 4506 section 4.9).
pub fn fixed_was_written()
    ensures { FixedWasWritten }
{}

/// Where opaque data or a string are read strictly from bytes, they stand there as they are written, and are no longer than
/// is allowed (RFC 4506 sections 4.10 and 4.11).
pub fn opaque_was_written()
    ensures { OpaqueWasWritten }
{}

/// A file handle leads to the fileid that it was made of, below 2^32 (RFC 1094 section 2.3.3).
#[tactic(auto, using(crate::proofs::Handles::handle_leads))]
pub fn handle_leads_to_its_file()
    ensures { HandleLeadsToItsFile }
{}

/// Bytes that lead to a fileid are the file handle that is made of it (RFC 1094 section 2.3.3).
#[tactic(auto, using(crate::proofs::Handles::only_handle_leads))]
pub fn only_the_handle_leads_to_a_file()
    ensures { OnlyTheHandleLeadsToAFile }
{}
