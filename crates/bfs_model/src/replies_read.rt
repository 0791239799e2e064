ghost use Rattle.bfs_model.specs.Laws.ReplyReading.{ResultsAreReadBack, RepliesHaveTheirForm, SuccessIsReadBack, GarbageIsReadBack, RefusalsAreReadBack};

/// A strict reader of a procedure's results has the reply that they were spelled of (RFC 1094 section 2.2).
pub fn results_are_read_back()
    ensures { ResultsAreReadBack }
{}

/// The reply to the call that a procedure's number and arguments spell has the form of that procedure's results (RFC 1094 section
/// 2.2).
#[tactic(auto, using(crate::proofs::ReplyForms::replies_have_their_form))]
pub fn replies_have_their_form()
    ensures { RepliesHaveTheirForm }
{}

/// A strict reader of a reply with results has its xid and the bytes of the results (RFC 5531 section 9).
#[tactic(auto, using(crate::proofs::RepliesAgain::success_again))]
pub fn success_is_read_back()
    ensures { SuccessIsReadBack }
{}

/// A strict reader of a reply to arguments that don't spell has its xid and GARBAGE_ARGS (RFC 5531 section 9).
#[tactic(auto, using(crate::proofs::RepliesAgain::garbage_again))]
pub fn garbage_is_read_back()
    ensures { GarbageIsReadBack }
{}

/// A strict reader of a refused call's reply has its xid and why it was refused (RFC 5531 section 9).
#[tactic(auto, using(crate::proofs::RepliesAgain::refusals_again))]
pub fn refusals_are_read_back()
    ensures { RefusalsAreReadBack }
{}
