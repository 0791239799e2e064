//! What the server reads of the calls that verbs spell.
ghost use Rattle.bfs_trace.specs.Laws.SentCalls.{ArgumentsAreRead, CallersFit, HeadersAreRead, SpelledCallsAreRead};

/// The header of a call is read as that of a call of its procedure, by its caller, whatever arguments follow, where the caller's numbers are
/// below 2^32 and it has at most 16 groups behind the first.
#[tactic(auto, using(crate::proofs::SentHeaders::headers_are_read))]
pub fn headers_are_read()
    ensures { HeadersAreRead }
{}

/// Each caller of a trace is such a one: the first of each client, and those that lines name.
#[tactic(auto, using(crate::proofs::SentCallers::callers_fit))]
pub fn callers_fit()
    ensures { CallersFit }
{}

/// The arguments of a call are read as that call, where its numbers are below 2^32 and its names, path and data no longer than RFC 1094
/// section 2.3.1 allows. A setting whose word is all ones is read as one that is not set.
#[tactic(auto, using(crate::proofs::SentArguments::arguments_are_read))]
pub fn arguments_are_read()
    ensures { ArgumentsAreRead }
{}

/// The arguments of the call that the words behind a verb spell are read as those of that call, where its names, path and data are no
/// longer than RFC 1094 section 2.3.1 allows.
#[tactic(auto, using(crate::proofs::SpelledCalls::spelled_calls_are_read))]
pub fn spelled_calls_are_read()
    ensures { SpelledCallsAreRead }
{}
