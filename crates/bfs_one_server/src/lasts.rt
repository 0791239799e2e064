// Where the last replies of a state come from. The body does nothing: what is said is the contract.
ghost use Rattle.bfs_one_server.specs.Lasts.{LastRepliesWereAnswered};

/// A last reply in the table of a state that comes of batches, as each has that a correct replica reaches, was the answer to a request in one of these, which a correct
/// replica executed; or it stood in the table with which all began. So what a replica answers again was answered once.
#[tactic(auto, using(crate::proofs::Answered::last_replies_were_answered))]
pub fn last_replies_were_answered()
    ensures { LastRepliesWereAnswered }
{}
