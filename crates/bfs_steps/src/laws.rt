// What ties the text of steps to reading them. The body is empty: what is said is the contract.
ghost use Rattle.bfs_steps.specs.Laws.{BodiesAreRead};

/// The steps of a body are read again.
#[tactic(auto, using(crate::proofs::Bodies::bodies_read))]
pub fn bodies_are_read()
    ensures { BodiesAreRead }
{}
