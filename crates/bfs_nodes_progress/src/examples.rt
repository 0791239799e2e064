// The laws speak of something. The body does nothing: what is said is the contract.
ghost use Rattle.bfs_nodes_progress.specs.Examples.{HoldBetweenViews, HoldInAView, HoldWhereAllAsk};

/// By computing: of four nodes one is silent, and the primary proposes. Then the premises of the laws in a view hold of the three others, whatever keys
/// they share and whatever state they begin with.
#[tactic(auto, using(crate::proofs::Premises::in_a_view))]
pub fn premises_hold()
    ensures { HoldInAView }
{}

/// Time runs out at each of the three others. Then they have asked for view 1, as the laws between views ask.
#[tactic(auto, using(crate::proofs::Premises::between_views))]
pub fn premises_hold_between_views()
    ensures { HoldBetweenViews }
{}

/// In the same run the premises of the laws of following hold of them, for view 1.
#[tactic(auto, using(crate::proofs::Premises::where_all_ask))]
pub fn premises_hold_where_all_ask()
    ensures { HoldWhereAllAsk }
{}
