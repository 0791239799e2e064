ghost use Rattle.bfs_model.specs.Laws.Groups.{RunsKeepFootprints, RunsAreMerged, GroupsKeepFootprints, PartsFollow};
ghost use Rattle.bfs_model.specs.Laws.Shares.{RunsComeHome, SharesKnow, SharesHaveFootprints};
ghost use Rattle.bfs_model.specs.Laws.Overtaking.{RequestsOvertake, DisjointRequestsOvertake, LegalOrdersAreAsTheBatch, LevelsAreAsTheBatch, FootprintsHold, WaitingFootprintsHold};

/// Whatever the inodes, requests of which none conflicts with another have, one after another, the footprints found at first.
#[tactic(auto, using(crate::proofs::Footprints::Grouped::runs_keep_footprints))]
pub fn runs_keep_footprints()
    ensures { RunsKeepFootprints }
{}

/// Each of them may be carried out on inodes of its own that are the same where it looks.
#[tactic(auto, using(crate::proofs::Footprints::Grouped::runs_are_merged))]
pub fn runs_are_merged()
    ensures { RunsAreMerged }
{}

/// What all of them write may be taken away from home, each carried out on its share, and what they leave brought home.
#[tactic(auto, using(crate::proofs::Footprints::Shared::runs_come_home))]
pub fn runs_come_home()
    ensures { RunsComeHome }
{}

/// In a well-formed file system, requests have, one after another, the footprints found at first, where none resolves a name in a
/// directory that an earlier one writes.
#[tactic(auto, using(crate::proofs::Footprints::Grouped::groups_keep_footprints))]
pub fn groups_keep_footprints()
    ensures { GroupsKeepFootprints }
{}

/// And whatever the order in which these overtake each other, inodes and replies are those of the batch's order.
#[tactic(auto, using(crate::proofs::Footprints::OvertakingRequests::requests_overtake))]
pub fn requests_overtake()
    ensures { RequestsOvertake }
{}

/// On every map, where none conflicts with another.
#[tactic(auto, using(crate::proofs::Footprints::OvertakingRequests::disjoint_requests_overtake))]
pub fn disjoint_requests_overtake()
    ensures { DisjointRequestsOvertake }
{}

/// Each call finds on its share all that it touches.
#[tactic(auto, using(crate::proofs::Footprints::Shared::shares_know))]
pub fn shares_know()
    ensures { SharesKnow }
{}

/// And has there the footprint found at first.
#[tactic(auto, using(crate::proofs::Footprints::Shared::shares_have_footprints))]
pub fn shares_have_footprints()
    ensures { SharesHaveFootprints }
{}

/// At each point of such an order, a request whose turn has come has the footprint found at first.
#[tactic(auto, using(crate::proofs::Footprints::OvertakingRequests::footprints_hold))]
pub fn footprints_hold()
    ensures { FootprintsHold }
{}

/// A batch may be carried out in parts, one after another.
#[tactic(auto, using(crate::proofs::Footprints::Parts::parts_follow))]
pub fn parts_follow()
    ensures { PartsFollow }
{}

/// The same where requests of a group are carried out one after another, each when all earlier ones that conflict with it are done.
#[tactic(auto, using(crate::proofs::Footprints::OvertakingRequests::legal_orders))]
pub fn legal_orders_are_as_the_batch()
    ensures { LegalOrdersAreAsTheBatch }
{}

/// And where they are carried out level after level.
#[tactic(auto, using(crate::proofs::Footprints::OvertakingRequests::levels_follow))]
pub fn levels_are_as_the_batch()
    ensures { LevelsAreAsTheBatch }
{}

/// At each point of a legal order each request that still waits has the footprint found at first.
#[tactic(auto, using(crate::proofs::Footprints::OvertakingRequests::waiting_footprints_hold))]
pub fn waiting_footprints_hold()
    ensures { WaitingFootprintsHold }
{}
