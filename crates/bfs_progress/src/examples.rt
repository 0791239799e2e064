// The laws speak of something. The bodies do nothing: what is said is the contracts.
ghost use Rattle.bfs_progress.specs.Examples.{Follows, GoesOn, HoldBetweenViews, HoldInAView};

/// By computing: of four replicas one is silent, and most messages were lost; behind an exchange number 1 is committed at the three others.
pub fn it_goes_on()
    ensures { GoesOn }
{}

/// By computing: of four replicas one asks for view 1, two ask for view 2, and the fourth lies that it asks for view 9; by following the three ask for
/// view 2.
pub fn it_follows()
    ensures { Follows }
{}

/// In these runs the premises of the laws hold.
pub fn premises_hold()
    ensures in_a_view { HoldInAView }
    ensures between_views { HoldBetweenViews }
{}
