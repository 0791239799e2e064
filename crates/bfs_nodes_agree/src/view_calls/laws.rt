// Agreement across views. The bodies do nothing: what is said is the contracts.
ghost use Rattle.bfs_nodes_agree.specs.Views.Laws.{MadeTellsWhatIsPrepared, NothingIsPassedOver, ReplicasAgree, RightNewViewsAreValid};

use crate::order_calls::laws::orders_agree;
use bfs_order::numbers_lie_in_the_window;
use bfs_view_change::{made_has_prepared, prepared_is_chosen, views_begin_behind_what_is_stable};

/// The VIEW-CHANGE that is made of an order tells all that is prepared.
pub fn made_tells_what_is_prepared()
    ensures { MadeTellsWhatIsPrepared }
{
    made_has_prepared();
}

/// What is chosen from VIEW-CHANGEs that are proved and genuine makes a NEW-VIEW of which agreement is proved.
pub fn right_new_views_are_valid()
    ensures { RightNewViewsAreValid }
{
    prepared_is_chosen();
}

/// Whoever enters a view by a NEW-VIEW whose VIEW-CHANGEs are valid by its own keys, or its own, has all that it hands over in its log then, but for
/// what is stable there, and its low mark is not below the number that the view begins behind.
pub fn nothing_is_passed_over()
    ensures { NothingIsPassedOver }
{
    prepared_is_chosen();
    views_begin_behind_what_is_stable();
}

/// Over every list of calls and deliveries of 3f + 1 replicas, of which at most f are faulty, any two that execute a batch for a number, in
/// whatever views, execute one digest.
pub fn replicas_agree()
    ensures { ReplicasAgree }
{
    numbers_lie_in_the_window();
    orders_agree();
    made_tells_what_is_prepared();
    right_new_views_are_valid();
}
