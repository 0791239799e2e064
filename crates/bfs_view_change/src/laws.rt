// What holds of the choice of a new view, and of what a replica says of its log. The bodies do nothing: what is said is the contracts.
ghost use Rattle.bfs_view_change.specs.Laws.Choices.{ChoiceIsOfTheSet, LatestIsOfMinS, NumbersAreChosenOnce, OthersAreNull, PreparedIsChosen, RefusalIsOfTheSet, StableIsPassed, ValidChoicesAreShort, ValidShowTheLatest};
ghost use Rattle.bfs_view_change.specs.Laws.Made.{MadeHasPrepared, MadeIsValid, MadeIsValidAfterCalls, NewViewIsRight};

use bfs_auth::what_is_signed_passes;
use bfs_codec::batches_with_one_text;
use bfs_order::{
    a_replica_stays_itself, logs_are_clean, slots_differ,
    the_stable_checkpoint_has_its_certificate, views_are_entered,
};

/// The choice, and why there is none, depend on the set of VIEW-CHANGEs alone.
pub fn choice_is_of_the_set()
    ensures choice { ChoiceIsOfTheSet }
    ensures refusal { RefusalIsOfTheSet }
{
    batches_with_one_text();
}

/// No stable number is above min-s, and each number above it up to the last that was prepared is chosen once. What was prepared for a
/// number is chosen, unless what comes before it in rank is; a number for which nothing was prepared has the null request.
pub fn prepared_is_chosen()
    ensures stable { StableIsPassed }
    ensures numbers { NumbersAreChosenOnce }
    ensures prepared { PreparedIsChosen }
    ensures others { OthersAreNull }
{}

/// Valid VIEW-CHANGEs choose no more batches than stand between the marks, so a NEW-VIEW has room for them.
pub fn valid_choices_are_short()
    ensures { ValidChoicesAreShort }
{}

/// A view begins behind min-s: the checkpoint that its VIEW-CHANGEs tell is of that number, and valid ones show that it is stable.
pub fn views_begin_behind_what_is_stable()
    ensures number { LatestIsOfMinS }
    ensures shown { ValidShowTheLatest }
{}

/// What a replica says of its log is valid by its own keys, where its calls are made with these keys, and the requests that it proposes and the
/// messages that it takes over into a view pass by them.
pub fn made_is_valid()
    ensures state { MadeIsValid }
    ensures calls { MadeIsValidAfterCalls }
{
    what_is_signed_passes();
    logs_are_clean();
    slots_differ();
    the_stable_checkpoint_has_its_certificate();
    views_are_entered();
    a_replica_stays_itself();
}

/// It leaves out nothing that is prepared between the marks.
pub fn made_has_prepared()
    ensures { MadeHasPrepared }
{}

/// The NEW-VIEW that a primary makes is right for each replica for which its VIEW-CHANGEs are valid.
pub fn made_new_view_is_right()
    ensures { NewViewIsRight }
{
    what_is_signed_passes();
}
