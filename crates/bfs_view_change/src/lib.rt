//! From one view to the next: what a replica says of its log, what is right of that, and what a new view takes over (OSDI 1999 section 4.4).
#![tactic(auto)]

mod choice;
mod error;
mod keeping;
mod laws;
mod making;
mod new_views;
mod proposing;
mod restoring;
mod stable;
mod view_changes;

pub use choice::{Choice, Chosen, choice_of};
pub use error::ViewError;
pub use keeping::{KeptViewChanges, Replaced};
pub use laws::{
    choice_is_of_the_set, made_has_prepared, made_is_valid, made_new_view_is_right,
    prepared_is_chosen, valid_choices_are_short, views_begin_behind_what_is_stable,
};
pub use making::make_view_change;
pub use new_views::{check_new_view, choose};
pub use proposing::{Begun, begin_view, make_new_view};
pub use stable::latest_checkpoint;
pub use view_changes::{valid_signed_view_change, valid_view_change};
