//! The kinds of messages, each by the number that its text begins with.
ghost use Rattle.std.specs.Prelude.{◌≡◌};
ghost use Rattle.bfs_votes.specs.Tags as tag;

pub const REQUEST_TAG: u32 = 1;

pub const PRE_PREPARE_TAG: u32 = 2;

pub const PREPARE_TAG: u32 = 3;

pub const COMMIT_TAG: u32 = 4;

pub const CHECKPOINT_TAG: u32 = 5;

pub const VIEW_CHANGE_TAG: u32 = 6;

pub const NEW_VIEW_TAG: u32 = 7;

pub const REPLY_TAG: u32 = 8;

/// The tags of the code are those of the definitions. The body is empty: what is said is its contract.
pub fn tags_are_those_of_the_model()
    ensures request { REQUEST_TAG ≡ tag.request_tag }
    ensures pre_prepare { PRE_PREPARE_TAG ≡ tag.pre_prepare_tag }
    ensures prepare { PREPARE_TAG ≡ tag.prepare_tag }
    ensures commit { COMMIT_TAG ≡ tag.commit_tag }
    ensures checkpoint { CHECKPOINT_TAG ≡ tag.checkpoint_tag }
    ensures view_change { VIEW_CHANGE_TAG ≡ tag.view_change_tag }
    ensures new_view { NEW_VIEW_TAG ≡ tag.new_view_tag }
    ensures reply { REPLY_TAG ≡ tag.reply_tag }
{}
