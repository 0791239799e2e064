ghost use Rattle.bfs_model.specs.Laws.Paging.{DirectoriesAreListed, PageIsTold, CookiesRise, PagesFollowEachOther, EndIsToldAtTheEnd, AllIsReadAtTheEnd, PageWithRoomIsNotEmpty, EnoughPagesAreAll};

/// Each directory of a well-formed file system that its caller may read is one that the other functions here speak of.
#[tactic(auto, using(crate::proofs::Pages::directories_are_listed))]
pub fn directories_are_listed()
    ensures { DirectoriesAreListed }
{}

/// READDIR of a directory that its caller may read is never refused and changes nothing, whatever its cookie and its count are.
#[tactic(auto, using(crate::proofs::Pages::page_is_told))]
pub fn page_is_told()
    ensures { PageIsTold }
{}

/// Pages of a directory that go on, each behind the last entry of the one before, skip no entry and tell none twice, whatever
/// their counts are (RFC 1094 section 2.2.17).
#[tactic(auto, using(crate::proofs::Pages::follow_each_other))]
pub fn pages_follow_each_other()
    ensures { PagesFollowEachOther }
{}

/// The cookies of the entries that pages tell rise from page to page.
pub fn cookies_rise()
    ensures { CookiesRise }
{}

/// A page tells the end of the directory just where nothing is left after it (RFC 1094 section 2.2.17).
pub fn end_is_told_at_the_end()
    ensures { EndIsToldAtTheEnd }
{}

/// Pages one after another are all that is listed just where the last of them tells the end.
pub fn all_is_read_at_the_end()
    ensures { AllIsReadAtTheEnd }
{}

/// A page with room for the next entry is not empty.
#[tactic(auto, using(crate::proofs::Pages::not_empty_with_room))]
pub fn page_with_room_is_not_empty()
    ensures { PageWithRoomIsNotEmpty }
{}

/// As many pages as there are entries, each with room for any of them, are all that is listed, in its order.
pub fn enough_pages_are_all()
    ensures { EnoughPagesAreAll }
{}
