ghost use Rattle.bfs_model.specs.Laws.Footprints.{CallsKeepToFootprints, FootprintsAgree, ResolvedIsTouched, FootprintsFollow, CallsCommute, FootprintsStay, FreshOrdinalsAgree, AddedIsWritten, RequestsKeepToFootprints, RequestFootprintsAgree, RequestFootprintsStay, RequestsKeepTrees, ResolvedIsTouchedByRequests, RequestsCommute};

/// Whatever the inodes, a call does on them what it does on others that are the same where it looks, and nothing elsewhere.
#[tactic(auto, using(crate::proofs::Footprints::Agreement::calls_keep_to_footprints))]
pub fn calls_keep_to_footprints()
    ensures { CallsKeepToFootprints }
{}

/// Whatever the inodes, a call has the same footprint where what it touches is the same.
#[tactic(auto, using(crate::proofs::Footprints::Own::footprints_agree))]
pub fn footprints_agree()
    ensures { FootprintsAgree }
{}

/// The directories in which a call resolves names are among what it touches.
#[tactic(auto, using(crate::proofs::Footprints::Own::resolved_is_touched))]
pub fn resolved_is_touched()
    ensures { ResolvedIsTouched }
{}

/// A footprint is found in the directories in which the call resolves names, and by whether RENAME moves a directory.
#[tactic(auto, using(crate::proofs::Footprints::Own::footprints_follow))]
pub fn footprints_follow()
    ensures { FootprintsFollow }
{}

/// Whatever the inodes, calls that do not conflict may change places.
#[tactic(auto, using(crate::proofs::Footprints::Stable::calls_commute))]
pub fn calls_commute()
    ensures { CallsCommute }
{}

/// A call that writes no directory in which another resolves names leaves it its footprint.
#[tactic(auto, using(crate::proofs::Footprints::Stable::footprints_stay))]
pub fn footprints_stay()
    ensures { FootprintsStay }
{}

/// An ordinal that is fresh is fresh wherever what the call touches is the same.
#[tactic(auto, using(crate::proofs::Footprints::Stable::fresh_ordinals_agree))]
pub fn fresh_ordinals_agree()
    ensures { FreshOrdinalsAgree }
{}

/// Whatever the inodes, an inode that a call adds is among what it writes.
#[tactic(auto, using(crate::proofs::Footprints::Stable::added_is_written))]
pub fn added_is_written()
    ensures { AddedIsWritten }
{}

/// Whatever the inodes, a request does on them what it does on others that are the same where it looks.
#[tactic(auto, using(crate::proofs::Footprints::Requests::requests_keep_to_footprints))]
pub fn requests_keep_to_footprints()
    ensures { RequestsKeepToFootprints }
{}

/// Whatever the inodes, a request has the same footprint where what it touches is the same.
#[tactic(auto, using(crate::proofs::Footprints::Requests::request_footprints_agree))]
pub fn request_footprints_agree()
    ensures { RequestFootprintsAgree }
{}

/// A request that writes no directory in which another resolves names leaves it its footprint.
#[tactic(auto, using(crate::proofs::Footprints::Requests::request_footprints_stay))]
pub fn request_footprints_stay()
    ensures { RequestFootprintsStay }
{}

/// Whatever the inodes, requests that do not conflict may change places.
#[tactic(auto, using(crate::proofs::Footprints::Requests::requests_commute))]
pub fn requests_commute()
    ensures { RequestsCommute }
{}

/// A request whose ordinal is fresh leaves a tree of directories, files and symbolic links one.
#[tactic(auto, using(crate::proofs::Footprints::Requests::requests_keep_trees))]
pub fn requests_keep_trees()
    ensures { RequestsKeepTrees }
{}

/// The directories in which a request resolves names are among what it touches.
#[tactic(auto, using(crate::proofs::Footprints::Requests::resolved_is_touched_by_requests))]
pub fn resolved_is_touched_by_requests()
    ensures { ResolvedIsTouchedByRequests }
{}
