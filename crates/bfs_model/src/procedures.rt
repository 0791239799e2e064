ghost use Rattle.bfs_model.specs.Laws.Procedures.{NoOtherInodeIsAdded, TypesStay, TreesStay, ARefusedCallChangesNothing, ReadingChangesNothing};

/// Whatever the inodes, a call adds none but that of its ordinal: a fileid that led nowhere before it and leads somewhere after
/// it is the ordinal.
#[tactic(auto, using(crate::proofs::Added::none_other_added))]
pub fn no_other_inode_is_added()
    ensures { NoOtherInodeIsAdded }
{}

/// Whatever the inodes, where a call's ordinal is fresh an inode that stays is of the type that it was of: a file stays a file,
/// a directory a directory, and a symbolic link a symbolic link.
pub fn types_stay()
    ensures { TypesStay }
{}

/// Where a call's ordinal is fresh, it leaves a tree of directories, files and symbolic links one: links are counted, each
/// directory but the root has one name, in its parent, and all lead to the root.
pub fn trees_stay()
    ensures { TreesStay }
{}

/// Whatever the inodes, a call that is refused leaves them as they were.
pub fn a_refused_call_changes_nothing()
    ensures { ARefusedCallChangesNothing }
{}

/// Whatever the inodes, NULL, GETATTR, ROOT, LOOKUP, READLINK, READ, WRITECACHE, READDIR and STATFS leave them as they were.
#[tactic(auto, using(crate::proofs::Unchanged::reading_keeps))]
pub fn reading_changes_nothing()
    ensures { ReadingChangesNothing }
{}
