ghost use Rattle.std.specs.Prelude.{◌≡◌, ◌++◌, Some, IsTrue};
ghost use Rattle.std.specs.Option.{option_copied};
ghost use Rattle.std.specs.FinMap.{get};
ghost use Rattle.bfs_model.specs.Bytes.Arguments.{look_up, rename};
ghost use Rattle.bfs_model.specs.Server.Footprints as model;
ghost use Rattle.bfs_model.specs.Server.Footprints.{ids_in};
ghost use Rattle.bfs_model.specs.Server.Tree.{listing_at};
ghost use Rattle.bfs_wire.specs.Calls.{call_seen};
ghost use Rattle.bfs_tree.specs.Tree.{at_home, reach_of};
ghost use Rattle.bfs_footprint.specs.Seen.{footprint_seen};

use crate::access::{kept_out, lets_change, lets_search};
use crate::file_ids::FileIds;
use crate::footprints::Footprint;
use bfs_inode::Directory;
use bfs_tree::{Store, Tree, is_directory};
use bfs_types::{Context, FileId};
use bfs_wire::NfsCall;

/// What a call reads and writes, found on the inodes before it. The tree is whole. It takes no memory.
pub fn footprint(tree: &Tree, context: &Context, call: &NfsCall) -> Footprint
    requires whole { IsTrue ((reach_of tree.now).whole) }
    ensures { footprint_seen result ≡ model.footprint (at_home tree.now) context.now (call_seen call.now) }
{
    match *call {
        NfsCall::Null | NfsCall::Root | NfsCall::WriteCache => Footprint::none(),
        NfsCall::GetAttr { file } | NfsCall::ReadLink { file } | NfsCall::Read { file, .. } => {
            Footprint::of_reads(FileIds::of(file, None))
        }
        NfsCall::SetAttr { file, .. } | NfsCall::Write { file, .. } => {
            Footprint::of_writes(FileIds::of(file, None))
        }
        NfsCall::LookUp { dir, name } => of_look_up(tree, context, dir, name),
        NfsCall::Create { dir, .. }
        | NfsCall::SymbolicLink { dir, .. }
        | NfsCall::MakeDirectory { dir, .. } => {
            Footprint::of_writes(FileIds::of(dir, context.ordinal.file_id()))
        }
        NfsCall::Remove { dir, name } | NfsCall::RemoveDirectory { dir, name } => {
            of_removing(tree, context, dir, name)
        }
        NfsCall::Rename {
            from,
            from_name,
            to,
            to_name,
        } => of_rename(tree, context, from, from_name, to, to_name),
        NfsCall::Link { file, dir, .. } => Footprint::of_writes(FileIds::of(file, dir)),
        NfsCall::ReadDirectory { dir, .. } => Footprint::of_reads(FileIds::of(dir, None)),
        NfsCall::FileSystemStatus { .. } => Footprint::Whole,
    }
}

fn of_look_up(tree: &Tree, context: &Context, dir: Option<FileId>, name: &[u8]) -> Footprint
    requires whole { IsTrue ((reach_of tree.now).whole) }
    ensures { footprint_seen result ≡ model.footprint (at_home tree.now) context.now (look_up dir name.now) }
{
    let Some(dir) = dir else {
        return Footprint::none();
    };
    let directory = FileIds::none().and(dir);
    if !lets_search(tree, &context.caller, dir) {
        return Footprint::of_reads(directory);
    }
    Footprint::of_reads(directory.with(id_found(tree, dir, name)))
}

fn of_removing(tree: &Tree, context: &Context, dir: Option<FileId>, name: &[u8]) -> Footprint
    requires whole { IsTrue ((reach_of tree.now).whole) }
    ensures { footprint_seen result ≡ model.footprint_of_removing (at_home tree.now) context.now dir name.now }
{
    let Some(dir) = dir else {
        return Footprint::none();
    };
    let directory = FileIds::none().and(dir);
    if !lets_change(tree, &context.caller, dir) {
        return Footprint::of_reads(directory);
    }
    Footprint::of_writes(directory.with(child_at(tree, Some(dir), name)))
}

fn of_rename(
    tree: &Tree,
    context: &Context,
    from: Option<FileId>,
    from_name: &[u8],
    to: Option<FileId>,
    to_name: &[u8],
) -> Footprint
    requires whole { IsTrue ((reach_of tree.now).whole) }
    ensures { footprint_seen result ≡ model.footprint (at_home tree.now) context.now (rename from from_name.now to to_name.now) }
{
    let (first, second) = (from, to);
    if let Some(directories) = kept_out(tree, &context.caller, first, second) {
        return Footprint::of_reads(directories);
    }
    let (source, target) = (from, to);
    if moves_a_directory(tree, source, from_name, target) {
        return Footprint::Whole;
    }
    Footprint::of_writes(ids_renamed(tree, from, from_name, to, to_name))
}

// both directories, what is moved, and what it replaces
fn ids_renamed(
    tree: &Tree,
    from: Option<FileId>,
    from_name: &[u8],
    to: Option<FileId>,
    to_name: &[u8],
) -> FileIds
    requires whole { IsTrue ((reach_of tree.now).whole) }
    ensures { result ≡ (ids_in from ++ ids_in to) ++ ids_in (model.child_at (at_home tree.now) from from_name.now) ++ ids_in (model.child_at (at_home tree.now) to to_name.now) }
{
    let (source, target) = (from, to);
    let moved = child_at(tree, source, from_name);
    let replaced = child_at(tree, target, to_name);
    FileIds::of(from, to).with(moved).with(replaced)
}

#[tactic(auto, using(bfs_tree::specs::Laws::Knowing::knows_all))]
fn directory_at(tree: &Tree, id: FileId) -> Option<&Directory>
    requires whole { IsTrue ((reach_of tree.now).whole) }
    ensures { option_copied result ≡ listing_at (get (at_home tree.now) id) }
{
    tree.get(id)?.directory()
}

// what has that name in a directory
fn child_at(tree: &Tree, dir: Option<FileId>, name: &[u8]) -> Option<FileId>
    requires whole { IsTrue ((reach_of tree.now).whole) }
    ensures { result ≡ model.child_at (at_home tree.now) dir name.now }
{
    let entry = directory_at(tree, dir?)?.entry(name)?;
    Some(entry.child)
}

// what LOOKUP finds
fn id_found(tree: &Tree, dir: FileId, name: &[u8]) -> Option<FileId>
    requires whole { IsTrue ((reach_of tree.now).whole) }
    ensures { result ≡ model.id_found (at_home tree.now) (Some dir) name.now }
{
    directory_at(tree, dir)?.child_named(dir, name)
}

// whether a directory is renamed out of the directory that holds it
#[tactic(auto, using(bfs_tree::specs::Laws::Knowing::knows_all))]
fn moves_a_directory(
    tree: &Tree,
    from: Option<FileId>,
    from_name: &[u8],
    to: Option<FileId>,
) -> bool
    requires whole { IsTrue ((reach_of tree.now).whole) }
    ensures { result ≡ model.moves_a_directory (at_home tree.now) from from_name.now to }
{
    let Some(moved) = child_at(tree, from, from_name) else {
        return false;
    };
    is_directory(tree, moved) && to.is_none_or(|other| from != Some(other))
}
