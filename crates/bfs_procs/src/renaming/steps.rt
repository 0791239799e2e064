// The steps of RENAME.
ghost use Rattle.std.specs.Prelude.{◌≡◌, ◌<◌, ◌≤◌, true, length, IsTrue, IfOk};
ghost use Rattle.std.specs.FinMap.{get};
ghost use Rattle.std.specs.Option.{ForSome};
ghost use Rattle.bfs_model.specs.Server.Limits.{most_name_bytes, most_links};
ghost use Rattle.bfs_model.specs.Server.Changes.{changed, with_parent};
ghost use Rattle.bfs_model.specs.Server.Procedures.Renaming.{moved_below, name_cleared, renamed};
ghost use Rattle.bfs_procs.specs.Renaming.{CanCarryOut};

use crate::renaming::refusals::{Renaming, Replaced};
use crate::steps::{add_entry, add_link, drop_entry, lose_link, lose_name, set_ctime, set_parent};
use bfs_inode::FileId;
use bfs_tree::Store;
use bfs_types::{Context, Memory};

/// Carries a renaming out that may be. `Memory` if memory runs out.
pub(super) fn carry_out<S: Store>(
    store: &mut S,
    context: &Context,
    from_name: &[u8],
    to_name: &[u8],
    renaming: &Renaming,
) -> Result<(), Memory>
    requires can { CanCarryOut (S.inodes store.old) (S.reach store.old) context.now from_name.now to_name.now renaming.now }
    requires short { length to_name.now ≤ most_name_bytes }
    ensures done { IfOk result (λ _. S.inodes store.new ≡ renamed (S.inodes store.old) context.now from_name.now to_name.now renaming.now) }
    ensures reach { S.reach store.new ≡ S.reach store.old }
{
    let Renaming {
        from,
        to,
        moved,
        replaced,
        ..
    } = *renaming;
    drop_entry(store, context.time, from, from_name);
    clear_name(store, context, to, to_name, replaced);
    if renaming.moves_directory() {
        move_below(store, context, from, to, moved);
    }
    add_entry(store, context, to, to_name, moved)?;
    set_ctime(store, context.time, moved);
    Ok(())
}

// the entry of the new name goes, and what it names loses a link as by REMOVE, or goes as by RMDIR
fn clear_name<S: Store>(
    store: &mut S,
    context: &Context,
    dir: FileId,
    name: &[u8],
    replaced: Option<Replaced>,
)
    requires dir { IsTrue ((S.reach store.old).owned dir) }
    requires replaced { ForSome replaced (λ replaced. IsTrue ((S.reach store.old).owned replaced.id)) }
    ensures done { S.inodes store.new ≡ name_cleared (S.inodes store.old) context.now dir name.now replaced }
    ensures reach { S.reach store.new ≡ S.reach store.old }
{
    let Some(replaced) = replaced else {
        return;
    };
    drop_entry(store, context.time, dir, name);
    if replaced.is_directory {
        store.remove(replaced.id);
        lose_link(store, context.time, dir);
    } else {
        lose_name(store, context.time, replaced.id);
    }
}

// a directory that comes below another one has it as its parent, and the links of both directories are new
fn move_below<S: Store>(store: &mut S, context: &Context, from: FileId, to: FileId, moved: FileId)
    requires from { IsTrue ((S.reach store.old).owned from) }
    requires to { IsTrue ((S.reach store.old).owned to) }
    requires moved { IsTrue ((S.reach store.old).owned moved) }
    requires few { ForSome (get (changed (S.inodes store.old) moved (with_parent to)) to) (λ inode. inode.links < most_links) }
    ensures done { S.inodes store.new ≡ moved_below (S.inodes store.old) context.now from to moved true }
    ensures reach { S.reach store.new ≡ S.reach store.old }
{
    set_parent(store, to, moved);
    add_link(store, context.time, to);
    lose_link(store, context.time, from);
}
