// How many requests of each client wait.
ghost use Rattle.std.specs.BTreeMap.{get, is_at};
ghost use Rattle.std.specs.Prelude.{◌≡◌, ℕ, ◌+◌, ◌<◌, ◌==◌, Some, cond, filter, OnOk, OnErr, if◌then◌else◌};
ghost use Rattle.bfs_model.specs.Server.Limits.{most_requests};
ghost use Rattle.bfs_pending.specs.Counts.{AreCounted, counted};
ghost use Rattle.bfs_pending.specs.Indexes.{is_found};
ghost use Rattle.bfs_pending.specs.Names.{name_cmp};
ghost use Rattle.bfs_pending.specs.declared.names.Name as declared;

use crate::names::{Name, name_of};
use bfs_messages::{Request, Signed};
use bfs_types::Memory;
use std::collections::BTreeMap;

/// How many of a client are counted.
pub(crate) fn counted(counts: &BTreeMap<u32, u32>, client: u32) -> u32
    ensures { result ≡ counted counts.now client }
{
    match counts.get(&client) {
        Some(count) => *count,
        None => 0,
    }
}

/// One more is the last of its name, and is counted. `Memory` if memory runs out; then none is.
pub(crate) fn add_one(
    last: &mut BTreeMap<Name, Signed<Request>>,
    counts: &mut BTreeMap<u32, u32>,
    name: Name,
    signed: Signed<Request>,
) -> Result<(), Memory>
    requires { counted counts.old name.client < most_requests }
    ensures found { OnOk result ((q : declared.Name) → get name_cmp last.new q ≡ cond (is_at (name_cmp name) q) (Some signed) (get name_cmp last.old q)) }
    ensures more { OnOk result ((c : ℕ) → counted counts.new c ≡ counted counts.old c + (if name.client == c then 1 else 0)) }
    ensures found_before { OnErr result ((q : declared.Name) → get name_cmp last.new q ≡ get name_cmp last.old q) }
    ensures no_more { OnErr result ((c : ℕ) → counted counts.new c ≡ counted counts.old c) }
{
    count_one(counts, name.client)?;
    match last.insert(name, signed) {
        Ok(_) => Ok(()),
        Err(refused) => {
            discount_one(counts, name.client);
            Err(Memory::from(refused))
        }
    }
}

fn count_one(counts: &mut BTreeMap<u32, u32>, client: u32) -> Result<(), Memory>
    requires { counted counts.old client < most_requests }
    ensures ok { OnOk result ((c : ℕ) → counted counts.new c ≡ counted counts.old c + (if client == c then 1 else 0)) }
    ensures err { OnErr result ((c : ℕ) → counted counts.new c ≡ counted counts.old c) }
{
    let count = counted(counts, client);
    counts.insert(client, count + 1)?;
    Ok(())
}

fn discount_one(counts: &mut BTreeMap<u32, u32>, client: u32)
    requires { 0 < counted counts.old client }
    ensures { (c : ℕ) → counted counts.new c + (if client == c then 1 else 0) ≡ counted counts.old c }
{
    if let Some(count) = counts.get_mut(&client) {
        *count -= 1;
    }
}

/// Those that are not found any more are not counted any more. It takes no memory.
pub(crate) fn discount_gone(
    counts: &mut BTreeMap<u32, u32>,
    last: &BTreeMap<Name, Signed<Request>>,
    waiting: &[Signed<Request>],
)
    requires { AreCounted counts.old waiting.now }
    ensures { AreCounted counts.new (filter (is_found last.now) waiting.now) }
{
    for signed in waiting {
        if !last.contains_key(&name_of(signed)) {
            discount_one(counts, signed.message.client());
        }
    }
}
