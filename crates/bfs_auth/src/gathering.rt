// What several threads hash side by side.
ghost use Rattle.std.specs.Prelude.{◌≡◌, true, is_ok, IfOk};
ghost use Rattle.std.specs.List.{filter_map, list_all};
ghost use Rattle.bfs_auth.specs.Gathered.{gathered_from};

use bfs_types::Memory;
use std::alloc::Global;

// What a thread hashes at least: in a third of the time that this takes a thread is started.
const LEAST_BYTES: usize = 32_768;

// What is hashed of a text beside its own bytes: the inner hash, and padding.
const BYTES_BESIDE: usize = 128;

// How many items a thread checks at least, where one alone pays for it.
const LEAST_CHECKED: usize = 16;

/// How many of these items a thread is to hash at least, so that they pay for its start. An item has as many bytes to hash as `length` says.
pub fn least_items<T, F: Fn(&T) -> usize>(items: &[T], length: F) -> usize
    requires { F.IsAlwaysCallable length }
{
    let mut bytes = 0usize;
    for item in items {
        bytes = bytes.saturating_add(length(item));
    }
    let mean = match items.len() {
        0 => 0,
        count => bytes / count,
    };
    LEAST_BYTES / mean.saturating_add(BYTES_BESIDE) + 1
}

/// How many of these items a thread is to check at least: so many as `least_items` says, but several where one alone pays for a thread, as a signature does,
/// since of those that were signed at once a thread verifies the root's signature once.
pub fn least_checked<T, F: Fn(&T) -> usize>(items: &[T], length: F) -> usize
    requires { F.IsAlwaysCallable length }
{
    match least_items(items, length) {
        1 => LEAST_CHECKED,
        least => least,
    }
}

/// What threads gave, in its order, without those that gave nothing. `Memory` if it ran out at one of them, or runs out here.
pub fn gather<T: Drop>(
    alloc: Global,
    each: Vec<Result<Option<T>, Memory>>,
) -> Result<Vec<T>, Memory>
    ensures { IfOk result (λ all. (list_all is_ok each.items ≡ true) × (all.items ≡ filter_map gathered_from each.items)) }
{
    let mut all = Vec::with_capacity(alloc, each.len())?;
    for one in each {
        if let Some(given) = one? {
            all.push(given)?;
        }
    }
    Ok(all)
}
