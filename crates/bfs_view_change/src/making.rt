// What a replica says of its log in a VIEW-CHANGE.
ghost use Rattle.std.specs.Prelude.{◌≡◌, ◌≤◌, length, IfOk};
ghost use Rattle.bfs_model.specs.Server.Limits.{most_number, most_replicas};
ghost use Rattle.bfs_view_change.specs.Changes.Making.{change_of, signed_change, stable_checkpoints};
ghost use Rattle.bfs_view_change.specs.Inside.Near.{IsNear};

use bfs_auth::Keys;
use bfs_messages::{Checkpoint, Signed, ViewChange, sign_view_change};
use bfs_order::Order;
use bfs_types::Memory;
use std::alloc::Global;

/// What a replica takes into a view: its low mark with the CHECKPOINTs that made it stable, and for each number above it that its log proves
/// to be prepared the certificate of the highest such view. A node that sends it has left for the view, in the same step. Batches
/// are shared with the log. `Memory` if memory runs out.
pub fn make_view_change(
    alloc: Global,
    order: &Order,
    keys: &Keys,
    view: u64,
) -> Result<Signed<ViewChange>, Memory>
    requires { view ≤ most_number }
    ensures value { IfOk result (λ change. change ≡ signed_change keys.now (change_of order.now view)) }
    ensures near { IfOk result (λ change. IsNear change.message) }
{
    signed_change(alloc, order, keys, view)
}

fn signed_change(
    alloc: Global,
    order: &Order,
    keys: &Keys,
    view: u64,
) -> Result<Signed<ViewChange>, Memory>
    requires { view ≤ most_number }
    ensures { IfOk result (λ change. change ≡ signed_change keys.now (change_of order.now view)) }
{
    let checkpoints = stable_checkpoints(alloc, order)?;
    let certificates = order.certificates()?;
    let change = ViewChange::new(order.me(), view, order.low(), checkpoints, certificates);
    sign_view_change(alloc, keys, change)
}

fn stable_checkpoints(alloc: Global, order: &Order) -> Result<Vec<Signed<Checkpoint>>, Memory>
    ensures value { IfOk result (λ found. found.items ≡ stable_checkpoints order.now) }
    ensures few { IfOk result (λ found. length found.items ≤ most_replicas) }
{
    if order.low() == 0 {
        return Ok(Vec::new(alloc));
    }
    order.low_checkpoints()
}
