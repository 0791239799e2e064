// What was said is given again to those who may lack it.
ghost use Rattle.std.specs.Prelude.{map, OnOk};
ghost use Rattle.bfs_frames.specs.Parcels.{told_by};
ghost use Rattle.bfs_service.specs.Telling.{HasGiven};

use crate::standings::lag_of;
use crate::telling::parcels_to;
use bfs_frames::Parcel;
use bfs_node::{Lag, Node};
use bfs_policy::Policy;
use bfs_types::{MOST_REPLICAS, Memory};
use std::alloc::Global;

/// Puts behind other parcels what the node gives again to each replica to which that is due. `Memory` if memory runs out.
#[tactic(auto, using(crate::proofs::Resent::nothing_given, crate::proofs::Resent::more_given))]
pub(crate) fn give_again(
    alloc: Global,
    node: &Node,
    policy: &Policy,
    parcels: &mut Vec<Parcel>,
) -> Result<(), Memory>
    ensures { OnOk result (HasGiven node.now (map told_by parcels.old.items) (map told_by parcels.new.items)) }
{
    for number in 0..MOST_REPLICAS as u32 {
        give_where_due(alloc, node, policy, number, parcels)?;
    }
    Ok(())
}

#[tactic(auto, using(crate::proofs::Resent::nothing_given))]
fn give_where_due(
    alloc: Global,
    node: &Node,
    policy: &Policy,
    number: u32,
    parcels: &mut Vec<Parcel>,
) -> Result<(), Memory>
    ensures { OnOk result (HasGiven node.now (map told_by parcels.old.items) (map told_by parcels.new.items)) }
{
    match policy.to_resend(number) {
        Some(standing) => give(alloc, node, number, lag_of(standing), parcels),
        None => Ok(()),
    }
}

#[tactic(auto, using(crate::proofs::Resent::given_to_one))]
fn give(
    alloc: Global,
    node: &Node,
    number: u32,
    lag: Lag,
    parcels: &mut Vec<Parcel>,
) -> Result<(), Memory>
    ensures { OnOk result (HasGiven node.now (map told_by parcels.old.items) (map told_by parcels.new.items)) }
{
    let resent = node.resend(lag)?;
    let mut given = parcels_to(alloc, number, &resent)?;
    parcels.append(&mut given)?;
    Ok(())
}
