//! A replica that comes back adopts the stable snapshot of another one.
use crate::run::{common_digest, four_replicas, run_block, standings};
use bfs_cluster::Standing;
use bfs_testing::{holds, same};
use std::test::Fail;

#[test]
fn a_replica_that_was_silent_catches_up(rt: HostRuntime) -> Result<(), Fail> {
    let mut cluster = four_replicas(rt.alloc())?;
    cluster.silence(3);
    for seconds in 0u32..16 {
        run_block(&rt, &mut cluster, seconds, &[])?;
    }
    cluster.hear(3);
    let behind = standings(&rt, &cluster)?;
    same!(rt; behind.get(3).copied(), Some(Standing::Behind(3, 0)));
    run_block(&rt, &mut cluster, 16, &[])?;
    let all = standings(&rt, &cluster)?;
    same!(rt; all.len(), 4);
    holds!(rt; common_digest(&all).is_some());
    Ok(())
}
