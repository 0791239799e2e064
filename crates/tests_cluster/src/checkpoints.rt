//! Checkpoints, without which numbers would run out.
use crate::run::{common_digest, four_replicas, run_block, standings};
use bfs_cluster::Standing;
use bfs_testing::{holds, same};
use std::test::Fail;

#[test]
fn a_checkpoint_lets_numbers_go_on(rt: HostRuntime) -> Result<(), Fail> {
    let mut cluster = four_replicas(rt.alloc())?;
    for seconds in 0u32..33 {
        run_block(&rt, &mut cluster, seconds, &[])?;
    }
    let all = standings(&rt, &cluster)?;
    same!(rt; all.len(), 4);
    holds!(rt; common_digest(&all).is_some());
    cluster.silence(3);
    run_block(&rt, &mut cluster, 33, &[])?;
    cluster.hear(3);
    let all = standings(&rt, &cluster)?;
    same!(rt; all.get(3).copied(), Some(Standing::Behind(3, 33)));
    Ok(())
}
