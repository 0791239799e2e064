//! A replica that is silent.
use crate::run::{
    common_digest, four_replicas, null_request, replies, run_block, standings, two_clients,
};
use bfs_cluster::Standing;
use bfs_testing::{holds, same};
use std::test::Fail;

#[test]
fn three_go_on_without_the_fourth(rt: HostRuntime) -> Result<(), Fail> {
    let alloc = rt.alloc();
    let mut cluster = four_replicas(alloc)?;
    let request = null_request(alloc, &two_clients(alloc)?, 0, 7)?;
    cluster.silence(3);
    run_block(&rt, &mut cluster, 1, &[request])?;
    same!(rt; replies(&mut cluster), 3);
    let heard = standings(&rt, &cluster)?;
    same!(rt; heard.len(), 3);
    holds!(rt; common_digest(&heard).is_some());
    cluster.hear(3);
    let all = standings(&rt, &cluster)?;
    same!(rt; all.len(), 4);
    same!(rt; all.get(3).copied(), Some(Standing::Behind(3, 0)));
    Ok(())
}

#[test]
fn two_do_not_go_on(rt: HostRuntime) -> Result<(), Fail> {
    let alloc = rt.alloc();
    let mut cluster = four_replicas(alloc)?;
    let request = null_request(alloc, &two_clients(alloc)?, 0, 7)?;
    cluster.silence(2);
    cluster.silence(3);
    // there is none of that number
    cluster.silence(4);
    run_block(&rt, &mut cluster, 1, &[request])?;
    same!(rt; replies(&mut cluster), 0);
    same!(rt; standings(&rt, &cluster)?.len(), 2);
    Ok(())
}
