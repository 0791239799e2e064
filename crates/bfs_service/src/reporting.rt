// What a replica says of itself to its operator.
use bfs_node::Node;
use bfs_types::Memory;
use std::alloc::Global;
use std::thread::Threads;

/// Words NAME=VALUE, of a node beside which so many requests wait. The digest is left out where there is none.
pub(crate) fn report_of<R: Threads + Sync>(
    alloc: Global,
    rt: &R,
    node: &Node,
    queued: usize,
) -> Result<String, Memory> {
    let digest = match node.digest(rt) {
        Ok(digest) => hex::encode(alloc, &digest)?,
        Err(_) => String::new(alloc),
    };
    let view = node.view();
    let asked = node.view_asked();
    let executed = node.last_executed();
    let stable = node.stable_number();
    let waiting = node.waiting().len().saturating_add(queued);
    Ok(format!(in alloc;
        "view={view} asked={asked} executed={executed} stable={stable} waiting={waiting} digest={digest}"
    )?)
}
