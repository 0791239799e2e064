//! A run of four replicas, of which one may be faulty, and of some clients.
use bfs_clients::Clients;
use bfs_cluster::{Cluster, Executor, NoGate, Standing};
use bfs_messages::{Message, Request, Signed};
use bfs_node::Node;
use bfs_settings::{Settings, SettingsError};
use bfs_testing::words::call;
use bfs_types::{Memory, Time};
use std::alloc::Global;
use std::sync::Wait;
use std::test::Fail;
use std::thread::Threads;

pub const SECRET: &[u8] = b"a secret";

// where there are so many clients
fn settings(alloc: Global, clients: u32) -> Result<Settings, SettingsError> {
    Settings::new(alloc, 1, clients, SECRET)
}

/// So many clients.
pub fn clients(alloc: Global, count: u32) -> Result<Clients, Fail> {
    let settings = settings(alloc, count)?;
    Ok(Clients::new(alloc, &settings)?)
}

/// The two clients of the replicas.
pub fn two_clients(alloc: Global) -> Result<Clients, Fail> {
    clients(alloc, 2)
}

/// Four replicas that have done nothing.
pub fn four_replicas(alloc: Global) -> Result<Cluster, Fail> {
    let settings = settings(alloc, 2)?;
    Ok(Cluster::new(alloc, &settings)?)
}

/// The same, of which each was made apart.
pub fn four_nodes(alloc: Global) -> Result<Cluster, Fail> {
    let settings = settings(alloc, 2)?;
    let mut nodes = Vec::new(alloc);
    for number in 0..settings.replicas() {
        nodes.push(Node::of_settings(alloc, &settings, number)?)?;
    }
    Ok(Cluster::of_nodes(alloc, nodes)?)
}

// no test needs what the contract says of it
fn null_call(alloc: Global, xid: u32) -> Result<Vec<u8>, Memory> {
    call(alloc, xid, 0)
}

/// A client's call of NULL, with its timestamp as its number, signed by the client.
pub fn null_request(
    alloc: Global,
    clients: &Clients,
    client: u32,
    timestamp: u32,
) -> Result<Signed<Message>, Fail> {
    sign(
        alloc,
        clients,
        client,
        timestamp,
        &null_call(alloc, timestamp)?,
    )
}

/// The same with so many bytes behind it that threads check a few of them.
pub fn large_request(
    alloc: Global,
    clients: &Clients,
    client: u32,
    timestamp: u32,
) -> Result<Signed<Message>, Fail> {
    let mut bytes = null_call(alloc, timestamp)?;
    bytes.resize(8_192, 0)?;
    sign(alloc, clients, client, timestamp, &bytes)
}

fn sign(
    alloc: Global,
    clients: &Clients,
    client: u32,
    timestamp: u32,
    bytes: &[u8],
) -> Result<Signed<Message>, Fail> {
    if bytes.len() > 10_000 {
        return Err("a call that is too long".into());
    }
    let request = Request::new(alloc, client, timestamp as u64, bytes)?;
    Ok(clients.sign(request)?.ok_or("a client")?)
}

/// Sends a block of that time, in seconds, and delivers messages until there are none. Each replica executes one request after another.
pub fn run_block<R: Threads + Wait + Sync>(
    rt: &R,
    cluster: &mut Cluster,
    seconds: u32,
    requests: &[Signed<Message>],
) -> Result<(), Fail> {
    let time = Time::new(seconds, 0).ok_or("a time")?;
    cluster.send_block(rt, time, requests)?;
    Ok(cluster.settle(rt, Executor::serial(), &NoGate)?)
}

/// How many replies clients were sent.
pub fn replies(cluster: &mut Cluster) -> usize {
    cluster.take_replies().len()
}

/// Where the replicas stand that are heard.
pub fn standings<R: Threads + Sync>(rt: &R, cluster: &Cluster) -> Result<Vec<Standing>, Memory> {
    cluster.standings(rt)
}

/// The digest of the first replicas, where as many are to stand alike.
pub fn common_digest(standings: &[Standing]) -> Option<[u8; 32]> {
    let Some(Standing::Digest(_, digest)) = standings.first() else {
        return None;
    };
    for (number, standing) in standings.iter().enumerate() {
        if *standing != Standing::Digest(number, *digest) {
            return None;
        }
    }
    Some(*digest)
}
