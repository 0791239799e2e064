//! A run of replicas that is watched.
use crate::lines::{Sender, line_of};
use anyhow::Error;
use bfs_clients::Clients;
use bfs_cluster::{Cluster, Executor, NoGate};
use bfs_messages::{Message, Request, Signed};
use bfs_settings::Settings;
use bfs_trace::{Block, TraceEvent};
use bfs_types::{Memory, Time};
use std::alloc::Global;
use std::rt::Runtime;
use std::sync::Wait;
use std::thread::Threads;

/// The replicas and the clients, which replicas are heard, and the last block's time.
#[derive(Drop)]
struct Watched {
    alloc: Global,
    clients: Clients,
    cluster: Cluster,
    heard: Vec<bool>,
    time: Time,
}

/// Lets the events of a trace happen to new replicas, and prints a line for each event and for each message.
pub fn watch_trace<R: Runtime + AllocGlobal + Threads + Wait + Sync>(
    rt: &R,
    settings: &Settings,
    events: &[TraceEvent],
) -> Result<(), Error> {
    let mut watched = begin(rt.alloc(), settings)?;
    for event in events {
        match event {
            TraceEvent::Block(block) => watch_block(rt, &mut watched, block)?,
            TraceEvent::Silent(replica) => {
                println!(rt; "silent {replica}")?;
                watched.cluster.silence(*replica);
                watched.set_heard(*replica, false);
            }
            TraceEvent::Heard(replica) => {
                println!(rt; "heard {replica}")?;
                watched.cluster.hear(*replica);
                watched.set_heard(*replica, true);
            }
            TraceEvent::Timeout => watch_timeout(rt, &mut watched)?,
        }
    }
    Ok(())
}

fn begin(alloc: Global, settings: &Settings) -> Result<Watched, Memory> {
    let mut cluster = Cluster::new(alloc, settings)?;
    cluster.watch();
    let mut heard = Vec::new(alloc);
    for _ in 0..settings.replicas() {
        heard.push(true)?;
    }
    Ok(Watched {
        alloc,
        clients: Clients::new(alloc, settings)?,
        cluster,
        heard,
        time: Time::epoch(),
    })
}

impl Watched {
    fn set_heard(&mut self, replica: u32, heard: bool) {
        if let Some(slot) = self.heard.get_mut(replica as usize) {
            *slot = heard;
        }
    }
}

fn watch_block<R: Runtime + AllocGlobal + Threads + Wait + Sync>(
    rt: &R,
    watched: &mut Watched,
    block: &Block,
) -> Result<(), Error> {
    let alloc = watched.alloc;
    watched.time = block.time();
    println!(rt;
        "batch {}.{:06}",
        block.time().seconds(),
        block.time().useconds()
    )?;
    let requests = requests_of(alloc, block)?;
    let signed = watched.clients.sign_all(rt, requests.as_slice())?;
    for request in &signed {
        let line = line_of(alloc, Sender::Client, request, watched.heard.as_slice())?;
        println!(rt; "{line}")?;
    }
    watched
        .cluster
        .send_block(rt, block.time(), signed.as_slice())?;
    watch_settling(rt, watched)
}

// primaries propose what waits once all has settled
fn watch_timeout<R: Runtime + AllocGlobal + Threads + Wait + Sync>(
    rt: &R,
    watched: &mut Watched,
) -> Result<(), Error> {
    println!(rt; "timeout")?;
    watched.cluster.timeout()?;
    watch_settling(rt, watched)?;
    watched.cluster.propose_waiting(watched.time)?;
    watch_settling(rt, watched)
}

// one request is executed after another, since that changes no message
fn watch_settling<R: Runtime + AllocGlobal + Threads + Wait + Sync>(
    rt: &R,
    watched: &mut Watched,
) -> Result<(), Error> {
    watched.cluster.settle(rt, Executor::serial(), &NoGate)?;
    for sent in watched.cluster.take_sent() {
        let sender = Sender::Replica(sent.sender);
        let line = line_of(
            watched.alloc,
            sender,
            &sent.signed,
            watched.heard.as_slice(),
        )?;
        println!(rt; "{line}")?;
    }
    let _ = watched.cluster.take_replies();
    Ok(())
}

fn requests_of(alloc: Global, block: &Block) -> Result<Vec<Request>, Memory> {
    let mut requests = Vec::new(alloc);
    for request in block.requests() {
        requests.push(Request::new(alloc, request.client(), request.timestamp(), request.call())?)?;
    }
    Ok(requests)
}
