//! Clients, each with one request under way, which they send again until enough replicas have executed it; and whether all is executed.
use crate::world::{CLIENTS, World, settings};
use bfs_clients::Clients;
use bfs_codec::encode;
use bfs_frames::Kind;
use bfs_node::{Class, Node};
use bfs_testing_liars::sets::Set;
use bfs_types::Memory;
use std::alloc::Global;
use std::test::Fail;

// GETATTR of the root (RFC 1094 section 2.2.2)
const GETATTR: &[u8; 72] =
    b"\0\0\0\x01\0\0\0\0\0\0\0\x02\0\x01\x86\xa3\0\0\0\x02\0\0\0\x01\0\0\0\0\0\0\0\0\0\0\0\0\0\0\0\0BFS2\0\0\0\x01\0\0\0\x02\0\0\0\0\0\0\0\0\0\0\0\0\0\0\0\0\0\0\0\0";

// A client's last request.
#[derive(Drop)]
struct Asked {
    client: u32,
    timestamp: u64,
    text: Vec<u8>,
}

/// Clients, and their last requests.
#[derive(Drop)]
pub struct Asking {
    alloc: Global,
    clients: Clients,
    asked: Vec<Asked>,
}

fn has_executed(node: &Node, client: u32, timestamp: u64) -> bool {
    match node.classify(client, timestamp) {
        Class::New => false,
        _ => true,
    }
}

// how many replicas that are up have executed it
fn executed_by(world: &World, asked: &Asked) -> u32 {
    let mut count = 0u32;
    for number in 0..world.replicas.len() {
        if let Some(node) = world.node(number) {
            if world.up.has(number) && has_executed(node, asked.client, asked.timestamp) {
                count = count.saturating_add(1);
            }
        }
    }
    count
}

fn text_of(
    alloc: Global,
    clients: &Clients,
    client: u32,
    timestamp: u64,
) -> Result<Vec<u8>, Memory> {
    match clients.call(client, timestamp, GETATTR)? {
        Some(call) => encode(alloc, &call.request),
        None => Ok(Vec::new(alloc)),
    }
}

impl Asking {
    /// Nothing was asked yet.
    pub fn new(alloc: Global, f: u32) -> Result<Asking, Fail> {
        let mut asked = Vec::new(alloc);
        for client in 0..CLIENTS {
            let text = Vec::new(alloc);
            asked.push(Asked {
                client,
                timestamp: 0,
                text,
            })?;
        }
        Ok(Asking {
            alloc,
            clients: Clients::new(alloc, &settings(alloc, f)?)?,
            asked,
        })
    }

    /// Whether a client has nothing under way.
    pub fn is_answered(&self, world: &World, client: usize) -> bool {
        match self.asked.get(client) {
            Some(asked) => asked.timestamp == 0 || executed_by(world, asked) > world.f,
            None => false,
        }
    }

    /// A client asks for the next thing, and sends it to some.
    pub fn ask(&mut self, world: &mut World, client: usize, to: Set) -> Result<(), Memory> {
        if let Some(asked) = self.asked.get_mut(client) {
            asked.timestamp = asked.timestamp.saturating_add(1);
            asked.text = text_of(self.alloc, &self.clients, asked.client, asked.timestamp)?;
            world.send(to, Kind::Request, asked.text.as_slice())?;
        }
        Ok(())
    }

    /// It comes to some once more.
    pub fn repeat(&self, world: &mut World, client: usize, to: Set) -> Result<(), Memory> {
        match self.asked.get(client) {
            Some(asked) if asked.timestamp > 0 => {
                world.send(to, Kind::Request, asked.text.as_slice())
            }
            _ => Ok(()),
        }
    }

    /// What isn't answered comes to all once more.
    pub fn repeat_all(&self, world: &mut World) -> Result<(), Memory> {
        for client in 0..self.asked.len() {
            if !self.is_answered(world, client) {
                self.repeat(world, client, Set::ALL)?;
            }
        }
        Ok(())
    }

    /// Whether a replica has executed all that was asked, and nothing else waits there.
    pub fn is_done_at(&self, node: &Node) -> bool {
        for asked in &self.asked {
            if asked.timestamp > 0 && !has_executed(node, asked.client, asked.timestamp) {
                return false;
            }
        }
        for signed in node.waiting() {
            if !has_executed(node, signed.message.client(), signed.message.timestamp()) {
                return false;
            }
        }
        true
    }

    /// Which replicas are up, in the latest view that one of them has entered, not leaving it, and have executed all.
    pub fn done(&self, world: &World) -> Set {
        let view = latest_view(world);
        let mut done = Set(0);
        for number in 0..world.replicas.len() {
            if let Some(node) = world.node(number) {
                if world.up.has(number) && takes_part(node, view) && self.is_done_at(node) {
                    done = done.with(number);
                }
            }
        }
        done
    }
}

fn takes_part(node: &Node, view: u64) -> bool {
    node.view() == view && node.view_asked() <= view
}

/// The latest view that a replica that is up has entered.
pub fn latest_view(world: &World) -> u64 {
    let mut view = 0u64;
    for number in 0..world.replicas.len() {
        if let Some(node) = world.node(number) {
            if world.up.has(number) {
                view = view.max(node.view());
            }
        }
    }
    view
}

/// Which replicas are up and take part in the latest view.
pub fn taking_part(world: &World) -> Set {
    let view = latest_view(world);
    let mut part = Set(0);
    for number in 0..world.replicas.len() {
        if let Some(node) = world.node(number) {
            if world.up.has(number) && takes_part(node, view) {
                part = part.with(number);
            }
        }
    }
    part
}
