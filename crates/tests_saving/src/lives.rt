//! Replicas at random: those that are saved and restored between their steps go the way of those that never stop.
use crate::replica::{MEMBERS, are_alike, restored};
use bfs_codec::encode;
use bfs_messages::{Message, Request, Signed};
use bfs_node::{Executor, NoGate, Node, NodeError};
use bfs_nodes_agree::node_calls::performing::{NodeCall, Sent, perform};
use bfs_steps::put_step;
use bfs_testing::generated::Generator;
use bfs_testing::numbers::{CREATE, MKDIR, NULL, REMOVE, WRITE};
use bfs_testing::{holds, same};
use bfs_testing_nodes::members::{request, request_message};
use bfs_types::{Memory, Time, TryClone};
use std::alloc::Global;
use std::sync::Wait;
use std::test::Fail;
use std::thread::Threads;

/// Four replicas, what each has done as bytes, the bytes of messages on their way, each with who sends it, and the bytes of all that were sent.
#[derive(Drop)]
pub struct Lives {
    alloc: Global,
    nodes: Vec<Node>,
    done: Vec<Vec<u8>>,
    on_their_way: Vec<(usize, Vec<u8>)>,
    said: Vec<u8>,
    draws: Generator,
    timestamp: u32,
}

// a client sends to all
const CLIENT: usize = 4;

impl Lives {
    /// Four that have done nothing.
    pub fn new(alloc: Global, seed: u64) -> Result<Lives, Memory> {
        let mut nodes = Vec::new(alloc);
        let mut done = Vec::new(alloc);
        for me in 0..4 {
            nodes.push(MEMBERS.replica(alloc, me)?)?;
            done.push(Vec::new(alloc))?;
        }
        Ok(Lives {
            alloc,
            nodes,
            done,
            on_their_way: Vec::new(alloc),
            said: Vec::new(alloc),
            draws: Generator {
                state: seed.wrapping_mul(0x9e37_79b9_7f4a_7c15),
                procedures: &[NULL, CREATE, CREATE, WRITE, MKDIR, REMOVE],
                files: (3, 6),
                dirs: (2, 3),
                names: 6,
                callers: 0,
            },
            timestamp: 0,
        })
    }

    /// The replica of that number.
    pub fn node(&self, number: usize) -> Option<&Node> {
        self.nodes.get(number)
    }

    fn draw(&mut self, below: usize) -> usize {
        self.draws.next() as usize % below.max(1)
    }

    /// What a replica has done since this was asked last, as bytes.
    pub fn take_done(&mut self, number: usize) -> Vec<u8> {
        match self.done.get_mut(number) {
            Some(done) => std::mem::replace(done, Vec::new(self.alloc)),
            None => Vec::new(self.alloc),
        }
    }

    // a REPLY is said, and goes to no replica
    fn send(&mut self, sender: usize, sent: Vec<Signed<Message>>) -> Result<(), Memory> {
        for signed in &sent {
            let bytes = spelled(self.alloc, signed)?;
            self.said.extend_from_slice(&bytes)?;
            if !matches!(signed.message, Message::Reply(_)) {
                self.on_their_way.push((sender, bytes))?;
            }
        }
        Ok(())
    }

    // it does so, and a refusal is passed over
    fn act<R: Threads + Wait + Sync>(
        &mut self,
        rt: &R,
        who: usize,
        call: NodeCall<'_>,
    ) -> Result<(), Memory> {
        let (Some(node), Some(done)) = (self.nodes.get_mut(who), self.done.get_mut(who)) else {
            return Ok(());
        };
        put_step(&call, self.alloc, done)?;
        let sent = performed(rt, self.alloc, node, call)?;
        self.send(who, sent)
    }

    fn request(&mut self) -> Result<Signed<Request>, Memory> {
        self.timestamp = self.timestamp.saturating_add(1);
        let call = self.draws.request(self.alloc)?;
        let asked = request(self.alloc, 1, self.timestamp as u64, &call)?;
        MEMBERS.request(self.alloc, 1, asked)
    }

    fn ask(&mut self) -> Result<(), Memory> {
        let signed = request_message(self.request()?);
        let bytes = spelled(self.alloc, &signed)?;
        self.on_their_way.push((CLIENT, bytes))?;
        Ok(())
    }

    // one message comes to all others, but for some who lose it
    fn deliver<R: Threads + Wait + Sync>(&mut self, rt: &R) -> Result<(), Memory> {
        let count = self.on_their_way.len();
        let place = self.draw(count);
        if place >= self.on_their_way.len() {
            return Ok(());
        }
        let (sender, bytes) = self.on_their_way.swap_remove(place);
        for to in 0..4 {
            if to != sender && self.draw(24) != 0 {
                self.act(rt, to, NodeCall::Deliver(&bytes))?;
            }
        }
        Ok(())
    }

    fn propose<R: Threads + Wait + Sync>(&mut self, rt: &R, who: usize) -> Result<(), Memory> {
        let time = Time::new(self.timestamp, 0).unwrap_or(Time::epoch());
        self.act(rt, who, NodeCall::Propose(time))
    }

    fn advance<R: Threads + Wait + Sync>(&mut self, rt: &R, who: usize) -> Result<(), Memory> {
        self.act(rt, who, NodeCall::Checkpoint)?;
        for _ in 0..16 {
            if !self.nodes.get(who).is_some_and(|node| node.is_ready()) {
                break;
            }
            self.act(rt, who, NodeCall::Execute)?;
            self.act(rt, who, NodeCall::Checkpoint)?;
        }
        Ok(())
    }

    /// One step, which is drawn.
    pub fn step<R: Threads + Wait + Sync>(&mut self, rt: &R) -> Result<(), Memory> {
        let (what, who) = (self.draw(32), self.draw(4));
        match what {
            0 | 1 => self.ask(),
            2..=5 => self.propose(rt, who),
            6..=12 => self.advance(rt, who),
            13 if self.draws.next() % 16 == 0 => self.act(rt, who, NodeCall::TimeOut),
            _ => self.deliver(rt),
        }
    }

    // a request comes, and then another one
    fn take_requests<R: Threads + Wait + Sync>(
        &mut self,
        rt: &R,
        who: usize,
    ) -> Result<(), Memory> {
        let mut requests = Vec::new(self.alloc);
        for _ in 0..2 {
            requests.push(request_message(self.request()?))?;
        }
        self.act(rt, who, NodeCall::TakeRequests(&requests))
    }

    fn settle<R: Threads + Wait + Sync>(&mut self, rt: &R, who: usize) -> Result<(), Memory> {
        let other = self.draw(4);
        let Some(Some(stable)) = self.nodes.get(other).map(|node| node.stable()) else {
            return Ok(());
        };
        let certificate = stable.checkpoint.try_clone(self.alloc)?;
        self.act(rt, who, NodeCall::Settle(&certificate))
    }

    /// One step of another kind, which is drawn.
    pub fn other_step<R: Threads + Wait + Sync>(&mut self, rt: &R) -> Result<(), Memory> {
        let (what, who) = (self.draw(6), self.draw(4));
        match what {
            0 => {
                let signed = request_message(self.request()?);
                self.act(rt, who, NodeCall::Take(signed))
            }
            1 => self.take_requests(rt, who),
            2 => {
                let signed = self.request()?;
                self.act(rt, who, NodeCall::Offer(signed))
            }
            3 => self.act(rt, who, NodeCall::ForgetAnswered),
            4 => self.act(rt, who, NodeCall::ForgetProposed),
            _ if self.draw(16) == 0 => self.act(rt, who, NodeCall::LeaveFor(2)),
            _ => self.settle(rt, who),
        }
    }

    /// One of them is saved, and the one that is restored takes its place. It gives whether that is as it was.
    pub fn stop<R: Threads + Sync>(&mut self, rt: &R, number: usize) -> Result<bool, Memory> {
        let Some(node) = self.nodes.get_mut(number) else {
            return Ok(false);
        };
        let text = node.save()?;
        let keys = MEMBERS.keys_of(self.alloc, (number % 4) as u32)?;
        let Ok(again) = restored(rt, self.alloc, keys, &text) else {
            return Ok(false);
        };
        let alike = are_alike(rt, self.alloc, node, &again)?;
        *node = again;
        Ok(alike)
    }

    // what was said, and what all are
    fn told(&self) -> Result<Vec<u8>, Memory> {
        let mut told = Vec::new(self.alloc);
        told.extend_from_slice(&self.said)?;
        for node in &self.nodes {
            told.extend_from_slice(&node.save()?)?;
        }
        Ok(told)
    }
}

// what a call gives to be sent, nothing where it is refused
fn performed<R: Threads + Wait + Sync>(
    rt: &R,
    alloc: Global,
    node: &mut Node,
    call: NodeCall<'_>,
) -> Result<Vec<Signed<Message>>, Memory> {
    let mut given = Vec::new(alloc);
    match perform(node, rt, Executor::serial(), &NoGate, call) {
        Ok(Sent::All(sent)) => given = sent,
        Ok(Sent::One(signed)) => given.push(signed)?,
        Err(NodeError::Memory) => return Err(Memory),
        _ => (),
    }
    Ok(given)
}

fn spelled(alloc: Global, signed: &Signed<Message>) -> Result<Vec<u8>, Memory> {
    Ok(encode(alloc, signed)?)
}

/// Four replicas after so many steps.
pub fn lived<R: Threads + Wait + Sync>(
    rt: &R,
    alloc: Global,
    seed: u64,
    steps: u32,
) -> Result<Lives, Memory> {
    let mut lives = Lives::new(alloc, seed)?;
    for _ in 0..steps {
        lives.step(rt)?;
    }
    Ok(lives)
}

// The same, where some are stopped behind each third step: `None` where one was not as before.
fn stopped<R: Threads + Wait + Sync>(
    rt: &R,
    alloc: Global,
    seed: u64,
    steps: u32,
) -> Result<Option<Lives>, Memory> {
    let mut lives = Lives::new(alloc, seed)?;
    for step in 0..steps {
        lives.step(rt)?;
        if step % 3 == 0 && !lives.stop(rt, (step / 3 % 4) as usize)? {
            return Ok(None);
        }
    }
    Ok(Some(lives))
}

#[test]
fn those_that_are_restored_go_on_as_those_that_never_stopped(rt: HostRuntime) -> Result<(), Fail> {
    let alloc = rt.alloc();
    let (mut stable, mut view) = (0, 0);
    for seed in 1..2 {
        let lives = lived(&rt, alloc, seed, 3_000)?;
        match stopped(&rt, alloc, seed, 3_000)? {
            Some(others) => {
                holds!(rt; lives.told()?.as_slice() == others.told()?.as_slice());
            }
            None => holds!(rt; false),
        }
        for node in &lives.nodes {
            stable = node.stable_number().max(stable);
            view = node.view().max(view);
        }
    }
    holds!(rt; stable >= 16 || view > 0);
    same!(rt; MEMBERS.f, 1);
    Ok(())
}
