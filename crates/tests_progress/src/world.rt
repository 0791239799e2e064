//! 3f + 1 replicas as processes, and their frames on the way, by a time of its own.
use bfs_frames::{Frame, Kind, Parcel, To, Turn};
use bfs_node::{Executor, Node};
use bfs_service::{Service, Terms};
use bfs_settings::Settings;
use bfs_testing::generated::Generator;
use bfs_testing_liars::draws::{below, happens};
use bfs_testing_liars::sets::Set;
use bfs_types::{Memory, Time};
use bfs_xdr::{Reader, XdrError};
use std::alloc::Global;
use std::sync::Wait;
use std::test::Fail;
use std::thread::Threads;

/// How many clients there are.
pub const CLIENTS: u32 = 3;

/// How they serve: they wait for a second.
pub const TERMS: Terms = Terms {
    patience: 1_000_000,
    most_batch_bytes: 100_000,
    most_state_bytes: 10_000_000,
};

// milliseconds
const TICK: u32 = 100;

// A frame on its way, and the tick at which it comes.
#[derive(Drop)]
struct Letter {
    due: u32,
    frame: Frame,
}

/// Of a hundred frames so many are lost, come twice, and come late.
#[derive(Clone, Copy, Drop)]
pub struct Chances {
    pub lost: u32,
    pub again: u32,
    pub late: u32,
}

impl Chances {
    /// Each comes once, and in time.
    pub const NONE: Chances = Chances {
        lost: 0,
        again: 0,
        late: 0,
    };
}

/// The first so many messages are lost that come to these, of the kind with whose tag they begin, and of a number (of a view, where it isn't a CHECKPOINT).
#[derive(Clone, Copy, Drop)]
pub struct Loss {
    pub tag: u32,
    pub number: u64,
    pub to: Set,
    pub left: u32,
}

#[derive(Drop)]
pub struct World {
    pub alloc: Global,
    pub f: u32,
    pub replicas: Vec<Service>,
    post: Vec<Vec<Letter>>,
    /// Which replicas take turns.
    pub up: Set,
    /// To which replicas frames come; those for others are lost.
    pub hear: Set,
    /// How far each one's clock is ahead, in milliseconds.
    pub ahead: Vec<u32>,
    pub tick: u32,
    pub draws: Generator,
    pub chances: Chances,
    pub losses: Vec<Loss>,
}

/// The settings of all, of whom f may be faulty.
pub fn settings(alloc: Global, f: u32) -> Result<Settings, Fail> {
    Ok(Settings::new(alloc, f, CLIENTS, b"a secret")?)
}

fn service_of(alloc: Global, settings: &Settings, number: u32) -> Result<Service, Memory> {
    if number >= settings.replicas() {
        return Err(Memory);
    }
    let node = Node::of_settings(alloc, settings, number)?;
    Ok(Service::new(alloc, node, Executor::serial(), TERMS))
}

fn turn_of<R: Threads + Wait + Sync>(
    rt: &R,
    service: &mut Service,
    millis: u32,
    frames: Vec<Frame>,
) -> Result<Vec<Parcel>, Memory> {
    let time = Time::new(millis / 1_000, millis % 1_000 * 1_000).unwrap_or(Time::epoch());
    service.take_turn(rt, &Turn { time, frames })
}

// those that come by now are taken out
fn taken(alloc: Global, letters: &mut Vec<Letter>, tick: u32) -> Result<Vec<Frame>, Memory> {
    let mut frames = Vec::new(alloc);
    let mut left = Vec::new(alloc);
    for letter in std::mem::replace(letters, Vec::new(alloc)) {
        if letter.due <= tick {
            frames.push(letter.frame)?;
        } else {
            left.push(letter)?;
        }
    }
    *letters = left;
    Ok(frames)
}

fn put(
    alloc: Global,
    letters: &mut Vec<Letter>,
    due: u32,
    kind: Kind,
    payload: &[u8],
) -> Result<(), Memory> {
    let payload = Vec::from_slice(alloc, payload)?;
    let frame = Frame { kind, payload };
    Ok(letters.push(Letter { due, frame })?)
}

// the tag and the number that a message's text begins with
fn head_of(payload: &[u8]) -> Result<(u32, u64), XdrError> {
    let mut reader = Reader::new(payload);
    let tag = reader.u32()?;
    reader.u32()?;
    Ok((tag, reader.u64()?))
}

fn is_lost_by(losses: &mut [Loss], to: usize, payload: &[u8]) -> bool {
    let Ok((tag, number)) = head_of(payload) else {
        return false;
    };
    for loss in losses.iter_mut() {
        if loss.left > 0 && loss.tag == tag && loss.number == number && loss.to.has(to) {
            loss.left = loss.left.saturating_sub(1);
            return true;
        }
    }
    false
}

impl World {
    pub fn new(alloc: Global, f: u32, draws: Generator) -> Result<World, Fail> {
        let settings = settings(alloc, f)?;
        let mut replicas = Vec::new(alloc);
        let mut post = Vec::new(alloc);
        let mut ahead = Vec::new(alloc);
        for number in 0..settings.replicas() {
            replicas.push(service_of(alloc, &settings, number)?)?;
            post.push(Vec::new(alloc))?;
            ahead.push(0)?;
        }
        Ok(World {
            alloc,
            f,
            replicas,
            post,
            up: Set::ALL,
            hear: Set::ALL,
            ahead,
            tick: 0,
            draws,
            chances: Chances::NONE,
            losses: Vec::new(alloc),
        })
    }

    /// Each that is up takes a turn of what has come.
    pub fn play<R: Threads + Wait + Sync>(&mut self, rt: &R) -> Result<(), Memory> {
        for number in 0..self.replicas.len() {
            let told = self.take_turn(rt, number)?;
            self.carry(number, told)?;
        }
        self.tick = self.tick.saturating_add(1);
        Ok(())
    }

    fn take_turn<R: Threads + Wait + Sync>(
        &mut self,
        rt: &R,
        number: usize,
    ) -> Result<Vec<Parcel>, Memory> {
        if !self.up.has(number) {
            return Ok(Vec::new(self.alloc));
        }
        let frames = self.take_frames(number)?;
        let millis = self.millis(number);
        match self.replicas.get_mut(number) {
            Some(service) => turn_of(rt, service, millis, frames),
            None => Ok(Vec::new(self.alloc)),
        }
    }

    fn millis(&self, number: usize) -> u32 {
        let now = self.tick.saturating_mul(TICK);
        match self.ahead.get(number) {
            Some(ahead) => now.saturating_add(*ahead),
            None => now,
        }
    }

    fn take_frames(&mut self, number: usize) -> Result<Vec<Frame>, Memory> {
        match self.post.get_mut(number) {
            Some(letters) => taken(self.alloc, letters, self.tick),
            None => Ok(Vec::new(self.alloc)),
        }
    }

    fn carry(&mut self, from: usize, told: Vec<Parcel>) -> Result<(), Memory> {
        for parcel in told {
            self.carry_one(from, &parcel)?;
        }
        Ok(())
    }

    fn carry_one(&mut self, from: usize, parcel: &Parcel) -> Result<(), Memory> {
        let (kind, payload) = (parcel.frame.kind, parcel.frame.payload.as_slice());
        match parcel.to {
            To::Replicas => self.send(Set::of(from).others(), kind, payload),
            To::Replica(number) => self.send_to(number as usize, kind, payload),
            To::Client(_) | To::Operator | To::Caller(_) => Ok(()),
        }
    }

    /// A frame is sent to some.
    pub fn send(&mut self, to: Set, kind: Kind, payload: &[u8]) -> Result<(), Memory> {
        for number in 0..self.replicas.len() {
            if to.has(number) {
                self.send_to(number, kind, payload)?;
            }
        }
        Ok(())
    }

    fn send_to(&mut self, to: usize, kind: Kind, payload: &[u8]) -> Result<(), Memory> {
        if !self.hear.has(to)
            || happens(&mut self.draws, self.chances.lost)
            || is_lost_by(&mut self.losses, to, payload)
        {
            return Ok(());
        }
        self.post_to(to, kind, payload)?;
        if happens(&mut self.draws, self.chances.again) {
            self.post_to(to, kind, payload)?;
        }
        Ok(())
    }

    fn post_to(&mut self, to: usize, kind: Kind, payload: &[u8]) -> Result<(), Memory> {
        let late = if happens(&mut self.draws, self.chances.late) {
            below(&mut self.draws, 6)
        } else {
            0
        };
        let due = self.tick.saturating_add(1).saturating_add(late);
        match self.post.get_mut(to) {
            Some(letters) => put(self.alloc, letters, due, kind, payload),
            None => Ok(()),
        }
    }

    /// The node of a replica.
    pub fn node(&self, number: usize) -> Option<&Node> {
        match self.replicas.get(number) {
            Some(service) => Some(service.node()),
            None => None,
        }
    }
}
