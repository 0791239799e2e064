//! Four replicas as processes, and what they tell one another, as frames.
use crate::folder::MemoryFolder;
use bfs_auth::{Keys, Principal};
use bfs_filter::TurnError;
use bfs_frames::{Frame, Kind, Parcel, To, Turn};
use bfs_node::{Executor, Node};
use bfs_recovery::{Keeping, recover};
use bfs_service::Terms;
use bfs_settings::Settings;
use bfs_types::{MOST_CLIENTS, Memory, Time};
use std::alloc::Global;
use std::sync::Wait;
use std::test::Fail;
use std::thread::Threads;

/// Which replicas are up, by their numbers.
pub type Up = [bool; 4];

/// All of them.
pub const ALL: Up = [true; 4];

/// All but the primary of the first view.
pub const BACKUPS: Up = [false, true, true, true];

/// Replica 1 alone.
pub const ONE: Up = [false, true, false, false];

/// All but replica 3.
pub const THREE: Up = [true, true, true, false];

/// How they serve: they wait two seconds.
pub const TERMS: Terms = Terms {
    patience: 2_000_000,
    most_batch_bytes: 100_000,
    most_state_bytes: 10_000_000,
};

// all but AskReport, which asks for something whatever its bytes are
static KINDS: [Kind; 12] = [
    Kind::Request,
    Kind::Order,
    Kind::ViewChange,
    Kind::NewView,
    Kind::Reply,
    Kind::Status,
    Kind::AskState,
    Kind::State,
    Kind::Report,
    Kind::Call,
    Kind::Answer,
    Kind::Log,
];

/// One of them, with a folder in memory.
pub type Replica = Keeping<MemoryFolder>;

#[derive(Drop)]
pub struct World {
    alloc: Global,
    terms: Terms,
    pub replicas: Vec<Replica>,
    // the text of each as it was when it told something last
    kept: Vec<Vec<u8>>,
    inboxes: Vec<Vec<Frame>>,
    /// What clients were told.
    pub replies: Vec<Vec<u8>>,
    /// What operators were told.
    pub notes: Vec<Vec<u8>>,
}

/// The settings of all: one of four replicas may be faulty, and there are 16 clients.
pub fn settings(alloc: Global) -> Result<Settings, Fail> {
    Ok(Settings::new(alloc, 1, 16, b"a secret")?)
}

fn keys_of(alloc: Global, number: u32) -> Result<Keys, Fail> {
    let settings = settings(alloc)?;
    let me = Principal::Replica(number);
    Ok(Keys::derive(
        alloc,
        settings.secret(),
        me,
        settings.replicas(),
        settings.clients(),
    )?)
}

// It takes the place of all that was in the folder.
fn begun(alloc: Global, node: Node, terms: Terms, room: u32) -> Result<Replica, Fail> {
    let folder = MemoryFolder::new(alloc, room);
    Ok(Keeping::begin(alloc, node, Executor::serial(), terms, folder)?)
}

fn new_node(alloc: Global, number: u32) -> Result<Node, Fail> {
    let keys = keys_of(alloc, number)?;
    match keys.replica_of() {
        Some(_) if keys.clients() <= MOST_CLIENTS as usize => Ok(Node::new(alloc, keys)?),
        _ => Err(Fail::from("no replica")),
    }
}

// The node that a folder holds.
fn recovered<R: Threads + Wait + Sync>(
    rt: &R,
    alloc: Global,
    number: u32,
    folder: &MemoryFolder,
) -> Result<Node, Fail> {
    let bodies = folder.bodies()?;
    let keys = keys_of(alloc, number)?;
    match keys.replica_of() {
        Some(_) if keys.clients() <= MOST_CLIENTS as usize => Ok(recover(
            rt,
            alloc,
            keys,
            Executor::serial(),
            folder.text(),
            &bodies,
        )?),
        _ => Err(Fail::from("no replica")),
    }
}

fn replicas_of(alloc: Global, terms: Terms, room: u32) -> Result<Vec<Replica>, Fail> {
    let mut replicas = Vec::new(alloc);
    for number in 0..4u32 {
        replicas.push(begun(alloc, new_node(alloc, number)?, terms, room)?)?;
    }
    Ok(replicas)
}

fn texts_of(alloc: Global, replicas: &[Replica]) -> Result<Vec<Vec<u8>>, Memory> {
    let mut texts = Vec::new(alloc);
    for replica in replicas {
        texts.push(replica.node().save()?)?;
    }
    Ok(texts)
}

fn no_frames(alloc: Global) -> Result<Vec<Vec<Frame>>, Memory> {
    let mut inboxes = Vec::new(alloc);
    for _ in 0..4u32 {
        inboxes.push(Vec::new(alloc))?;
    }
    Ok(inboxes)
}

fn put(alloc: Global, inbox: &mut Vec<Frame>, kind: Kind, payload: &[u8]) -> Result<(), Memory> {
    let payload = Vec::from_slice(alloc, payload)?;
    Ok(inbox.push(Frame { kind, payload })?)
}

fn turn_of<R: Threads + Wait + Sync>(
    rt: &R,
    replica: &mut Replica,
    millis: u32,
    frames: Vec<Frame>,
) -> Result<Vec<Parcel>, TurnError> {
    let time = Time::new(millis / 1_000, millis % 1_000 * 1_000).unwrap_or(Time::epoch());
    replica.take_turn(rt, &Turn { time, frames })
}

impl World {
    /// Four replicas, whose folders refuse all but so many calls.
    pub fn new(alloc: Global, terms: Terms, room: u32) -> Result<World, Fail> {
        let inboxes = no_frames(alloc)?;
        let replicas = replicas_of(alloc, terms, room)?;
        Ok(World {
            alloc,
            terms,
            kept: texts_of(alloc, &replicas)?,
            replicas,
            inboxes,
            replies: Vec::new(alloc),
            notes: Vec::new(alloc),
        })
    }

    /// A frame comes to each.
    pub fn send(&mut self, kind: Kind, payload: &[u8]) -> Result<(), Memory> {
        for inbox in self.inboxes.iter_mut() {
            put(self.alloc, inbox, kind, payload)?;
        }
        Ok(())
    }

    /// A frame comes to each with each front of these bytes, of each kind but that which asks for a report.
    pub fn send_rubbish(&mut self, bytes: &[u8]) -> Result<(), Memory> {
        for kind in &KINDS {
            for length in 0..bytes.len() {
                self.send(*kind, &bytes[..length])?;
            }
        }
        Ok(())
    }

    /// So many rounds at a time in milliseconds: in each, every replica that is up takes a turn of all that came, and what comes to another one is lost.
    pub fn play<R: Threads + Wait + Sync>(
        &mut self,
        rt: &R,
        millis: u32,
        up: &Up,
        rounds: u32,
    ) -> Result<(), TurnError> {
        for _ in 0..rounds {
            self.round(rt, millis, up)?;
        }
        Ok(())
    }

    fn round<R: Threads + Wait + Sync>(
        &mut self,
        rt: &R,
        millis: u32,
        up: &Up,
    ) -> Result<(), TurnError> {
        for number in 0..self.replicas.len() {
            let told = self.take_turn(rt, millis, up, number)?;
            self.note(number, &told)?;
            self.carry(number, told)?;
        }
        Ok(())
    }

    // One that tells something is kept as it is.
    fn note(&mut self, number: usize, told: &[Parcel]) -> Result<(), Memory> {
        if told.is_empty() {
            return Ok(());
        }
        match (self.replicas.get(number), self.kept.get_mut(number)) {
            (Some(replica), Some(kept)) => {
                *kept = replica.node().save()?;
                Ok(())
            }
            _ => Ok(()),
        }
    }

    fn take_turn<R: Threads + Wait + Sync>(
        &mut self,
        rt: &R,
        millis: u32,
        up: &Up,
        number: usize,
    ) -> Result<Vec<Parcel>, TurnError> {
        let frames = self.take_frames(number);
        match self.replicas.get_mut(number) {
            Some(replica) if up.get(number) == Some(&true) => turn_of(rt, replica, millis, frames),
            _ => Ok(Vec::new(self.alloc)),
        }
    }

    fn take_frames(&mut self, number: usize) -> Vec<Frame> {
        match self.inboxes.get_mut(number) {
            Some(inbox) => std::mem::replace(inbox, Vec::new(self.alloc)),
            None => Vec::new(self.alloc),
        }
    }

    fn carry(&mut self, from: usize, told: Vec<Parcel>) -> Result<(), Memory> {
        for parcel in told {
            self.carry_one(from, parcel)?;
        }
        Ok(())
    }

    fn carry_one(&mut self, from: usize, parcel: Parcel) -> Result<(), Memory> {
        let Frame { kind, payload } = parcel.frame;
        match parcel.to {
            To::Replicas => self.carry_to_others(from, kind, payload.as_slice()),
            To::Replica(number) => self.carry_to(number, Frame { kind, payload }),
            To::Client(_) => Ok(self.replies.push(payload)?),
            To::Operator | To::Caller(_) => Ok(self.notes.push(payload)?),
        }
    }

    fn carry_to_others(&mut self, from: usize, kind: Kind, payload: &[u8]) -> Result<(), Memory> {
        for (number, inbox) in self.inboxes.iter_mut().enumerate() {
            if number != from {
                put(self.alloc, inbox, kind, payload)?;
            }
        }
        Ok(())
    }

    fn carry_to(&mut self, number: u32, frame: Frame) -> Result<(), Memory> {
        match self.inboxes.get_mut(number as usize) {
            Some(inbox) => Ok(inbox.push(frame)?),
            None => Ok(()),
        }
    }

    /// How a replica stands: its view, the number last executed, and how many requests wait.
    pub fn standing(&self, number: usize) -> (u64, u64, usize) {
        match self.replicas.get(number) {
            Some(replica) => {
                let node = replica.node();
                (node.view(), node.last_executed(), node.waiting().len())
            }
            None => (0, 0, 0),
        }
    }

    /// The digest of a replica.
    pub fn digest<R: Threads + Sync>(&self, rt: &R, number: usize) -> Result<[u8; 32], Fail> {
        let replica = self.replicas.get(number).ok_or("a replica")?;
        Ok(replica.node().digest(rt)?)
    }

    /// How many records the folder of a replica has behind the saved one.
    pub fn records(&self, number: usize) -> Result<usize, Memory> {
        match self.replicas.get(number) {
            Some(replica) => Ok(replica.folder().bodies()?.len()),
            None => Ok(0),
        }
    }

    /// The process of a replica ends, and the next one begins as the node that its folder holds. Whether that is as the last one was when it told something last.
    pub fn restart<R: Threads + Wait + Sync>(&mut self, rt: &R, number: u32) -> Result<bool, Fail> {
        let replica = self.replicas.get_mut(number as usize).ok_or("a replica")?;
        let node = recovered(rt, self.alloc, number, replica.folder())?;
        let kept = self.kept.get(number as usize).ok_or("a text")?;
        let is_same = node.save()?.as_slice() == kept.as_slice();
        *replica = begun(self.alloc, node, self.terms, u32::MAX)?;
        Ok(is_same)
    }
}
