// A state is given to those who are behind, piece by piece: the stable one, or one that was told and isn't stable yet.
use crate::notes::Notes;
use crate::states::{Ask, Piece, checkpoints_text};
use bfs_frames::{Kind, To};
use bfs_node::Node;
use bfs_policy::{Policy, Standing};
use bfs_types::{CHECKPOINT_INTERVAL, LOG_SIZE, MOST_REPLICAS, Memory};
use std::alloc::Global;

// the bytes of a piece
const PIECE: u64 = 1 << 20;

// how long a state is kept for those who fetch it, in microseconds
const KEPT: u64 = 10_000_000;

// how long the next piece may take to be asked for
const MOMENT: u64 = 1_000_000;

// A state that is given.
#[derive(Drop)]
struct Offered {
    number: u64,
    digest: [u8; 32],
    text: Vec<u8>,
    // the CHECKPOINTs that tell its digest, as texts, and whether it is stable by these
    checkpoints: Vec<u8>,
    is_stable: bool,
    since: u64,
    // when a piece of it was given last, and to whom
    used: u64,
    asker: u32,
}

impl Offered {
    // whether it is good for one that asks: one that isn't stable makes room for one that is
    fn serves(&self, node: &Node, ask: Ask) -> bool {
        self.number > ask.above && (self.is_stable || !has_stable_above(node, ask.above))
    }

    // whether another one than this has got a piece a moment ago, of a state that is not kept for long
    fn is_fetched(&self, now: u64, asker: u32) -> bool {
        self.asker != asker
            && self.used.saturating_add(MOMENT) > now
            && self.since.saturating_add(KEPT) > now
    }
}

/// The state that is being given, if one is. It is a copy, so that it stays while the node goes on.
#[derive(Drop)]
pub(crate) struct Giving {
    alloc: Global,
    offered: Option<Offered>,
}

impl Giving {
    pub(crate) fn new(alloc: Global) -> Giving {
        Giving {
            alloc,
            offered: None,
        }
    }

    /// A piece goes to one who asks, of the state of which it has the first bytes, else of one that begins. Nothing goes where there is none above what it has.
    pub(crate) fn give(
        &mut self,
        now: u64,
        node: &Node,
        payload: &[u8],
        notes: &mut Notes,
    ) -> Result<(), Memory> {
        let Ok(ask) = Ask::read(payload) else {
            return Ok(());
        };
        self.choose(now, node, ask)?;
        match &mut self.offered {
            Some(offered) if offered.number > ask.above => {
                offered.used = now;
                offered.asker = ask.asker;
                refresh(self.alloc, node, offered)?;
                let piece = piece_of(offered, node.number(), ask);
                notes.add(To::Replica(ask.asker), Kind::State, piece.text(self.alloc)?)
            }
            _ => Ok(()),
        }
    }

    // A state that doesn't serve makes room for a later one, unless another replica was fetching it a moment ago.
    fn choose(&mut self, now: u64, node: &Node, ask: Ask) -> Result<(), Memory> {
        if let Some(offered) = &self.offered {
            if offered.serves(node, ask) || offered.is_fetched(now, ask.asker) {
                return Ok(());
            }
        }
        let chosen = self.choice(now, node, ask.above)?;
        if chosen.is_some() {
            self.offered = chosen;
        }
        Ok(())
    }

    // The stable one where it is above this number, else one that was told, if none was begun to be given a moment ago.
    fn choice(&self, now: u64, node: &Node, above: u64) -> Result<Option<Offered>, Memory> {
        if has_stable_above(node, above) {
            return stable_of(self.alloc, now, node);
        }
        match &self.offered {
            Some(offered) if offered.since.saturating_add(MOMENT) > now => Ok(None),
            _ => told_by(self.alloc, now, node, above),
        }
    }

    /// Forgets a state of which no piece was asked for in a minute.
    pub(crate) fn forget(&mut self, now: u64) {
        if let Some(offered) = &self.offered {
            if offered.used > now || now - offered.used >= 6 * KEPT {
                self.offered = None;
            }
        }
    }
}

fn has_stable_above(node: &Node, above: u64) -> bool {
    match node.stable() {
        Some(stable) => stable.checkpoint.number() > above,
        None => false,
    }
}

fn stable_of(alloc: Global, now: u64, node: &Node) -> Result<Option<Offered>, Memory> {
    let Some(stable) = node.stable() else {
        return Ok(None);
    };
    Ok(Some(Offered {
        number: stable.checkpoint.number(),
        digest: *stable.checkpoint.digest(),
        text: stable.snapshot.text(alloc)?,
        checkpoints: checkpoints_text(alloc, stable.checkpoint.checkpoints())?,
        is_stable: true,
        since: now,
        used: now,
        asker: node.number(),
    }))
}

fn told_by(alloc: Global, now: u64, node: &Node, above: u64) -> Result<Option<Offered>, Memory> {
    let Some(number) = best_told(node, above)? else {
        return Ok(None);
    };
    let Some(told) = node.told(number)? else {
        return Ok(None);
    };
    Ok(Some(Offered {
        number,
        digest: *told.snapshot.digest(),
        text: told.snapshot.text(alloc)?,
        checkpoints: checkpoints_text(alloc, &told.checkpoints)?,
        is_stable: false,
        since: now,
        used: now,
        asker: node.number(),
    }))
}

// Of the numbers of which it has told what it was, the one that most replicas have told alike, the latest of these.
fn best_told(node: &Node, above: u64) -> Result<Option<u64>, Memory> {
    let mut best = None;
    let mut most = 0;
    for step in 0..=LOG_SIZE as u64 / CHECKPOINT_INTERVAL {
        let number = node
            .stable_number()
            .saturating_add(step * CHECKPOINT_INTERVAL);
        let count = told_alike(node, number)?;
        if number > above && count > 0 && count >= most {
            best = Some(number);
            most = count;
        }
    }
    Ok(best)
}

// by how many replicas, where this one has told it
fn told_alike(node: &Node, number: u64) -> Result<usize, Memory> {
    match node.told(number)? {
        Some(told) => Ok(told.checkpoints.len()),
        None => Ok(0),
    }
}

// CHECKPOINTs that have come since it was begun to be given go along
fn refresh(alloc: Global, node: &Node, offered: &mut Offered) -> Result<(), Memory> {
    if !offered.is_stable {
        let checkpoints = node.checkpoints_of(offered.number, &offered.digest)?;
        offered.checkpoints = checkpoints_text(alloc, &checkpoints)?;
    }
    Ok(())
}

fn piece_of(offered: &Offered, sender: u32, ask: Ask) -> Piece<'_> {
    let length = offered.text.len() as u64;
    let offset = if ask.number == offered.number {
        ask.offset.min(length)
    } else {
        0
    };
    let bytes = if offset == length {
        offered.checkpoints.as_slice()
    } else {
        let end = length.min(offset + PIECE);
        &offered.text.as_slice()[offset as usize..end as usize]
    };
    Piece {
        sender,
        number: offered.number,
        length,
        offset,
        bytes,
    }
}

/// Each to which something is due again, and which has executed the number of the stable checkpoint without knowing that it is stable, is shown its
/// CHECKPOINTs: they may have been lost, and who has adopted the state has none of its own.
pub(crate) fn show_stable(
    alloc: Global,
    node: &Node,
    policy: &Policy,
    notes: &mut Notes,
) -> Result<(), Memory> {
    for to in 0..MOST_REPLICAS as u32 {
        if let Some(standing) = policy.to_resend(to) {
            show_where_due(alloc, node, to, standing, notes)?;
        }
    }
    Ok(())
}

fn show_where_due(
    alloc: Global,
    node: &Node,
    to: u32,
    standing: Standing,
    notes: &mut Notes,
) -> Result<(), Memory> {
    let Some(stable) = node.stable() else {
        return Ok(());
    };
    let number = stable.checkpoint.number();
    if number <= standing.stable || standing.last < number {
        return Ok(());
    }
    let checkpoints = checkpoints_text(alloc, stable.checkpoint.checkpoints())?;
    let piece = Piece {
        sender: node.number(),
        number,
        length: 0,
        offset: 0,
        bytes: &checkpoints,
    };
    notes.add(To::Replica(to), Kind::State, piece.text(alloc)?)
}
