// A state is fetched from another replica, piece by piece.
use crate::collecting::Collecting;
use crate::notes::Notes;
use crate::states::{Ask, Piece, checkpoints_in};
use bfs_frames::{Kind, To};
use bfs_log::StableCheckpoint;
use bfs_node::Node;
use bfs_types::Memory;
use std::alloc::Global;

/// A whole state, and what shows that its digest is that of a stable checkpoint.
#[derive(Drop)]
pub(crate) struct Fetched {
    pub(crate) text: Vec<u8>,
    pub(crate) certificate: StableCheckpoint,
}

/// What comes of a piece.
#[derive(Drop)]
pub(crate) enum Heard {
    Nothing,
    /// A state is whole.
    State(Fetched),
    /// A number that was executed is shown to be stable.
    Shown(StableCheckpoint),
}

/// A state that is being fetched, if one is.
#[derive(Drop)]
pub(crate) struct Fetching {
    alloc: Global,
    most_bytes: u64,
    // whom it was asked of
    from: Option<u32>,
    // of which there are bytes, or 0
    number: u64,
    text: Vec<u8>,
    // whether a piece has come that nobody looked at
    has_piece: bool,
    collecting: Collecting,
}

impl Fetching {
    /// Nothing is fetched. No state of more bytes is taken.
    pub(crate) fn new(alloc: Global, most_bytes: u64) -> Fetching {
        Fetching {
            alloc,
            most_bytes,
            from: None,
            number: 0,
            text: Vec::new(alloc),
            has_piece: false,
            collecting: Collecting::new(alloc),
        }
    }

    /// Asks that replica for its state, from the first byte on.
    pub(crate) fn ask(&mut self, from: u32, node: &Node, notes: &mut Notes) -> Result<(), Memory> {
        self.begin();
        self.from = Some(from);
        self.ask_on(from, node, notes)
    }

    /// Whether a piece has come since this was asked last.
    pub(crate) fn take_has_piece(&mut self) -> bool {
        std::mem::replace(&mut self.has_piece, false)
    }

    fn begin(&mut self) {
        self.number = 0;
        self.text = Vec::new(self.alloc);
    }

    fn ask_on(&mut self, from: u32, node: &Node, notes: &mut Notes) -> Result<(), Memory> {
        let ask = Ask {
            asker: node.number(),
            above: node.last_executed(),
            number: self.number,
            offset: self.text.len() as u64,
        };
        notes.add(To::Replica(from), Kind::AskState, ask.text(self.alloc)?)
    }

    /// A piece comes. The whole state, once its last piece is here and shows it. One that wasn't asked for is passed over, but for the CHECKPOINTs of a number
    /// that was executed, and isn't stable yet.
    pub(crate) fn hear(
        &mut self,
        node: &Node,
        payload: &[u8],
        notes: &mut Notes,
    ) -> Result<Heard, Memory> {
        let Ok(piece) = Piece::read(payload) else {
            return Ok(Heard::Nothing);
        };
        if piece.offset == piece.length && may_settle(node, piece.number) {
            return self.settle(node, piece);
        }
        if self.from != Some(piece.sender) || piece.length > self.most_bytes {
            return Ok(Heard::Nothing);
        }
        if piece.number != self.number && piece.offset == 0 {
            self.begin();
            self.number = piece.number;
        }
        if piece.number != self.number || piece.offset != self.text.len() as u64 {
            return Ok(Heard::Nothing);
        }
        self.hear_next(node, piece, notes)
    }

    // the next bytes, or what comes behind the last ones
    fn hear_next(
        &mut self,
        node: &Node,
        piece: Piece<'_>,
        notes: &mut Notes,
    ) -> Result<Heard, Memory> {
        let Some(left) = piece.length.checked_sub(piece.offset) else {
            return Ok(Heard::Nothing);
        };
        if left == 0 {
            return self.end(node, piece);
        }
        if piece.bytes.is_empty() || piece.bytes.len() as u64 > left {
            return Ok(Heard::Nothing);
        }
        self.text.extend_from_slice(piece.bytes)?;
        self.has_piece = true;
        self.ask_on(piece.sender, node, notes)?;
        Ok(Heard::Nothing)
    }

    fn end(&mut self, node: &Node, piece: Piece<'_>) -> Result<Heard, Memory> {
        let text = std::mem::replace(&mut self.text, Vec::new(self.alloc));
        self.begin();
        self.from = None;
        match self.certificate(node, piece)? {
            Some(certificate) => Ok(Heard::State(Fetched { text, certificate })),
            None => Ok(Heard::Nothing),
        }
    }

    fn settle(&mut self, node: &Node, piece: Piece<'_>) -> Result<Heard, Memory> {
        match self.certificate(node, piece)? {
            Some(certificate) => Ok(Heard::Shown(certificate)),
            None => Ok(Heard::Nothing),
        }
    }

    fn certificate(
        &mut self,
        node: &Node,
        piece: Piece<'_>,
    ) -> Result<Option<StableCheckpoint>, Memory> {
        let checkpoints = checkpoints_in(self.alloc, piece.bytes)?;
        self.collecting
            .collect(node, piece.sender, piece.number, checkpoints)
    }
}

fn may_settle(node: &Node, number: u64) -> bool {
    node.stable_number() < number && number <= node.last_executed()
}
