//! What liars sign, under their own names and under others'.
use crate::past::{checkpoints_of, has_sender, prepares_on, proposal_on};
use crate::sets::Set;
use crate::world::World;
use bfs_auth::{Authenticator, KeyedHashes, Keys, sign_text_for_client};
use bfs_messages::{
    Checkpoint, Message, NewView, OrderMessage, OrderedBatch, PrePrepare, PreparedBatch, Reply,
    Signed, ViewChange, Vote, sign_new_view, sign_order, sign_prepare, sign_proposal,
    sign_view_change,
};
use bfs_testing_nodes::members::Members;
use bfs_types::{MOST_REPLY_BYTES, Memory, Time};
use bfs_view_change::{choice_of, make_new_view};
use std::alloc::Global;
use std::sync::Arc;

/// One that lies.
#[derive(Drop)]
pub struct Liar {
    alloc: Global,
    pub number: u32,
    keys: Keys,
}

/// A batch without requests of that second, or the null request at 0.
pub fn batch_of(alloc: Global, second: u32) -> Result<Arc<OrderedBatch>, Memory> {
    let batch = match Time::new(second, 0) {
        Some(time) if second != 0 => OrderedBatch::new(time, Vec::new(alloc)),
        _ => OrderedBatch::null(),
    };
    Ok(Arc::new(alloc, batch)?)
}

/// The message with entries that are wrong for some receivers.
pub fn spoiled<T: Drop>(alloc: Global, signed: Signed<T>, wrong: Set) -> Result<Signed<T>, Memory> {
    let Signed { message, auth } = signed;
    let mut made = KeyedHashes::new(alloc);
    for (place, entry) in auth.entries().iter().enumerate() {
        let mut bytes = *entry;
        if wrong.has(place) {
            bytes[31] ^= 1;
        }
        if made.as_slice().len() < 31 {
            made.push(bytes)?;
        }
    }
    Ok(Signed {
        message,
        auth: Authenticator::Hashes(made),
    })
}

impl Liar {
    pub fn new(alloc: Global, members: Members, number: u32) -> Result<Liar, Memory> {
        Ok(Liar::with_keys(alloc, number, members.keys_of(alloc, number)?))
    }

    /// The replica of that number, with keys of its own.
    pub fn with_keys(alloc: Global, number: u32, keys: Keys) -> Liar {
        Liar {
            alloc,
            number,
            keys,
        }
    }

    fn sign(&self, message: OrderMessage) -> Result<Signed<Message>, Memory> {
        Ok(sign_order(self.alloc, &self.keys, message)?.into_message())
    }

    /// A PRE-PREPARE, whoever leads the view.
    pub fn proposal(
        &self,
        view: u64,
        number: u64,
        batch: &Arc<OrderedBatch>,
    ) -> Result<Signed<Message>, Memory> {
        let batch = Arc::try_clone(batch)?;
        let proposal = PrePrepare::new(self.number, view % (1 << 63), number % (1 << 63), batch);
        self.sign(OrderMessage::PrePrepare(proposal))
    }

    /// A PREPARE in somebody's name.
    pub fn prepare(&self, sender: u32, on: &Vote) -> Result<Signed<Message>, Memory> {
        let vote = Vote::new(sender, on.view(), on.number(), *on.digest());
        self.sign(OrderMessage::Prepare(vote))
    }

    /// A COMMIT in somebody's name.
    pub fn commit(&self, sender: u32, on: &Vote) -> Result<Signed<Message>, Memory> {
        let vote = Vote::new(sender, on.view(), on.number(), *on.digest());
        self.sign(OrderMessage::Commit(vote))
    }

    /// A CHECKPOINT with that digest.
    pub fn checkpoint(&self, number: u64, digest: [u8; 32]) -> Result<Signed<Message>, Memory> {
        let checkpoint = Checkpoint::new(self.number, number % (1 << 63), digest);
        self.sign(OrderMessage::Checkpoint(checkpoint))
    }

    /// A REPLY to a client in a replica's name.
    pub fn reply(
        &self,
        sender: u32,
        client: u32,
        timestamp: u64,
        bytes: &[u8],
    ) -> Result<Signed<Message>, Memory> {
        if client as usize >= self.keys.clients() || bytes.len() > MOST_REPLY_BYTES {
            return Err(Memory);
        }
        let reply = Reply::new(self.alloc, sender, 0, client, timestamp, bytes)?;
        let message = Message::Reply(reply);
        let auth = sign_text_for_client(self.alloc, &self.keys, client, &message)?;
        Ok(Signed { message, auth })
    }

    fn change(
        &self,
        view: u64,
        stable: u64,
        checkpoints: Vec<Signed<Checkpoint>>,
        certificates: Vec<PreparedBatch>,
    ) -> Result<Signed<ViewChange>, Memory> {
        if checkpoints.len() > 31 || certificates.len() > 32 {
            return Err(Memory);
        }
        let change = ViewChange::new(
            self.number,
            view % (1 << 63),
            stable % (1 << 63),
            checkpoints,
            certificates,
        );
        sign_view_change(self.alloc, &self.keys, change)
    }

    /// A VIEW-CHANGE that tells nothing of what was prepared.
    pub fn bare_change(&self, view: u64) -> Result<Signed<ViewChange>, Memory> {
        self.change(view, 0, Vec::new(self.alloc), Vec::new(self.alloc))
    }

    /// A VIEW-CHANGE with a certificate.
    pub fn change_with(
        &self,
        view: u64,
        certificate: PreparedBatch,
    ) -> Result<Signed<ViewChange>, Memory> {
        let mut certificates = Vec::new(self.alloc);
        certificates.push(certificate)?;
        self.change(view, 0, Vec::new(self.alloc), certificates)
    }

    /// A VIEW-CHANGE behind a number, with what CHECKPOINTs of it were sent.
    pub fn change_behind(
        &self,
        world: &World,
        view: u64,
        stable: u64,
    ) -> Result<Signed<ViewChange>, Memory> {
        let checkpoints = checkpoints_of(world, stable)?;
        self.change(view, stable, checkpoints, Vec::new(self.alloc))
    }

    /// A certificate of a PRE-PREPARE, with all PREPAREs on it that were sent. Where it is to be forged, this liar signs in the names of the
    /// others too.
    pub fn certificate(
        &self,
        world: &World,
        on: &Vote,
        is_forged: bool,
    ) -> Result<Option<PreparedBatch>, Memory> {
        let Some(proposal) = proposal_on(world, on)? else {
            return Ok(None);
        };
        let mut prepares = prepares_on(world, on)?;
        for sender in 0..(world.nodes.len() % 32) as u32 {
            if (is_forged || sender == self.number)
                && sender != on.sender()
                && !has_sender(&prepares, sender)
            {
                let vote = Vote::new(sender, on.view(), on.number(), *on.digest());
                prepares.push(sign_prepare(self.alloc, &self.keys, vote)?)?;
            }
        }
        if prepares.len() > 31 {
            return Ok(None);
        }
        Ok(Some(PreparedBatch::new(proposal, prepares)))
    }

    /// A NEW-VIEW from VIEW-CHANGEs, with what they choose.
    pub fn right_view(
        &self,
        view: u64,
        changes: &[Signed<ViewChange>],
    ) -> Result<Option<Signed<Message>>, Memory> {
        let choice = choice_of(self.alloc, changes)?;
        if choice.chosen().len() > 32 || changes.len() > 31 {
            return Ok(None);
        }
        let new = make_new_view(
            self.alloc,
            &self.keys,
            self.number,
            view % (1 << 63),
            changes,
            &choice,
        )?;
        Ok(Some(new_as_message(new)))
    }

    /// A NEW-VIEW from VIEW-CHANGEs, which proposes batches without requests of that second, or null requests at 0, for the numbers that
    /// follow one.
    pub fn wrong_view(
        &self,
        view: u64,
        changes: Vec<Signed<ViewChange>>,
        behind: u64,
        count: u64,
        second: u32,
    ) -> Result<Signed<Message>, Memory> {
        let batch = batch_of(self.alloc, second)?;
        let mut proposals = Vec::new(self.alloc);
        for ahead in 0..count % 8 {
            let number = behind.wrapping_add(ahead + 1) % (1 << 63);
            let batch = Arc::try_clone(&batch)?;
            let proposal = PrePrepare::new(self.number, view % (1 << 63), number, batch);
            proposals.push(sign_proposal(self.alloc, &self.keys, proposal)?)?;
        }
        if changes.len() > 31 || proposals.len() > 32 {
            return Err(Memory);
        }
        let new = NewView::new(self.number, view % (1 << 63), changes, proposals);
        let new = sign_new_view(self.alloc, &self.keys, new)?;
        Ok(new_as_message(new))
    }
}

fn new_as_message(new: Signed<NewView>) -> Signed<Message> {
    let Signed { message, auth } = new;
    Signed {
        message: Message::NewView(message),
        auth,
    }
}

/// A VIEW-CHANGE as a message.
pub fn as_message(change: Signed<ViewChange>) -> Signed<Message> {
    let Signed { message, auth } = change;
    Signed {
        message: Message::ViewChange(message),
        auth,
    }
}
