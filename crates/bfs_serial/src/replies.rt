ghost use Rattle.bfs_model.specs.Server.Limits.{most_reply_bytes};
ghost use Rattle.std.specs.Prelude.{◌≡◌, ◌<◌, ◌≤◌, ◌↔◌, [], ◌∷◌, ◌++◌, length, replicate, slice_get, slice_set, Some, IsTrue, OnOk, OnErr};

use bfs_types::Memory;
use std::alloc::Global;
use std::marker::Model;

#[derive(Debug, Drop)]
struct Reply {
    bytes: Vec<u8>,
}

impl Model for Reply {
    ghost use Rattle.std.specs.Prelude.{ℕ, List, ◌≤◌, length};
    ghost use Rattle.bfs_model.specs.Server.Limits.{most_reply_bytes};

    ghost Value = { List ℕ };

    ghost view = { λ reply. reply.bytes.items };

    ghost invariant = { λ reply. length reply.bytes.items ≤ most_reply_bytes };
}

impl Reply {
    fn as_slice(&self) -> &[u8]
        ensures value { result.now ≡ self.now }
        ensures within { length result.now ≤ most_reply_bytes }
    {
        self.bytes.as_slice()
    }
}

/// The replies to a batch's requests, in their order, as bytes; a request that can't be answered has a reply of no bytes.
#[derive(Debug, Drop)]
pub struct Replies {
    replies: Vec<Reply>,
}

impl Model for Replies {
    ghost use Rattle.std.specs.Prelude.{ℕ, List};

    ghost Value = { List (List ℕ) };

    ghost view = { λ replies. replies.replies.items };
}

impl Replies {
    /// No replies yet. This and what changes them are for executors.
    pub fn new(alloc: Global) -> Replies
        ensures { result ≡ [] }
    {
        Replies {
            replies: Vec::new(alloc),
        }
    }

    /// Puts the reply to the next request last: at most `MOST_REPLY_BYTES` bytes, none if the request can't be answered. `Memory` if
    /// memory runs out; then nothing changes.
    pub fn push(&mut self, bytes: Vec<u8>) -> Result<(), Memory>
        requires { length bytes.items ≤ most_reply_bytes }
        ensures ok { OnOk result (self.new ≡ self.old ++ bytes.items ∷ []) }
        ensures err { OnErr result (self.new ≡ self.old) }
    {
        self.replies.push(Reply { bytes })?;
        Ok(())
    }

    /// Makes so many places more behind the others, each of which has a reply of no bytes until `put` fills it. `Memory` if memory runs
    /// out; then nothing changes.
    #[tactic(auto, using(std::proofs::lemmas::List::replicate_more))]
    pub fn add_places(&mut self, alloc: Global, more: usize) -> Result<(), Memory>
        ensures ok { OnOk result (self.new ≡ self.old ++ replicate more []) }
        ensures err { OnErr result (self.new ≡ self.old) }
    {
        self.replies.reserve(more)?;
        for _ in 0..more {
            self.replies.push_reserved(Reply {
                bytes: Vec::new(alloc),
            });
        }
        Ok(())
    }

    /// Puts the reply to the request at that place, from 0 on, where another may be: at most `MOST_REPLY_BYTES` bytes, none if the
    /// request can't be answered. It takes no memory.
    pub fn put(&mut self, place: usize, bytes: Vec<u8>)
        requires within { place < length self.old }
        requires short { length bytes.items ≤ most_reply_bytes }
        ensures { self.new ≡ slice_set self.old place bytes.items }
    {
        self.replies[place] = Reply { bytes };
    }

    /// How many replies there are: as many as the batch has requests.
    pub fn len(&self) -> usize
        ensures { result ≡ length self.now }
    {
        self.replies.len()
    }

    /// Whether there are no replies.
    pub fn is_empty(&self) -> bool
        ensures { IsTrue result ↔ (self.now ≡ []) }
    {
        self.replies.is_empty()
    }

    /// The bytes of the reply to the request at that place, from 0 on: at most `MOST_REPLY_BYTES`.
    pub fn get(&self, index: usize) -> &[u8]
        requires { index < length self.now }
        ensures value { slice_get self.now index ≡ Some result.now }
        ensures within { length result.now ≤ most_reply_bytes }
    {
        self.replies[index].as_slice()
    }
}
