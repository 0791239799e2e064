ghost use Rattle.std.specs.Prelude.{◌≡◌, [], ◌∷◌, ◌++◌, map, OnOk};
ghost use Rattle.bfs_frames.specs.Parcels.{told_by};
ghost use Rattle.bfs_relay.specs.Parcels.{dropped_line, dropped_told, reply_told, request_told};

use bfs_frames::{Frame, Kind, Parcel, To};
use bfs_types::Memory;
use bfs_xdr::put_u64;
use std::alloc::Global;
use std::marker::Model;

/// What is told in a turn, in its order.
#[derive(Drop)]
pub(crate) struct Parcels {
    alloc: Global,
    parcels: Vec<Parcel>,
}

impl Model for Parcels {
    ghost use Rattle.std.specs.Prelude.{List, map};
    ghost use Rattle.bfs_frames.specs.Parcels.{Told, told_by};

    ghost Value = { List Told };

    ghost view = { λ told. map told_by told.parcels.items };
}

impl Parcels {
    /// Nothing yet. It takes no memory.
    pub fn new(alloc: Global) -> Parcels
        ensures { result ≡ [] }
    {
        Parcels {
            alloc,
            parcels: Vec::new(alloc),
        }
    }

    /// One replica, or all, are told a request's text. `Memory` if memory runs out.
    pub fn tell_request(&mut self, to: To, text: &[u8]) -> Result<(), Memory>
        ensures { OnOk result (self.new ≡ self.old ++ request_told to text.now ∷ []) }
    {
        let payload = Vec::from_slice(self.alloc, text)?;
        self.tell(to, Kind::Request, payload)
    }

    /// The caller with that ticket is told the reply, unless that has no bytes. `Memory` if memory runs out.
    pub fn tell_reply(&mut self, ticket: u64, reply: &[u8]) -> Result<(), Memory>
        ensures { OnOk result (self.new ≡ self.old ++ reply_told ticket reply.now) }
    {
        if reply.is_empty() {
            return Ok(());
        }
        let mut payload = Vec::new(self.alloc);
        put_u64(&mut payload, ticket)?;
        payload.extend_from_slice(reply)?;
        self.tell(To::Caller(ticket), Kind::Answer, payload)
    }

    /// The operator is told that calls are dropped. `Memory` if memory runs out.
    pub fn tell_dropped(&mut self) -> Result<(), Memory>
        ensures { OnOk result (self.new ≡ self.old ++ dropped_told ∷ []) }
    {
        let payload = Vec::from_slice(self.alloc, dropped_line())?;
        self.tell(To::Operator, Kind::Log, payload)
    }

    fn tell(&mut self, to: To, kind: Kind, payload: Vec<u8>) -> Result<(), Memory>
        ensures { OnOk result (self.new ≡ self.old ++ record { to = to; kind = kind; payload = payload.items } ∷ []) }
    {
        self.parcels.push(Parcel {
            to,
            frame: Frame { kind, payload },
        })?;
        Ok(())
    }

    /// What is told, so that nothing is left here.
    pub fn take(&mut self) -> Vec<Parcel>
        ensures taken { map told_by result.items ≡ self.old }
        ensures left { self.new ≡ [] }
    {
        std::mem::replace(&mut self.parcels, Vec::new(self.alloc))
    }
}

// what the operator reads
#[tactic(auto, unfolding(crate::specs::Parcels::dropped_line))]
fn dropped_line() -> &'static [u8]
    ensures { result.now ≡ dropped_line }
{
    b"calls are dropped: too many wait"
}
