ghost use Rattle.std.specs.Prelude.{◌≡◌, IfOk, map};
ghost use Rattle.std.specs.List.{list_all};
ghost use Rattle.std.specs.Option.{option_map};
ghost use Rattle.bfs_model.specs.Server.Events.{is_done};
ghost use Rattle.bfs_overtaking.specs.Machine.{is_taken, is_waiting, reply_in};
ghost use Rattle.bfs_overtaking.specs.Seen.{slot_seen};
ghost use Rattle.bfs_overtaking.specs.declared.calls.State.TheVariants.{Waiting};

use bfs_footprint::Footprint;
use bfs_handover::Loans;
use bfs_types::Memory;
use std::alloc::Global;

// How far a call is.
#[derive(Debug, Drop)]
pub(crate) enum State {
    Waiting,
    // with the inodes that were lent out for it
    Taken(Loans),
    // with the bytes of its reply
    Finished(Vec<u8>),
}

impl State {
    pub(crate) fn is_waiting(&self) -> bool
        ensures { result ≡ is_waiting (slot_seen self.now) }
    {
        matches!(self, State::Waiting)
    }

    pub(crate) fn is_taken(&self) -> bool
        ensures { result ≡ is_taken (slot_seen self.now) }
    {
        matches!(self, State::Taken(_))
    }

    fn is_finished(&self) -> bool
        ensures { result ≡ is_done (slot_seen self.now) }
    {
        matches!(self, State::Finished(_))
    }

    pub(crate) fn reply(&self) -> Option<&[u8]>
        ensures { option_map (λ reply. reply.now) result ≡ reply_in (slot_seen self.now) }
    {
        match self {
            State::Finished(reply) => Some(reply.as_slice()),
            _ => None,
        }
    }
}

// A call of a group, with what it touches, and how far it is.
#[derive(Debug, Drop)]
pub(crate) struct Call {
    pub(crate) footprint: Footprint,
    pub(crate) state: State,
}

pub(crate) fn all_are_finished(calls: &[Call]) -> bool
    ensures { result ≡ list_all (λ call. is_done (slot_seen call.state)) calls.now }
{
    calls.iter().all(|call| call.state.is_finished())
}

// the calls of a group, all of which wait
pub(crate) fn all_waiting(alloc: Global, footprints: Vec<Footprint>) -> Result<Vec<Call>, Memory>
    ensures { IfOk result (λ calls. calls.items ≡ map (λ footprint. record { footprint = footprint; state = Waiting }) footprints.items) }
{
    let mut calls = Vec::new(alloc);
    for footprint in footprints {
        calls.push(Call {
            footprint,
            state: State::Waiting,
        })?;
    }
    Ok(calls)
}
