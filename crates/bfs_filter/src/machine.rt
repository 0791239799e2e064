ghost use Rattle.std.specs.Prelude.{List, IfOk};
ghost use Rattle.std.specs.Thread.{IsSync};
ghost use Rattle.bfs_frames.specs.declared.frames.Turn.{Turn};
ghost use Rattle.bfs_frames.specs.declared.parcels.Parcel.{Parcel};

use crate::error::TurnError;
use bfs_frames::{Parcel, Turn};
use std::sync::Wait;
use std::thread::Threads;

/// What a filter does with a turn.
pub trait Machine {
    // from the machine before, the turn may give these parcels and the machine after
    ghost takes: { Self → Turn → List Parcel → Self → Type 0 };

    /// Takes a turn, and gives the parcels of its answer. After an `Err` the machine takes no further turn.
    fn turn<H: Threads + Wait + Sync>(
        &mut self,
        rt: &H,
        turn: Turn,
    ) -> Result<Vec<Parcel>, TurnError>
        // It is what the bound says, which the proof of a trait's method doesn't take from there.
        requires { IsSync H.row }
        ensures { IfOk result (λ parcels. takes self.old turn parcels.items self.new) };

    /// Does a little of what is due behind turns, a millisecond's work at most, such as making what later ones will need. It gives whether it did anything, so that
    /// there may be more to do. Nothing that is told hangs on it.
    fn rest(&self) -> bool;
}
