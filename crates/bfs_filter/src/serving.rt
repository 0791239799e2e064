ghost use Rattle.std.specs.Prelude.{◌≡◌, Some, [], IfErr, IfOk, IsTrue, OnOk};
ghost use Rattle.std.specs.Io.KnownBytes.{IsAtEnd};
ghost use Rattle.bfs_filter.specs.Runs.{EndsBefore, Serves, Stops, standing};

use crate::error::ServeError;
use crate::machine::Machine;
use crate::output::tell;
use bfs_frames::{Limits, read_turn};
use std::alloc::Global;
use std::io::{Read, Write};
use std::sync::Wait;
use std::thread::Threads;

/// Reads turns, has the machine take each, and writes its answer, until the input ends. A turn's answer is written once the machine has taken the turn, in
/// the turns' order. Before the first turn the machine rests until nothing is due, and behind each answer once. After an `Err` the process is to end: the reader may
/// stand within a turn, and a part of an answer may be written.
#[tactic(auto, using(crate::proofs::Folding::served_none, crate::proofs::Folding::served_more, crate::proofs::Folding::served_all))]
pub fn serve<M: Machine, H: Threads + Wait + Sync, R: Read, W: Write>(
    alloc: Global,
    rt: &H,
    machine: &mut M,
    limits: &Limits,
    reader: &mut R,
    writer: &mut W,
) -> Result<(), ServeError>
    // The input was turns, one behind another, and nothing else.
    ensures served { OnOk result (Serves M.takes limits.now
        (standing machine.old (R.remaining reader.old) (W.contents writer.old)) (standing machine.new (Some []) (W.contents writer.new))) }
    ensures stopped { IfErr result (λ error. Stops M.takes limits.now error
        (standing machine.old (R.remaining reader.old) (W.contents writer.old)) (standing machine.new (R.remaining reader.new) (W.contents writer.new))) }
{
    rest_fully(machine);
    for _ in rt.forever() {
        let _ = machine.rest();
        match serve_turn(alloc, rt, machine, limits, reader, writer) {
            Ok(true) => {}
            Ok(false) => return Ok(()),
            Err(error) => return Err(error),
        }
    }
    unreachable!()
}

fn rest_fully<M: Machine>(machine: &M) {
    for _ in 0..u64::MAX {
        if !machine.rest() {
            return;
        }
    }
}

// the next turn, if there is one; gives whether there was
#[tactic(auto, using(crate::proofs::Folding::served_one, crate::proofs::Folding::stops_at))]
fn serve_turn<M: Machine, H: Threads + Wait + Sync, R: Read, W: Write>(
    alloc: Global,
    rt: &H,
    machine: &mut M,
    limits: &Limits,
    reader: &mut R,
    writer: &mut W,
) -> Result<bool, ServeError>
    ensures served { IfOk result (λ more. IsTrue more → Serves M.takes limits.now
        (standing machine.old (R.remaining reader.old) (W.contents writer.old)) (standing machine.new (R.remaining reader.new) (W.contents writer.new))) }
    ensures end { IfOk result (λ more. EndsBefore more
        (standing machine.old (R.remaining reader.old) (W.contents writer.old)) (standing machine.new (R.remaining reader.new) (W.contents writer.new))) }
    ensures stopped { IfErr result (λ error. Stops M.takes limits.now error
        (standing machine.old (R.remaining reader.old) (W.contents writer.old)) (standing machine.new (R.remaining reader.new) (W.contents writer.new))) }
{
    let Some(turn) = read_turn(alloc, reader, limits)? else {
        return Ok(false);
    };
    let parcels = machine.turn(rt, turn)?;
    match tell(alloc, writer, &parcels) {
        Ok(()) => Ok(true),
        Err(error) => Err(ServeError::Write(error)),
    }
}
