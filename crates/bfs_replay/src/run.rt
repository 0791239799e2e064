ghost use Rattle.std.specs.Prelude.{◌≡◌, List, ℕ, Some, IfErr, IfOk, OnOk};
ghost use Rattle.std.specs.List.{filter_map};
ghost use Rattle.bfs_cluster.specs.Standings.{standings};
ghost use Rattle.bfs_cluster.specs.declared.standings.Standing.{Standing};
ghost use Rattle.bfs_node.specs.Executing.{Runs};
ghost use Rattle.bfs_replay.specs.Errors.{replay_error_code};
ghost use Rattle.bfs_replay.specs.Inside.Stopping.{EndStops, EventStops};
ghost use Rattle.bfs_replay.specs.Outcomes.{outcome_of};
ghost use Rattle.bfs_replay.specs.Output.{standing_lines};
ghost use Rattle.bfs_replay.specs.Runs.{EventRuns, EventsRun, EventsStop, TraceRuns, TraceStops, digest_in, new_run};
ghost use Rattle.bfs_replay.specs.Writing.{Stops, Writes};

use crate::blocks::run_block;
use crate::outcome::{Outcome, compare};
use crate::standings::{digests_in, print_standings};
use crate::timeouts::run_timeout;
use crate::writing::Output;
use bfs_clients::{Clients, Tallies};
use bfs_cluster::Cluster;
use bfs_outcome::{Executor, Gate, Means};
use bfs_settings::Settings;
use bfs_trace::{Trace, TraceEvent};
use bfs_types::{Memory, Time};
use std::alloc::Global;
use std::io::Write;
use std::marker::Model;
use std::sync::Wait;
use std::thread::Threads;
use thiserror::Error;

/// Why a run stopped. What it wrote stays, and is the beginning of its output.
#[derive(Clone, Copy, Debug, PartialEq, Eq, Error)]
pub enum ReplayError {
    /// The writer refused.
    #[error("the output can't be written")]
    WriteFault,
    /// Memory ran out.
    #[error("out of memory")]
    Memory,
}

impl ReplayError {
    /// The number of this refusal, apart from those of every other.
    pub fn code(self) -> u32
        ensures { result ≡ replay_error_code self }
    {
        match self {
            ReplayError::WriteFault => 39,
            ReplayError::Memory => 40,
        }
    }
}

impl From<Memory> for ReplayError {
    ghost use Rattle.bfs_replay.specs.declared.run.ReplayError.{ReplayError};

    ghost from_gives = { λ _ error. error ≡ ReplayError.Memory };

    fn from(_error: Memory) -> ReplayError {
        ReplayError::Memory
    }
}

/// The replicas of a run, and what is kept from one event to the next.
#[derive(Drop)]
pub(crate) struct Run {
    pub cluster: Cluster,
    pub waiting: Tallies,
    // the last block's
    pub time: Time,
    // the one that was printed last
    pub view: u64,
}

impl Model for Run {
    ghost use Rattle.bfs_replay.specs.Runs as model;
    ghost use Rattle.std.specs.Coded.{codes};
    ghost use Rattle.bfs_serial.specs.Codes.{inodes_code};

    ghost Value = { model.Run };

    ghost coded = { Prim.hlevel (codes, inodes_code) };

    ghost view = { λ run. record { world = run.cluster; waiting = run.waiting; time = run.time; view = run.view } };
}

/// Lets the events of a trace happen one after another to new replicas, as many as the settings ask for, in this process. The requests
/// of a block are signed by their clients and come to each replica that is heard; the primary proposes them as one batch, and the replicas
/// order and execute it, each by the executor: replica i with i workers more than the first. Where there is an engine, the gate runs the
/// requests, but those that may touch any inode. Then a line is written for each request: `c<client> t<timestamp> <result>`, the result in
/// lower-case hexadecimal digits, `-` where it has no bytes, and `none` where no `f + 1` replicas sent one. At a timeout the replicas ask
/// for the next view: `view <view>` is written once 2f + 1 replicas are in it, its primary proposes the requests that wait, and those whose
/// line told no result have a line as soon as there is one. At the end each replica that is heard and has executed the most has a line
/// `digest <replica> <digest>`, and each other one that is heard a line `behind <replica> <number last executed>`. What is written depends
/// on the settings and the trace alone.
/// `WriteFault` only where the writer has refused bytes. `Memory` only if memory runs out, in the writer too; it has refused none then.
pub fn run_trace<R: AllocGlobal + Threads + Wait + Sync, W: Write, G: Gate + Sync>(
    rt: &R,
    settings: &Settings,
    trace: &Trace,
    executor: Executor,
    gate: &G,
    output: &mut Output<W>,
) -> Result<Outcome, ReplayError>
    ensures ok { IfOk result (λ outcome. (lines : List ℕ) × TraceRuns (Runs G.ran executor.engine) settings.now trace.now lines outcome × Writes output.old output.new lines) }
    ensures stops { IfErr result (λ error. Stops error output.old output.new (TraceStops (Runs G.ran executor.engine) settings.now trace.now)) }
{
    let alloc = rt.alloc();
    let means = Means {
        rt,
        alloc,
        executor,
        gate,
    };
    let clients = Clients::new(alloc, settings)?;
    let mut run = new_run(alloc, settings)?;
    run_events(&means, &clients, &mut run, trace.events(), output)?;
    let outcome = end(rt, alloc, &run, output)?;
    Ok(outcome)
}

fn new_run(alloc: Global, settings: &Settings) -> Result<Run, Memory>
    ensures { IfOk result (λ run. run ≡ new_run settings.now) }
{
    Ok(Run {
        cluster: Cluster::new(alloc, settings)?,
        waiting: Tallies::new(alloc),
        time: Time::epoch(),
        view: 0,
    })
}

// one after another
fn run_events<R: Threads + Wait + Sync, G: Gate + Sync, W: Write>(
    means: &Means<'_, R, G>,
    clients: &Clients,
    run: &mut Run,
    events: &[TraceEvent],
    output: &mut Output<W>,
) -> Result<(), ReplayError>
    ensures ok { OnOk result ((lines : List ℕ) × EventsRun (Runs G.ran means.now.executor.engine) clients.now events.now run.old run.new lines × Writes output.old output.new lines) }
    ensures stops { IfErr result (λ error. Stops error output.old output.new (EventsStop (Runs G.ran means.now.executor.engine) clients.now events.now run.old)) }
{
    for event in events {
        run_event(means, clients, run, event, output)?;
    }
    Ok(())
}

fn run_event<R: Threads + Wait + Sync, G: Gate + Sync, W: Write>(
    means: &Means<'_, R, G>,
    clients: &Clients,
    run: &mut Run,
    event: &TraceEvent,
    output: &mut Output<W>,
) -> Result<(), ReplayError>
    ensures ok { OnOk result ((lines : List ℕ) × EventRuns (Runs G.ran means.now.executor.engine) clients.now event.now run.old run.new lines × Writes output.old output.new lines) }
    ensures stops { IfErr result (λ error. Stops error output.old output.new (EventStops (Runs G.ran means.now.executor.engine) clients.now event.now run.old)) }
{
    match event {
        TraceEvent::Block(block) => run_block(means, clients, run, block, output),
        TraceEvent::Silent(replica) => {
            run.cluster.silence(*replica);
            Ok(())
        }
        TraceEvent::Heard(replica) => {
            run.cluster.hear(*replica);
            Ok(())
        }
        TraceEvent::Timeout => run_timeout(means, clients, run, output),
    }
}

// where replicas stand is written, and they are compared
fn end<R: Threads + Sync, W: Write>(
    rt: &R,
    alloc: Global,
    run: &Run,
    output: &mut Output<W>,
) -> Result<Outcome, ReplayError>
    ensures ok { IfOk result (λ outcome. (stands : List Standing) × (standings run.now.world ≡ Some stands) × (outcome ≡ outcome_of (filter_map digest_in stands)) × Writes output.old output.new (standing_lines stands)) }
    ensures stops { IfErr result (λ error. Stops error output.old output.new (EndStops run.now.world)) }
{
    let standings = run.cluster.standings(rt)?;
    print_standings(alloc, &standings, output)?;
    let digests = digests_in(alloc, &standings)?;
    Ok(compare(&digests))
}
