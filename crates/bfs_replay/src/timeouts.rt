ghost use Rattle.std.specs.Prelude.{◌≡◌, ◌++◌, List, ℕ, filter, string_bytes, IfErr, IfOk, OnOk};
ghost use Rattle.bfs_clients.specs.Tallies.{waits};
ghost use Rattle.bfs_node.specs.Executing.{Runs};
ghost use Rattle.bfs_replay.specs.Inside.Settling.{TimesOut};
ghost use Rattle.bfs_replay.specs.Inside.Stopping.{EventStops};
ghost use Rattle.bfs_replay.specs.Output.{answered_lines, view_line, view_lines};
ghost use Rattle.bfs_replay.specs.Runs.{TimeoutRuns, higher_view};
ghost use Rattle.bfs_replay.specs.Writing.{Prints, Stops, Writes};
ghost use Rattle.bfs_trace.specs.declared.events.TraceEvent.TheVariants as event;

use crate::blocks::settle;
use crate::results::print_answered;
use crate::run::{ReplayError, Run};
use crate::writing::Output;
use bfs_clients::{Clients, Tallies, Tally};
use bfs_cluster::Cluster;
use bfs_messages::{Message, Signed};
use bfs_outcome::{Gate, Means};
use bfs_types::{Memory, Time};
use std::alloc::Global;
use std::io::Write;
use std::mem;
use std::sync::Wait;
use std::thread::Threads;

/// Replicas ask for the next view, and primaries propose what waits. A line tells the view, if it is a new one, and then there is one for
/// each waiting request that has a result now.
pub(crate) fn run_timeout<R: Threads + Wait + Sync, G: Gate + Sync, W: Write>(
    means: &Means<'_, R, G>,
    clients: &Clients,
    run: &mut Run,
    output: &mut Output<W>,
) -> Result<(), ReplayError>
    ensures ok { OnOk result ((lines : List ℕ) × TimeoutRuns (Runs G.ran means.now.executor.engine) clients.now run.old run.new lines × Writes output.old output.new lines) }
    ensures stops { IfErr result (λ error. Stops error output.old output.new (EventStops (Runs G.ran means.now.executor.engine) clients.now event.Timeout run.old)) }
{
    let before = run.view;
    tally_timeout(means, clients, run)?;
    print_timeout(
        means.alloc,
        before,
        run.view,
        run.waiting.as_slice(),
        output,
    )?;
    let waiting = mem::replace(&mut run.waiting, Tallies::new(means.alloc));
    run.waiting.append_waiting(waiting)?;
    Ok(())
}

// the replies are counted, once all has settled; those that have no result go on waiting
fn tally_timeout<R: Threads + Wait + Sync, G: Gate + Sync>(
    means: &Means<'_, R, G>,
    clients: &Clients,
    run: &mut Run,
) -> Result<(), Memory>
    ensures { OnOk result (TimeoutRuns (Runs G.ran means.now.executor.engine) clients.now run.old (record run.new { waiting = filter waits run.new.waiting }) (view_lines run.old.view run.new.view ++ answered_lines run.new.waiting)) }
{
    let (view, replies) = settle_timeout(means, &mut run.cluster, run.time)?;
    run.view = higher_view(run.view, view);
    run.waiting.add_all(means.rt, clients, &replies)?;
    Ok(())
}

// the view that 2f + 1 replicas are in, before what waits is proposed, and what is sent to clients until all has settled
fn settle_timeout<R: Threads + Wait + Sync, G: Gate + Sync>(
    means: &Means<'_, R, G>,
    cluster: &mut Cluster,
    time: Time,
) -> Result<(Option<u64>, Vec<Signed<Message>>), Memory>
    ensures { IfOk result (λ settled. TimesOut (Runs G.ran means.now.executor.engine) time cluster.old cluster.new settled.0 settled.1.items) }
{
    cluster.timeout()?;
    cluster.settle(means.rt, means.executor, means.gate)?;
    let view = cluster.common_view();
    cluster.propose_waiting(time)?;
    let replies = settle(means, cluster)?;
    Ok((view, replies))
}

fn higher_view(printed: u64, view: Option<u64>) -> u64
    ensures { result ≡ higher_view printed view }
{
    match view {
        Some(view) => printed.max(view),
        None => printed,
    }
}

fn print_timeout<W: Write>(
    alloc: Global,
    before: u64,
    view: u64,
    waiting: &[Tally],
    output: &mut Output<W>,
) -> Result<(), ReplayError>
    ensures { Prints result output.old output.new (view_lines before view ++ answered_lines waiting.now) }
{
    print_view(alloc, before, view, output)?;
    print_answered(alloc, waiting, output)?;
    Ok(())
}

fn print_view<W: Write>(
    alloc: Global,
    before: u64,
    view: u64,
    output: &mut Output<W>,
) -> Result<(), ReplayError>
    ensures { Prints result output.old output.new (view_lines before view) }
{
    if before >= view {
        return Ok(());
    }
    let line = view_line(alloc, view)?;
    output.write(line.as_bytes())
}

#[tactic(auto, unfolding(crate::specs::Output::view_line))]
fn view_line(alloc: Global, view: u64) -> Result<String, Memory>
    ensures { IfOk result (λ line. string_bytes line ≡ view_line view) }
{
    Ok(format!(in alloc; "view {view}\n")?)
}
