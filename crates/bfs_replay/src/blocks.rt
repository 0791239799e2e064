ghost use Rattle.std.specs.Prelude.{◌≡◌, ◌++◌, List, ℕ, filter, map, IfErr, IfOk, OnOk};
ghost use Rattle.bfs_clients.specs.Tallies.{no_replies, waits};
ghost use Rattle.bfs_cluster.specs.Blocks.{with_block};
ghost use Rattle.bfs_node.specs.Executing.{Runs};
ghost use Rattle.bfs_replay.specs.Inside.Results.{tally_lines};
ghost use Rattle.bfs_replay.specs.Inside.Settling.{SettlesAnd};
ghost use Rattle.bfs_replay.specs.Inside.Stopping.{EventStops};
ghost use Rattle.bfs_replay.specs.Runs.{BlockRuns, as_message, sent_requests};
ghost use Rattle.bfs_replay.specs.Writing.{Stops, Writes};
ghost use Rattle.bfs_trace.specs.declared.events.TraceEvent.TheVariants as event;

use crate::results::print_results;
use crate::run::{ReplayError, Run};
use crate::writing::Output;
use bfs_clients::{Clients, Tallies, Tally};
use bfs_cluster::Cluster;
use bfs_messages::{Message, Request, Signed};
use bfs_outcome::{Gate, Means};
use bfs_trace::Block;
use bfs_types::Memory;
use std::alloc::Global;
use std::io::Write;
use std::sync::Wait;
use std::thread::Threads;

/// A block is sent, and all settles. A line is written for each request, and those that have no result wait.
pub(crate) fn run_block<R: Threads + Wait + Sync, G: Gate + Sync, W: Write>(
    means: &Means<'_, R, G>,
    clients: &Clients,
    run: &mut Run,
    block: &Block,
    output: &mut Output<W>,
) -> Result<(), ReplayError>
    ensures ok { OnOk result ((lines : List ℕ) × BlockRuns (Runs G.ran means.now.executor.engine) clients.now block.now run.old run.new lines × Writes output.old output.new lines) }
    ensures stops { IfErr result (λ error. Stops error output.old output.new (EventStops (Runs G.ran means.now.executor.engine) clients.now (event.Block block.now) run.old)) }
{
    let tallies = tally_block(means, clients, run, block)?;
    print_results(means.alloc, tallies.as_slice(), output)?;
    run.waiting.append_waiting(tallies)?;
    Ok(())
}

// the tallies of its requests, once all has settled; those that have no result are to wait
fn tally_block<R: Threads + Wait + Sync, G: Gate + Sync>(
    means: &Means<'_, R, G>,
    clients: &Clients,
    run: &mut Run,
    block: &Block,
) -> Result<Tallies, Memory>
    ensures { IfOk result (λ tallies. BlockRuns (Runs G.ran means.now.executor.engine) clients.now block.now run.old (record run.new { waiting = run.new.waiting ++ filter waits tallies }) (tally_lines tallies)) }
{
    let replies = settle_block(means, clients, &mut run.cluster, block)?;
    let passes = clients.are_signed(means.rt, &replies)?;
    run.waiting.add_checked(clients, &replies, &passes)?;
    let mut tallies = begun(means.alloc, clients, block.requests())?;
    tallies.add_checked(clients, &replies, &passes)?;
    run.time = block.time();
    Ok(tallies)
}

// the tallies of requests, with no reply yet
fn begun(
    alloc: Global,
    clients: &Clients,
    requests: &[bfs_trace::Request],
) -> Result<Tallies, Memory>
    ensures { IfOk result (λ tallies. tallies ≡ map (λ request. no_replies clients.now.f request.client request.timestamp) requests.now) }
{
    let mut tallies = Tallies::new(alloc);
    for request in requests {
        let (client, timestamp) = (request.client(), request.timestamp());
        tallies.push(Tally::new(alloc, clients.f(), client, timestamp))?;
    }
    Ok(tallies)
}

// what is sent to clients until all has settled
fn settle_block<R: Threads + Wait + Sync, G: Gate + Sync>(
    means: &Means<'_, R, G>,
    clients: &Clients,
    cluster: &mut Cluster,
    block: &Block,
) -> Result<Vec<Signed<Message>>, Memory>
    ensures { IfOk result (λ replies. SettlesAnd (Runs G.ran means.now.executor.engine) (with_block cluster.old block.now.time (sent_requests clients.now block.now.requests)) cluster.new replies.items) }
{
    let requests = requests_in(means.alloc, block)?;
    let signed = clients.sign_all(means.rt, &requests)?;
    cluster.send_block(means.rt, block.time(), &signed)?;
    settle(means, cluster)
}

/// All settles. Gives what was sent to clients since it was asked for last.
pub(crate) fn settle<R: Threads + Wait + Sync, G: Gate + Sync>(
    means: &Means<'_, R, G>,
    cluster: &mut Cluster,
) -> Result<Vec<Signed<Message>>, Memory>
    ensures { IfOk result (λ replies. SettlesAnd (Runs G.ran means.now.executor.engine) cluster.old cluster.new replies.items) }
{
    cluster.settle(means.rt, means.executor, means.gate)?;
    Ok(cluster.take_replies())
}

fn requests_in(alloc: Global, block: &Block) -> Result<Vec<Request>, Memory>
    ensures { IfOk result (λ requests. requests.items ≡ map as_message block.now.requests) }
{
    let mut requests = Vec::with_capacity(alloc, block.requests().len())?;
    for request in block.requests() {
        requests.push(request_in(alloc, request)?)?;
    }
    Ok(requests)
}

fn request_in(alloc: Global, request: &bfs_trace::Request) -> Result<Request, Memory>
    ensures { IfOk result (λ message. message ≡ as_message request.now) }
{
    Ok(Request::new(alloc, request.client(), request.timestamp(), request.call())?)
}
