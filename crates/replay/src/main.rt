//! Replays a trace of NFS calls: `replay [--workers N] [--engine runs|levels|serial] [--config FILE] TRACE`. docs/TRACE.md says what a trace is and what is printed.
#![tactic(auto)]

use bfs_replay::{
    Failure, NoGate, Output, Settings, default_settings, options, parse_settings, parse_trace,
    population_of, read_input, run_trace,
};
use std::fs::File;
use std::io;
use std::io::{BufWriter, ErrorKind, Write};
use std::process::ExitCode;
use std::rt::Runtime;
use std::sync::Wait;
use std::thread::Threads;

fn main(rt: HostRuntime) -> ExitCode {
    match replay(&rt, rt.stdout()) {
        Ok(()) => ExitCode::SUCCESS,
        Err(failure) => {
            // where standard error refuses too, the status alone tells
            let _ = eprintln!(rt; "replay: {failure}");
            ExitCode::from(failure.status())
        }
    }
}

/// Faults come in this order: the words, reading the settings, what they say, reading the trace, its lines, the run with its output,
/// and the comparison of its replicas.
fn replay<R: Runtime + AllocGlobal + Threads + Wait + Sync, W: Write + Drop>(
    rt: &R,
    output: W,
) -> Result<(), Failure> {
    let alloc = rt.alloc();
    let words: Vec<String> = std::env::args(rt)
        .map_err(|error| memory_or(error, Failure::Usage))?
        .collect(alloc)
        .map_err(|_| Failure::Memory)?;
    // by `match`, since the prover's borrow checker has no rule for these options by value, as `?` takes them
    let options = match options(alloc, words.as_slice()) {
        Ok(options) => options,
        Err(error) => return Err(Failure::from(error)),
    };
    let settings = settings_at(rt, options.config)?;
    let text = read_file(rt, options.trace)?;
    let trace = parse_trace(alloc, text.as_slice(), population_of(&settings))?;
    let mut out = BufWriter::new(alloc, output).map_err(not_written)?;
    let outcome = run_trace(
        rt,
        &settings,
        &trace,
        options.executor,
        &NoGate,
        &mut Output::new(&mut out),
    )?;
    out.flush().map_err(not_written)?;
    match outcome.failure() {
        Some(failure) => Err(failure),
        None => Ok(()),
    }
}

/// The settings that a file says, or the default where there is none.
fn settings_at<R: Runtime + AllocGlobal>(rt: &R, path: Option<&str>) -> Result<Settings, Failure> {
    let alloc = rt.alloc();
    match path {
        Some(path) => {
            let document = read_file(rt, path)?;
            Ok(parse_settings(alloc, document.as_slice())?)
        }
        None => default_settings(alloc).map_err(|_| Failure::Memory),
    }
}

/// All bytes of a file.
fn read_file<R: Runtime + AllocGlobal>(rt: &R, path: &str) -> Result<Vec<u8>, Failure> {
    let file = File::open(rt, path).map_err(|error| memory_or(error, Failure::Input))?;
    read_input(rt.alloc(), file)
}

fn not_written(error: io::Error) -> Failure {
    memory_or(error, Failure::Output)
}

/// Memory may run out in input and output too.
fn memory_or(error: io::Error, failure: Failure) -> Failure {
    if error.kind() == ErrorKind::OutOfMemory {
        Failure::Memory
    } else {
        failure
    }
}
