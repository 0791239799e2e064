//! Prints what the replicas of a run say to one another: `watch CONFIGURATION TRACE`. docs/CLUSTER.md says what a line has.
#![tactic(auto)]

mod lines;
mod run;

use crate::run::watch_trace;
use anyhow::{Context, Error};
use bfs_settings::parse_settings;
use bfs_trace::{Population, parse_trace};
use std::fs::File;
use std::io::Read;
use std::process::ExitCode;
use std::rt::Runtime;
use std::sync::Wait;
use std::thread::Threads;

fn main(rt: HostRuntime) -> ExitCode {
    match watch(&rt) {
        Ok(()) => ExitCode::SUCCESS,
        Err(error) => {
            // where standard error refuses too, the status alone tells
            let _ = eprintln!(rt; "watch: {error}");
            ExitCode::from(2)
        }
    }
}

fn watch<R: Runtime + AllocGlobal + Threads + Wait + Sync>(rt: &R) -> Result<(), Error> {
    let alloc = rt.alloc();
    let words: Vec<String> = std::env::args(rt)?.collect(alloc)?;
    let [_, configuration, trace] = words.as_slice() else {
        return Err(Error::msg("usage"));
    };
    let document = read(rt, configuration.as_str()).context("cannot read the configuration")?;
    let settings = parse_settings(alloc, document.as_slice())?;
    let text = read(rt, trace.as_str()).context("cannot read the trace")?;
    let population = Population::new(settings.clients(), settings.replicas()).context("usage")?;
    let trace = parse_trace(alloc, text.as_slice(), population)?;
    watch_trace(rt, &settings, trace.events())
}

fn read<R: Runtime + AllocGlobal>(rt: &R, path: &str) -> Result<Vec<u8>, Error> {
    let mut bytes = Vec::new(rt.alloc());
    File::open(rt, path)?.read_to_end(&mut bytes)?;
    Ok(bytes)
}
