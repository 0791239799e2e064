//! The relay of the file service: `relay CLUSTER_TOML COUNTER_FILE [--key RELAY_KEY INDEX_FILE] CLIENT_TOML..`. Turns come on standard input, and what it tells of
//! each goes to standard output. It speaks for the clients whose keys it is given, and keeps the number of their next timestamp in the counter's file. Where the
//! cluster's clients sign their requests, it signs by the relay's key, and keeps the number of its next index in the index file. docs/SERVICE.md says more.
#![tactic(auto)]

mod counter_file;
mod signer;

use crate::counter_file::CounterFile;
use crate::signer::signer_at;
use anyhow::{Context, Error};
use bfs_auth::{Keys, Principal};
use bfs_deployment::{Deployment, parse_deployment};
use bfs_filter::{Machine, serve};
use bfs_relaying::Reserving;
use bfs_settings::parse_keys;
use bfs_signing::Signing;
use std::io::BufReader;
use std::process::ExitCode;
use std::rt::Runtime;
use std::sync::Wait;
use std::thread::Threads;
use std::{fs, io};

fn main(rt: HostRuntime) -> ExitCode {
    match run(&rt) {
        Ok(()) => ExitCode::SUCCESS,
        Err(error) => {
            // where standard error refuses too, the status alone tells
            let _ = eprintln!(rt; "relay: {error:#}");
            ExitCode::from(2)
        }
    }
}

/// The files that a relay is given, by their paths.
#[derive(Clone, Copy)]
struct Files<'a> {
    cluster: &'a str,
    counter: &'a str,
    signing: Option<SigningFiles<'a>>,
    clients: &'a [String],
}

/// Those of one that signs.
#[derive(Clone, Copy)]
struct SigningFiles<'a> {
    key: &'a str,
    indexes: &'a str,
}

const USAGE: &str =
    "usage: relay CLUSTER_TOML COUNTER_FILE [--key RELAY_KEY INDEX_FILE] CLIENT_TOML..";

fn files_in(words: &[String]) -> Option<Files<'_>> {
    let [_, cluster, counter, rest @ ..] = words else {
        return None;
    };
    let (signing, clients) = signing_files_in(rest)?;
    if clients.is_empty() {
        return None;
    }
    Some(Files {
        cluster: cluster.as_str(),
        counter: counter.as_str(),
        signing,
        clients,
    })
}

// and what stands behind them
fn signing_files_in(words: &[String]) -> Option<(Option<SigningFiles<'_>>, &[String])> {
    match words {
        [option, key, indexes, rest @ ..] if option.as_str() == "--key" => {
            let files = SigningFiles {
                key: key.as_str(),
                indexes: indexes.as_str(),
            };
            Some((Some(files), rest))
        }
        [option, ..] if option.as_str() == "--key" => None,
        _ => Some((None, words)),
    }
}

/// Serves standard input to its end.
fn run<R: Runtime + AllocGlobal + Threads + Wait + Sync>(rt: &R) -> Result<(), Error> {
    let alloc = rt.alloc();
    let words: Vec<String> = std::env::args(rt)?.collect(alloc)?;
    let Some(files) = files_in(&words) else {
        return Err(Error::msg(USAGE));
    };
    let deployment = deployment_at(rt, files.cluster).context(String::from_str(
        alloc,
        files.cluster,
    )?)?;
    let keys = all_keys(rt, &deployment, files.clients)?;
    match files.signing {
        Some(signing) => sign_for(rt, &deployment, files.counter, signing, keys),
        None => speak_for(rt, &deployment, files.counter, keys),
    }
}

fn counter_at<'a, R: Runtime + AllocGlobal>(
    rt: &'a R,
    path: &'a str,
) -> Result<CounterFile<'a, R>, Error> {
    CounterFile::open(rt, path).context(String::from_str(rt.alloc(), path)?)
}

/// Speaks for the clients whose keys these are, with the counter's file at that path.
fn speak_for<R: Runtime + AllocGlobal + Threads + Wait + Sync>(
    rt: &R,
    deployment: &Deployment,
    counter: &str,
    keys: Vec<Keys>,
) -> Result<(), Error> {
    if !deployment.signers().is_empty() {
        return Err(Error::msg("the cluster's clients sign their requests: --key is missing"));
    }
    let store = counter_at(rt, counter)?;
    let mut relay = Reserving::of_keys(rt.alloc(), deployment.f(), keys, store)?;
    answer(rt, deployment, &mut relay)
}

/// Speaks and signs for the clients whose keys these are.
fn sign_for<R: Runtime + AllocGlobal + Threads + Wait + Sync>(
    rt: &R,
    deployment: &Deployment,
    counter: &str,
    files: SigningFiles<'_>,
    keys: Vec<Keys>,
) -> Result<(), Error> {
    let alloc = rt.alloc();
    let signer = signer_at(rt, deployment, &keys, files.key).context(String::from_str(
        alloc, files.key,
    )?)?;
    let indexes = counter_at(rt, files.indexes)?;
    let store = counter_at(rt, counter)?;
    let relay = Reserving::of_keys(alloc, deployment.f(), keys, store)?;
    let mut relay = Signing::new(alloc, relay, signer, indexes);
    answer(rt, deployment, &mut relay)
}

fn answer<R: Runtime + AllocGlobal + Threads + Wait + Sync, M: Machine>(
    rt: &R,
    deployment: &Deployment,
    relay: &mut M,
) -> Result<(), Error> {
    let alloc = rt.alloc();
    let mut reader = BufReader::new(alloc, rt.reader())?;
    let mut writer = io::writer(rt);
    serve(
        alloc,
        rt,
        relay,
        &deployment.limits(),
        &mut reader,
        &mut writer,
    )?;
    Ok(())
}

fn deployment_at<R: Runtime + AllocGlobal>(rt: &R, path: &str) -> Result<Deployment, Error> {
    let document = fs::read(rt, path)?;
    Ok(parse_deployment(rt.alloc(), document.as_slice())?)
}

/// The keys of different clients.
fn all_keys<R: Runtime + AllocGlobal>(
    rt: &R,
    deployment: &Deployment,
    paths: &[String],
) -> Result<Vec<Keys>, Error> {
    let mut all: Vec<Keys> = Vec::new(rt.alloc());
    for path in paths {
        let keys = further_keys_at(rt, deployment, &all, path.as_str()).context(path.clone()?)?;
        all.push(keys)?;
    }
    Ok(all)
}

/// The keys of a client of that cluster, whose keys are not among these.
fn further_keys_at<R: Runtime + AllocGlobal>(
    rt: &R,
    deployment: &Deployment,
    all: &[Keys],
    path: &str,
) -> Result<Keys, Error> {
    let keys = keys_at(rt, deployment, path)?;
    if has_keys_of(all, keys.me()) {
        return Err(Error::msg("the keys of this client are given twice"));
    }
    Ok(keys)
}

fn has_keys_of(all: &[Keys], me: Principal) -> bool {
    all.iter().any(|keys| keys.me() == me)
}

/// The keys of a client of that cluster.
fn keys_at<R: Runtime + AllocGlobal>(
    rt: &R,
    deployment: &Deployment,
    path: &str,
) -> Result<Keys, Error> {
    let document = fs::read(rt, path)?;
    let keys = parse_keys(rt.alloc(), document.as_slice())?;
    if !is_client(keys.me(), deployment.clients()) {
        return Err(Error::msg("these are not the keys of a client of the cluster"));
    }
    if keys.replicas() != deployment.replicas().len() {
        return Err(Error::msg("there are other replicas in the cluster"));
    }
    Ok(keys)
}

fn is_client(me: Principal, clients: u32) -> bool {
    match me {
        Principal::Client(number) => number < clients,
        Principal::Replica(_) => false,
    }
}
