//! A replica of the file service: `replica CLUSTER_TOML REPLICA_TOML FOLDER [--key REPLICA_KEY] [--new] [--damaged]`. Turns come on standard input, and what it
//! tells of each goes to standard output. What it does it keeps in the folder, before it tells it; a later process with that folder goes on as the same replica.
//! Where the cluster's replicas sign, it signs by its key. docs/SERVICE.md says more.
#![tactic(auto)]

ghost use Rattle.std.specs.Prelude.{◌≤◌, length};
ghost use Rattle.bfs_model.specs.Server.Limits.{most_clients};
ghost use Rattle.bfs_auth.specs.Principals.{number_of};
ghost use Rattle.bfs_auth.specs.Replicas.{AreOfReplica};
ghost use Rattle.bfs_log.specs.Certificates.{faults};

mod folder;
mod keys;
mod notes;
mod same_keys;
mod signer;

use crate::folder::{Held, ReplicaFolder};
use crate::keys::keys_at;
use crate::same_keys::{are_noted, digest_at, note_keys};
use anyhow::{Context, Error};
use bfs_auth::Keys;
use bfs_deployment::{Deployment, parse_deployment};
use bfs_filter::serve;
use bfs_frames::Limits;
use bfs_journal::{Recovered, Rest, read_journal};
use bfs_node::{Executor, Node};
use bfs_recovery::{Keeping, recover};
use bfs_service::Terms;
use std::fs::{File, Files};
use std::io::BufReader;
use std::process::ExitCode;
use std::rt::Runtime;
use std::sync::Wait;
use std::thread::Threads;
use std::{fs, io};

fn main(rt: HostRuntime) -> ExitCode {
    match run(&rt) {
        Ok(()) => ExitCode::SUCCESS,
        Err(error) => {
            // where standard error refuses too, the status alone tells
            let _ = eprintln!(rt; "replica: {error:#}");
            ExitCode::from(2)
        }
    }
}

/// Where a replica's documents and its folder are.
#[derive(Clone, Copy)]
struct Paths<'a> {
    keys: &'a str,
    key: Option<&'a str>,
    folder: &'a str,
}

/// Serves standard input to its end.
fn run<R: Runtime + Files<File = File> + AllocGlobal + Threads + Wait + Sync>(
    rt: &R,
) -> Result<(), Error> {
    let alloc = rt.alloc();
    let words: Vec<String> = std::env::args(rt)?.collect(alloc)?;
    let [_, cluster, keys, folder, rest @ ..] = words.as_slice() else {
        return Err(Error::msg(USAGE));
    };
    let (key, rest) = key_in(rest);
    let options = options_in(rest)?;
    let deployment = deployment_at(rt, cluster.as_str()).context(cluster.clone()?)?;
    let paths = Paths {
        keys: keys.as_str(),
        key,
        folder: folder.as_str(),
    };
    live(rt, &deployment, paths, options)
}

/// Lives as the replica with these keys, which the folder holds.
fn live<R: Runtime + Files<File = File> + AllocGlobal + Threads + Wait + Sync>(
    rt: &R,
    deployment: &Deployment,
    paths: Paths<'_>,
    options: Options,
) -> Result<(), Error> {
    let terms = terms_of(deployment)?;
    let keys = keys_at(rt, deployment, paths.keys, paths.key)?;
    let mut keeping = begin(rt, deployment, terms, keys, paths, options).context(String::from_str(
        rt.alloc(),
        paths.folder,
    )?)?;
    answer(rt, deployment, &mut keeping)
}

const NEW: &str = "--new";

const DAMAGED: &str = "--damaged";

const USAGE: &str =
    "usage: replica CLUSTER_TOML REPLICA_TOML FOLDER [--key REPLICA_KEY] [--new] [--damaged]";

/// What an operator answers for.
#[derive(Clone, Copy)]
struct Options {
    /// The replica has said nothing yet: it begins in an empty folder.
    is_new: bool,
    /// A replica whose journal is damaged may go on with what stands before the damage.
    is_damaged: bool,
}

// the path of the replica's key, and the words behind it
fn key_in(words: &[String]) -> (Option<&str>, &[String]) {
    match words {
        [option, key, rest @ ..] if option.as_str() == "--key" => (Some(key.as_str()), rest),
        _ => (None, words),
    }
}

fn options_in(words: &[String]) -> Result<Options, Error> {
    let (is_new, is_damaged) = (has(words, NEW), has(words, DAMAGED));
    let known = usize::from(is_new) + usize::from(is_damaged);
    if words.len() == known {
        Ok(Options { is_new, is_damaged })
    } else {
        Err(Error::msg(USAGE))
    }
}

fn has(words: &[String], word: &str) -> bool {
    words.iter().any(|each| each.as_str() == word)
}

/// A life of the replica that the folder holds, or of a new one, with these keys.
fn begin<'a, R: Runtime + Files<File = File> + AllocGlobal + Threads + Wait + Sync>(
    rt: &'a R,
    deployment: &Deployment,
    terms: Terms,
    keys: Keys,
    paths: Paths<'a>,
    options: Options,
) -> Result<Keeping<ReplicaFolder<'a, R>>, Error>
    requires replica { AreOfReplica (faults keys) (number_of keys.me) keys }
    requires clients { length keys.clients ≤ most_clients }
{
    let folder = paths.folder;
    if options.is_new {
        folder::make(rt, folder)?;
    }
    let lock = folder::lock(rt, folder)?;
    let held = folder::read(rt, folder)?;
    let digest = digest_at(rt, deployment, paths.keys)?;
    let replicas_sign = !deployment.replica_signers().is_empty();
    // by other keys its journal would not be made again
    let (next, is_noted) = match &held {
        Some(held) => {
            (
                held.number.saturating_add(1),
                are_noted(rt, folder, &digest, replicas_sign)?,
            )
        }
        None => (0, false),
    };
    let node = node_of(rt, keys, held, options)?;
    if !is_noted {
        note_keys(rt, folder, &digest)?;
    }
    let folder = ReplicaFolder::new(rt, folder, lock, next);
    Ok(Keeping::begin(rt.alloc(), node, Executor::serial(), terms, folder)?)
}

/// The replica that was held, or a new one.
fn node_of<R: Runtime + AllocGlobal + Threads + Wait + Sync>(
    rt: &R,
    keys: Keys,
    held: Option<Held>,
    options: Options,
) -> Result<Node, Error>
    requires replica { AreOfReplica (faults keys) (number_of keys.me) keys }
    requires clients { length keys.clients ≤ most_clients }
{
    match (held, options.is_new) {
        (Some(held), false) => recovered(rt, keys, &held, options),
        (None, true) => Ok(Node::new(rt.alloc(), keys)?),
        (Some(_), true) => Err(Error::msg(
            "it holds a replica: a new one would forget what that has said",
        )),
        (None, false) => Err(Error::msg(
            "it holds no replica: --new begins one that has never run; another one is faulty without its folder",
        )),
    }
}

const DAMAGE: &str = "what it said may be lost, so it is faulty; --damaged lets it go on";

fn recovered<R: Runtime + AllocGlobal + Threads + Wait + Sync>(
    rt: &R,
    keys: Keys,
    held: &Held,
    options: Options,
) -> Result<Node, Error>
    requires replica { AreOfReplica (faults keys) (number_of keys.me) keys }
    requires clients { length keys.clients ≤ most_clients }
{
    let alloc = rt.alloc();
    let number = held.number;
    let Recovered { bodies, end, rest } = read_journal(alloc, held.journal.as_slice())?;
    let records = bodies.len();
    if rest == Rest::Damaged && !options.is_damaged {
        let text = format!(in alloc;
            "journal-{number} is damaged behind {records} records: {DAMAGE}"
        )?;
        return Err(Error::msg(text));
    }
    let node = recover(
        rt,
        alloc,
        keys,
        Executor::serial(),
        held.saved.as_slice(),
        bodies.as_slice(),
    )?;
    let left = held.journal.len() - end;
    let _ = eprintln!(rt;
        "replica: goes on behind saved-{number} and {records} records; {left} bytes behind these are none"
    );
    Ok(node)
}

fn answer<R: Runtime + AllocGlobal + Threads + Wait + Sync>(
    rt: &R,
    deployment: &Deployment,
    keeping: &mut Keeping<ReplicaFolder<'_, R>>,
) -> Result<(), Error> {
    let alloc = rt.alloc();
    let mut reader = BufReader::new(alloc, rt.reader())?;
    let mut writer = io::writer(rt);
    serve(
        alloc,
        rt,
        keeping,
        &deployment.limits(),
        &mut reader,
        &mut writer,
    )?;
    Ok(())
}

fn deployment_at<R: Runtime + AllocGlobal>(rt: &R, path: &str) -> Result<Deployment, Error> {
    let document = fs::read(rt, path)?;
    Ok(parse_deployment(rt.alloc(), document.as_slice())?)
}

/// How a replica of that cluster serves. It is refused where each NEW-VIEW may have so many signatures that batches have no room for a request.
fn terms_of(deployment: &Deployment) -> Result<Terms, Error> {
    let terms = Terms::of(
        deployment.f(),
        deployment.patience(),
        &deployment.limits(),
        !deployment.replica_signers().is_empty(),
    );
    if terms.most_batch_bytes < Limits::new().request as usize {
        return Err(Error::msg("so many replicas that sign leave NEW-VIEWs no room for requests"));
    }
    Ok(terms)
}
