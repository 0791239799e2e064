ghost use Rattle.std.specs.Prelude.{◌≡◌, ◌≢◌, ◌↔◌, [], false, map, option_map, IfOk, IfErr};
ghost use Rattle.clap.specs.Words.{app_of, fault_of, found_of, kind_of, matches_of, rows_of, rule_of};
ghost use Rattle.bfs_replay.specs.CommandLine.{Asks, as_asked, asked_among, asked_by, config_rule, engine_named, engine_rule, replay_app, workers_among, workers_rule};

use crate::usage::{Options, UsageError};
use bfs_outcome::{Engine, Executor, MOST_WORKERS, Workers};
use clap::error::ErrorKind;
use clap::{Arg, ArgMatches, Command};
use std::alloc::{AllocError, Global};
use std::convert::AsStr;

/// `--workers N`
fn workers_argument<'a>(alloc: Global) -> Arg<'a>
    ensures rule { rule_of result ≡ workers_rule }
    ensures local { result.global ≡ false }
{
    Arg::new(alloc, "workers")
        .long("workers")
        .default_value("4")
        .value_parser(clap::value_parser!(u32).range(1..=MOST_WORKERS as i64))
}

/// `--engine NAME`
fn engine_argument<'a>(alloc: Global) -> Arg<'a>
    ensures rule { rule_of result ≡ engine_rule }
    ensures local { result.global ≡ false }
{
    Arg::new(alloc, "engine")
        .long("engine")
        .default_value("levels")
}

/// `--config FILE`
fn config_argument<'a>(alloc: Global) -> Arg<'a>
    ensures rule { rule_of result ≡ config_rule }
    ensures local { result.global ≡ false }
{
    Arg::new(alloc, "config").long("config")
}

/// The words that `replay` takes.
fn command<'a>(alloc: Global) -> Result<Command<'a>, AllocError>
    ensures app { IfOk result (λ c. app_of c ≡ replay_app) }
{
    let workers = workers_argument(alloc);
    let engine = engine_argument(alloc);
    let config = config_argument(alloc);
    let trace = Arg::new(alloc, "trace").required(true);
    let command = Command::new(alloc, "replay")
        .arg(workers)?
        .arg(engine)?
        .arg(config)?
        .arg(trace)?;
    Ok(command)
}

/// What an error of clap is to the caller.
fn usage_error(error: clap::Error) -> UsageError
    ensures { (result ≡ UsageError.Usage) ↔ (kind_of error ≢ ErrorKind.OutOfMemory) }
{
    if error.kind() == ErrorKind::OutOfMemory {
        UsageError::Memory
    } else {
        UsageError::Usage
    }
}

/// What clap finds in the words.
fn matches<'a, S: AsStr>(alloc: Global, words: &'a [S]) -> Result<ArgMatches<'a>, UsageError>
    ensures rows { IfOk result (λ m. rows_of (found_of m) ≡ matches_of replay_app (map S.text words.now)) }
    ensures taken { IfOk result (λ _. fault_of replay_app (map S.text words.now) ≡ []) }
    ensures refused { IfErr result (λ e. e ≡ UsageError.Usage → fault_of replay_app (map S.text words.now) ≢ []) }
{
    let Ok(command) = command(alloc) else {
        return Err(UsageError::Memory);
    };
    match command.try_get_matches_from(words) {
        Ok(found) => Ok(found),
        Err(error) => Err(usage_error(error)),
    }
}

/// How many workers the matches ask for.
fn workers_among(found: &ArgMatches<'_>) -> Option<Workers>
    ensures { result ≡ workers_among (rows_of (found_of found.now)) }
{
    let count = found.get_one::<u32>("workers")?;
    Workers::new(count)
}

/// What the engine of that name is, or the executor without one: `serial`.
fn engine_named(name: &str) -> Option<Option<Engine>>
    ensures { result ≡ engine_named name.now }
{
    match name {
        "runs" => Some(Some(Engine::Runs)),
        "levels" => Some(Some(Engine::Levels)),
        "serial" => Some(None),
        _ => None,
    }
}

/// What the matches ask for, unless the engine is none of ours.
#[tactic(auto, using(crate::proofs::CommandLine::value_in_rows))]
fn options_among<'a>(found: &ArgMatches<'a>) -> Option<Options<'a>>
    ensures { option_map as_asked result ≡ asked_among (rows_of (found_of found.now)) }
{
    let workers = workers_among(found)?;
    let engine = engine_named(found.get_str("engine")?)?;
    let config = found.get_str("config");
    let trace = found.get_str("trace")?;
    Some(Options {
        executor: Executor { workers, engine },
        config,
        trace,
    })
}

/// Reads the words of the command line, the program's name first: `replay [--workers N] [--engine runs|levels|serial] [--config FILE] TRACE`.
/// N is a number from 1 to 64, in decimal digits behind a `+` or not, and 4 where there is none; the engine is `levels` where there is none. Any other
/// number or engine, an option twice, any other option (`--help` and `--version` among them), no trace and two traces are
/// `UsageError::Usage`.
#[tactic(auto, using(crate::proofs::CommandLine::asked_where_taken, crate::proofs::CommandLine::none_where_refused))]
pub fn options<'a, S: AsStr>(alloc: Global, words: &'a [S]) -> Result<Options<'a>, UsageError>
    ensures { Asks result (asked_by (map S.text words.now)) }
{
    let found = matches(alloc, words)?;
    match options_among(&found) {
        Some(options) => Ok(options),
        None => Err(UsageError::Usage),
    }
}
