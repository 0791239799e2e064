//! Command lines: what the words ask for, and those that are refused.
use bfs_replay::{Engine, Failure, Options, UsageError, options};
use bfs_testing::{holds, same};
use std::alloc::Global;
use std::test::Fail;

// the words of a command line, and the workers and the engine that they ask for
static TAKEN: [(&str, u32, Option<Engine>); 13] = [
    ("replay a.trace", 4, Some(Engine::Levels)),
    ("replay -- a.trace", 4, Some(Engine::Levels)),
    ("replay --engine runs a.trace", 4, Some(Engine::Runs)),
    ("replay --engine serial a.trace", 4, None),
    ("replay a.trace --engine=serial", 4, None),
    ("replay --workers 1 a.trace", 1, Some(Engine::Levels)),
    ("replay --workers 64 a.trace", 64, Some(Engine::Levels)),
    ("replay --workers=8 a.trace", 8, Some(Engine::Levels)),
    ("replay a.trace --workers +7", 7, Some(Engine::Levels)),
    ("replay --workers 007 a.trace", 7, Some(Engine::Levels)),
    ("replay --workers 2 --engine serial a.trace", 2, None),
    (
        "replay --engine=runs a.trace --workers=33",
        33,
        Some(Engine::Runs),
    ),
    ("replay --engine levels a.trace", 4, Some(Engine::Levels)),
];

static REFUSED: [&str; 28] = [
    "replay",
    "replay a.trace b.trace",
    "replay --help",
    "replay -h",
    "replay --version",
    "replay --help a.trace",
    "replay --conf a.toml a.trace",
    "replay a.trace --config",
    "replay --config a.toml --config a.toml a.trace",
    "replay -w 2 a.trace",
    "replay --work 2 a.trace",
    "replay --workers a.trace",
    "replay a.trace --workers",
    "replay --workers= a.trace",
    "replay --workers =8 a.trace",
    "replay --workers 0 a.trace",
    "replay --workers 65 a.trace",
    "replay --workers -1 a.trace",
    "replay --workers=-1 a.trace",
    "replay --workers four a.trace",
    "replay --workers 18446744073709551617 a.trace",
    "replay --workers 2 --workers 2 a.trace",
    "replay a.trace --engine",
    "replay --engine= a.trace",
    "replay --engine level a.trace",
    "replay --engine Runs a.trace",
    "replay --engine none a.trace",
    "replay --engine runs --engine runs a.trace",
];

/// Whether the words of a line ask for so many workers, that engine, and the trace `a.trace`.
fn asks_for(alloc: Global, line: &str, workers: u32, engine: Option<Engine>) -> Result<bool, Fail> {
    let words: Vec<&str> = line.split(' ').collect(alloc)?;
    let asked = match options(alloc, words.as_slice()) {
        Ok(asked) => asked,
        Err(UsageError::Usage) => return Ok(false),
        Err(UsageError::Memory) => return Err(UsageError::Memory.into()),
    };
    let executor = asked.executor;
    Ok(executor.workers.count() == workers && executor.engine == engine && asked.trace == "a.trace")
}

#[test]
fn reads_the_command_line(rt: HostRuntime) -> Result<(), Fail> {
    for (line, workers, engine) in TAKEN.iter() {
        assert!(rt; asks_for(rt.alloc(), line, *workers, *engine)?, "{line}");
    }
    Ok(())
}

/// Whether the words of a line are no usage of the program.
fn is_refused(alloc: Global, line: &str) -> Result<bool, Fail> {
    let words: Vec<&str> = line.split(' ').collect(alloc)?;
    Ok(matches!(options(alloc, words.as_slice()), Err(UsageError::Usage)))
}

#[test]
fn refuses_other_command_lines(rt: HostRuntime) -> Result<(), Fail> {
    for line in REFUSED.iter() {
        assert!(rt; is_refused(rt.alloc(), line)?, "{line}");
    }
    Ok(())
}

/// Whether the words of a line ask for the settings at that path.
fn asks_for_settings(alloc: Global, line: &str, path: Option<&str>) -> Result<bool, Fail> {
    let words: Vec<&str> = line.split(' ').collect(alloc)?;
    let asked = match options(alloc, words.as_slice()) {
        Ok(asked) => asked,
        Err(UsageError::Usage) => return Ok(false),
        Err(UsageError::Memory) => return Err(UsageError::Memory.into()),
    };
    Ok(asked.config == path)
}

/// `.ci/refusals` runs this one with each growth of memory refused in turn.
#[test]
fn reads_where_the_settings_are(rt: HostRuntime) -> Result<(), Fail> {
    let path = Some("a.toml");
    holds!(rt; asks_for_settings(rt.alloc(), "replay --config a.toml a.trace", path)?);
    holds!(rt; asks_for_settings(rt.alloc(), "replay a.trace --config=a.toml", path)?);
    holds!(rt; asks_for_settings(rt.alloc(), "replay a.trace", None)?);
    Ok(())
}

#[test]
fn tells_the_usage(rt: HostRuntime) -> Result<(), Fail> {
    let text = format!(in rt.alloc(); "{}", UsageError::Usage)?;
    same!(rt;
        text.as_str(),
        "usage: replay [--workers N] [--engine runs|levels|serial] [--config FILE] TRACE"
    );
    same!(rt; UsageError::Usage.code(), 42);
    same!(rt; Failure::from(UsageError::Usage).status(), 2);
    Ok(())
}
