//! What the run of a trace writes, and where it stops.
use bfs_replay::{
    Engine, Executor, Failure, NoGate, Outcome, Output, Population, ReplayError, Trace, TraceError,
    Workers, default_settings, parse_settings, parse_trace, population_of, run_trace,
};
use bfs_testing::{holds, same};
use std::alloc::Global;
use std::io;
use std::io::{ErrorKind, Write};
use std::sync::Wait;
use std::test::Fail;
use std::thread::Threads;

/// Reads a trace of 16 clients and one replica.
pub(crate) fn parse_alone(alloc: Global, text: &[u8]) -> Result<Trace, TraceError> {
    match Population::new(16, 1) {
        Some(population) => parse_trace(alloc, text, population),
        None => unreachable!(),
    }
}

/// One worker, and that engine.
fn alone(engine: Option<Engine>) -> Executor {
    Executor {
        workers: Workers::one(),
        engine,
    }
}

const ROOT_TRACE: &[u8] =
    b"batch 1.000000\n0 1 raw 000000010000000000000002000186a30000000200000001000000000000000000000000000000004246533200000001000000020000000000000000000000000000000000000000\n";

// the reply; and SHA-256 of another implementation's digest of the file system (whose last time is 1, and whose next ordinal is 4), followed by
// the text of the table of 16 clients with that reply
const ROOT_OUTPUT: &[u8] =
    b"c0 t1 0000000100000001000000000000000000000000000000000000000000000002000041ff000000020000000000000000000000400000100000000000000000010000000100000002000000000000000000000000000000000000000000000000\ndigest 0 3c224e754626b8e4c7c04b7e56709ef8560405142f75939718cf9ffadc5b0d3a\n";

#[test]
fn prints_a_line_for_each_request(rt: HostRuntime) -> Result<(), Fail> {
    let trace = parse_alone(rt.alloc(), ROOT_TRACE)?;
    let mut out = Vec::new(rt.alloc());
    same!(rt; run_trace(&rt, &default_settings(rt.alloc())?, &trace, alone(None), &NoGate, &mut Output::new(&mut out))?, Outcome::Agree);
    holds!(rt; out.as_slice() == ROOT_OUTPUT);
    Ok(())
}

// the last time is a microsecond, and the next ordinal 4
const SILENT_OUTPUT: &[u8] =
    b"c15 t18446744073709551615 -\ndigest 0 5822adb30630155a690a14340b0a917dea9d0ff180c52320d1fa38ab3fd0674d\n";

#[test]
fn prints_a_dash_for_what_is_no_call(rt: HostRuntime) -> Result<(), Fail> {
    let silent = parse_alone(
        rt.alloc(),
        b"# no call\n\nbatch 0.000000\n15 018446744073709551615 raw aB",
    )?;
    let mut out = Vec::new(rt.alloc());
    run_trace(
        &rt,
        &default_settings(rt.alloc())?,
        &silent,
        alone(None),
        &NoGate,
        &mut Output::new(&mut out),
    )?;
    holds!(rt; out.as_slice() == SILENT_OUTPUT);
    Ok(())
}

const NEW_OUTPUT: &[u8] =
    b"digest 0 c39adefa6fe1b3e62e004f11b4e1a9fa3f2e6d5b82b3abfb69c53bdbb55bfe3c\n";

#[test]
fn prints_the_digest_of_a_new_file_system(rt: HostRuntime) -> Result<(), Fail> {
    let empty = parse_alone(rt.alloc(), b"# no block\n")?;
    for engine in [None, Some(Engine::Runs), Some(Engine::Levels)] {
        let mut out = Vec::new(rt.alloc());
        run_trace(
            &rt,
            &default_settings(rt.alloc())?,
            &empty,
            alone(engine),
            &NoGate,
            &mut Output::new(&mut out),
        )?;
        holds!(rt; out.as_slice() == NEW_OUTPUT);
    }
    Ok(())
}

/// What the run of a trace prints, where a fault of a replica is tolerated.
fn output_of_four<R: AllocGlobal + Threads + Wait + Sync>(
    rt: &R,
    text: &str,
) -> Result<Vec<u8>, Fail> {
    let settings = parse_settings(rt.alloc(), b"f = 1\n")?;
    let trace = parse_trace(rt.alloc(), text.as_bytes(), population_of(&settings))?;
    let mut out = Vec::new(rt.alloc());
    match run_trace(
        rt,
        &settings,
        &trace,
        alone(None),
        &NoGate,
        &mut Output::new(&mut out),
    )? {
        Outcome::Agree => Ok(out),
        Outcome::Differ => Err("replicas differ".into()),
    }
}

// a request that comes twice, one that came too late, and one behind them
const REPEATED_TRACE: &str =
    "batch 1.000000\n0 5 create #2 a - - - - - -\n0 5 create #2 a - - - - - -\n0 4 getattr #2\nbatch 2.000000\n0 6 getattr #2\n";

// what one replica prints of it, with a digest of each
const FOUR_OUTPUT: &str =
    "c0 t5 00000005000000010000000000000000000000000000000000000000424653320000000100000003000000000000000000000000000000000000000000000001000081a400000001000003e800000064000000000000100000000000000000000000000100000003000000010000000000000001000000000000000100000000\nc0 t5 00000005000000010000000000000000000000000000000000000000424653320000000100000003000000000000000000000000000000000000000000000001000081a400000001000003e800000064000000000000100000000000000000000000000100000003000000010000000000000001000000000000000100000000\nc0 t4 none\nc0 t6 0000000600000001000000000000000000000000000000000000000000000002000041ff000000020000000000000000000000600000100000000000000000010000000100000002000000000000000000000001000000000000000100000000\ndigest 0 50637a1ab735c3fbdf0cc7aa96ed7c130c311de208e77ac7621773c3a1c460ab\ndigest 1 50637a1ab735c3fbdf0cc7aa96ed7c130c311de208e77ac7621773c3a1c460ab\ndigest 2 50637a1ab735c3fbdf0cc7aa96ed7c130c311de208e77ac7621773c3a1c460ab\ndigest 3 50637a1ab735c3fbdf0cc7aa96ed7c130c311de208e77ac7621773c3a1c460ab\n";

#[test]
fn prints_a_digest_of_each_replica(rt: HostRuntime) -> Result<(), Fail> {
    let out = output_of_four(&rt, REPEATED_TRACE)?;
    holds!(rt; out.as_slice() == FOUR_OUTPUT.as_bytes());
    Ok(())
}

// as an independent run of four replicas prints it
const BEHIND_OUTPUT: &str =
    "c0 t1 000000010000000100000000000000000000000000000000\ndigest 0 618ad5b102f9d706a1bcd90ff8c382fb5b29f49088a53edc447daeb38a9f2ee1\ndigest 1 618ad5b102f9d706a1bcd90ff8c382fb5b29f49088a53edc447daeb38a9f2ee1\ndigest 2 618ad5b102f9d706a1bcd90ff8c382fb5b29f49088a53edc447daeb38a9f2ee1\nbehind 3 0\n";

#[test]
fn prints_who_is_behind(rt: HostRuntime) -> Result<(), Fail> {
    let out = output_of_four(&rt, "silent 3\nbatch 1.000000\n0 1 null\nheard 3\n")?;
    holds!(rt; out.as_slice() == BEHIND_OUTPUT.as_bytes());
    Ok(())
}

// replica 0 is the primary of the first view
const NONE_OUTPUT: &str =
    "c0 t1 none\ndigest 1 c39adefa6fe1b3e62e004f11b4e1a9fa3f2e6d5b82b3abfb69c53bdbb55bfe3c\ndigest 2 c39adefa6fe1b3e62e004f11b4e1a9fa3f2e6d5b82b3abfb69c53bdbb55bfe3c\ndigest 3 c39adefa6fe1b3e62e004f11b4e1a9fa3f2e6d5b82b3abfb69c53bdbb55bfe3c\n";

#[test]
fn prints_none_where_the_primary_is_silent(rt: HostRuntime) -> Result<(), Fail> {
    let text = format!(in rt.alloc(); "silent 0\n{}", str::from_utf8(ROOT_TRACE)?)?;
    let out = output_of_four(&rt, text.as_str())?;
    holds!(rt; out.as_slice() == NONE_OUTPUT.as_bytes());
    Ok(())
}

// as an independent run of four replicas prints it
static CHANGED_OUTPUT: &str =
    "view 1\nc0 t1 000000010000000100000000000000000000000000000000\ndigest 1 618ad5b102f9d706a1bcd90ff8c382fb5b29f49088a53edc447daeb38a9f2ee1\ndigest 2 618ad5b102f9d706a1bcd90ff8c382fb5b29f49088a53edc447daeb38a9f2ee1\ndigest 3 618ad5b102f9d706a1bcd90ff8c382fb5b29f49088a53edc447daeb38a9f2ee1\n";

#[test]
fn the_next_primary_answers_once_the_view_is_changed(rt: HostRuntime) -> Result<(), Fail> {
    let out = output_of_four(&rt, "silent 0\ntimeout\nbatch 1.000000\n0 1 null\n")?;
    holds!(rt; out.as_slice() == CHANGED_OUTPUT.as_bytes());
    Ok(())
}

static LATE_OUTPUT: &str =
    "c0 t1 none\nview 1\nc0 t1 000000010000000100000000000000000000000000000000\ndigest 1 618ad5b102f9d706a1bcd90ff8c382fb5b29f49088a53edc447daeb38a9f2ee1\ndigest 2 618ad5b102f9d706a1bcd90ff8c382fb5b29f49088a53edc447daeb38a9f2ee1\ndigest 3 618ad5b102f9d706a1bcd90ff8c382fb5b29f49088a53edc447daeb38a9f2ee1\n";

#[test]
fn what_waited_is_printed_at_a_timeout(rt: HostRuntime) -> Result<(), Fail> {
    let out = output_of_four(&rt, "silent 0\nbatch 1.000000\n0 1 null\ntimeout\n")?;
    holds!(rt; out.as_slice() == LATE_OUTPUT.as_bytes());
    Ok(())
}

/// A writer that takes so many bytes and refuses from then on.
#[derive(Drop)]
struct Refusing {
    room: usize,
    kind: ErrorKind,
    taken: Vec<u8>,
}

impl Write for Refusing {
    fn write(&mut self, bytes: &[u8]) -> io::Result<usize> {
        let count = bytes.len().min(self.room);
        if count == 0 && !bytes.is_empty() {
            return Err(io::Error::from(self.kind));
        }
        self.taken.extend_from_slice(&bytes[..count])?;
        self.room -= count;
        Ok(count)
    }

    fn flush(&mut self) -> io::Result<()> {
        Ok(())
    }
}

#[test]
fn stops_where_the_writer_refuses(rt: HostRuntime) -> Result<(), Fail> {
    let settings = default_settings(rt.alloc())?;
    let trace = parse_alone(rt.alloc(), ROOT_TRACE)?;
    for room in 0..ROOT_OUTPUT.len() {
        let mut writer = Refusing {
            room,
            kind: ErrorKind::StorageFull,
            taken: Vec::new(rt.alloc()),
        };
        match run_trace(
            &rt,
            &settings,
            &trace,
            alone(Some(Engine::Runs)),
            &NoGate,
            &mut Output::new(&mut writer),
        ) {
            Err(error) => {
                same!(rt; error, ReplayError::WriteFault);
                same!(rt; error.code(), 39);
            }
            Ok(_) => assert!(rt; false, "the writer has no room"),
        }
        assert!(rt;
            writer.taken.as_slice() == &ROOT_OUTPUT[..room],
            "at {room}"
        );
    }
    Ok(())
}

#[test]
fn tells_that_the_writer_wants_memory(rt: HostRuntime) -> Result<(), Fail> {
    let settings = default_settings(rt.alloc())?;
    let trace = parse_alone(rt.alloc(), ROOT_TRACE)?;
    let mut writer = Refusing {
        room: 10,
        kind: ErrorKind::OutOfMemory,
        taken: Vec::new(rt.alloc()),
    };
    let refused = run_trace(
        &rt,
        &settings,
        &trace,
        alone(Some(Engine::Runs)),
        &NoGate,
        &mut Output::new(&mut writer),
    );
    same!(rt; refused.err(), Some(ReplayError::Memory));
    Ok(())
}

/// A trace with one request, whose last word has those bytes so many times, and then `tail`.
fn trace_of_long_word(
    alloc: Global,
    front: &str,
    piece: &str,
    count: usize,
    tail: &str,
) -> Result<String, Fail> {
    let mut text = format!(in alloc; "batch 1.000000\n0 1 {front}")?;
    for _piece in 0..count {
        text.push_str(piece)?;
    }
    text.push_str(tail)?;
    Ok(text)
}

/// What the run of a trace prints.
fn output<R: AllocGlobal + Threads + Wait + Sync>(rt: &R, text: &str) -> Result<Vec<u8>, Fail> {
    let trace = parse_alone(rt.alloc(), text.as_bytes())?;
    let mut out = Vec::new(rt.alloc());
    run_trace(
        rt,
        &default_settings(rt.alloc())?,
        &trace,
        alone(None),
        &NoGate,
        &mut Output::new(&mut out),
    )?;
    Ok(out)
}

const GARBAGE: &[u8] =
    b"c0 t1 000000010000000100000000000000000000000000000004\ndigest 0 416a050b70cd3e90d25dd8fcb0de7f475c7bb736b3a88fe8800bfda4d3f03ea0\n";

#[test]
fn sends_what_is_longer_than_the_server_takes(rt: HostRuntime) -> Result<(), Fail> {
    let alloc = rt.alloc();
    let name = trace_of_long_word(alloc, "remove #2 ", "a", 256, "")?;
    holds!(rt; output(&rt, name.as_str())?.as_slice() == GARBAGE);
    let path = trace_of_long_word(alloc, "symlink #2 s ", "a", 1_025, " - - - - - -")?;
    holds!(rt; output(&rt, path.as_str())?.as_slice() == GARBAGE);
    let bytes = trace_of_long_word(alloc, "write #2 0 x", "00", 8_193, "")?;
    holds!(rt; output(&rt, bytes.as_str())?.as_slice() == GARBAGE);
    Ok(())
}

#[test]
fn a_failure_tells_the_line_at_fault(rt: HostRuntime) -> Result<(), Fail> {
    let failure = Failure::from(TraceError::BadLine(2));
    let text = format!(in rt.alloc(); "{failure}")?;
    same!(rt; text.as_str(), "trace line 2");
    same!(rt; failure.status(), 3);
    Ok(())
}
