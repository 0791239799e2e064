//! Where the run of a trace stops, whichever write of its output is refused.
use bfs_replay::{
    Executor, NoGate, Output, ReplayError, Settings, Trace, default_settings, parse_settings,
    parse_trace, population_of, run_trace,
};
use bfs_testing::asserts::compared;
use bfs_testing::holds;
use std::alloc::AllocGlobal;
use std::io;
use std::io::{ErrorKind, Write};
use std::sync::Wait;
use std::test::Fail;
use std::thread::Threads;

/// A writer that takes so many writes, and refuses all others.
#[derive(Drop)]
struct Failing {
    writes: u32,
    taken: Vec<u8>,
}

impl Write for Failing {
    fn write(&mut self, bytes: &[u8]) -> io::Result<usize> {
        if self.writes == 0 {
            return Err(io::Error::from(ErrorKind::StorageFull));
        }
        self.writes -= 1;
        self.taken.extend_from_slice(bytes)?;
        Ok(bytes.len())
    }

    fn flush(&mut self) -> io::Result<()> {
        Ok(())
    }
}

// the run before a writer that takes so many writes: whether it ends well. What was written is the beginning of the output, all of it where it
// ends well
fn run<R: AllocGlobal + Threads + Wait + Sync>(
    rt: &R,
    settings: &Settings,
    trace: &Trace,
    writes: u32,
    wanted: &[u8],
) -> Result<bool, Fail> {
    let mut writer = Failing {
        writes,
        taken: Vec::new(rt.alloc()),
    };
    let mut output = Output::new(&mut writer);
    let ended = run_trace(
        rt,
        settings,
        trace,
        Executor::serial(),
        &NoGate,
        &mut output,
    );
    compared(output.has_refused(), ended.is_err())?;
    match ended {
        Ok(_) => {
            compared(writer.taken.as_slice(), wanted)?;
            Ok(true)
        }
        Err(error) => {
            compared(error, ReplayError::WriteFault)?;
            compared(error.code(), 39)?;
            compared(wanted.starts_with(writer.taken.as_slice()), true)?;
            Ok(false)
        }
    }
}

// how many writes the whole output takes, where each of them is refused in turn
fn writes_of<R: AllocGlobal + Threads + Wait + Sync>(
    rt: &R,
    settings: &Settings,
    text: &str,
    wanted: &str,
) -> Result<u32, Fail> {
    let trace = parse_trace(rt.alloc(), text.as_bytes(), population_of(settings))?;
    for writes in 0..100 {
        if run(rt, settings, &trace, writes, wanted.as_bytes())? {
            return Ok(writes);
        }
    }
    Err("an end".into())
}

// the stored run: a request that comes twice, one that came too late, and one behind them
const STORED: &str =
    "batch 1.000000\n0 5 create #2 a - - - - - -\n0 5 create #2 a - - - - - -\n0 4 getattr #2\nbatch 2.000000\n0 6 getattr #2\n";

const STORED_OUTPUT: &str =
    "c0 t5 00000005000000010000000000000000000000000000000000000000424653320000000100000003000000000000000000000000000000000000000000000001000081a400000001000003e800000064000000000000100000000000000000000000000100000003000000010000000000000001000000000000000100000000\nc0 t5 00000005000000010000000000000000000000000000000000000000424653320000000100000003000000000000000000000000000000000000000000000001000081a400000001000003e800000064000000000000100000000000000000000000000100000003000000010000000000000001000000000000000100000000\nc0 t4 none\nc0 t6 0000000600000001000000000000000000000000000000000000000000000002000041ff000000020000000000000000000000600000100000000000000000010000000100000002000000000000000000000001000000000000000100000000\ndigest 0 50637a1ab735c3fbdf0cc7aa96ed7c130c311de208e77ac7621773c3a1c460ab\n";

#[test]
fn stops_at_the_write_that_is_refused(rt: HostRuntime) -> Result<(), Fail> {
    let settings = default_settings(rt.alloc())?;
    holds!(rt; writes_of(&rt, &settings, STORED, STORED_OUTPUT)? > 1);
    Ok(())
}

// the first primary is silent; as an independent run of four replicas prints it
const CHANGED: &str = "silent 0\nbatch 1.000000\n0 1 null\ntimeout\n";

const CHANGED_OUTPUT: &str =
    "c0 t1 none\nview 1\nc0 t1 000000010000000100000000000000000000000000000000\ndigest 1 618ad5b102f9d706a1bcd90ff8c382fb5b29f49088a53edc447daeb38a9f2ee1\ndigest 2 618ad5b102f9d706a1bcd90ff8c382fb5b29f49088a53edc447daeb38a9f2ee1\ndigest 3 618ad5b102f9d706a1bcd90ff8c382fb5b29f49088a53edc447daeb38a9f2ee1\n";

#[test]
fn stops_at_the_write_that_is_refused_where_the_view_changes(rt: HostRuntime) -> Result<(), Fail> {
    let settings = parse_settings(rt.alloc(), b"f = 1\n")?;
    holds!(rt; writes_of(&rt, &settings, CHANGED, CHANGED_OUTPUT)? > 1);
    Ok(())
}
