//! Input: all of it, or why there is none.
use bfs_replay::{Failure, read_input};
use bfs_testing::{holds, same};
use std::io;
use std::io::{ErrorKind, Read};
use std::test::Fail;

const TEXT: &[u8] = b"batch 1.000000\n0 1 null\n";

#[test]
fn reads_input(rt: HostRuntime) -> Result<(), Fail> {
    let text = read_input(rt.alloc(), TEXT)?;
    holds!(rt; text.as_slice() == TEXT);
    Ok(())
}

/// A reader that gives its bytes and then refuses.
#[derive(Drop)]
struct Broken {
    bytes: &'static [u8],
    kind: ErrorKind,
}

impl Read for Broken {
    fn read(&mut self, into: &mut [u8]) -> io::Result<usize> {
        if self.bytes.is_empty() {
            return Err(io::Error::from(self.kind));
        }
        self.bytes.read(into)
    }
}

#[test]
fn tells_why_the_reader_refuses(rt: HostRuntime) {
    let broken = |kind| Broken { bytes: TEXT, kind };
    let refused = read_input(rt.alloc(), broken(ErrorKind::PermissionDenied));
    same!(rt; refused.err(), Some(Failure::Input));
    let refused = read_input(rt.alloc(), broken(ErrorKind::OutOfMemory));
    same!(rt; refused.err(), Some(Failure::Memory));
}
