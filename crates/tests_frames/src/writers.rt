//! A writer in memory that fails.
use std::alloc::Global;
use std::io;
use std::io::{Error, ErrorKind, Write};

/// Takes a byte a time, is interrupted before each, and fails once it has so many.
#[derive(Drop)]
pub struct Narrow {
    pub taken: Vec<u8>,
    room: usize,
    interrupted: bool,
}

impl Narrow {
    pub fn new(alloc: Global, room: usize) -> Narrow {
        Narrow {
            taken: Vec::new(alloc),
            room,
            interrupted: false,
        }
    }
}

impl Write for Narrow {
    fn write(&mut self, buffer: &[u8]) -> io::Result<usize> {
        self.interrupted = !self.interrupted;
        if self.interrupted {
            return Err(Error::from(ErrorKind::Interrupted));
        }
        if self.taken.len() >= self.room {
            return Err(Error::from(ErrorKind::TimedOut));
        }
        let Some(first) = buffer.first() else {
            return Ok(0);
        };
        self.taken.push(*first)?;
        Ok(1)
    }

    fn flush(&mut self) -> io::Result<()> {
        Ok(())
    }
}
