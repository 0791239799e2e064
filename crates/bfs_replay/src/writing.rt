ghost use Rattle.std.specs.Prelude.{◌≡◌, ◌<◌, ◌≤◌, false, length, take, IfOk, IfErr, OnErr};
ghost use Rattle.std.specs.Io.KnownBytes.{Keeps};
ghost use Rattle.bfs_replay.specs.Writing.{IsTold, Prints, Writes};

use crate::run::ReplayError;
use std::io::{ErrorKind, Write};
use std::marker::Model;

/// What a run writes to: a writer, and whether it has refused bytes. It refuses where it fails for another reason than want of memory, and
/// where it takes none of the bytes that it is given.
#[derive(Drop)]
pub struct Output<W: Write> {
    writer: W,
    refused: bool,
}

impl<W: Write> Model for Output<W> {
    ghost use Rattle.bfs_replay.specs.Writing as model;

    ghost Value = { model.Written };

    ghost view = { λ output. record { contents = W.contents output.writer; refused = output.refused } };
}

impl<W: Write> Output<W> {
    /// A writer that has refused nothing yet.
    pub fn new(writer: W) -> Output<W>
        ensures { result ≡ record { contents = W.contents writer; refused = false } }
    {
        Output {
            writer,
            refused: false,
        }
    }

    /// Whether the writer has refused bytes.
    pub fn has_refused(&self) -> bool
        ensures { result ≡ self.now.refused }
    {
        self.refused
    }

    /// Writes all of the bytes.
    pub(crate) fn write(&mut self, bytes: &[u8]) -> Result<(), ReplayError>
        ensures { Prints result self.old self.new bytes.now }
    {
        let mut rest = bytes;
        while !rest.is_empty() {
            let count = self.write_some(rest)?;
            rest = &rest[count..];
        }
        Ok(())
    }

    // at least one; what is interrupted is tried again
    fn write_some(&mut self, bytes: &[u8]) -> Result<usize, ReplayError>
        ensures some { IfOk result (λ count. (0 < count) × (count ≤ length bytes.now) × Writes self.old self.new (take count bytes.now)) }
        ensures kept { OnErr result (Keeps self.old.contents self.new.contents) }
        ensures told { IfErr result (λ error. IsTold error self.old self.new) }
    {
        for _ in 0..u64::MAX {
            match self.writer.write(bytes) {
                Ok(0) => break,
                Ok(count) => return Ok(count),
                Err(error) => match error.kind() {
                    ErrorKind::Interrupted => {}
                    ErrorKind::OutOfMemory => return Err(ReplayError::Memory),
                    _ => break,
                },
            }
        }
        self.refused = true;
        Err(ReplayError::WriteFault)
    }
}
