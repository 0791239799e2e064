// Answers, written so that what is written of one that fails is known.
ghost use Rattle.std.specs.Prelude.{OnErr, OnOk};
ghost use Rattle.std.specs.Io.KnownBytes.{Appends};
ghost use Rattle.bfs_frames.specs.Parcels.{answer_text};
ghost use Rattle.bfs_filter.specs.Output.{AppendsFront};

use bfs_frames::{Parcel, write_answer};
use std::alloc::Global;
use std::io;
use std::io::{Error, ErrorKind, Write};

/// Writes an answer, once its text is made, and flushes it. `OutOfMemory` or `InvalidInput` comes where it has no text; then nothing is written.
#[tactic(auto, using(crate::proofs::Written::front_none, crate::proofs::Written::front_all))]
pub(crate) fn tell<W: Write>(alloc: Global, writer: &mut W, parcels: &[Parcel]) -> io::Result<()>
    ensures whole { OnOk result (Appends (W.contents writer.old) (W.contents writer.new) (answer_text parcels.now)) }
    ensures front { OnErr result (AppendsFront (W.contents writer.old) (W.contents writer.new) (answer_text parcels.now)) }
{
    let mut text = Vec::new(alloc);
    write_answer(&mut text, parcels)?;
    write_bytes(writer, text.as_slice())?;
    writer.flush()
}

// All bytes, or a front of them. std's `write_all` doesn't say what it has written before an error.
#[tactic(auto, using(crate::proofs::Written::front_at))]
fn write_bytes<W: Write>(writer: &mut W, bytes: &[u8]) -> io::Result<()>
    ensures whole { OnOk result (Appends (W.contents writer.old) (W.contents writer.new) bytes.now) }
    ensures front { OnErr result (AppendsFront (W.contents writer.old) (W.contents writer.new) bytes.now) }
{
    let mut at = 0;
    for _ in 0..u64::MAX {
        if at >= bytes.len() {
            return Ok(());
        }
        match writer.write(&bytes[at..]) {
            Ok(0) => return Err(Error::from(ErrorKind::WriteZero)),
            Ok(count) => at += count,
            Err(error) => {
                if error.kind() != ErrorKind::Interrupted {
                    return Err(error);
                }
            }
        }
    }
    Err(Error::from(ErrorKind::Interrupted))
}
