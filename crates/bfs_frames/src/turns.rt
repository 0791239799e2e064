ghost use Rattle.std.specs.Prelude.{◌≡◌, ◌≤◌, ◌++◌, All, length, IfOk, IfSome, IfNone, IsErrOf, OnOk};
ghost use Rattle.std.specs.Io.KnownBytes.{Consumes, IsAtEnd};
ghost use Rattle.bfs_model.specs.Bytes.Items.{word};
ghost use Rattle.bfs_frames.specs.declared.error.InputError.TheVariants as input;
ghost use Rattle.bfs_frames.specs.declared.error.ReadError.TheVariants as errors;
ghost use Rattle.bfs_frames.specs.Cuts.{AreFewer, HasBadTime, IsCut, LacksFrames};
ghost use Rattle.bfs_frames.specs.Frames.{ReadsFrames, ReadsTurn, frames_in, most_of};

use crate::error::{InputError, ReadError};
use crate::frames::{Frame, Turn};
use crate::input::{next_byte, read_byte, read_bytes, read_word, skip_bytes, word_of};
use crate::limits::Limits;
use bfs_types::Time;
use std::alloc::{AllocError, Global};
use std::io::Read;

/// The next turn; `None` at the end of input, before the first byte of a turn. A frame of an unknown kind, or one that is longer than its limit, is
/// read over and never held: it is not among the frames. After an error nothing more can be read.
#[tactic(auto, using(crate::proofs::Cuts::cuts_of_turns))]
pub fn read_turn<R: Read>(
    alloc: Global,
    reader: &mut R,
    limits: &Limits,
) -> Result<Option<Turn>, ReadError>
    // The bytes of a turn were consumed; its frames are those that pass, in their order.
    ensures turn { IfOk result (λ found. IfSome found (ReadsTurn limits.now (R.remaining reader.old) (R.remaining reader.new))) }
    ensures memory { IfOk result (λ found. IfSome found (λ turn. All (λ frame. length frame.payload.items ≤ most_of limits.now frame.kind) turn.frames.items)) }
    ensures end { IfOk result (λ found. IfNone found (IsAtEnd (R.remaining reader.old))) }
    // The bytes begin with no whole turn.
    ensures cut { IsErrOf result errors.Cut → IfSome (R.remaining reader.old) IsCut }
    ensures bad_time { IsErrOf result errors.BadTime → IfSome (R.remaining reader.old) HasBadTime }
{
    let Some(seconds) = first_word(reader)? else {
        return Ok(None);
    };
    let useconds = read_word(reader)?;
    let Some(time) = Time::new(seconds, useconds) else {
        return Err(ReadError::BadTime);
    };
    let count = read_word(reader)?;
    let frames = read_frames(alloc, reader, limits, count)?;
    Ok(Some(Turn { time, frames }))
}

// the number in four bytes; `None` at the end of input
#[tactic(auto, using(crate::proofs::Cuts::fewer_more))]
fn first_word<R: Read>(reader: &mut R) -> Result<Option<u32>, InputError>
    ensures word { IfOk result (λ found. IfSome found (λ number. Consumes (R.remaining reader.old) (R.remaining reader.new) (word number))) }
    ensures end { IfOk result (λ found. IfNone found (IsAtEnd (R.remaining reader.old))) }
    ensures cut { IsErrOf result input.Cut → IfSome (R.remaining reader.old) (AreFewer 4) }
{
    let Some(first) = next_byte(reader)? else {
        return Ok(None);
    };
    let second = read_byte(reader)?;
    let third = read_byte(reader)?;
    let fourth = read_byte(reader)?;
    Ok(Some(word_of(&[first, second, third, fourth])))
}

// so many frames
#[tactic(auto, using(crate::proofs::Cuts::cut_at_frame))]
fn read_frames<R: Read>(
    alloc: Global,
    reader: &mut R,
    limits: &Limits,
    count: u32,
) -> Result<Vec<Frame>, InputError>
    ensures frames { IfOk result (λ frames. ReadsFrames limits.now (R.remaining reader.old) (R.remaining reader.new) count frames.items) }
    ensures cut { IsErrOf result input.Cut → IfSome (R.remaining reader.old) (LacksFrames count) }
{
    let mut frames = Vec::new(alloc);
    for _ in 0..count {
        let found = read_frame(alloc, reader, limits)?;
        keep(&mut frames, found)?;
    }
    Ok(frames)
}

// one frame; `None` where it is read over
#[tactic(auto, using(crate::proofs::Cuts::cut_at_kind, crate::proofs::Cuts::cut_at_length, crate::proofs::Cuts::cut_at_payload))]
fn read_frame<R: Read>(
    alloc: Global,
    reader: &mut R,
    limits: &Limits,
) -> Result<Option<Frame>, InputError>
    ensures frame { IfOk result (λ found. ReadsFrames limits.now (R.remaining reader.old) (R.remaining reader.new) 1 (frames_in found)) }
    ensures cut { IsErrOf result input.Cut → IfSome (R.remaining reader.old) (LacksFrames 1) }
{
    let number = read_byte(reader)?;
    let len = read_word(reader)?;
    match limits.kind_within(number, len) {
        Some(kind) => {
            let payload = read_bytes(alloc, reader, len as usize)?;
            Ok(Some(Frame { kind, payload }))
        }
        None => {
            skip_bytes(reader, len as usize)?;
            Ok(None)
        }
    }
}

// puts a frame behind the others, if there is one
fn keep(frames: &mut Vec<Frame>, found: Option<Frame>) -> Result<(), AllocError>
    ensures { OnOk result (frames.new.items ≡ frames.old.items ++ frames_in found) }
{
    match found {
        Some(frame) => Ok(frames.push(frame)?),
        None => Ok(()),
    }
}
