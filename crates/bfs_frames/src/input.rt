// Bytes that are read one part after another.
ghost use Rattle.std.specs.Prelude.{◌≡◌, ◌∷◌, [], length, IfOk, IfSome, IfNone, OnOk, IsErrOf};
ghost use Rattle.std.specs.Io.KnownBytes.{Consumes, IsAtEnd};
ghost use Rattle.bfs_model.specs.Bytes.Items.{word};
ghost use Rattle.bfs_frames.specs.declared.error.InputError.TheVariants as input;
ghost use Rattle.bfs_frames.specs.Cuts.{AreFewer};
ghost use Rattle.bfs_frames.specs.Frames.{ReadsOver};

use crate::error::InputError;
use std::alloc::Global;
use std::io;
use std::io::{Error, ErrorKind, Read};

// how many bytes of what is read over are held at once
const CHUNK: usize = 4_096;

/// The next byte; `None` at the end of input.
pub(crate) fn next_byte<R: Read>(reader: &mut R) -> io::Result<Option<u8>>
    ensures byte { IfOk result (λ found. IfSome found (λ byte. Consumes (R.remaining reader.old) (R.remaining reader.new) (byte ∷ []))) }
    ensures end { IfOk result (λ found. IfNone found (IsAtEnd (R.remaining reader.old))) }
{
    let mut byte = [0u8; 1];
    for _ in 0..u64::MAX {
        match reader.read(&mut byte) {
            Ok(0) => return Ok(None),
            Ok(_) => return Ok(Some(byte[0])),
            Err(error) if error.kind() == ErrorKind::Interrupted => {}
            Err(error) => return Err(error),
        }
    }
    Err(Error::from(ErrorKind::Interrupted))
}

// Fills the buffer. std's `read_exact` says nothing of an input that ends before.
#[tactic(auto, using(crate::proofs::Cuts::ended))]
fn fill<R: Read>(reader: &mut R, buffer: &mut [u8]) -> Result<(), InputError>
    ensures filled { OnOk result (Consumes (R.remaining reader.old) (R.remaining reader.new) buffer.new) }
    ensures cut { IsErrOf result input.Cut → IfSome (R.remaining reader.old) (AreFewer (length buffer.old)) }
{
    let mut at = 0;
    for _ in 0..u64::MAX {
        if at >= buffer.len() {
            return Ok(());
        }
        match reader.read(&mut buffer[at..]) {
            Ok(0) => return Err(InputError::Cut),
            Ok(count) => at += count,
            Err(error) => {
                if error.kind() != ErrorKind::Interrupted {
                    return Err(InputError::Failed(error));
                }
            }
        }
    }
    Err(InputError::Failed(Error::from(ErrorKind::Interrupted)))
}

/// One byte.
pub(crate) fn read_byte<R: Read>(reader: &mut R) -> Result<u8, InputError>
    ensures byte { IfOk result (λ byte. Consumes (R.remaining reader.old) (R.remaining reader.new) (byte ∷ [])) }
    ensures cut { IsErrOf result input.Cut → IfSome (R.remaining reader.old) (AreFewer 1) }
{
    let mut byte = [0u8; 1];
    fill(reader, &mut byte)?;
    Ok(byte[0])
}

/// The number in four bytes.
pub(crate) fn read_word<R: Read>(reader: &mut R) -> Result<u32, InputError>
    ensures word { IfOk result (λ number. Consumes (R.remaining reader.old) (R.remaining reader.new) (word number)) }
    ensures cut { IsErrOf result input.Cut → IfSome (R.remaining reader.old) (AreFewer 4) }
{
    let mut bytes = [0u8; 4];
    fill(reader, &mut bytes)?;
    Ok(word_of(&bytes))
}

/// So many bytes.
pub(crate) fn read_bytes<R: Read>(
    alloc: Global,
    reader: &mut R,
    len: usize,
) -> Result<Vec<u8>, InputError>
    ensures bytes { IfOk result (λ bytes. Consumes (R.remaining reader.old) (R.remaining reader.new) bytes.items) }
    ensures len { IfOk result (λ bytes. length bytes.items ≡ len) }
    ensures cut { IsErrOf result input.Cut → IfSome (R.remaining reader.old) (AreFewer len) }
{
    let mut bytes = vec![in alloc; 0u8; len]?;
    fill(reader, bytes.as_mut_slice())?;
    Ok(bytes)
}

/// Reads over so many bytes, of which few are held at once.
#[tactic(auto, using(crate::proofs::Cuts::fewer_more))]
pub(crate) fn skip_bytes<R: Read>(reader: &mut R, len: usize) -> Result<(), InputError>
    ensures over { OnOk result (ReadsOver (R.remaining reader.old) (R.remaining reader.new) len) }
    ensures cut { IsErrOf result input.Cut → IfSome (R.remaining reader.old) (AreFewer len) }
{
    let mut chunk = [0u8; CHUNK];
    let mut left = len;
    while left > 0 {
        let count = left.min(CHUNK);
        fill(reader, &mut chunk[..count])?;
        left -= count;
    }
    Ok(())
}

/// The number that four bytes spell.
#[tactic(auto, unfolding(bfs_model::specs::Bytes::Items::word))]
pub(crate) fn word_of(bytes: &[u8]) -> u32
    requires { length bytes.now ≡ 4 }
    ensures { word result ≡ bytes.now }
{
    u32::from_be_bytes([bytes[0], bytes[1], bytes[2], bytes[3]])
}
