ghost use Rattle.std.specs.Prelude.{◌≡◌, ◌≢◌, ◌↔◌, ◌<◌, ◌≤◌, length, IfOk, IfErr, IfSome, IsTrue};
ghost use Rattle.std.specs.IoError.{error_kind};

use crate::failure::Failure;
use std::alloc::Global;
use std::io;
use std::io::{ErrorKind, Read};

/// The most bytes of a trace, and of a document of settings.
pub const MOST_TRACE_BYTES: usize = 67_108_864;

/// Reads all bytes that the reader has. `Failure::Input` comes if there are more than `MOST_TRACE_BYTES` or the reader refuses,
/// and `Failure::Memory` if memory runs out, here or in the reader.
pub fn read_input<R: Read + Drop>(alloc: Global, reader: R) -> Result<Vec<u8>, Failure>
    ensures all { IfOk result (λ bytes. IfSome (R.remaining reader) (λ all. bytes.items ≡ all)) }
    ensures within { IfOk result (λ bytes. length bytes.items ≤ MOST_TRACE_BYTES) }
    ensures fails { IfErr result (λ failure. failure ≢ Failure.Memory → failure ≡ Failure.Input) }
{
    let mut bytes = Vec::new(alloc);
    let mut limited = reader.take(MOST_TRACE_BYTES as u64 + 1);
    if let Err(error) = limited.read_to_end(&mut bytes) {
        return Err(read_error(error));
    }
    if is_too_long(bytes.as_slice()) {
        return Err(Failure::Input);
    }
    Ok(bytes)
}

fn is_too_long(bytes: &[u8]) -> bool
    ensures { IsTrue result ↔ (MOST_TRACE_BYTES < length bytes.now) }
{
    bytes.len() > MOST_TRACE_BYTES
}

// memory may run out in a reader too
fn read_error(error: io::Error) -> Failure
    ensures memory { (result ≡ Failure.Memory) ↔ (error_kind error ≡ ErrorKind.OutOfMemory) }
    ensures input { (result ≡ Failure.Input) ↔ (error_kind error ≢ ErrorKind.OutOfMemory) }
{
    if error.kind() == ErrorKind::OutOfMemory {
        Failure::Memory
    } else {
        Failure::Input
    }
}
