ghost use Rattle.std.specs.Prelude.{◌≡◌, IfOk, Some};
ghost use Rattle.bfs_messages.specs.Spelling.{signed_text};
ghost use Rattle.bfs_codec.specs.Reading.{message_of};

use bfs_messages::{Message, Signed, put_message};
use bfs_types::Memory;
use std::alloc::Global;

/// The bytes of a message and its authenticator. `Memory` if memory runs out.
pub fn encode(alloc: Global, signed: &Signed<Message>) -> Result<Vec<u8>, Memory>
    ensures text { IfOk result (λ bytes. bytes.items ≡ signed_text signed.now) }
    ensures again { IfOk result (λ bytes. message_of bytes.items ≡ Some signed.now) }
{
    let mut bytes = Vec::new(alloc);
    put_message(&mut bytes, signed)?;
    Ok(bytes)
}
