// The texts of states: who writes one writes it in place, behind room for its length, so that its bytes are copied once.
ghost use Rattle.std.specs.Prelude.{◌≡◌, ◌+◌, ◌≤◌, ◌++◌, ℕ, List, length, take, drop, IfOk, OnOk};
ghost use Rattle.bfs_model.specs.Bytes.Items.{hyper};
ghost use Rattle.bfs_model.specs.Server.Stored.{IsDouble};
ghost use Rattle.bfs_saving.specs.Items.{FitsLong, long_text};

use crate::items::are_bytes;
use bfs_types::Memory;
use bfs_xdr::put_u64;

/// Appends how many states there are, whose texts are to follow. `Memory` if memory runs out.
pub fn begin_many(out: &mut Vec<u8>, count: usize) -> Result<(), Memory>
    ensures text { OnOk result (out.new.items ≡ out.old.items ++ hyper count) }
    ensures fits { IsDouble count }
{
    put_u64(out, count as u64)
}

/// Appends the number of a checkpoint, and room for the length of the text of the state there, which is to follow: `end_long` takes the place of that
/// room. `Memory` if memory runs out.
#[tactic(auto, using(std::proofs::lemmas::List::append_assoc))]
pub fn begin_state(out: &mut Vec<u8>, number: u64) -> Result<usize, Memory>
    ensures text { OnOk result (out.new.items ≡ (out.old.items ++ hyper number) ++ hyper 0) }
    ensures place { IfOk result (λ start. start ≡ length (out.old.items ++ hyper number)) }
    ensures room { IfOk result (λ start. start + 8 ≤ length out.new.items) }
    ensures fits { IsDouble number }
{
    put_u64(out, number)?;
    begin_long(out)
}

/// Appends room for the length of what is to follow, and gives its place: `end_long` takes that. `Memory` if memory runs out.
#[tactic(auto, using(crate::proofs::Sealed::has_room))]
pub fn begin_long(out: &mut Vec<u8>) -> Result<usize, Memory>
    ensures text { OnOk result (out.new.items ≡ out.old.items ++ hyper 0) }
    ensures place { IfOk result (λ start. start ≡ length out.old.items) }
    ensures room { IfOk result (λ start. start + 8 ≤ length out.new.items) }
{
    let start = out.len();
    put_u64(out, 0)?;
    Ok(start)
}

/// Writes into the room at a place how many bytes stand behind it.
pub fn end_long(out: &mut Vec<u8>, start: usize)
    requires { start + 8 ≤ length out.old.items }
    ensures { (before text : List ℕ) → length before ≡ start → out.old.items ≡ (before ++ hyper 0) ++ text → (out.new.items ≡ before ++ long_text text) × FitsLong text }
{
    let (_, text) = out.split_at(start + 8);
    are_bytes(text);
    let count = text.len() as u64;
    put_at(out, start, &count.to_be_bytes());
}

// over what stands at a place
fn put_at(bytes: &mut [u8], place: usize, part: &[u8])
    requires { place + length part.now ≤ length bytes.old }
    ensures front { take (place + length part.now) bytes.new ≡ take place bytes.old ++ part.now }
    ensures behind { drop (place + length part.now) bytes.new ≡ drop (place + length part.now) bytes.old }
{
    bytes[place..place + part.len()].copy_from_slice(part);
}
