ghost use Rattle.std.specs.Prelude.{◌≡◌, ◌<◌, ◌^◌, ◌++◌, length, replicate, OnOk, OnErr};
ghost use Rattle.bfs_model.specs.Bytes.Items.{word, hyper, boolean, fixed, counted, padding_of, words};

use crate::items::padding;
use bfs_types::Memory;

/// Appends an unsigned integer (RFC 4506 section 4.2).
#[tactic(auto, unfolding(bfs_model::specs::Bytes::Items::word))]
pub fn put_u32(out: &mut Vec<u8>, number: u32) -> Result<(), Memory>
    ensures ok { OnOk result (out.new.items ≡ out.old.items ++ word number) }
    ensures err { OnErr result (out.new.items ≡ out.old.items) }
{
    Ok(out.extend_from_slice(&number.to_be_bytes())?)
}

/// Appends an unsigned hyper integer (RFC 4506 section 4.5).
#[tactic(auto, unfolding(bfs_model::specs::Bytes::Items::hyper))]
pub fn put_u64(out: &mut Vec<u8>, value: u64) -> Result<(), Memory>
    ensures ok { OnOk result (out.new.items ≡ out.old.items ++ hyper value) }
    ensures err { OnErr result (out.new.items ≡ out.old.items) }
{
    Ok(out.extend_from_slice(&value.to_be_bytes())?)
}

/// Appends a boolean (RFC 4506 section 4.4).
#[tactic(auto, unfolding(bfs_model::specs::Bytes::Items::boolean))]
pub fn put_bool(out: &mut Vec<u8>, value: bool) -> Result<(), Memory>
    ensures ok { OnOk result (out.new.items ≡ out.old.items ++ boolean value) }
    ensures err { OnErr result (out.new.items ≡ out.old.items) }
{
    put_u32(out, if value { 1 } else { 0 })
}

/// Appends opaque data of a length that both sides know (RFC 4506 section 4.9).
#[tactic(auto, unfolding(bfs_model::specs::Bytes::Items::fixed))]
pub fn put_fixed(out: &mut Vec<u8>, bytes: &[u8]) -> Result<(), Memory>
    ensures ok { OnOk result (out.new.items ≡ out.old.items ++ fixed bytes.now) }
    ensures err { OnErr result (out.new.items ≡ out.old.items) }
{
    let before = out.len();
    out.extend_from_slice(bytes)?;
    if put_padding(out, bytes.len()).is_err() {
        out.truncate(before);
        return Err(Memory);
    }
    Ok(())
}

/// Appends the zeros that follow so many bytes of opaque data (RFC 4506 sections 4.9 to 4.11), where these were appended piece by piece.
pub fn put_padding(out: &mut Vec<u8>, count: usize) -> Result<(), Memory>
    ensures ok { OnOk result (out.new.items ≡ out.old.items ++ replicate (padding_of count) 0) }
    ensures err { OnErr result (out.new.items ≡ out.old.items) }
{
    out.resize(out.len() + padding(count), 0)?;
    Ok(())
}

/// Appends opaque data or a string behind its length (RFC 4506 sections 4.10 and 4.11).
#[tactic(auto, using(std::proofs::lemmas::List::append_assoc), unfolding(bfs_model::specs::Bytes::Items::counted))]
pub fn put_opaque(out: &mut Vec<u8>, bytes: &[u8]) -> Result<(), Memory>
    requires { length bytes.now < 2 ^ 32 }
    ensures ok { OnOk result (out.new.items ≡ out.old.items ++ counted bytes.now) }
    ensures err { OnErr result (out.new.items ≡ out.old.items) }
{
    let before = out.len();
    put_u32(out, bytes.len() as u32)?;
    if put_fixed(out, bytes).is_err() {
        out.truncate(before);
        return Err(Memory);
    }
    Ok(())
}

/// Appends unsigned integers one after another.
pub fn put_words(out: &mut Vec<u8>, numbers: &[u32]) -> Result<(), Memory>
    ensures ok { OnOk result (out.new.items ≡ out.old.items ++ words numbers.now) }
    ensures err { OnErr result (out.new.items ≡ out.old.items) }
{
    let before = out.len();
    for number in numbers {
        if put_u32(out, *number).is_err() {
            out.truncate(before);
            return Err(Memory);
        }
    }
    Ok(())
}
