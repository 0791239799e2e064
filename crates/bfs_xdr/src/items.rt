// Each function reads one item from the front of a slice, and gives it with the bytes after it.
ghost use Rattle.std.specs.Prelude.{◌≡◌};
ghost use Rattle.bfs_model.specs.Bytes.Items.{padding_of, are_zeros, word_at, hyper_at, boolean_at, bytes_at, fixed_at, opaque_at};
ghost use Rattle.bfs_xdr.specs.Faults.{fault_of};
ghost use Rattle.bfs_xdr.specs.Reading.{Gives};

use crate::error::XdrError;

pub(crate) fn padding(len: usize) -> usize
    ensures { result ≡ padding_of len }
{
    (4 - len % 4) % 4
}

fn all_zero(bytes: &[u8]) -> bool
    ensures { result ≡ are_zeros bytes.now }
{
    bytes.iter().all(|byte| *byte == 0)
}

#[tactic(auto, unfolding(bfs_model::specs::Bytes::Items::word_at))]
pub(crate) fn word_of(bytes: &[u8]) -> Result<(u32, &[u8]), XdrError>
    ensures { Gives (λ x. (x.0, x.1.now)) fault_of result (word_at bytes.now) }
{
    if bytes.len() < 4 {
        return Err(XdrError::Short);
    }
    let (word, rest) = bytes.split_at(4);
    Ok((
        u32::from_be_bytes([word[0], word[1], word[2], word[3]]),
        rest,
    ))
}

#[tactic(auto, unfolding(bfs_model::specs::Bytes::Items::hyper_at))]
pub(crate) fn hyper_of(bytes: &[u8]) -> Result<(u64, &[u8]), XdrError>
    ensures { Gives (λ x. (x.0, x.1.now)) fault_of result (hyper_at bytes.now) }
{
    if bytes.len() < 8 {
        return Err(XdrError::Short);
    }
    let (hyper, rest) = bytes.split_at(8);
    let value = u64::from_be_bytes([
        hyper[0], hyper[1], hyper[2], hyper[3], hyper[4], hyper[5], hyper[6], hyper[7],
    ]);
    Ok((value, rest))
}

#[tactic(auto, unfolding(bfs_model::specs::Bytes::Items::boolean_at))]
pub(crate) fn boolean_of(bytes: &[u8]) -> Result<(bool, &[u8]), XdrError>
    ensures { Gives (λ x. (x.0, x.1.now)) fault_of result (boolean_at bytes.now) }
{
    let (word, rest) = word_of(bytes)?;
    match word {
        0 => Ok((false, rest)),
        1 => Ok((true, rest)),
        _ => Err(XdrError::BadBool),
    }
}

#[tactic(auto, unfolding(bfs_model::specs::Bytes::Items::bytes_at))]
fn bytes_of(count: usize, bytes: &[u8]) -> Result<(&[u8], &[u8]), XdrError>
    ensures { Gives (λ x. (x.0.now, x.1.now)) fault_of result (bytes_at count bytes.now) }
{
    if bytes.len() < count {
        return Err(XdrError::Short);
    }
    Ok(bytes.split_at(count))
}

#[tactic(auto, unfolding(bfs_model::specs::Bytes::Items::fixed_at))]
pub(crate) fn fixed_of(strict: bool, count: usize, bytes: &[u8]) -> Result<(&[u8], &[u8]), XdrError>
    ensures { Gives (λ x. (x.0.now, x.1.now)) fault_of result (fixed_at strict count bytes.now) }
{
    let (item, rest) = bytes_of(count, bytes)?;
    let (zeros, rest) = bytes_of(padding(count), rest)?;
    if strict && !all_zero(zeros) {
        return Err(XdrError::BadPadding);
    }
    Ok((item, rest))
}

#[tactic(auto, unfolding(bfs_model::specs::Bytes::Items::opaque_at))]
pub(crate) fn opaque_of(strict: bool, max: u32, bytes: &[u8]) -> Result<(&[u8], &[u8]), XdrError>
    ensures { Gives (λ x. (x.0.now, x.1.now)) fault_of result (opaque_at strict max bytes.now) }
{
    let (count, rest) = word_of(bytes)?;
    if count > max {
        return Err(XdrError::TooLong);
    }
    fixed_of(strict, count as usize, rest)
}
