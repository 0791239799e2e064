// Digits of a hash and of its checksum.
ghost use Rattle.std.specs.Prelude.{◌≡◌, ◌+◌, ◌*◌, ◌<◌, ◌≤◌, ◌++◌, length};
ghost use Rattle.std.specs.Int.{to_be_bytes, w16};
ghost use Rattle.lms.specs.Digits.{checksum, coef, with_checksum};
ghost use Rattle.lms.specs.Types.{width};

use crate::types::OtsType;

// the digit at a place
pub(crate) fn digit_at(ots: OtsType, bytes: &[u8], place: usize) -> u8
    requires { place * width ots < 8 * length bytes.now }
    ensures { result ≡ coef (width ots) bytes.now place }
{
    match ots {
        OtsType::W1 => bytes[place / 8] >> (7 - place % 8) & 1,
        OtsType::W2 => bytes[place / 4] >> (6 - 2 * (place % 4)) & 3,
        OtsType::W4 => bytes[place / 2] >> (4 - 4 * (place % 2)) & 15,
        OtsType::W8 => bytes[place],
    }
}

fn checksum(ots: OtsType, hash: &[u8; 32]) -> u16
    ensures { result ≡ checksum ots hash.now }
{
    let mut sum: u16 = 0;
    for place in 0..ots.hash_digits() {
        sum += u16::from(ots.last_step() - digit_at(ots, hash, place as usize));
    }
    sum << ots.checksum_shift()
}

// a hash with its checksum behind it
pub(crate) fn with_checksum(ots: OtsType, hash: &[u8; 32]) -> [u8; 34]
    ensures { result ≡ with_checksum ots hash.now }
{
    let mut out = [0; 34];
    out[..32].copy_from_slice(hash);
    out[32..].copy_from_slice(&checksum(ots, hash).to_be_bytes());
    out
}
