// One-time signatures (LM-OTS).
ghost use Rattle.std.specs.Prelude.{◌≡◌, ◌*◌, length};
ghost use Rattle.lms.specs.OneTime.{key_candidate, text_hash};
ghost use Rattle.lms.specs.Types.{chain_count};
ghost use Rattle.lms.specs.Chains.{text_kind, one_time_key_kind};

use crate::bytes::hash_at;
use crate::chains::{chain_block, hasher_at, run_steps};
use crate::digits::{digit_at, with_checksum};
use crate::types::OtsType;
use sha2::Digest;

// what stands before what is hashed of one-time public keys and of texts
pub(crate) const ONE_TIME_KEY: u16 = 0x8080;

const TEXT: u16 = 0x8181;

// what of a text is signed
pub(crate) fn text_hash(id: &[u8; 16], leaf: u32, randomizer: &[u8], text: &[u8]) -> [u8; 32]
    ensures { result ≡ text_hash id.now leaf randomizer.now text.now }
{
    let mut hasher = hasher_at(id, leaf, TEXT);
    hasher.update(randomizer);
    hasher.update(text);
    hasher.finalize()
}

// the one-time public key whose signature of the hash the values are
pub(crate) fn key_candidate(
    ots: OtsType,
    id: &[u8; 16],
    leaf: u32,
    hash: &[u8; 32],
    values: &[u8],
) -> [u8; 32]
    requires { length values.now ≡ 32 * chain_count ots }
    ensures { result ≡ key_candidate ots id.now leaf hash.now values.now }
{
    let digits = with_checksum(ots, hash);
    let mut hasher = hasher_at(id, leaf, ONE_TIME_KEY);
    for chain in 0..ots.chain_count() {
        let mut block = chain_block(id, leaf, chain, hash_at(values, chain as usize));
        let cut = digit_at(ots, &digits, chain as usize);
        run_steps(&mut block, cut, ots.last_step());
        hasher.update(&block[23..]);
    }
    hasher.finalize()
}
