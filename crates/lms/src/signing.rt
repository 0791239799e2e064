// One-time public keys and signatures by a private key.
ghost use Rattle.std.specs.Prelude.{◌≡◌, ◌++◌, OnOk};
ghost use Rattle.lms.specs.Chains.{joined};
ghost use Rattle.lms.specs.Secrets.{one_time_key, signed_value};
ghost use Rattle.lms.specs.Types.{chain_count};

use crate::chains::hasher_at;
use crate::digits::{digit_at, with_checksum};
use crate::one_time::ONE_TIME_KEY;
use crate::private_key::PrivateKey;
use sha2::Digest;
use std::alloc::AllocError;

// the one-time public key of a leaf
pub(crate) fn one_time_key(key: &PrivateKey, leaf: u32) -> [u8; 32]
    ensures { result ≡ one_time_key key.now leaf }
{
    let mut hasher = hasher_at(&key.id, leaf, ONE_TIME_KEY);
    for chain in 0..key.ots.chain_count() {
        hasher.update(key.value_after(leaf, chain, key.ots.last_step()));
    }
    hasher.finalize()
}

// appends the values of the chains of a leaf in its signature of a hash
pub(crate) fn put_values(
    out: &mut Vec<u8>,
    key: &PrivateKey,
    leaf: u32,
    hash: &[u8; 32],
) -> Result<(), AllocError>
    ensures { OnOk result (out.new.items ≡ out.old.items ++ joined (signed_value key.now leaf hash.now) (chain_count key.now.ots)) }
{
    let digits = with_checksum(key.ots, hash);
    for chain in 0..key.ots.chain_count() {
        let cut = digit_at(key.ots, &digits, chain as usize);
        out.extend_from_slice(&key.value_after(leaf, chain, cut))?;
    }
    Ok(())
}
