// What a replica signs with.
ghost use Rattle.std.specs.Prelude.{◌≡◌, IfOk, Some, bytes_eq, true};
ghost use Rattle.lms.specs.Levels.{hss_public_key_bytes};
ghost use Rattle.lms.specs.Signers.{hss_public_key};
ghost use Rattle.replica.specs.Keys.{is_key_of};

use anyhow::Error;
use bfs_auth::Keys;
use bfs_settings::{SigningKey, parse_signing_key};
use bfs_types::Memory;
use lms::{HssPublicKey, Tree};
use std::alloc::{AllocError, Global};
use std::fs;
use std::rt::Runtime;

// By more, signatures have more bytes than a message takes (`bfs_auth::MOST_SIGNATURE_BYTES`).
const MOST_LEVELS: usize = 4;

/// The same keys, with which the replica signs by the private key in that file, whose public key is this one. It takes long to make its first trees.
pub(crate) fn with_signer_at<R: Runtime + AllocGlobal>(
    rt: &R,
    keys: Keys,
    public_key: &HssPublicKey,
    path: &str,
) -> Result<Keys, Error>
    ensures same { IfOk result (λ made. made ≡ record keys { signer = made.signer }) }
    ensures key { IfOk result (λ made. is_key_of made.signer (Some public_key.now) ≡ true) }
{
    let document = fs::read(rt, path)?;
    let key = parse_signing_key(rt.alloc(), document.as_slice())?;
    if key.below.len() >= MOST_LEVELS {
        return Err(Error::msg("it has more than four levels"));
    }
    if !are_same(&public_key_of(rt.alloc(), &key)?, public_key) {
        return Err(Error::msg(
            "it is not the key by which the cluster says that this replica signs",
        ));
    }
    Ok(with_key(rt.alloc(), keys, key)?)
}

fn with_key(alloc: Global, keys: Keys, key: SigningKey) -> Result<Keys, Memory>
    ensures { IfOk result (λ made. made ≡ record keys { signer = Some (record { first = key.first; below = key.below.items }) }) }
{
    keys.with_signer(alloc, key.first, key.below)
}

fn public_key_of(alloc: Global, key: &SigningKey) -> Result<HssPublicKey, AllocError>
    ensures { IfOk result (λ public_key. public_key ≡ hss_public_key (record { first = key.now.first; below = key.now.below.items })) }
{
    Ok(HssPublicKey {
        levels: key.below.len() as u32 + 1,
        key: Tree::new(alloc, key.first)?.public_key(),
    })
}

fn are_same(one: &HssPublicKey, other: &HssPublicKey) -> bool
    ensures { result ≡ bytes_eq (hss_public_key_bytes one.now) (hss_public_key_bytes other.now) }
{
    one.to_bytes() == other.to_bytes()
}
