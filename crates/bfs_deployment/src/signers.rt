ghost use Rattle.std.specs.Prelude.{◌≡◌, [], IfOk, length};
ghost use Rattle.toml.specs.Data.{get_member};
ghost use Rattle.toml.specs.View.{items_view, table_view, view};
ghost use Rattle.bfs_deployment.specs.Deployment.{OneEach};
ghost use Rattle.bfs_deployment.specs.Keys.{name_of};
ghost use Rattle.bfs_deployment.specs.Outcomes.{Gives};
ghost use Rattle.bfs_deployment.specs.Signers.{public_key_spelled, signer_in, signers_in, signers_of};
ghost use Rattle.bfs_deployment.specs.Tables.{said_or};

use crate::error::DeploymentError;
use crate::key::Key;
use crate::tables::value_at;
use hex::FromHex;
use lms::HssPublicKey;
use std::alloc::Global;
use toml::{Table, Value};

fn public_key_spelled(text: &str) -> Option<HssPublicKey>
    ensures { result ≡ public_key_spelled text.now }
{
    let bytes = <[u8; 60]>::from_hex(text).ok()?;
    HssPublicKey::from_bytes(&bytes)
}

fn signer_in(value: &Value, key: Key) -> Result<HssPublicKey, DeploymentError>
    ensures { result ≡ signer_in key (view value.now) }
{
    let text = value.as_str().ok_or(DeploymentError::WrongType(key))?;
    public_key_spelled(text).ok_or(DeploymentError::NoPublicKey(key))
}

fn signers_of(
    alloc: Global,
    values: &[Value],
    key: Key,
) -> Result<Vec<HssPublicKey>, DeploymentError>
    ensures { Gives (λ signers. signers.items) result (signers_of key (items_view values.now)) }
{
    let mut signers = Vec::new(alloc);
    for value in values {
        signers.push(signer_in(value, key)?)?;
    }
    Ok(signers)
}

fn signers_in(
    alloc: Global,
    value: &Value,
    key: Key,
    count: u32,
) -> Result<Vec<HssPublicKey>, DeploymentError>
    ensures value { Gives (λ signers. signers.items) result (signers_in key count (view value.now)) }
    ensures count { IfOk result (λ signers. length signers.items ≡ count) }
{
    let values = value.as_array().ok_or(DeploymentError::WrongType(key))?;
    let signers = signers_of(alloc, values.as_slice(), key)?;
    if signers.len() == count as usize {
        Ok(signers)
    } else {
        Err(DeploymentError::WrongCount { key, count })
    }
}

/// The public keys that a document says at a key, so many, or none where it isn't there.
pub fn signers_at(
    alloc: Global,
    table: &Table,
    key: Key,
    count: u32,
) -> Result<Vec<HssPublicKey>, DeploymentError>
    ensures value { Gives (λ signers. signers.items) result (said_or [] (signers_in key count) (get_member (name_of key) (table_view table.now))) }
    ensures count { IfOk result (λ signers. OneEach count (length signers.items)) }
{
    match value_at(table, key) {
        Some(value) => signers_in(alloc, value, key, count),
        None => Ok(Vec::new(alloc)),
    }
}
