ghost use Rattle.std.specs.Prelude.{◌≡◌, codes, length};
ghost use Rattle.toml.specs.Data.{get_member};
ghost use Rattle.toml.specs.View.{table_view, view};
ghost use Rattle.bfs_auth.specs.Keys.{Keys};
ghost use Rattle.bfs_settings.specs.KeysDocument.{has_one_key_with_itself, is_system, key_in, keys_in, keys_said, keys_spelled, may_hold, me_in, pair_in, pair_said, pairs_in};
ghost use Rattle.bfs_settings.specs.Outcomes.{Gives};
ghost use Rattle.bfs_settings.specs.Tables.{said_or};

use crate::error::SettingsError;
use crate::tables::{has_only, number_in, read_table, value_at};
use bfs_auth::{Keys, Pair, Principal};
use bfs_types::{MOST_CLIENTS, MOST_FAULTS};
use hex::FromHex;
use std::alloc::Global;
use toml::{Table, Value};

pub(crate) fn key_in(value: &Value) -> Option<[u8; 32]>
    ensures { result ≡ key_in (view value.now) }
{
    <[u8; 32]>::from_hex(value.as_str()?).ok()
}

// whatever other keys there are
fn pair_said(table: &Table) -> Option<Pair>
    ensures { result ≡ pair_said (table_view table.now) }
{
    Some(Pair {
        sending: key_in(value_at(table, "sending")?)?,
        receiving: key_in(value_at(table, "receiving")?)?,
    })
}

fn pair_in(value: &Value) -> Option<Pair>
    ensures { result ≡ pair_in (view value.now) }
{
    let table = value.as_table()?;
    if !has_only(table, &["sending", "receiving"]) {
        return None;
    }
    pair_said(table)
}

fn pairs_in(alloc: Global, value: &Value) -> Result<Vec<Pair>, SettingsError>
    ensures { Gives (λ pairs. pairs.items) result (pairs_in (view value.now)) }
{
    let values = value.as_array().ok_or(SettingsError::BadSettings)?;
    let mut pairs = Vec::new(alloc);
    for value in values {
        pairs.push(pair_in(value).ok_or(SettingsError::BadSettings)?)?;
    }
    Ok(pairs)
}

fn me_in(value: &Value) -> Option<Principal>
    ensures { result ≡ me_in (view value.now) }
{
    let table = value.as_table()?;
    if !has_only(table, &["replica", "client"]) {
        return None;
    }
    match (value_at(table, "replica"), value_at(table, "client")) {
        (Some(number), None) => Some(Principal::Replica(number_in(number)?)),
        (None, Some(number)) => Some(Principal::Client(number_in(number)?)),
        _ => None,
    }
}

fn is_system(replicas: usize) -> bool
    ensures { result ≡ is_system replicas }
{
    let faults = replicas / 3;
    faults <= MOST_FAULTS as usize && replicas == 3 * faults + 1
}

fn may_hold(me: Principal, replicas: usize, clients: usize) -> bool
    ensures { result ≡ may_hold me replicas clients }
{
    match me {
        Principal::Replica(number) => {
            (number as usize) < replicas && (1..=MOST_CLIENTS as usize).contains(&clients)
        }
        Principal::Client(number) => number < MOST_CLIENTS && clients == 0,
    }
}

fn has_one_key_with_itself(me: Principal, replicas: &[Pair]) -> bool
    ensures { result ≡ has_one_key_with_itself me replicas.now }
{
    let Principal::Replica(number) = me else {
        return true;
    };
    replicas
        .get(number as usize)
        .is_none_or(|pair| pair.sending == pair.receiving)
}

// whatever other keys there are
fn keys_said(alloc: Global, table: &Table) -> Result<Keys, SettingsError>
    ensures { Gives (λ keys. keys) result (keys_said (table_view table.now)) }
{
    let bad = SettingsError::BadSettings;
    let me = value_at(table, "me").and_then(me_in).ok_or(bad)?;
    let replicas = pairs_in(alloc, value_at(table, "replicas").ok_or(bad)?)?;
    let clients = match value_at(table, "clients") {
        Some(value) => pairs_in(alloc, value)?,
        None => Vec::new(alloc),
    };
    let holds = is_system(replicas.len())
        && may_hold(me, replicas.len(), clients.len())
        && has_one_key_with_itself(me, replicas.as_slice());
    if holds {
        Ok(Keys::of_pairs(alloc, me, replicas.as_slice(), clients.as_slice())?)
    } else {
        Err(bad)
    }
}

#[tactic(auto, unfolding(crate::specs::KeysDocument::keys_in))]
fn keys_in(alloc: Global, table: &Table) -> Result<Keys, SettingsError>
    ensures { Gives (λ keys. keys) result (keys_in (table_view table.now)) }
{
    if has_only(table, &["me", "replicas", "clients"]) {
        keys_said(alloc, table)
    } else {
        Err(SettingsError::BadSettings)
    }
}

/// Reads the keys of one principal from its own private document of TOML, which has three keys:
///
/// - `me`, a table with one key, `replica` or `client`: its number as such.
/// - `replicas`, an array with a pair for each replica, by their numbers: 3f + 1 of them, f from 0 to 10.
/// - `clients`, an array with a pair for each client, by their numbers: 1 to 1,024 where `me` is a replica. Where `me` is a client it is
///   empty, or isn't there.
///
/// A pair is a table with two keys: `sending`, the key of what it sends to the other one, and `receiving`, that of what it receives
/// from it; they are one in a replica's pair with itself. Each is a text of 64 hexadecimal digits, in either case. A replica's number is
/// below that of replicas, and a client's below 1,024. `SettingsError::BadSettings` comes for all else, and for what is no TOML in UTF-8. It tells nothing of what the document says.
#[tactic(auto, unfolding(crate::specs::KeysDocument::keys_spelled))]
pub fn parse_keys(alloc: Global, document: &[u8]) -> Result<Keys, SettingsError>
    ensures { Gives (λ keys. keys) result (keys_spelled document.now) }
{
    keys_in(alloc, &read_table(alloc, document)?)
}
