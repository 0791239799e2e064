ghost use Rattle.std.specs.Prelude.{◌≡◌, ◌≤◌, IfOk, map, option_map, string_bytes};
ghost use Rattle.std.specs.Result.{result_map_both};
ghost use Rattle.toml.specs.Data.{get_member};
ghost use Rattle.toml.specs.View.{items_view, table_view, view};
ghost use Rattle.bfs_deployment.specs.Keys.{is_name_of, name_of};
ghost use Rattle.bfs_deployment.specs.Outcomes.{Gives};
ghost use Rattle.bfs_deployment.specs.Tables.{needed, number_at, number_in, table_spelled, said_or, text_in, texts_in, unknown_name};

use crate::error::DeploymentError;
use crate::key::Key;
use crate::text::Text;
use bfs_types::Memory;
use std::alloc::Global;
use toml::{Table, Value};

/// The table that a document of TOML spells.
#[tactic(auto, unfolding(crate::specs::Tables::table_spelled))]
pub fn read_table(alloc: Global, document: &[u8]) -> Result<Table, DeploymentError>
    ensures { Gives (λ table. table_view table) result (table_spelled document.now) }
{
    let Ok(text) = str::from_utf8(document) else {
        return Err(DeploymentError::NotUtf8);
    };
    match toml::table_from_str(alloc, text) {
        Ok(table) => Ok(table),
        Err(error) if error.is_memory() => Err(DeploymentError::Memory),
        Err(_) => Err(DeploymentError::NotToml),
    }
}

fn is_name_of(keys: &[Key], name: &str) -> bool
    ensures { result ≡ is_name_of keys.now name.now }
{
    keys.iter().any(|key| key.name() == name)
}

fn unknown_name<'a>(table: &'a Table, keys: &[Key]) -> Option<&'a String>
    ensures { option_map (λ name. string_bytes name.now) result ≡ unknown_name keys.now (table_view table.now) }
{
    table.keys().find(|name| !is_name_of(keys, name.as_str()))
}

/// The first name in a table that is none of these keys'.
pub fn unknown_in(alloc: Global, table: &Table, keys: &[Key]) -> Result<Option<Text>, Memory>
    ensures { IfOk result (λ name. name ≡ unknown_name keys.now (table_view table.now)) }
{
    match unknown_name(table, keys) {
        Some(name) => Ok(Some(Text::new(alloc, name.as_str())?)),
        None => Ok(None),
    }
}

#[tactic(auto, using(toml::proofs::Views::table_get))]
fn value_named<'a>(table: &'a Table, name: &str) -> Option<&'a Value>
    ensures { option_map (λ value. view value.now) result ≡ get_member name.now (table_view table.now) }
{
    table.get(name)
}

/// What a table has at a key.
pub fn value_at<'a>(table: &'a Table, key: Key) -> Option<&'a Value>
    ensures { option_map (λ value. view value.now) result ≡ get_member (name_of key) (table_view table.now) }
{
    value_named(table, key.name())
}

/// What a table has at a key that may not be missing.
pub fn needed<'a>(table: &'a Table, key: Key) -> Result<&'a Value, DeploymentError>
    ensures { result_map_both (λ value. view value.now) (λ fault. fault) result ≡ needed key (table_view table.now) }
{
    value_at(table, key).ok_or(DeploymentError::Missing(key))
}

/// A whole number within bounds.
pub fn number_in(value: &Value, key: Key, least: u32, most: u32) -> Result<u32, DeploymentError>
    ensures value { result ≡ number_in key least most (view value.now) }
    ensures within { IfOk result (λ number. (least ≤ number) × (number ≤ most)) }
{
    let number = value.as_integer().ok_or(DeploymentError::WrongType(key))?;
    match u32::try_from(number) {
        Ok(number) if (least..=most).contains(&number) => Ok(number),
        _ => Err(DeploymentError::OutOfBounds { key, least, most }),
    }
}

/// A whole number within bounds at a key, which may not be missing.
pub fn number_at(table: &Table, key: Key, least: u32, most: u32) -> Result<u32, DeploymentError>
    ensures value { result ≡ number_at key least most (table_view table.now) }
    ensures within { IfOk result (λ number. (least ≤ number) × (number ≤ most)) }
{
    number_in(needed(table, key)?, key, least, most)
}

/// A whole number within bounds at a key, or the default where it isn't there.
pub fn number_or(
    default: u32,
    table: &Table,
    key: Key,
    least: u32,
    most: u32,
) -> Result<u32, DeploymentError>
    requires { (least ≤ default) × (default ≤ most) }
    ensures value { result ≡ said_or default (number_in key least most) (get_member (name_of key) (table_view table.now)) }
    ensures within { IfOk result (λ number. (least ≤ number) × (number ≤ most)) }
{
    match value_at(table, key) {
        Some(value) => number_in(value, key, least, most),
        None => Ok(default),
    }
}

/// A text.
pub fn text_in(alloc: Global, value: &Value, key: Key) -> Result<Text, DeploymentError>
    ensures { Gives (λ text. text) result (text_in key (view value.now)) }
{
    let text = value.as_str().ok_or(DeploymentError::WrongType(key))?;
    Ok(Text::new(alloc, text)?)
}

/// Texts.
pub fn texts_in(alloc: Global, values: &[Value], key: Key) -> Result<Vec<Text>, DeploymentError>
    ensures { Gives (λ texts. texts.items) result (texts_in key (items_view values.now)) }
{
    let mut texts = Vec::new(alloc);
    for value in values {
        texts.push(text_in(alloc, value, key)?)?;
    }
    Ok(texts)
}
