ghost use Rattle.std.specs.Prelude.{◌≡◌, bytes_eq, map, option_map};
ghost use Rattle.std.specs.List.{list_any};
ghost use Rattle.toml.specs.Data.{get_member};
ghost use Rattle.toml.specs.View.{table_view, view};
ghost use Rattle.bfs_settings.specs.Outcomes.{Gives};
ghost use Rattle.bfs_settings.specs.Tables.{has_only, number_in, table_spelled};

use crate::error::SettingsError;
use std::alloc::Global;
use toml::{Table, Value};

/// The table that a document of TOML spells.
#[tactic(auto, unfolding(crate::specs::Tables::table_spelled))]
pub fn read_table(alloc: Global, document: &[u8]) -> Result<Table, SettingsError>
    ensures { Gives (λ table. table_view table) result (table_spelled document.now) }
{
    match toml::table_from_slice(alloc, document) {
        Ok(table) => Ok(table),
        Err(error) if error.is_memory() => Err(SettingsError::Memory),
        Err(_) => Err(SettingsError::BadSettings),
    }
}

/// Whether each key of a table is one of these.
pub fn has_only(table: &Table, keys: &[&str]) -> bool
    ensures { result ≡ has_only (map (λ key. key.now) keys.now) (table_view table.now) }
{
    table.keys().all(|key| is_one_of(key.as_str(), keys))
}

fn is_one_of(key: &str, keys: &[&str]) -> bool
    ensures { result ≡ list_any (λ other. bytes_eq key.now other.now) keys.now }
{
    keys.contains(&key)
}

/// What a table has at a key.
#[tactic(auto, using(toml::proofs::Views::table_get))]
pub fn value_at<'a>(table: &'a Table, key: &str) -> Option<&'a Value>
    ensures { option_map (λ value. view value.now) result ≡ get_member key.now (table_view table.now) }
{
    table.get(key)
}

/// A whole number of 32 bits.
pub fn number_in(value: &Value) -> Option<u32>
    ensures { result ≡ number_in (view value.now) }
{
    u32::try_from(value.as_integer()?).ok()
}
