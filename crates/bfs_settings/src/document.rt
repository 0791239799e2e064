ghost use Rattle.std.specs.Prelude.{◌≡◌, codes};
ghost use Rattle.toml.specs.Data.{get_member};
ghost use Rattle.toml.specs.View.{table_view, view};
ghost use Rattle.bfs_settings.specs.Document.{bytes_in, settings_in, settings_said, settings_spelled};
ghost use Rattle.bfs_settings.specs.Outcomes.{Gives};
ghost use Rattle.bfs_settings.specs.Tables.{number_in, said_or};

use crate::error::SettingsError;
use crate::settings::{DEFAULT_CLIENTS, DEFAULT_FAULTS, DEFAULT_SECRET, Settings};
use crate::tables::{has_only, number_in, read_table, value_at};
use hex::FromHexError;
use std::alloc::Global;
use toml::{Table, Value};

fn number_at(table: &Table, key: &str, default: u32) -> Option<u32>
    ensures { result ≡ said_or default number_in (get_member key.now (table_view table.now)) }
{
    match value_at(table, key) {
        Some(value) => number_in(value),
        None => Some(default),
    }
}

fn bytes_in(alloc: Global, value: &Value) -> Result<Vec<u8>, SettingsError>
    ensures { Gives (λ bytes. bytes.items) result (bytes_in (view value.now)) }
{
    let Some(text) = value.as_str() else {
        return Err(SettingsError::BadSettings);
    };
    match hex::decode(alloc, text) {
        Ok(bytes) => Ok(bytes),
        Err(FromHexError::OutOfMemory) => Err(SettingsError::Memory),
        Err(_) => Err(SettingsError::BadSettings),
    }
}

// whatever other keys there are
fn settings_said(alloc: Global, table: &Table) -> Result<Settings, SettingsError>
    ensures { Gives (λ settings. settings) result (settings_said (table_view table.now)) }
{
    let f = number_at(table, "f", DEFAULT_FAULTS).ok_or(SettingsError::BadSettings)?;
    let clients = number_at(table, "clients", DEFAULT_CLIENTS).ok_or(SettingsError::BadSettings)?;
    match value_at(table, "secret") {
        Some(value) => {
            let secret = bytes_in(alloc, value)?;
            Settings::new(alloc, f, clients, secret.as_slice())
        }
        None => Settings::new(alloc, f, clients, &DEFAULT_SECRET),
    }
}

#[tactic(auto, unfolding(crate::specs::Document::settings_in))]
fn settings_in(alloc: Global, table: &Table) -> Result<Settings, SettingsError>
    ensures { Gives (λ settings. settings) result (settings_in (table_view table.now)) }
{
    if has_only(table, &["f", "clients", "secret"]) {
        settings_said(alloc, table)
    } else {
        Err(SettingsError::BadSettings)
    }
}

/// Reads settings from a document of TOML. It may have three keys: `f`, a whole number from 0 to 10; `clients`, a whole number from
/// 1 to 1,024; and `secret`, a text of hexadecimal digits in either case that spell 1 to 64 bytes. Where a key isn't there, the
/// settings have the default for it. `SettingsError::BadSettings` comes for any other key or value, and for what is no TOML in UTF-8.
#[tactic(auto, unfolding(crate::specs::Document::settings_spelled))]
pub fn parse_settings(alloc: Global, document: &[u8]) -> Result<Settings, SettingsError>
    ensures { Gives (λ settings. settings) result (settings_spelled document.now) }
{
    settings_in(alloc, &read_table(alloc, document)?)
}
