//! The settings of a run: how many faults its replicas tolerate, how many clients there are, and the secret of their keys; and how
//! a document of TOML says them.
#![tactic(auto)]

mod document;
mod error;
mod keys_document;
mod settings;
mod signing_key;
mod tables;

pub use document::parse_settings;
pub use error::SettingsError;
pub use keys_document::parse_keys;
pub use settings::{MOST_SECRET_BYTES, Settings, default_settings};
pub use signing_key::{SigningKey, parse_signing_key};
