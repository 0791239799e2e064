ghost use Rattle.std.specs.Prelude.{◌≡◌, ◌≤◌, length, IfOk};
ghost use Rattle.bfs_model.specs.Server.Limits.{most_clients, most_faults, most_replicas};
ghost use Rattle.bfs_settings.specs.Outcomes.{Gives};
ghost use Rattle.bfs_settings.specs.Settings.{default_settings, most_secret_bytes, replicas_for, settings_of};

use crate::error::SettingsError;
use bfs_types::{Bytes, MOST_CLIENTS, MOST_FAULTS, Memory};
use std::alloc::Global;
use std::marker::Model;

/// The most bytes of a secret.
pub const MOST_SECRET_BYTES: usize = 64;

pub(crate) const DEFAULT_FAULTS: u32 = 0;

pub(crate) const DEFAULT_CLIENTS: u32 = 16;

pub(crate) const DEFAULT_SECRET: [u8; 32] = [0; 32];

/// How a run is set up: the faults that its replicas tolerate, at most `MOST_FAULTS`; its clients, 1 to `MOST_CLIENTS`; and the
/// secret from which they derive the keys that two of them share, 1 to `MOST_SECRET_BYTES` bytes.
#[derive(Drop)]
pub struct Settings {
    f: u32,
    clients: u32,
    secret: Bytes<MOST_SECRET_BYTES>,
}

impl Model for Settings {
    ghost use Rattle.std.specs.Prelude.{IsTrue};
    ghost use Rattle.bfs_settings.specs.Settings as model;

    ghost Value = { model.Settings };

    ghost view = { λ settings. record { f = settings.f; clients = settings.clients; secret = settings.secret } };

    ghost invariant = { λ settings. IsTrue (model.are_settings settings.f settings.clients settings.secret) };
}

impl Settings {
    /// Settings of so many faults and clients, with a copy of the secret. `SettingsError::BadSettings` if one of the three is out
    /// of its range.
    pub fn new(
        alloc: Global,
        f: u32,
        clients: u32,
        secret: &[u8],
    ) -> Result<Settings, SettingsError>
        ensures { Gives (λ settings. settings) result (settings_of f clients secret.now) }
    {
        let are_clients = (1..=MOST_CLIENTS).contains(&clients);
        let is_secret = (1..=MOST_SECRET_BYTES).contains(&secret.len());
        if f <= MOST_FAULTS && are_clients && is_secret {
            let secret = Bytes::new(alloc, secret)?;
            Ok(Settings { f, clients, secret })
        } else {
            Err(SettingsError::BadSettings)
        }
    }

    /// How many faults are tolerated.
    pub fn f(&self) -> u32
        ensures value { result ≡ self.now.f }
        ensures most { result ≤ most_faults }
    {
        self.f
    }

    /// How many replicas it takes to tolerate them: 3f + 1 (OSDI 1999 section 3).
    pub fn replicas(&self) -> u32
        ensures value { result ≡ replicas_for self.now.f }
        ensures least { 1 ≤ result }
        ensures most { result ≤ most_replicas }
    {
        3 * self.f + 1
    }

    /// How many clients there are.
    pub fn clients(&self) -> u32
        ensures value { result ≡ self.now.clients }
        ensures least { 1 ≤ result }
        ensures most { result ≤ most_clients }
    {
        self.clients
    }

    /// The secret from which keys are derived.
    pub fn secret(&self) -> &[u8]
        ensures value { result.now ≡ self.now.secret }
        ensures least { 1 ≤ length result.now }
        ensures most { length result.now ≤ most_secret_bytes }
    {
        self.secret.as_slice()
    }
}

/// The settings where nothing is set: no fault is tolerated, there are 16 clients, and the secret is 32 zeros, which is none.
pub fn default_settings(alloc: Global) -> Result<Settings, Memory>
    ensures { IfOk result (λ settings. settings ≡ default_settings) }
{
    let secret = Bytes::new(alloc, &DEFAULT_SECRET)?;
    Ok(Settings {
        f: DEFAULT_FAULTS,
        clients: DEFAULT_CLIENTS,
        secret,
    })
}
