ghost use Rattle.std.specs.Prelude.{◌≡◌, ◌≤◌, length, option_copied};
ghost use Rattle.bfs_model.specs.Server.Limits.{most_clients, most_faults};
ghost use Rattle.bfs_settings.specs.Settings.{replicas_for};
ghost use Rattle.bfs_deployment.specs.Deployment.{OneEach, most_patience};
ghost use Rattle.bfs_deployment.specs.Limits.{AreRoomy};

use crate::text::Text;
use bfs_frames::Limits;
use lms::HssPublicKey;
use std::marker::Model;

/// How many milliseconds a replica waits for a request where a document doesn't say.
pub const DEFAULT_PATIENCE: u32 = 2_000;

/// The most milliseconds that a replica may wait for a request.
pub const MOST_PATIENCE: u32 = 60_000;

/// A cluster as all its processes know it.
#[derive(Debug, Drop)]
pub struct Deployment {
    pub(crate) f: u32,
    pub(crate) clients: u32,
    pub(crate) replicas: Vec<Text>,
    pub(crate) relay: Text,
    pub(crate) portmap: Option<Text>,
    pub(crate) patience: u32,
    pub(crate) signers: Vec<HssPublicKey>,
    pub(crate) replica_signers: Vec<HssPublicKey>,
    pub(crate) limits: Limits,
}

impl Model for Deployment {
    ghost use Rattle.std.specs.Prelude.{length};
    ghost use Rattle.bfs_deployment.specs.Deployment as model;

    ghost Value = { model.Deployment };

    ghost view = { λ held. record {
      f = held.f;
      clients = held.clients;
      replicas = held.replicas.items;
      relay = held.relay;
      portmap = held.portmap;
      patience = held.patience;
      signers = held.signers.items;
      replica_signers = held.replica_signers.items;
      limits = held.limits;
    } };

    ghost invariant = { λ held. model.IsDeployment held.f held.clients (length held.replicas.items) held.patience (length held.signers.items) (length held.replica_signers.items) held.limits };
}

impl Deployment {
    /// How many replicas may fail.
    pub fn f(&self) -> u32
        ensures value { result ≡ self.now.f }
        ensures most { result ≤ most_faults }
    {
        self.f
    }

    /// How many clients there are.
    pub fn clients(&self) -> u32
        ensures value { result ≡ self.now.clients }
        ensures least { 1 ≤ result }
        ensures most { result ≤ most_clients }
    {
        self.clients
    }

    /// The addresses of the replicas by their numbers: 3f + 1 of them.
    pub fn replicas(&self) -> &[Text]
        ensures value { result.now ≡ self.now.replicas }
        ensures count { length result.now ≡ replicas_for self.now.f }
    {
        self.replicas.as_slice()
    }

    /// The address of the relay, where clients of NFS call.
    pub fn relay(&self) -> &str
        ensures { result.now ≡ self.now.relay }
    {
        self.relay.as_str()
    }

    /// The address at which the relay answers those who ask for its port, if there is one.
    pub fn portmap(&self) -> Option<&str>
        ensures { option_copied result ≡ self.now.portmap }
    {
        match &self.portmap {
            Some(address) => Some(address.as_str()),
            None => None,
        }
    }

    /// How many milliseconds a replica waits for a request to be executed before it asks for the next view.
    pub fn patience(&self) -> u32
        ensures value { result ≡ self.now.patience }
        ensures least { 1 ≤ result }
        ensures most { result ≤ most_patience }
    {
        self.patience
    }

    /// The public keys of clients by their numbers, or none: then no client signs its requests.
    pub fn signers(&self) -> &[HssPublicKey]
        ensures value { result.now ≡ self.now.signers }
        ensures count { OneEach self.now.clients (length result.now) }
    {
        self.signers.as_slice()
    }

    /// The public keys of replicas by their numbers, or none: then no replica signs.
    pub fn replica_signers(&self) -> &[HssPublicKey]
        ensures value { result.now ≡ self.now.replica_signers }
        ensures count { OneEach (replicas_for self.now.f) (length result.now) }
    {
        self.replica_signers.as_slice()
    }

    /// The most bytes of a frame of each kind: no fewer than by default.
    pub fn limits(&self) -> Limits
        ensures value { result ≡ self.now.limits }
        ensures roomy { AreRoomy result }
    {
        self.limits
    }
}
