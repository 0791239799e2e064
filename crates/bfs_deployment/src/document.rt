ghost use Rattle.std.specs.Prelude.{◌≡◌, ◌≤◌, IfOk, length};
ghost use Rattle.toml.specs.Data.{get_member};
ghost use Rattle.toml.specs.View.{table_view, view};
ghost use Rattle.bfs_model.specs.Server.Limits.{most_faults};
ghost use Rattle.bfs_settings.specs.Settings.{replicas_for};
ghost use Rattle.bfs_deployment.specs.Document.{deployment_in, deployment_said, deployment_spelled, portmap_in, replicas_in};
ghost use Rattle.bfs_deployment.specs.Keys.{document_keys, name_of};
ghost use Rattle.bfs_frames.specs.Limits.{default_limits};
ghost use Rattle.bfs_deployment.specs.Limits.{AreRoomy, limits_in};
ghost use Rattle.bfs_deployment.specs.Outcomes.{Gives};
ghost use Rattle.bfs_deployment.specs.Tables.{said_or};
ghost use Rattle.bfs_deployment.specs.declared.key.Key.TheVariants as key;

use crate::deployment::{DEFAULT_PATIENCE, Deployment, MOST_PATIENCE};
use crate::error::DeploymentError;
use crate::key::Key;
use crate::limits::limits_in;
use crate::signers::signers_at;
use crate::tables::{
    needed, number_at, number_or, read_table, text_in, texts_in, unknown_in, value_at,
};
use crate::text::Text;
use bfs_frames::Limits;
use bfs_types::{MOST_CLIENTS, MOST_FAULTS};
use std::alloc::Global;
use toml::{Table, Value};

const DOCUMENT_KEYS: [Key; 9] = [
    Key::F,
    Key::Clients,
    Key::Replicas,
    Key::Relay,
    Key::Portmap,
    Key::Patience,
    Key::Signers,
    Key::ReplicaSigners,
    Key::Limits,
];

fn replicas_in(alloc: Global, value: &Value, f: u32) -> Result<Vec<Text>, DeploymentError>
    requires { f ≤ most_faults }
    ensures value { Gives (λ replicas. replicas.items) result (replicas_in f (view value.now)) }
    ensures count { IfOk result (λ replicas. length replicas.items ≡ replicas_for f) }
{
    let values = value
        .as_array()
        .ok_or(DeploymentError::WrongType(Key::Replicas))?;
    let texts = texts_in(alloc, values.as_slice(), Key::Replicas)?;
    let count = 3 * f + 1;
    if texts.len() == count as usize {
        Ok(texts)
    } else {
        Err(DeploymentError::WrongCount {
            key: Key::Replicas,
            count,
        })
    }
}

fn portmap_at(alloc: Global, table: &Table) -> Result<Option<Text>, DeploymentError>
    ensures { Gives (λ portmap. portmap) result (said_or None portmap_in (get_member (name_of key.Portmap) (table_view table.now))) }
{
    match value_at(table, Key::Portmap) {
        Some(value) => Ok(Some(text_in(alloc, value, Key::Portmap)?)),
        None => Ok(None),
    }
}

fn limits_at(alloc: Global, table: &Table) -> Result<Limits, DeploymentError>
    ensures value { Gives (λ limits. limits) result (said_or default_limits limits_in (get_member (name_of key.Limits) (table_view table.now))) }
    ensures roomy { IfOk result AreRoomy }
{
    match value_at(table, Key::Limits) {
        Some(value) => limits_in(alloc, value),
        None => Ok(Limits::new()),
    }
}

// whatever other keys there are
fn deployment_said(alloc: Global, table: &Table) -> Result<Deployment, DeploymentError>
    ensures { Gives (λ deployment. deployment) result (deployment_said (table_view table.now)) }
{
    let f = number_at(table, Key::F, 0, MOST_FAULTS)?;
    let clients = number_at(table, Key::Clients, 1, MOST_CLIENTS)?;
    let replicas = replicas_in(alloc, needed(table, Key::Replicas)?, f)?;
    let relay = text_in(alloc, needed(table, Key::Relay)?, Key::Relay)?;
    let portmap = portmap_at(alloc, table)?;
    let patience = number_or(DEFAULT_PATIENCE, table, Key::Patience, 1, MOST_PATIENCE)?;
    let signers = signers_at(alloc, table, Key::Signers, clients)?;
    let replica_signers = signers_at(alloc, table, Key::ReplicaSigners, 3 * f + 1)?;
    let limits = limits_at(alloc, table)?;
    Ok(Deployment {
        f,
        clients,
        replicas,
        relay,
        portmap,
        patience,
        signers,
        replica_signers,
        limits,
    })
}

#[tactic(auto, unfolding(crate::specs::Document::deployment_in))]
fn deployment_in(alloc: Global, table: &Table) -> Result<Deployment, DeploymentError>
    ensures { Gives (λ deployment. deployment) result (deployment_in (table_view table.now)) }
{
    match unknown_in(alloc, table, &DOCUMENT_KEYS)? {
        Some(name) => Err(DeploymentError::UnknownKey(name)),
        None => deployment_said(alloc, table),
    }
}

/// Reads the public document of a cluster, which is TOML in UTF-8:
///
/// | Key | What it says |
/// | --- | --- |
/// | `f` | how many replicas may fail: 0 to 10 |
/// | `clients` | how many clients there are: 1 to 1,024 |
/// | `replicas` | an array of 3f + 1 texts, where each replica listens |
/// | `relay` | a text, where the relay listens |
/// | `portmap` | a text, where the relay tells its port; it may be left out |
/// | `patience` | milliseconds, 1 to 60,000, that a replica waits for a request before it asks for the next view; 2,000 where it is left out |
/// | `signers` | an array of a text for each client, the 120 hexadecimal digits, in either case, of its public key (`lms::HssPublicKey`); it may be left out: then no client signs |
/// | `replica_signers` | an array of such a text for each replica; it may be left out: then no replica signs |
/// | `limits` | a table of the most bytes of frames, with the names of `Limits`' fields; what is left out is as in `Limits::new`, which is also the least |
///
/// No other key may stand there. What a text says is not looked into.
#[tactic(auto, unfolding(crate::specs::Document::deployment_spelled))]
pub fn parse_deployment(alloc: Global, text: &[u8]) -> Result<Deployment, DeploymentError>
    ensures { Gives (λ deployment. deployment) result (deployment_spelled text.now) }
{
    deployment_in(alloc, &read_table(alloc, text)?)
}
