// A replica's keys, as the documents say them.
ghost use Rattle.std.specs.Prelude.{◌≡◌, ◌≤◌, None, IfOk, length};
ghost use Rattle.std.specs.Option.{option_map};
ghost use Rattle.bfs_model.specs.Server.Limits.{most_clients};
ghost use Rattle.bfs_auth.specs.Principals.{number_of};
ghost use Rattle.bfs_auth.specs.Replicas.{AreOfReplica};
ghost use Rattle.bfs_log.specs.Certificates.{faults};
ghost use Rattle.replica.specs.Keys.{AreOfCluster, KnowSigners, public_key_said};

use crate::signer::with_signer_at;
use anyhow::{Context, Error};
use bfs_auth::{Keys, Principal};
use bfs_deployment::Deployment;
use bfs_settings::parse_keys;
use bfs_types::MOST_CLIENTS;
use lms::HssPublicKey;
use std::fs;
use std::rt::Runtime;

/// The keys of a replica of that cluster, with the public keys by which its clients and its replicas sign. Where replicas do, it signs by the private key in a file
/// of its own.
pub(crate) fn keys_at<R: Runtime + AllocGlobal>(
    rt: &R,
    deployment: &Deployment,
    path: &str,
    key: Option<&str>,
) -> Result<Keys, Error>
    ensures replica { IfOk result (λ keys. AreOfReplica (faults keys) (number_of keys.me) keys) }
    ensures clients { IfOk result (λ keys. length keys.clients ≤ most_clients) }
    ensures cluster { IfOk result (AreOfCluster deployment.now) }
{
    let alloc = rt.alloc();
    let keys = shared_keys_at(rt, deployment, path).context(String::from_str(alloc, path)?)?;
    match (public_key_said(deployment, keys.me()), key) {
        (None, None) => Ok(keys),
        (Some(public_key), Some(key)) => {
            with_signer_at(rt, keys, public_key, key).context(String::from_str(alloc, key)?)
        }
        (Some(_), None) => Err(Error::msg("the cluster's replicas sign: --key is missing")),
        (None, Some(_)) => Err(Error::msg(
            "the cluster's replicas do not sign: --key is of no use",
        )),
    }
}

/// The public key by which that replica signs, as the cluster says it.
fn public_key_said(deployment: &Deployment, me: Principal) -> Option<&HssPublicKey>
    ensures { option_map (λ key. key.now) result ≡ public_key_said deployment.now me }
{
    match me {
        Principal::Replica(number) => deployment.replica_signers().get(number as usize),
        Principal::Client(_) => None,
    }
}

/// What a replica of that cluster shares with others, and the public keys of those that sign.
fn shared_keys_at<R: Runtime + AllocGlobal>(
    rt: &R,
    deployment: &Deployment,
    path: &str,
) -> Result<Keys, Error>
    ensures replica { IfOk result (λ keys. AreOfReplica (faults keys) (number_of keys.me) keys) }
    ensures clients { IfOk result (λ keys. length keys.clients ≤ most_clients) }
    ensures signers { IfOk result (KnowSigners deployment.now) }
    ensures unsigned { IfOk result (λ keys. keys.signer ≡ None) }
{
    let document = fs::read(rt, path)?;
    let keys = parse_keys(rt.alloc(), document.as_slice())?
        .with_signers(deployment.signers().to_vec(rt.alloc())?)
        .with_replica_signers(deployment.replica_signers().to_vec(rt.alloc())?);
    let Some((f, _)) = keys.replica_of() else {
        return Err(Error::msg("these are not the keys of a replica"));
    };
    if f != deployment.f() {
        return Err(Error::msg("there are other replicas in the cluster"));
    }
    if keys.clients() != deployment.clients() as usize || keys.clients() > MOST_CLIENTS as usize {
        return Err(Error::msg("there are other clients in the cluster"));
    }
    Ok(keys)
}
