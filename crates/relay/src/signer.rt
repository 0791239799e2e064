use anyhow::Error;
use bfs_auth::{Keys, Principal};
use bfs_deployment::Deployment;
use bfs_settings::parse_signing_key;
use lms::{HssPublicKey, Signer};
use std::fs;
use std::rt::Runtime;

/// The signer of the private key in that file, whose public key is that of the clients whose keys these are. It takes long to make its first tree.
pub(crate) fn signer_at<R: Runtime + AllocGlobal>(
    rt: &R,
    deployment: &Deployment,
    keys: &[Keys],
    path: &str,
) -> Result<Signer, Error> {
    let document = fs::read(rt, path)?;
    let key = parse_signing_key(rt.alloc(), document.as_slice())?;
    let signer = Signer::new(rt.alloc(), key.first, key.below.as_slice())?;
    let public_key = signer.public_key();
    if !keys.iter().all(|keys| signs_for(deployment.signers(), keys.me(), public_key)) {
        return Err(Error::msg("it is not the key by which the cluster's clients sign"));
    }
    Ok(signer)
}

// whether the cluster knows that public key for the client
fn signs_for(signers: &[HssPublicKey], me: Principal, public_key: HssPublicKey) -> bool {
    match me {
        Principal::Client(number) => signers.get(number as usize) == Some(&public_key),
        Principal::Replica(_) => false,
    }
}
