// That a replica has the same keys in all its lives. By others it would take less of its journal again than it took, and so forget what it has said. Its folder has a
// digest of those with which it began.
use crate::folder::{read_if_there, write_whole};
use anyhow::{Context, Error};
use bfs_deployment::Deployment;
use lms::HssPublicKey;
use sha2::{Digest, Sha256};
use std::rt::Runtime;
use std::{fs, io};

const KEYS: &str = "keys";

/// A digest of the public keys by which a cluster's clients and replicas sign, and of a replica's own document.
pub(crate) fn digest_at<R: Runtime + AllocGlobal>(
    rt: &R,
    deployment: &Deployment,
    path: &str,
) -> io::Result<[u8; 32]> {
    let document = fs::read(rt, path)?;
    let mut hasher = Sha256::new();
    hash_signers(&mut hasher, deployment.signers());
    hash_signers(&mut hasher, deployment.replica_signers());
    hasher.update(document.as_slice());
    Ok(hasher.finalize())
}

fn hash_signers(hasher: &mut Sha256, signers: &[HssPublicKey]) {
    hasher.update((signers.len() as u64).to_be_bytes());
    for signer in signers {
        hasher.update(signer.to_bytes());
    }
}

/// Whether it is noted that the folder's replica began with the keys of that digest. It isn't of one that began before folders had it, which is taken where replicas
/// don't sign; one that began with others is refused.
pub(crate) fn are_noted<R: Runtime + AllocGlobal>(
    rt: &R,
    folder: &str,
    digest: &[u8; 32],
    replicas_sign: bool,
) -> Result<bool, Error> {
    let path = format!(in rt.alloc(); "{folder}/{KEYS}")?;
    let noted = read_if_there(rt, path.as_str()).context(path)?;
    if noted.as_slice() == digest.as_slice() {
        return Ok(true);
    }
    if noted.is_empty() && !replicas_sign {
        return Ok(false);
    }
    Err(Error::msg(
        "it began with other keys, its own or those by which others sign: by these it would forget what it has said",
    ))
}

/// Notes with which keys the folder's replica begins.
pub(crate) fn note_keys<R: Runtime + AllocGlobal>(
    rt: &R,
    folder: &str,
    digest: &[u8; 32],
) -> io::Result<()> {
    write_whole(rt, folder, KEYS, digest)
}
