// The upper levels of signatures, which are the same in most of a sender's.
ghost use Rattle.std.specs.Prelude.{◌≡◌};
ghost use Rattle.lms.specs.Levels.{hss_verifies};

use crate::places::Place;
use crate::principals::Principal;
use lms::{HssPublicKey, UpperLevels, hss_verify};
use std::alloc::{AllocError, Global};

/// The upper levels of signatures that passed last, of each sender by its number. Those of a replica's CHECKPOINTs stand alone, since it signs them by other trees than
/// all else, in turn with these.
#[derive(Drop)]
pub(crate) struct KeptLevels {
    clients: Vec<UpperLevels>,
    checkpoints: Vec<UpperLevels>,
    votes: Vec<UpperLevels>,
}

impl KeptLevels {
    // none yet of so many replicas and clients
    pub(crate) fn new(
        alloc: Global,
        replicas: usize,
        clients: usize,
    ) -> Result<KeptLevels, AllocError> {
        Ok(KeptLevels {
            clients: none_of_each(alloc, clients)?,
            checkpoints: none_of_each(alloc, replicas)?,
            votes: none_of_each(alloc, replicas)?,
        })
    }

    // of what the sender signed last that was of such a place
    pub(crate) fn levels_of(
        &self,
        sender: Principal,
        place: Option<Place>,
    ) -> Option<&UpperLevels> {
        match (sender, place) {
            (Principal::Client(number), _) => self.clients.get(number as usize),
            (Principal::Replica(number), Some(Place::Checkpoint { .. })) => {
                self.checkpoints.get(number as usize)
            }
            (Principal::Replica(number), _) => self.votes.get(number as usize),
        }
    }
}

fn none_of_each(alloc: Global, count: usize) -> Result<Vec<UpperLevels>, AllocError> {
    let mut all = Vec::new(alloc);
    for _ in 0..count {
        all.push(UpperLevels::new(alloc))?;
    }
    Ok(all)
}

// whether it is a signature of the root by the public key. Levels that are kept of the sender are not hashed again.
pub(crate) fn is_root_signed(
    levels: Option<&UpperLevels>,
    public_key: &[u8],
    root: &[u8],
    signature: &[u8],
) -> bool
    ensures { result ≡ hss_verifies public_key.now root.now signature.now }
{
    match (levels, HssPublicKey::from_bytes(public_key)) {
        (Some(levels), Some(key)) => levels.verify(&key, root, signature),
        _ => hss_verify(public_key, root, signature),
    }
}
