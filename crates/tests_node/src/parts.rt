//! The messages that tests make in the name of clients and replicas.
use crate::replica::members;
use bfs_auth::Authenticator;
use bfs_codec::encode;
use bfs_log::StableCheckpoint;
use bfs_messages::{Checkpoint, Message, Reply, Request, Signed, sign_checkpoint};
use bfs_testing_nodes::members::{null_request, request_message};
use bfs_types::Memory;
use std::alloc::Global;

/// A client's call of NULL, with its timestamp as its number, for a replica that is alone.
#[derive(Clone, Copy)]
pub struct Asked {
    /// The client that signs it.
    pub signer: u32,
    /// The client in whose name it is.
    pub client: u32,
    pub timestamp: u32,
}

impl Asked {
    /// The request.
    pub fn request(self, alloc: Global) -> Result<Signed<Request>, Memory> {
        let request = null_request(alloc, self.client, self.timestamp)?;
        members(0).request(alloc, self.signer, request)
    }

    /// The request as a message.
    pub fn message(self, alloc: Global) -> Result<Signed<Message>, Memory> {
        Ok(request_message(self.request(alloc)?))
    }

    /// The bytes of the message.
    pub fn bytes(self, alloc: Global) -> Result<Vec<u8>, Memory> {
        encode(alloc, &self.message(alloc)?)
    }
}

/// A REPLY without an authenticator.
pub fn reply(alloc: Global) -> Result<Signed<Message>, Memory> {
    Ok(Signed {
        message: Message::Reply(Reply::new(alloc, 0, 0, 3, 1, &[])?),
        auth: Authenticator::new(alloc),
    })
}

/// A CHECKPOINT of number 16 among four replicas: the one that signs it, and the one in whose name it is.
#[derive(Clone, Copy)]
pub struct Told(pub u32, pub u32);

impl Told {
    fn checkpoint(self, alloc: Global, digest: [u8; 32]) -> Result<Signed<Checkpoint>, Memory> {
        let Told(signer, sender) = self;
        let keys = members(1).keys_of(alloc, signer)?;
        sign_checkpoint(alloc, &keys, Checkpoint::new(sender, 16, digest))
    }

    /// The CHECKPOINT as a message.
    pub fn message(self, alloc: Global, digest: [u8; 32]) -> Result<Signed<Message>, Memory> {
        let checkpoint = self.checkpoint(alloc, digest)?;
        Ok(checkpoint.to_order(alloc)?.into_message())
    }
}

/// Number 16 with a digest, which CHECKPOINTs tell.
pub fn stable_by(
    alloc: Global,
    told: &[Told],
    digest: [u8; 32],
) -> Result<StableCheckpoint, Memory> {
    let mut all = Vec::new(alloc);
    for one in told {
        all.push(one.checkpoint(alloc, digest)?)?;
    }
    Ok(StableCheckpoint::new(16, digest, all))
}
