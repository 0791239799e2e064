//! Replicas and clients whose keys come of one secret.
use bfs_auth::{Keys, Principal};
use bfs_messages::{Message, Request, Signed, sign};
use bfs_node::Node;
use bfs_settings::Settings;
use bfs_testing::numbers::NULL;
use bfs_testing::words;
use bfs_types::{MOST_CLIENTS, MOST_REQUEST_BYTES, Memory, TryClone};
use std::alloc::Global;

const SECRET: &[u8] = &[0; 32];

/// 3f + 1 replicas, and so many clients.
#[derive(Clone, Copy)]
pub struct Members {
    pub f: u32,
    pub clients: u32,
}

impl Members {
    /// The keys of one of them. There is also a key for one that there isn't.
    pub fn keys(self, alloc: Global, holder: Principal) -> Result<Keys, Memory> {
        let (Principal::Replica(number) | Principal::Client(number)) = holder;
        if self.f > 10 || self.clients > MOST_CLIENTS || number > 1_000 {
            return Err(Memory);
        }
        Keys::derive(alloc, SECRET, holder, 3 * self.f + 1, self.clients)
    }

    /// The keys of a replica.
    pub fn keys_of(self, alloc: Global, replica: u32) -> Result<Keys, Memory> {
        self.keys(alloc, Principal::Replica(replica))
    }

    /// The replica of that number, which has done nothing.
    pub fn replica(self, alloc: Global, me: u32) -> Result<Node, Memory> {
        let Ok(settings) = Settings::new(alloc, self.f, self.clients, SECRET) else {
            return Err(Memory);
        };
        if me < settings.replicas() {
            Node::of_settings(alloc, &settings, me)
        } else {
            Err(Memory)
        }
    }

    /// A request with the keyed hashes of a client, who may be another one than it says.
    pub fn request(
        self,
        alloc: Global,
        signer: u32,
        message: Request,
    ) -> Result<Signed<Request>, Memory> {
        let keys = self.keys(alloc, Principal::Client(signer))?;
        let copy = Message::Request(message.try_clone(alloc)?);
        let auth = sign(alloc, &keys, copy)?.auth;
        Ok(Signed { message, auth })
    }
}

/// What a client asks for with a timestamp.
pub fn request(alloc: Global, client: u32, timestamp: u64, call: &[u8]) -> Result<Request, Memory> {
    if call.len() > MOST_REQUEST_BYTES {
        return Err(Memory);
    }
    Request::new(alloc, client, timestamp, call)
}

/// A client's call of NULL, with its timestamp as its number.
pub fn null_request(alloc: Global, client: u32, timestamp: u32) -> Result<Request, Memory> {
    let call = words::request(alloc, timestamp, NULL, &[])?;
    request(alloc, client, timestamp as u64, &call)
}

/// A request as a message.
pub fn request_message(signed: Signed<Request>) -> Signed<Message> {
    let Signed { message, auth } = signed;
    Signed {
        message: Message::Request(message),
        auth,
    }
}
