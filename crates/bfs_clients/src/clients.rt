ghost use Rattle.std.specs.Prelude.{◌≡◌, ◌≤◌, length, IfOk};
ghost use Rattle.std.specs.Option.{option_map};
ghost use Rattle.bfs_model.specs.Server.Limits.{most_request_bytes};
ghost use Rattle.bfs_clients.specs.Calls.{call_of};
ghost use Rattle.bfs_clients.specs.Clients.{clients_of, keys_at, signed_request};

use crate::tally::Tally;
use bfs_auth::{Keys, Principal};
use bfs_messages::{Message, Request, Signed, sign};
use bfs_settings::Settings;
use bfs_types::Memory;
use std::alloc::Global;
use std::marker::Model;

/// The clients of a run, and the keys that each shares with the replicas.
#[derive(Drop)]
pub struct Clients {
    pub(crate) alloc: Global,
    pub(crate) f: u32,
    keys: Vec<Keys>,
}

/// A call that a client begins: its signed request, which goes to all replicas, and the tally of the replies, of which there is none yet.
#[derive(Drop)]
pub struct Call {
    pub request: Signed<Message>,
    pub tally: Tally,
}

impl Model for Clients {
    ghost use Rattle.bfs_clients.specs.Clients as model;

    ghost Value = { model.Clients };

    ghost view = { λ clients. record { f = clients.f; keys = clients.keys.items } };
}

impl Clients {
    /// As many as the settings say, each with its keys. `Memory` if memory runs out.
    #[tactic(auto, using(crate::proofs::Numbered::one_more))]
    pub fn new(alloc: Global, settings: &Settings) -> Result<Clients, Memory>
        ensures { IfOk result (λ clients. clients ≡ clients_of settings.now) }
    {
        let mut keys = Vec::new(alloc);
        for client in 0..settings.clients() {
            keys.push(Keys::derive(
                alloc,
                settings.secret(),
                Principal::Client(client),
                settings.replicas(),
                settings.clients(),
            )?)?;
        }
        Ok(Clients {
            alloc,
            f: settings.f(),
            keys,
        })
    }

    /// Those who were given these keys, by their numbers, where at most `f` replicas are faulty.
    pub fn of_keys(alloc: Global, f: u32, keys: Vec<Keys>) -> Clients
        ensures { result ≡ record { f = f; keys = keys.items } }
    {
        Clients { alloc, f, keys }
    }

    /// How many replicas may be faulty.
    pub fn f(&self) -> u32
        ensures { result ≡ self.now.f }
    {
        self.f
    }

    /// The keys of a client; `None` where there is no such client.
    pub fn keys(&self, client: u32) -> Option<&Keys>
        ensures { option_map (λ keys. keys.now) result ≡ keys_at self.now client }
    {
        self.keys.get(client as usize)
    }

    /// The request, signed by its client for all replicas; `None` where there is no such client. `Memory` if memory
    /// runs out.
    pub fn sign(&self, request: Request) -> Result<Option<Signed<Message>>, Memory>
        ensures { IfOk result (λ signed. signed ≡ signed_request self.now request) }
    {
        match self.keys(request.client()) {
            Some(keys) => Ok(Some(sign(self.alloc, keys, Message::Request(request))?)),
            None => Ok(None),
        }
    }

    /// A call of a client, of at most `MOST_REQUEST_BYTES` bytes, with a timestamp above those of its calls before; `None` where there is no
    /// such client. `Memory` if memory runs out.
    pub fn call(&self, client: u32, timestamp: u64, bytes: &[u8]) -> Result<Option<Call>, Memory>
        requires { length bytes.now ≤ most_request_bytes }
        ensures { IfOk result (λ call. call ≡ call_of self.now (record { client = client; timestamp = timestamp; call = bytes.now })) }
    {
        let Some(request) = self.sign(Request::new(self.alloc, client, timestamp, bytes)?)? else {
            return Ok(None);
        };
        let tally = Tally::new(self.alloc, self.f, client, timestamp);
        Ok(Some(Call { request, tally }))
    }
}
