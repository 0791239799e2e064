ghost use Rattle.std.specs.Prelude.{◌≡◌, ◌+◌, ◌<◌, ◌≤◌, ◌^◌, ◌++◌, ℕ, map, length, slice_get, vec_len, Some, IfOk, IfSome, IsNone};
ghost use Rattle.std.specs.List.{range_with_len};
ghost use Rattle.std.specs.Option.{option_map};
ghost use Rattle.bfs_model.specs.Bytes.Items.{word};
ghost use Rattle.bfs_model.specs.Server.Limits.{most_faults, most_replicas};
ghost use Rattle.bfs_auth.specs.Principals.{first_client, number_of};
ghost use Rattle.bfs_auth.specs.Keys.{clients_known, key_from_to, keys_from, keys_of, public_key_of, shared_keys, shared_of, shared_with};
ghost use Rattle.bfs_auth.specs.Replicas.{AreOfReplica};
ghost use Rattle.lms.specs.Levels.{hss_public_key_bytes, most_levels};

use crate::kept_levels::KeptLevels;
use crate::keyed_hash::{HmacKey, hmac};
use crate::principals::Principal;
use crate::replica_signer::ReplicaSigner;
use crate::texts::Text;
use bfs_types::Memory;
use lms::{HssPublicKey, PrivateKey, TreeTypes, UpperLevels};
use std::alloc::{AllocError, Global};
use std::marker::Model;

/// Two keys of 32 bytes that a principal shares with another one: of what it sends to that one, and of what it receives from it.
#[derive(Clone, Copy)]
pub struct Pair {
    pub sending: [u8; 32],
    pub receiving: [u8; 32],
}

/// The keys that two principals share, as one of them holds them.
#[derive(Drop)]
pub struct SharedKeys {
    // of what it sends to the other one
    pub(crate) sending: HmacKey,
    // of what it receives from the other one
    pub(crate) receiving: HmacKey,
}

/// The keys that one principal holds: a replica shares keys with all replicas, itself among them, and with all clients; a client
/// shares keys with all replicas alone. Whoever knows public keys of clients takes nothing of those clients that isn't signed, and likewise nothing of replicas that is of a
/// place.
#[derive(Drop)]
pub struct Keys {
    me: Principal,
    replicas: Vec<SharedKeys>,
    clients: Vec<SharedKeys>,
    signers: Vec<HssPublicKey>,
    replica_signers: Vec<HssPublicKey>,
    signer: Option<ReplicaSigner>,
    levels: KeptLevels,
}

impl Model for Keys {
    ghost use Rattle.std.specs.Prelude.{◌≤◌, length, map};
    ghost use Rattle.bfs_model.specs.Server.Limits.{most_replicas};
    ghost use Rattle.lms.specs.Levels.{hss_public_key_bytes};
    ghost use Rattle.bfs_auth.specs.Keys as model;

    ghost Value = { model.Keys };

    ghost view = { λ keys. record { me = keys.me; replicas = keys.replicas.items; clients = keys.clients.items; signers = map hss_public_key_bytes keys.signers.items; replica_signers = map hss_public_key_bytes keys.replica_signers.items; signer = keys.signer } };

    ghost invariant = { λ keys. length keys.replicas.items ≤ most_replicas };
}

impl Keys {
    /// The keys of a principal, where there are so many replicas, at most `MOST_REPLICAS`, and so many clients. The key from one principal to
    /// another is the HMAC of their two numbers, 4 bytes each, under a secret of any length, with which all of them are set up.
    /// `Memory` if memory runs out.
    #[tactic(auto, using(crate::proofs::Numbered::as_many))]
    pub fn derive(
        alloc: Global,
        secret: &[u8],
        me: Principal,
        replicas: u32,
        clients: u32,
    ) -> Result<Keys, Memory>
        requires me { number_of me < 2 ^ 32 }
        requires replicas { replicas ≤ most_replicas }
        requires clients { first_client + clients ≤ 2 ^ 32 }
        ensures { IfOk result (λ keys. keys ≡ keys_of secret.now me replicas clients) }
    {
        let clients = match me {
            Principal::Replica(_) => clients,
            Principal::Client(_) => 0,
        };
        Ok(Keys {
            me,
            replicas: shared_with_replicas(alloc, secret, me, replicas)?,
            clients: shared_with_clients(alloc, secret, me, clients)?,
            signers: Vec::new(alloc),
            replica_signers: Vec::new(alloc),
            signer: None,
            levels: KeptLevels::new(alloc, replicas as usize, clients as usize)?,
        })
    }

    /// The keys of a principal that was given them: a pair for each replica, at most `MOST_REPLICAS`, and one for each client, by their
    /// numbers. A client shares keys with no client. `Memory` if memory runs out.
    pub fn of_pairs(
        alloc: Global,
        me: Principal,
        replicas: &[Pair],
        clients: &[Pair],
    ) -> Result<Keys, Memory>
        requires replicas { length replicas.now ≤ most_replicas }
        requires clients { clients_known me (length clients.now) ≡ length clients.now }
        ensures { IfOk result (λ keys. keys ≡ keys_from me replicas.now clients.now) }
    {
        Ok(Keys {
            me,
            replicas: shared_of_each(alloc, replicas)?,
            clients: shared_of_each(alloc, clients)?,
            signers: Vec::new(alloc),
            replica_signers: Vec::new(alloc),
            signer: None,
            levels: KeptLevels::new(alloc, replicas.len(), clients.len())?,
        })
    }

    /// The same keys, with the public keys of the clients who sign their requests, by their numbers: of those with none nothing is known but
    /// what they share.
    pub fn with_signers(self, signers: Vec<HssPublicKey>) -> Keys
        ensures { result ≡ record self { signers = map hss_public_key_bytes signers.items } }
    {
        Keys { signers, ..self }
    }

    /// The same keys, with the public keys of the replicas, by their numbers. Of a replica with one nothing is taken that is of a place and isn't signed.
    pub fn with_replica_signers(self, replica_signers: Vec<HssPublicKey>) -> Keys
        ensures { result ≡ record self { replica_signers = map hss_public_key_bytes replica_signers.items } }
    {
        Keys {
            replica_signers,
            ..self
        }
    }

    /// The same keys, with a key by which their owner signs what is of a place: the private key of its first tree, and the types of the trees of the levels below.
    /// It makes the first tree, which takes long (`lms::Signer::new`); `grow` makes others. No other process may sign by that key. `Memory` if memory runs out.
    pub fn with_signer(
        self,
        alloc: Global,
        first: PrivateKey,
        below: Vec<TreeTypes>,
    ) -> Result<Keys, Memory>
        requires { vec_len below < most_levels }
        ensures { IfOk result (λ keys. keys ≡ record self { signer = Some (record { first = first; below = below.items }) }) }
    {
        let signer = ReplicaSigner::new(alloc, first, below)?;
        Ok(Keys {
            signer: Some(signer),
            ..self
        })
    }

    /// Whose keys they are.
    pub fn me(&self) -> Principal
        ensures { result ≡ self.now.me }
    {
        self.me
    }

    /// How many replicas it shares keys with.
    pub fn replicas(&self) -> usize
        ensures value { result ≡ length self.now.replicas }
        ensures within { result ≤ most_replicas }
    {
        self.replicas.len()
    }

    /// How many clients it shares keys with; none where these are the keys of a client.
    pub fn clients(&self) -> usize
        ensures { result ≡ length self.now.clients }
    {
        self.clients.len()
    }

    /// How many replicas may be faulty and which replica this is, f and its number, where these are the keys of one of 3f + 1 replicas
    /// (OSDI 1999 section 3); `None` where they are others.
    pub fn replica_of(&self) -> Option<(u32, u32)>
        ensures some { IfSome result (λ of. AreOfReplica of.0 of.1 self.now) }
        ensures none { IsNone result → (f me : ℕ) → ¬ AreOfReplica f me self.now }
        ensures faults { IfSome result (λ of. of.0 ≤ most_faults) }
    {
        let Principal::Replica(me) = self.me else {
            return None;
        };
        let replicas = self.replicas.len() as u32;
        let faults = replicas / 3;
        if replicas == 3 * faults + 1 && me < replicas {
            Some((faults, me))
        } else {
            None
        }
    }

    // by their numbers
    pub(crate) fn shared_with_each_replica(&self) -> &[SharedKeys]
        ensures value { result.now ≡ self.now.replicas }
        ensures within { length result.now ≤ most_replicas }
    {
        self.replicas.as_slice()
    }

    pub(crate) fn shared_with_client(&self, client: u32) -> &SharedKeys
        requires { client < length self.now.clients }
        ensures { slice_get self.now.clients client ≡ Some result.now }
    {
        &self.clients[client as usize]
    }

    // what it signs with itself
    pub(crate) fn signer(&self) -> Option<&ReplicaSigner>
        ensures { option_map (λ signer. signer.now) result ≡ self.now.signer }
    {
        self.signer.as_ref()
    }

    /// The public key by which a sender has signed the text, if it is one that a sender with a public key signs.
    pub(crate) fn public_key_of<T: Text>(
        &self,
        sender: Principal,
        text: &T,
    ) -> Option<&HssPublicKey>
        ensures { option_map (λ key. hss_public_key_bytes key.now) result ≡ public_key_of self.now sender (T.text text.now) }
    {
        match sender {
            Principal::Replica(number) => match text.place() {
                Some(_) => self.replica_signers.get(number as usize),
                None => None,
            },
            Principal::Client(number) => self.signers.get(number as usize),
        }
    }

    // what is kept of the sender's signatures of such texts, whatever that is
    pub(crate) fn upper_levels_of<T: Text>(
        &self,
        sender: Principal,
        text: &T,
    ) -> Option<&UpperLevels> {
        self.levels.levels_of(sender, text.place())
    }

    // none where there are none
    pub(crate) fn shared_with(&self, other: Principal) -> Option<&SharedKeys>
        ensures { option_map (λ shared. shared.now) result ≡ shared_with self.now other }
    {
        match other {
            Principal::Replica(number) => self.replicas.get(number as usize),
            Principal::Client(number) => self.clients.get(number as usize),
        }
    }
}

fn shared_of(pair: Pair) -> SharedKeys
    ensures { result ≡ shared_of pair }
{
    SharedKeys {
        sending: HmacKey::new(pair.sending),
        receiving: HmacKey::new(pair.receiving),
    }
}

fn shared_of_each(alloc: Global, pairs: &[Pair]) -> Result<Vec<SharedKeys>, AllocError>
    ensures { IfOk result (λ all. all.items ≡ map shared_of pairs.now) }
{
    pairs.iter().copied().map(shared_of).collect(alloc)
}

#[tactic(auto, using(crate::proofs::Numbered::one_more))]
fn shared_with_replicas(
    alloc: Global,
    secret: &[u8],
    me: Principal,
    replicas: u32,
) -> Result<Vec<SharedKeys>, Memory>
    requires me { number_of me < 2 ^ 32 }
    ensures { IfOk result (λ all. all.items ≡ map (λ number. shared_keys secret.now me (Principal.Replica number)) (range_with_len 0 replicas)) }
{
    let mut all = Vec::new(alloc);
    for number in 0..replicas {
        all.push(shared_between(secret, me, Principal::Replica(number)))?;
    }
    Ok(all)
}

#[tactic(auto, using(crate::proofs::Numbered::one_more))]
fn shared_with_clients(
    alloc: Global,
    secret: &[u8],
    me: Principal,
    clients: u32,
) -> Result<Vec<SharedKeys>, Memory>
    requires me { number_of me < 2 ^ 32 }
    requires clients { first_client + clients ≤ 2 ^ 32 }
    ensures { IfOk result (λ all. all.items ≡ map (λ number. shared_keys secret.now me (Principal.Client number)) (range_with_len 0 clients)) }
{
    let mut all = Vec::new(alloc);
    for number in 0..clients {
        all.push(shared_between(secret, me, Principal::Client(number)))?;
    }
    Ok(all)
}

fn shared_between(secret: &[u8], me: Principal, other: Principal) -> SharedKeys
    requires me { number_of me < 2 ^ 32 }
    requires other { number_of other < 2 ^ 32 }
    ensures { result ≡ shared_keys secret.now me other }
{
    shared_of(Pair {
        sending: key_from_to(secret, me, other),
        receiving: key_from_to(secret, other, me),
    })
}

fn key_from_to(secret: &[u8], from: Principal, to: Principal) -> [u8; 32]
    requires from { number_of from < 2 ^ 32 }
    requires to { number_of to < 2 ^ 32 }
    ensures { result ≡ key_from_to secret.now from to }
{
    hmac(secret, &both(from.number(), to.number()))
}

// the bytes of two numbers, the most significant first
#[tactic(auto, unfolding(bfs_model::specs::Bytes::Items::word))]
fn both(first: u32, second: u32) -> [u8; 8]
    ensures { result ≡ word first ++ word second }
{
    let [a, b, c, d] = first.to_be_bytes();
    let [e, f, g, h] = second.to_be_bytes();
    [a, b, c, d, e, f, g, h]
}
