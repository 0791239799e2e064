// For whom clients send their calls.
ghost use Rattle.std.specs.Prelude.{◌≡◌, ◌<◌, ◌≤◌, option_map, slice_get};
ghost use Rattle.bfs_model.specs.Server.Limits.{most_clients};
ghost use Rattle.bfs_trace.specs.Callers.{caller_spelled, credential_spelled, first_caller, first_callers, gids_in, with_caller};

use crate::numbers::parse_number;
use crate::population::Population;
use crate::words::Words;
use bfs_types::{Cred, Gids, MOST_CLIENTS, MOST_GIDS};
use std::marker::Model;

// the numbers of the users that no line has named: that of client 0, and that of the group of them all
const FIRST_UID: u32 = 1_000;

const GID: u32 = 100;

/// A client, and for whom its later calls are.
#[derive(Drop)]
pub(crate) struct Caller {
    client: u32,
    cred: Cred,
}

impl Model for Caller {
    ghost use Rattle.bfs_trace.specs.Callers as model;

    ghost Value = { model.Caller };

    ghost view = { λ caller. record { client = caller.client; credential = caller.cred } };
}

/// Reads the groups behind the first: at most `MOST_GIDS`.
#[tactic(auto, using(crate::proofs::Gids::gids_steps))]
fn parse_gids(words: &mut Words<'_>) -> Option<Gids>
    ensures { result ≡ gids_in words.old }
{
    let mut gids = Gids::none();
    while let Some(word) = words.next_word() {
        let gid = parse_number(u32::MAX as u64, word)?;
        if gids.as_slice().len() == MOST_GIDS {
            return None;
        }
        gids.push(gid as u32);
    }
    Some(gids)
}

/// Reads `UID GID [GID..]`.
fn parse_cred(words: &mut Words<'_>) -> Option<Cred>
    ensures { result ≡ credential_spelled words.old }
{
    let uid = words.number()?;
    let gid = words.number()?;
    let gids = parse_gids(words)?;
    Some(Cred { uid, gid, gids })
}

/// Reads what stands behind `as`: `CLIENT UID GID [GID..]`.
pub(crate) fn parse_caller(population: Population, words: &mut Words<'_>) -> Option<Caller>
    ensures { result ≡ caller_spelled population words.old }
{
    let client = words.next_word()?;
    let most_client = population.clients() as u64 - 1;
    let client = parse_number(most_client, client)? as u32;
    let cred = parse_cred(words)?;
    Some(Caller { client, cred })
}

fn first_caller(client: u32) -> Cred
    requires { client < most_clients }
    ensures { result ≡ first_caller client }
{
    Cred {
        uid: FIRST_UID + client,
        gid: GID,
        gids: Gids::none(),
    }
}

/// For whom each client's calls are, at a place of a trace. They lie in the value itself, so no memory is taken.
#[derive(Drop)]
pub(crate) struct Callers {
    creds: [Cred; MOST_CLIENTS as usize],
    clients: u32,
}

impl Model for Callers {
    ghost use Rattle.std.specs.Prelude.{◌≤◌, List, take};
    ghost use Rattle.bfs_model.specs.Bytes.Call.{Credential};
    ghost use Rattle.bfs_model.specs.Server.Limits.{most_clients};

    ghost Value = { List Credential };

    ghost view = { λ callers. take callers.clients callers.creds };

    ghost invariant = { λ callers. callers.clients ≤ most_clients };
}

impl Callers {
    /// Those of so many clients, before any line names another.
    #[tactic(auto, using(crate::proofs::Gids::first_steps, std::proofs::lemmas::List::take_more_set))]
    pub(crate) fn new(clients: u32) -> Callers
        requires { clients ≤ most_clients }
        ensures { result ≡ first_callers clients }
    {
        let mut creds = [first_caller(0); MOST_CLIENTS as usize];
        for client in 0..clients {
            creds[client as usize] = first_caller(client);
        }
        Callers { creds, clients }
    }

    /// For whom a client's calls are, or `None` where there is no such client.
    pub(crate) fn get(&self, client: u32) -> Option<&Cred>
        ensures { option_map (λ cred. cred.now) result ≡ slice_get self.now client }
    {
        self.creds[..self.clients as usize].get(client as usize)
    }

    /// Has a client's later calls be for another.
    pub(crate) fn set(&mut self, caller: &Caller)
        ensures { self.new ≡ with_caller self.old caller.now }
    {
        if caller.client < self.clients {
            self.creds[caller.client as usize] = caller.cred;
        }
    }
}
