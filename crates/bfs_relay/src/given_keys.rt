// A relay of the keys that it was given.
ghost use Rattle.std.specs.Prelude.{◌≡◌, ◌++◌, fold, option_to_list, IfOk, OnOk};
ghost use Rattle.std.specs.List.{filter_map};
ghost use Rattle.bfs_relay.specs.GivenKeys as model;

use crate::relay::Relay;
use bfs_auth::{Keys, Principal};
use bfs_clients::{Clients, Counter};
use bfs_types::{MOST_CLIENTS, Memory};
use std::alloc::Global;

impl Relay {
    /// One that has done nothing, for the clients whose keys these are: different ones, of numbers below `MOST_CLIENTS`; others are passed over. At most
    /// `f` replicas are faulty. No client has used the timestamp `next` or a later one. `Memory` if memory runs out.
    pub fn of_keys(alloc: Global, f: u32, keys: Vec<Keys>, next: u64) -> Result<Relay, Memory>
        ensures { IfOk result (λ relay. relay ≡ model.relay_of f keys.items next) }
    {
        let counters = counters_of(alloc, &keys, next)?;
        Relay::new(alloc, clients_with(alloc, f, keys)?, counters)
    }
}

fn clients_with(alloc: Global, f: u32, keys: Vec<Keys>) -> Result<Clients, Memory>
    ensures { IfOk result (λ clients. clients ≡ model.clients_with f keys.items) }
{
    let mut all = all_keyless(alloc)?;
    put_all(&mut all, keys);
    Ok(Clients::of_keys(alloc, f, all))
}

#[tactic(auto, unfolding(crate::specs::GivenKeys::all_keyless))]
fn all_keyless(alloc: Global) -> Result<Vec<Keys>, Memory>
    ensures { IfOk result (λ all. all.items ≡ model.all_keyless) }
{
    keyless(alloc, MOST_CLIENTS)
}

// the first clients, without keys
#[tactic(auto, using(crate::proofs::Folding::map_more_numbers))]
fn keyless(alloc: Global, count: u32) -> Result<Vec<Keys>, Memory>
    ensures { IfOk result (λ all. all.items ≡ model.keyless count) }
{
    let mut all = Vec::new(alloc);
    for client in 0..count {
        all.push(Keys::of_pairs(alloc, Principal::Client(client), &[], &[])?)?;
    }
    Ok(all)
}

fn put_all(all: &mut Vec<Keys>, given: Vec<Keys>)
    ensures { all.new.items ≡ fold model.with_keys all.old.items given.items }
{
    for keys in given {
        put(all, keys);
    }
}

#[tactic(auto, using(std::proofs::lemmas::List::set_past))]
fn put(all: &mut Vec<Keys>, keys: Keys)
    ensures { all.new.items ≡ model.with_keys all.old.items keys }
{
    let Some(client) = client_of(&keys) else {
        return;
    };
    if (client as usize) < all.len() {
        all[client as usize] = keys;
    }
}

// the client whose keys they are, if it is one that there can be
fn client_of(keys: &Keys) -> Option<u32>
    ensures { result ≡ model.client_of keys.now }
{
    match keys.me() {
        Principal::Client(client) if client < MOST_CLIENTS => Some(client),
        _ => None,
    }
}

fn counters_of(alloc: Global, given: &[Keys], next: u64) -> Result<Vec<Counter>, Memory>
    ensures { IfOk result (λ counters. counters.items ≡ filter_map (model.counter_for next) given.now) }
{
    let mut counters = Vec::new(alloc);
    for keys in given {
        add_counter(&mut counters, keys, next)?;
    }
    Ok(counters)
}

fn add_counter(counters: &mut Vec<Counter>, keys: &Keys, next: u64) -> Result<(), Memory>
    ensures { OnOk result (counters.new.items ≡ counters.old.items ++ option_to_list (model.counter_for next keys.now)) }
{
    if let Some(client) = client_of(keys) {
        counters.push(Counter::new(client, next))?;
    }
    Ok(())
}
