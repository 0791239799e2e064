ghost use Rattle.std.specs.Prelude.{◌≡◌, ◌≤◌};
ghost use Rattle.std.specs.Option.{SomeIff};
ghost use Rattle.bfs_model.specs.Server.Limits.{most_clients, most_replicas};
ghost use Rattle.bfs_trace.specs.Population.{IsPopulation};

use bfs_types::{MOST_CLIENTS, MOST_REPLICAS};
use std::marker::Model;

/// How many clients and replicas the lines of a trace may name: 1 to `MOST_CLIENTS`, and 1 to `MOST_REPLICAS`. They are numbered
/// from 0.
#[derive(Clone, Copy, Debug, PartialEq, Eq)]
pub struct Population {
    clients: u32,
    replicas: u32,
}

impl Model for Population {
    ghost use Rattle.bfs_trace.specs.Population as model;

    ghost Value = { model.Population };

    ghost view = { λ population. record { clients = population.clients; replicas = population.replicas } };

    ghost invariant = { λ population. model.IsPopulation population.clients population.replicas };

    ghost inverse = { λ population. record { clients = population.clients; replicas = population.replicas } };
}

impl Population {
    /// So many clients and replicas, or `None` if there can't be so many.
    pub fn new(clients: u32, replicas: u32) -> Option<Population>
        ensures { SomeIff result (IsPopulation clients replicas) (record { clients = clients; replicas = replicas }) }
    {
        let are_clients = (1..=MOST_CLIENTS).contains(&clients);
        let are_replicas = (1..=MOST_REPLICAS).contains(&(replicas as usize));
        if are_clients && are_replicas {
            Some(Population { clients, replicas })
        } else {
            None
        }
    }

    /// How many clients there are.
    pub fn clients(self) -> u32
        ensures value { result ≡ self.clients }
        ensures least { 1 ≤ result }
        ensures most { result ≤ most_clients }
    {
        self.clients
    }

    /// How many replicas there are.
    pub fn replicas(self) -> u32
        ensures value { result ≡ self.replicas }
        ensures least { 1 ≤ result }
        ensures most { result ≤ most_replicas }
    {
        self.replicas
    }
}
