// Which replies are signed, as their clients see it.
ghost use Rattle.std.specs.Prelude.{◌≡◌, map, IfOk};
ghost use Rattle.bfs_clients.specs.Tallies.{is_signed_reply};

use crate::clients::Clients;
use bfs_auth::least_items;
use bfs_messages::{Message, Signed, is_signed};
use bfs_types::Memory;
use rayon::prelude::*;
use std::thread::Threads;

impl Clients {
    /// Whether the message is a REPLY that the client to whom it goes finds signed.
    pub(crate) fn is_signed(&self, signed: &Signed<Message>) -> bool
        ensures { result ≡ is_signed_reply self.now signed.now }
    {
        let Message::Reply(reply) = &signed.message else {
            return false;
        };
        match self.keys(reply.client()) {
            Some(keys) => is_signed(keys, signed),
            None => false,
        }
    }

    /// Of each message, whether it is a REPLY that the client to whom it goes finds signed. The keyed hashes are checked by as many threads
    /// as there are processors, unless there is too little to hash for them. `Memory` if memory runs out.
    pub fn are_signed(
        &self,
        rt: &(impl Threads + Sync),
        messages: &[Signed<Message>],
    ) -> Result<Vec<bool>, Memory>
        ensures { IfOk result (λ answers. answers.items ≡ map (is_signed_reply self.now) messages.now) }
    {
        let answers = messages
            .par_iter()
            .with_min_len(least_items(messages, result_length))
            .map(
                |signed: &Signed<Message>| -> bool
                    ensures { result ≡ is_signed_reply self.entry.now signed.now }
                { self.is_signed(signed) },
            )
            .collect(rt, self.alloc)?;
        Ok(answers)
    }
}

fn result_length(signed: &Signed<Message>) -> usize {
    match &signed.message {
        Message::Reply(reply) => reply.result().len(),
        _ => 0,
    }
}
