// The requests of a block, signed by their clients.
ghost use Rattle.std.specs.Prelude.{◌≡◌, IfOk};
ghost use Rattle.std.specs.List.{AllZip, filter_map};
ghost use Rattle.bfs_clients.specs.Clients.{signed_request};

use crate::clients::Clients;
use bfs_auth::{gather, least_items};
use bfs_messages::{Message, Request, Signed};
use bfs_types::{Memory, TryClone};
use rayon::prelude::*;
use std::alloc::{AllocError, Global};
use std::thread::Threads;

/// A request, signed, where there is its client.
type MaybeSigned = Result<Option<Signed<Message>>, Memory>;

impl Clients {
    /// The requests in their order, each signed by its client for all replicas; one whose client there isn't is left out. They share the
    /// calls. They are signed by as many threads as there are processors, unless there is too little to hash for them. `Memory` if memory
    /// runs out.
    pub fn sign_all(
        &self,
        rt: &(impl Threads + Sync),
        requests: &[Request],
    ) -> Result<Vec<Signed<Message>>, Memory>
        ensures { IfOk result (λ all. all.items ≡ filter_map (signed_request self.now) requests.now) }
    {
        let each = self.sign_each(rt, requests)?;
        gather(self.alloc, each)
    }

    fn sign_each(
        &self,
        rt: &(impl Threads + Sync),
        requests: &[Request],
    ) -> Result<Vec<MaybeSigned>, AllocError>
        ensures { IfOk result (λ each. AllZip (λ request signed. IfOk signed (λ one. one ≡ signed_request self.now request)) requests.now each.items) }
    {
        let replicas = (self.f as usize).saturating_mul(3).saturating_add(1);
        requests
            .par_iter()
            .with_min_len(least_items(requests, |request| {
                request.call().len().saturating_mul(replicas)
            }))
            .map(
                |request: &Request| -> MaybeSigned
                    ensures { IfOk result (λ one. one ≡ signed_request self.entry.now request.now) }
                { self.sign(request.try_clone(self.alloc)?) },
            )
            .collect(rt, self.alloc)
    }
}
