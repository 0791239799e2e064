// What clients are told.
ghost use Rattle.std.specs.Prelude.{◌≡◌, IfOk};
ghost use Rattle.std.specs.List.{AllZip};
ghost use Rattle.bfs_node.specs.Executing.{replies_to, reply_to, told};

use crate::node::Node;
use bfs_auth::{Keys, gather, least_items, sign_text_for_client};
use bfs_messages::{Message, Reply, Signed};
use bfs_order::Order;
use bfs_replies::Answer;
use bfs_types::Memory;
use rayon::prelude::*;
use std::alloc::{AllocError, Global};
use std::sync::Arc;
use std::thread::Threads;

/// A REPLY, where there is its client.
type MaybeTold = Result<Option<Signed<Message>>, Memory>;

impl Node {
    /// A REPLY for each answer, in their order, which is signed for its client. They are signed by as many threads as there are processors,
    /// unless there is too little to hash for them. `Memory` if memory runs out.
    pub(crate) fn replies_to(
        &self,
        rt: &(impl Threads + Sync),
        answers: &[Answer],
    ) -> Result<Vec<Signed<Message>>, Memory>
        ensures { IfOk result (λ replies. replies.items ≡ replies_to self.now.keys self.now.order answers.now) }
    {
        let each = tell_each(rt, self.alloc, &self.keys, &self.order, answers)?;
        gather(self.alloc, each)
    }
}

fn tell_each(
    rt: &(impl Threads + Sync),
    alloc: Global,
    keys: &Keys,
    order: &Order,
    answers: &[Answer],
) -> Result<Vec<MaybeTold>, AllocError>
    ensures { IfOk result (λ each. AllZip (λ answer one. IfOk one (λ signed. signed ≡ told keys.now (reply_to order.now answer))) answers.now each.items) }
{
    answers
        .par_iter()
        .with_min_len(least_items(answers, |answer| answer.reply().len()))
        .map(
            |answer: &Answer| -> MaybeTold
                ensures { IfOk result (λ signed. signed ≡ told keys.entry.now (reply_to order.entry.now answer.now)) }
            { tell(alloc, keys, order, answer) },
        )
        .collect(rt, alloc)
}

pub(crate) fn tell(alloc: Global, keys: &Keys, order: &Order, answer: &Answer) -> MaybeTold
    ensures { IfOk result (λ signed. signed ≡ told keys.now (reply_to order.now answer.now)) }
{
    let client = answer.client();
    if client as usize >= keys.clients() {
        return Ok(None);
    }
    let message = Message::Reply(Reply::sharing(
        order.me(),
        order.view(),
        client,
        answer.timestamp(),
        Arc::try_clone(answer.shared())?,
    ));
    let auth = sign_text_for_client(alloc, keys, client, &message)?;
    Ok(Some(Signed { message, auth }))
}
