// What a replica has said is given again.
ghost use Rattle.std.specs.Prelude.{◌≡◌, ◌∷◌, [], IfOk};
ghost use Rattle.bfs_messages.specs.Signing.{as_message};
ghost use Rattle.bfs_messages.specs.declared.message.Message.TheVariants as kind;
ghost use Rattle.bfs_node.specs.Resending.{change_resent, new_view_resent, resent};

use crate::changing::as_sent;
use crate::node::Node;
use bfs_messages::{Message, NewView, Signed};
use bfs_order::Lag;
use bfs_types::{Memory, TryClone};
use std::alloc::Global;

impl Node {
    /// What another replica may still need, which tells how far it is. First, while this one is leaving its view, the VIEW-CHANGE that it has sent
    /// last. Then, where the other one is in an earlier view, the NEW-VIEW by which this one has entered its own, whoever made it. Then what
    /// `Order::said_since` gives: its own messages of the view, if both are in it, for numbers that the other one hasn't executed, and its own
    /// CHECKPOINTs above the stable number there. Nothing of it is new: all of it was sent before, the NEW-VIEW by the primary of its view. To be
    /// sent to that replica alone. `Memory` if memory runs out.
    pub fn resend(&self, to: Lag) -> Result<Vec<Signed<Message>>, Memory>
        ensures { IfOk result (λ sent. sent.items ≡ resent self.now to) }
    {
        let mut sent = self.change_to_resend()?;
        let mut since = self.new_view_to_resend(to)?;
        let mut said = self.order.said_since(to)?;
        since.append(&mut said)?;
        sent.append(&mut since)?;
        Ok(sent)
    }

    fn change_to_resend(&self) -> Result<Vec<Signed<Message>>, Memory>
        ensures { IfOk result (λ sent. sent.items ≡ change_resent self.now) }
    {
        if self.order.view() < self.order.asked() {
            if let Some(own) = self.changes.own() {
                return as_sent(self.alloc, own);
            }
        }
        Ok(Vec::new(self.alloc))
    }

    fn new_view_to_resend(&self, to: Lag) -> Result<Vec<Signed<Message>>, Memory>
        ensures { IfOk result (λ sent. sent.items ≡ new_view_resent self.now to) }
    {
        if to.view < self.order.view() {
            if let Some(entered_by) = self.new_view() {
                return new_view_as_sent(self.alloc, entered_by);
            }
        }
        Ok(Vec::new(self.alloc))
    }
}

fn new_view_as_sent(
    alloc: Global,
    new_view: &Signed<NewView>,
) -> Result<Vec<Signed<Message>>, Memory>
    ensures { IfOk result (λ sent. sent.items ≡ as_message kind.NewView new_view.now ∷ []) }
{
    let mut sent = Vec::new(alloc);
    let copy = new_view.try_clone(alloc)?;
    sent.push(Signed {
        message: Message::NewView(copy.message),
        auth: copy.auth,
    })?;
    Ok(sent)
}
