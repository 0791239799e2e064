use crate::node::Node;

impl Node {
    /// Lets a tree grow by which it will sign, in the view that it has entered or asked for, as `Keys::grow` does: about one leaf of it. It gives whether it did:
    /// `false` once all are ready, where memory runs out, and where it has no key to sign by.
    pub fn grow(&self) -> bool {
        let view = self.order.view().max(self.order.asked());
        self.keys.grow(self.alloc, view, self.order.last_executed())
    }
}
