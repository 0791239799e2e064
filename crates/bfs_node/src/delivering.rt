// A message comes.
ghost use Rattle.std.specs.Prelude.{◌≡◌, ◌≢◌, [], None, Some, IfOk, IfErr, IfSome, IsSome, OnOk, OnErr};
ghost use Rattle.bfs_log.specs.Certificates.{MakesStable};
ghost use Rattle.bfs_log.specs.Logs.{headers};
ghost use Rattle.bfs_votes.specs.Votes.{SlotsDiffer};
ghost use Rattle.bfs_codec.specs.Reading.{message_of};
ghost use Rattle.bfs_node.specs.Delivering.{bytes_delivered, bytes_refusal, delivered, delivery_refusal, early_refusal, order_refusal, ordered, request_refusal, with_request};
ghost use Rattle.bfs_node.specs.Inside.Settling.{Certifies, settled_at};
ghost use Rattle.bfs_node.specs.declared.error.NodeError.TheVariants as error;

use crate::error::NodeError;
use crate::node::Node;
use bfs_checkpoints::certificate_with;
use bfs_codec::decode;
use bfs_log::StableCheckpoint;
use bfs_messages::{CHECKPOINT_TAG, Message, OrderMessage, Request, Signed, is_request_signed};
use bfs_types::Memory;
use std::thread::Threads;

impl Node {
    /// Takes the bytes of a message that came, and gives what is to be sent. `Malformed` where they spell none; else it is refused as `take`
    /// refuses it, or with `Memory` where memory runs out. Nothing changes then.
    pub fn deliver(
        &mut self,
        rt: &(impl Threads + Sync),
        bytes: &[u8],
    ) -> Result<Vec<Signed<Message>>, NodeError>
        ensures taken { OnOk result (bytes_refusal self.old (message_of bytes.now) ≡ None) }
        ensures now { OnOk result (self.new ≡ (bytes_delivered self.old (message_of bytes.now)).now) }
        ensures sent { IfOk result (λ sent. sent.items ≡ (bytes_delivered self.old (message_of bytes.now)).sent) }
        ensures refused { IfErr result (λ e. e ≢ error.Memory → bytes_refusal self.old (message_of bytes.now) ≡ Some e) }
        ensures memory { IfErr result (λ e. e ≡ error.Memory → IsSome (message_of bytes.now)) }
        ensures err { OnErr result (self.new ≡ self.old) }
    {
        let signed = decode(self.alloc, bytes)?;
        self.take(rt, signed)
    }

    /// Takes a message that came, and gives what is to be sent. A REQUEST waits to be ordered: it is refused where its authenticator is not
    /// its client's (`BadAuthenticator`) or as many wait as a batch can have (`BatchFull`). A message of the order is refused as
    /// `Order::on_message` refuses it. A VIEW-CHANGE is kept, if this replica leads its view: it is refused where it is not its sender's
    /// (`BadAuthenticator`), its view was entered or passed (`WrongView`), its sender has asked for that view or a later one (`AlreadyHave`)
    /// or it is not valid (`BadCertificate`). By a NEW-VIEW its view is entered: it is refused as `check_new_view` and then as
    /// `Order::enter_view` refuse it. A REPLY is for clients (`WrongKind`). `Memory` comes where memory runs out: behind all these, but for a
    /// NEW-VIEW whose proposals are not what is chosen, or whose view is not entered any more. Nothing changes where it is refused.
    pub fn take(
        &mut self,
        rt: &(impl Threads + Sync),
        signed: Signed<Message>,
    ) -> Result<Vec<Signed<Message>>, NodeError>
        ensures taken { OnOk result (delivery_refusal self.old signed ≡ None) }
        ensures now { OnOk result (self.new ≡ (delivered self.old signed).now) }
        ensures sent { IfOk result (λ sent. sent.items ≡ (delivered self.old signed).sent) }
        ensures refused { IfErr result (λ e. e ≢ error.Memory → delivery_refusal self.old signed ≡ Some e) }
        ensures memory { IfErr result (λ e. e ≡ error.Memory → early_refusal self.old signed ≡ None) }
        ensures err { OnErr result (self.new ≡ self.old) }
    {
        let Signed { message, auth } = signed;
        match message {
            Message::Request(request) => self.take_request(Signed {
                message: request,
                auth,
            }),
            Message::Order(message) => self.take_order(rt, Signed { message, auth }),
            Message::ViewChange(change) => self.take_view_change(Signed {
                message: change,
                auth,
            }),
            Message::NewView(new) => self.take_new_view(Signed { message: new, auth }),
            Message::Reply(_) => Err(NodeError::WrongKind),
        }
    }

    fn take_request(&mut self, request: Signed<Request>) -> Result<Vec<Signed<Message>>, NodeError>
        ensures taken { OnOk result (request_refusal self.old request ≡ None) }
        ensures now { OnOk result (self.new ≡ (with_request self.old request).now) }
        ensures sent { IfOk result (λ sent. sent.items ≡ []) }
        ensures refused { IfErr result (λ e. e ≢ error.Memory → request_refusal self.old request ≡ Some e) }
        ensures memory { IfErr result (λ e. e ≡ error.Memory → request_refusal self.old request ≡ None) }
        ensures err { OnErr result (self.new ≡ self.old) }
    {
        if !is_request_signed(&self.keys, &request) {
            return Err(NodeError::BadAuthenticator);
        }
        if self.pending.is_full() {
            return Err(NodeError::BatchFull);
        }
        self.pending.push(request)?;
        Ok(Vec::new(self.alloc))
    }

    // A CHECKPOINT is checked before anything is copied for it. What makes its number stable is copied before it is taken, so that nothing is
    // refused afterwards.
    fn take_order(
        &mut self,
        rt: &(impl Threads + Sync),
        signed: Signed<OrderMessage>,
    ) -> Result<Vec<Signed<Message>>, NodeError>
        ensures taken { OnOk result (order_refusal self.old signed ≡ None) }
        ensures now { OnOk result (self.new ≡ (ordered self.old signed).now) }
        ensures sent { IfOk result (λ sent. sent.items ≡ (ordered self.old signed).sent) }
        ensures refused { IfErr result (λ e. e ≢ error.Memory → order_refusal self.old signed ≡ Some e) }
        ensures memory { IfErr result (λ e. e ≡ error.Memory → order_refusal self.old signed ≡ None) }
        ensures err { OnErr result (self.new ≡ self.old) }
    {
        if signed.message.tag() != CHECKPOINT_TAG {
            let answers = self
                .order
                .on_message(rt, &self.keys, &self.pending, signed)?;
            return Ok(answers);
        }
        if let Some(error) = self.order.refusal(rt, &self.keys, &self.pending, &signed) {
            return Err(NodeError::from(error));
        }
        let number = signed.message.number();
        let stable = self.stable_if_due(&signed)?;
        let sent = self.order.accept(&self.keys, signed)?;
        self.settle_at(number, stable);
        Ok(sent)
    }

    /// What makes a number stable once this CHECKPOINT of it stands in the log; none where too few have told it. `Memory` if memory runs out.
    pub(crate) fn stable_if_due(
        &self,
        signed: &Signed<OrderMessage>,
    ) -> Result<Option<StableCheckpoint>, Memory>
        ensures made { IfOk result (λ stable. Certifies self.now.order signed.now stable) }
        ensures differ { SlotsDiffer (headers self.now.order.log) }
    {
        let log = self.order.log();
        let (number, digest) = (signed.message.number(), signed.message.digest());
        if !self.order.is_nearly_stable(number, digest) {
            return Ok(None);
        }
        Ok(Some(certificate_with(self.alloc, log, signed)?))
    }

    /// Settles the snapshots by what makes a number stable, where the low mark is at it. It takes no memory.
    pub(crate) fn settle_at(&mut self, number: u64, stable: Option<StableCheckpoint>)
        requires { self.old.order.low ≡ number → IfSome stable (MakesStable self.old.order.f) }
        ensures { self.new ≡ settled_at self.old number stable }
    {
        if self.order.low() != number {
            return;
        }
        if let Some(stable) = stable {
            self.snapshots.settle(stable);
        }
    }
}
