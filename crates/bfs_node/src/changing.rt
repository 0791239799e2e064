// Views change.
ghost use Rattle.std.specs.Prelude.{◌≡◌, ◌≢◌, ◌<◌, ◌≤◌, ◌++◌, ◌∷◌, [], nat_lt, None, Some, IfOk, IfErr, IfSome, OnOk, OnErr};
ghost use Rattle.std.specs.Option.{option_map};
ghost use Rattle.bfs_messages.specs.declared.message.Message.TheVariants as kind;
ghost use Rattle.bfs_messages.specs.Signing.{as_message};
ghost use Rattle.bfs_node.specs.Changing.{begun, begun_if_due, change_refusal, entered_by, leads, may_begin, next_view, settled_if, timed_out, timeout_refusal, view_refusal, with_new_view, with_view_change, leaving_refusal, left_for};
ghost use Rattle.bfs_node.specs.Errors.{of_view};
ghost use Rattle.bfs_node.specs.Inside.Asking.{asking, MayAsk};
ghost use Rattle.bfs_node.specs.declared.error.NodeError.TheVariants as error;
ghost use Rattle.bfs_order.specs.Replica.Views.{entering_refusal};
ghost use Rattle.bfs_log.specs.Certificates.{MakesStable};
ghost use Rattle.bfs_view_change.specs.Changes.NewViews.{ground_refusal, latest_checkpoint};
ghost use Rattle.bfs_view_change.specs.Changes.ViewChanges.{messages_of};
ghost use Rattle.bfs_view_change.specs.Inside.Near.{IsNear};
ghost use Rattle.bfs_model.specs.Server.Limits.{most_number};

use crate::error::NodeError;
use crate::node::Node;
use bfs_log::{StableCheckpoint, primary_of};
use bfs_messages::{Message, NewView, PrePrepare, Signed, ViewChange, is_view_change_signed};
use bfs_order::a_replica_stays_itself;
use bfs_types::{Memory, TryClone, copies_of};
use bfs_view_change::{
    begin_view, check_new_view, latest_checkpoint, make_view_change, valid_signed_view_change,
};
use std::alloc::Global;

impl Node {
    /// Time has run out for the view: the replica leaves for the one after it, or after the one that it has asked for, as `leave_for` does.
    /// `WrongView` where no view is left below 2^63; then `Memory`. Nothing changes then.
    pub fn timeout(&mut self) -> Result<Vec<Signed<Message>>, NodeError>
        ensures taken { OnOk result (timeout_refusal self.old ≡ None) }
        ensures now { OnOk result (self.new ≡ (timed_out self.old).now) }
        ensures sent { IfOk result (λ sent. sent.items ≡ (timed_out self.old).sent) }
        ensures refused { IfErr result (λ e. e ≢ error.Memory → timeout_refusal self.old ≡ Some e) }
        ensures memory { IfErr result (λ e. e ≡ error.Memory → timeout_refusal self.old ≡ None) }
        ensures err { OnErr result (self.new ≡ self.old) }
    {
        let view = self.next_view();
        self.leave_for(view)
    }

    /// Leaves the view for a later one, in one step, and gives the VIEW-CHANGE that it sends: to follow f + 1 others that ask for later views
    /// (OSDI 1999 section 4.5.2), say. A primary that keeps VIEW-CHANGEs of 2f + 1 replicas for the view then begins it in the same step, and
    /// gives its NEW-VIEW and what it sends in the view too. `WrongView` unless the view is above the one entered and the one asked for, and
    /// below 2^63; then `Memory`. Nothing changes then.
    pub fn leave_for(&mut self, view: u64) -> Result<Vec<Signed<Message>>, NodeError>
        ensures taken { OnOk result (leaving_refusal self.old view ≡ None) }
        ensures now { OnOk result (self.new ≡ (left_for self.old view).now) }
        ensures sent { IfOk result (λ sent. sent.items ≡ (left_for self.old view).sent) }
        ensures refused { IfErr result (λ e. e ≢ error.Memory → leaving_refusal self.old view ≡ Some e) }
        ensures memory { IfErr result (λ e. e ≡ error.Memory → leaving_refusal self.old view ≡ None) }
        ensures err { OnErr result (self.new ≡ self.old) }
    {
        if let Some(error) = self.order.leaving_refusal(view) {
            return Err(NodeError::from(error));
        }
        let own = make_view_change(self.alloc, &self.order, &self.keys, view)?;
        let kept = own.try_clone(self.alloc)?;
        let first = as_sent(self.alloc, &own)?;
        let sent = self.keep(own, view, first)?;
        self.changes.keep_own(kept);
        Ok(sent)
    }

    fn next_view(&self) -> u64
        ensures { result ≡ next_view self.now.order }
    {
        self.order.view().max(self.order.asked()) + 1
    }

    /// A VIEW-CHANGE comes: it is kept, or noted where another replica leads its view. It is refused in this order: `BadAuthenticator`,
    /// `WrongView`, `AlreadyHave`, `BadCertificate`, `Memory`.
    pub(crate) fn take_view_change(
        &mut self,
        signed: Signed<ViewChange>,
    ) -> Result<Vec<Signed<Message>>, NodeError>
        ensures taken { OnOk result (change_refusal self.old signed ≡ None) }
        ensures now { OnOk result (self.new ≡ (with_view_change self.old signed).now) }
        ensures sent { IfOk result (λ sent. sent.items ≡ (with_view_change self.old signed).sent) }
        ensures refused { IfErr result (λ e. e ≢ error.Memory → change_refusal self.old signed ≡ Some e) }
        ensures memory { IfErr result (λ e. e ≡ error.Memory → change_refusal self.old signed ≡ None) }
        ensures err { OnErr result (self.new ≡ self.old) }
    {
        if !is_view_change_signed(&self.keys, &signed) {
            return Err(NodeError::BadAuthenticator);
        }
        let change = &signed.message;
        if self.order.view() >= change.view() {
            return Err(NodeError::WrongView);
        }
        if self.changes.was_asked(change) {
            return Err(NodeError::AlreadyHave);
        }
        if !valid_signed_view_change(&self.keys, &signed) {
            return Err(NodeError::BadCertificate);
        }
        let (asked, first) = (self.order.asked(), Vec::new(self.alloc));
        Ok(self.keep(signed, asked, first)?)
    }

    // It asks for the view, and has one more VIEW-CHANGE. What it sends stands behind what is to be sent before.
    fn keep(
        &mut self,
        change: Signed<ViewChange>,
        asked: u64,
        first: Vec<Signed<Message>>,
    ) -> Result<Vec<Signed<Message>>, Memory>
        requires near { IsNear change.message }
        requires asked { MayAsk self.old asked }
        requires within { asked ≤ most_number }
        ensures now { OnOk result (self.new ≡ (with_view_change (asking self.old asked) change).now) }
        ensures sent { IfOk result (λ sent. sent.items ≡ first.items ++ (with_view_change (asking self.old asked) change).sent) }
        ensures err { OnErr result (self.new ≡ self.old) }
    {
        if !self.leads_view(change.message.view()) {
            self.changes.note(&change.message);
            self.ask(asked);
            return Ok(first);
        }
        let replaced = self.changes.keep(change);
        match self.begin_if_due(asked, first) {
            Ok(sent) => Ok(sent),
            Err(Memory) => {
                self.changes.take_back(replaced);
                Err(Memory)
            }
        }
    }

    fn leads_view(&self, view: u64) -> bool
        ensures { result ≡ leads self.now view }
    {
        self.order.me() == primary_of(self.order.f(), view)
    }

    // nothing where it has asked for that view
    fn ask(&mut self, view: u64)
        requires { MayAsk self.old view }
        ensures { self.new ≡ asking self.old view }
    {
        let _left = self.order.leave_view(view);
    }

    fn may_begin(&self, asked: u64) -> bool
        ensures { result ≡ may_begin (asking self.now asked) }
    {
        let quorum = 2 * self.order.f() as usize + 1;
        self.order.view() < asked
            && (self.leads_view(asked) && quorum <= self.changes.count_for(asked))
    }

    // It asks for the view, and begins it if that is due.
    fn begin_if_due(
        &mut self,
        asked: u64,
        first: Vec<Signed<Message>>,
    ) -> Result<Vec<Signed<Message>>, Memory>
        requires asked { MayAsk self.old asked }
        requires within { asked ≤ most_number }
        ensures now { OnOk result (self.new ≡ (begun_if_due (asking self.old asked)).now) }
        ensures sent { IfOk result (λ sent. sent.items ≡ first.items ++ (begun_if_due (asking self.old asked)).sent) }
        ensures err { OnErr result (self.new ≡ self.old) }
    {
        if self.may_begin(asked) {
            self.begin(asked, first)
        } else {
            self.ask(asked);
            Ok(first)
        }
    }

    // Its NEW-VIEW is sent, and the view is entered in the same step. What it keeps for the view is copied: it stays where memory runs out.
    fn begin(
        &mut self,
        view: u64,
        mut first: Vec<Signed<Message>>,
    ) -> Result<Vec<Signed<Message>>, Memory>
        requires above { self.old.order.view < view }
        requires asked { MayAsk self.old view }
        requires within { view ≤ most_number }
        ensures now { OnOk result (self.new ≡ (begun (asking self.old view)).now) }
        ensures sent { IfOk result (λ sent. sent.items ≡ first.items ++ (begun (asking self.old view)).sent) }
        ensures err { OnErr result (self.new ≡ self.old) }
    {
        a_replica_stays_itself();
        let changes = self.changes.changes_for(self.alloc, view)?;
        let begun = begin_view(self.alloc, &self.keys, self.order.me(), view, changes)?;
        let own = begun.new_view.try_clone(self.alloc)?;
        first.push(Signed {
            message: Message::NewView(own.message),
            auth: own.auth,
        })?;
        let sent = self.enter_by(begun.new_view, begun.stable, begun.handed, first)?;
        Ok(sent)
    }

    // The view of a NEW-VIEW is entered, and it is kept. What is sent in it stands behind what is to be sent before.
    fn enter_by(
        &mut self,
        new_view: Signed<NewView>,
        stable: Option<StableCheckpoint>,
        handed: Vec<Signed<PrePrepare>>,
        first: Vec<Signed<Message>>,
    ) -> Result<Vec<Signed<Message>>, Memory>
        requires stable { stable ≡ latest_checkpoint (messages_of new_view.message.changes) }
        requires handed { handed.items ≡ new_view.message.proposals }
        ensures now { OnOk result (self.new ≡ (entered_by self.old new_view).now) }
        ensures sent { IfOk result (λ sent. sent.items ≡ first.items ++ (entered_by self.old new_view).sent) }
        ensures taken { OnOk result (entering_refusal self.old.order new_view.message.view ≡ None) }
        ensures err { OnErr result (self.new ≡ self.old) }
    {
        a_replica_stays_itself();
        let (low, view) = (self.order.low(), new_view.message.view());
        let entered = self
            .order
            .enter_view_behind(&self.keys, view, stable.as_ref(), handed, first);
        match entered {
            Ok(sent) => {
                self.changes.drop_up_to(view);
                self.settle_above(low, stable);
                self.new_view = Some(new_view);
                Ok(sent)
            }
            Err(_) => Err(Memory),
        }
    }

    // Settles the snapshots by a checkpoint, where the low mark has risen to it.
    fn settle_above(&mut self, low: u64, stable: Option<StableCheckpoint>)
        requires { low < self.old.order.low → IfSome stable (MakesStable self.old.order.f) }
        ensures { self.new ≡ record self.old { snapshots = settled_if (nat_lt low self.old.order.low) stable self.old.snapshots } }
    {
        if low >= self.order.low() {
            return;
        }
        if let Some(stable) = stable {
            self.snapshots.settle(stable);
        }
    }

    /// A NEW-VIEW comes: its view is entered. It is refused as `check_new_view` refuses it, and then as `Order::enter_view` does.
    pub(crate) fn take_new_view(
        &mut self,
        signed: Signed<NewView>,
    ) -> Result<Vec<Signed<Message>>, NodeError>
        ensures taken { OnOk result (view_refusal self.old signed ≡ None) }
        ensures now { OnOk result (self.new ≡ (with_new_view self.old signed).now) }
        ensures sent { IfOk result (λ sent. sent.items ≡ (with_new_view self.old signed).sent) }
        ensures refused { IfErr result (λ e. e ≢ error.Memory → view_refusal self.old signed ≡ Some e) }
        ensures memory { IfErr result (λ e. e ≡ error.Memory → option_map of_view (ground_refusal self.old.keys signed) ≡ None) }
        ensures err { OnErr result (self.new ≡ self.old) }
    {
        let _choice = check_new_view(self.alloc, &self.keys, &signed)?;
        let new = &signed.message;
        if let Some(error) = self.order.entering_refusal(new.view()) {
            return Err(NodeError::from(error));
        }
        let stable = latest_checkpoint(self.alloc, new.changes())?;
        let handed = copies_of(self.alloc, new.proposals())?;
        let first = Vec::new(self.alloc);
        Ok(self.enter_by(signed, stable, handed, first)?)
    }
}

pub(crate) fn as_sent(
    alloc: Global,
    own: &Signed<ViewChange>,
) -> Result<Vec<Signed<Message>>, Memory>
    ensures { IfOk result (λ sent. sent.items ≡ as_message kind.ViewChange own.now ∷ []) }
{
    let mut sent = Vec::new(alloc);
    let own = own.try_clone(alloc)?;
    sent.push(Signed {
        message: Message::ViewChange(own.message),
        auth: own.auth,
    })?;
    Ok(sent)
}
