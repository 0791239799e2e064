// A view is left for a later one, and entered.
ghost use Rattle.std.specs.Prelude.{◌≡◌, ◌≢◌, ◌<◌, ◌≤◌, ◌++◌, length, take, reverse, None, Some, IfSome, IfOk, IfErr, OnOk, OnErr};
ghost use Rattle.std.specs.Option.{option_map};
ghost use Rattle.bfs_order.specs.Inside.Growing.{Grown};
ghost use Rattle.bfs_log.specs.Certificates.{MakesStable};
ghost use Rattle.bfs_log.specs.Logs.{as_messages};
ghost use Rattle.bfs_messages.specs.Signing.{as_message};
ghost use Rattle.bfs_messages.specs.declared.order_messages.OrderMessage.TheVariants as kind;
ghost use Rattle.bfs_order.specs.Replica.Views.{all_taken_over, as_proposals, entered, entering_refusal, greatest_number, left, leaving_refusal, number_of, opened, taken_over};
ghost use Rattle.bfs_order.specs.declared.error.OrderError.TheVariants as error;
ghost use Rattle.bfs_model.specs.Server.Limits.{most_number};

use crate::error::OrderError;
use crate::order::Order;
use bfs_auth::Keys;
use bfs_log::StableCheckpoint;
use bfs_messages::{Message, PrePrepare, Signed};
use bfs_types::{MOST_NUMBER, Memory};

fn greatest_of(handed: &[Signed<PrePrepare>]) -> u64
    ensures value { result ≡ greatest_number (as_proposals handed.now) }
{
    let mut greatest = 0;
    for signed in handed {
        greatest = signed.message.vote().number().max(greatest);
    }
    greatest
}

fn number_of(stable: Option<&StableCheckpoint>) -> u64
    ensures value { result ≡ number_of (option_map (λ c. c.now) stable.entry) }
{
    match stable {
        None => 0,
        Some(checkpoint) => checkpoint.number(),
    }
}

// What entering a view changes, but for the log, and how long that was.
#[derive(Drop)]
struct Saved {
    view: u64,
    asked: u64,
    min_s: u64,
    handed: u64,
    messages: usize,
}

impl Order {
    /// Leaves the view for a later one, which is asked for. `WrongView` unless it is above the view entered and the one asked for, and
    /// below 2^63; nothing changes then.
    pub fn leave_view(&mut self, view: u64) -> Result<(), OrderError>
        ensures taken { OnOk result (leaving_refusal self.old view ≡ None) }
        ensures now { OnOk result (self.new ≡ (left self.old view).now) }
        ensures refused { IfErr result (λ e. leaving_refusal self.old view ≡ Some e) }
        ensures err { OnErr result (self.new ≡ self.old) }
    {
        if let Some(error) = self.leaving_refusal(view) {
            return Err(error);
        }
        self.asked = view;
        Ok(())
    }

    /// Enters a view behind a stable checkpoint, up to which no number is given in it, with the PRE-PREPAREs that the new primary chose, and
    /// gives what is to be sent to all other replicas. Where the checkpoint is above the low mark, and shown to be stable, the low mark rises to
    /// it first, as by `install`, but for the number last executed. Those whose place is not free in the view are passed over; authenticators
    /// are not looked at again. `WrongView` unless the view is above the one entered, not below the one asked for, and below 2^63; then
    /// `Memory`. Nothing changes then.
    pub fn enter_view(
        &mut self,
        keys: &Keys,
        view: u64,
        stable: Option<&StableCheckpoint>,
        handed: Vec<Signed<PrePrepare>>,
    ) -> Result<Vec<Signed<Message>>, OrderError>
        ensures taken { OnOk result (entering_refusal self.old view ≡ None) }
        ensures now { OnOk result (self.new ≡ (entered keys.now self.old view (option_map (λ c. c.now) stable.entry) handed.items).now) }
        ensures sent { IfOk result (λ sent. sent.items ≡ as_messages (entered keys.now self.old view (option_map (λ c. c.now) stable.entry) handed.items).sent) }
        ensures raised { OnOk result (self.old.low < self.new.low → IfSome (option_map (λ c. c.now) stable.entry) (MakesStable self.old.f)) }
        ensures refused { IfErr result (λ e. e ≢ error.Memory → entering_refusal self.old view ≡ Some e) }
        ensures memory { IfErr result (λ e. e ≡ error.Memory → entering_refusal self.old view ≡ None) }
        ensures err { OnErr result (self.new ≡ self.old) }
    {
        self.enter_view_behind(keys, view, stable, handed, Vec::new(self.alloc))
    }

    /// Enters a view as `enter_view` does, and gives what is to be sent behind messages that are to be sent before it: the NEW-VIEW of a
    /// primary, say.
    pub fn enter_view_behind(
        &mut self,
        keys: &Keys,
        view: u64,
        stable: Option<&StableCheckpoint>,
        handed: Vec<Signed<PrePrepare>>,
        first: Vec<Signed<Message>>,
    ) -> Result<Vec<Signed<Message>>, OrderError>
        ensures taken { OnOk result (entering_refusal self.old view ≡ None) }
        ensures now { OnOk result (self.new ≡ (entered keys.now self.old view (option_map (λ c. c.now) stable.entry) handed.items).now) }
        ensures sent { IfOk result (λ sent. sent.items ≡ first.items ++ as_messages (entered keys.now self.old view (option_map (λ c. c.now) stable.entry) handed.items).sent) }
        ensures raised { OnOk result (self.old.low < self.new.low → IfSome (option_map (λ c. c.now) stable.entry) (MakesStable self.old.f)) }
        ensures refused { IfErr result (λ e. e ≢ error.Memory → entering_refusal self.old view ≡ Some e) }
        ensures memory { IfErr result (λ e. e ≡ error.Memory → entering_refusal self.old view ≡ None) }
        ensures err { OnErr result (self.new ≡ self.old) }
    {
        if let Some(error) = self.entering_refusal(view) {
            return Err(error);
        }
        let before = self.raise(keys, stable)?;
        match self.begin_in(keys, view, number_of(stable), handed, first) {
            Ok(sent) => Ok(sent),
            Err(_) => {
                self.lower(before);
                Err(OrderError::Memory)
            }
        }
    }

    // In the view, which begins behind a number, all that is handed over is taken.
    fn begin_in(
        &mut self,
        keys: &Keys,
        view: u64,
        min_s: u64,
        handed: Vec<Signed<PrePrepare>>,
        first: Vec<Signed<Message>>,
    ) -> Result<Vec<Signed<Message>>, Memory>
        requires { view ≤ most_number }
        ensures now { OnOk result (self.new ≡ (all_taken_over keys.now (opened self.old view min_s handed.items) (as_proposals handed.items)).now) }
        ensures sent { IfOk result (λ sent. sent.items ≡ first.items ++ as_messages (all_taken_over keys.now (opened self.old view min_s handed.items) (as_proposals handed.items)).sent) }
        ensures err { OnErr result (self.new ≡ self.old) }
    {
        let saved = self.saved();
        self.open(view, min_s, greatest_of(&handed));
        match self.take_over_all(keys, handed, first) {
            Ok(sent) => Ok(sent),
            Err(_) => {
                self.put_back(&saved);
                Err(Memory)
            }
        }
    }

    /// Why a view isn't left for that one, if it isn't.
    pub fn leaving_refusal(&self, view: u64) -> Option<OrderError>
        ensures value { result ≡ leaving_refusal self.now view }
        ensures one { IfSome result (λ e. e ≢ error.Memory) }
    {
        if self.view.max(self.asked) < view && view <= MOST_NUMBER {
            None
        } else {
            Some(OrderError::WrongView)
        }
    }

    /// Why a view isn't entered, if it isn't.
    pub fn entering_refusal(&self, view: u64) -> Option<OrderError>
        ensures value { result ≡ entering_refusal self.now view }
        ensures one { IfSome result (λ e. e ≢ error.Memory) }
    {
        if self.view < view && (self.asked <= view && view <= MOST_NUMBER) {
            None
        } else {
            Some(OrderError::WrongView)
        }
    }

    fn saved(&self) -> Saved
        ensures value { result ≡ record { view = self.now.view; asked = self.now.asked; min_s = self.now.min_s; handed = self.now.handed; messages = length self.now.log } }
        ensures view { result.view ≤ most_number }
        ensures asked { result.asked ≤ most_number }
    {
        Saved {
            view: self.view,
            asked: self.asked,
            min_s: self.min_s,
            handed: self.handed,
            messages: self.log.messages().len(),
        }
    }

    fn put_back(&mut self, saved: &Saved)
        requires view { saved.now.view ≤ most_number }
        requires asked { saved.now.asked ≤ most_number }
        ensures { self.new ≡ record self.old { view = saved.now.view; asked = saved.now.asked; min_s = saved.now.min_s; handed = saved.now.handed; log = take saved.now.messages self.old.log } }
    {
        self.view = saved.view;
        self.asked = saved.asked;
        self.min_s = saved.min_s;
        self.handed = saved.handed;
        self.log.truncate(saved.messages);
    }

    fn open(&mut self, view: u64, min_s: u64, handed: u64)
        requires { view ≤ most_number }
        ensures { self.new ≡ record self.old { view = view; asked = view; min_s = min_s; handed = handed } }
    {
        self.view = view;
        self.asked = view;
        self.min_s = min_s;
        self.handed = handed;
    }

    fn take_over(
        &mut self,
        keys: &Keys,
        proposal: Signed<PrePrepare>,
    ) -> Result<Vec<Signed<Message>>, Memory>
        ensures now { OnOk result (self.new ≡ (taken_over keys.now self.old (as_message kind.PrePrepare proposal)).now) }
        ensures sent { IfOk result (λ sent. sent.items ≡ as_messages (taken_over keys.now self.old (as_message kind.PrePrepare proposal)).sent) }
        ensures err { OnErr result (self.new ≡ self.old) }
    {
        let signed = proposal.into_order();
        let refused = self.place_refusal(&signed.message);
        match refused {
            Some(_) => Ok(Vec::new(self.alloc)),
            None => self.accept(keys, signed),
        }
    }

    #[tactic(auto, using(crate::proofs::Entering::turned_back))]
    fn take_over_all(
        &mut self,
        keys: &Keys,
        mut handed: Vec<Signed<PrePrepare>>,
        mut sent: Vec<Signed<Message>>,
    ) -> Result<Vec<Signed<Message>>, Memory>
        ensures now { OnOk result (self.new ≡ (all_taken_over keys.now self.old (as_proposals handed.items)).now) }
        ensures sent { IfOk result (λ all. all.items ≡ sent.items ++ as_messages (all_taken_over keys.now self.old (as_proposals handed.items)).sent) }
        ensures err { OnErr result (Grown self.old self.new) }
    {
        handed.reverse();
        while let Some(proposal) = handed.pop() {
            let mut more = self.take_over(keys, proposal)?;
            sent.append(&mut more)?;
        }
        Ok(sent)
    }
}
