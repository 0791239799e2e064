// Who sends what shows that a number is stable, or that a batch was prepared.
ghost use Rattle.std.specs.Prelude.{◌≡◌, ◌==◌, map};
ghost use Rattle.std.specs.List.{list_any};
ghost use Rattle.bfs_messages.specs.Signing.{as_message};
ghost use Rattle.bfs_messages.specs.declared.order_messages.OrderMessage as message;
ghost use Rattle.bfs_messages.specs.declared.order_messages.OrderMessage.TheVariants as kind;
ghost use Rattle.bfs_messages.specs.declared.signed.Signed as signed;
ghost use Rattle.bfs_log.specs.Certificates.{has_sender, senders_differ};
ghost use Rattle.bfs_log.specs.Headers.{header};

use bfs_messages::{Checkpoint, Signed, Vote};

/// A PREPARE or a CHECKPOINT.
pub(crate) trait Sent {
    /// As a message of the order.
    ghost sent: { Self → signed.Signed message.OrderMessage };

    /// The replica's number.
    fn sender(&self) -> u32
        ensures { result ≡ (header (sent self.now)).sender };
}

impl Sent for Signed<Vote> {
    ghost sent = { as_message kind.Prepare };

    fn sender(&self) -> u32 {
        self.message.sender()
    }
}

impl Sent for Signed<Checkpoint> {
    ghost sent = { as_message kind.Checkpoint };

    fn sender(&self) -> u32 {
        self.message.sender()
    }
}

#[tactic(auto, using(crate::proofs::Folds::any_map))]
pub(crate) fn is_sender<T: Sent>(messages: &[T], sender: u32) -> bool
    ensures { result ≡ has_sender (map T.sent messages.now) sender }
{
    is_any_from(messages, sender)
}

fn is_any_from<T: Sent>(messages: &[T], sender: u32) -> bool
    ensures { result ≡ list_any (λ m. (header (T.sent m)).sender == sender) messages.now }
{
    messages.iter().any(
        |message: &T| -> bool
            ensures { result ≡ ((header (T.sent message.now)).sender == sender) }
        { message.sender() == sender },
    )
}

/// Whether no two are of one sender.
pub(crate) fn do_senders_differ<T: Sent>(messages: &[T]) -> bool
    ensures { result ≡ senders_differ (map T.sent messages.now) }
{
    match messages {
        [] => true,
        [first, rest @ ..] => !is_sender(rest, first.sender()) && do_senders_differ(rest),
    }
}
