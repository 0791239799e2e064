ghost use Rattle.std.specs.Prelude.{◌≡◌};
ghost use Rattle.bfs_node.specs.Receivers.{receivers_of};

use bfs_messages::Message;

/// To whom a message goes.
#[derive(Clone, Copy, Debug, PartialEq, Eq)]
pub enum Receivers {
    /// All other replicas.
    Replicas,
    /// The client of that number.
    Client(u32),
}

/// To whom a message goes: a REPLY to its client, any other to all other replicas.
pub fn receivers_of(message: &Message) -> Receivers
    ensures { result ≡ receivers_of message.now }
{
    match message {
        Message::Reply(reply) => Receivers::Client(reply.client()),
        _ => Receivers::Replicas,
    }
}
