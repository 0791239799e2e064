//! What messages say of themselves.
use bfs_messages::{Message, OrderMessage};

/// What a message says of itself: its kind by the tag of its text, its sender, view, number and digest. What a kind has not is 0.
#[derive(Clone, Copy, Debug, PartialEq, Eq)]
pub struct Head {
    pub kind: u32,
    pub sender: u32,
    pub view: u64,
    pub number: u64,
    pub digest: [u8; 32],
}

impl Head {
    /// Whether it is of the kind, sender, view and number of another one.
    pub fn is_at_the_place_of(&self, other: &Head) -> bool {
        (self.kind, self.sender, self.view, self.number)
            == (other.kind, other.sender, other.view, other.number)
    }

    /// Whether it tells a digest.
    pub fn has_digest(&self) -> bool {
        2 <= self.kind && self.kind <= 5
    }
}

fn head_without_number(kind: u32, sender: u32, view: u64) -> Head {
    Head {
        kind,
        sender,
        view,
        number: 0,
        digest: [0; 32],
    }
}

fn head_of_order(message: &OrderMessage) -> Head {
    Head {
        kind: message.tag(),
        sender: message.sender(),
        view: message.view(),
        number: message.number(),
        digest: *message.digest(),
    }
}

/// What a message says of itself.
pub fn head_of(message: &Message) -> Head {
    match message {
        Message::Request(request) => head_without_number(1, request.client(), 0),
        Message::Order(message) => head_of_order(message),
        Message::ViewChange(change) => head_without_number(6, change.sender(), change.view()),
        Message::NewView(new) => head_without_number(7, new.sender(), new.view()),
        Message::Reply(reply) => head_without_number(8, reply.sender(), reply.view()),
    }
}
