// Messages in the text of a saved replica.
ghost use Rattle.std.specs.Prelude.{◌≡◌, ◌++◌, Option, OnOk};
ghost use Rattle.std.specs.Option.{option_map};
ghost use Rattle.bfs_messages.specs.Signing.{as_message};
ghost use Rattle.bfs_messages.specs.declared.message.Message as declared;
ghost use Rattle.bfs_messages.specs.declared.message.Message.TheVariants as kind;
ghost use Rattle.bfs_messages.specs.declared.order_messages.OrderMessage.TheVariants as order;
ghost use Rattle.bfs_saving.specs.Parts.{FitsNewView, new_view_text};
ghost use Rattle.bfs_saving.specs.Messages.{FitsText, checkpoint_of, kind_from, message_from, message_text, new_view_of, order_of, request_of, view_change_of};

use crate::items::{Saved, put_long, put_optional};
use crate::reader::SavedReader;
use bfs_codec::{DecodeError, encode};
use bfs_messages::{Checkpoint, Message, NewView, OrderMessage, Request, Signed, ViewChange};
use bfs_types::{Memory, TryClone};
use std::alloc::Global;

/// A kind of messages.
pub trait Carried: TryClone + Drop + Sized {
    ghost to: { Self → declared.Message };

    ghost of: { declared.Message → Option Self };

    /// One of the kind, as a message.
    fn into_message(self) -> Message
        ensures { result ≡ to self };

    /// A message, if it is of the kind.
    fn from_message(message: Message) -> Option<Self>
        ensures { result ≡ of message };
}

impl Carried for OrderMessage {
    ghost to = { kind.Order };

    ghost of = { order_of };

    fn into_message(self) -> Message {
        Message::Order(self)
    }

    fn from_message(message: Message) -> Option<OrderMessage> {
        match message {
            Message::Order(message) => Some(message),
            _ => None,
        }
    }
}

impl Carried for Checkpoint {
    ghost to = { λ checkpoint. kind.Order (order.Checkpoint checkpoint) };

    ghost of = { checkpoint_of };

    fn into_message(self) -> Message {
        Message::Order(OrderMessage::Checkpoint(self))
    }

    fn from_message(message: Message) -> Option<Checkpoint> {
        checkpoint_in(&message)
    }
}

fn checkpoint_in(message: &Message) -> Option<Checkpoint>
    ensures { result ≡ checkpoint_of message.now }
{
    match message {
        Message::Order(OrderMessage::Checkpoint(checkpoint)) => Some(*checkpoint),
        _ => None,
    }
}

impl Carried for Request {
    ghost to = { kind.Request };

    ghost of = { request_of };

    fn into_message(self) -> Message {
        Message::Request(self)
    }

    fn from_message(message: Message) -> Option<Request> {
        match message {
            Message::Request(request) => Some(request),
            _ => None,
        }
    }
}

impl Carried for ViewChange {
    ghost to = { kind.ViewChange };

    ghost of = { view_change_of };

    fn into_message(self) -> Message {
        Message::ViewChange(self)
    }

    fn from_message(message: Message) -> Option<ViewChange> {
        match message {
            Message::ViewChange(change) => Some(change),
            _ => None,
        }
    }
}

impl Carried for NewView {
    ghost to = { kind.NewView };

    ghost of = { new_view_of };

    fn into_message(self) -> Message {
        Message::NewView(self)
    }

    fn from_message(message: Message) -> Option<NewView> {
        match message {
            Message::NewView(new) => Some(new),
            _ => None,
        }
    }
}

impl<T: Carried> Saved for Signed<T> {
    ghost text = { λ signed. message_text (as_message T.to signed) };

    ghost fits = { λ signed. FitsText (as_message T.to signed) };

    ghost from = { kind_from T.of };

    fn put(&self, alloc: Global, out: &mut Vec<u8>) -> Result<(), Memory> {
        let copy = self.try_clone(alloc)?;
        let signed = Signed {
            message: copy.message.into_message(),
            auth: copy.auth,
        };
        put_message(alloc, out, &signed)
    }

    fn read(reader: &mut SavedReader<'_>) -> Result<Signed<T>, DecodeError> {
        let signed = reader.message()?;
        match T::from_message(signed.message) {
            Some(message) => Ok(Signed {
                message,
                auth: signed.auth,
            }),
            None => Err(DecodeError::Malformed),
        }
    }
}

impl Saved for Signed<Message> {
    ghost text = { message_text };

    ghost fits = { FitsText };

    ghost from = { message_from };

    fn put(&self, alloc: Global, out: &mut Vec<u8>) -> Result<(), Memory> {
        put_message(alloc, out, self)
    }

    fn read(reader: &mut SavedReader<'_>) -> Result<Signed<Message>, DecodeError> {
        reader.message()
    }
}

fn put_message(alloc: Global, out: &mut Vec<u8>, signed: &Signed<Message>) -> Result<(), Memory>
    ensures text { OnOk result (out.new.items ≡ out.old.items ++ message_text signed.now) }
    ensures fits { OnOk result (FitsText signed.now) }
{
    let bytes = encode(alloc, signed)?;
    put_long(out, &bytes)
}

/// Appends the text of the NEW-VIEW by which a view was entered, or that there is none. `Memory` if memory runs out.
pub fn put_new_view(
    new: Option<&Signed<NewView>>,
    alloc: Global,
    out: &mut Vec<u8>,
) -> Result<(), Memory>
    ensures text { OnOk result (out.new.items ≡ out.old.items ++ new_view_text (option_map (λ new. new.now) new.entry)) }
    ensures fits { OnOk result (FitsNewView (option_map (λ new. new.now) new.entry)) }
{
    put_optional(new, alloc, out)
}
