//! A message as a line: its kind, its sender, its receivers, and what it says of view, number, digest and timestamp, `-` where it says nothing.
use anyhow::Error;
use bfs_messages::{Message, OrderMessage, Signed};
use std::alloc::Global;

/// Who sent a message, as far as the message doesn't tell.
#[derive(Clone, Copy)]
pub enum Sender {
    Replica(usize),
    Client,
}

/// What a message says beside its kind.
#[derive(Clone, Copy)]
struct Said {
    view: Option<u64>,
    number: Option<u64>,
    digest: Option<[u8; 32]>,
    // the client, and the timestamp of its request
    client: Option<(u32, u64)>,
}

/// The line of a message. It goes to one client, or to the replicas that are heard but its sender.
pub fn line_of(
    alloc: Global,
    sender: Sender,
    signed: &Signed<Message>,
    heard: &[bool],
) -> Result<String, Error> {
    let said = said_in(&signed.message);
    let mut line = String::new(alloc);
    line.push_str(kind_of(&signed.message))?;
    push_ends(alloc, &mut line, sender, said.client, heard)?;
    push_number(alloc, &mut line, said.view)?;
    push_number(alloc, &mut line, said.number)?;
    push_digest(alloc, &mut line, said.digest)?;
    push_timestamp(alloc, &mut line, said.client)?;
    Ok(line)
}

fn kind_of(message: &Message) -> &'static str {
    match message {
        Message::Request(_) => "REQUEST",
        Message::Order(OrderMessage::PrePrepare(_)) => "PRE-PREPARE",
        Message::Order(OrderMessage::Prepare(_)) => "PREPARE",
        Message::Order(OrderMessage::Commit(_)) => "COMMIT",
        Message::Order(OrderMessage::Checkpoint(_)) => "CHECKPOINT",
        Message::ViewChange(_) => "VIEW-CHANGE",
        Message::NewView(_) => "NEW-VIEW",
        Message::Reply(_) => "REPLY",
    }
}

// sender and receivers
fn push_ends(
    alloc: Global,
    line: &mut String,
    sender: Sender,
    client: Option<(u32, u64)>,
    heard: &[bool],
) -> Result<(), Error> {
    match (sender, client) {
        (Sender::Client, Some((client, _))) => {
            push(line, format!(in alloc; " c{client} ")?)?;
            push_replicas(alloc, line, heard, heard.len())
        }
        (Sender::Client, None) => push(line, format!(in alloc; " - -")?),
        (Sender::Replica(number), Some((client, _))) => {
            push(line, format!(in alloc; " r{number} c{client}")?)
        }
        (Sender::Replica(number), None) => {
            push(line, format!(in alloc; " r{number} ")?)?;
            push_replicas(alloc, line, heard, number)
        }
    }
}

fn push(line: &mut String, words: String) -> Result<(), Error> {
    line.push_str(words.as_str())?;
    Ok(())
}

// those that are heard, but that one, with commas between them; `-` where there are none
fn push_replicas(
    alloc: Global,
    line: &mut String,
    heard: &[bool],
    but: usize,
) -> Result<(), Error> {
    let mut is_first = true;
    for (number, is_heard) in heard.iter().enumerate() {
        if *is_heard && number != but {
            if !is_first {
                line.push_str(",")?;
            }
            push(line, format!(in alloc; "r{number}")?)?;
            is_first = false;
        }
    }
    if is_first {
        line.push_str("-")?;
    }
    Ok(())
}

fn push_number(alloc: Global, line: &mut String, number: Option<u64>) -> Result<(), Error> {
    match number {
        Some(number) => push(line, format!(in alloc; " {number}")?),
        None => push(line, format!(in alloc; " -")?),
    }
}

// the first four bytes
fn push_digest(alloc: Global, line: &mut String, digest: Option<[u8; 32]>) -> Result<(), Error> {
    match digest {
        Some(digest) => {
            let digits = hex::encode(alloc, &digest[..4])?;
            push(line, format!(in alloc; " {digits}")?)
        }
        None => push(line, format!(in alloc; " -")?),
    }
}

// of a client's request
fn push_timestamp(
    alloc: Global,
    line: &mut String,
    client: Option<(u32, u64)>,
) -> Result<(), Error> {
    match client {
        Some((_, timestamp)) => push(line, format!(in alloc; " t{timestamp}")?),
        None => push(line, format!(in alloc; " -")?),
    }
}

fn said_in(message: &Message) -> Said {
    match message {
        Message::Request(request) => of_client(None, request.client(), request.timestamp()),
        Message::Order(message) => of_order(message),
        Message::ViewChange(change) => of_view(change.view()),
        Message::NewView(new) => of_view(new.view()),
        Message::Reply(reply) => of_client(Some(reply.view()), reply.client(), reply.timestamp()),
    }
}

fn of_client(view: Option<u64>, client: u32, timestamp: u64) -> Said {
    Said {
        view,
        number: None,
        digest: None,
        client: Some((client, timestamp)),
    }
}

// a CHECKPOINT is of no view
fn of_order(message: &OrderMessage) -> Said {
    let view = match message {
        OrderMessage::Checkpoint(_) => None,
        _ => Some(message.view()),
    };
    Said {
        view,
        number: Some(message.number()),
        digest: Some(*message.digest()),
        client: None,
    }
}

fn of_view(view: u64) -> Said {
    Said {
        view: Some(view),
        number: None,
        digest: None,
        client: None,
    }
}
