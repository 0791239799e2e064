//! A replica's parts are saved, and read again.
ghost use Rattle.std.specs.Prelude.{IfOk};
ghost use Rattle.bfs_pending.specs.Passed.{HavePassed};

use bfs_auth::{Keys, Principal};
use bfs_log::{Log, Slot};
use bfs_messages::{
    Message, OrderMessage, Request, Signed, Vote, is_request_signed, sign, sign_order,
};
use bfs_order::{Marks, Order};
use bfs_pending::PendingRequests;
use bfs_saving::{
    SavedError, SavedNode, begin_long, begin_many, begin_state, end_long, put_changes, put_front,
    put_new_view, put_order, put_requests, put_stable, read_saved, seal,
};
use bfs_testing::{holds, same};
use bfs_types::{MOST_CLIENTS, MOST_REPLICAS, Memory, TryClone};
use bfs_view_change::KeptViewChanges;
use std::alloc::Global;
use std::test::Fail;

// One of 4 replicas and 16 clients.
fn keys_of(alloc: Global, holder: Principal) -> Result<Keys, Memory> {
    let (Principal::Replica(number) | Principal::Client(number)) = holder;
    if number > 1_000 {
        return Err(Memory);
    }
    Keys::derive(alloc, &[0; 32], holder, 4, 16)
}

const MARKS: Marks = Marks {
    f: 1,
    me: 2,
    view: 3,
    asked: 4,
    low: 16,
    min_s: 15,
    handed: 14,
    last: 20,
};

fn put(log: &mut Log, signed: Signed<OrderMessage>) -> Result<(), Memory> {
    if signed.message.sender() >= MOST_REPLICAS as u32 || log.has(Slot::of(&signed.message)) {
        return Err(Memory);
    }
    log.push(signed)
}

fn prepare(alloc: Global, sender: u32, number: u64) -> Result<Signed<OrderMessage>, Memory> {
    let vote = Vote::new(sender, 3, number % 100, [7; 32]);
    let keys = keys_of(alloc, Principal::Replica(sender))?;
    sign_order(alloc, &keys, OrderMessage::Prepare(vote))
}

// It has three PREPAREs.
fn order(alloc: Global) -> Result<Order, Memory> {
    let mut log = Log::new(alloc);
    put(&mut log, prepare(alloc, 1, 17)?)?;
    put(&mut log, prepare(alloc, 2, 17)?)?;
    put(&mut log, prepare(alloc, 1, 18)?)?;
    Ok(Order::with_marks(alloc, MARKS, log))
}

// One request waits.
fn waiting(alloc: Global, keys: &Keys) -> Result<PendingRequests, Memory>
    ensures { IfOk result (λ pending. HavePassed keys.now pending) }
{
    let mut pending = PendingRequests::new(alloc);
    let request = Request::new(alloc, 3, 5, b"a call")?;
    let copy = Message::Request(request.try_clone(alloc)?);
    let auth = sign(alloc, &keys_of(alloc, Principal::Client(3))?, copy)?.auth;
    let signed = Signed {
        message: request,
        auth,
    };
    if !is_request_signed(keys, &signed) {
        return Err(Memory);
    }
    pending.push(signed)?;
    Ok(pending)
}

// With a state at 16.
fn text(alloc: Global, keys: &Keys) -> Result<Vec<u8>, Memory> {
    let mut out = Vec::new(alloc);
    put_front(&mut out, 16)?;
    put_order(&order(alloc)?, alloc, &mut out)?;
    put_requests(&waiting(alloc, keys)?, keys, alloc, &mut out)?;
    put_changes(&KeptViewChanges::new(alloc, 1)?, alloc, &mut out)?;
    put_new_view(None, alloc, &mut out)?;
    put_stable(None, 1, alloc, &mut out)?;
    begin_many(&mut out, 1)?;
    let start = begin_state(&mut out, 16)?;
    out.extend_from_slice(b"a state")?;
    end_long(&mut out, start);
    let start = begin_long(&mut out)?;
    out.extend_from_slice(b"its own")?;
    end_long(&mut out, start);
    seal(&mut out)?;
    Ok(out)
}

fn are_parts(saved: &SavedNode<'_>) -> bool {
    saved.clients == 16
        && saved.order.marks() == MARKS
        && (saved.order.log().len() == 3 && saved.pending.len() == 1)
        && (saved.changes.asked().len() == 4 && saved.new_view.is_none())
        && (saved.stable.is_none() && saved.states.len() == 1)
        && saved.own == b"its own".as_slice()
}

fn read<'a>(
    alloc: Global,
    keys: &Keys,
    me: u32,
    bytes: &'a [u8],
) -> Result<SavedNode<'a>, SavedError> {
    if me > 3 || keys.clients() > MOST_CLIENTS as usize {
        return Err(SavedError::Memory);
    }
    read_saved(alloc, keys, 1, me, bytes)
}

fn refusal(alloc: Global, keys: &Keys, me: u32, bytes: &[u8]) -> Option<u32> {
    match read(alloc, keys, me, bytes) {
        Ok(_) => None,
        Err(error) => Some(error.code()),
    }
}

#[test]
fn parts_are_read_again(rt: HostRuntime) -> Result<(), Fail> {
    let alloc = rt.alloc();
    let keys = keys_of(alloc, Principal::Replica(2))?;
    let text = text(alloc, &keys)?;
    match read(alloc, &keys, 2, &text) {
        Ok(saved) => holds!(rt; are_parts(&saved)),
        Err(_) => holds!(rt; false),
    }
    same!(rt; refusal(alloc, &keys, 1, &text), Some(45));
    Ok(())
}

#[test]
fn fronts_are_refused(rt: HostRuntime) -> Result<(), Fail> {
    let alloc = rt.alloc();
    let keys = keys_of(alloc, Principal::Replica(2))?;
    let mut text = text(alloc, &keys)?;
    for count in 0..text.len() {
        holds!(rt; refusal(alloc, &keys, 2, &text[..count]) == Some(20));
    }
    text.push(0)?;
    same!(rt; refusal(alloc, &keys, 2, &text), Some(20));
    Ok(())
}

#[test]
fn refusals_have_numbers(rt: HostRuntime) {
    same!(rt; SavedError::Malformed.code(), 20);
    same!(rt; SavedError::WrongVersion.code(), 22);
    same!(rt; SavedError::OtherSettings.code(), 44);
    same!(rt; SavedError::OtherReplica.code(), 45);
    same!(rt; SavedError::Memory.code(), 40);
}

// One word of the front is another one.
fn changed(alloc: Global, text: &[u8], place: usize) -> Result<Vec<u8>, Memory> {
    let mut changed = Vec::new(alloc);
    changed.extend_from_slice(text)?;
    if place < changed.len() {
        changed[place] ^= 1;
    }
    Ok(changed)
}

#[test]
fn each_word_in_front_tells_why(rt: HostRuntime) -> Result<(), Fail> {
    let alloc = rt.alloc();
    let keys = keys_of(alloc, Principal::Replica(2))?;
    let text = text(alloc, &keys)?;
    let wanted = [20, 22, 44, 44, 45, 20];
    for word in 0..6 {
        let text = changed(alloc, &text, 4 * word + 3)?;
        same!(rt; refusal(alloc, &keys, 2, &text), Some(wanted[word]));
    }
    Ok(())
}
