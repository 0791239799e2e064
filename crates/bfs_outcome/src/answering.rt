// The second pass: what is recorded, and what each request is answered.
ghost use Rattle.std.specs.Prelude.{◌≡◌, ◌<◌, ◌≤◌, ◌+◌, [], ◌++◌, drop, length, IfOk, OnOk};
ghost use Rattle.bfs_model.specs.Server.Limits.{most_reply_bytes};
ghost use Rattle.bfs_replies.specs.Answers.{recorded_all};
ghost use Rattle.bfs_replies.specs.Classes.{timestamps_of};
ghost use Rattle.bfs_outcome.specs.Outcome.{answer_to};
ghost use Rattle.bfs_outcome.specs.Inside.Passes.{call_as, new_calls, to_answer, to_answer_as, to_record, to_record_as};

use crate::execution::Executed;
use bfs_messages::{Request, Signed};
use bfs_replies::{Answer, Class, ReplyTable};
use bfs_serial::Replies;
use bfs_types::{Memory, TryClone};
use std::alloc::Global;

/// What is recorded and answered, where those are the replies to the new requests. The table stays as it is.
pub(crate) fn answer_all(
    alloc: Global,
    table: &ReplyTable,
    requests: &[Signed<Request>],
    replies: &Replies,
) -> Result<Executed, Memory>
    requires { length replies.now ≡ length (new_calls (timestamps_of table.now) requests.now) }
    ensures to_record { IfOk result (λ executed. executed.to_record.items ≡ to_record (timestamps_of table.now) requests.now replies.now) }
    ensures to_answer { IfOk result (λ executed. executed.to_answer.items ≡ to_answer (timestamps_of table.now) table.now requests.now replies.now) }
{
    let mut timestamps = table.timestamps()?;
    let mut executed = Executed::new(alloc);
    for signed in requests {
        let request = &signed.message;
        let class = timestamps.take(request.client(), request.timestamp());
        answer_one(alloc, table, &mut executed, request, class, replies)?;
    }
    Ok(executed)
}

// one request, which is that to its client's last one
fn answer_one(
    alloc: Global,
    table: &ReplyTable,
    executed: &mut Executed,
    request: &Request,
    class: Class,
    replies: &Replies,
) -> Result<(), Memory>
    requires { length executed.old.to_record.items + length (call_as class request.now) ≤ length replies.now }
    ensures to_record { OnOk result (executed.new.to_record.items ≡ executed.old.to_record.items ++ to_record_as class request.now (drop (length executed.old.to_record.items) replies.now)) }
    ensures to_answer { OnOk result (executed.new.to_answer.items ≡ executed.old.to_answer.items ++ to_answer_as class (recorded_all table.now executed.old.to_record.items) request.now (drop (length executed.old.to_record.items) replies.now)) }
{
    match class {
        Class::New => answer_new(alloc, executed, request, replies),
        Class::Repeat => answer_again(alloc, table, executed, request),
        Class::Old | Class::Unknown => Ok(()),
    }
}

// with the next of the replies, which is recorded too
#[tactic(auto, using(crate::proofs::Telling::next_told))]
fn answer_new(
    alloc: Global,
    executed: &mut Executed,
    request: &Request,
    replies: &Replies,
) -> Result<(), Memory>
    requires { length executed.old.to_record.items < length replies.now }
    ensures to_record { OnOk result (executed.new.to_record.items ≡ executed.old.to_record.items ++ to_record_as Class.New request.now (drop (length executed.old.to_record.items) replies.now)) }
    ensures to_answer { OnOk result (executed.new.to_answer.items ≡ executed.old.to_answer.items ++ to_record_as Class.New request.now (drop (length executed.old.to_record.items) replies.now)) }
{
    let answer = answer(alloc, request, replies.get(executed.to_record.len()))?;
    executed.to_answer.push(answer.try_clone(alloc)?)?;
    executed.to_record.push(answer)?;
    Ok(())
}

// with the reply to the client's last request, as the table has it by then
fn answer_again(
    alloc: Global,
    table: &ReplyTable,
    executed: &mut Executed,
    request: &Request,
) -> Result<(), Memory>
    ensures to_record { executed.new.to_record.items ≡ executed.old.to_record.items }
    ensures to_answer { OnOk result (executed.new.to_answer.items ≡ executed.old.to_answer.items ++ to_answer_as Class.Repeat (recorded_all table.now executed.old.to_record.items) request.now []) }
{
    if let Some(reply) = table.last_after(&executed.to_record, request.client()) {
        executed.to_answer.push(answer(alloc, request, reply)?)?;
    }
    Ok(())
}

fn answer(alloc: Global, request: &Request, reply: &[u8]) -> Result<Answer, Memory>
    requires { length reply.now ≤ most_reply_bytes }
    ensures { IfOk result (λ answer. answer ≡ answer_to request.now reply.now) }
{
    Answer::new(alloc, request.client(), request.timestamp(), reply)
}
