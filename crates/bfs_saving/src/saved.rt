// A whole saved replica, as it is read.
ghost use Rattle.std.specs.Prelude.{◌≡◌, ◌≢◌, ◌<◌, ◌≤◌, ◌+◌, ◌*◌, length, IfErr, IfOk};
ghost use Rattle.bfs_model.specs.Bytes.Formats.{items_from, then_from, whole_from};
ghost use Rattle.bfs_model.specs.Server.Limits.{most_clients, most_faults};
ghost use Rattle.bfs_codec.specs.Codes.{Gives, Reads};
ghost use Rattle.bfs_saving.specs.Certificates.{stable_from};
ghost use Rattle.bfs_saving.specs.Errors.{IsOnly, refusal};
ghost use Rattle.bfs_saving.specs.Parts.{changes_from, new_view_from, order_from, requests_from};
ghost use Rattle.bfs_saving.specs.declared.error.SavedError.TheVariants as error;
ghost use Rattle.bfs_saving.specs.Items.{many_from};
ghost use Rattle.bfs_saving.specs.Saved as model;
ghost use Rattle.bfs_saving.specs.Saved.{FitsSaved, parts_from, saved_from, saved_of, saved_text, state_from};

use crate::certificates::read_stable;
use crate::changes::read_changes;
use crate::error::SavedError;
use crate::fronts::{MAGIC, VERSION, refusal};
use crate::items::Saved;
use crate::orders::read_order;
use crate::reader::SavedReader;
use crate::requests::read_requests;
use crate::sealing::unsealed;
use bfs_auth::Keys;
use bfs_codec::DecodeError;
use bfs_log::StableCheckpoint;
use bfs_messages::{NewView, Signed};
use bfs_order::Order;
use bfs_pending::PendingRequests;
use bfs_view_change::KeptViewChanges;
use std::alloc::Global;
use std::marker::Model;

/// The text of a state, and the number of its checkpoint.
#[derive(Drop)]
pub struct SavedState<'a> {
    pub number: u64,
    pub text: &'a [u8],
}

impl<'a> Model for SavedState<'a> {
    ghost use Rattle.bfs_saving.specs.Saved as model;

    ghost Value = { model.SavedState };

    ghost view = { λ state. record { number = state.number; text = state.text.now } };
}

/// What a text spells of a replica: its parts, and the texts of its states, which are not copied.
#[derive(Drop)]
pub struct SavedNode<'a> {
    pub clients: u32,
    pub order: Order,
    pub pending: PendingRequests,
    pub changes: KeptViewChanges,
    pub new_view: Option<Signed<NewView>>,
    pub stable: Option<StableCheckpoint>,
    pub states: Vec<SavedState<'a>>,
    pub own: &'a [u8],
}

impl<'a> Model for SavedNode<'a> {
    ghost use Rattle.bfs_saving.specs.Saved as model;

    ghost Value = { model.Saved };

    ghost view = { λ s. record { clients = s.clients; order = s.order; pending = s.pending; changes = s.changes; new_view = s.new_view; stable = s.stable; states = s.states.items; own = s.own.now } };
}

/// What the bytes spell of the replica of that number, where `f` of its replicas may be faulty. `WrongVersion` if they begin with `BFSN` and another
/// version than 1 follows; `OtherSettings` if behind that another number of clients or another f follows, `OtherReplica` if another number of a replica
/// does; `Malformed` if they spell none all the same: if they were cut or changed, or a request that waits isn't its client's; `Memory` if memory runs out.
pub fn read_saved<'a>(
    alloc: Global,
    keys: &Keys,
    f: u32,
    me: u32,
    bytes: &'a [u8],
) -> Result<SavedNode<'a>, SavedError>
    requires faults { f ≤ most_faults }
    requires me { me < 3 * f + 1 }
    requires clients { length keys.now.clients ≤ most_clients }
    // What is read is spelled so.
    ensures found { IfOk result (λ s. (bytes.now ≡ saved_text s) × FitsSaved keys.now f me s) }
    // What is spelled so is read.
    ensures only { (s : model.Saved) → FitsSaved keys.now f me s → bytes.now ≡ saved_text s → IsOnly s result }
    ensures refused { IfErr result (λ e. e ≢ error.Memory → e ≡ refusal (length keys.now.clients) f me bytes.now) }
{
    match read_whole(alloc, keys, f, me, bytes) {
        Ok(saved) => Ok(saved),
        Err(DecodeError::Malformed) => Err(refusal(keys.clients() as u32, f, me, bytes)),
        Err(DecodeError::Memory) => Err(SavedError::Memory),
    }
}

#[tactic(auto, unfolding(crate::specs::Saved::saved_of))]
fn read_whole<'a>(
    alloc: Global,
    keys: &Keys,
    f: u32,
    me: u32,
    bytes: &'a [u8],
) -> Result<SavedNode<'a>, DecodeError>
    requires faults { f ≤ most_faults }
    requires me { me < 3 * f + 1 }
    requires clients { length keys.now.clients ≤ most_clients }
    ensures { Gives result (saved_of keys.now f me bytes.now) }
{
    match unsealed(bytes) {
        Some(body) => read_body(alloc, keys, f, me, body),
        None => Err(DecodeError::Malformed),
    }
}

#[tactic(auto, unfolding(crate::specs::Saved::saved_from))]
fn read_body<'a>(
    alloc: Global,
    keys: &Keys,
    f: u32,
    me: u32,
    bytes: &'a [u8],
) -> Result<SavedNode<'a>, DecodeError>
    requires faults { f ≤ most_faults }
    requires me { me < 3 * f + 1 }
    requires clients { length keys.now.clients ≤ most_clients }
    ensures { Gives result (whole_from (saved_from keys.now f me) bytes.now) }
{
    let mut reader = SavedReader::new(alloc, bytes);
    reader.tag(MAGIC)?;
    reader.tag(VERSION)?;
    reader.tag(keys.clients() as u32)?;
    let saved = read_parts(&mut reader, keys, f, me)?;
    if !reader.is_at_end() {
        return Err(DecodeError::Malformed);
    }
    Ok(saved)
}

#[tactic(auto, unfolding(crate::specs::Saved::parts_from))]
fn read_parts<'a>(
    reader: &mut SavedReader<'a>,
    keys: &Keys,
    f: u32,
    me: u32,
) -> Result<SavedNode<'a>, DecodeError>
    requires faults { f ≤ most_faults }
    requires me { me < 3 * f + 1 }
    requires clients { length keys.now.clients ≤ most_clients }
    ensures { Reads (λ s. s) result (parts_from keys.now f me reader.old) reader.new }
{
    let (order, pending) = read_first(reader, keys, f, me)?;
    let (changes, new_view) = read_views(reader)?;
    let (stable, states) = read_kept(reader, f)?;
    let own = reader.long()?;
    Ok(SavedNode {
        clients: keys.clients() as u32,
        order,
        pending,
        changes,
        new_view,
        stable,
        states,
        own,
    })
}

fn read_first(
    reader: &mut SavedReader<'_>,
    keys: &Keys,
    f: u32,
    me: u32,
) -> Result<(Order, PendingRequests), DecodeError>
    requires faults { f ≤ most_faults }
    requires me { me < 3 * f + 1 }
    ensures { Reads (λ read. (read.0, read.1)) result (then_from (order_from f me) (requests_from keys.now) reader.old) reader.new }
{
    let order = read_order(reader, f, me)?;
    let pending = read_requests(reader, keys)?;
    Ok((order, pending))
}

fn read_views(
    reader: &mut SavedReader<'_>,
) -> Result<(KeptViewChanges, Option<Signed<NewView>>), DecodeError>
    ensures { Reads (λ read. (read.0, read.1)) result (then_from changes_from new_view_from reader.old) reader.new }
{
    let changes = read_changes(reader)?;
    let new_view = Option::<Signed<NewView>>::read(reader)?;
    Ok((changes, new_view))
}

fn read_kept<'a>(
    reader: &mut SavedReader<'a>,
    f: u32,
) -> Result<(Option<StableCheckpoint>, Vec<SavedState<'a>>), DecodeError>
    requires { f ≤ most_faults }
    ensures { Reads (λ read. (read.0, read.1.items)) result (then_from (stable_from f) (many_from state_from) reader.old) reader.new }
{
    let stable = read_stable(reader, f)?;
    let states = read_states(reader)?;
    Ok((stable, states))
}

#[tactic(auto, unfolding(crate::specs::Items::many_from))]
fn read_states<'a>(reader: &mut SavedReader<'a>) -> Result<Vec<SavedState<'a>>, DecodeError>
    ensures { Reads (λ states. states.items) result (many_from state_from reader.old) reader.new }
{
    let count = reader.u64()?;
    states_of(reader, count)
}

fn states_of<'a>(
    reader: &mut SavedReader<'a>,
    count: u64,
) -> Result<Vec<SavedState<'a>>, DecodeError>
    ensures { Reads (λ states. states.items) result (items_from state_from count reader.old) reader.new }
{
    let mut states = Vec::new(reader.alloc());
    for _state in 0..count {
        states.push(read_state(reader)?)?;
    }
    Ok(states)
}

#[tactic(auto, unfolding(crate::specs::Saved::state_from))]
fn read_state<'a>(reader: &mut SavedReader<'a>) -> Result<SavedState<'a>, DecodeError>
    ensures { Reads (λ state. state) result (state_from reader.old) reader.new }
{
    let number = reader.u64()?;
    let text = reader.long()?;
    Ok(SavedState { number, text })
}
