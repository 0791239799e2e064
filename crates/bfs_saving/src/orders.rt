// What a replica knows of the order.
ghost use Rattle.std.specs.Prelude.{◌≡◌, ◌<◌, ◌≤◌, ◌+◌, ◌*◌, ◌++◌, IfOk, OnOk};
ghost use Rattle.bfs_model.specs.Server.Limits.{most_faults};
ghost use Rattle.bfs_codec.specs.Codes.{Reads};
ghost use Rattle.bfs_saving.specs.Parts.{AreWithin, FitsOrder, marks_from, marks_text, order_from, order_text};

use crate::logs::{put_log, read_log};
use crate::reader::SavedReader;
use bfs_codec::DecodeError;
use bfs_order::{Marks, Order};
use bfs_types::Memory;
use bfs_xdr::{put_u32, put_u64};
use std::alloc::Global;

/// Appends the text of a replica's order. `Memory` if memory runs out.
#[tactic(auto, using(std::proofs::lemmas::List::append_assoc))]
pub fn put_order(order: &Order, alloc: Global, out: &mut Vec<u8>) -> Result<(), Memory>
    ensures text { OnOk result (out.new.items ≡ out.old.items ++ order_text order.now) }
    ensures fits { OnOk result (FitsOrder order.now.f order.now.me order.now) }
{
    put_marks(&order.marks(), out)?;
    put_log(order.whole_log(), alloc, out)
}

#[tactic(auto, using(std::proofs::lemmas::List::append_assoc))]
fn put_marks(marks: &Marks, out: &mut Vec<u8>) -> Result<(), Memory>
    ensures { OnOk result (out.new.items ≡ out.old.items ++ marks_text marks.now) }
{
    put_u32(out, marks.f)?;
    put_u32(out, marks.me)?;
    put_u64(out, marks.view)?;
    put_u64(out, marks.asked)?;
    put_u64(out, marks.low)?;
    put_u64(out, marks.last)?;
    put_u64(out, marks.min_s)?;
    put_u64(out, marks.handed)
}

/// Reads the order of that replica, where so many may be faulty.
#[tactic(auto, unfolding(crate::specs::Parts::order_from))]
pub(crate) fn read_order(
    reader: &mut SavedReader<'_>,
    f: u32,
    me: u32,
) -> Result<Order, DecodeError>
    requires faults { f ≤ most_faults }
    requires me { me < 3 * f + 1 }
    ensures { Reads (λ order. order) result (order_from f me reader.old) reader.new }
{
    let marks = read_marks(reader, f, me)?;
    let log = read_log(reader)?;
    Ok(Order::with_marks(reader.alloc(), marks, log))
}

#[tactic(auto, unfolding(crate::specs::Parts::marks_from))]
fn read_marks(reader: &mut SavedReader<'_>, f: u32, me: u32) -> Result<Marks, DecodeError>
    ensures read { Reads (λ marks. marks) result (marks_from f me reader.old) reader.new }
    ensures within { IfOk result (AreWithin f me) }
{
    reader.tag(f)?;
    reader.tag(me)?;
    let view = reader.number()?;
    let asked = reader.number()?;
    let low = reader.number()?;
    let last = reader.number()?;
    let min_s = reader.u64()?;
    let handed = reader.u64()?;
    Ok(Marks {
        f,
        me,
        view,
        asked,
        low,
        min_s,
        handed,
        last,
    })
}
