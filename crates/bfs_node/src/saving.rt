// A replica is written as bytes, by which it outlives a crash.
ghost use Rattle.std.specs.Prelude.{◌≡◌, ◌++◌, length, map, IfOk, OnOk};
ghost use Rattle.std.specs.List.{AllByRecursion, flat_map};
ghost use Rattle.std.specs.Option.{ForSome};
ghost use Rattle.bfs_model.specs.Server.Stored.{IsLive};
ghost use Rattle.bfs_checkpoints.specs.Snapshots.{IsTaken};
ghost use Rattle.bfs_checkpoints.specs.States.{state_text as own_text};
ghost use Rattle.bfs_node.specs.Saving.{AreTaken, IsSavable, saved, saved_snapshot, text_of};
ghost use Rattle.bfs_replies.specs.Tables.{IsKept};
ghost use Rattle.bfs_saving.specs.Certificates.{FitsStable, stable_text};
ghost use Rattle.bfs_saving.specs.Items.{FitMany, FitsLong, long_text, many_text};
ghost use Rattle.bfs_saving.specs.Parts.{FitChanges, FitRequests, FitsNewView, FitsOrder, changes_text, new_view_text, order_text, requests_text};
ghost use Rattle.bfs_saving.specs.Saved.{FitParts, FitsState, parts_text, state_text};

use crate::node::Node;
use bfs_checkpoints::{Kept, put_state};
use bfs_saving::{
    begin_long, begin_many, begin_state, end_long, put_changes, put_front, put_new_view, put_order,
    put_requests, put_stable, seal,
};
use bfs_types::Memory;

impl Node {
    /// The replica as bytes: its views, marks and log, the requests that wait, the VIEW-CHANGEs that it keeps, the NEW-VIEW by which it has
    /// entered its view, its snapshots and what makes one of them stable, its file system and the last replies. Its keys are not told. A file of
    /// these bytes is kept over a crash: `restored` makes the very replica of them, which has forgotten nothing that it has said. It takes time and
    /// memory by the bytes that are written, once each; where checkpoints share files, each of them is written. `Memory` if memory runs out.
    pub fn save(&self) -> Result<Vec<u8>, Memory>
        ensures text { IfOk result (λ text. text.items ≡ text_of self.now) }
        ensures savable { OnOk result (IsSavable self.now) }
    {
        let mut out = Vec::new(self.alloc);
        put_front(&mut out, self.table.clients())?;
        self.put_parts(&mut out)?;
        seal(&mut out)?;
        Ok(out)
    }

    #[tactic(auto, using(std::proofs::lemmas::List::append_assoc))]
    fn put_parts(&self, out: &mut Vec<u8>) -> Result<(), Memory>
        ensures text { OnOk result (out.new.items ≡ out.old.items ++ parts_text (saved self.now)) }
        ensures savable { OnOk result (IsSavable self.now) }
    {
        self.put_first(out)?;
        self.put_views(out)?;
        self.put_kept(out)?;
        self.put_own(out)
    }

    #[tactic(auto, using(std::proofs::lemmas::List::append_assoc))]
    fn put_first(&self, out: &mut Vec<u8>) -> Result<(), Memory>
        ensures text { OnOk result (out.new.items ≡ out.old.items ++ (order_text self.now.order ++ requests_text self.now.pending)) }
        ensures order { OnOk result (FitsOrder self.now.order.f self.now.order.me self.now.order) }
        ensures requests { OnOk result (FitRequests self.now.keys self.now.pending) }
        ensures clients { OnOk result (length self.now.table ≡ length self.now.keys.clients) }
    {
        put_order(&self.order, self.alloc, out)?;
        put_requests(&self.pending, &self.keys, self.alloc, out)
    }

    #[tactic(auto, using(std::proofs::lemmas::List::append_assoc))]
    fn put_views(&self, out: &mut Vec<u8>) -> Result<(), Memory>
        ensures text { OnOk result (out.new.items ≡ out.old.items ++ (changes_text self.now.changes ++ new_view_text self.now.new_view)) }
        ensures changes { OnOk result (FitChanges self.now.changes) }
        ensures new_view { OnOk result (FitsNewView self.now.new_view) }
    {
        put_changes(&self.changes, self.alloc, out)?;
        put_new_view(self.new_view.as_ref(), self.alloc, out)
    }

    #[tactic(auto, using(std::proofs::lemmas::List::append_assoc))]
    fn put_kept(&self, out: &mut Vec<u8>) -> Result<(), Memory>
        ensures text { OnOk result (out.new.items ≡ out.old.items ++ (stable_text self.now.snapshots.stable ++ many_text state_text (map saved_snapshot self.now.snapshots.kept))) }
        ensures stable { OnOk result (FitsStable self.now.snapshots.f self.now.snapshots.stable) }
        ensures faults { OnOk result (self.now.snapshots.f ≡ self.now.order.f) }
        ensures states { OnOk result (FitMany FitsState (map saved_snapshot self.now.snapshots.kept)) }
        ensures taken { OnOk result (AreTaken self.now.snapshots.kept) }
    {
        put_stable(
            self.snapshots.certificate(),
            self.snapshots.faults(),
            self.alloc,
            out,
        )?;
        put_snapshots(self.snapshots.kept(), out)
    }

    // What it is now. Its length is written once it is known.
    #[tactic(auto, using(crate::proofs::SavedStates::long_enough))]
    fn put_own(&self, out: &mut Vec<u8>) -> Result<(), Memory>
        ensures text { OnOk result (out.new.items ≡ out.old.items ++ long_text (own_text self.now.files self.now.table)) }
        ensures fits { OnOk result (FitsLong (own_text self.now.files self.now.table)) }
        ensures live { OnOk result (ForSome self.now.files IsLive) }
        ensures kept { OnOk result (IsKept self.now.table) }
    {
        let start = begin_long(out)?;
        put_state(out, self.alloc, &self.files, &self.table)?;
        end_long(out, start);
        Ok(())
    }
}

#[tactic(auto, using(crate::proofs::SavedStates::many_put, crate::proofs::SavedStates::many_fit))]
fn put_snapshots(kept: &[Kept], out: &mut Vec<u8>) -> Result<(), Memory>
    ensures text { OnOk result (out.new.items ≡ out.old.items ++ many_text state_text (map saved_snapshot kept.now)) }
    ensures fits { OnOk result (FitMany FitsState (map saved_snapshot kept.now)) }
    ensures taken { OnOk result (AreTaken kept.now) }
{
    begin_many(out, kept.len())?;
    put_each(kept, out)
}

#[tactic(auto, using(bfs_saving::proofs::Public::all_taken))]
fn put_each(kept: &[Kept], out: &mut Vec<u8>) -> Result<(), Memory>
    ensures text { OnOk result (out.new.items ≡ out.old.items ++ flat_map (λ one. state_text (saved_snapshot one)) kept.now) }
    ensures fits { OnOk result (AllByRecursion (λ one. FitsState (saved_snapshot one)) kept.now) }
    ensures taken { OnOk result (AreTaken kept.now) }
{
    for one in kept {
        put_snapshot(one, out)?;
    }
    Ok(())
}

// Its length is written once it is known.
#[tactic(auto, using(crate::proofs::SavedStates::long_enough))]
fn put_snapshot(kept: &Kept, out: &mut Vec<u8>) -> Result<(), Memory>
    ensures text { OnOk result (out.new.items ≡ out.old.items ++ state_text (saved_snapshot kept.now)) }
    ensures fits { OnOk result (FitsState (saved_snapshot kept.now)) }
    ensures taken { OnOk result (IsTaken kept.now.snapshot) }
{
    let start = begin_state(out, kept.number())?;
    kept.snapshot().put_text(out)?;
    end_long(out, start);
    Ok(())
}
