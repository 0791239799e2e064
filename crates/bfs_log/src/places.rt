// What was said at each place: the index of a log.
ghost use Rattle.std.specs.Prelude.{◌≡◌, ◌<◌, [], ◌∷◌, ◌++◌, false, ◌||◌, ◌&&◌, ◌==◌, OnOk, OnErr, List, filter, bytes_eq, if◌then◌else◌};
ghost use Rattle.std.specs.BTreeMap.{IsOrdered};
ghost use Rattle.bfs_log.specs.Batches as model;
ghost use Rattle.bfs_log.specs.Places.{checkpoint_place, greatest_in, is_above, place_cmp, row_at, row_kept, same_place};
ghost use Rattle.bfs_log.specs.declared.places.Place as declared;

use crate::said::Said;
use bfs_messages::{CHECKPOINT_TAG, PRE_PREPARE_TAG};
use bfs_types::Memory;
use std::alloc::Global;
use std::collections::BTreeMap;

/// A kind of messages, by its tag, of one number of one view.
#[derive(Clone, Copy, Debug, PartialEq, Eq, PartialOrd, Ord)]
pub(crate) struct Place {
    pub(crate) number: u64,
    pub(crate) view: u64,
    pub(crate) tag: u32,
}

pub(crate) fn row_at(places: &BTreeMap<Place, Vec<Said>>, place: Place) -> &[Said]
    ensures { result.now ≡ row_at places.now place }
{
    match places.get(&place) {
        Some(row) => row.as_slice(),
        None => &[],
    }
}

/// The greatest number of a place at which a PRE-PREPARE of a view stands, 0 where there is none.
pub(crate) fn greatest_in(places: &BTreeMap<Place, Vec<Said>>, view: u64) -> u64
    ensures value { result ≡ greatest_in view places.now.entries }
    ensures ordered { IsOrdered place_cmp places.now }
{
    let mut greatest = 0;
    for (place, row) in places.iter() {
        if (place.tag == PRE_PREPARE_TAG && place.view == view) && !row.as_slice().is_empty() {
            greatest = place.number.max(greatest);
        }
    }
    greatest
}

/// Puts one more at a place. `Memory` if memory runs out; then nothing is said anew.
pub(crate) fn put_at(
    alloc: Global,
    places: &mut BTreeMap<Place, Vec<Said>>,
    place: Place,
    said: Said,
) -> Result<(), Memory>
    ensures ok { OnOk result ((p : declared.Place) → row_at places.new p ≡ row_at places.old p ++ (if same_place place p then said ∷ [] else [])) }
    ensures err { OnErr result ((p : declared.Place) → row_at places.new p ≡ row_at places.old p) }
{
    if let Some(row) = places.get_mut(&place) {
        row.push(said)?;
        return Ok(());
    }
    let mut row = Vec::new(alloc);
    row.push(said)?;
    places.insert(place, row)?;
    Ok(())
}

/// Takes the last one at a place out again. It takes no memory.
pub(crate) fn pop_at(places: &mut BTreeMap<Place, Vec<Said>>, place: Place)
    ensures last { (row : List model.Said) (said : model.Said) → row_at places.old place ≡ row ++ said ∷ [] → row_at places.new place ≡ row }
    ensures others { (p : declared.Place) → same_place place p ≡ false → row_at places.new p ≡ row_at places.old p }
{
    if let Some(row) = places.get_mut(&place) {
        row.pop();
    }
}

// The place of the CHECKPOINTs of a number.
fn checkpoint_place(number: u64) -> Place
    ensures { result ≡ checkpoint_place number }
{
    Place {
        number,
        view: 0,
        tag: CHECKPOINT_TAG,
    }
}

/// Drops what was said up to a checkpoint, but for the CHECKPOINTs that tell it. It takes no memory.
pub(crate) fn drop_up_to(places: &mut BTreeMap<Place, Vec<Said>>, number: u64, digest: &[u8; 32])
    ensures { (p : declared.Place) → row_at places.new p ≡ row_kept number digest.now p (row_at places.old p) }
{
    drop_places(places, number);
    drop_other_checkpoints(places, number, digest);
}

fn drop_places(places: &mut BTreeMap<Place, Vec<Said>>, number: u64)
    ensures { (p : declared.Place) → row_at places.new p ≡ if is_above number p then row_at places.old p else [] }
{
    let told = checkpoint_place(number);
    places.retain(|place, _| *place == told || number < place.number);
}

fn drop_other_checkpoints(places: &mut BTreeMap<Place, Vec<Said>>, number: u64, digest: &[u8; 32])
    ensures { (p : declared.Place) → row_at places.new p ≡ if same_place (checkpoint_place number) p then filter (λ said. bytes_eq said.digest digest.now) (row_at places.old p) else row_at places.old p }
{
    if let Some(row) = places.get_mut(&checkpoint_place(number)) {
        keep_told(row, digest);
    }
}

fn keep_told(row: &mut Vec<Said>, digest: &[u8; 32])
    ensures { row.new.items ≡ filter (λ said. bytes_eq said.digest digest.now) row.old.items }
{
    row.retain(|said| said.digest() == digest);
}
