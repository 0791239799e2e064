// What a replica tells beside messages.
ghost use Rattle.std.specs.Prelude.{◌≡◌, true, All, ◌∷◌, ◌++◌, [], OnOk, map};
ghost use Rattle.bfs_frames.specs.Parcels.{told_by};
ghost use Rattle.bfs_service.specs.Telling.{HasNotes, is_note};

use bfs_frames::{Frame, Kind, Parcel, To};
use bfs_types::Memory;
use std::alloc::Global;
use std::marker::Model;

/// Parcels that are no messages, in their order. What is said by them nobody rests on but for speed.
#[derive(Drop)]
pub(crate) struct Notes {
    parcels: Vec<Parcel>,
}

impl Model for Notes {
    ghost use Rattle.std.specs.Prelude.{◌≡◌, true, List, All, map};
    ghost use Rattle.bfs_frames.specs.Parcels.{Told, told_by};
    ghost use Rattle.bfs_service.specs.Telling.{is_note};

    ghost Value = { List Told };

    ghost view = { λ notes. map told_by notes.parcels.items };

    ghost invariant = { λ notes. All (λ t. is_note t.kind ≡ true) (map told_by notes.parcels.items) };
}

impl Notes {
    /// None yet. It takes no memory.
    pub(crate) fn new(alloc: Global) -> Notes {
        Notes {
            parcels: Vec::new(alloc),
        }
    }

    /// One more. `Memory` if memory runs out.
    pub(crate) fn add(&mut self, to: To, kind: Kind, payload: Vec<u8>) -> Result<(), Memory>
        requires { is_note kind ≡ true }
    {
        self.parcels.push(Parcel {
            to,
            frame: Frame { kind, payload },
        })?;
        Ok(())
    }

    /// Puts them behind other parcels; none is left. `Memory` if memory runs out.
    pub(crate) fn move_behind(&mut self, parcels: &mut Vec<Parcel>) -> Result<(), Memory>
        ensures { OnOk result (HasNotes (map told_by parcels.old.items) (map told_by parcels.new.items)) }
    {
        parcels.append(&mut self.parcels)?;
        Ok(())
    }
}
