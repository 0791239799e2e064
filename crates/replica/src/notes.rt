// What was written, for contracts alone: a running program has nothing of it.
ghost use Rattle.std.specs.Prelude.{◌≡◌, ℕ, List, [], ◌∷◌, ◌++◌};
ghost use Rattle.std.specs.Borrow.{ftrue};

use std::marker::{Model, PhantomData};

/// Pieces of bytes, one behind another.
#[derive(Drop)]
pub(crate) struct Notes {
    marker: PhantomData<u8>,
    pub ghost items: { List (List ℕ) },
}

impl Model for Notes {
    ghost also_owns = { λ _. ftrue };
}

impl Notes {
    pub(crate) fn new() -> Notes
        ensures { result.items ≡ [] }
    {
        Notes {
            marker: PhantomData,
        }
    }

    /// These come behind the others.
    pub(crate) fn note(&mut self, _bytes: &[u8])
        ensures { self.new.items ≡ self.old.items ++ _bytes.now ∷ [] }
    {}
}
