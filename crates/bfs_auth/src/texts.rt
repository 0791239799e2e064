ghost use Rattle.std.specs.Prelude.{◌≡◌, ◌++◌, ℕ, List};
ghost use Rattle.sha2.specs.Hashers.{Holds256};
ghost use Rattle.bfs_auth.specs.Places.{place_in};

use crate::places::{Place, place_in};
use sha2::{Digest, Sha256};

/// A text that is fed to a hasher piece by piece, so that it need not lie anywhere as a whole.
pub trait Text {
    /// Its bytes.
    ghost text: { Self → List ℕ };

    /// Feeds all of it to a hasher.
    fn hash(&self, hasher: &mut Sha256)
        ensures { (m : List ℕ) → Holds256 hasher.old m → Holds256 hasher.new (m ++ text self.now) };

    /// What it is of, if it is of a place.
    fn place(&self) -> Option<Place>
        ensures { result ≡ place_in (text self.now) };
}

impl<'a> Text for &'a [u8] {
    ghost text = { λ bytes. bytes.now };

    fn hash(&self, hasher: &mut Sha256) {
        hasher.update(*self);
    }

    fn place(&self) -> Option<Place> {
        place_in(self)
    }
}
