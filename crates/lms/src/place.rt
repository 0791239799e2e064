ghost use Rattle.std.specs.Prelude.{◌≡◌};
ghost use Rattle.lms.specs.Signers.{child_of};

use crate::private_key::PrivateKey;
use crate::types::TreeTypes;

/// Where a tree stands below another one: under which leaf, and of which types it is.
#[derive(Clone, Copy, PartialEq, Eq)]
pub(crate) struct Place {
    /// The key of the tree above.
    pub(crate) parent: PrivateKey,
    /// The types of the tree.
    pub(crate) types: TreeTypes,
    /// The leaf that signs its public key.
    pub(crate) leaf: u32,
}

impl Place {
    /// The key of the tree.
    pub(crate) fn key(&self) -> PrivateKey
        ensures { result ≡ child_of self.now }
    {
        self.parent.child(self.types, self.leaf)
    }
}
