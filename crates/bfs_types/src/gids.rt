ghost use Rattle.std.specs.Prelude.{◌≡◌, ◌<◌, ◌≤◌, ◌==◌, [], ◌∷◌, ◌++◌, length};
ghost use Rattle.std.specs.List.{list_any};

use std::marker::Model;

/// The further groups of a caller (RFC 5531 appendix A).
pub const MOST_GIDS: usize = 16;

/// The groups that a caller belongs to beside its own (RFC 5531 appendix A): at most `MOST_GIDS`, in the order in which its credential
/// names them. They lie in the value itself, so no memory is taken.
#[derive(Clone, Copy, Debug, PartialEq, Eq)]
pub struct Gids {
    // zeros behind those that count, so that equal groups are equal values
    ids: [u32; MOST_GIDS],
    count: usize,
}

impl Model for Gids {
    ghost use Rattle.std.specs.Prelude.{ℕ, List, take};
    ghost use Rattle.bfs_types.specs.Gids.{IsPadded, padded, padded_again};

    ghost Value = { List ℕ };

    ghost view = { λ gids. take gids.count gids.ids };

    ghost invariant = { λ gids. IsPadded gids.ids gids.count };

    ghost inverse = { padded };

    ghost inverse_ok = { padded_again };
}

impl Gids {
    /// No groups.
    pub fn none() -> Gids
        ensures { result ≡ [] }
    {
        Gids {
            ids: [0; MOST_GIDS],
            count: 0,
        }
    }

    /// Puts a group behind the others. There are fewer than `MOST_GIDS`.
    pub fn push(&mut self, gid: u32)
        requires { length self.old < MOST_GIDS }
        ensures { self.new ≡ self.old ++ gid ∷ [] }
    {
        self.ids[self.count] = gid;
        self.count += 1;
    }

    /// The groups, in order.
    pub fn as_slice(&self) -> &[u32]
        ensures value { result.now ≡ self.now }
        ensures within { length result.now ≤ MOST_GIDS }
    {
        &self.ids[..self.count]
    }

    /// Whether a group is among them.
    pub fn has(&self, gid: u32) -> bool
        ensures { result ≡ list_any (λ other. other == gid) self.now }
    {
        self.as_slice().iter().any(|other| *other == gid)
    }
}
