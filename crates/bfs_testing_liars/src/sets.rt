//! Replicas, as bits.

/// Some of the replicas, a bit for each.
#[derive(Clone, Copy, Debug, PartialEq, Eq)]
pub struct Set(pub u32);

impl Set {
    pub const ALL: Set = Set(0xffffffff);

    pub fn of(number: usize) -> Set {
        Set(1 << (number % 32))
    }

    pub fn has(self, number: usize) -> bool {
        self.0 & Set::of(number).0 != 0
    }

    pub fn with(self, number: usize) -> Set {
        Set(self.0 | Set::of(number).0)
    }

    pub fn others(self) -> Set {
        Set(self.0 ^ Set::ALL.0)
    }
}
