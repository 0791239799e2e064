ghost use Rattle.std.specs.Prelude.{◌≡◌, ◌<◌, ◌≤◌, ◌-◌, length, slice_get, Some};
ghost use Rattle.bfs_levels.specs.Parts.{ordinal_at, part_after, requests_in};

use bfs_serial::Batch;
use bfs_types::{Ordinal, Time};

/// The requests of a batch from a place on.
#[derive(Clone, Copy, Debug)]
pub struct Part<'a> {
    /// The batch.
    pub batch: &'a Batch,
    /// The place of the first of them in the batch, which is its number.
    pub first: usize,
    /// The ordinal of the first.
    pub ordinal: Ordinal,
    /// The effective time of the batch.
    pub time: Time,
}

impl<'a> Part<'a> {
    /// How many they are.
    pub fn len(&self) -> usize
        ensures { result ≡ length (requests_in self.now) }
    {
        self.batch.len().saturating_sub(self.first)
    }

    /// The bytes of the request of that number.
    pub fn request(&self, number: usize) -> &'a [u8]
        requires from { self.now.first ≤ number }
        requires within { number < length self.now.batch.now.requests }
        ensures { slice_get (requests_in self.now) (number - self.now.first) ≡ Some result.now }
    {
        self.batch.request(number)
    }

    /// The ordinal of the request of that number.
    pub fn ordinal_of(&self, number: usize) -> Ordinal
        requires { self.now.first ≤ number }
        ensures { result ≡ ordinal_at self.now number }
    {
        self.ordinal.after((number - self.first) as u64)
    }

    /// Those behind the first so many.
    pub fn after(&self, count: usize) -> Part<'a>
        requires { count ≤ length (requests_in self.now) }
        ensures { result ≡ part_after self.now count }
    {
        let all = self.batch.len();
        prove!(self.first + count <= all.max(self.first));
        Part {
            first: self.first + count,
            ordinal: self.ordinal.after(count as u64),
            ..*self
        }
    }
}
