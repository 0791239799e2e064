/// What happens to a call of a group, which is named by its number in the batch.
#[derive(Clone, Copy, Debug, PartialEq, Eq)]
pub enum Event {
    /// The call is taken: the inodes that it writes leave home.
    Take(u32),
    /// The call is finished: it is carried out, and its inodes come home.
    Finish(u32),
}
