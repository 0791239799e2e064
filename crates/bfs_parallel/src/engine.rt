/// Which requests of a batch are executed at one time.
#[derive(Clone, Copy, Debug, PartialEq, Eq)]
pub enum Engine {
    /// Run after run: requests one behind another of which none conflicts with another.
    Runs,
    /// Group after group, and in each level after level: requests overtake each other where none of them conflicts.
    Levels,
}
