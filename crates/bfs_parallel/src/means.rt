use std::alloc::Global;

/// By what requests are executed.
#[derive(Drop)]
pub(crate) struct Means<'a, R, G> {
    /// What starts threads.
    pub(crate) rt: &'a R,
    /// The memory.
    pub(crate) alloc: Global,
    /// By which requests are run.
    pub(crate) gate: &'a G,
}
