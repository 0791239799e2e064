ghost use Rattle.std.specs.Prelude.{◌≡◌};
ghost use Rattle.bfs_replay.specs.Errors.{usage_error_code};

use bfs_outcome::Executor;
use thiserror::Error;

/// What the words of the command line ask for.
#[derive(Clone, Copy, Debug, PartialEq, Eq)]
pub struct Options<'a> {
    /// By what the requests of a block are executed.
    pub executor: Executor,
    /// The path of the settings, or `None` where they are the default.
    pub config: Option<&'a str>,
    /// The path of the trace.
    pub trace: &'a str,
}

/// Why the words of the command line are not taken.
#[derive(Clone, Copy, Debug, PartialEq, Eq, Error)]
pub enum UsageError {
    /// The words are not of the form `replay [--workers N] [--engine runs|levels|serial] [--config FILE] TRACE`.
    #[error("usage: replay [--workers N] [--engine runs|levels|serial] [--config FILE] TRACE")]
    Usage,
    /// Memory ran out.
    #[error("out of memory")]
    Memory,
}

impl UsageError {
    /// The number of this refusal, apart from those of every other.
    pub fn code(self) -> u32
        ensures { result ≡ usage_error_code self }
    {
        match self {
            UsageError::Usage => 42,
            UsageError::Memory => 40,
        }
    }
}
