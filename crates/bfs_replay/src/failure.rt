ghost use Rattle.std.specs.Prelude.{◌≡◌};
ghost use Rattle.bfs_replay.specs.Errors.{exit_status, failure_of_options, failure_of_run, failure_of_settings, failure_of_trace};

use crate::run::ReplayError;
use crate::usage::UsageError;
use bfs_settings::SettingsError;
use bfs_trace::TraceError;
use thiserror::Error;

/// Why the program ends without its work done. What is printed of it is what follows `replay: ` on standard error.
#[derive(Clone, Copy, Debug, PartialEq, Eq, Error)]
pub enum Failure {
    /// The words of the command line are no usage of the program.
    #[error("usage")]
    Usage,
    /// The settings or the trace can't be read, or are too long.
    #[error("cannot read input")]
    Input,
    /// The settings break the rules.
    #[error("bad configuration")]
    Config,
    /// Standard output refused what was written.
    #[error("cannot write output")]
    Output,
    /// The first line of the trace that breaks the grammar, counted from 1.
    #[error("trace line {0}")]
    Line(usize),
    /// Memory ran out.
    #[error("out of memory")]
    Memory,
    /// Two replicas have different digests.
    #[error("replicas differ")]
    Differ,
}

impl Failure {
    /// The status that the program ends with.
    pub fn status(self) -> u8
        ensures { result ≡ exit_status self }
    {
        match self {
            Failure::Differ => 1,
            Failure::Usage | Failure::Input | Failure::Config | Failure::Output => 2,
            Failure::Line(_) => 3,
            Failure::Memory => 4,
        }
    }
}

impl From<UsageError> for Failure {
    ghost from_gives = { λ error failure. failure ≡ failure_of_options error };

    fn from(error: UsageError) -> Failure {
        match error {
            UsageError::Usage => Failure::Usage,
            UsageError::Memory => Failure::Memory,
        }
    }
}

impl From<SettingsError> for Failure {
    ghost from_gives = { λ error failure. failure ≡ failure_of_settings error };

    fn from(error: SettingsError) -> Failure {
        match error {
            SettingsError::BadSettings => Failure::Config,
            SettingsError::Memory => Failure::Memory,
        }
    }
}

impl From<TraceError> for Failure {
    ghost from_gives = { λ error failure. failure ≡ failure_of_trace error };

    fn from(error: TraceError) -> Failure {
        match error {
            TraceError::BadLine(number) => Failure::Line(number),
            TraceError::Memory => Failure::Memory,
        }
    }
}

impl From<ReplayError> for Failure {
    ghost from_gives = { λ error failure. failure ≡ failure_of_run error };

    fn from(error: ReplayError) -> Failure {
        match error {
            ReplayError::WriteFault => Failure::Output,
            ReplayError::Memory => Failure::Memory,
        }
    }
}
