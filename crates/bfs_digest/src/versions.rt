// The versions of a text.
ghost use Rattle.std.specs.Prelude.{◌≡◌};
ghost use Rattle.bfs_digest.specs.Records.{most_bytes_in};
ghost use Rattle.bfs_digest.specs.Text.{is_taken};

/// The oldest version that is read.
pub(crate) const OLDEST_VERSION: u32 = 1;

/// The version that is written.
pub(crate) const LATEST_VERSION: u32 = 2;

/// Whether a text of that version is taken where none below the oldest is.
pub(crate) fn is_taken(oldest: u32, version: u32) -> bool
    ensures { result ≡ is_taken oldest version }
{
    oldest <= version && version <= LATEST_VERSION
}

/// The bytes of a file in a text of that version, at most.
pub(crate) fn most_bytes_in(version: u32) -> u32
    ensures { result ≡ most_bytes_in version }
{
    match version {
        1 => 1_048_576,
        _ => 16_777_216,
    }
}
