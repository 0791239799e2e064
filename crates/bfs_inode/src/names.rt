// Names in directories (RFC 1094 section 2.3.7).
ghost use Rattle.std.specs.Prelude.{◌≡◌, ◌==◌, ◌||◌};
ghost use Rattle.std.specs.List.{list_any};
ghost use Rattle.bfs_model.specs.Server.Directories as model;

/// Whether no call may make, take or replace the name: no directory holds it, or it is `.` or `..`, which every directory has
/// of itself.
pub fn is_bad_name(name: &[u8]) -> bool
    ensures { result ≡ model.is_bad_name name.now }
{
    is_no_name(name) || name == b".".as_slice() || name == b"..".as_slice()
}

/// Whether no directory holds the name: it is empty, or has a byte 0 or a `/`.
pub fn is_no_name(name: &[u8]) -> bool
    ensures { result ≡ model.is_no_name name.now }
{
    name.is_empty() || has_byte_of_no_name(name)
}

fn has_byte_of_no_name(name: &[u8]) -> bool
    ensures { result ≡ list_any (λ byte. byte == 0x00 || byte == 0x2F) name.now }
{
    name.iter().any(|byte| is_in_no_name(*byte))
}

fn is_in_no_name(byte: u8) -> bool
    ensures { result ≡ (byte == 0x00 || byte == 0x2F) }
{
    byte == 0 || byte == b'/'
}
