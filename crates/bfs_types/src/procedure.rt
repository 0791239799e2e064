ghost use Rattle.std.specs.Prelude.{◌≡◌, Some, None, if◌then◌else◌};
ghost use Rattle.std.specs.Option.{option_map};
ghost use Rattle.bfs_model.specs.Bytes.Call.{is_procedure};
ghost use Rattle.bfs_types.specs.Procedures.{number_of};

/// The procedures of NFS version 2 (RFC 1094 section 2.2), in the order of their numbers.
#[derive(Clone, Copy, Debug, PartialEq, Eq)]
pub enum Procedure {
    /// Do nothing.
    Null,
    /// The attributes of a file.
    GetAttr,
    /// Set attributes of a file.
    SetAttr,
    /// Obsolete; does nothing.
    Root,
    /// The file that has a name in a directory.
    LookUp,
    /// The path of a symbolic link.
    ReadLink,
    /// Bytes of a file.
    Read,
    /// Obsolete; does nothing.
    WriteCache,
    /// Write bytes to a file.
    Write,
    /// Make a file.
    Create,
    /// Remove a name, which is no directory's.
    Remove,
    /// Give a file another name.
    Rename,
    /// Give a file one more name.
    Link,
    /// Make a symbolic link.
    SymbolicLink,
    /// Make a directory.
    MakeDirectory,
    /// Remove an empty directory.
    RemoveDirectory,
    /// The entries of a directory.
    ReadDirectory,
    /// How much room the file system has.
    FileSystemStatus,
}

impl Procedure {
    /// The procedure of a number, or `None` if there is none.
    pub fn new(number: u32) -> Option<Procedure>
        ensures { option_map number_of result ≡ (if is_procedure number then Some number else None) }
    {
        Some(match number {
            0 => Procedure::Null,
            1 => Procedure::GetAttr,
            2 => Procedure::SetAttr,
            3 => Procedure::Root,
            4 => Procedure::LookUp,
            5 => Procedure::ReadLink,
            6 => Procedure::Read,
            7 => Procedure::WriteCache,
            8 => Procedure::Write,
            9 => Procedure::Create,
            10 => Procedure::Remove,
            11 => Procedure::Rename,
            12 => Procedure::Link,
            13 => Procedure::SymbolicLink,
            14 => Procedure::MakeDirectory,
            15 => Procedure::RemoveDirectory,
            16 => Procedure::ReadDirectory,
            17 => Procedure::FileSystemStatus,
            _ => return None,
        })
    }

    /// Its number, from 0 to 17.
    pub fn number(self) -> u32
        ensures { result ≡ number_of self }
    {
        self as u32
    }
}
