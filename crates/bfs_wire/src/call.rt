ghost use Rattle.std.specs.Prelude.{◌≡◌, None, IfOk, IfSome, if◌then◌else◌};
ghost use Rattle.std.specs.Option.{option_map};
ghost use Rattle.std.specs.Result.{result_ok};
ghost use Rattle.bfs_model.specs.Bytes.Arguments as model;
ghost use Rattle.bfs_types.specs.Procedures.{number_of};
ghost use Rattle.bfs_wire.specs.Calls.{call_seen, IsReadAs};
ghost use Rattle.bfs_model.specs.Server.Short.{IsShort};

use crate::arguments::Arguments;
use crate::arguments::attributes::{get_attributes, set_attributes};
use crate::arguments::data::{read, read_link, write};
use crate::arguments::making::{create, link, make_directory, make_symbolic_link};
use crate::arguments::names::{look_up, read_directory};
use crate::arguments::removing::{remove, remove_directory};
use crate::arguments::renaming::rename;
use crate::arguments::status::file_system_status;
use crate::garbage::GarbageArgs;
use bfs_types::{FileId, Procedure, Settings};

/// A procedure with its arguments (RFC 1094 section 2.2). A file handle stands as the fileid that it leads to, or as `None` if
/// it is no handle of this file system. Names, paths and file bytes are borrowed from the request.
#[derive(Clone, Copy, Debug, PartialEq, Eq)]
pub enum NfsCall<'a> {
    /// Do nothing.
    Null,
    /// The attributes of a file.
    GetAttr {
        file: Option<FileId>,
    },
    /// Set attributes of a file.
    SetAttr {
        file: Option<FileId>,
        settings: Settings,
    },
    /// Obsolete; does nothing.
    Root,
    /// The file that has a name in a directory.
    LookUp {
        dir: Option<FileId>,
        name: &'a [u8],
    },
    /// The path of a symbolic link.
    ReadLink {
        file: Option<FileId>,
    },
    /// At most `count` bytes of a file, from an offset on.
    Read {
        file: Option<FileId>,
        offset: u32,
        count: u32,
    },
    /// Obsolete; does nothing.
    WriteCache,
    /// Write bytes to a file, at an offset.
    Write {
        file: Option<FileId>,
        offset: u32,
        bytes: &'a [u8],
    },
    /// Make a file.
    Create {
        dir: Option<FileId>,
        name: &'a [u8],
        settings: Settings,
    },
    /// Remove a name, which is no directory's.
    Remove {
        dir: Option<FileId>,
        name: &'a [u8],
    },
    /// Give a file another name, in that directory or in another.
    Rename {
        from: Option<FileId>,
        from_name: &'a [u8],
        to: Option<FileId>,
        to_name: &'a [u8],
    },
    /// Give a file one more name.
    Link {
        file: Option<FileId>,
        dir: Option<FileId>,
        name: &'a [u8],
    },
    /// Make a symbolic link that holds a path.
    SymbolicLink {
        dir: Option<FileId>,
        name: &'a [u8],
        path: &'a [u8],
        settings: Settings,
    },
    /// Make a directory.
    MakeDirectory {
        dir: Option<FileId>,
        name: &'a [u8],
        settings: Settings,
    },
    /// Remove an empty directory.
    RemoveDirectory {
        dir: Option<FileId>,
        name: &'a [u8],
    },
    /// The entries of a directory behind a cookie, as many as `count` bytes hold.
    ReadDirectory {
        dir: Option<FileId>,
        cookie: u32,
        count: u32,
    },
    /// How much room the file system has.
    FileSystemStatus {
        file: Option<FileId>,
    },
}

/// The call of a procedure (RFC 1094 section 2.2) with the arguments that the bytes spell. The bytes of the padding may have
/// any value. `GarbageArgs` if the bytes don't spell its arguments, or if further bytes follow.
#[tactic(auto, unfolding(bfs_model::specs::Bytes::Arguments::arguments_of))]
pub fn parse_args(procedure: Procedure, args: &[u8]) -> Result<NfsCall<'_>, GarbageArgs>
    ensures value { option_map call_seen (result_ok result) ≡ model.arguments_of (number_of procedure) args.now }
    ensures short { IfOk result (λ call. IsShort (call_seen call)) }
{
    let mut arguments = Arguments::new(args);
    let Some(call) = fields(procedure, &mut arguments) else {
        return Err(GarbageArgs);
    };
    if !arguments.rest().is_empty() {
        return Err(GarbageArgs);
    }
    Ok(call)
}

// a procedure's arguments
#[tactic(auto, unfolding(bfs_model::specs::Bytes::Arguments::fields_at))]
fn fields<'a>(procedure: Procedure, arguments: &mut Arguments<'a>) -> Option<NfsCall<'a>>
    ensures { IsReadAs (model.fields_at (number_of procedure) arguments.old) result arguments.new }
{
    match procedure {
        Procedure::Null => Some(NfsCall::Null),
        Procedure::GetAttr => get_attributes(arguments),
        Procedure::SetAttr => set_attributes(arguments),
        Procedure::Root => Some(NfsCall::Root),
        Procedure::LookUp => look_up(arguments),
        Procedure::ReadLink => read_link(arguments),
        Procedure::Read => read(arguments),
        Procedure::WriteCache => Some(NfsCall::WriteCache),
        Procedure::Write => write(arguments),
        Procedure::Create => create(arguments),
        Procedure::Remove => remove(arguments),
        Procedure::Rename => rename(arguments),
        Procedure::Link => link(arguments),
        Procedure::SymbolicLink => make_symbolic_link(arguments),
        Procedure::MakeDirectory => make_directory(arguments),
        Procedure::RemoveDirectory => remove_directory(arguments),
        Procedure::ReadDirectory => read_directory(arguments),
        Procedure::FileSystemStatus => file_system_status(arguments),
    }
}
