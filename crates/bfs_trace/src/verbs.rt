// The verbs of a request, and the words behind them.
ghost use Rattle.std.specs.Prelude.{◌≡◌};
ghost use Rattle.std.specs.Option.{option_map};
ghost use Rattle.bfs_types.specs.Procedures.{number_of};
ghost use Rattle.bfs_trace.specs.Inside.Writing.{AppendsCall};
ghost use Rattle.bfs_trace.specs.Verbs.{call_in_words, procedure_named};

mod attributes;
mod data;
mod making;
mod names;
mod removing;
mod renaming;
mod status;

use crate::buffer::Buffer;
use crate::words::Words;
use attributes::{get_attributes, set_attributes};
use bfs_types::Procedure;
use data::{read, read_link, write};
use making::{create, link, make_directory, make_symbolic_link};
use names::{look_up, read_directory};
use removing::{remove, remove_directory};
use renaming::rename;
use status::file_system_status;

/// The procedure that a verb names (RFC 1094 section 2.2).
#[tactic(auto, unfolding(crate::specs::Verbs::procedure_named))]
pub(crate) fn procedure_named(verb: &[u8]) -> Option<Procedure>
    ensures { option_map number_of result ≡ procedure_named verb.now }
{
    let procedure = if verb == b"null".as_slice() {
        Procedure::Null
    } else if verb == b"getattr".as_slice() {
        Procedure::GetAttr
    } else if verb == b"setattr".as_slice() {
        Procedure::SetAttr
    } else if verb == b"root".as_slice() {
        Procedure::Root
    } else if verb == b"lookup".as_slice() {
        Procedure::LookUp
    } else if verb == b"readlink".as_slice() {
        Procedure::ReadLink
    } else if verb == b"read".as_slice() {
        Procedure::Read
    } else if verb == b"writecache".as_slice() {
        Procedure::WriteCache
    } else if verb == b"write".as_slice() {
        Procedure::Write
    } else if verb == b"create".as_slice() {
        Procedure::Create
    } else if verb == b"remove".as_slice() {
        Procedure::Remove
    } else if verb == b"rename".as_slice() {
        Procedure::Rename
    } else if verb == b"link".as_slice() {
        Procedure::Link
    } else if verb == b"symlink".as_slice() {
        Procedure::SymbolicLink
    } else if verb == b"mkdir".as_slice() {
        Procedure::MakeDirectory
    } else if verb == b"rmdir".as_slice() {
        Procedure::RemoveDirectory
    } else if verb == b"readdir".as_slice() {
        Procedure::ReadDirectory
    } else if verb == b"statfs".as_slice() {
        Procedure::FileSystemStatus
    } else {
        return None;
    };
    Some(procedure)
}

/// Appends the arguments of the call of a procedure that the words behind its verb spell.
#[tactic(auto, unfolding(crate::specs::Verbs::call_in_words, crate::specs::Messages::arguments))]
pub(crate) fn put_arguments(
    procedure: Procedure,
    words: &mut Words<'_>,
    out: &mut Buffer,
) -> Option<()>
    ensures { AppendsCall result out.old out.new (call_in_words (number_of procedure) words.old) }
{
    match procedure {
        Procedure::Null => words.end(),
        Procedure::GetAttr => get_attributes(words, out),
        Procedure::SetAttr => set_attributes(words, out),
        Procedure::Root => words.end(),
        Procedure::LookUp => look_up(words, out),
        Procedure::ReadLink => read_link(words, out),
        Procedure::Read => read(words, out),
        Procedure::WriteCache => words.end(),
        Procedure::Write => write(words, out),
        Procedure::Create => create(words, out),
        Procedure::Remove => remove(words, out),
        Procedure::Rename => rename(words, out),
        Procedure::Link => link(words, out),
        Procedure::SymbolicLink => make_symbolic_link(words, out),
        Procedure::MakeDirectory => make_directory(words, out),
        Procedure::RemoveDirectory => remove_directory(words, out),
        Procedure::ReadDirectory => read_directory(words, out),
        Procedure::FileSystemStatus => file_system_status(words, out),
    }
}
