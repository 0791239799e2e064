ghost use Rattle.std.specs.FinMap.{entries};
ghost use Rattle.std.specs.Prelude.{◌≡◌, ◌++◌, ◌↔◌, Some, None, IfOk, OnOk, OnErr, IsErrOf};
ghost use Rattle.std.specs.Option.{option_map};
ghost use Rattle.bfs_tree.specs.Tree.{at_home};
ghost use Rattle.bfs_digest.specs.Text.{header_text, latest_version, records_text, snapshot_text};
ghost use Rattle.bfs_xdr.specs.Sinks.{BeginsWith};

use crate::headers::{Header, parts_of, put_header};
use crate::lengths::text_length;
use crate::writers::put_records;
use bfs_serial::{ExecError, FileSystem};
use bfs_tree::Tree;
use bfs_types::Memory;
use std::alloc::Global;

/// The text of a file system, in bytes: all of it, in version 2. Each byte is written once. `Failed` if it has failed, `Memory` if memory
/// runs out.
#[tactic(auto, using(crate::proofs::Parts::behind_nothing))]
pub fn snapshot(alloc: Global, files: &FileSystem) -> Result<Vec<u8>, ExecError>
    ensures value { IfOk result (λ text. option_map snapshot_text files.now ≡ Some text.items) }
    ensures failed { IsErrOf result ExecError.Failed ↔ (files.now ≡ None) }
{
    let mut text = Vec::new(alloc);
    put_snapshot(&mut text, files)?;
    Ok(text)
}

// Appends the text of a file system, as `snapshot` gives it. Each byte is written once. `Failed` if it has failed, `Memory` if memory
// runs out; nothing is appended then.
fn put_snapshot(out: &mut Vec<u8>, files: &FileSystem) -> Result<(), ExecError>
    ensures value { OnOk result (option_map (λ live. out.old.items ++ snapshot_text live) files.now ≡ Some out.new.items) }
    ensures failed { IsErrOf result ExecError.Failed ↔ (files.now ≡ None) }
    ensures err { OnErr result (out.new.items ≡ out.old.items) }
{
    let Some((header, tree)) = parts_of(files) else {
        return Err(ExecError::Failed);
    };
    match put_text(out, &header, tree) {
        Ok(()) => Ok(()),
        Err(Memory) => Err(ExecError::Memory),
    }
}

fn put_text(out: &mut Vec<u8>, header: &Header, tree: &Tree) -> Result<(), Memory>
    ensures ok { OnOk result (out.new.items ≡ out.old.items ++ (header_text latest_version header.now ++ records_text (entries (at_home tree.now)))) }
    ensures err { OnErr result (out.new.items ≡ out.old.items) }
{
    let before = out.len();
    out.reserve(text_length(tree))?;
    if put_parts(out, header, tree).is_err() {
        out.truncate(before);
        return Err(Memory);
    }
    Ok(())
}

fn put_parts(out: &mut Vec<u8>, header: &Header, tree: &Tree) -> Result<(), Memory>
    ensures ok { OnOk result (out.new.items ≡ out.old.items ++ (header_text latest_version header.now ++ records_text (entries (at_home tree.now)))) }
    ensures err { OnErr result (BeginsWith out.old.items out.new.items) }
{
    put_header(header, out)?;
    put_records(out, tree)
}
