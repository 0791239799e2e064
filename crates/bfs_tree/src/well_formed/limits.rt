ghost use Rattle.std.specs.Prelude.{◌≡◌, ◌↔◌, IsTrue};
ghost use Rattle.std.specs.List.{list_all};
ghost use Rattle.bfs_model.specs.Server.WellFormed.{IsLimited};
ghost use Rattle.bfs_tree.specs.Inside.WellFormed.{is_good_name};

use bfs_inode::{Body, Directory, Entry, Inode, is_bad_name};
use bfs_types::{MOST_FILE_BYTES, MOST_PATH_BYTES};

/// Whether an inode is within the limits: a file or a symbolic link has a link, and a directory good names. The types keep the limits of how
/// many links it has, of what it holds, and of cookies. A directory costs a step for each byte of its names.
#[tactic(auto, using(crate::proofs::WellFormed::Lists::names_from, crate::proofs::WellFormed::Lists::names_of))]
pub fn is_limited(inode: &Inode) -> bool
    ensures { IsTrue result ↔ IsLimited inode.now }
{
    let links = inode.links();
    match inode.body() {
        Body::File(data) => {
            prove!(data.len() <= MOST_FILE_BYTES);
            links >= 1
        }
        Body::Directory(directory) => {
            directory.entries_are_in_order();
            names_are_good(directory)
        }
        Body::Link(path) => {
            prove!(path.len() <= MOST_PATH_BYTES);
            links >= 1
        }
    }
}

fn names_are_good(directory: &Directory) -> bool
    ensures { result ≡ list_all (λ entry. is_good_name entry.name) directory.now.entries }
{
    directory.iter().all(|entry| has_good_name(entry))
}

// its type keeps a name short
fn has_good_name(entry: &Entry) -> bool
    ensures { result ≡ is_good_name entry.now.name }
{
    !is_bad_name(entry.name.as_slice())
}
