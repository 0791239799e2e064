ghost use Rattle.std.specs.Prelude.{◌≡◌, ◌≤◌, ◌==◌, [], ◌∷◌, length, MatchOption, IfSome};
ghost use Rattle.bfs_model.specs.Server.Limits.{most_name_bytes};
ghost use Rattle.bfs_model.specs.Server.Directories.{all_listed, listed_behind, listed_size, page_of};
ghost use Rattle.bfs_inode.specs.Pages.{listed_seen};

use crate::directories::Directory;
use crate::directories::rest::Rest;
use bfs_types::{FileId, MOST_DATA_BYTES};
use std::marker::Model;

/// An entry of a directory as READDIR lists it, or `.` or `..` (RFC 1094 section 2.2.17).
#[derive(Clone, Copy, Debug)]
pub struct Listed<'a> {
    /// The cookie of a further READDIR, which goes on behind this entry.
    pub cookie: u32,
    /// The name, without the directories above.
    pub name: &'a [u8],
    /// The fileid of the inode that it names.
    pub child: FileId,
}

/// What is left of a page of READDIR: of `.`, `..` and the entries of a directory, those behind a cookie, as many as fit into a
/// number of bytes (RFC 1094 section 2.2.17).
#[derive(Debug, Drop)]
pub struct Page<'a> {
    rest: Rest<'a>,
    // the bytes that are left
    room: u32,
}

impl<'a> Model for Page<'a> {
    ghost use Rattle.bfs_inode.specs.Pages as pages;

    ghost Value = { pages.Page };

    ghost use Rattle.bfs_inode.specs.Pages.{seen};

    ghost view = { seen };
}

// the bytes of a page that are no entry's: its status, the end of its list, and whether it is the last
const AROUND_ENTRIES: u32 = 12;

impl Directory {
    /// The page of READDIR behind that cookie, where `id` is the fileid of the directory. The cookie is 0 for the first page, and
    /// that of the last entry of the page before for each further one. A page takes at most `count` bytes in a reply, and at
    /// most `MOST_DATA_BYTES`. Its beginning costs a look-up, and each entry of it a step.
    pub fn page(&self, id: FileId, cookie: u32, count: u32) -> Page<'_>
        ensures listed { result.listed ≡ page_of count (listed_behind cookie (all_listed id self.now)) }
        ensures all { result.all ≡ (length (page_of count (listed_behind cookie (all_listed id self.now))) == length (listed_behind cookie (all_listed id self.now))) }
    {
        Page {
            rest: Rest::behind(self, id, cookie),
            room: count
                .min(MOST_DATA_BYTES as u32)
                .saturating_sub(AROUND_ENTRIES),
        }
    }
}

impl<'a> Page<'a> {
    /// The next entry of the page, or `None` behind its last one.
    pub fn next_entry(&mut self) -> Option<Listed<'a>>
        ensures taken { MatchOption result ((self.old.listed ≡ []) × (self.new.listed ≡ [])) (λ listed. self.old.listed ≡ listed_seen listed ∷ self.new.listed) }
        ensures all { self.new.all ≡ self.old.all }
        ensures short { IfSome result (λ listed. length listed.name.now ≤ most_name_bytes) }
    {
        let Some(listed) = self.rest.first() else {
            return None;
        };
        let size = size_listed(&listed);
        if size > self.room {
            return None;
        }
        self.room -= size;
        self.rest.advance();
        Some(listed)
    }

    /// Whether the directory has no further entries behind the page. All entries of the page have been taken.
    pub fn is_last(&self) -> bool
        requires { self.now.listed ≡ [] }
        ensures { result ≡ self.now.all }
    {
        self.rest.is_empty()
    }
}

// the bytes that it takes in a reply
fn size_listed(listed: &Listed) -> u32
    requires { length listed.now.name.now ≤ most_name_bytes }
    ensures { result ≡ listed_size (listed_seen listed.now) }
{
    let length = listed.name.len() as u32;
    16 + length + (4 - length % 4) % 4
}
