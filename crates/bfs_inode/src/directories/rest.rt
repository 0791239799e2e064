// What is left to list of a directory.
ghost use Rattle.std.specs.Prelude.{◌≡◌, ℕ, ◌==◌, ◌≤◌, [], ◌∷◌, length, drop, MatchOption, IfSome};
ghost use Rattle.std.specs.Map.{values_of};
ghost use Rattle.bfs_model.specs.Server.Limits.{most_name_bytes};
ghost use Rattle.bfs_model.specs.Server.Directories.{all_listed, listed_behind};
ghost use Rattle.bfs_inode.specs.Pages.{listed_seen};
ghost use Rattle.bfs_inode.specs.Rest.{listed_from};

use crate::directories::{Directory, Entry, Listed};
use bfs_types::FileId;
use std::collections::btree_map::Range;
use std::marker::Model;
use std::ops::Bound;

/// What is listed next of a directory.
#[derive(Clone, Copy, Debug)]
pub(super) enum Next<'a> {
    /// `.`, the directory itself.
    Dot,
    /// `..`, the directory above.
    DotDot,
    Entry(&'a Entry),
    End,
}

/// What is left to list of a directory: the rest of `.`, `..` and the entries by rising cookie.
#[derive(Debug, Drop)]
pub(super) struct Rest<'a> {
    // of the directory itself, and of the one above
    id: FileId,
    parent: FileId,
    next: Next<'a>,
    // the entries behind the next one
    entries: Range<'a, u32, Entry>,
}

impl<'a> Model for Rest<'a> {
    ghost use Rattle.std.specs.Prelude.{List};
    ghost use Rattle.std.specs.Map.{values_of};
    ghost use Rattle.bfs_model.specs.Server.Tree as model;
    ghost use Rattle.bfs_inode.specs.Rest.{listed_from};

    ghost Value = { List model.Entry };

    ghost view = { λ rest. listed_from rest.id rest.parent rest.next (values_of rest.entries) };
}

impl<'a> Rest<'a> {
    /// What a directory of that fileid lists behind a cookie.
    pub(super) fn behind(directory: &'a Directory, id: FileId, cookie: u32) -> Rest<'a>
        ensures { result ≡ listed_behind cookie (all_listed id directory.now) }
    {
        let mut entries = directory.entries_behind(cookie);
        let next = match cookie {
            0 => Next::Dot,
            1 => Next::DotDot,
            _ => next_of(&mut entries),
        };
        Rest {
            id,
            parent: directory.parent(),
            next,
            entries,
        }
    }

    /// The first of it, or `None` if nothing is left.
    pub(super) fn first(&self) -> Option<Listed<'a>>
        ensures value { MatchOption result (self.now ≡ []) (λ listed. self.now ≡ listed_seen listed ∷ drop 1 self.now) }
        ensures short { IfSome result (λ listed. length listed.name.now ≤ most_name_bytes) }
    {
        match self.next {
            Next::Dot => Some(Listed {
                cookie: 1,
                name: b".".as_slice(),
                child: self.id,
            }),
            Next::DotDot => Some(Listed {
                cookie: 2,
                name: b"..".as_slice(),
                child: self.parent,
            }),
            Next::Entry(entry) => Some(Listed {
                cookie: entry.cookie,
                name: entry.name.as_slice(),
                child: entry.child,
            }),
            Next::End => None,
        }
    }

    /// Goes on behind the first.
    pub(super) fn advance(&mut self)
        ensures { self.new ≡ drop 1 self.old }
    {
        self.next = following(self.next, &mut self.entries);
    }

    /// Whether nothing is left.
    pub(super) fn is_empty(&self) -> bool
        ensures { result ≡ (0 == length self.now) }
    {
        matches!(self.next, Next::End)
    }
}

// what is listed behind that one, where those entries come behind it
fn following<'a>(next: Next<'a>, entries: &mut Range<'a, u32, Entry>) -> Next<'a>
    ensures { (id parent : ℕ) → listed_from id parent result (values_of entries.new) ≡ drop 1 (listed_from id parent next.entry (values_of entries.old)) }
{
    match next {
        Next::Dot => Next::DotDot,
        Next::DotDot | Next::Entry(_) => next_of(entries),
        Next::End => Next::End,
    }
}

fn next_of<'a>(entries: &mut Range<'a, u32, Entry>) -> Next<'a>
    ensures { (id parent : ℕ) → listed_from id parent result (values_of entries.new) ≡ values_of entries.old }
{
    match entries.next() {
        Some((_, entry)) => Next::Entry(entry),
        None => Next::End,
    }
}

impl Directory {
    // the entries behind a cookie
    fn entries_behind(&self, cookie: u32) -> Range<'_, u32, Entry>
        ensures { values_of result ≡ listed_behind cookie self.now.entries }
    {
        self.entries
            .range((Bound::Excluded(cookie), Bound::Unbounded))
    }
}
