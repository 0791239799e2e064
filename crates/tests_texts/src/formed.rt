//! Texts of file systems that are not well formed, one for each way not to be.
use crate::texts::refusal;
use bfs_testing::asserts::compared;
use bfs_testing::words::letters;
use std::alloc::Global;
use std::test::Fail;

// a text of that next ordinal, and of so many inodes, which are to follow by rising fileid
fn begin(alloc: Global, next_ordinal: u32, inodes: u32) -> Result<Vec<u8>, Fail> {
    let mut text = Vec::new(alloc);
    text.extend_from_slice(b"BFSS")?;
    put_words(&mut text, &[2, 0, next_ordinal, 0, 0, inodes])?;
    Ok(text)
}

fn put_words(text: &mut Vec<u8>, words: &[u32]) -> Result<(), Fail> {
    for word in words {
        text.extend_from_slice(&word.to_be_bytes())?;
    }
    Ok(())
}

fn number_of(count: usize) -> Result<u32, Fail> {
    Ok(u32::try_from(count).ok().ok_or("a number")?)
}

fn put_head(text: &mut Vec<u8>, fileid: u32, kind: u32, links: u32) -> Result<(), Fail> {
    put_words(text, &[fileid, kind, 0o755, links, 0, 0, 0, 0, 0, 0, 0, 0])
}

// an empty file
fn put_file(text: &mut Vec<u8>, fileid: u32, links: u32) -> Result<(), Fail> {
    put_head(text, fileid, 1, links)?;
    put_words(text, &[0])
}

// with zeros behind it up to a whole word
fn put_name(text: &mut Vec<u8>, name: &[u8]) -> Result<(), Fail> {
    text.extend_from_slice(name)?;
    for _ in 0..(4 - name.len() % 4) % 4 {
        text.push(0)?;
    }
    Ok(())
}

fn put_entry(text: &mut Vec<u8>, cookie: u32, name: &[u8], child: u32) -> Result<(), Fail> {
    put_words(text, &[cookie, number_of(name.len())?])?;
    put_name(text, name)?;
    put_words(text, &[child])
}

/// An entry of a directory: its cookie, its name and its child.
type Entry<'a> = (u32, &'a str, u32);

fn put_entries(text: &mut Vec<u8>, entries: &[Entry]) -> Result<(), Fail> {
    for entry in entries {
        put_entry(text, entry.0, entry.1.as_bytes(), entry.2)?;
    }
    Ok(())
}

fn put_directory(
    text: &mut Vec<u8>,
    fileid: u32,
    links: u32,
    parent: u32,
    entries: &[Entry],
) -> Result<(), Fail> {
    put_head(text, fileid, 2, links)?;
    put_words(text, &[parent, number_of(entries.len())?])?;
    put_entries(text, entries)
}

/// A root with a directory 3, in which the file 4 is, and with a second entry: the next ordinal, the links and the parent of the root and of the
/// directory, the links of the file, the second entry, and the number by which it is refused, 0 where it is none.
#[derive(Clone, Copy)]
struct Small<'a>(u32, (u32, u32), (u32, u32), u32, Entry<'a>, u32);

fn put_small(text: &mut Vec<u8>, small: &Small) -> Result<(), Fail> {
    let (root, below) = (small.1, small.2);
    put_directory(text, 2, root.0, root.1, &[(3, "d", 3), small.4])?;
    put_directory(text, 3, below.0, below.1, &[(4, "f", 4)])?;
    put_file(text, 4, small.3)
}

fn is_as_told(alloc: Global, small: &Small) -> Result<bool, Fail> {
    let mut text = begin(alloc, small.0, 3)?;
    put_small(&mut text, small)?;
    Ok(refusal(alloc, text.as_slice()) == small.5)
}

// the place of the first of which something else is said
fn first_wrong(alloc: Global, all: &[Small]) -> Result<Option<usize>, Fail> {
    for (place, small) in all.iter().enumerate() {
        if !is_as_told(alloc, small)? {
            return Ok(Some(place));
        }
    }
    Ok(None)
}

fn are_as_told(alloc: Global, all: &[Small]) -> Result<(), Fail> {
    compared(first_wrong(alloc, all)?, None)?;
    Ok(())
}

const SECOND: Entry<'static> = (5, "e", 4);

static RIGHT: [Small<'static>; 1] = [Small(6, (3, 2), (2, 2), 2, SECOND, 0)];

#[test]
fn takes_the_tree_that_the_others_are_near(rt: HostRuntime) -> Result<(), Fail> {
    are_as_told(rt.alloc(), &RIGHT)
}

static OF_LINKS: [Small<'static>; 8] = [
    // of a file
    Small(6, (3, 2), (2, 2), 1, SECOND, 21),
    Small(6, (3, 2), (2, 2), 3, SECOND, 21),
    Small(6, (3, 2), (2, 2), 0, SECOND, 21),
    Small(6, (3, 2), (2, 2), 32_768, SECOND, 21),
    // of the root, and of another directory
    Small(6, (2, 2), (2, 2), 2, SECOND, 21),
    Small(6, (4, 2), (2, 2), 2, SECOND, 21),
    Small(6, (3, 2), (1, 2), 2, SECOND, 21),
    Small(6, (3, 2), (3, 2), 2, SECOND, 21),
];

#[test]
fn refuses_links_that_are_not_those_of_the_names(rt: HostRuntime) -> Result<(), Fail> {
    are_as_told(rt.alloc(), &OF_LINKS)
}

static OF_NUMBERS: [Small<'static>; 3] = [
    // the cookie of an entry, and the fileid of a file
    Small(5, (3, 2), (2, 2), 2, SECOND, 21),
    Small(4, (3, 2), (2, 2), 2, SECOND, 21),
    Small(6, (3, 2), (2, 2), 2, (u32::MAX, "e", 4), 21),
];

#[test]
fn refuses_numbers_of_no_earlier_request(rt: HostRuntime) -> Result<(), Fail> {
    are_as_told(rt.alloc(), &OF_NUMBERS)
}

static OF_NAMES: [Small<'static>; 7] = [
    Small(6, (3, 2), (2, 2), 2, (5, "d", 4), 21),
    Small(6, (3, 2), (2, 2), 2, (5, "", 4), 21),
    Small(6, (3, 2), (2, 2), 2, (5, ".", 4), 21),
    Small(6, (3, 2), (2, 2), 2, (5, "..", 4), 21),
    Small(6, (3, 2), (2, 2), 2, (5, "a/b", 4), 21),
    Small(6, (3, 2), (2, 2), 2, (5, "a\0", 4), 21),
    Small(6, (3, 2), (2, 2), 2, (5, "...", 4), 0),
];

#[test]
fn refuses_names_that_no_entry_may_have(rt: HostRuntime) -> Result<(), Fail> {
    are_as_told(rt.alloc(), &OF_NAMES)
}

// with a name of that length
fn is_of_length(alloc: Global, length: usize, refused: u32) -> Result<bool, Fail> {
    let long = [b'x'; 256];
    let bytes = long.as_slice().get(..length).ok_or("a length")?;
    let name = str::from_utf8(bytes).map_err(|_| "text")?;
    is_as_told(alloc, &Small(6, (3, 2), (2, 2), 2, (5, name, 4), refused))
}

#[test]
fn refuses_names_that_are_too_long(rt: HostRuntime) -> Result<(), Fail> {
    compared(is_of_length(rt.alloc(), 255, 0)?, true)?;
    // it spells nothing
    compared(is_of_length(rt.alloc(), 256, 20)?, true)?;
    Ok(())
}

// one that is not there, below, between and above those that are; the root; and a directory for the second time
static CHILDREN: [u32; 6] = [0, 1, 6, u32::MAX, 2, 3];

// with such a child in the root, which has so many links
fn is_no_child(alloc: Global, child: u32, links: u32) -> Result<bool, Fail> {
    is_as_told(alloc, &Small(9, (links, 2), (2, 2), 1, (5, "e", child), 21))
}

// the first that is not refused, in a root with as many links as it has names of directories, and with one more
fn first_child(alloc: Global) -> Result<Option<u32>, Fail> {
    for child in &CHILDREN {
        if !is_no_child(alloc, *child, 3)? || !is_no_child(alloc, *child, 4)? {
            return Ok(Some(*child));
        }
    }
    Ok(None)
}

#[test]
fn refuses_children_that_a_directory_may_not_name(rt: HostRuntime) -> Result<(), Fail> {
    compared(first_child(rt.alloc())?, None)?;
    Ok(())
}

static PARENTS: [u32; 6] = [0, 1, 3, 4, 5, u32::MAX];

// of the root, and of the directory
fn are_no_parents(alloc: Global, root: u32, below: u32) -> Result<bool, Fail> {
    is_as_told(alloc, &Small(6, (3, root), (2, below), 2, SECOND, 21))
}

// the first that is not refused, of the root and of the directory
fn first_parent(alloc: Global) -> Result<Option<u32>, Fail> {
    for parent in &PARENTS {
        if !are_no_parents(alloc, *parent, 2)? || !are_no_parents(alloc, 2, *parent)? {
            return Ok(Some(*parent));
        }
    }
    Ok(None)
}

#[test]
fn refuses_directories_that_are_not_where_they_say(rt: HostRuntime) -> Result<(), Fail> {
    compared(first_parent(rt.alloc())?, None)?;
    Ok(())
}

/// An inode of a text.
enum Inode {
    /// An empty file: its fileid and its links.
    File(u32, u32),
    /// A directory: its fileid, its links, its parent and its entries.
    Directory(u32, u32, u32, &'static [Entry<'static>]),
}

/// The next ordinal, and the inodes by rising fileid.
struct Written(u32, &'static [Inode]);

fn put_inode(text: &mut Vec<u8>, inode: &Inode) -> Result<(), Fail> {
    match inode {
        Inode::File(fileid, links) => put_file(text, *fileid, *links),
        Inode::Directory(fileid, links, parent, entries) => {
            put_directory(text, *fileid, *links, *parent, entries)
        }
    }
}

fn put_inodes(text: &mut Vec<u8>, inodes: &[Inode]) -> Result<(), Fail> {
    for inode in inodes {
        put_inode(text, inode)?;
    }
    Ok(())
}

fn refused(alloc: Global, written: &Written) -> Result<u32, Fail> {
    let mut text = begin(alloc, written.0, number_of(written.1.len())?)?;
    put_inodes(&mut text, written.1)?;
    Ok(refusal(alloc, text.as_slice()))
}

// the place of the first that is not refused
fn first_formed(alloc: Global, all: &[Written]) -> Result<Option<usize>, Fail> {
    for (place, written) in all.iter().enumerate() {
        if refused(alloc, written)? != 21 {
            return Ok(Some(place));
        }
    }
    Ok(None)
}

static NOT_FORMED: [Written; 9] = [
    // a fileid that no request has had
    Written(
        5,
        &[Inode::Directory(2, 2, 2, &[(4, "f", 5)]), Inode::File(5, 1)],
    ),
    // a directory that two others name
    Written(
        9,
        &[
            Inode::Directory(2, 4, 2, &[(3, "a", 3), (4, "b", 4)]),
            Inode::Directory(3, 3, 2, &[(6, "d", 5)]),
            Inode::Directory(4, 3, 2, &[(7, "d", 5)]),
            Inode::Directory(5, 2, 3, &[]),
        ],
    ),
    // a file that the root doesn't lead to
    Written(9, &[Inode::Directory(2, 2, 2, &[]), Inode::File(3, 1)]),
    // a directory in the root that has no name there
    Written(
        9,
        &[
            Inode::Directory(2, 2, 2, &[]),
            Inode::Directory(3, 2, 2, &[]),
        ],
    ),
    // a directory in itself
    Written(
        9,
        &[
            Inode::Directory(2, 2, 2, &[]),
            Inode::Directory(3, 3, 3, &[(4, "d", 3)]),
        ],
    ),
    // three directories, each in the next
    Written(
        9,
        &[
            Inode::Directory(2, 2, 2, &[]),
            Inode::Directory(3, 3, 5, &[(6, "d", 4)]),
            Inode::Directory(4, 3, 3, &[(7, "d", 5)]),
            Inode::Directory(5, 3, 4, &[(8, "d", 3)]),
        ],
    ),
    // no root, a root that is a file, and one that has another fileid
    Written(9, &[]),
    Written(9, &[Inode::File(2, 1)]),
    Written(9, &[Inode::Directory(3, 2, 3, &[])]),
];

#[test]
fn refuses_what_is_no_tree_below_the_root(rt: HostRuntime) -> Result<(), Fail> {
    compared(first_formed(rt.alloc(), &NOT_FORMED)?, None)?;
    Ok(())
}

// so many names of one file, of which the last is the one of that place
fn put_names(text: &mut Vec<u8>, names: u32, last: u32) -> Result<(), Fail> {
    for place in 0..names {
        let number = if place + 1 == names { last } else { place };
        put_entry(text, place.saturating_add(4), &letters(number), 3)?;
    }
    Ok(())
}

// what is said of a root with them
fn many(alloc: Global, names: u32, last: u32) -> Result<u32, Fail> {
    let mut text = begin(alloc, 9_000, 2)?;
    put_head(&mut text, 2, 2, 2)?;
    put_words(&mut text, &[2, names])?;
    put_names(&mut text, names, last)?;
    put_file(&mut text, 3, names)?;
    Ok(refusal(alloc, text.as_slice()))
}

// the first place of a repeated name at which it is not refused
fn first_repeated(alloc: Global, places: &[u32]) -> Result<Option<u32>, Fail> {
    for place in places {
        if many(alloc, 600, *place)? != 21 {
            return Ok(Some(*place));
        }
    }
    Ok(None)
}

#[test]
fn refuses_a_name_that_stands_far_off(rt: HostRuntime) -> Result<(), Fail> {
    compared(many(rt.alloc(), 600, 600)?, 0)?;
    compared(first_repeated(rt.alloc(), &[0, 1, 300, 598])?, None)?;
    Ok(())
}
