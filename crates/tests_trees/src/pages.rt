//! Pages of a directory's entries.
use crate::growing::takes;
use bfs_inode::{Directory, FileId, Page};
use bfs_testing::words::letters;
use bfs_testing::{holds, same};
use std::alloc::Global;
use std::process::Abort;
use std::test::Fail;

fn add_thousand(rt: &impl Abort, alloc: Global) -> Result<Directory, Fail> {
    let mut directory = Directory::new(alloc, FileId::root());
    for index in 0..1000 {
        let (cookie, name) = (3 + index, letters(index));
        assert!(rt; takes(&directory, cookie, &name));
        directory.add(cookie, &name, FileId::new(cookie))?;
    }
    Ok(directory)
}

// Lists the page behind a cookie, and gives the last cookie on it. Those of `.` and `..` are 1 and 2, and the others rise by that
// step up to 1002.
fn list_page(rt: &impl Abort, directory: &Directory, cookie: u32, step: u32) -> u32 {
    let mut last = cookie;
    let mut page = directory.page(FileId::new(7), cookie, 512);
    // 25 entries of 20 bytes fit between the 12 bytes around them
    for _entry in 0..25 {
        if let Some(listed) = page.next_entry() {
            same!(rt; listed.cookie.checked_sub(last), Some(if last < 2 { 1 } else { step }));
            last = listed.cookie;
        }
    }
    assert!(rt; page.next_entry().is_none());
    same!(rt; page.is_last(), last == 1002);
    last
}

#[test]
fn lists_each_of_many_entries_once(rt: HostRuntime) -> Result<(), Fail> {
    let directory = add_thousand(&rt, rt.alloc())?;
    let mut last = 0;
    for pages in 1..42 {
        last = list_page(&rt, &directory, last, 1);
        same!(rt; last, 1002.min(25 * pages));
    }
    Ok(())
}

// without the first, the third and so on
fn drop_every_second(directory: &mut Directory) {
    for pair in 0..500 {
        directory.drop_entry(&letters(2 * pair));
    }
}

fn cookie_of(directory: &Directory, name: &[u8]) -> Option<u32> {
    Some(directory.entry(name)?.cookie)
}

#[test]
fn finds_just_the_entries_that_are_left(rt: HostRuntime) -> Result<(), Fail> {
    let mut directory = add_thousand(&rt, rt.alloc())?;
    drop_every_second(&mut directory);
    same!(rt; directory.len(), 500);
    for pair in 0..500 {
        same!(rt; cookie_of(&directory, &letters(2 * pair)), None);
        same!(rt; cookie_of(&directory, &letters(2 * pair + 1)), Some(2 * pair + 4));
        holds!(rt; !directory.holds(&letters(2 * pair)));
        holds!(rt; directory.holds(&letters(2 * pair + 1)));
    }
    Ok(())
}

#[test]
fn holds_the_names_of_its_entries_alone(rt: HostRuntime) -> Result<(), Fail> {
    let mut directory = Directory::new(rt.alloc(), FileId::root());
    holds!(rt; !directory.holds(b"ba"));
    directory.add(9, b"ba", FileId::new(8))?;
    directory.add(10, b"ab", FileId::new(9))?;
    holds!(rt; directory.holds(b"ba") && directory.holds(b"ab"));
    holds!(rt; !directory.holds(b"") && !directory.holds(b"aa") && !directory.holds(b"b"));
    holds!(rt; !directory.holds(b"baa") && !directory.holds(b"bb"));
    Ok(())
}

#[test]
fn lists_each_of_the_entries_that_are_left_once(rt: HostRuntime) -> Result<(), Fail> {
    let mut directory = add_thousand(&rt, rt.alloc())?;
    drop_every_second(&mut directory);
    let mut last = 0;
    for pages in 1..22 {
        last = list_page(&rt, &directory, last, 2);
        same!(rt; last, 1002.min(50 * pages - 2));
    }
    Ok(())
}

fn lists(page: &mut Page, cookie: u32, name: &[u8], child: u32) -> bool {
    match page.next_entry() {
        Some(listed) => {
            listed.cookie == cookie && listed.name == name && listed.child == FileId::new(child)
        }
        None => false,
    }
}

#[test]
fn lists_the_directory_and_the_one_above_first(rt: HostRuntime) -> Result<(), Fail> {
    let mut directory = Directory::new(rt.alloc(), FileId::root());
    directory.add(9, b"abc", FileId::new(8))?;
    let mut page = directory.page(FileId::new(7), 0, 8192);
    holds!(rt; lists(&mut page, 1, b".", 7));
    holds!(rt; lists(&mut page, 2, b"..", 2));
    holds!(rt; lists(&mut page, 9, b"abc", 8));
    assert!(rt; page.next_entry().is_none());
    holds!(rt; page.is_last());
    Ok(())
}
