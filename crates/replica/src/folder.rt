// The folder in which a replica outlives its process. `saved-N` is the text of a saved replica, `journal-N` what that did since; those of the highest number count.
// Who has `lock` has the folder. Of `keys` see same_keys.rt.
ghost use Rattle.std.specs.Prelude.{⊤, None};
ghost use Rattle.bfs_journal.specs.Records.{IsBody};
ghost use Rattle.replica.specs.Folders.{held};

use crate::notes::Notes;
use anyhow::{Context, Error};
use bfs_journal::{Disk, KeepError, keep};
use bfs_recovery::Folder;
use std::alloc::Global;
use std::fs::{DirBuilder, File, Files, OpenFile, OpenOptions, TryLockError};
use std::io::{ErrorKind, Write};
use std::os::unix::fs::{DirBuilderExt, OpenOptionsExt};
use std::rt::Runtime;
use std::{fs, io};

const SAVED: &str = "saved-";

const JOURNAL: &str = "journal-";

/// What a folder holds.
#[derive(Drop)]
pub(crate) struct Held {
    pub number: u64,
    /// The text of a saved replica.
    pub saved: Vec<u8>,
    /// The bytes of the journal that was begun behind it; none where there is no such file yet.
    pub journal: Vec<u8>,
}

/// Takes the lock of a folder, as long as the file is open. It is refused while another process has it.
pub(crate) fn lock<R: Runtime + Files<File = File> + AllocGlobal>(
    rt: &R,
    folder: &str,
) -> Result<File, Error> {
    let path = format!(in rt.alloc(); "{folder}/lock")?;
    let file = to_write().open(rt, path.as_str())?;
    match file.try_lock() {
        Ok(()) => Ok(file),
        Err(TryLockError::WouldBlock) => Err(Error::msg("another process has it")),
        Err(TryLockError::Error(error)) => Err(error.into()),
    }
}

/// Makes a folder for its owner alone, where there is none.
pub(crate) fn make<R: Runtime>(rt: &R, folder: &str) -> io::Result<()> {
    match DirBuilder::new().mode(0o700).create(rt, folder) {
        Err(error) if error.kind() != ErrorKind::AlreadyExists => Err(error),
        _ => Ok(()),
    }
}

/// What a folder holds, or nothing. A journal without the saved replica that it belongs to is refused.
pub(crate) fn read<R: Runtime + AllocGlobal>(rt: &R, folder: &str) -> Result<Option<Held>, Error> {
    let (saved, journal) = (highest(rt, folder, SAVED)?, highest(rt, folder, JOURNAL)?);
    if saved < journal {
        return Err(Error::msg("the saved replica is missing, of which it has a journal"));
    }
    match saved {
        Some(number) => Ok(Some(read_files(rt, folder, number)?)),
        None => Ok(None),
    }
}

fn read_files<R: Runtime + AllocGlobal>(rt: &R, folder: &str, number: u64) -> Result<Held, Error> {
    let alloc = rt.alloc();
    let saved = format!(in alloc; "{folder}/{SAVED}{number}")?;
    let journal = format!(in alloc; "{folder}/{JOURNAL}{number}")?;
    Ok(Held {
        number,
        saved: fs::read(rt, saved.as_str()).context(saved)?,
        journal: read_if_there(rt, journal.as_str()).context(journal)?,
    })
}

pub(crate) fn read_if_there<R: Runtime + AllocGlobal>(rt: &R, path: &str) -> io::Result<Vec<u8>> {
    match fs::read(rt, path) {
        Err(error) if error.kind() == ErrorKind::NotFound => Ok(Vec::new(rt.alloc())),
        other => other,
    }
}

// the highest number of the files whose names begin so
fn highest<R: Runtime + AllocGlobal>(rt: &R, folder: &str, kind: &str) -> io::Result<Option<u64>> {
    let mut highest = None;
    for entry in fs::read_dir(rt, folder)? {
        highest = highest.max(number_in(entry?.file_name(), kind));
    }
    Ok(highest)
}

fn number_in(name: &str, kind: &str) -> Option<u64> {
    name.strip_prefix(kind)?.parse::<u64>().ok()
}

/// A folder that is written to.
#[derive(Drop)]
pub(crate) struct ReplicaFolder<'a, R: Runtime> {
    rt: &'a R,
    folder: &'a str,
    // no other process has it while this is open
    lock: R::File,
    // the number of the text that is saved next
    next: u64,
    // the journal behind the last one
    journal: Option<Journal<R::File>>,
    // what both were given to keep, which contracts see
    texts: Notes,
    bodies: Notes,
}

impl<'a, R: Runtime> ReplicaFolder<'a, R> {
    /// A folder of which this process has the lock, and whose next saved replica has that number. There is no journal before it is saved.
    pub fn new(rt: &'a R, folder: &'a str, lock: R::File, next: u64) -> ReplicaFolder<'a, R> {
        ReplicaFolder {
            rt,
            folder,
            lock,
            next,
            journal: None,
            texts: Notes::new(),
            bodies: Notes::new(),
        }
    }
}

impl<R: Runtime + AllocGlobal> Folder for ReplicaFolder<'_, R> {
    ghost kept = { λ folder. held folder.texts.items folder.bodies.items };

    fn append(&mut self, body: &[u8]) -> io::Result<()> {
        let Some(journal) = &mut self.journal else {
            return Err(io::Error::from(ErrorKind::NotFound));
        };
        append_to(journal, self.rt.alloc(), body)?;
        self.bodies.note(body);
        Ok(())
    }

    fn replace(&mut self, text: &[u8]) -> io::Result<()> {
        let (rt, folder, number) = (self.rt, self.folder, self.next);
        write_saved(rt, folder, number, text)?;
        self.journal = Some(begin_journal(rt, folder, number)?);
        self.next = number.saturating_add(1);
        remove_below(rt, folder, number)?;
        self.texts = Notes::new();
        self.texts.note(text);
        self.bodies = Notes::new();
        Ok(())
    }
}

fn append_to<D: Disk>(journal: &mut D, alloc: Global, body: &[u8]) -> io::Result<()>
    requires { IsBody body.now }
{
    match keep(alloc, journal, body) {
        Ok(()) => Ok(()),
        Err(KeepError::Memory) => Err(io::Error::from(ErrorKind::OutOfMemory)),
        Err(KeepError::Storage(error)) => Err(error),
    }
}

fn write_saved<R: Runtime + AllocGlobal>(
    rt: &R,
    folder: &str,
    number: u64,
    text: &[u8],
) -> io::Result<()> {
    let name = format!(in rt.alloc(); "{SAVED}{number}")?;
    write_whole(rt, folder, name.as_str(), text)
}

/// Writes a file of a folder, which is there with all of the text, or not at all: it is written beside, and takes its name once it is on the disk.
pub(crate) fn write_whole<R: Runtime + AllocGlobal>(
    rt: &R,
    folder: &str,
    name: &str,
    text: &[u8],
) -> io::Result<()> {
    let path = format!(in rt.alloc(); "{folder}/{name}")?;
    let beside = format!(in rt.alloc(); "{path}.new")?;
    let mut file = to_write().truncate(true).open(rt, beside.as_str())?;
    file.write_all(text)?;
    file.sync_all()?;
    fs::rename(rt, beside.as_str(), path.as_str())?;
    sync(rt, folder)
}

fn begin_journal<R: Runtime + AllocGlobal>(
    rt: &R,
    folder: &str,
    number: u64,
) -> io::Result<Journal<R::File>> {
    let path = format!(in rt.alloc(); "{folder}/{JOURNAL}{number}")?;
    let file = to_write().truncate(true).open(rt, path.as_str())?;
    sync(rt, folder)?;
    Ok(Journal { file })
}

fn remove_below<R: Runtime + AllocGlobal>(rt: &R, folder: &str, number: u64) -> io::Result<()> {
    for entry in fs::read_dir(rt, folder)? {
        let entry = entry?;
        let name = entry.file_name();
        let found = number_in(name, SAVED).or(number_in(name, JOURNAL));
        if found.is_some_and(|found| found < number) {
            fs::remove_file(rt, entry.path())?;
        }
    }
    Ok(())
}

// A name in a folder outlives a crash once the folder is on the disk.
fn sync<R: Runtime>(rt: &R, folder: &str) -> io::Result<()> {
    File::open(rt, folder)?.sync_all()
}

fn to_write() -> OpenOptions {
    let mut options = OpenOptions::new();
    options.write(true).create(true).mode(0o600);
    options
}

// A file to whose end alone is written.
#[derive(Drop)]
struct Journal<F> {
    file: F,
}

impl<F: Write + OpenFile + Drop> Disk for Journal<F> {
    ghost seen = { λ _. None };

    ghost may_leave = { λ _ _. ⊤ };

    ghost moment = { λ _. 0 };

    ghost left_since = { λ _ _ _. ⊤ };

    ghost only_now = { λ _ _ _. tt };

    fn append(&mut self, bytes: &[u8]) -> io::Result<()> {
        self.file.write_all(bytes)
    }

    fn sync(&mut self) -> io::Result<()> {
        self.file.sync_data()
    }
}
