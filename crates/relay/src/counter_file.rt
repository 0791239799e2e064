use anyhow::Error;
use bfs_relaying::Reserve;
use std::fs::{File, OpenFile, OpenOptions};
use std::io::Write;
use std::os::unix::fs::OpenOptionsExt;
use std::path::Path;
use std::rt::Runtime;
use std::{fs, io};

/// A file with a number in decimal digits, and a line's end behind it. A new number is written to a file beside it, which takes its place once it is on the
/// disk.
#[derive(Drop)]
pub(crate) struct CounterFile<'a, R: Runtime> {
    rt: &'a R,
    path: &'a str,
    beside: String,
    // what the file says
    number: u64,
}

impl<'a, R: Runtime + AllocGlobal> CounterFile<'a, R> {
    /// Reads the file. One that is not there is refused too: where it was lost, timestamps that were used would be used again.
    pub fn open(rt: &'a R, path: &'a str) -> Result<CounterFile<'a, R>, Error> {
        let bytes = fs::read(rt, path)?;
        let Some(number) = number_in(bytes.as_slice()) else {
            return Err(Error::msg("it is no number"));
        };
        let beside = format!(in rt.alloc(); "{path}.new")?;
        Ok(CounterFile {
            rt,
            path,
            beside,
            number,
        })
    }
}

fn number_in(bytes: &[u8]) -> Option<u64> {
    str::from_utf8(bytes).ok()?.trim().parse::<u64>().ok()
}

impl<R: Runtime> Reserve for CounterFile<'_, R> {
    ghost kept = { λ file. file.number };

    fn reserved(&self) -> u64 {
        self.number
    }

    fn reserve(&mut self, next: u64) -> io::Result<()> {
        if next > self.number {
            write_number(self.rt, self.beside.as_str(), next)?;
            fs::rename(self.rt, self.beside.as_str(), self.path)?;
            sync_folder(self.rt, self.path)?;
            self.number = next;
        }
        Ok(())
    }
}

fn write_number<R: Runtime>(rt: &R, path: &str, number: u64) -> io::Result<()> {
    let mut file = OpenOptions::new()
        .write(true)
        .create(true)
        .truncate(true)
        .mode(0o600)
        .open(rt, path)?;
    write!(file, "{number}\n")?;
    file.sync_all()
}

// A file that has taken another's place outlives a crash once their folder is on the disk.
fn sync_folder<R: Runtime>(rt: &R, path: &str) -> io::Result<()> {
    let folder = match Path::new(path).parent() {
        Some(folder) if !folder.as_os_str().is_empty() => folder,
        _ => Path::new("."),
    };
    File::open(rt, folder)?.sync_all()
}
