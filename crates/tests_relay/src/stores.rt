//! Numbers that are kept in memory.
use bfs_relaying::Reserve;
use std::io;
use std::io::{Error, ErrorKind};

/// A number in memory, which may not be raised where it is full.
#[derive(Drop)]
pub struct Store {
    pub number: u64,
    pub full: bool,
}

impl Store {
    /// One that may be raised.
    pub fn at(number: u64) -> Store {
        Store {
            number,
            full: false,
        }
    }
}

impl Reserve for Store {
    ghost kept = { λ store. store.number };

    fn reserved(&self) -> u64 {
        self.number
    }

    fn reserve(&mut self, next: u64) -> io::Result<()> {
        if self.full {
            return Err(Error::from(ErrorKind::StorageFull));
        }
        self.number = self.number.max(next);
        Ok(())
    }
}
