//! Requests made of numbers that are drawn at random, and the same each time.
use crate::numbers::{
    CREATE, GETATTR, LINK, LOOKUP, MKDIR, READ, READDIR, READLINK, REMOVE, RENAME, RMDIR, SETATTR,
    STATFS, SYMLINK, WRITE,
};
use crate::words::{
    A, B, C, D, DOT, DOT_DOT, E, F, NO_NAME, SIZE_OF_ONE, UNSET, call, call_by, put_parts,
};
use bfs_types::Memory;
use std::alloc::Global;

/// The state behind another one, from which numbers are drawn.
pub(crate) fn following(state: u64) -> u64 {
    state
        .wrapping_mul(6_364_136_223_846_793_005)
        .wrapping_add(1_442_695_040_888_963_407)
}

/// The number that is drawn, below 2^24.
pub(crate) fn drawn(state: u64) -> u32 {
    (state >> 40) as u32
}

/// What draws the numbers, and what requests are made of.
#[derive(Drop)]
pub struct Generator {
    /// From what the next number is drawn: any number to begin with.
    pub state: u64,
    /// The procedures that are called. One that stands there twice is called twice as often.
    pub procedures: &'static [u32],
    /// The first of the fileids of files, and how many they are.
    pub files: (u32, u32),
    /// The same of directories.
    pub dirs: (u32, u32),
    /// How many names there are in directories: of the letters `a` to `f`, `.`, `..` and the empty name, in this order.
    pub names: u32,
    /// How many callers there are: uid 0 is the first, 1001 the second and so on. Where there is none, requests have no credential.
    pub callers: u32,
}

// what is not set
const NONE: u32 = 0xffffffff;

impl Generator {
    /// The next number, below 2^24.
    pub fn next(&mut self) -> u32 {
        self.state = following(self.state);
        drawn(self.state)
    }

    /// A request with xid 1, of one of the procedures. Of a number that is none, or of a procedure without arguments, it has none. Where there
    /// are callers, SETATTR mostly sets modes and owners of directories.
    pub fn request(&mut self, alloc: Global) -> Result<Vec<u8>, Memory> {
        let place = self.next() as usize % self.procedures.len().max(1);
        let procedure = *self.procedures.get(place).unwrap_or(&GETATTR);
        let mut bytes = self.head(alloc, procedure)?;
        self.put_arguments(&mut bytes, procedure)?;
        Ok(bytes)
    }

    fn head(&mut self, alloc: Global, procedure: u32) -> Result<Vec<u8>, Memory> {
        if self.callers == 0 {
            return call(alloc, 1, procedure);
        }
        let caller = self.next() % self.callers.max(1);
        let uid = if caller == 0 {
            0
        } else {
            caller.saturating_add(1_000)
        };
        call_by(
            alloc,
            1,
            procedure,
            (uid, 100 + caller % 2),
            &[100 + caller % 3; 16],
        )
    }

    fn put_arguments(&mut self, bytes: &mut Vec<u8>, procedure: u32) -> Result<(), Memory> {
        match procedure {
            GETATTR | READLINK => self.put_file(bytes),
            STATFS => self.put_dir(bytes),
            SETATTR => self.put_changed(bytes),
            LOOKUP | REMOVE | RMDIR => self.put_named(bytes),
            READ => {
                self.put_file(bytes)?;
                put_parts(bytes, &[&[0, 16, 0]])
            }
            WRITE => {
                self.put_file(bytes)?;
                let offset = self.next() % 8;
                put_parts(bytes, &[&[0, offset, 0, 1, 0x61000000 + (offset << 24)]])
            }
            CREATE | MKDIR => {
                self.put_named(bytes)?;
                put_parts(bytes, &[UNSET])
            }
            RENAME => {
                self.put_named(bytes)?;
                self.put_named(bytes)
            }
            LINK => {
                self.put_file(bytes)?;
                self.put_named(bytes)
            }
            SYMLINK => {
                self.put_named(bytes)?;
                put_parts(bytes, &[B, UNSET])
            }
            READDIR => {
                self.put_dir(bytes)?;
                put_parts(bytes, &[&[0, 512]])
            }
            _ => Ok(()),
        }
    }

    fn put_changed(&mut self, bytes: &mut Vec<u8>) -> Result<(), Memory> {
        if self.callers == 0 || self.next() % 4 == 0 {
            self.put_file(bytes)?;
            return put_parts(bytes, &[SIZE_OF_ONE]);
        }
        self.put_dir(bytes)?;
        let mode = self.next() % 0o1000;
        if self.next() % 4 == 0 {
            let (uid, gid) = (1_000 + mode % 4, 100 + mode % 3);
            put_parts(bytes, &[&[NONE, uid, gid, NONE, NONE, NONE, NONE, NONE]])
        } else {
            put_parts(bytes, &[&[mode, NONE, NONE, NONE, NONE, NONE, NONE, NONE]])
        }
    }

    fn put_named(&mut self, bytes: &mut Vec<u8>) -> Result<(), Memory> {
        self.put_dir(bytes)?;
        let name = self.name();
        put_parts(bytes, &[name])
    }

    fn name(&mut self) -> &'static [u32] {
        match self.next() % self.names.max(1) {
            0 => A,
            1 => B,
            2 => C,
            3 => D,
            4 => E,
            5 => F,
            6 => DOT,
            7 => DOT_DOT,
            _ => NO_NAME,
        }
    }

    fn put_file(&mut self, bytes: &mut Vec<u8>) -> Result<(), Memory> {
        let files = self.files;
        self.put_handle(bytes, files)
    }

    fn put_dir(&mut self, bytes: &mut Vec<u8>) -> Result<(), Memory> {
        let dirs = self.dirs;
        self.put_handle(bytes, dirs)
    }

    fn put_handle(&mut self, bytes: &mut Vec<u8>, fileids: (u32, u32)) -> Result<(), Memory> {
        let (first, count) = fileids;
        let fileid = first.saturating_add(self.next() % count.max(1));
        put_parts(bytes, &[&[0x42465332, 1, fileid, 0, 0, 0, 0, 0]])
    }
}
