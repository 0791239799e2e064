//! A disk in memory that fails.
ghost use Rattle.std.specs.Prelude.{◌≤◌, length, Some};
ghost use Rattle.tests_journal.specs.Cuts.{LeavesFront};

use crate::records::BODIES;
use bfs_journal::{Disk, MOST_BODY_BYTES, Rest, keep, read_journal};
use bfs_testing::holds;
use std::alloc::{AllocError, Global};
use std::io;
use std::io::{Error, ErrorKind};
use std::test::Fail;

// Bytes of which some are synced. The call that `fails` tells fails, and if it writes, it writes half.
#[derive(Drop)]
struct Failing {
    bytes: Vec<u8>,
    synced: usize,
    calls: u32,
    fails: u32,
    ghost within: { synced ≤ length bytes.items },
}

impl Failing {
    fn new(alloc: Global, fails: u32) -> Failing {
        Failing {
            bytes: Vec::new(alloc),
            synced: 0,
            calls: 0,
            fails,
        }
    }
}

impl Disk for Failing {
    ghost seen = { λ disk. Some disk.bytes.items };

    ghost may_leave = { λ disk c. LeavesFront disk.synced disk.bytes.items c };

    ghost moment = { λ _. 0 };

    ghost left_since = { λ disk _ c. LeavesFront disk.synced disk.bytes.items c };

    ghost only_now = { λ _ _ left. left };

    #[tactic(auto, using(crate::proofs::Cuts::no_time))]
    fn append(&mut self, bytes: &[u8]) -> io::Result<()> {
        self.calls = self.calls.wrapping_add(1);
        if self.calls == self.fails {
            self.bytes.extend_from_slice(&bytes[..bytes.len() / 2])?;
            return Err(Error::from(ErrorKind::StorageFull));
        }
        self.bytes.extend_from_slice(bytes)?;
        Ok(())
    }

    #[tactic(auto, using(crate::proofs::Cuts::lies, crate::proofs::Cuts::fewer, crate::proofs::Cuts::no_time))]
    fn sync(&mut self) -> io::Result<()> {
        self.calls = self.calls.wrapping_add(1);
        if self.calls == self.fails {
            return Err(Error::from(ErrorKind::StorageFull));
        }
        self.synced = self.bytes.len();
        Ok(())
    }
}

// keeps three bodies, or those before the first that fails, and gives how many were kept, and the words of the error
fn kept(alloc: Global, disk: &mut Failing) -> Result<(usize, String), AllocError> {
    let mut count: usize = 0;
    for body in BODIES {
        if body.len() <= MOST_BODY_BYTES {
            if let Err(error) = keep(alloc, disk, body) {
                return Ok((count, format!(in alloc; "{error}")?));
            }
            count = count.wrapping_add(1);
        }
    }
    Ok((count, String::new(alloc)))
}

// whether each crash leaves the records that were kept, or one more, and no damage
fn outlives(alloc: Global, disk: &Failing, count: usize) -> Result<bool, AllocError> {
    for len in disk.synced..=disk.bytes.len() {
        if let Some(left) = disk.bytes.get(..len) {
            let found = read_journal(alloc, left)?;
            let records = found.bodies.len();
            if records < count || records > count.wrapping_add(1) || found.rest == Rest::Damaged {
                return Ok(false);
            }
        }
    }
    Ok(true)
}

// the call that fails, if one does, how many records are kept, and how it ends
static CALLS: &[(u32, usize, &str)] = &[
    (0, 3, ""),
    (1, 0, "the journal cannot be written: no storage space"),
    (2, 0, "the journal cannot be written: no storage space"),
    (3, 1, "the journal cannot be written: no storage space"),
    (4, 1, "the journal cannot be written: no storage space"),
    (5, 2, "the journal cannot be written: no storage space"),
    (6, 2, "the journal cannot be written: no storage space"),
];

#[test]
fn what_was_kept_outlives_each_crash(rt: HostRuntime) -> Result<(), Fail> {
    let alloc = rt.alloc();
    for (fails, wanted, words) in CALLS.iter() {
        let mut disk = Failing::new(alloc, *fails);
        let (count, ended) = kept(alloc, &mut disk)?;
        holds!(rt; count == *wanted && ended.as_str() == *words);
        holds!(rt; outlives(alloc, &disk, count)?);
    }
    Ok(())
}
