//! A folder in memory, which outlives a process that is dropped.
ghost use Rattle.std.specs.Prelude.{◌≡◌, map};

use bfs_recovery::Folder;
use bfs_types::Memory;
use std::alloc::Global;
use std::io;
use std::io::ErrorKind;

/// What a replica's folder holds.
#[derive(Drop)]
pub struct MemoryFolder {
    alloc: Global,
    text: Vec<u8>,
    bodies: Vec<Vec<u8>>,
    // so many calls more are not refused
    room: u32,
}

impl MemoryFolder {
    /// An empty one, which refuses all but so many calls.
    pub fn new(alloc: Global, room: u32) -> MemoryFolder {
        MemoryFolder {
            alloc,
            text: Vec::new(alloc),
            bodies: Vec::new(alloc),
            room,
        }
    }

    fn take_room(&mut self) -> io::Result<()>
        ensures { (self.new.text ≡ self.old.text) × (self.new.bodies ≡ self.old.bodies) }
    {
        if self.room == 0 {
            return Err(io::Error::from(ErrorKind::StorageFull));
        }
        self.room -= 1;
        Ok(())
    }

    /// The text of the saved replica.
    pub fn text(&self) -> &[u8] {
        self.text.as_slice()
    }

    /// The bodies of the records behind it.
    pub fn bodies(&self) -> Result<Vec<&[u8]>, Memory> {
        let mut bodies = Vec::new(self.alloc);
        for body in &self.bodies {
            bodies.push(body.as_slice())?;
        }
        Ok(bodies)
    }
}

impl Folder for MemoryFolder {
    ghost kept = { λ folder. record { text = folder.text.items; bodies = map (λ body. body.items) folder.bodies.items } };

    fn append(&mut self, body: &[u8]) -> io::Result<()> {
        self.take_room()?;
        let copy = Vec::from_slice(self.alloc, body)?;
        self.bodies.push(copy)?;
        Ok(())
    }

    fn replace(&mut self, text: &[u8]) -> io::Result<()> {
        self.take_room()?;
        self.text = Vec::from_slice(self.alloc, text)?;
        self.bodies.clear();
        Ok(())
    }
}
