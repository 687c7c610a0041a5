// An open file and its position.
use std::fs::{File, OpenFile};
use std::io;
use std::io::{Read, Seek, SeekFrom, Write};

/// A file that only one open of it may hold.
pub trait Lock {
    /// Waits until no other open of this file holds it, and then holds it until it is closed.
    fn hold(&self) -> io::Result<()>;
}

impl Lock for File {
    fn hold(&self) -> io::Result<()> {
        self.lock()
    }
}

// The position is known, so that a call at that place needs no seek. After a fault it isn't: drop the handle.
#[derive(Drop)]
pub(crate) struct Handle<F: Read + Write + Seek + OpenFile + Drop> {
    file: F,
    at: u64,
}

impl<F: Read + Write + Seek + OpenFile + Drop> Handle<F> {
    // Of a file that was just opened.
    pub(crate) fn new(file: F) -> Handle<F> {
        Handle { file, at: 0 }
    }

    pub(crate) fn file(&self) -> &F {
        &self.file
    }

    fn go_to(&mut self, at: u64) -> io::Result<()> {
        if self.at != at {
            self.file.seek(SeekFrom::Start(at))?;
            self.at = at;
        }
        Ok(())
    }

    // Fills `into` with the bytes from this place on.
    pub(crate) fn fill(&mut self, at: u64, into: &mut [u8]) -> io::Result<()> {
        self.go_to(at)?;
        self.file.read_exact(into)?;
        self.at = at.saturating_add(into.len() as u64);
        Ok(())
    }

    // Writes all the bytes from this place on.
    pub(crate) fn put(&mut self, at: u64, bytes: &[u8]) -> io::Result<()> {
        self.go_to(at)?;
        self.file.write_all(bytes)?;
        self.at = at.saturating_add(bytes.len() as u64);
        Ok(())
    }

    // Writes all the bytes where the last call ended.
    pub(crate) fn put_more(&mut self, bytes: &[u8]) -> io::Result<()> {
        self.put(self.at, bytes)
    }
}
