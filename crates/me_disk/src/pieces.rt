// The bytes of a file of which most are 0.
use me_bytes::NoMemory;
use std::alloc::Global;

/// Bytes that follow one another in a file.
#[derive(Drop)]
pub enum Run {
    /// So many bytes, all 0.
    Zero(u64),
    /// These bytes.
    Bytes(Vec<u8>),
}

// At least so many bytes, all 0, are kept as a length.
const LONG: usize = 4096;

// Bytes that stand at a place.
#[derive(Drop)]
struct Piece {
    at: u64,
    bytes: Vec<u8>,
}

/// A length, and what isn't 0 of so many bytes: the later of two pieces hides the earlier. No piece passes the end.
#[derive(Drop)]
pub(crate) struct Pieces {
    len: u64,
    list: Vec<Piece>,
}

// The place behind these bytes, None where it is more than 2^63-1.
fn end_of(at: u64, count: usize) -> Option<u64> {
    at.checked_add(count as u64).filter(|end| *end < 1 << 63)
}

fn is_long_zero(bytes: &[u8]) -> bool {
    bytes.len() >= LONG && bytes.iter().all(|byte| *byte == 0)
}

fn clear(into: &mut [u8]) {
    for byte in into.iter_mut() {
        *byte = 0;
    }
}

impl Piece {
    // Copies what lies in the range that begins at this place.
    fn show(&self, at: u64, into: &mut [u8]) {
        let skipped = at.saturating_sub(self.at);
        let before = self.at.saturating_sub(at);
        if skipped >= self.bytes.len() as u64 || before >= into.len() as u64 {
            return;
        }
        let (from, to) = (skipped as usize, before as usize);
        let count = (self.bytes.len() - from).min(into.len() - to);
        into[to..to + count].copy_from_slice(&self.bytes[from..from + count]);
    }

    // Drops what lies behind this place.
    fn cut(&mut self, end: u64) {
        let left = end.saturating_sub(self.at).min(self.bytes.len() as u64);
        self.bytes.truncate(left as usize);
    }

    fn ends_at(&self, end: u64) -> bool {
        self.at.checked_add(self.bytes.len() as u64) == Some(end)
    }
}

impl Pieces {
    /// Nothing.
    pub(crate) fn new(alloc: Global) -> Pieces {
        Pieces {
            len: 0,
            list: Vec::new(alloc),
        }
    }

    /// The file with these runs, None where there is no file.
    pub(crate) fn of_file(
        alloc: Global,
        file: Option<Vec<Run>>,
    ) -> Result<Option<Pieces>, NoMemory> {
        match file {
            Some(runs) => Ok(Some(Pieces::of_runs(alloc, runs)?)),
            None => Ok(None),
        }
    }

    // A length past the last number stays there.
    fn of_runs(alloc: Global, runs: Vec<Run>) -> Result<Pieces, NoMemory> {
        let mut pieces = Pieces::new(alloc);
        for run in runs {
            pieces.add(run)?;
        }
        Ok(pieces)
    }

    fn add(&mut self, run: Run) -> Result<(), NoMemory> {
        let at = self.len;
        match run {
            Run::Zero(count) => {
                self.len = at.saturating_add(count);
                Ok(())
            }
            Run::Bytes(bytes) => {
                self.len = at.saturating_add(bytes.len() as u64);
                match self.list.push(Piece { at, bytes }) {
                    Ok(()) => Ok(()),
                    Err(_) => Err(NoMemory),
                }
            }
        }
    }

    /// How many bytes it has.
    pub(crate) fn len(&self) -> u64 {
        self.len
    }

    /// Fills `into` with the bytes from `at` on, None where they don't lie inside.
    pub(crate) fn read(&self, at: u64, into: &mut [u8]) -> Option<()> {
        if at > self.len || into.len() as u64 > self.len - at {
            return None;
        }
        clear(into);
        for piece in &self.list {
            piece.show(at, into);
        }
        Some(())
    }

    /// Writes at the end. None where there is no memory or the length would be more than 2^63-1; then all is as it was.
    pub(crate) fn append(&mut self, alloc: Global, bytes: &[u8]) -> Option<()> {
        let end = end_of(self.len, bytes.len())?;
        if !is_long_zero(bytes) {
            self.keep_last(alloc, bytes)?;
        }
        self.len = end;
        Some(())
    }

    // Lengthens the last piece where it ends the file.
    fn keep_last(&mut self, alloc: Global, bytes: &[u8]) -> Option<()> {
        let len = self.len;
        match self.list.last_mut() {
            Some(last) if last.ends_at(len) => last.bytes.extend_from_slice(bytes).ok(),
            _ => self.keep(alloc, len, bytes),
        }
    }

    fn keep(&mut self, alloc: Global, at: u64, bytes: &[u8]) -> Option<()> {
        let bytes = bytes.to_vec(alloc).ok()?;
        self.list.push(Piece { at, bytes }).ok()
    }

    /// Writes over what is there, and past its end; what lies between its end and `at` is 0. None as for `append`.
    pub(crate) fn write(&mut self, alloc: Global, at: u64, bytes: &[u8]) -> Option<()> {
        let end = end_of(at, bytes.len())?;
        self.keep(alloc, at, bytes)?;
        self.len = self.len.max(end);
        Some(())
    }

    /// Makes the length this one. None where it is more than 2^63-1.
    pub(crate) fn set_len(&mut self, n: u64) -> Option<()> {
        let end = end_of(n, 0)?;
        for piece in self.list.iter_mut() {
            piece.cut(end);
        }
        self.len = end;
        Some(())
    }
}
