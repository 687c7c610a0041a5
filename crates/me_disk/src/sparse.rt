// A depot in memory for files of which most bytes are 0. Nothing is told of what it holds.
ghost use Rattle.std.specs.Prelude.{◌≡◌, ◌+◌, ◌-◌, ◌^◌, ◌<◌, min, length, IfOk, OnOk, OnErr};
ghost use Rattle.me_disk.specs.Calls.Call.{BeginWork, AppendWork, SyncWork, DropWork, InstallMain, InstallJournal, WriteMain, SetMainLen, SyncMain, DropJournal};
ghost use Rattle.me_disk.specs.Calls.{Allows};
ghost use Rattle.me_disk.specs.Sparse.{sparse_disk, sparse_lawful, read_count, IsFresh};
ghost use Rattle.me_disk.specs.Steps.{Does, ReadsOnly, HasCause};

use crate::counts::count_fault;
use crate::depot::{Depot, DepotFault, Slot, WorkState};
use crate::pieces::{Pieces, Run};
use me_bytes::NoMemory;
use std::alloc::Global;

/// A depot in memory that keeps long runs of zeros as lengths, so that a file of many gigabytes fits. It counts as a
/// fault: refused memory, a piece that would take `written` past its last value, a length of more than 2^63-1 bytes,
/// and a read that passes the slot's end.
#[derive(Drop)]
pub struct SparseDepot {
    place: Place,
    state: WorkState,
    faults: u64,
    written: u64,
    bytes_read: u64,
}

// What the slots hold, None where one is absent.
#[derive(Drop)]
struct Place {
    alloc: Global,
    main: Option<Pieces>,
    journal: Option<Pieces>,
    work: Option<Pieces>,
}

impl Place {
    fn held(&self, slot: Slot) -> &Option<Pieces> {
        match slot {
            Slot::Main => &self.main,
            Slot::Journal => &self.journal,
            Slot::Work => &self.work,
        }
    }

    fn len(&self, slot: Slot) -> u64 {
        match self.held(slot) {
            Some(pieces) => pieces.len(),
            None => 0,
        }
    }

    fn fill(&self, slot: Slot, at: u64, into: &mut [u8]) -> Option<()> {
        match self.held(slot) {
            Some(pieces) => pieces.read(at, into),
            None => Pieces::new(self.alloc).read(at, into),
        }
    }

    fn append(&mut self, bytes: &[u8]) -> Option<()> {
        let mut pieces = self.work.take().unwrap_or(Pieces::new(self.alloc));
        let done = pieces.append(self.alloc, bytes);
        self.work = Some(pieces);
        done
    }

    fn write_main(&mut self, at: u64, bytes: &[u8]) -> Option<()> {
        let mut pieces = self.main.take().unwrap_or(Pieces::new(self.alloc));
        let done = pieces.write(self.alloc, at, bytes);
        self.main = Some(pieces);
        done
    }

    fn set_main_len(&mut self, n: u64) -> Option<()> {
        let mut pieces = self.main.take().unwrap_or(Pieces::new(self.alloc));
        let done = pieces.set_len(n);
        self.main = Some(pieces);
        done
    }
}

impl SparseDepot {
    /// The depot of a file with these runs, one after another; None where the file is absent.
    ///
    /// # Errors
    ///
    /// `NoMemory` where there is none for the list of the runs.
    pub fn new(alloc: Global, main: Option<Vec<Run>>) -> Result<SparseDepot, NoMemory>
        ensures { IfOk result IsFresh }
    {
        let place = Place {
            alloc,
            main: Pieces::of_file(alloc, main)?,
            journal: None,
            work: None,
        };
        Ok(SparseDepot {
            place,
            state: WorkState::Closed,
            faults: 0,
            written: 0,
            bytes_read: 0,
        })
    }

    /// How many bytes were written: the pieces of all calls that were done.
    pub fn written(&self) -> u64
        ensures { result ≡ (sparse_disk self.now).written }
    {
        self.written
    }

    /// How many bytes were read: the lengths of all reads that were Ok, added up. It stays at its last value.
    pub fn bytes_read(&self) -> u64
        ensures { result ≡ read_count self.now }
    {
        self.bytes_read
    }
}

impl Depot for SparseDepot {
    ghost disk = { sparse_disk };

    ghost lawful = { sparse_lawful };

    fn faults(&self) -> u64 {
        self.faults
    }

    fn has(&mut self, slot: Slot) -> Result<bool, DepotFault>
        ensures reads { ReadsOnly (sparse_disk self.old) (sparse_disk self.new) }
        ensures cause { HasCause (sparse_disk self.old) (sparse_disk self.new) result }
        ensures unread { read_count self.new ≡ read_count self.old }
    {
        Ok(self.place.held(slot).is_some())
    }

    fn len(&mut self, slot: Slot) -> Result<u64, DepotFault>
        ensures limit { IfOk result (λ n. n < 2 ^ 63) }
        ensures reads { ReadsOnly (sparse_disk self.old) (sparse_disk self.new) }
        ensures cause { HasCause (sparse_disk self.old) (sparse_disk self.new) result }
        ensures unread { read_count self.new ≡ read_count self.old }
    {
        match self.place.len(slot) {
            len if len < 1 << 63 => Ok(len),
            _ => Err(count_fault(&mut self.faults, DepotFault)),
        }
    }

    fn read_at(&mut self, slot: Slot, at: u64, into: &mut [u8]) -> Result<(), DepotFault>
        ensures reads { ReadsOnly (sparse_disk self.old) (sparse_disk self.new) }
        ensures cause { HasCause (sparse_disk self.old) (sparse_disk self.new) result }
        ensures counted { OnOk result (read_count self.new ≡ min (read_count self.old + length into.old) (2 ^ 64 - 1)) }
        ensures unread { OnErr result (read_count self.new ≡ read_count self.old) }
    {
        match self.place.fill(slot, at, into) {
            Some(()) => {
                self.bytes_read = self.bytes_read.saturating_add(into.len() as u64);
                Ok(())
            }
            None => Err(count_fault(&mut self.faults, DepotFault)),
        }
    }

    fn begin_work(&mut self) -> Result<(), DepotFault>
        ensures does { Does BeginWork (sparse_disk self.old) (sparse_disk self.new) result }
        ensures unread { read_count self.new ≡ read_count self.old }
    {
        self.place.work = Some(Pieces::new(self.place.alloc));
        self.state = WorkState::Open;
        Ok(())
    }

    fn append_work(&mut self, bytes: &[u8]) -> Result<(), DepotFault>
        requires { Allows (AppendWork bytes.now) (sparse_disk self.old) }
        ensures does { Does (AppendWork bytes.now) (sparse_disk self.old) (sparse_disk self.new) result }
        ensures unread { read_count self.new ≡ read_count self.old }
    {
        self.state = WorkState::Closed;
        let Some(written) = self.written.checked_add(bytes.len() as u64) else {
            return Err(count_fault(&mut self.faults, DepotFault));
        };
        match self.place.append(bytes) {
            Some(()) => {
                self.written = written;
                self.state = WorkState::Open;
                Ok(())
            }
            None => Err(count_fault(&mut self.faults, DepotFault)),
        }
    }

    fn sync_work(&mut self) -> Result<(), DepotFault>
        requires { Allows SyncWork (sparse_disk self.old) }
        ensures does { Does SyncWork (sparse_disk self.old) (sparse_disk self.new) result }
        ensures unread { read_count self.new ≡ read_count self.old }
    {
        self.state = WorkState::Ready;
        Ok(())
    }

    fn drop_work(&mut self) -> Result<(), DepotFault>
        ensures does { Does DropWork (sparse_disk self.old) (sparse_disk self.new) result }
        ensures unread { read_count self.new ≡ read_count self.old }
    {
        self.place.work = None;
        self.state = WorkState::Closed;
        Ok(())
    }

    fn install_main(&mut self) -> Result<(), DepotFault>
        requires { Allows InstallMain (sparse_disk self.old) }
        ensures does { Does InstallMain (sparse_disk self.old) (sparse_disk self.new) result }
        ensures unread { read_count self.new ≡ read_count self.old }
    {
        self.place.main = self.place.work.take();
        self.state = WorkState::Closed;
        Ok(())
    }

    fn install_journal(&mut self) -> Result<(), DepotFault>
        requires { Allows InstallJournal (sparse_disk self.old) }
        ensures does { Does InstallJournal (sparse_disk self.old) (sparse_disk self.new) result }
        ensures unread { read_count self.new ≡ read_count self.old }
    {
        self.place.journal = self.place.work.take();
        self.state = WorkState::Closed;
        Ok(())
    }

    fn write_main(&mut self, at: u64, bytes: &[u8]) -> Result<(), DepotFault>
        requires { Allows (WriteMain at bytes.now) (sparse_disk self.old) }
        ensures does { Does (WriteMain at bytes.now) (sparse_disk self.old) (sparse_disk self.new) result }
        ensures unread { read_count self.new ≡ read_count self.old }
    {
        let Some(written) = self.written.checked_add(bytes.len() as u64) else {
            return Err(count_fault(&mut self.faults, DepotFault));
        };
        match self.place.write_main(at, bytes) {
            Some(()) => {
                self.written = written;
                Ok(())
            }
            None => Err(count_fault(&mut self.faults, DepotFault)),
        }
    }

    fn set_main_len(&mut self, n: u64) -> Result<(), DepotFault>
        requires { Allows (SetMainLen n) (sparse_disk self.old) }
        ensures does { Does (SetMainLen n) (sparse_disk self.old) (sparse_disk self.new) result }
        ensures unread { read_count self.new ≡ read_count self.old }
    {
        match self.place.set_main_len(n) {
            Some(()) => Ok(()),
            None => Err(count_fault(&mut self.faults, DepotFault)),
        }
    }

    fn sync_main(&mut self) -> Result<(), DepotFault>
        ensures does { Does SyncMain (sparse_disk self.old) (sparse_disk self.new) result }
        ensures unread { read_count self.new ≡ read_count self.old }
    {
        Ok(())
    }

    fn drop_journal(&mut self) -> Result<(), DepotFault>
        ensures does { Does DropJournal (sparse_disk self.old) (sparse_disk self.new) result }
        ensures unread { read_count self.new ≡ read_count self.old }
    {
        self.place.journal = None;
        Ok(())
    }
}
