// A depot over a folder.
ghost use Rattle.std.specs.Prelude.{◌≡◌, ◌⊎◌, IsTrue, OnOk};
ghost use Rattle.folder_depot.specs.Moves.{On, Shrinks, install_call};
ghost use Rattle.me_disk.specs.Calls.{Allows};
ghost use Rattle.me_disk.specs.Calls.Call.{WriteMain, SetMainLen};
ghost use Rattle.me_disk.specs.Causes.{CountsFaults};
ghost use Rattle.me_disk.specs.Steps.{Does};
ghost use Rattle.me_disk.specs.declared.depot.Slot.TheVariants.{Main, Work};
ghost use Rattle.me_disk.specs.declared.depot.WorkState.TheVariants.{Open, Ready};
ghost use Rattle.me_folder.specs.Ops.{IsMove};
ghost use Rattle.me_folder.specs.Told.{disk_of, file_at, is_safe, is_trusted, is_settled, trusts};

use crate::calls;
use me_disk::{Depot, DepotFault, Slot, WorkState, count_fault};
use me_folder::Folder;

/// A depot that is made of a folder's calls. What an earlier run left unsynced is synced before its first change, and a file
/// whose sync failed once is never again said to be safe.
#[derive(Drop)]
pub struct FolderDepot<F: Folder + Drop> {
    folder: F,
    state: WorkState,
    // the names are safe, and so is the journal's file
    settled: bool,
    // no sync of `Main` or of the journal failed
    trusted: bool,
    faults: u64,
    written: u64,
    ghost ready: { state ≡ Ready → IsTrue (is_safe (file_at Work (F.tree folder))) },
    ghost open: { state ≡ Open → IsTrue (is_trusted (file_at Work (F.tree folder))) },
    ghost calm: { IsTrue settled → IsTrue (is_settled (F.tree folder)) },
    ghost sound: { IsTrue trusted → IsTrue (trusts (F.tree folder)) },
}

impl<F: Folder + Drop> FolderDepot<F> {
    /// The depot of this folder, in which no sync failed. No file is touched.
    pub fn over(folder: F) -> FolderDepot<F>
        requires { IsTrue (trusts (F.tree folder)) }
        ensures { (result.faults ≡ 0) × (result.written ≡ 0) × (result.state ≡ WorkState.Closed) }
    {
        FolderDepot {
            folder,
            state: WorkState::Closed,
            settled: false,
            trusted: true,
            faults: 0,
            written: 0,
        }
    }

    // Makes both files and all names safe, where the names aren't known to be.
    fn settle(&mut self) -> Result<(), DepotFault>
        ensures shrunk { On Shrinks (F.tree self.old.folder) (F.tree self.new.folder) }
        ensures work { file_at Work (F.tree self.new.folder) ≡ file_at Work (F.tree self.old.folder) }
        ensures state { self.new.state ≡ self.old.state }
        ensures written { self.new.written ≡ self.old.written }
        ensures cause { CountsFaults self.old.faults self.new.faults result }
        ensures settled { OnOk result (IsTrue self.new.settled) }
        ensures main { OnOk result (IsTrue self.old.settled
            ⊎ IsTrue (is_safe (file_at Main (F.tree self.new.folder)))) }
    {
        if self.settled {
            return Ok(());
        }
        if !self.trusted {
            return Err(count_fault(&mut self.faults, DepotFault));
        }
        match calls::settle(&mut self.folder) {
            Ok(()) => {
                self.settled = true;
                Ok(())
            }
            Err(fault) => {
                self.trusted = false;
                Err(count_fault(&mut self.faults, fault))
            }
        }
    }

    // `Work` gets this name.
    fn install(&mut self, to: Slot) -> Result<(), DepotFault>
        requires moves { IsMove Work to }
        requires ready { self.old.state ≡ Ready }
        ensures { Does (install_call to)
            (disk_of (F.tree self.old.folder) self.old.faults self.old.written self.old.state)
            (disk_of (F.tree self.new.folder) self.new.faults self.new.written self.new.state) result }
    {
        let settled = self.settle();
        if settled.is_err() {
            self.state = WorkState::Closed;
            return settled;
        }
        self.state = WorkState::Closed;
        self.settled = false;
        match calls::install(&mut self.folder, to) {
            Ok(()) => {
                self.settled = true;
                Ok(())
            }
            Err(fault) => Err(count_fault(&mut self.faults, fault)),
        }
    }
}

impl<F: Folder + Drop> Depot for FolderDepot<F> {
    ghost use Rattle.folder_depot.specs.Lawful.{told_lawful};

    ghost disk = { λ d. disk_of (F.tree d.folder) d.faults d.written d.state };

    ghost lawful = { λ d. told_lawful (F.tree d.folder) d.faults d.written d.state };

    fn faults(&self) -> u64 {
        self.faults
    }

    fn has(&mut self, slot: Slot) -> Result<bool, DepotFault> {
        match self.folder.stands(slot) {
            Ok(there) => Ok(there),
            Err(fault) => Err(count_fault(&mut self.faults, fault)),
        }
    }

    fn len(&mut self, slot: Slot) -> Result<u64, DepotFault> {
        match self.folder.len(slot) {
            Ok(len) => Ok(len),
            Err(fault) => Err(count_fault(&mut self.faults, fault)),
        }
    }

    fn read_at(&mut self, slot: Slot, at: u64, into: &mut [u8]) -> Result<(), DepotFault> {
        match self.folder.read_at(slot, at, into) {
            Ok(()) => Ok(()),
            Err(fault) => Err(count_fault(&mut self.faults, fault)),
        }
    }

    fn begin_work(&mut self) -> Result<(), DepotFault> {
        self.state = WorkState::Closed;
        match calls::begin_work(&mut self.folder) {
            Ok(()) => {
                self.state = WorkState::Open;
                Ok(())
            }
            Err(fault) => Err(count_fault(&mut self.faults, fault)),
        }
    }

    fn append_work(&mut self, bytes: &[u8]) -> Result<(), DepotFault> {
        self.state = WorkState::Closed;
        let Some(written) = self.written.checked_add(bytes.len() as u64) else {
            return Err(count_fault(&mut self.faults, DepotFault));
        };
        match calls::append_work(&mut self.folder, bytes) {
            Ok(()) => {
                self.written = written;
                self.state = WorkState::Open;
                Ok(())
            }
            Err(fault) => Err(count_fault(&mut self.faults, fault)),
        }
    }

    fn sync_work(&mut self) -> Result<(), DepotFault> {
        self.state = WorkState::Closed;
        match calls::sync_work(&mut self.folder) {
            Ok(()) => {
                self.state = WorkState::Ready;
                Ok(())
            }
            Err(fault) => Err(count_fault(&mut self.faults, fault)),
        }
    }

    fn drop_work(&mut self) -> Result<(), DepotFault> {
        self.state = WorkState::Closed;
        match calls::drop_work(&mut self.folder) {
            Ok(()) => Ok(()),
            Err(fault) => Err(count_fault(&mut self.faults, fault)),
        }
    }

    fn install_main(&mut self) -> Result<(), DepotFault> {
        self.install(Slot::Main)
    }

    fn install_journal(&mut self) -> Result<(), DepotFault> {
        self.install(Slot::Journal)
    }

    fn write_main(&mut self, at: u64, bytes: &[u8]) -> Result<(), DepotFault>
        requires { Allows (WriteMain at bytes.now)
            (disk_of (F.tree self.old.folder) self.old.faults self.old.written self.old.state) }
        ensures does { Does (WriteMain at bytes.now)
            (disk_of (F.tree self.old.folder) self.old.faults self.old.written self.old.state)
            (disk_of (F.tree self.new.folder) self.new.faults self.new.written self.new.state) result }
        ensures settled { OnOk result (IsTrue (is_settled (F.tree self.new.folder))) }
    {
        self.settle()?;
        let Some(written) = self.written.checked_add(bytes.len() as u64) else {
            return Err(count_fault(&mut self.faults, DepotFault));
        };
        match self.folder.write_at(Slot::Main, at, bytes) {
            Ok(()) => {
                self.written = written;
                Ok(())
            }
            Err(fault) => Err(count_fault(&mut self.faults, fault)),
        }
    }

    fn set_main_len(&mut self, n: u64) -> Result<(), DepotFault>
        requires { Allows (SetMainLen n)
            (disk_of (F.tree self.old.folder) self.old.faults self.old.written self.old.state) }
        ensures does { Does (SetMainLen n)
            (disk_of (F.tree self.old.folder) self.old.faults self.old.written self.old.state)
            (disk_of (F.tree self.new.folder) self.new.faults self.new.written self.new.state) result }
        ensures settled { OnOk result (IsTrue (is_settled (F.tree self.new.folder))) }
    {
        self.settle()?;
        match self.folder.set_len(Slot::Main, n) {
            Ok(()) => Ok(()),
            Err(fault) => Err(count_fault(&mut self.faults, fault)),
        }
    }

    // Of settled names only the file is left to be made safe.
    fn sync_main(&mut self) -> Result<(), DepotFault> {
        if !self.settled {
            return self.settle();
        }
        if !self.trusted {
            return Err(count_fault(&mut self.faults, DepotFault));
        }
        match self.folder.sync_file(Slot::Main) {
            Ok(()) => Ok(()),
            Err(fault) => {
                self.trusted = false;
                Err(count_fault(&mut self.faults, fault))
            }
        }
    }

    fn drop_journal(&mut self) -> Result<(), DepotFault> {
        self.settle()?;
        self.settled = false;
        match calls::drop_journal(&mut self.folder) {
            Ok(()) => {
                self.settled = true;
                Ok(())
            }
            Err(fault) => Err(count_fault(&mut self.faults, fault)),
        }
    }
}
