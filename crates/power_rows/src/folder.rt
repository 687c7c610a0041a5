// The disk as a folder, which tells nothing.
ghost use Rattle.std.specs.Prelude.{None};

use crate::disk::PowerDisk;
use me_disk::{DepotFault, Slot};
use me_folder::Folder;

/// A folder over a disk that outlives it.
#[derive(Drop)]
pub struct Powered<'a>(pub &'a mut PowerDisk);

impl Folder for Powered<'_> {
    ghost tree = { λ d. None };

    fn stands(&mut self, name: Slot) -> Result<bool, DepotFault> {
        Ok(self.0.held(name).is_some())
    }

    fn len(&mut self, name: Slot) -> Result<u64, DepotFault> {
        match self.0.held(name) {
            None => Ok(0),
            Some(bytes) if bytes.len() < 1 << 63 => Ok(bytes.len() as u64),
            Some(_) => Err(DepotFault),
        }
    }

    fn read_at(&mut self, name: Slot, at: u64, into: &mut [u8]) -> Result<(), DepotFault> {
        let at = at as usize;
        let end = at.saturating_add(into.len());
        match self.0.held(name).and_then(|bytes| bytes.get(at..end)) {
            Some(range) if range.len() == into.len() => {
                into.copy_from_slice(range);
                Ok(())
            }
            _ => Err(DepotFault),
        }
    }

    fn create(&mut self, name: Slot) -> Result<(), DepotFault> {
        self.0.count()?;
        self.0.make(name)
    }

    fn append(&mut self, name: Slot, bytes: &[u8]) -> Result<(), DepotFault> {
        self.0.count()?;
        let end = self.0.held(name).map_or(0, |held| held.len());
        self.0.write(name, end, bytes)
    }

    fn write_at(&mut self, name: Slot, at: u64, bytes: &[u8]) -> Result<(), DepotFault> {
        self.0.count()?;
        self.0.write(name, at as usize, bytes)
    }

    fn set_len(&mut self, name: Slot, n: u64) -> Result<(), DepotFault> {
        self.0.count()?;
        self.0.resize(name, n as usize)
    }

    fn sync_file(&mut self, name: Slot) -> Result<(), DepotFault> {
        self.0.count()?;
        self.0.sync(name)
    }

    fn rename(&mut self, from: Slot, to: Slot) -> Result<(), DepotFault> {
        self.0.count()?;
        let file = self.0.file(from);
        self.0.point(from, None)?;
        self.0.point(to, file)
    }

    fn remove(&mut self, name: Slot) -> Result<(), DepotFault> {
        self.0.count()?;
        self.0.point(name, None)
    }

    fn sync_names(&mut self) -> Result<(), DepotFault> {
        self.0.count()?;
        self.0.sync_names()
    }
}
