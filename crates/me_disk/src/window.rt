// Bytes of a file that are read ahead.
ghost use Rattle.std.specs.Prelude.{◌≡◌, ◌+◌, ◌-◌, ◌<◌, ◌≤◌, ◌^◌, ℕ, List, length, min, take, drop, OnOk};
ghost use Rattle.me_disk.specs.Holds.{Holds, Inside};
ghost use Rattle.me_disk.specs.Steps.{HasCause, ReadsOnly};
ghost use Rattle.me_disk.specs.Windows.{IsWindow};

use crate::depot::{Depot, DepotFault, Slot};

/// Bytes of `Main` from a place on, at most `N`, so that the rows of a table or the headers of chunks aren't read one by one.
#[derive(Drop)]
pub struct Window<const N: usize> {
    pub bytes: [u8; N],
    pub from: u64,
    pub len: u64,
}

/// A window over the rows of a table: 64 KiB.
pub type TableWindow = Window<65_536>;

/// A window over the headers of chunks: 4 KiB.
pub type HeaderWindow = Window<4_096>;

impl<const N: usize> Window<N> {
    /// A window that holds nothing yet.
    pub fn new() -> Window<N>
        ensures from { result.from ≡ 0 }
        ensures len { result.len ≡ 0 }
    {
        Window {
            bytes: [0; N],
            from: 0,
            len: 0,
        }
    }

    // Reads the bytes from a place on, up to an end.
    fn fill<D: Depot>(&mut self, depot: &mut D, at: u64, end: u64) -> Result<(), DepotFault>
        requires inside { Inside end (D.disk depot.old) }
        requires small { end < 2 ^ 63 }
        requires order { at ≤ end }
        ensures window { IsWindow (D.disk depot.new) self.new }
        ensures from { OnOk result (self.new.from ≡ at) }
        ensures len { OnOk result (self.new.len ≡ min N (end - at)) }
        ensures reads { ReadsOnly (D.disk depot.old) (D.disk depot.new) }
        ensures cause { HasCause (D.disk depot.old) (D.disk depot.new) result }
    {
        let len = (N as u64).min(end - at);
        self.from = at;
        self.len = 0;
        depot.read_at(Slot::Main, at, &mut self.bytes[..len as usize])?;
        self.len = len;
        Ok(())
    }

    // Sees to it that so many bytes from a place on are there.
    fn cover<D: Depot>(
        &mut self,
        depot: &mut D,
        at: u64,
        count: u64,
        end: u64,
    ) -> Result<(), DepotFault>
        requires inside { Inside end (D.disk depot.old) }
        requires small { end < 2 ^ 63 }
        requires whole { at + count ≤ end }
        requires few { count ≤ N }
        requires window { IsWindow (D.disk depot.old) self.old }
        ensures window { IsWindow (D.disk depot.new) self.new }
        ensures covered { OnOk result ((self.new.from ≤ at) × (at + count ≤ self.new.from + self.new.len)) }
        ensures reads { ReadsOnly (D.disk depot.old) (D.disk depot.new) }
        ensures cause { HasCause (D.disk depot.old) (D.disk depot.new) result }
    {
        if self.from <= at && at + count <= self.from + self.len {
            return Ok(());
        }
        self.fill(depot, at, end)?;
        Ok(())
    }

    /// Fills `into` with the bytes from a place on. `end` is the end of the table, beyond which nothing is read.
    pub fn read_at<D: Depot>(
        &mut self,
        depot: &mut D,
        at: u64,
        end: u64,
        into: &mut [u8],
    ) -> Result<(), DepotFault>
        requires inside { Inside end (D.disk depot.old) }
        requires small { end < 2 ^ 63 }
        requires whole { at + length into.old ≤ end }
        requires few { length into.old ≤ N }
        requires window { IsWindow (D.disk depot.old) self.old }
        ensures bytes { (b : List ℕ) → Holds (D.disk depot.old) b
            → OnOk result (into.new ≡ take (length into.old) (drop at b)) }
        ensures window { IsWindow (D.disk depot.new) self.new }
        ensures reads { ReadsOnly (D.disk depot.old) (D.disk depot.new) }
        ensures cause { HasCause (D.disk depot.old) (D.disk depot.new) result }
    {
        self.cover(depot, at, into.len() as u64, end)?;
        let start = (at - self.from) as usize;
        let bytes = &self.bytes[..];
        into.copy_from_slice(&bytes[start..start + into.len()]);
        Ok(())
    }
}
