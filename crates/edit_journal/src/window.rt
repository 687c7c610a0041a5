// A window over the journal, so that many small strips are read by one device call.
ghost use Rattle.std.specs.Prelude.{◌≡◌, ◌+◌, ◌-◌, ◌≤◌, ◌<◌, ◌^◌, length, take, drop, IsTrue, OnOk};
ghost use Rattle.me_disk.specs.Disk.{bytes_of};
ghost use Rattle.me_disk.specs.Steps.{ReadsOnly, HasCause};
ghost use Rattle.edit_journal.specs.Reads.{Holds, IsWindow};

use me_disk::{Depot, DepotFault, Slot};

// So many bytes of the journal are read at once.
const WINDOW: u64 = 4_096;

/// A part of the journal.
#[derive(Clone, Copy)]
pub struct Window {
    pub at: u64,
    pub len: usize,
    pub bytes: [u8; 4096],
}

/// Makes the window hold so many bytes from a place on.
pub(crate) fn fill<D: Depot>(
    window: &mut Window,
    depot: &mut D,
    at: u64,
    size: u64,
    len: u64,
) -> Result<(), DepotFault>
    requires window { IsWindow window.old }
    requires size { size ≤ 13 }
    requires inside { (at + size ≤ len) × (len < 2 ^ 63) }
    requires told { IsTrue (D.disk depot.old).tells
        → Holds window.old (bytes_of (D.disk depot.old).slots.journal)
        × (len ≡ length (bytes_of (D.disk depot.old).slots.journal)) }
    ensures window { OnOk result (IsWindow window.new) }
    ensures there { OnOk result ((window.new.at ≤ at) × (at + size ≤ window.new.at + window.new.len)) }
    ensures holds { OnOk result (IsTrue (D.disk depot.old).tells
        → Holds window.new (bytes_of (D.disk depot.old).slots.journal)) }
    ensures reads { ReadsOnly (D.disk depot.old) (D.disk depot.new) }
    ensures cause { HasCause (D.disk depot.old) (D.disk depot.new) result }
{
    if at >= window.at && window.at + (window.len as u64) >= at + size {
        return Ok(());
    }
    let n = WINDOW.min(len - at) as usize;
    depot.read_at(Slot::Journal, at, &mut window.bytes[..n])?;
    window.at = at;
    window.len = n;
    Ok(())
}

/// The bytes from a place on, in the window.
pub(crate) fn part(window: &Window, at: u64, size: usize) -> &[u8]
    requires window { IsWindow window.now }
    requires there { (window.now.at ≤ at) × (at + size ≤ window.now.at + window.now.len) }
    ensures bytes { result.now ≡ take size (drop (at - window.now.at) window.now.bytes) }
    ensures len { length result.now ≡ size }
{
    let from = (at - window.at) as usize;
    &window.bytes[from..from + size]
}
