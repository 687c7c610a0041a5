// One entry of `idx1`.
ghost use Rattle.std.specs.Prelude.{◌≡◌, ◌+◌, ◌*◌, ◌<◌, ◌≤◌, ◌^◌, ℕ, List, IfOk};
ghost use Rattle.me_disk.specs.Holds.{Holds, Inside};
ghost use Rattle.me_disk.specs.Steps.{HasCause, ReadsOnly};
ghost use Rattle.container_model.specs.Written.{slice};
ghost use Rattle.avi_index.specs.Entries.{IsEntry, ReadsEntry, row_at};
ghost use Rattle.me_disk.specs.Windows.{IsWindow};

use me_disk::{Depot, DepotFault, TableWindow};
use part_tree::{FourCc, Span};

/// An entry: the identifier of a chunk, its flags (1 marks a list, 16 a key frame), its offset and its length in bytes.
#[derive(Clone, Copy, Debug, PartialEq, Eq)]
pub struct IdxEntry {
    pub id: FourCc,
    pub flags: u32,
    pub offset: u32,
    pub len: u32,
}

// The entry in a row.
fn entry_in(row: &[u8; 16]) -> IdxEntry
    ensures { IsEntry row.now result }
{
    IdxEntry {
        id: FourCc([row[0], row[1], row[2], row[3]]),
        flags: u32::from_le_bytes([row[4], row[5], row[6], row[7]]),
        offset: u32::from_le_bytes([row[8], row[9], row[10], row[11]]),
        len: u32::from_le_bytes([row[12], row[13], row[14], row[15]]),
    }
}

/// The entry of this number, from 0. None exactly where it passes the end of the table.
pub fn entry_at(bytes: &[u8], k: usize) -> Option<IdxEntry>
    ensures { ReadsEntry bytes.now k result }
{
    if k >= bytes.len() / 16 {
        return None;
    }
    let mut row = [0u8; 16];
    row.copy_from_slice(&bytes[16 * k..16 * k + 16]);
    Some(entry_in(&row))
}

// The entry of this number of a table in a file.
pub fn read_entry<D: Depot>(
    window: &mut TableWindow,
    depot: &mut D,
    table: Span,
    k: u64,
) -> Result<IdxEntry, DepotFault>
    requires inside { Inside (table.at + table.len) (D.disk depot.old) }
    requires small { table.at + table.len < 2 ^ 63 }
    requires there { 16 * (k + 1) ≤ table.len }
    requires window { IsWindow (D.disk depot.old) window.old }
    ensures entry { (b : List ℕ) → Holds (D.disk depot.old) b
        → IfOk result (λ e. IsEntry (row_at (slice b table.at table.len) k) e) }
    ensures window { IsWindow (D.disk depot.new) window.new }
    ensures reads { ReadsOnly (D.disk depot.old) (D.disk depot.new) }
    ensures cause { HasCause (D.disk depot.old) (D.disk depot.new) result }
{
    let mut row = [0u8; 16];
    window.read_at(depot, table.at + 16 * k, table.at + table.len, &mut row)?;
    Ok(entry_in(&row))
}
