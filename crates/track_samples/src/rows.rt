// Rows of tables, read through a window.
ghost use Rattle.std.specs.Prelude.{◌≡◌, ◌≤◌, ◌<◌, ◌+◌, ◌*◌, ◌^◌, ℕ, List, take, drop, IfOk};
ghost use Rattle.std.specs.Int.{w32, w64, from_be_bytes};
ghost use Rattle.me_disk.specs.Steps.{HasCause, ReadsOnly};
ghost use Rattle.me_disk.specs.Holds.{Holds, Inside};
ghost use Rattle.me_disk.specs.Windows.{IsWindow};
ghost use Rattle.track_samples.specs.Left.{width_of};

use me_disk::{Depot, DepotFault, HeaderWindow};

/// The rows of a table in a file: where the first one stands, how many there are, and where the table ends.
#[derive(Clone, Copy, Debug, PartialEq, Eq)]
pub struct Rows {
    pub at: u64,
    pub count: u32,
    pub end: u64,
}

/// The number in four bytes.
pub fn read_narrow<D: Depot>(
    window: &mut HeaderWindow,
    depot: &mut D,
    at: u64,
    end: u64,
) -> Result<u32, DepotFault>
    requires inside { Inside end (D.disk depot.old) }
    requires small { end < 2 ^ 63 }
    requires whole { at + 4 ≤ end }
    requires window { IsWindow (D.disk depot.old) window.old }
    ensures number { (b : List ℕ) → Holds (D.disk depot.old) b
        → IfOk result (λ n. n ≡ from_be_bytes w32 (take 4 (drop at b))) }
    ensures window { IsWindow (D.disk depot.new) window.new }
    ensures reads { ReadsOnly (D.disk depot.old) (D.disk depot.new) }
    ensures cause { HasCause (D.disk depot.old) (D.disk depot.new) result }
{
    let mut row = [0u8; 4];
    window.read_at(depot, at, end, &mut row)?;
    Ok(u32::from_be_bytes(row))
}

// The number in eight bytes.
fn read_wide<D: Depot>(
    window: &mut HeaderWindow,
    depot: &mut D,
    at: u64,
    end: u64,
) -> Result<u64, DepotFault>
    requires inside { Inside end (D.disk depot.old) }
    requires small { end < 2 ^ 63 }
    requires whole { at + 8 ≤ end }
    requires window { IsWindow (D.disk depot.old) window.old }
    ensures number { (b : List ℕ) → Holds (D.disk depot.old) b
        → IfOk result (λ n. n ≡ from_be_bytes w64 (take 8 (drop at b))) }
    ensures window { IsWindow (D.disk depot.new) window.new }
    ensures reads { ReadsOnly (D.disk depot.old) (D.disk depot.new) }
    ensures cause { HasCause (D.disk depot.old) (D.disk depot.new) result }
{
    let mut row = [0u8; 8];
    window.read_at(depot, at, end, &mut row)?;
    Ok(u64::from_be_bytes(row))
}

/// The place in a row, of eight bytes where `wide`, else of four.
pub fn read_place<D: Depot>(
    window: &mut HeaderWindow,
    depot: &mut D,
    wide: bool,
    at: u64,
    end: u64,
) -> Result<u64, DepotFault>
    requires inside { Inside end (D.disk depot.old) }
    requires small { end < 2 ^ 63 }
    requires whole { at + (width_of wide).bytes ≤ end }
    requires window { IsWindow (D.disk depot.old) window.old }
    ensures place { (b : List ℕ) → Holds (D.disk depot.old) b
        → IfOk result (λ place. place ≡ (width_of wide).get (take (width_of wide).bytes (drop at b))) }
    ensures window { IsWindow (D.disk depot.new) window.new }
    ensures reads { ReadsOnly (D.disk depot.old) (D.disk depot.new) }
    ensures cause { HasCause (D.disk depot.old) (D.disk depot.new) result }
{
    if wide {
        read_wide(window, depot, at, end)
    } else {
        Ok(u64::from(read_narrow(window, depot, at, end)?))
    }
}

/// Where a row of places stands.
pub fn place_at(rows: Rows, wide: bool, row: u32) -> u64
    requires rows { rows.at + (width_of wide).bytes * rows.count ≤ rows.end }
    requires small { rows.end < 2 ^ 63 }
    requires row { row < rows.count }
    ensures at { result ≡ rows.at + (width_of wide).bytes * row }
    ensures room { result + (width_of wide).bytes ≤ rows.end }
{
    if wide {
        rows.at + 8 * u64::from(row)
    } else {
        rows.at + 4 * u64::from(row)
    }
}

/// How many bytes a place has.
pub fn place_len(wide: bool) -> u64
    ensures len { result ≡ (width_of wide).bytes }
    ensures few { result ≤ 8 }
{
    if wide { 8 } else { 4 }
}
