// The rows of tables of chunk places.
ghost use Rattle.std.specs.Prelude.{◌≡◌, ◌≤◌, ◌<◌, ◌+◌, ◌^◌, ℕ, List, take, drop, IfOk};
ghost use Rattle.std.specs.Int.{w32, from_be_bytes};
ghost use Rattle.me_disk.specs.Steps.{HasCause, ReadsOnly};
ghost use Rattle.me_disk.specs.Holds.{Holds, Inside};
ghost use Rattle.me_disk.specs.Windows.{IsWindow};

use me_disk::{Depot, DepotFault, HeaderWindow};

/// The number in four bytes at a place. `end` is the end of the file.
pub fn read_narrow<D: Depot>(
    window: &mut HeaderWindow,
    depot: &mut D,
    at: u64,
    end: u64,
) -> Result<u32, DepotFault>
    requires inside { Inside end (D.disk depot.old) }
    requires small { end < 2 ^ 63 }
    requires whole { at + 4 ≤ end }
    requires window { IsWindow (D.disk depot.old) window.old }
    ensures number { (b : List ℕ) → Holds (D.disk depot.old) b
        → IfOk result (λ n. n ≡ from_be_bytes w32 (take 4 (drop at b))) }
    ensures window { IsWindow (D.disk depot.new) window.new }
    ensures reads { ReadsOnly (D.disk depot.old) (D.disk depot.new) }
    ensures cause { HasCause (D.disk depot.old) (D.disk depot.new) result }
{
    let mut row = [0u8; 4];
    window.read_at(depot, at, end, &mut row)?;
    Ok(u32::from_be_bytes(row))
}
