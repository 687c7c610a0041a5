// The heads of tables: how many rows they have.
ghost use Rattle.std.specs.Prelude.{◌≡◌, ◌≤◌, ◌<◌, ◌+◌, ◌*◌, ◌^◌, ℕ, List, take, drop, IfOk, IfSome};
ghost use Rattle.me_disk.specs.Steps.{HasCause, ReadsOnly};
ghost use Rattle.me_disk.specs.Holds.{Holds, Inside};
ghost use Rattle.me_disk.specs.Windows.{IsWindow};
ghost use Rattle.container_model.specs.Written.{slice};
ghost use Rattle.sample_tables.specs.Counts.{rows_by};
ghost use Rattle.track_samples.specs.Left.{AreRows};
ghost use Rattle.track_samples.specs.Places.{Lies, RowsLie};

use crate::rows::{Rows, read_narrow};
use me_disk::{Depot, DepotFault, HeaderWindow};
use part_tree::Span;

// How many rows of so many bytes a table has. None where it is too short for them.
fn count_in<D: Depot>(
    window: &mut HeaderWindow,
    depot: &mut D,
    body: Span,
    len: u64,
) -> Result<Option<u32>, DepotFault>
    requires lies { Lies (D.disk depot.old) body }
    requires few { len ≤ 12 }
    requires window { IsWindow (D.disk depot.old) window.old }
    ensures count { (b : List ℕ) → Holds (D.disk depot.old) b
        → IfOk result (λ count. count ≡ rows_by len (slice b body.at body.len)) }
    ensures room { IfOk result (λ count. IfSome count (λ n. 8 + len * n ≤ body.len)) }
    ensures window { IsWindow (D.disk depot.new) window.new }
    ensures reads { ReadsOnly (D.disk depot.old) (D.disk depot.new) }
    ensures cause { HasCause (D.disk depot.old) (D.disk depot.new) result }
{
    if body.len < 8 {
        return Ok(None);
    }
    let count = read_narrow(window, depot, body.at + 4, body.at + body.len)?;
    if body.len < 8 + len * u64::from(count) {
        return Ok(None);
    }
    Ok(Some(count))
}

/// The rows of so many bytes in a table; none where it is too short for them.
pub fn rows_in<D: Depot>(
    window: &mut HeaderWindow,
    depot: &mut D,
    body: Span,
    len: u64,
) -> Result<Rows, DepotFault>
    requires lies { Lies (D.disk depot.old) body }
    requires few { len ≤ 12 }
    requires window { IsWindow (D.disk depot.old) window.old }
    ensures rows { (b : List ℕ) → Holds (D.disk depot.old) b
        → IfOk result (λ rows. AreRows body (rows_by len (slice b body.at body.len)) rows) }
    ensures lie { IfOk result (λ rows. RowsLie len (D.disk depot.new) rows) }
    ensures window { IsWindow (D.disk depot.new) window.new }
    ensures reads { ReadsOnly (D.disk depot.old) (D.disk depot.new) }
    ensures cause { HasCause (D.disk depot.old) (D.disk depot.new) result }
{
    let end = body.at + body.len;
    match count_in(window, depot, body, len)? {
        None => Ok(Rows {
            at: body.at,
            count: 0,
            end,
        }),
        Some(count) => Ok(Rows {
            at: body.at + 8,
            count,
            end,
        }),
    }
}
