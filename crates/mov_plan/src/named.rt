// Whether all new places in the tables of a file can be named.
ghost use Rattle.std.specs.Prelude.{◌≡◌, ◌≤◌, ◌<◌, ◌+◌, ◌^◌, ℕ, List, length, true, false, IfOk};
ghost use Rattle.std.specs.List.{AllByRecursion};
ghost use Rattle.me_disk.specs.Steps.{HasCause, ReadsOnly};
ghost use Rattle.me_disk.specs.Holds.{Holds, Inside};
ghost use Rattle.mov_plan.specs.Made.{IsNamed};
ghost use Rattle.mov_plan.specs.Tables.{LiesIn, form_of, table_len};

use crate::tables::TableAt;
use me_disk::{Depot, DepotFault};
use part_tree::{Moves, TableForm};
use table_misfits::misfit_in;

// Whether the rows of a table end at a place or before it.
fn lies_before(table: &TableAt, end: u64) -> bool
    ensures lies { result ≡ true → table.now.at + table_len table.now ≤ end }
    ensures behind { result ≡ false → end < table.now.at + table_len table.now }
{
    table.at <= end && table.len() <= end - table.at
}

// What the rows of a table are that keep their width.
fn form_in(table: &TableAt) -> TableForm
    ensures { result ≡ form_of table.now.wide false }
{
    if table.wide {
        TableForm::Chunks64
    } else {
        TableForm::Chunks32
    }
}

// Whether the new places in a table can be named. Rows of four bytes may be `widened`.
fn table_named<D: Depot>(
    depot: &mut D,
    moves: &Moves,
    table: &TableAt,
    widened: bool,
    end: u64,
) -> Result<bool, DepotFault>
    requires inside { Inside end (D.disk depot.old) }
    requires small { end < 2 ^ 63 }
    ensures named { (b : List ℕ) → Holds (D.disk depot.old) b
        → IfOk result (λ named. named ≡ true → IsNamed widened moves.now b table.now) }
    ensures not_named { (b : List ℕ) → Holds (D.disk depot.old) b → length b ≡ end → LiesIn b table.now
        → IfOk result (λ named. named ≡ false → IsNamed widened moves.now b table.now → ⊥) }
    ensures reads { ReadsOnly (D.disk depot.old) (D.disk depot.new) }
    ensures cause { HasCause (D.disk depot.old) (D.disk depot.new) result }
{
    if widened && !table.wide {
        return Ok(true);
    }
    if !lies_before(table, end) {
        return Ok(false);
    }
    let misfit = misfit_in(
        depot,
        &form_in(table),
        table.at,
        u64::from(table.rows),
        moves,
    )?;
    Ok(misfit.is_none())
}

/// Whether all new places in the tables of a file, which ends at the byte `end`, can be named by their rows. Rows of four bytes may
/// be `widened`.
pub fn all_named<D: Depot>(
    depot: &mut D,
    moves: &Moves,
    tables: &[TableAt],
    widened: bool,
    end: u64,
) -> Result<bool, DepotFault>
    requires inside { Inside end (D.disk depot.old) }
    requires small { end < 2 ^ 63 }
    ensures named { (b : List ℕ) → Holds (D.disk depot.old) b
        → IfOk result (λ named. named ≡ true → AllByRecursion (IsNamed widened moves.now b) tables.now) }
    ensures not_named { (b : List ℕ) → Holds (D.disk depot.old) b → length b ≡ end
        → AllByRecursion (LiesIn b) tables.now
        → IfOk result (λ named. named ≡ false → AllByRecursion (IsNamed widened moves.now b) tables.now → ⊥) }
    ensures reads { ReadsOnly (D.disk depot.old) (D.disk depot.new) }
    ensures cause { HasCause (D.disk depot.old) (D.disk depot.new) result }
{
    'tables: for table in tables {
        if !table_named(depot, moves, table, widened, end)? {
            return Ok(false);
        }
    }
    Ok(true)
}
