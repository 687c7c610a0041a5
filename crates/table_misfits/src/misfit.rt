// Whether the rows of a table can name their new places. They are read in pages of at most 4,096 rows.
ghost use Rattle.std.specs.Prelude.{◌≡◌, ◌≢◌, ◌≤◌, ◌<◌, ◌+◌, ◌*◌, ◌^◌, ℕ, List, length, drop, IfOk};
ghost use Rattle.me_disk.specs.Holds.{Holds, Inside};
ghost use Rattle.me_disk.specs.Steps.{HasCause, ReadsOnly};
ghost use Rattle.part_tree.specs.declared.table.TableForm.TheVariants.{Widen};
ghost use Rattle.part_tree.specs.Tables.{HasBase, width};
ghost use Rattle.relocator.specs.Pages.{count};
ghost use Rattle.table_misfits.specs.Misfits.{misfits};

use me_disk::{Depot, DepotFault, Slot};
use part_tree::{Moves, TableForm};
use relocator::relocate_page;

const PAGE_ROWS: u64 = 4_096;

const PAGE_BYTES: usize = 65_536;

// The first new place that so many rows from a place on can't name, if there is one. Their bytes are left in the page.
fn misfit_in_page<D: Depot>(
    depot: &mut D,
    form: &TableForm,
    at: u64,
    page: &mut [u8],
    moves: &Moves,
) -> Result<Option<u64>, DepotFault>
    requires narrow { form.now ≢ Widen }
    requires base { HasBase form.now }
    requires few { length page.old < 2 ^ 32 }
    requires whole { length page.old ≡ width form.now * count form.now page.old }
    requires inside { Inside (at + length page.old) (D.disk depot.old) }
    ensures misfit { (b : List ℕ) → Holds (D.disk depot.old) b
        → IfOk result (λ m. m ≡ misfits moves.now form.now (count form.now page.old) (drop at b)) }
    ensures reads { ReadsOnly (D.disk depot.old) (D.disk depot.new) }
    ensures cause { HasCause (D.disk depot.old) (D.disk depot.new) result }
{
    depot.read_at(Slot::Main, at, page)?;
    match relocate_page(form, page, 0, moves) {
        Err(overflow) => Ok(Some(overflow.place)),
        Ok(()) => Ok(None),
    }
}

/// The first new place that so many rows of a table in the file can't name, if there is one.
pub fn misfit_in<D: Depot>(
    depot: &mut D,
    form: &TableForm,
    from: u64,
    rows: u64,
    moves: &Moves,
) -> Result<Option<u64>, DepotFault>
    requires narrow { form.now ≢ Widen }
    requires base { HasBase form.now }
    requires inside { Inside (from + width form.now * rows) (D.disk depot.old) }
    requires small { from + width form.now * rows < 2 ^ 63 }
    ensures misfit { (b : List ℕ) → Holds (D.disk depot.old) b
        → IfOk result (λ m. m ≡ misfits moves.now form.now rows (drop from b)) }
    ensures reads { ReadsOnly (D.disk depot.old) (D.disk depot.new) }
    ensures cause { HasCause (D.disk depot.old) (D.disk depot.new) result }
{
    let width = form.width();
    let mut page = [0u8; PAGE_BYTES];
    let mut done = 0u64;
    'pages: while done < rows {
        let count = (rows - done).min(PAGE_ROWS);
        let bytes = &mut page[..width * count as usize];
        let place = misfit_in_page(depot, form, from + width as u64 * done, bytes, moves)?;
        match place {
            Some(place) => return Ok(Some(place)),
            None => {}
        }
        done += count;
    }
    Ok(None)
}
