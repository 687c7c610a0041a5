// All parts of an edit, one after the other.
ghost use Rattle.std.specs.Prelude.{◌≡◌, ℕ, List, OnOk};
ghost use Rattle.std.specs.List.{flat_map};
ghost use Rattle.container_model.specs.Units.{Cell, live};
ghost use Rattle.wave_model.specs.Fields.{bodies, is_info};
ghost use Rattle.edit_planner.specs.Lists.{SmallLists, TellsLarge, lengths};
ghost use Rattle.bext_fields.specs.Change.{raw_items_of};
ghost use Rattle.wave_model.specs.Carry.{steps};
ghost use Rattle.carrier_model.specs.Steps.{carried};
ghost use Rattle.edit_planner.specs.Cells.{AreFine, AreReadable, Follow, Unedited, told_row};

use crate::bext::edit_bext;
use crate::cells::CellAt;
use crate::lists::{ListsFault, edit_lists};
use crate::wholes::edit_wholes;
use bext_fields::RawChange;
use std::alloc::Global;

/// Makes the changes in a row of cells that begins at the byte `from`: those of `bext`, of the lists of INFO items,
/// and of the chunks that are fields as a whole.
pub fn edit_cells(
    cells: &mut Vec<CellAt>,
    alloc: Global,
    from: u64,
    changes: &[RawChange],
) -> Result<(), ListsFault>
    requires readable { AreReadable cells.old.items }
    requires fine { AreFine changes.now }
    ensures told { OnOk result ((xs : List Cell) → Unedited xs → cells.old.items ≡ told_row from xs
        → cells.new.items ≡ told_row from (carried (steps (raw_items_of changes.now)) xs)) }
    ensures large { (xs : List Cell) → Unedited xs → SmallLists (flat_map live xs) → cells.old.items ≡ told_row from xs
        → TellsLarge (lengths (bodies is_info (flat_map live (carried (steps (raw_items_of changes.now)) xs)))) result }
    ensures follow { OnOk result ((end : ℕ) → Follow from cells.old.items end → Follow from cells.new.items end) }
{
    match edit_bext(cells, alloc, from, changes) {
        Err(_) => return Err(ListsFault::Memory),
        Ok(()) => {}
    }
    match edit_lists(cells, alloc, from, changes) {
        Err(fault) => return Err(fault),
        Ok(()) => {}
    }
    match edit_wholes(cells, alloc, from, changes) {
        Err(_) => Err(ListsFault::Memory),
        Ok(()) => Ok(()),
    }
}
