// The plan of an edit of an AVI file, from the places of its first form's chunks.
ghost use Rattle.std.specs.Prelude.{◌≡◌, ◌≤◌, ◌<◌, ◌+◌, ◌++◌, ◌^◌, ℕ, List, length, map, true, false, IfOk};
ghost use Rattle.me_bytes.specs.Bytes.{IsBytes};
ghost use Rattle.me_disk.specs.Causes.{Rose};
ghost use Rattle.me_disk.specs.Holds.{Holds, Inside};
ghost use Rattle.me_disk.specs.Steps.{ReadsOnly};
ghost use Rattle.part_tree.specs.declared.field.EditItem.{EditItem};
ghost use Rattle.part_tree.specs.Plans.{Belongs, CanRun};
ghost use Rattle.field_model.specs.KindReads.{PlansKind};
ghost use Rattle.unit_plan.specs.Cuts.{SpansAscend};
ghost use Rattle.unit_plan.specs.Places.{Follow, shape_in};
ghost use Rattle.unit_plan.specs.Sized.{spliced_len};
ghost use Rattle.avi_model.specs.After.{all_changes};
ghost use Rattle.avi_model.specs.Avi.{avi_of};
ghost use Rattle.avi_model.specs.Kind.{avi_kind};
ghost use Rattle.avi_model.specs.NewFile.{new_cells};
ghost use Rattle.avi_model.specs.Support.{SupportedNames};
ghost use Rattle.avi_plan.specs.Comes.{IsListed};
ghost use Rattle.avi_plan.specs.Form.{IsFormOf, IsSoundForm};
ghost use Rattle.avi_plan.specs.NamesAt.{AreNames, StandNames};
ghost use Rattle.avi_plan.specs.Row.{told_row};
ghost use Rattle.avi_plan.specs.Tables.{AreTables};

use crate::form::{FormAt, pad_stays, with_pad};
use crate::joined::joined;
use crate::names::NamesAt;
use crate::table::TableAt;
use crate::units::plan_edit;
use me_disk::Depot;
use part_tree::{Plan, PlanFault};
use std::alloc::Global;
use unit_plan::{Place, UnitCuts, new_len, unit_cuts};

// The form's size with spans that make so many bytes of the file.
fn size_after(form: &FormAt, moved: u64) -> u64
    requires more { form.now.len ≤ moved + form.now.size }
    requires inside { form.now.size ≤ form.now.len }
    ensures { result + form.now.len ≡ moved + form.now.size }
{
    moved - (form.len - form.size)
}

/// The plan of an edit of the first form of a file, whose chunks have these places up to the byte `end`, with the names of its
/// streams set. `TooLarge` is the first of these that passes its limit: the parts, the form's size, the new place of a row of a
/// table, and the file; so a list `hdrl` of 4 GiB is told by the form's size, or by the parts. `Depot` only where the count of the
/// depot's faults rose. No memory holds spans of names and units that overlap, as those of one file never do.
pub fn plan_row<D: Depot>(
    alloc: Global,
    depot: &mut D,
    form: &FormAt,
    names: NamesAt,
    tables: &[TableAt],
    places: &[Place],
    end: u64,
) -> Result<Plan, PlanFault>
    requires sound { IsSoundForm form.now }
    requires inside { Inside form.now.len (D.disk depot.old) }
    requires form { (b : List ℕ) → Holds (D.disk depot.old) b → IsFormOf b form.now }
    requires names { StandNames form.now.len names }
    requires follow { Follow 12 places.now end }
    requires high { end ≤ 8 + form.now.size }
    ensures plans { (b : List ℕ) (e : List EditItem) → Holds (D.disk depot.old) b → IsBytes b → SupportedNames b
        → AreTables b tables.now → AreNames b (all_changes b e).names names
        → map (shape_in b) places.now ≡ told_row names.lacks_pad (new_cells (avi_of b) (all_changes b e).infos)
        → IsListed b e → PlansKind avi_kind b e result }
    ensures can { IfOk result (λ p. CanRun p) }
    ensures belongs { (b : List ℕ) → Holds (D.disk depot.old) b → IfOk result (λ p. Belongs p b) }
    ensures reads { ReadsOnly (D.disk depot.old) (D.disk depot.new) }
    ensures cause { result ≡ Err PlanFault.Depot → Rose (D.disk depot.old).faults (D.disk depot.new).faults }
{
    let units = match unit_cuts(alloc, places, 12, end, end == form.len) {
        Err(_) => return Err(PlanFault::Memory),
        Ok(units) => units,
    };
    let edit = match joined(names, units, form.others, end) {
        Err(_) => return Err(PlanFault::Memory),
        Ok(edit) => edit,
    };
    let Some(moved) = new_len(&edit.cuts, form.len) else {
        return Err(PlanFault::Memory);
    };
    let size = size_after(form, moved);
    let stays = match pad_stays(depot, form, size) {
        Err(_) => return Err(PlanFault::Depot),
        Ok(stays) => stays,
    };
    let UnitCuts { cuts, fits, parts } = edit;
    let cuts = match with_pad(alloc, form, size, stays, cuts) {
        Err(_) => return Err(PlanFault::Memory),
        Ok(cuts) => cuts,
    };
    let edit = UnitCuts { cuts, fits, parts };
    let plan = match plan_edit(alloc, depot, form, size, tables, edit) {
        Err(fault) => return Err(fault),
        Ok(plan) => plan,
    };
    Ok(plan)
}
