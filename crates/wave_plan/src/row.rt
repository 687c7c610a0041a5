// The plan of an edit of a form, from the places of its chunks.
ghost use Rattle.std.specs.Prelude.{◌≡◌, ◌≤◌, ℕ, List, IfOk, map};
ghost use Rattle.me_bytes.specs.Bytes.{IsBytes};
ghost use Rattle.me_disk.specs.Causes.{Rose};
ghost use Rattle.me_disk.specs.Steps.{ReadsOnly};
ghost use Rattle.me_disk.specs.Holds.{Holds};
ghost use Rattle.part_tree.specs.declared.field.EditItem.{EditItem};
ghost use Rattle.part_tree.specs.Plans.{Belongs, CanRun};
ghost use Rattle.field_model.specs.KindReads.{PlansKind};
ghost use Rattle.unit_plan.specs.Shapes.{shape_of};
ghost use Rattle.unit_plan.specs.Places.{Follow, shape_in};
ghost use Rattle.wave_model.specs.Wave.{wave_of};
ghost use Rattle.wave_model.specs.New.{children_at};
ghost use Rattle.wave_plan.specs.Frame.{IsFormOf, IsSoundForm};
ghost use Rattle.wave_model.specs.Kind.{wave_kind};
ghost use Rattle.wave_plan.specs.Planned.{IsListed, edited_cells, part_count};
ghost use Rattle.wave_plan.specs.Widened.{FitsReserved, IsWideningOf};

use crate::frame::{FormAt, read_frame};
use crate::plan::plan_units;
use crate::widen::Widening;
use me_disk::Depot;
use part_tree::{Plan, PlanFault};
use std::alloc::Global;
use unit_plan::{Place, unit_cuts};

/// The plan of an edit of a form that stands there, whose chunks behind `ds64` have these places, from the byte `from` up to the
/// byte `end` of the file. A RIFF form that its own field can't tell becomes RF64. `TooLarge` is the first of these that passes its
/// limit: the parts, the form's size where it stands in its own field, and the file. `Depot` only where the count of the depot's faults rose.
pub fn plan_row<D: Depot>(
    alloc: Global,
    depot: &mut D,
    form: FormAt,
    widening: &Widening,
    places: &[Place],
    from: u64,
    end: u64,
) -> Result<Plan, PlanFault>
    requires form { (b : List ℕ) → Holds (D.disk depot.old) b → IsFormOf b form }
    requires sound { IsSoundForm form }
    requires follow { Follow from places.now end }
    requires reserved { FitsReserved widening.now.reserved }
    requires low { 12 ≤ from }
    requires high { end ≤ form.end }
    ensures plans { (b : List ℕ) (e : List EditItem) → Holds (D.disk depot.old) b → IsBytes b
        → from ≡ children_at (wave_of b) → IsWideningOf b widening.now
        → map (shape_in b) places.now ≡ map (shape_of part_count) (edited_cells b e) → IsListed b e
        → PlansKind wave_kind b e result }
    ensures can { IfOk result (λ p. CanRun p) }
    ensures belongs { (b : List ℕ) → Holds (D.disk depot.old) b → IfOk result (λ p. Belongs p b) }
    ensures reads { ReadsOnly (D.disk depot.old) (D.disk depot.new) }
    ensures cause { result ≡ Err PlanFault.Depot → Rose (D.disk depot.old).faults (D.disk depot.new).faults }
{
    let frame = match read_frame(depot, form, from) {
        Err(_) => return Err(PlanFault::Depot),
        Ok(frame) => frame,
    };
    let units = match unit_cuts(alloc, places, from, end, end == form.len) {
        Err(_) => return Err(PlanFault::Memory),
        Ok(units) => units,
    };
    let plan = match plan_units(alloc, &frame, widening, units) {
        Err(fault) => return Err(fault),
        Ok(plan) => plan,
    };
    Ok(plan)
}
