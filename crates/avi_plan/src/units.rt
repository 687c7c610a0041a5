// The plan of an edit, by what its units and names come to.
ghost use Rattle.std.specs.Prelude.{◌≡◌, ◌<◌, ◌∷◌, ◌++◌, ◌^◌, [], ℕ, List, length, true, false, IfOk};
ghost use Rattle.me_bytes.specs.Bytes.{IsBytes};
ghost use Rattle.me_disk.specs.Causes.{Rose};
ghost use Rattle.me_disk.specs.Holds.{Holds, Inside};
ghost use Rattle.me_disk.specs.Steps.{ReadsOnly};
ghost use Rattle.part_tree.specs.declared.field.EditItem.{EditItem};
ghost use Rattle.part_tree.specs.Plans.{Belongs, CanRun};
ghost use Rattle.field_model.specs.KindReads.{PlansKind};
ghost use Rattle.container_model.specs.Tests.{first};
ghost use Rattle.unit_plan.specs.Cuts.{SpansAscend};
ghost use Rattle.avi_model.specs.After.{all_changes, is_idle};
ghost use Rattle.avi_model.specs.Kind.{avi_kind};
ghost use Rattle.avi_model.specs.Large.{at_most, limit32};
ghost use Rattle.avi_model.specs.Support.{SupportedNames, part_limit};
ghost use Rattle.avi_plan.specs.Comes.{ComesTo, passed};
ghost use Rattle.avi_plan.specs.Form.{IsFormOf, IsSoundForm, sizes};
ghost use Rattle.avi_plan.specs.Patched.{FitsOn};
ghost use Rattle.avi_plan.specs.Tables.{AreTables};

use crate::form::FormAt;
use crate::plan::plan_spans;
use crate::table::TableAt;
use me_disk::Depot;
use part_tree::{Plan, PlanFault};
use std::alloc::Global;
use unit_plan::UnitCuts;

const MOST_PARTS: u64 = 65_536;

const MOST_SIZE: u64 = 4_294_967_295;

/// A size that passes its limit.
#[derive(Clone, Copy, Debug, PartialEq, Eq)]
pub struct Passed {
    pub size: u64,
    pub limit: u64,
}

// The parts or else the form's size, where one of them passes its limit.
fn first_passed(parts: u64, size: u64) -> Option<Passed>
    ensures { passed result ≡ first (at_most part_limit parts ∷ (at_most limit32 size ∷ [])) }
{
    if parts > MOST_PARTS {
        return Some(Passed {
            size: parts,
            limit: MOST_PARTS,
        });
    }
    if size > MOST_SIZE {
        return Some(Passed {
            size,
            limit: MOST_SIZE,
        });
    }
    None
}

/// The plan of an edit by what it comes to: its spans with that of the form's pad, whether its units fit, and all parts that the
/// file has then; the form has `size` bytes then. `TooLarge` is the first of these that passes its limit: the parts, the form's
/// size, the new place of a row of a table, and the file.
pub fn plan_edit<D: Depot>(
    alloc: Global,
    depot: &mut D,
    form: &FormAt,
    size: u64,
    tables: &[TableAt],
    edit: UnitCuts,
) -> Result<Plan, PlanFault>
    requires sound { IsSoundForm form.now }
    requires inside { Inside form.now.len (D.disk depot.old) }
    requires ascend { SpansAscend 8 edit.cuts.items form.now.len }
    requires fits { edit.fits ≡ true → FitsOn form.now.len (sizes form.now size ++ edit.cuts.items) }
    ensures plans { (b : List ℕ) (e : List EditItem) → Holds (D.disk depot.old) b → IsBytes b → SupportedNames b
        → IsFormOf b form.now → AreTables b tables.now → is_idle (all_changes b e) ≡ false
        → ComesTo b (all_changes b e) form.now size edit → PlansKind avi_kind b e result }
    ensures can { IfOk result (λ p. CanRun p) }
    ensures belongs { (b : List ℕ) → Holds (D.disk depot.old) b → length b ≡ form.now.len
        → IfOk result (λ p. Belongs p b) }
    ensures reads { ReadsOnly (D.disk depot.old) (D.disk depot.new) }
    ensures cause { result ≡ Err PlanFault.Depot → Rose (D.disk depot.old).faults (D.disk depot.new).faults }
{
    let UnitCuts { cuts, fits, parts } = edit;
    match first_passed(parts, size) {
        Some(Passed { size, limit }) => return Err(PlanFault::TooLarge { size, limit }),
        None => {}
    }
    let plan = match plan_spans(alloc, depot, form, size, tables, cuts, fits) {
        Err(fault) => return Err(fault),
        Ok(plan) => plan,
    };
    Ok(plan)
}
