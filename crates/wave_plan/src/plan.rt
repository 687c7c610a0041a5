// The plan of an edit of a form.
ghost use Rattle.std.specs.Prelude.{◌≡◌, ◌≤◌, ◌<◌, ◌+◌, ◌-◌, ◌^◌, ◌∷◌, true, ℕ, List, IfOk, length, if◌then◌else◌};
ghost use Rattle.me_bytes.specs.Bytes.{IsBytes};
ghost use Rattle.part_tree.specs.declared.field.EditItem.{EditItem};
ghost use Rattle.part_tree.specs.Large.{first_above, limited};
ghost use Rattle.part_tree.specs.Plans.{Belongs, CanRun};
ghost use Rattle.field_model.specs.KindReads.{PlansKind};
ghost use Rattle.unit_plan.specs.Sized.{spliced_len};
ghost use Rattle.wave_model.specs.Edited.{Supported};
ghost use Rattle.wave_plan.specs.Frame.{IsFrame};
ghost use Rattle.wave_model.specs.Kind.{narrow_kind, wave_kind};
ghost use Rattle.wave_plan.specs.Planned.{ComesTo, IsListed, StandsIn, passed, sizes_by};
ghost use Rattle.wave_plan.specs.Widened.{FitsReserved, IsWideningOf};

use crate::frame::Frame;
use crate::framed::framed;
use crate::widen::{Widening, plan_widened};
use part_tree::{Plan, PlanFault};
use std::alloc::Global;
use unit_plan::{UnitCuts, new_len, plan_of};

const MOST_PARTS: u64 = 65_536;

const MOST_SIZE: u64 = 4_294_967_295;

const MOST_LEN: u64 = 9_223_372_036_854_775_807;

/// A size that passes its limit.
#[derive(Clone, Copy, Debug, PartialEq, Eq)]
pub struct Passed {
    pub size: u64,
    pub limit: u64,
}

// The parts or else the form's size, where one of them passes its limit.
fn first_passed(frame: &Frame, parts: u64, size: u64) -> Option<Passed>
    ensures { passed result ≡ first_above (limited 65536 parts ∷ sizes_by frame.now.wide frame.now.big size) }
{
    if parts > MOST_PARTS {
        return Some(Passed {
            size: parts,
            limit: MOST_PARTS,
        });
    }
    if frame.wide {
        return None;
    }
    let limit = if frame.big { MOST_SIZE - 1 } else { MOST_SIZE };
    if size > limit {
        return Some(Passed { size, limit });
    }
    None
}

// How many parts `ds64` is.
fn table_parts(big: bool) -> u64
    ensures { result ≡ (if big then 1 else 0) }
{
    if big { 1 } else { 0 }
}

// The form's size with units that make so many bytes of the file.
fn size_after(frame: &Frame, moved: u64) -> u64
    requires more { frame.now.len ≤ moved + frame.now.size }
    requires inside { frame.now.size ≤ frame.now.len }
    ensures { result + frame.now.len ≡ moved + frame.now.size }
{
    moved - (frame.len - frame.size)
}

// The plan of an edit that keeps the width of a form's size, by what its units come to; the form has `size` bytes then. `TooLarge` is
// the first of these that passes its limit: the parts, the form's size in its own field, and the file.
fn plan_narrow(alloc: Global, frame: &Frame, size: u64, units: UnitCuts) -> Result<Plan, PlanFault>
    requires stands { StandsIn frame.now units }
    requires sum { size + frame.now.len ≡ spliced_len frame.now.len units.cuts.items + frame.now.size }
    ensures plans { (b : List ℕ) (e : List EditItem) → IsBytes b → Supported b → IsFrame b frame.now → ComesTo b e units
        → IsListed b e → PlansKind narrow_kind b e result }
    ensures can { IfOk result (λ p. CanRun p) }
    ensures belongs { IfOk result (λ p. (b : List ℕ) → length b ≡ frame.now.len → Belongs p b) }
    ensures reads_nothing { result ≡ Err PlanFault.Depot → ⊥ }
{
    let UnitCuts { cuts, fits, parts } = units;
    let Some(parts) = parts.checked_add(table_parts(frame.big)) else {
        return Err(PlanFault::Memory);
    };
    match first_passed(frame, parts, size) {
        Some(Passed { size, limit }) => return Err(PlanFault::TooLarge { size, limit }),
        None => {}
    }
    let cuts = match framed(alloc, frame, size, cuts) {
        Err(_) => return Err(PlanFault::Memory),
        Ok(cuts) => cuts,
    };
    let Some(len) = new_len(&cuts, frame.len) else {
        return Err(PlanFault::Memory);
    };
    if len > MOST_LEN {
        return Err(PlanFault::TooLarge {
            size: len,
            limit: MOST_LEN,
        });
    }
    match plan_of(alloc, &cuts, fits, frame.len, len) {
        Err(_) => Err(PlanFault::Memory),
        Ok(plan) => Ok(plan),
    }
}

/// The plan of an edit of a form, by what its units come to: a RIFF form that its own field can't tell becomes RF64. `TooLarge` is the
/// first of these that passes its limit: the parts, the form's size where it stands in its own field, and the file.
pub fn plan_units(
    alloc: Global,
    frame: &Frame,
    widening: &Widening,
    units: UnitCuts,
) -> Result<Plan, PlanFault>
    requires stands { StandsIn frame.now units }
    requires reserved { FitsReserved widening.now.reserved }
    ensures plans { (b : List ℕ) (e : List EditItem) → IsBytes b → Supported b → IsFrame b frame.now
        → IsWideningOf b widening.now → ComesTo b e units → IsListed b e → PlansKind wave_kind b e result }
    ensures can { IfOk result (λ p. CanRun p) }
    ensures belongs { IfOk result (λ p. (b : List ℕ) → length b ≡ frame.now.len → Belongs p b) }
    ensures reads_nothing { result ≡ Err PlanFault.Depot → ⊥ }
{
    let Some(moved) = new_len(&units.cuts, frame.len) else {
        return Err(PlanFault::Memory);
    };
    let size = size_after(frame, moved);
    if !frame.big && size > MOST_SIZE {
        return plan_widened(alloc, frame, widening, size, units);
    }
    plan_narrow(alloc, frame, size, units)
}
