// The plan by spans and tables.
ghost use Rattle.std.specs.Prelude.{◌≡◌, ◌≤◌, ◌<◌, ◌+◌, ◌++◌, ◌^◌, ℕ, List, length, map, true, false, IfOk};
ghost use Rattle.std.specs.List.{AllByRecursion, flat_map};
ghost use Rattle.me_disk.specs.Causes.{Rose};
ghost use Rattle.me_disk.specs.Holds.{Holds, Inside};
ghost use Rattle.me_disk.specs.Steps.{ReadsOnly};
ghost use Rattle.part_tree.specs.declared.plan.Patch.{Patch};
ghost use Rattle.part_tree.specs.Plans.{Belongs, CanRun};
ghost use Rattle.container_model.specs.Tests.{or_else};
ghost use Rattle.carrier_model.specs.Gaps.{moves_of};
ghost use Rattle.unit_plan.specs.Cuts.{SpansAscend, cut_in};
ghost use Rattle.unit_plan.specs.Planned.{IsPlanOf};
ghost use Rattle.unit_plan.specs.Sized.{IsTooMuch, spliced_len};
ghost use Rattle.avi_index.specs.Rows.{Base};
ghost use Rattle.avi_plan.specs.Changes.{IsNamed, IsSound, Tells, merged, refused};
ghost use Rattle.avi_plan.specs.Form.{IsSoundForm, sizes};
ghost use Rattle.avi_plan.specs.Patched.{FitsOn, placed_patches};
ghost use Rattle.avi_plan.specs.Planned.{Makes, too_long};
ghost use Rattle.avi_plan.specs.Tables.{IsTabled, Tabled, changes_of, table_at};

use crate::form::{FormAt, with_size};
use crate::moves::moves_between;
use crate::patches::in_place;
use crate::renumber::renumber_all;
use crate::segments::segments_with;
use crate::table::{Change, TableAt};
use me_disk::Depot;
use part_tree::{Moves, NoMemory, Plan, PlanFault};
use std::alloc::Global;
use unit_plan::{CutAt, new_len};

const MOST_LEN: u64 = 9_223_372_036_854_775_807;

// A new file in segments, of which spans are replaced and tables changed.
fn rewrite(
    alloc: Global,
    cuts: &[CutAt],
    changes: &[Change],
    moves: Moves,
    len: u64,
    new_len: u64,
) -> Result<Plan, NoMemory>
    requires ascend { SpansAscend 0 cuts.now len }
    requires sound { AllByRecursion (IsSound len) changes.now }
    requires old_small { len < 2 ^ 63 }
    requires new_small { new_len < 2 ^ 63 }
    ensures can { IfOk result (λ p. CanRun p) }
    ensures belongs { IfOk result (λ p. (b : List ℕ) → length b ≡ len → AllByRecursion (IsNamed moves b) changes.now
        → Belongs p b) }
    ensures makes { IfOk result (λ p. (b : List ℕ) → length b ≡ len → Makes p b (merged moves b cuts.now changes.now)) }
    ensures rewrites { IfOk result (λ p. (ps : List Patch) → IsTooMuch ps → IsPlanOf true len new_len ps p) }
    ensures unfit { IfOk result (λ p. (ps : List Patch) → IsPlanOf false len new_len ps p) }
{
    let segments = segments_with(alloc, cuts, changes, len, new_len)?;
    Ok(Plan::Rewrite {
        new_len,
        moves,
        segments,
    })
}

// The plan that replaces spans and changes tables: in place where the spans fit there and a journal holds their patches, and
// else a new file.
fn plan_cuts(
    alloc: Global,
    cuts: &[CutAt],
    fits: bool,
    changes: &[Change],
    moves: Moves,
    len: u64,
    new_len: u64,
) -> Result<Plan, NoMemory>
    requires ascend { SpansAscend 0 cuts.now len }
    requires fits { fits ≡ true → FitsOn len cuts.now }
    requires sound { AllByRecursion (IsSound len) changes.now }
    requires new { new_len ≡ spliced_len len cuts.now }
    requires old_small { len < 2 ^ 63 }
    requires new_small { new_len < 2 ^ 63 }
    ensures can { IfOk result (λ p. CanRun p) }
    ensures belongs { IfOk result (λ p. (b : List ℕ) → length b ≡ len → AllByRecursion (IsNamed moves b) changes.now
        → Belongs p b) }
    ensures makes { IfOk result (λ p. (b : List ℕ) → length b ≡ len → Makes p b (merged moves b cuts.now changes.now)) }
    ensures form { IfOk result (λ p. IsPlanOf fits len new_len (placed_patches cuts.now) p) }
{
    if !fits {
        let plan = rewrite(alloc, cuts, changes, moves, len, new_len)?;
        return Ok(plan);
    }
    match in_place(alloc, cuts, len, new_len)? {
        None => {
            let plan = rewrite(alloc, cuts, changes, moves, len, new_len)?;
            Ok(plan)
        }
        Some(patches) => Ok(Plan::InPlace {
            old_len: len,
            new_len,
            patches,
        }),
    }
}

/// The plan that replaces the spans of an edit and the form's size, where the form has `size` bytes then; the tables are told by
/// place. `TooLarge` is the first new place that a row can't name, or else the length of the new file.
pub fn plan_spans<D: Depot>(
    alloc: Global,
    depot: &mut D,
    form: &FormAt,
    size: u64,
    tables: &[TableAt],
    edits: Vec<CutAt>,
    fits: bool,
) -> Result<Plan, PlanFault>
    requires sound { IsSoundForm form.now }
    requires inside { Inside form.now.len (D.disk depot.old) }
    requires ascend { SpansAscend 8 edits.items form.now.len }
    requires fits { fits ≡ true → FitsOn form.now.len (sizes form.now size ++ edits.items) }
    requires small { size < 2 ^ 32 }
    ensures makes { (b : List ℕ) (movi : ℕ) (base : Base) (xs : List Tabled) → Holds (D.disk depot.old) b
        → length b ≡ form.now.len → AllByRecursion (IsTabled b) xs → tables.now ≡ map (table_at movi base) xs
        → IfOk result (λ p. Makes p b (merged (moves_of (map (cut_in b) edits.items) form.now.len) b
        (sizes form.now size ++ edits.items) (flat_map (changes_of
        (moves_of (map (cut_in b) edits.items) form.now.len) base) xs))) }
    ensures large { (b : List ℕ) (movi : ℕ) (base : Base) (xs : List Tabled) → Holds (D.disk depot.old) b
        → length b ≡ form.now.len → AllByRecursion (IsTabled b) xs → tables.now ≡ map (table_at movi base) xs
        → Tells (or_else (refused (moves_of (map (cut_in b) edits.items) form.now.len) b
        (flat_map (changes_of (moves_of (map (cut_in b) edits.items) form.now.len) base) xs))
        (too_long (spliced_len form.now.len (sizes form.now size ++ edits.items)))) result }
    ensures form { IfOk result (λ p. IsPlanOf fits form.now.len (spliced_len form.now.len (sizes form.now size
        ++ edits.items))
        (placed_patches (sizes form.now size ++ edits.items)) p) }
    ensures named { (b : List ℕ) (movi : ℕ) (base : Base) (xs : List Tabled) → Holds (D.disk depot.old) b
        → length b ≡ form.now.len → AllByRecursion (IsTabled b) xs → tables.now ≡ map (table_at movi base) xs
        → IfOk result (λ p. AllByRecursion (IsNamed (moves_of (map (cut_in b) edits.items) form.now.len) b)
        (flat_map (changes_of (moves_of (map (cut_in b) edits.items) form.now.len) base) xs)) }
    ensures can { IfOk result (λ p. CanRun p) }
    ensures belongs { (b : List ℕ) → Holds (D.disk depot.old) b → length b ≡ form.now.len
        → IfOk result (λ p. Belongs p b) }
    ensures reads { ReadsOnly (D.disk depot.old) (D.disk depot.new) }
    ensures cause { result ≡ Err PlanFault.Depot → Rose (D.disk depot.old).faults (D.disk depot.new).faults }
{
    let moves = match moves_between(alloc, &edits, form.len) {
        Err(_) => return Err(PlanFault::Memory),
        Ok(moves) => moves,
    };
    let changes = match renumber_all(alloc, depot, tables, form.len, &moves) {
        Err(fault) => return Err(fault),
        Ok(changes) => changes,
    };
    let cuts = match with_size(alloc, form, size, edits) {
        Err(_) => return Err(PlanFault::Memory),
        Ok(cuts) => cuts,
    };
    let Some(len) = new_len(&cuts, form.len) else {
        return Err(PlanFault::Memory);
    };
    if len > MOST_LEN {
        return Err(PlanFault::TooLarge {
            size: len,
            limit: MOST_LEN,
        });
    }
    match plan_cuts(alloc, &cuts, fits, &changes, moves, form.len, len) {
        Err(_) => Err(PlanFault::Memory),
        Ok(plan) => Ok(plan),
    }
}
