// The plan that replaces spans of a file.
ghost use Rattle.std.specs.Prelude.{◌≡◌, ◌<◌, ◌^◌, ℕ, List, length, map, true, IfOk};
ghost use Rattle.std.specs.List.{flat_map};
ghost use Rattle.part_tree.specs.Plans.{Belongs, CanRun, applied};
ghost use Rattle.container_model.specs.Splice.{splice};
ghost use Rattle.unit_plan.specs.Cuts.{FitsIn, SpansAscend, cut_in, patch_of};
ghost use Rattle.unit_plan.specs.Sized.{spliced_len};
ghost use Rattle.unit_plan.specs.Planned.{IsPlanOf, IsRewrite};

use crate::cut::CutAt;
use crate::patch::in_place;
use crate::segment::segments;
use part_tree::{Moves, NoMemory, Plan};
use std::alloc::Global;

// The new file in segments.
fn rewrite(alloc: Global, cuts: &[CutAt], len: u64, new_len: u64) -> Result<Plan, NoMemory>
    requires ascend { SpansAscend 0 cuts.now len }
    requires new { new_len ≡ spliced_len len cuts.now }
    requires old_small { len < 2 ^ 63 }
    requires new_small { new_len < 2 ^ 63 }
    ensures can { IfOk result (λ p. CanRun p) }
    ensures belongs { IfOk result (λ p. (b : List ℕ) → length b ≡ len → Belongs p b) }
    ensures applied { IfOk result (λ p. (b : List ℕ) → length b ≡ len
        → applied p b ≡ splice b (map (cut_in b) cuts.now)) }
    ensures rewrites { IfOk result (λ p. IsRewrite new_len p) }
{
    let segments = segments(alloc, cuts, len)?;
    Ok(Plan::Rewrite {
        new_len,
        moves: Moves::none(alloc),
        segments,
    })
}

/// The plan that replaces spans of a file of `len` bytes, which has `new_len` bytes then: in place where the spans `fit` there
/// and a journal holds their patches, and else a new file.
pub fn plan_of(
    alloc: Global,
    cuts: &[CutAt],
    fit: bool,
    len: u64,
    new_len: u64,
) -> Result<Plan, NoMemory>
    requires ascend { SpansAscend 0 cuts.now len }
    requires fits { fit ≡ true → FitsIn len cuts.now }
    requires new { new_len ≡ spliced_len len cuts.now }
    requires old_small { len < 2 ^ 63 }
    requires new_small { new_len < 2 ^ 63 }
    ensures can { IfOk result (λ p. CanRun p) }
    ensures belongs { IfOk result (λ p. (b : List ℕ) → length b ≡ len → Belongs p b) }
    ensures applied { IfOk result (λ p. (b : List ℕ) → length b ≡ len
        → applied p b ≡ splice b (map (cut_in b) cuts.now)) }
    ensures form { IfOk result (λ p. IsPlanOf fit len new_len (flat_map patch_of cuts.now) p) }
{
    if !fit {
        let plan = rewrite(alloc, cuts, len, new_len)?;
        return Ok(plan);
    }
    match in_place(alloc, cuts, len, new_len)? {
        None => {
            let plan = rewrite(alloc, cuts, len, new_len)?;
            Ok(plan)
        }
        Some(patches) => Ok(Plan::InPlace {
            old_len: len,
            new_len,
            patches,
        }),
    }
}
