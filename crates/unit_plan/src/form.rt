// The size of a form.
ghost use Rattle.std.specs.Prelude.{◌≡◌, ◌<◌, ◌^◌, ℕ, List, IfOk, false};
ghost use Rattle.unit_plan.specs.Cuts.{IsExact, cut_in};
ghost use Rattle.unit_plan.specs.Sized.{size_at, size_cut};

use crate::cut::CutAt;
use part_tree::{Bytes, NoMemory, Span};
use std::alloc::Global;

/// The span of a form's size, with this size in it: in the form's own field of four bytes, or where it is `wide` in eight bytes
/// of a table.
pub fn size_cut(alloc: Global, wide: bool, size: u64) -> Result<CutAt, NoMemory>
    requires { wide ≡ false → size < 2 ^ 32 }
    ensures cut { IfOk result (λ k. (b : List ℕ) → cut_in b k ≡ size_cut wide size) }
    ensures is { IfOk result (λ k. k ≡ size_at wide size) }
    ensures exact { IfOk result (λ k. IsExact k) }
{
    if wide {
        let bytes = Bytes::new(alloc, &size.to_le_bytes())?;
        return Ok(CutAt {
            span: Span { at: 20, len: 8 },
            bytes,
            keep: 0,
        });
    }
    let bytes = Bytes::new(alloc, &(size as u32).to_le_bytes())?;
    Ok(CutAt {
        span: Span { at: 4, len: 4 },
        bytes,
        keep: 0,
    })
}
