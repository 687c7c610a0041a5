// How long a file is after its spans are replaced.
ghost use Rattle.std.specs.Prelude.{◌≡◌, ◌≤◌, ◌^◌, MatchOption};
ghost use Rattle.unit_plan.specs.Cuts.{SpansAscend};
ghost use Rattle.unit_plan.specs.Sized.{spliced_len};

use crate::cut::CutAt;

/// How many bytes a file of `len` bytes has with its spans replaced. None where 64 bits don't hold the number.
pub fn new_len(cuts: &[CutAt], len: u64) -> Option<u64>
    requires { SpansAscend 0 cuts.now len }
    ensures { MatchOption result (2 ^ 64 ≤ spliced_len len cuts.now) (λ n. n ≡ spliced_len len cuts.now) }
{
    let mut kept = len;
    let mut gained = 0u64;
    'cuts: for cut in cuts {
        kept -= cut.span.len;
        let bytes = cut.bytes.as_slice().len() as u64;
        let Some(added) = bytes.checked_add(cut.keep) else {
            return None;
        };
        let Some(sum) = gained.checked_add(added) else {
            return None;
        };
        gained = sum;
    }
    kept.checked_add(gained)
}
