// The patches that make a new file in place.
ghost use Rattle.std.specs.Prelude.{◌≡◌, ◌≤◌, ◌<◌, ◌^◌, length, IfOk, IfSome, IfNone};
ghost use Rattle.std.specs.List.{flat_map};
ghost use Rattle.part_tree.specs.Patches.{FewRules, all_bytes};
ghost use Rattle.unit_plan.specs.Cuts.{FitsIn, SpansAscend, patch_of};
ghost use Rattle.unit_plan.specs.Sized.{IsTooMuch, spliced_len};

use crate::cut::CutAt;
use part_tree::{Bytes, NoMemory, Patch, Patches};
use std::alloc::Global;

const MOST_PATCHES: usize = 65_536;

const MOST_BYTES: u64 = 16_777_216;

// The patches of spans, or none where these are too much for a journal.
fn patches_of(alloc: Global, cuts: &[CutAt]) -> Result<Option<Patches>, NoMemory>
    ensures patches { IfOk result (λ found. IfSome found (λ ps. ps ≡ flat_map patch_of cuts.now)) }
    ensures few { IfOk result (λ found. IfSome found (λ ps. length ps ≤ 65536)) }
    ensures small { IfOk result (λ found. IfSome found (λ ps. all_bytes ps ≤ 2 ^ 24)) }
    ensures none { IfOk result (λ found. IfNone found (IsTooMuch (flat_map patch_of cuts.now))) }
{
    let mut patches = Vec::new(alloc);
    let mut total = 0u64;
    'cuts: for cut in cuts {
        let bytes = cut.bytes.as_slice();
        if bytes.is_empty() {
            continue;
        }
        if patches.len() == MOST_PATCHES {
            return Ok(None);
        }
        total += bytes.len() as u64;
        if total > MOST_BYTES {
            return Ok(None);
        }
        let copy = Bytes::new(alloc, bytes)?;
        match patches.push(Patch {
            at: cut.span.at,
            bytes: copy,
        }) {
            Err(_) => return Err(NoMemory),
            Ok(()) => {}
        }
    }
    Ok(Some(Patches::new(patches)))
}

/// The patches in place of spans of a file of `len` bytes that fit there, where it has `new_len` bytes then. None where they
/// are more than 65,536 or have more than 16 MiB.
pub fn in_place(
    alloc: Global,
    cuts: &[CutAt],
    len: u64,
    new_len: u64,
) -> Result<Option<Patches>, NoMemory>
    requires ascend { SpansAscend 0 cuts.now len }
    requires fits { FitsIn len cuts.now }
    requires new { new_len ≡ spliced_len len cuts.now }
    requires old_small { len < 2 ^ 63 }
    requires new_small { new_len < 2 ^ 63 }
    ensures patches { IfOk result (λ found. IfSome found (λ ps. ps ≡ flat_map patch_of cuts.now)) }
    ensures rules { IfOk result (λ found. IfSome found (λ ps. FewRules len new_len ps)) }
    ensures none { IfOk result (λ found. IfNone found (IsTooMuch (flat_map patch_of cuts.now))) }
{
    match patches_of(alloc, cuts)? {
        None => Ok(None),
        Some(patches) => Ok(Some(patches)),
    }
}
