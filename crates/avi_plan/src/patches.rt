// The patches that make a new file in place.
ghost use Rattle.std.specs.Prelude.{◌≡◌, ◌≤◌, ◌<◌, ◌+◌, ◌-◌, ◌++◌, ◌^◌, length, true, false, IfOk, IfSome, IfNone, OnOk};
ghost use Rattle.part_tree.specs.Patches.{FewRules, all_bytes};
ghost use Rattle.carrier_model.specs.Room.{patch};
ghost use Rattle.unit_plan.specs.Cuts.{SpansAscend};
ghost use Rattle.unit_plan.specs.Sized.{IsTooMuch, spliced_len};
ghost use Rattle.avi_plan.specs.Patched.{FitsOn, placed_patches};

use part_tree::{Bytes, NoMemory, Patch, Patches};
use std::alloc::Global;
use unit_plan::CutAt;

const MOST_PATCHES: usize = 65_536;

const MOST_BYTES: u64 = 16_777_216;

// Patches so far, and how many bytes they have: of the spans before the byte `from` of the old file, which stands at the byte `to`
// of the new one.
#[derive(Drop)]
pub struct Patched {
    pub patches: Vec<Patch>,
    pub total: u64,
    pub from: u64,
    pub to: u64,
}

impl Patched {
    // Where the bytes of the next span stand. None is taken back, and no memory holds a file that 64 bits don't count.
    fn pass(&mut self, cut: &CutAt) -> Result<u64, NoMemory>
        ensures at { IfOk result (λ at. at ≡ self.old.to + (cut.now.span.at - self.old.from)) }
        ensures from { OnOk result (self.new.from ≡ cut.now.span.at + cut.now.span.len) }
        ensures to { OnOk result (self.new.to
            ≡ self.old.to + (cut.now.span.at - self.old.from) + (length cut.now.bytes + cut.now.keep)) }
        ensures patches { self.new.patches ≡ self.old.patches }
        ensures total { self.new.total ≡ self.old.total }
    {
        let Some(len) = cut.span.at.checked_sub(self.from) else {
            return Err(NoMemory);
        };
        let Some(at) = self.to.checked_add(len) else {
            return Err(NoMemory);
        };
        let bytes = cut.bytes.as_slice().len() as u64;
        let Some(now) = bytes.checked_add(cut.keep) else {
            return Err(NoMemory);
        };
        let Some(next) = at.checked_add(now) else {
            return Err(NoMemory);
        };
        let Some(end) = cut.span.at.checked_add(cut.span.len) else {
            return Err(NoMemory);
        };
        self.to = next;
        self.from = end;
        Ok(at)
    }

    // These bytes at a place, unless that is too much for a journal. No bytes are no patch.
    fn push(&mut self, alloc: Global, at: u64, bytes: &[u8]) -> Result<bool, NoMemory>
        requires few { length self.old.patches.items ≤ 65536 }
        requires small { self.old.total ≤ 2 ^ 24 }
        requires sum { all_bytes self.old.patches.items ≡ self.old.total }
        ensures more { IfOk result (λ fits. fits ≡ true
            → self.new.patches.items ≡ self.old.patches.items ++ patch at bytes.now) }
        ensures sum { IfOk result (λ fits. fits ≡ true → all_bytes self.new.patches.items ≡ self.new.total) }
        ensures few { IfOk result (λ fits. fits ≡ true → length self.new.patches.items ≤ 65536) }
        ensures small { IfOk result (λ fits. fits ≡ true → self.new.total ≤ 2 ^ 24) }
        ensures none { IfOk result (λ fits. fits ≡ false → IsTooMuch (self.old.patches.items ++ patch at bytes.now)) }
        ensures from { self.new.from ≡ self.old.from }
        ensures to { self.new.to ≡ self.old.to }
    {
        if bytes.is_empty() {
            return Ok(true);
        }
        if self.patches.len() == MOST_PATCHES {
            return Ok(false);
        }
        let total = self.total + bytes.len() as u64;
        if total > MOST_BYTES {
            return Ok(false);
        }
        let copy = Bytes::new(alloc, bytes)?;
        match self.patches.push(Patch { at, bytes: copy }) {
            Err(_) => return Err(NoMemory),
            Ok(()) => {}
        }
        self.total = total;
        Ok(true)
    }
}

// The patches of spans, or none where these are too much for a journal.
fn patches_of(alloc: Global, cuts: &[CutAt]) -> Result<Option<Patches>, NoMemory>
    ensures patches { IfOk result (λ found. IfSome found (λ ps. ps ≡ placed_patches cuts.now)) }
    ensures few { IfOk result (λ found. IfSome found (λ ps. length ps ≤ 65536)) }
    ensures small { IfOk result (λ found. IfSome found (λ ps. all_bytes ps ≤ 2 ^ 24)) }
    ensures none { IfOk result (λ found. IfNone found (IsTooMuch (placed_patches cuts.now))) }
{
    let mut patched = Patched {
        patches: Vec::new(alloc),
        total: 0,
        from: 0,
        to: 0,
    };
    'cuts: for cut in cuts {
        let at = patched.pass(cut)?;
        let fits = patched.push(alloc, at, cut.bytes.as_slice())?;
        if !fits {
            return Ok(None);
        }
    }
    Ok(Some(Patches::new(patched.patches)))
}

/// The patches in place of spans of a file of `len` bytes that fit there, where it has `new_len` bytes then. None where they
/// are more than 65,536 or have more than 16 MiB.
pub fn in_place(
    alloc: Global,
    cuts: &[CutAt],
    len: u64,
    new_len: u64,
) -> Result<Option<Patches>, NoMemory>
    requires ascend { SpansAscend 0 cuts.now len }
    requires fits { FitsOn len cuts.now }
    requires new { new_len ≡ spliced_len len cuts.now }
    requires old_small { len < 2 ^ 63 }
    requires new_small { new_len < 2 ^ 63 }
    ensures patches { IfOk result (λ found. IfSome found (λ ps. ps ≡ placed_patches cuts.now)) }
    ensures rules { IfOk result (λ found. IfSome found (λ ps. FewRules len new_len ps)) }
    ensures none { IfOk result (λ found. IfNone found (IsTooMuch (placed_patches cuts.now))) }
{
    match patches_of(alloc, cuts)? {
        None => Ok(None),
        Some(patches) => Ok(Some(patches)),
    }
}
