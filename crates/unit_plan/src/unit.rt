// A unit of an edit: a run of edited places with only padding between them, and the padding that fills its slot.
ghost use Rattle.std.specs.Prelude.{◌≡◌, ◌≤◌, ◌<◌, ◌+◌, ◌-◌, ◌%◌, ◌^◌, ◌&&◌, ℕ, List, length, IfOk, IfSome, IfNone, Bool, true, false, Some};
ghost use Rattle.container_model.specs.Windows.{window};
ghost use Rattle.carrier_model.specs.Info.{riff_fill};
ghost use Rattle.carrier_model.specs.Room.{fits_slot, leaves_padding};
ghost use Rattle.unit_plan.specs.Rows.{closed, open_next, unit_at};
ghost use Rattle.unit_plan.specs.Cuts.{BeginsBefore, IsExact, filled_in, open_changed, open_in, open_start, padding_in};

use crate::cut::CutAt;
use part_tree::{Bytes, NoMemory, Span};
use std::alloc::Global;

const MOST_PADDING: u64 = 4_294_967_296;

/// A unit that has begun: the place where its slot begins, and its spelling so far, with a pad that it brings.
#[derive(Debug, Drop)]
pub struct OpenUnit {
    pub start: u64,
    pub spelled: Vec<u8>,
}

/// A unit with its padding: what stands in its slot, whether it fits there, and how many parts its padding is.
#[derive(Debug, Drop)]
pub struct FilledUnit {
    pub cut: CutAt,
    pub fits: bool,
    pub parts: u64,
}

// Whether a padding with its header fills so many bytes.
fn leaves_padding(free: u64) -> bool
    ensures { result ≡ leaves_padding free }
{
    free % 2 == 0 && (free >= 8 && free < MOST_PADDING)
}

// Whether a unit's spelling fits a slot of so many bytes in place, by whether the slot ends the file.
fn fits_slot(ends: bool, slot: u64, spelled: u64) -> bool
    ensures { result ≡ fits_slot ends slot spelled }
{
    if spelled == slot || ends {
        return true;
    }
    if slot < spelled {
        return false;
    }
    leaves_padding(slot - spelled)
}

// The padding of a unit: none, or so many of its slot's last bytes behind a header of eight.
fn padding(ends: bool, slot: u64, spelled: u64) -> Option<u64>
    requires small { slot < 2 ^ 63 }
    ensures fill { (file last : Bool) (bytes : List ℕ) → (file && last) ≡ ends → length bytes ≡ slot
        → riff_fill file last bytes spelled ≡ padding_in bytes result }
    ensures even { IfSome result (λ n. n % 2 ≡ 0) }
    ensures fits { IfSome result (λ n. n < 2 ^ 32) }
    ensures inside { IfSome result (λ n. n ≤ slot) }
    ensures some { IfSome result (λ n. ends ≡ false) }
    ensures none { IfNone result (ends ≡ false → slot ≤ spelled) }
    ensures exact { IfSome result (λ n. fits_slot ends slot spelled ≡ true → spelled + 8 + n ≡ slot) }
{
    if slot <= spelled || ends {
        return None;
    }
    let gap = slot - spelled;
    if gap >= MOST_PADDING {
        return Some(0);
    }
    if gap % 2 == 0 {
        if gap >= 8 {
            return Some(gap - 8);
        }
        return Some(0);
    }
    if gap >= 9 {
        return Some(gap - 7);
    }
    Some(0)
}

// A unit is whole at a place, where its slot ends.
pub fn fill_unit(unit: OpenUnit, end: u64, ends: bool) -> Result<FilledUnit, NoMemory>
    requires order { unit.start ≤ end }
    requires small { end < 2 ^ 63 }
    ensures outcome { IfOk result (λ f. (b : List ℕ) (file last : Bool) → end ≤ length b → (file && last) ≡ ends
        → filled_in b f ≡ closed file last (unit_at unit.start (window b unit.start end) unit.spelled.items)) }
    ensures place { IfOk result (λ f. (f.cut.span.at ≡ unit.start) × (f.cut.span.at + f.cut.span.len ≡ end)
        × (f.cut.keep ≤ f.cut.span.len)) }
    ensures exact { IfOk result (λ f. ends ≡ false → f.fits ≡ true → IsExact f.cut) }
    ensures ending { IfOk result (λ f. ends ≡ true → f.cut.keep ≡ 0) }
{
    let OpenUnit { start, spelled } = unit;
    let span = Span {
        at: start,
        len: end - start,
    };
    let mut bytes = spelled;
    let len = bytes.len() as u64;
    let fits = fits_slot(ends, span.len, len);
    match padding(ends, span.len, len) {
        None => Ok(FilledUnit {
            cut: CutAt {
                span,
                bytes: Bytes::of(bytes),
                keep: 0,
            },
            fits,
            parts: 0,
        }),
        Some(keep) => {
            bytes.extend_from_slice(b"JUNK")?;
            bytes.extend_from_slice(&(keep as u32).to_le_bytes())?;
            Ok(FilledUnit {
                cut: CutAt {
                    span,
                    bytes: Bytes::of(bytes),
                    keep,
                },
                fits,
                parts: 1,
            })
        }
    }
}

// A unit that brings the pad of the chunk before it, where that lacks it and more follows.
pub fn begin_unit(
    alloc: Global,
    lacks_pad: bool,
    more: bool,
    at: u64,
) -> Result<Option<OpenUnit>, NoMemory>
    ensures unit { IfOk result (λ o. (b : List ℕ) → open_in b at o ≡ open_next (lacks_pad && more) at) }
    ensures before { IfOk result (λ o. BeginsBefore o at) }
    ensures start { IfOk result (λ o. open_start o at ≡ at) }
{
    if !(lacks_pad & more) {
        return Ok(None);
    }
    let spelled = Vec::from_slice(alloc, &[0u8])?;
    Ok(Some(OpenUnit { start: at, spelled }))
}

// A place is edited.
pub fn change_unit(
    alloc: Global,
    unit: Option<OpenUnit>,
    at: u64,
    now: &Bytes,
) -> Result<OpenUnit, NoMemory>
    requires order { BeginsBefore unit at }
    ensures unit { IfOk result (λ u. (b : List ℕ) (next : ℕ) → at ≤ next → next ≤ length b
        → open_in b next (Some u) ≡ open_changed at (open_in b at unit) (window b at next) now.now) }
    ensures start { IfOk result (λ u. u.start ≡ open_start unit at) }
{
    match unit {
        None => {
            let spelled = Vec::from_slice(alloc, now.as_slice())?;
            Ok(OpenUnit { start: at, spelled })
        }
        Some(OpenUnit { start, spelled }) => {
            let mut spelled = spelled;
            spelled.extend_from_slice(now.as_slice())?;
            Ok(OpenUnit { start, spelled })
        }
    }
}
