// A unit of an edit: a run of edited places with only padding between them, and the padding that fills its slot.
ghost use Rattle.std.specs.Prelude.{◌≡◌, ◌≤◌, ◌<◌, ◌+◌, ◌-◌, ◌^◌, ℕ, List, length, IfOk, IfSome, IfNone, true, false, Some, if◌then◌else◌};
ghost use Rattle.container_model.specs.Windows.{window};
ghost use Rattle.mov_model.specs.New.{fill};
ghost use Rattle.mov_model.specs.Room.{unit_fits};
ghost use Rattle.unit_plan.specs.Cuts.{IsExact};
ghost use Rattle.mov_plan.specs.Rows.{closed, unit_at};
ghost use Rattle.mov_plan.specs.Places.{BeginsBefore, filled_in, open_changed, open_in, open_start, padding_in};

use part_tree::{Bytes, NoMemory, Span};
use std::alloc::Global;
use unit_plan::CutAt;

const MOST_PADDING: u64 = 4_294_967_296;

/// A unit that has begun: the place where its slot begins, and its spelling so far.
#[derive(Debug, Drop)]
pub struct OpenUnit {
    pub start: u64,
    pub spelled: Vec<u8>,
}

/// A unit with its padding: what stands in its slot, whether it fits there, how many atoms its padding is, and how many bytes of
/// it stand in `moov`.
#[derive(Debug, Drop)]
pub struct FilledUnit {
    pub cut: CutAt,
    pub fits: bool,
    pub parts: u64,
    pub inner: u64,
}

// Whether a unit's spelling fits a slot of so many bytes in place, by whether the slot ends the file.
fn fits_slot(ends: bool, slot: u64, spelled: u64) -> bool
    ensures { result ≡ unit_fits ends slot spelled }
{
    if spelled == slot || ends {
        return true;
    }
    if slot < spelled {
        return false;
    }
    slot - spelled >= 8 && slot - spelled < MOST_PADDING
}

// The padding of a unit: none, or so many of its slot's last bytes behind a header of eight.
fn padding(ends: bool, slot: u64, spelled: u64) -> Option<u64>
    ensures fill { (bytes : List ℕ) → length bytes ≡ slot → fill ends true bytes spelled ≡ padding_in bytes result }
    ensures fits { IfSome result (λ n. n + 8 < 2 ^ 32) }
    ensures inside { IfSome result (λ n. n ≤ slot) }
    ensures some { IfSome result (λ n. ends ≡ false) }
    ensures none { IfNone result (ends ≡ false → slot ≤ spelled) }
    ensures exact { IfSome result (λ n. unit_fits ends slot spelled ≡ true → spelled + 8 + n ≡ slot) }
{
    if slot <= spelled || ends {
        return None;
    }
    let gap = slot - spelled;
    if gap >= 8 && gap < MOST_PADDING {
        return Some(gap - 8);
    }
    Some(0)
}

/// A unit is whole, with a slot up to the byte `end`. It is told whether the slot ends the file, and whether the padding stands
/// behind `moov`.
pub fn fill_unit(unit: OpenUnit, end: u64, ends: bool, hangs: bool) -> Result<FilledUnit, NoMemory>
    requires order { unit.start ≤ end }
    requires small { end < 2 ^ 63 }
    ensures outcome { IfOk result (λ f. (b : List ℕ) → end ≤ length b
        → filled_in b f ≡ closed ends hangs (unit_at unit.start (window b unit.start end) unit.spelled.items)) }
    ensures place { IfOk result (λ f. (f.cut.span.at ≡ unit.start) × (f.cut.span.at + f.cut.span.len ≡ end)
        × (f.cut.keep ≤ f.cut.span.len)) }
    ensures exact { IfOk result (λ f. ends ≡ false → f.fits ≡ true → IsExact f.cut) }
    ensures ending { IfOk result (λ f. ends ≡ true → f.cut.keep ≡ 0) }
{
    let OpenUnit { start, spelled } = unit;
    let span = Span {
        at: start,
        len: end - start,
    };
    let mut bytes = spelled;
    let len = bytes.len() as u64;
    let fits = fits_slot(ends, span.len, len);
    match padding(ends, span.len, len) {
        None => Ok(FilledUnit {
            cut: CutAt {
                span,
                bytes: Bytes::of(bytes),
                keep: 0,
            },
            fits,
            parts: 0,
            inner: len,
        }),
        Some(keep) => {
            bytes.extend_from_slice(&(keep as u32 + 8).to_be_bytes())?;
            bytes.extend_from_slice(b"free")?;
            Ok(FilledUnit {
                cut: CutAt {
                    span,
                    bytes: Bytes::of(bytes),
                    keep,
                },
                fits,
                parts: 1,
                inner: inner_len(hangs, len, keep),
            })
        }
    }
}

// How many bytes of a unit stand in `moov`: its spelling, and its padding where that doesn't stand behind `moov`.
fn inner_len(hangs: bool, spelled: u64, keep: u64) -> u64
    requires short { spelled < 2 ^ 63 }
    requires few { keep < 2 ^ 32 }
    ensures { result ≡ (if hangs then spelled else spelled + 8 + keep) }
{
    if hangs { spelled } else { spelled + 8 + keep }
}

/// A place is edited.
pub fn change_unit(
    alloc: Global,
    unit: Option<OpenUnit>,
    at: u64,
    now: &Bytes,
) -> Result<OpenUnit, NoMemory>
    requires order { BeginsBefore unit at }
    ensures unit { IfOk result (λ u. (b : List ℕ) (next : ℕ) → at ≤ next → next ≤ length b
        → open_in b next (Some u) ≡ open_changed at (open_in b at unit) (window b at next) now.now) }
    ensures start { IfOk result (λ u. u.start ≡ open_start unit at) }
{
    match unit {
        None => {
            let spelled = Vec::from_slice(alloc, now.as_slice())?;
            Ok(OpenUnit { start: at, spelled })
        }
        Some(OpenUnit { start, spelled }) => {
            let mut spelled = spelled;
            spelled.extend_from_slice(now.as_slice())?;
            Ok(OpenUnit { start, spelled })
        }
    }
}
