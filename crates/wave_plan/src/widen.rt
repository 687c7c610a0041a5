// A RIFF form that becomes RF64: what stands in its header, its `ds64` and the size of its `data`.
ghost use Rattle.std.specs.Prelude.{◌≡◌, ◌≤◌, ◌+◌, ◌/◌, ◌++◌, ◌^◌, ◌↔◌, true, ℕ, List, IfOk, OnOk, IsTrue, length, codes};
ghost use Rattle.std.specs.Int.{w32, to_le_bytes};
ghost use Rattle.me_bytes.specs.Bytes.{IsBytes};
ghost use Rattle.part_tree.specs.declared.field.EditItem.{EditItem};
ghost use Rattle.part_tree.specs.Plans.{Belongs, CanRun};
ghost use Rattle.field_model.specs.KindReads.{PlansKind};
ghost use Rattle.unit_plan.specs.Cuts.{SpansAscend};
ghost use Rattle.wave_model.specs.Edited.{Supported};
ghost use Rattle.wave_model.specs.Kind.{wave_kind};
ghost use Rattle.wave_model.specs.New.{new_size_of};
ghost use Rattle.wave_model.specs.Widen.{ds64_body, widens};
ghost use Rattle.wave_plan.specs.Frame.{IsFrame};
ghost use Rattle.wave_plan.specs.Planned.{ComesTo, IsListed, StandsIn};
ghost use Rattle.wave_plan.specs.Widened.{FitsReserved, IsWideningOf, ds64_at, field_at, front_at, more_bytes, more_parts, place_in, widened, with_cut};

use crate::frame::Frame;
use crate::framed::pad_cut;
use part_tree::{Bytes, NoMemory, Plan, PlanFault, Span};
use std::alloc::Global;
use unit_plan::{CutAt, UnitCuts, new_len, plan_of};

const MOST_PARTS: u64 = 65_536;

const MOST_LEN: u64 = 9_223_372_036_854_775_807;

const LEAST_DS64: u64 = 28;

/// What a form that becomes RF64 tells in its `ds64`: the bytes in the body of the `JUNK` that is reserved for it, directly behind
/// the form's type, the body of `data`, and the bytes of a block.
#[derive(Clone, Copy, Debug, PartialEq, Eq)]
pub struct Widening {
    pub reserved: Option<u64>,
    pub sound: Span,
    pub align: u16,
}

// `ds64` with a body of `len` bytes: the sizes of the form and of `data`, the count of blocks, no rows, and zeros.
fn ds64_bytes(alloc: Global, len: u64, size: u64, sound: u64, count: u64) -> Result<Bytes, NoMemory>
    requires low { 28 ≤ len }
    requires high { len ≤ 2 ^ 24 }
    ensures { IfOk result (λ bytes. bytes ≡ codes "ds64" ++ (to_le_bytes w32 len ++ ds64_body len size sound count)) }
{
    let mut bytes = Vec::from_slice(alloc, b"ds64")?;
    bytes.extend_from_slice(&(len as u32).to_le_bytes())?;
    bytes.extend_from_slice(&size.to_le_bytes())?;
    bytes.extend_from_slice(&sound.to_le_bytes())?;
    bytes.extend_from_slice(&count.to_le_bytes())?;
    bytes.extend_from_slice(&0u32.to_le_bytes())?;
    let zeros = vec![in alloc; 0u8; (len - LEAST_DS64) as usize]?;
    bytes.extend_from_slice(&zeros)?;
    Ok(Bytes::of(bytes))
}

// The count of blocks of `data`.
fn count_of(widening: &Widening) -> u64
    ensures { result ≡ widening.now.sound.len / widening.now.align }
{
    widening
        .sound
        .len
        .checked_div(u64::from(widening.align))
        .unwrap_or(0)
}

// The span of `ds64` with the size of the form: that of the reserved `JUNK`, whose pad stays, or none at the same place.
fn ds64_cut(alloc: Global, widening: &Widening, size: u64) -> Result<CutAt, NoMemory>
    requires { FitsReserved widening.now.reserved }
    ensures { IfOk result (λ k. k ≡ ds64_at widening.now size) }
{
    let sound = widening.sound.len;
    let count = count_of(widening);
    let Some(len) = widening.reserved else {
        let bytes = ds64_bytes(alloc, LEAST_DS64, size, sound, count)?;
        return Ok(CutAt {
            span: Span { at: 12, len: 0 },
            bytes,
            keep: 0,
        });
    };
    let bytes = ds64_bytes(alloc, len, size, sound, count)?;
    Ok(CutAt {
        span: Span {
            at: 12,
            len: 8 + len + len % 2,
        },
        bytes,
        keep: len % 2,
    })
}

// The span of the form's identifier and of its own size, which stands in `ds64` now.
fn front_cut(alloc: Global) -> Result<CutAt, NoMemory>
    ensures { IfOk result (λ k. k ≡ front_at) }
{
    let bytes = Bytes::new(alloc, b"RF64\xff\xff\xff\xff")?;
    Ok(CutAt {
        span: Span { at: 0, len: 8 },
        bytes,
        keep: 0,
    })
}

// The span of the size of `data`, which stands in `ds64` now.
fn field_cut(alloc: Global, widening: &Widening) -> Result<CutAt, NoMemory>
    ensures { IfOk result (λ k. k ≡ field_at widening.now) }
{
    let bytes = Bytes::new(alloc, &[255, 255, 255, 255])?;
    Ok(CutAt {
        span: Span {
            at: widening.sound.at.saturating_sub(4),
            len: 4,
        },
        bytes,
        keep: 0,
    })
}

// How many spans begin at a byte or before it, before the first one that begins behind it.
fn place_of(cuts: &[CutAt], at: u64) -> usize
    ensures place { result ≡ place_in at cuts.now }
    ensures inside { result ≤ length cuts.now }
{
    let mut place = 0;
    'cuts: for cut in cuts {
        if cut.span.at > at {
            return place;
        }
        place += 1;
    }
    place
}

// One span more among others: behind those that begin where it does or before.
fn put_cut(cuts: &mut Vec<CutAt>, cut: CutAt) -> Result<(), NoMemory>
    ensures { OnOk result (cuts.new.items ≡ with_cut cut cuts.old.items) }
{
    let place = place_of(cuts, cut.span.at);
    if cuts.insert(place, cut).is_err() {
        return Err(NoMemory);
    }
    Ok(())
}

// The spans of an edit that makes a form RF64: of the header, of `ds64`, of the units with the size of `data`, and of the form's
// pad. Without the change of its form it would have `size` bytes, and has `riff_size` now.
fn widened_cuts(
    alloc: Global,
    frame: &Frame,
    widening: &Widening,
    size: u64,
    riff_size: u64,
    units: Vec<CutAt>,
) -> Result<Vec<CutAt>, NoMemory>
    requires inside { 8 + frame.now.size + frame.now.pad ≤ frame.now.len }
    requires reserved { FitsReserved widening.now.reserved }
    ensures { IfOk result (λ cuts. cuts.items ≡ widened frame.now widening.now size riff_size units.items) }
{
    let mut cuts = units;
    let field = field_cut(alloc, widening)?;
    put_cut(&mut cuts, field)?;
    let table = ds64_cut(alloc, widening, riff_size)?;
    if cuts.insert(0, table).is_err() {
        return Err(NoMemory);
    }
    let front = front_cut(alloc)?;
    if cuts.insert(0, front).is_err() {
        return Err(NoMemory);
    }
    match pad_cut(alloc, frame, size)? {
        None => Ok(cuts),
        Some(pad) => match cuts.push(pad) {
            Err(_) => Err(NoMemory),
            Ok(()) => Ok(cuts),
        },
    }
}

// Whether spans ascend, are disjoint, lie in a file of `len` bytes, and keep no more bytes than they have.
fn ascends(cuts: &[CutAt], len: u64) -> bool
    ensures { IsTrue result ↔ SpansAscend 0 cuts.now len }
{
    let mut at = 0u64;
    'cuts: for cut in cuts {
        if cut.span.at < at || cut.span.len < cut.keep {
            return false;
        }
        let Some(end) = cut.span.at.checked_add(cut.span.len) else {
            return false;
        };
        at = end;
    }
    at <= len
}

// How many parts more there are with `ds64`.
fn more_parts(reserved: Option<u64>) -> u64
    ensures { result ≡ more_parts reserved }
{
    if reserved.is_some() { 0 } else { 1 }
}

// How many bytes more the form has with `ds64`.
fn more_bytes(reserved: Option<u64>) -> u64
    ensures { result ≡ more_bytes reserved }
{
    if reserved.is_some() {
        0
    } else {
        8 + LEAST_DS64
    }
}

/// The plan of an edit that makes a RIFF form RF64, by what its units come to: without the change of the form, it would have `size`
/// bytes. `TooLarge` is the first of these that passes its limit: the parts and the file.
pub fn plan_widened(
    alloc: Global,
    frame: &Frame,
    widening: &Widening,
    size: u64,
    units: UnitCuts,
) -> Result<Plan, PlanFault>
    requires stands { StandsIn frame.now units }
    requires reserved { FitsReserved widening.now.reserved }
    ensures plans { (b : List ℕ) (e : List EditItem) → IsBytes b → Supported b → IsFrame b frame.now
        → IsWideningOf b widening.now → ComesTo b e units → IsListed b e
        → size ≡ new_size_of b e → widens b e ≡ true → PlansKind wave_kind b e result }
    ensures can { IfOk result (λ p. CanRun p) }
    ensures belongs { IfOk result (λ p. (b : List ℕ) → length b ≡ frame.now.len → Belongs p b) }
    ensures reads_nothing { result ≡ Err PlanFault.Depot → ⊥ }
{
    let UnitCuts {
        cuts,
        fits: _,
        parts,
    } = units;
    let Some(parts) = parts.checked_add(more_parts(widening.reserved)) else {
        return Err(PlanFault::Memory);
    };
    if parts > MOST_PARTS {
        return Err(PlanFault::TooLarge {
            size: parts,
            limit: MOST_PARTS,
        });
    }
    let Some(riff_size) = size.checked_add(more_bytes(widening.reserved)) else {
        return Err(PlanFault::Memory);
    };
    let cuts = match widened_cuts(alloc, frame, widening, size, riff_size, cuts) {
        Err(_) => return Err(PlanFault::Memory),
        Ok(cuts) => cuts,
    };
    if !ascends(&cuts, frame.len) {
        return Err(PlanFault::Memory);
    }
    let Some(len) = new_len(&cuts, frame.len) else {
        return Err(PlanFault::Memory);
    };
    if len > MOST_LEN {
        return Err(PlanFault::TooLarge {
            size: len,
            limit: MOST_LEN,
        });
    }
    match plan_of(alloc, &cuts, false, frame.len, len) {
        Err(_) => Err(PlanFault::Memory),
        Ok(plan) => Ok(plan),
    }
}
