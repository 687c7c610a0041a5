// The spans of an edit with those of the form's size and pad.
ghost use Rattle.std.specs.Prelude.{◌≡◌, ◌≤◌, ◌<◌, ◌+◌, ◌^◌, false, replicate, IfOk};
ghost use Rattle.wave_plan.specs.Framed.{found_list, framed, pad_cuts};

use crate::frame::Frame;
use part_tree::{Bytes, NoMemory, Span};
use std::alloc::Global;
use unit_plan::{CutAt, size_cut};

// So many zeros: one, or none.
fn pad_bytes(alloc: Global, len: u64) -> Result<Bytes, NoMemory>
    requires { len ≤ 1 }
    ensures { IfOk result (λ bytes. bytes ≡ replicate len 0) }
{
    if len == 1 {
        let bytes = Bytes::new(alloc, &[0])?;
        return Ok(bytes);
    }
    let bytes = Bytes::new(alloc, &[])?;
    Ok(bytes)
}

/// The span of the form's pad, where there is one before or after.
pub fn pad_cut(alloc: Global, frame: &Frame, size: u64) -> Result<Option<CutAt>, NoMemory>
    requires { 8 + frame.now.size + frame.now.pad ≤ frame.now.len }
    ensures { IfOk result (λ found. found_list found ≡ pad_cuts frame.now size) }
{
    let len = frame.pad_after(size);
    if frame.pad == 0 && len == 0 {
        return Ok(None);
    }
    let bytes = pad_bytes(alloc, len)?;
    Ok(Some(CutAt {
        span: Span {
            at: 8 + frame.size,
            len: frame.pad,
        },
        bytes,
        keep: 0,
    }))
}

/// The spans of an edit that gives a form this size: the units', and where it is another size than before, the size
/// and the form's pad.
pub fn framed(
    alloc: Global,
    frame: &Frame,
    size: u64,
    units: Vec<CutAt>,
) -> Result<Vec<CutAt>, NoMemory>
    requires inside { 8 + frame.now.size + frame.now.pad ≤ frame.now.len }
    requires small { frame.now.wide ≡ false → size < 2 ^ 32 }
    ensures { IfOk result (λ cuts. cuts.items ≡ framed frame.now size units.items) }
{
    let mut cuts = units;
    if size == frame.size {
        return Ok(cuts);
    }
    let first = size_cut(alloc, frame.wide, size)?;
    match cuts.insert(0, first) {
        Err(_) => return Err(NoMemory),
        Ok(()) => {}
    }
    match pad_cut(alloc, frame, size)? {
        None => Ok(cuts),
        Some(pad) => {
            match cuts.push(pad) {
                Err(_) => return Err(NoMemory),
                Ok(()) => {}
            }
            Ok(cuts)
        }
    }
}
