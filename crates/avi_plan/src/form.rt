// What stands round the chunks of the first form.
ghost use Rattle.std.specs.Prelude.{◌≡◌, ◌≤◌, ◌<◌, ◌+◌, ◌∷◌, ◌++◌, ◌^◌, [], ℕ, List, IfOk, Bool, true, if◌then◌else◌, ◌==◌};
ghost use Rattle.me_bytes.specs.Bytes.{IsBytes};
ghost use Rattle.me_disk.specs.Holds.{Holds};
ghost use Rattle.me_disk.specs.Steps.{HasCause, ReadsOnly};
ghost use Rattle.unit_plan.specs.Sized.{size_at};
ghost use Rattle.avi_plan.specs.Form.{IsFormOf, IsSoundForm, keeps_pad, pad_after, pad_now, pads, sizes};

use me_disk::{Depot, DepotFault, Slot};
use part_tree::{Bytes, NoMemory, Span};
use std::alloc::Global;
use unit_plan::{CutAt, size_cut};

/// The first form of a file: the length of the file and of the form's body in bytes, and how many parts the file has that are
/// no chunks of the form and stand in none of its lists of fields.
#[derive(Clone, Copy, Debug, PartialEq, Eq)]
pub struct FormAt {
    pub len: u64,
    pub size: u64,
    pub others: u64,
}

impl FormAt {
    /// The length of the form's pad.
    pub fn pad(&self) -> u64
        requires { IsSoundForm self.now }
        ensures { result ≡ pad_now self.now }
    {
        if self.size % 2 == 1 && self.len > 8 + self.size {
            1
        } else {
            0
        }
    }

    /// The length of the form's pad with a body of this length: it stays where that does, and else it is there where the
    /// length is odd and something follows the form.
    pub fn pad_after(&self, size: u64) -> u64
        requires { IsSoundForm self.now }
        ensures { result ≡ pad_after self.now size }
    {
        let pad = self.pad();
        if size == self.size {
            return pad;
        }
        if size % 2 == 1 && self.len > 8 + self.size + pad {
            1
        } else {
            0
        }
    }
}

/// Whether the form's pad is the same bytes with a body of this length.
pub fn pad_stays<D: Depot>(depot: &mut D, form: &FormAt, size: u64) -> Result<bool, DepotFault>
    requires sound { IsSoundForm form.now }
    requires form { (b : List ℕ) → Holds (D.disk depot.old) b → IsFormOf b form.now }
    ensures stays { (b : List ℕ) → Holds (D.disk depot.old) b → IsBytes b
        → IfOk result (λ t. t ≡ keeps_pad b form.now size) }
    ensures same { size ≡ form.now.size → IfOk result (λ t. t ≡ true) }
    ensures last { form.now.len ≡ 8 + form.now.size → IfOk result (λ t. t ≡ true) }
    ensures reads { ReadsOnly (D.disk depot.old) (D.disk depot.new) }
    ensures cause { HasCause (D.disk depot.old) (D.disk depot.new) result }
{
    if size == form.size {
        return Ok(true);
    }
    let pad = form.pad();
    if pad != form.pad_after(size) {
        return Ok(false);
    }
    if pad == 0 {
        return Ok(true);
    }
    let mut byte = [0u8; 1];
    depot.read_at(Slot::Main, 8 + form.size, &mut byte)?;
    Ok(byte[0] == 0)
}

// So many zeros: one, or none.
fn zeros(alloc: Global, len: u64) -> Result<Bytes, NoMemory>
    requires { len ≤ 1 }
    ensures { IfOk result (λ bytes. bytes ≡ (if len == 1 then 0 ∷ [] else [])) }
{
    if len == 1 {
        let bytes = Bytes::new(alloc, &[0])?;
        return Ok(bytes);
    }
    let bytes = Bytes::new(alloc, &[])?;
    Ok(bytes)
}

/// Spans with the one of the form's pad behind them, unless the pad stays.
pub fn with_pad(
    alloc: Global,
    form: &FormAt,
    size: u64,
    stays: bool,
    units: Vec<CutAt>,
) -> Result<Vec<CutAt>, NoMemory>
    requires { IsSoundForm form.now }
    ensures { IfOk result (λ cuts. cuts.items ≡ units.items ++ pads form.now size stays) }
{
    let mut cuts = units;
    if stays {
        return Ok(cuts);
    }
    let bytes = zeros(alloc, form.pad_after(size))?;
    let span = Span {
        at: 8 + form.size,
        len: form.pad(),
    };
    match cuts.push(CutAt {
        span,
        bytes,
        keep: 0,
    }) {
        Err(_) => Err(NoMemory),
        Ok(()) => Ok(cuts),
    }
}

/// Spans with the one of the form's size before them, where it changes.
pub fn with_size(
    alloc: Global,
    form: &FormAt,
    size: u64,
    cuts: Vec<CutAt>,
) -> Result<Vec<CutAt>, NoMemory>
    requires { size < 2 ^ 32 }
    ensures { IfOk result (λ all. all.items ≡ sizes form.now size ++ cuts.items) }
{
    let mut cuts = cuts;
    if size == form.size {
        return Ok(cuts);
    }
    let first = size_cut(alloc, false, size)?;
    match cuts.insert(0, first) {
        Err(_) => Err(NoMemory),
        Ok(()) => Ok(cuts),
    }
}
