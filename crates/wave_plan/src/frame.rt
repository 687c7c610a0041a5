// What stands round the chunks of a form in its file.
ghost use Rattle.std.specs.Prelude.{◌≡◌, ◌≤◌, ◌<◌, ◌+◌, ◌-◌, ◌%◌, ◌^◌, min, true, ℕ, List, IfOk, length};
ghost use Rattle.me_bytes.specs.Bytes.{IsBytes};
ghost use Rattle.me_disk.specs.Steps.{HasCause, ReadsOnly};
ghost use Rattle.me_disk.specs.Holds.{Holds};
ghost use Rattle.wave_model.specs.Wave.{is_wide, wave_of};
ghost use Rattle.wave_model.specs.New.{children_at};
ghost use Rattle.wave_plan.specs.Frame.{IsFormOf, IsFrame, IsRound, IsSoundForm, pad_after};

use me_disk::{Depot, DepotFault, Slot};

/// A form in its file: whether it is one of those that have `ds64`, the length of the file, and the byte where the form ends.
#[derive(Clone, Copy, Debug, PartialEq, Eq)]
pub struct FormAt {
    pub big: bool,
    pub len: u64,
    pub end: u64,
}

/// What stands round the chunks of a form: whether the form is one of those that have `ds64`, whether its size stands there,
/// the length of the file, the form's size, and the length of its pad, all in bytes.
#[derive(Clone, Copy, Debug, PartialEq, Eq)]
pub struct Frame {
    pub big: bool,
    pub wide: bool,
    pub len: u64,
    pub size: u64,
    pub pad: u64,
}

// Whether the form's size stands in `ds64`, which ends at the byte `from` or before it: where the header's own field is FFFFFFFF.
fn reads_wide<D: Depot>(depot: &mut D, form: FormAt, from: u64) -> Result<bool, DepotFault>
    requires form { (b : List ℕ) → Holds (D.disk depot.old) b → IsFormOf b form }
    ensures wide { (b : List ℕ) → Holds (D.disk depot.old) b → IsBytes b → from ≡ children_at (wave_of b)
        → IfOk result (λ w. w ≡ is_wide b) }
    ensures table { IfOk result (λ w. w ≡ true → 28 ≤ from) }
    ensures reads { ReadsOnly (D.disk depot.old) (D.disk depot.new) }
    ensures cause { HasCause (D.disk depot.old) (D.disk depot.new) result }
{
    if !form.big {
        return Ok(false);
    }
    if from < 28 {
        return Ok(false);
    }
    let mut field = [0u8; 4];
    depot.read_at(Slot::Main, 4, &mut field)?;
    Ok(u32::from_le_bytes(field) == u32::MAX)
}

/// What stands round the chunks of a form, of which the first one behind `ds64` begins at the byte `from`.
pub fn read_frame<D: Depot>(depot: &mut D, form: FormAt, from: u64) -> Result<Frame, DepotFault>
    requires form { (b : List ℕ) → Holds (D.disk depot.old) b → IsFormOf b form }
    requires sound { IsSoundForm form }
    ensures frame { (b : List ℕ) → Holds (D.disk depot.old) b → IsBytes b → from ≡ children_at (wave_of b)
        → IfOk result (λ f. IsFrame b f) }
    ensures round { IfOk result (λ f. (end : ℕ) → 12 ≤ from → end ≤ form.end → IsRound from end f) }
    ensures len { IfOk result (λ f. f.len ≡ form.len) }
    ensures reads { ReadsOnly (D.disk depot.old) (D.disk depot.new) }
    ensures cause { HasCause (D.disk depot.old) (D.disk depot.new) result }
{
    let wide = reads_wide(depot, form, from)?;
    let size = form.end - 8;
    let pad = pad_of(size, form.len - form.end);
    Ok(Frame {
        big: form.big,
        wide,
        len: form.len,
        size,
        pad,
    })
}

// The length of a form's pad, where so many bytes are behind the form.
fn pad_of(size: u64, behind: u64) -> u64
    ensures { result ≡ min (size % 2) behind }
{
    if size % 2 == 1 && behind > 0 { 1 } else { 0 }
}

impl Frame {
    /// The length of the form's pad with another size: it is there where the size is odd and something follows the form.
    pub fn pad_after(&self, size: u64) -> u64
        requires { 8 + self.now.size + self.now.pad ≤ self.now.len }
        ensures { result ≡ pad_after self.now size }
    {
        let tail = self.len - (8 + self.size + self.pad);
        if size % 2 == 1 && tail > 0 { 1 } else { 0 }
    }
}
