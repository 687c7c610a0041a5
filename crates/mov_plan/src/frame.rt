// What stands round the atoms of `moov`: its header, and what is behind it in the file.
ghost use Rattle.std.specs.Prelude.{◌≡◌, ◌≤◌, ◌<◌, ◌+◌, ◌-◌, ◌^◌, ℕ, List, IfOk};
ghost use Rattle.mov_plan.specs.Frame.{size_cuts, found_list};

use crate::place::Behind;
use part_tree::{Bytes, NoMemory, Span};
use qt_atoms::SizeForm;
use std::alloc::Global;
use unit_plan::CutAt;

/// `moov` in its file, in bytes: the place and the form of its header, where its atoms begin and end, how many bytes are left in
/// it behind them, what stands behind its atoms and behind itself, and how long the file is. `others` counts the atoms of the
/// file, `moov` among them, without the padding directly behind it.
#[derive(Clone, Copy, Debug, PartialEq, Eq)]
pub struct MoovAt {
    pub at: u64,
    pub form: SizeForm,
    pub from: u64,
    pub end: u64,
    pub left: u64,
    pub behind: Behind,
    pub others: u64,
    pub len: u64,
}

impl MoovAt {
    // How many bytes its body has.
    fn size(&self) -> u64
        requires order { self.now.from ≤ self.now.end }
        requires small { self.now.end + self.now.left < 2 ^ 63 }
        ensures { result ≡ (self.now.end - self.now.from) + self.now.left }
    {
        self.end - self.from + self.left
    }
}

/// The span of the size of `moov`, where it has a body of `size` bytes. None where that is its size already, or where the header
/// tells none.
pub fn size_cut(alloc: Global, moov: &MoovAt, size: u64) -> Result<Option<CutAt>, NoMemory>
    requires order { moov.now.from ≤ moov.now.end }
    requires small { moov.now.end + moov.now.left < 2 ^ 63 }
    requires at { moov.now.at ≤ moov.now.end }
    requires few { size ≤ 2 ^ 26 }
    ensures { IfOk result (λ found. found_list found ≡ size_cuts moov.now size) }
{
    if size == moov.size() {
        return Ok(None);
    }
    match moov.form {
        SizeForm::ToEnd => Ok(None),
        SizeForm::Short => {
            let bytes = Bytes::new(alloc, &(size as u32 + 8).to_be_bytes())?;
            Ok(Some(CutAt {
                span: Span {
                    at: moov.at,
                    len: 4,
                },
                bytes,
                keep: 0,
            }))
        }
        SizeForm::Long => {
            let bytes = Bytes::new(alloc, &(size + 16).to_be_bytes())?;
            Ok(Some(CutAt {
                span: Span {
                    at: moov.at + 8,
                    len: 8,
                },
                bytes,
                keep: 0,
            }))
        }
    }
}
