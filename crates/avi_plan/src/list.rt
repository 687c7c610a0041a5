// A list of RIFF in a file, and what becomes of its size and its pad where spans in it are replaced.
ghost use Rattle.std.specs.Prelude.{◌≡◌, ◌+◌, ◌-◌, ◌%◌, ◌++◌, ◌==◌, ◌&&◌, IfOk, IfSome};
ghost use Rattle.unit_plan.specs.Cuts.{SpansAscend};
ghost use Rattle.unit_plan.specs.Sized.{spliced_len};
ghost use Rattle.avi_plan.specs.Lists.{IsSoundList, around, keeps_pad, list_cuts, pad_in, pads_of, size_at, size_then, sizes_of};

use part_tree::{Bytes, NoMemory, Span};
use std::alloc::Global;
use unit_plan::{CutAt, new_len};

/// A list: the byte where its header begins, the length of its body with its type, and the byte behind its pad.
#[derive(Clone, Copy, Debug, PartialEq, Eq)]
pub struct ListAt {
    pub at: u64,
    pub size: u64,
    pub next: u64,
}

impl ListAt {
    /// Where its body ends.
    pub fn end(&self) -> u64
        requires { IsSoundList self.now }
        ensures { result ≡ self.now.at + 8 + self.now.size }
    {
        self.at + 8 + self.size
    }

    /// The length of its pad.
    pub fn pad(&self) -> u64
        requires { IsSoundList self.now }
        ensures { result ≡ pad_in self.now }
    {
        self.next - (self.at + 8 + self.size)
    }

    /// Whether its pad stays with a body of this length.
    pub fn keeps_pad(&self, size: u64) -> bool
        requires { IsSoundList self.now }
        ensures { result ≡ keeps_pad self.now size }
    {
        if size % 2 == self.size % 2 {
            return true;
        }
        size % 2 == 0 && self.next == self.at + 8 + self.size
    }

    /// The length of its body where spans in it are replaced. None where 64 bits don't hold the number.
    pub fn new_size(&self, inside: &[CutAt]) -> Option<u64>
        requires sound { IsSoundList self.now }
        requires ascend { SpansAscend (self.now.at + 12) inside.now (self.now.at + 8 + self.now.size) }
        ensures { IfSome result (λ n. n ≡ spliced_len self.now.size inside.now) }
    {
        let end = self.at + 8 + self.size;
        let new_end = new_len(inside, end)?;
        Some(new_end - (self.at + 8))
    }
}

// The span of a list's size, with this size in it.
fn size_span(alloc: Global, list: &ListAt, size: u64) -> Result<CutAt, NoMemory>
    requires { IsSoundList list.now }
    ensures { IfOk result (λ k. k ≡ size_at list.now size) }
{
    let whole = size.to_le_bytes();
    let bytes = Bytes::new(alloc, &[whole[0], whole[1], whole[2], whole[3]])?;
    let span = Span {
        at: list.at + 4,
        len: 4,
    };
    Ok(CutAt {
        span,
        bytes,
        keep: 0,
    })
}

// Spans with the one of a list's size before them, where it changes.
fn with_list_size(
    alloc: Global,
    list: &ListAt,
    size: u64,
    cuts: Vec<CutAt>,
) -> Result<Vec<CutAt>, NoMemory>
    requires { IsSoundList list.now }
    ensures { IfOk result (λ all. all.items ≡ sizes_of list.now size ++ cuts.items) }
{
    let mut cuts = cuts;
    if list.size == size {
        return Ok(cuts);
    }
    let first = size_span(alloc, list, size)?;
    match cuts.insert(0, first) {
        Err(_) => Err(NoMemory),
        Ok(()) => Ok(cuts),
    }
}

// Spans with the one of a list's pad behind them, where it comes or goes.
fn with_list_pad(
    alloc: Global,
    list: &ListAt,
    size: u64,
    cuts: Vec<CutAt>,
) -> Result<Vec<CutAt>, NoMemory>
    requires { IsSoundList list.now }
    ensures { IfOk result (λ all. all.items ≡ cuts.items ++ pads_of list.now size) }
{
    let mut cuts = cuts;
    if list.keeps_pad(size) {
        return Ok(cuts);
    }
    let bytes = if size % 2 == 1 {
        Bytes::new(alloc, &[0])?
    } else {
        Bytes::new(alloc, &[])?
    };
    let span = Span {
        at: list.end(),
        len: list.pad(),
    };
    match cuts.push(CutAt {
        span,
        bytes,
        keep: 0,
    }) {
        Err(_) => Err(NoMemory),
        Ok(()) => Ok(cuts),
    }
}

// Spans in a list, with those of its size and its pad round them, where it has a body of `size` bytes then.
fn around(
    alloc: Global,
    list: &ListAt,
    size: u64,
    inside: Vec<CutAt>,
) -> Result<Vec<CutAt>, NoMemory>
    requires { IsSoundList list.now }
    ensures { IfOk result (λ all. all.items ≡ around list.now size inside.items) }
{
    let padded = with_list_pad(alloc, list, size, inside)?;
    let sized = with_list_size(alloc, list, size, padded)?;
    Ok(sized)
}

/// A list in which spans are replaced: these, with those of its size and its pad where they change, the length of its body then,
/// and whether its pad stays.
#[derive(Debug, Drop)]
pub struct ListThen {
    pub cuts: Vec<CutAt>,
    pub size: u64,
    pub stays: bool,
}

/// What spans that are replaced in a list make of it.
pub fn list_then(alloc: Global, list: &ListAt, inside: Vec<CutAt>) -> Result<ListThen, NoMemory>
    requires sound { IsSoundList list.now }
    requires ascend { SpansAscend (list.now.at + 12) inside.items (list.now.at + 8 + list.now.size) }
    ensures cuts { IfOk result (λ t. t.cuts.items ≡ list_cuts list.now inside.items) }
    ensures size { IfOk result (λ t. t.size ≡ size_then list.now inside.items) }
    ensures stays { IfOk result (λ t. t.stays ≡ keeps_pad list.now (size_then list.now inside.items)) }
{
    let Some(size) = list.new_size(&inside) else {
        return Err(NoMemory);
    };
    let stays = list.keeps_pad(size);
    let cuts = around(alloc, list, size, inside)?;
    Ok(ListThen { cuts, size, stays })
}
