// A new file out of ranges of the old one and bytes of its own.
ghost use Rattle.std.specs.Prelude.{◌≡◌, ◌≢◌, ℕ, ◌+◌, ◌-◌, ◌≤◌, ◌<◌, ◌^◌, ◌∷◌, [], min, List, length, take, drop, IsTrue, IfOk, OnOk, OnErr, IfSome, IfNone, ◌↔◌};
ghost use Rattle.me_disk.specs.Disk.{bytes_of};
ghost use Rattle.me_disk.specs.Steps.{Counted};
ghost use Rattle.part_tree.specs.Plans.{AddsUp};
ghost use Rattle.file_swap.specs.Parts.{span_of, literal_of};
ghost use Rattle.file_swap.specs.Fits.{Permits, StepDoes, HoldsAfter};

use crate::block::{BLOCK, append_block, append_read, read_block};
use crate::table_rows::{PAGE, TableRows, append_rows, table_in};
use me_disk::{Depot, DepotFault};
use part_tree::{Moves, NoMemory, Segment, Segments, Span};
use std::alloc::Global;

/// The call that comes next. A block of a copied range is read and then appended, from a place in the range on; a block of a
/// segment's own bytes is put, from a place in them on; a page of a table's rows is read and then appended with its places
/// moved, from a row on. Segments go by their numbers.
#[derive(Clone, Copy)]
pub(crate) enum Stage {
    Start,
    Read(usize, u64),
    Append(usize, u64),
    Put(usize, usize),
    ReadRows(usize, u64),
    AppendRows(usize, u64),
    Seal,
    Install,
    Ended,
}

/// What the new file is made of, and where the places of the old one go.
#[derive(Drop)]
pub(crate) struct Parts {
    pub(crate) new_len: u64,
    pub(crate) moves: Moves,
    pub(crate) segments: Segments,
}

/// The parts, how far the calls have come, a buffer of one block, and one for the page that is moved.
#[derive(Drop)]
pub(crate) struct Rewriting {
    pub(crate) parts: Parts,
    pub(crate) stage: Stage,
    pub(crate) buffer: Vec<u8>,
    pub(crate) moved: Vec<u8>,
}

// The range that a segment copies, and one of no bytes where it copies none.
fn span_in(segment: &Segment) -> Span
    ensures { result ≡ span_of segment.now }
{
    match segment {
        Segment::Copy(span) => *span,
        _ => Span { at: 0, len: 0 },
    }
}

// The bytes that a segment brings.
fn literal_in(segment: &Segment) -> &[u8]
    ensures { result.now ≡ literal_of segment.now }
{
    match segment {
        Segment::Literal(bytes) => bytes.as_slice(),
        _ => &[],
    }
}

impl Parts {
    ghost use Rattle.file_swap.specs.declared.rewrite.Stage.{Stage};
    ghost use Rattle.file_swap.specs.Parts.{segment_at, span_at, literal_at, table_at, copy_len, page_len, segments_from, step_of, left, IsStage, HoldsNothing, IsNextStage};

    // The range that the segment of this number copies.
    fn span(&self, i: usize) -> Span
        requires { i < length self.now.segments }
        ensures { result ≡ span_at self.now i }
    {
        span_in(&self.segments.as_slice()[i])
    }

    // The bytes that the segment of this number brings.
    fn literal(&self, i: usize) -> &[u8]
        requires { i < length self.now.segments }
        ensures { result.now ≡ literal_at self.now i }
    {
        literal_in(&self.segments.as_slice()[i])
    }

    // The length of the block from a place in a copied range on.
    fn copy_len(&self, i: usize, from: u64) -> usize
        requires { (i < length self.now.segments) × (from < (span_at self.now i).len) }
        ensures is { result ≡ copy_len self.now i from }
        ensures fits { from + result < 2 ^ 64 }
    {
        (BLOCK as u64).min(self.span(i).len - from) as usize
    }

    // The table that the segment of this number moves.
    fn table(&self, i: usize) -> TableRows
        requires { i < length self.now.segments }
        ensures { result ≡ table_at self.now i }
    {
        table_in(&self.segments.as_slice()[i])
    }

    // How many rows the page has that begins with a row of a table.
    fn page_len(&self, i: usize, first: u64) -> u64
        requires { (i < length self.now.segments) × (first < (table_at self.now i).rows) }
        ensures is { result ≡ page_len self.now i first }
        ensures fits { first + result < 2 ^ 64 }
    {
        PAGE.min(self.table(i).rows - first)
    }

    // The first stage of a segment. One of no bytes has none.
    fn first(&self, i: usize) -> Option<Stage>
        requires { i < length self.now.segments }
        ensures left { IfSome result (λ s. left self.now s ≡ segments_from self.now i) }
        ensures stage { IfSome result (λ s. IsStage self.now s) }
        ensures holds { IfSome result HoldsNothing }
        ensures none { IfNone result (segments_from self.now i ≡ segments_from self.now (i + 1)) }
    {
        match &self.segments.as_slice()[i] {
            Segment::Copy(span) if span.len > 0 => Some(Stage::Read(i, 0)),
            Segment::Literal(bytes) if bytes.as_slice().len() > 0 => Some(Stage::Put(i, 0)),
            Segment::Table { rows, .. } if *rows > 0 => Some(Stage::ReadRows(i, 0)),
            _ => None,
        }
    }

    // The stage before the segments from this number on.
    fn segment(&self, from: usize) -> Stage
        requires { from ≤ length self.now.segments }
        ensures left { left self.now result ≡ segments_from self.now from }
        ensures stage { IsStage self.now result }
        ensures holds { HoldsNothing result }
    {
        for i in from..self.segments.as_slice().len() {
            if let Some(stage) = self.first(i) {
                return stage;
            }
        }
        Stage::Seal
    }

    // The stage in a copied range from a place in it on, or before the segment behind it.
    fn copy_more(&self, i: usize, from: u64) -> Stage
        requires { i < length self.now.segments }
        ensures left { left self.now result ≡ left self.now (Stage.Read i from) }
        ensures stage { IsStage self.now result }
        ensures holds { HoldsNothing result }
    {
        let segments = self.segments.as_slice();
        if from < span_in(&segments[i]).len {
            Stage::Read(i, from)
        } else {
            self.segment(i + 1)
        }
    }

    // The stage in a segment's own bytes from a place in them on, or before the segment behind it.
    fn put_more(&self, i: usize, from: usize) -> Stage
        requires { i < length self.now.segments }
        ensures left { left self.now result ≡ left self.now (Stage.Put i from) }
        ensures stage { IsStage self.now result }
        ensures holds { HoldsNothing result }
    {
        let segments = self.segments.as_slice();
        if from < literal_in(&segments[i]).len() {
            Stage::Put(i, from)
        } else {
            self.segment(i + 1)
        }
    }

    // The stage in a table from a row on, or before the segment behind it.
    fn rows_more(&self, i: usize, first: u64) -> Stage
        requires { i < length self.now.segments }
        ensures left { left self.now result ≡ left self.now (Stage.ReadRows i first) }
        ensures stage { IsStage self.now result }
        ensures holds { HoldsNothing result }
    {
        let segments = self.segments.as_slice();
        if first < table_in(&segments[i]).rows {
            Stage::ReadRows(i, first)
        } else {
            self.segment(i + 1)
        }
    }

    // The stage after this one.
    fn next(&self, stage: Stage) -> Stage
        requires stage { IsStage self.now stage }
        requires more { stage ≢ Stage.Ended }
        ensures left { left self.now stage ≡ step_of self.now stage ∷ left self.now result }
        ensures stage { IsStage self.now result }
        ensures next { IsNextStage stage result }
    {
        match stage {
            Stage::Start => self.segment(0),
            Stage::Read(i, from) => Stage::Append(i, from),
            Stage::Append(i, from) => self.copy_more(i, from + self.copy_len(i, from) as u64),
            Stage::Put(i, from) => {
                self.put_more(i, from + BLOCK.min(self.literal(i).len() - from))
            }
            Stage::ReadRows(i, first) => Stage::AppendRows(i, first),
            Stage::AppendRows(i, first) => self.rows_more(i, first + self.page_len(i, first)),
            Stage::Seal => Stage::Install,
            Stage::Install => Stage::Ended,
            Stage::Ended => Stage::Ended,
        }
    }
}

impl Rewriting {
    ghost use Rattle.file_swap.specs.declared.rewrite.Stage.{Stage};
    ghost use Rattle.file_swap.specs.Parts.{step_of, left, held_of, HasRead, IsRewriting};

    /// Before the first call. It takes the buffers.
    pub(crate) fn new(
        alloc: Global,
        new_len: u64,
        moves: Moves,
        segments: Segments,
    ) -> Result<Rewriting, NoMemory>
        requires { AddsUp new_len segments }
        ensures parts { IfOk result (λ r. (r.parts.new_len ≡ new_len) × (r.parts.moves ≡ moves)
            × (r.parts.segments ≡ segments)) }
        ensures stage { IfOk result (λ r. r.stage ≡ Stage.Start) }
        ensures sound { IfOk result IsRewriting }
    {
        let buffer = vec![in alloc; 0; BLOCK]?;
        let moved = vec![in alloc; 0; BLOCK]?;
        Ok(Rewriting {
            parts: Parts {
                new_len,
                moves,
                segments,
            },
            stage: Stage::Start,
            buffer,
            moved,
        })
    }

    /// Whether all calls were made.
    pub(crate) fn is_ended(&self) -> bool
        requires { IsRewriting self.now }
        ensures { IsTrue result ↔ (left self.now.parts self.now.stage ≡ []) }
    {
        match self.stage {
            Stage::Ended => true,
            _ => false,
        }
    }

    // Makes the call of the stage.
    fn call<D: Depot>(&mut self, depot: &mut D) -> Result<(), DepotFault>
        requires sound { IsRewriting self.old }
        requires permits { Permits (step_of self.old.parts self.old.stage) (held_of self.old) (D.disk depot.old) }
        ensures parts { self.new.parts ≡ self.old.parts }
        ensures stage { self.new.stage ≡ self.old.stage }
        ensures buffer { length self.new.buffer.items ≡ length self.old.buffer.items }
        ensures moved { length self.new.moved.items ≡ length self.old.moved.items }
        ensures stays { held_of self.new ≡ held_of self.old }
        ensures read { OnOk result
            (HasRead (step_of self.old.parts self.old.stage) self.new.buffer.items (D.disk depot.old)) }
        ensures does { StepDoes (step_of self.old.parts self.old.stage) (held_of self.old) (D.disk depot.old)
            (D.disk depot.new) result }
        ensures counted { Counted 1 (D.calls depot.old) (D.calls depot.new) }
    {
        match self.stage {
            Stage::Start => depot.begin_work(),
            Stage::Read(i, from) => {
                let at = self.parts.span(i).at.saturating_add(from);
                let n = self.parts.copy_len(i, from);
                read_block(depot, at, n, &mut self.buffer)
            }
            Stage::Append(i, from) => {
                append_read(depot, self.parts.copy_len(i, from), &self.buffer)
            }
            Stage::Put(i, from) => append_block(depot, self.parts.literal(i), from),
            Stage::ReadRows(i, first) => {
                let table = self.parts.table(i);
                let n = table.form.width() * self.parts.page_len(i, first) as usize;
                read_block(depot, table.place(first), n, &mut self.buffer)
            }
            Stage::AppendRows(i, first) => {
                let form = self.parts.table(i).form;
                let rows = self.parts.page_len(i, first) as usize;
                append_rows(
                    depot,
                    &form,
                    rows,
                    &self.parts.moves,
                    &self.buffer,
                    &mut self.moved,
                )
            }
            Stage::Seal => depot.sync_work(),
            Stage::Install => depot.install_main(),
            Stage::Ended => depot.install_main(),
        }
    }

    /// Makes the next call.
    pub(crate) fn step<D: Depot>(&mut self, depot: &mut D) -> Result<(), DepotFault>
        requires sound { IsRewriting self.old }
        requires more { left self.old.parts self.old.stage ≢ [] }
        requires permits { Permits (step_of self.old.parts self.old.stage) (held_of self.old) (D.disk depot.old) }
        ensures sound { IsRewriting self.new }
        ensures parts { self.new.parts ≡ self.old.parts }
        ensures left { OnOk result (left self.old.parts self.old.stage
            ≡ step_of self.old.parts self.old.stage ∷ left self.new.parts self.new.stage) }
        ensures does { StepDoes (step_of self.old.parts self.old.stage) (held_of self.old) (D.disk depot.old)
            (D.disk depot.new) result }
        ensures counted { Counted 1 (D.calls depot.old) (D.calls depot.new) }
        ensures holds { OnOk result
            (HoldsAfter (step_of self.old.parts self.old.stage) (held_of self.new) (D.disk depot.old)) }
        ensures stays { OnErr result ((self.new.stage ≡ self.old.stage) × (held_of self.new ≡ held_of self.old)) }
    {
        let next = self.parts.next(self.stage);
        self.call(depot)?;
        self.stage = next;
        Ok(())
    }
}
