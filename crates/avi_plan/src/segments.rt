// The segments of a new file.
ghost use Rattle.std.specs.Prelude.{◌≡◌, ◌≤◌, ◌<◌, ◌+◌, ◌-◌, ◌++◌, ◌^◌, [], ℕ, List, length, map, take, drop, IfOk, OnOk};
ghost use Rattle.std.specs.List.{AllByRecursion, flat_map};
ghost use Rattle.part_tree.specs.Moves.{Move};
ghost use Rattle.part_tree.specs.Plans.{AllBased, AllInside, AllNamed, Inside, IsBased, Named, segment_bytes, segment_len, total_len};
ghost use Rattle.container_model.specs.Splice.{Cut, splice, splice_from};
ghost use Rattle.unit_plan.specs.Cuts.{SpansAscend, cut_in};
ghost use Rattle.avi_plan.specs.Changes.{IsNamed, IsSound, KeepsWidth, change_at, change_cut, change_end, change_len, changes_up_to, merged};
ghost use Rattle.avi_plan.specs.Made.{IsMade, made_of};

use crate::table::Change;
use part_tree::{Bytes, NoMemory, Segment, Segments, Span};
use std::alloc::Global;
use unit_plan::CutAt;

// What a rewrite makes of a file so far: segments of `len` bytes, in the place of the bytes before the byte `at`.
#[derive(Drop)]
pub struct Rewritten {
    pub segments: Vec<Segment>,
    pub at: u64,
    pub len: u64,
}

impl Rewritten {
    // Nothing yet.
    fn new(alloc: Global) -> Rewritten
        ensures segments { result.segments.items ≡ [] }
        ensures at { result.at ≡ 0 }
        ensures len { result.len ≡ 0 }
    {
        Rewritten {
            segments: Vec::new(alloc),
            at: 0,
            len: 0,
        }
    }

    // One segment more, of so many bytes. No memory holds as many as 64 bits don't count.
    fn push(&mut self, segment: Segment, len: u64) -> Result<(), NoMemory>
        requires { len ≡ segment_len segment }
        ensures bytes { OnOk result ((ms : List Move) (b : List ℕ)
            → made_of ms b self.new ≡ made_of ms b self.old ++ segment_bytes ms b segment) }
        ensures at { self.new.at ≡ self.old.at }
        ensures sound { OnOk result ((b : List ℕ) → IsBased segment → Inside b segment → IsMade b self.old
            → IsMade b self.new) }
        ensures named { OnOk result ((ms : List Move) (b : List ℕ) → Named ms b segment
            → AllNamed ms b self.old.segments.items → AllNamed ms b self.new.segments.items) }
    {
        let Some(sum) = self.len.checked_add(len) else {
            return Err(NoMemory);
        };
        match self.segments.push(segment) {
            Err(_) => return Err(NoMemory),
            Ok(()) => {}
        }
        self.len = sum;
        Ok(())
    }

    // The old file up to a place. None is taken back.
    fn copy_to(&mut self, end: u64) -> Result<(), NoMemory>
        ensures bytes { OnOk result ((ms : List Move) (b : List ℕ)
            → made_of ms b self.new ≡ made_of ms b self.old ++ take (end - self.old.at) (drop self.old.at b)) }
        ensures at { OnOk result (self.new.at ≡ end) }
        ensures order { OnOk result (self.old.at ≤ end) }
        ensures sound { OnOk result ((b : List ℕ) → end ≤ length b → IsMade b self.old → IsMade b self.new) }
        ensures named { OnOk result ((ms : List Move) (b : List ℕ) → AllNamed ms b self.old.segments.items
            → AllNamed ms b self.new.segments.items) }
    {
        let Some(len) = end.checked_sub(self.at) else {
            return Err(NoMemory);
        };
        if len == 0 {
            return Ok(());
        }
        let at = self.at;
        self.at = end;
        self.push(Segment::Copy(Span { at, len }), len)?;
        Ok(())
    }

    // These bytes.
    fn push_bytes(&mut self, alloc: Global, bytes: &[u8]) -> Result<(), NoMemory>
        ensures bytes { OnOk result ((ms : List Move) (b : List ℕ)
            → made_of ms b self.new ≡ made_of ms b self.old ++ bytes.now) }
        ensures at { self.new.at ≡ self.old.at }
        ensures sound { OnOk result ((b : List ℕ) → IsMade b self.old → IsMade b self.new) }
        ensures named { OnOk result ((ms : List Move) (b : List ℕ) → AllNamed ms b self.old.segments.items
            → AllNamed ms b self.new.segments.items) }
    {
        if bytes.is_empty() {
            return Ok(());
        }
        let copy = Bytes::new(alloc, bytes)?;
        self.push(Segment::Literal(copy), bytes.len() as u64)?;
        Ok(())
    }

    // What stands in the place of a span, up to which the old file is copied.
    fn push_cut(&mut self, alloc: Global, cut: &CutAt) -> Result<(), NoMemory>
        requires { cut.now.keep ≤ cut.now.span.len }
        ensures bytes { OnOk result ((ms : List Move) (b : List ℕ) → made_of ms b self.new ≡ made_of ms b self.old
            ++ (take (cut.now.span.at - self.old.at) (drop self.old.at b) ++ (cut_in b cut.now).bytes)) }
        ensures at { OnOk result (self.new.at ≡ cut.now.span.at + cut.now.span.len) }
        ensures order { OnOk result (self.old.at ≤ cut.now.span.at) }
        ensures sound { OnOk result ((b : List ℕ) → self.new.at ≤ length b → IsMade b self.old → IsMade b self.new) }
        ensures named { OnOk result ((ms : List Move) (b : List ℕ) → AllNamed ms b self.old.segments.items
            → AllNamed ms b self.new.segments.items) }
    {
        self.copy_to(cut.span.at)?;
        self.push_bytes(alloc, cut.bytes.as_slice())?;
        let Some(end) = cut.span.at.checked_add(cut.span.len) else {
            return Err(NoMemory);
        };
        self.at = end - cut.keep;
        self.copy_to(end)?;
        Ok(())
    }

    // What changes of a table, without the bytes before it.
    fn push_new(&mut self, alloc: Global, change: &Change, len: u64) -> Result<(), NoMemory>
        requires len { len ≡ change_len change.now }
        requires wide { KeepsWidth change.now }
        ensures bytes { OnOk result ((ms : List Move) (b : List ℕ)
            → made_of ms b self.new ≡ made_of ms b self.old ++ (change_cut ms b change.now).bytes) }
        ensures at { self.new.at ≡ self.old.at }
        ensures sound { OnOk result ((b : List ℕ) → IsSound (length b) change.now → IsMade b self.old
            → IsMade b self.new) }
        ensures named { OnOk result ((ms : List Move) (b : List ℕ) → IsNamed ms b change.now
            → AllNamed ms b self.old.segments.items → AllNamed ms b self.new.segments.items) }
    {
        match change {
            Change::Rows { form, from, rows } => self.push(
                Segment::Table {
                    form: *form,
                    from: *from,
                    rows: *rows,
                },
                len,
            ),
            Change::Base { at: _, base } => self.push_bytes(alloc, &base.to_le_bytes()),
        }
    }

    // What changes of a table, up to which the old file is copied.
    fn push_change(&mut self, alloc: Global, change: &Change) -> Result<(), NoMemory>
        requires { KeepsWidth change.now }
        ensures bytes { OnOk result ((ms : List Move) (b : List ℕ) → made_of ms b self.new ≡ made_of ms b self.old
            ++ (take (change_at change.now - self.old.at) (drop self.old.at b) ++ (change_cut ms b change.now).bytes)) }
        ensures at { OnOk result (self.new.at ≡ change_end change.now) }
        ensures order { OnOk result (self.old.at ≤ change_at change.now) }
        ensures sound { OnOk result ((b : List ℕ) → IsSound (length b) change.now → IsMade b self.old
            → IsMade b self.new) }
        ensures named { OnOk result ((ms : List Move) (b : List ℕ) → IsNamed ms b change.now
            → AllNamed ms b self.old.segments.items → AllNamed ms b self.new.segments.items) }
    {
        self.copy_to(change.at())?;
        let Some(len) = change.len() else {
            return Err(NoMemory);
        };
        let Some(end) = change.end() else {
            return Err(NoMemory);
        };
        self.at = end;
        self.push_new(alloc, change, len)?;
        Ok(())
    }

    // The changes from a number on that end at a place or before it; the number of the next one.
    fn push_changes(
        &mut self,
        alloc: Global,
        changes: &[Change],
        from: usize,
        place: u64,
    ) -> Result<usize, NoMemory>
        requires from { from ≤ length changes.now }
        requires wide { AllByRecursion KeepsWidth changes.now }
        ensures next { IfOk result (λ n. n ≡ from + length (changes_up_to place (drop from changes.now))) }
        ensures inside { IfOk result (λ n. n ≤ length changes.now) }
        ensures bytes { IfOk result (λ n. (ms : List Move) (b : List ℕ) (rest : List Cut)
            → made_of ms b self.new ++ splice_from self.new.at (drop self.new.at b) rest
            ≡ made_of ms b self.old
            ++ splice_from self.old.at (drop self.old.at b) (map (change_cut ms b)
            (changes_up_to place (drop from changes.now)) ++ rest)) }
        ensures order { IfOk result (λ n. self.old.at ≤ self.new.at) }
        ensures sound { IfOk result (λ n. (b : List ℕ) → AllByRecursion (IsSound (length b)) changes.now
            → IsMade b self.old → IsMade b self.new) }
        ensures named { IfOk result (λ n. (ms : List Move) (b : List ℕ) → AllByRecursion (IsNamed ms b) changes.now
            → AllNamed ms b self.old.segments.items → AllNamed ms b self.new.segments.items) }
    {
        let mut next = from;
        'changes: while next < changes.len() {
            let change = &changes[next];
            let Some(end) = change.end() else {
                return Err(NoMemory);
            };
            if end > place {
                return Ok(next);
            }
            self.push_change(alloc, change)?;
            next += 1;
        }
        Ok(next)
    }
}

/// The segments of a file of `len` bytes of which spans are replaced, with its tables anew between them; the new file has `new_len`
/// bytes. The spans ascend, and so do the changes of tables between them.
pub fn segments_with(
    alloc: Global,
    cuts: &[CutAt],
    changes: &[Change],
    len: u64,
    new_len: u64,
) -> Result<Segments, NoMemory>
    requires ascend { SpansAscend 0 cuts.now len }
    requires sound { AllByRecursion (IsSound len) changes.now }
    ensures bytes { IfOk result (λ s. (ms : List Move) (b : List ℕ) → length b ≡ len
        → flat_map (segment_bytes ms b) s ≡ splice b (merged ms b cuts.now changes.now)) }
    ensures total { IfOk result (λ s. total_len s ≡ new_len) }
    ensures based { IfOk result AllBased }
    ensures inside { IfOk result (λ s. (b : List ℕ) → length b ≡ len → AllInside b s) }
    ensures named { IfOk result (λ s. (ms : List Move) (b : List ℕ) → AllByRecursion (IsNamed ms b) changes.now
        → AllNamed ms b s) }
{
    let mut made = Rewritten::new(alloc);
    let mut next = 0;
    'cuts: for cut in cuts {
        next = made.push_changes(alloc, changes, next, cut.span.at)?;
        made.push_cut(alloc, cut)?;
    }
    let last = made.push_changes(alloc, changes, next, len)?;
    made.copy_to(len)?;
    if last != changes.len() || made.len != new_len {
        return Err(NoMemory);
    }
    Ok(Segments::new(made.segments))
}
