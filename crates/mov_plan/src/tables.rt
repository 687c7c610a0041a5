// The tables of chunk places in a new file.
ghost use Rattle.std.specs.Prelude.{◌≡◌, ◌≤◌, ◌<◌, ◌+◌, ◌-◌, ◌++◌, ◌^◌, [], ℕ, List, length, map, take, drop, IfOk, OnOk};
ghost use Rattle.std.specs.List.{AllByRecursion, flat_map};
ghost use Rattle.part_tree.specs.Moves.{Move};
ghost use Rattle.part_tree.specs.Plans.{AllBased, AllInside, AllNamed, Inside, IsBased, Named, segment_bytes, segment_len, total_len};
ghost use Rattle.container_model.specs.Splice.{Cut, splice, splice_from};
ghost use Rattle.unit_plan.specs.Cuts.{cut_in};
ghost use Rattle.mov_plan.specs.Tables.{merged, new_table_len, table_in, table_len, table_segment, tables_up_to};
ghost use Rattle.mov_plan.specs.Made.{IsKept, IsMade, IsNamed, made_of};

use part_tree::{Bytes, NoMemory, Segment, Segments, Span, TableForm};
use std::alloc::Global;
use unit_plan::CutAt;

/// A table of chunk places: where its rows begin, whether each has eight bytes or else four, and how many there are.
#[derive(Clone, Copy, Debug, PartialEq, Eq)]
pub struct TableAt {
    pub at: u64,
    pub wide: bool,
    pub rows: u32,
}

impl TableAt {
    /// How many bytes its rows have.
    pub fn len(&self) -> u64
        ensures len { result ≡ table_len self.now }
        ensures few { result < 2 ^ 35 }
    {
        let width = if self.wide { 8 } else { 4 };
        width * u64::from(self.rows)
    }

    /// How many they have in a new file, in which rows of four bytes may be `widened`.
    pub fn new_len(&self, widened: bool) -> u64
        ensures len { result ≡ new_table_len widened self.now }
        ensures few { result < 2 ^ 35 }
    {
        let width = if self.wide || widened { 8 } else { 4 };
        width * u64::from(self.rows)
    }

    // Its rows in a new file.
    fn segment(&self, widened: bool) -> Segment
        ensures { result ≡ table_segment widened self.now }
    {
        let form = if self.wide {
            TableForm::Chunks64
        } else if widened {
            TableForm::Widen
        } else {
            TableForm::Chunks32
        };
        Segment::Table {
            form,
            from: self.at,
            rows: u64::from(self.rows),
        }
    }
}

// What a rewrite makes of a file so far: segments of `len` bytes, in the place of the bytes before the byte `at`.
#[derive(Drop)]
pub struct Rewritten {
    pub segments: Vec<Segment>,
    pub at: u64,
    pub len: u64,
}

impl Rewritten {
    // Nothing yet.
    fn new(alloc: Global) -> Rewritten
        ensures segments { result.segments.items ≡ [] }
        ensures at { result.at ≡ 0 }
        ensures len { result.len ≡ 0 }
    {
        Rewritten {
            segments: Vec::new(alloc),
            at: 0,
            len: 0,
        }
    }

    // One segment more, of so many bytes. No memory holds as many as 64 bits don't count.
    fn push(&mut self, segment: Segment, len: u64) -> Result<(), NoMemory>
        requires { len ≡ segment_len segment }
        ensures bytes { OnOk result ((ms : List Move) (b : List ℕ)
            → made_of ms b self.new ≡ made_of ms b self.old ++ segment_bytes ms b segment) }
        ensures at { self.new.at ≡ self.old.at }
        ensures sound { OnOk result ((b : List ℕ) → IsBased segment → Inside b segment → IsMade b self.old
            → IsMade b self.new) }
        ensures named { OnOk result ((ms : List Move) (b : List ℕ) → Named ms b segment
            → AllNamed ms b self.old.segments.items → AllNamed ms b self.new.segments.items) }
    {
        let Some(sum) = self.len.checked_add(len) else {
            return Err(NoMemory);
        };
        match self.segments.push(segment) {
            Err(_) => return Err(NoMemory),
            Ok(()) => {}
        }
        self.len = sum;
        Ok(())
    }

    // The old file up to a place. None is taken back.
    fn copy_to(&mut self, end: u64) -> Result<(), NoMemory>
        ensures bytes { OnOk result ((ms : List Move) (b : List ℕ)
            → made_of ms b self.new ≡ made_of ms b self.old ++ take (end - self.old.at) (drop self.old.at b)) }
        ensures at { OnOk result (self.new.at ≡ end) }
        ensures order { OnOk result (self.old.at ≤ end) }
        ensures sound { OnOk result ((b : List ℕ) → end ≤ length b → IsMade b self.old → IsMade b self.new) }
        ensures named { OnOk result ((ms : List Move) (b : List ℕ) → AllNamed ms b self.old.segments.items
            → AllNamed ms b self.new.segments.items) }
    {
        let Some(len) = end.checked_sub(self.at) else {
            return Err(NoMemory);
        };
        if len == 0 {
            return Ok(());
        }
        let at = self.at;
        self.at = end;
        self.push(Segment::Copy(Span { at, len }), len)?;
        Ok(())
    }

    // A table, up to which the old file is copied.
    fn push_table(&mut self, table: &TableAt, widened: bool) -> Result<(), NoMemory>
        ensures bytes { OnOk result ((ms : List Move) (b : List ℕ)
            → made_of ms b self.new ≡ made_of ms b self.old
            ++ (take (table.now.at - self.old.at) (drop self.old.at b) ++ (table_in widened ms b table.now).bytes)) }
        ensures at { OnOk result (self.new.at ≡ table.now.at + table_len table.now) }
        ensures order { OnOk result (self.old.at ≤ table.now.at) }
        ensures sound { OnOk result ((b : List ℕ) → self.new.at ≤ length b → IsMade b self.old → IsMade b self.new) }
        ensures named { OnOk result ((ms : List Move) (b : List ℕ) → IsNamed widened ms b table.now
            → AllNamed ms b self.old.segments.items → AllNamed ms b self.new.segments.items) }
    {
        self.copy_to(table.at)?;
        if table.rows == 0 {
            return Ok(());
        }
        let Some(end) = table.at.checked_add(table.len()) else {
            return Err(NoMemory);
        };
        self.at = end;
        self.push(table.segment(widened), table.new_len(widened))?;
        Ok(())
    }

    // These bytes.
    fn push_bytes(&mut self, alloc: Global, bytes: &[u8]) -> Result<(), NoMemory>
        ensures bytes { OnOk result ((ms : List Move) (b : List ℕ)
            → made_of ms b self.new ≡ made_of ms b self.old ++ bytes.now) }
        ensures at { self.new.at ≡ self.old.at }
        ensures sound { OnOk result ((b : List ℕ) → IsMade b self.old → IsMade b self.new) }
        ensures named { OnOk result ((ms : List Move) (b : List ℕ) → AllNamed ms b self.old.segments.items
            → AllNamed ms b self.new.segments.items) }
    {
        if bytes.is_empty() {
            return Ok(());
        }
        let copy = Bytes::new(alloc, bytes)?;
        self.push(Segment::Literal(copy), bytes.len() as u64)?;
        Ok(())
    }

    // What stands in the place of a span, up to which the old file is copied.
    fn push_cut(&mut self, alloc: Global, cut: &CutAt) -> Result<(), NoMemory>
        requires { cut.now.keep ≤ cut.now.span.len }
        ensures bytes { OnOk result ((ms : List Move) (b : List ℕ)
            → made_of ms b self.new ≡ made_of ms b self.old
            ++ (take (cut.now.span.at - self.old.at) (drop self.old.at b) ++ (cut_in b cut.now).bytes)) }
        ensures at { OnOk result (self.new.at ≡ cut.now.span.at + cut.now.span.len) }
        ensures order { OnOk result (self.old.at ≤ cut.now.span.at) }
        ensures sound { OnOk result ((b : List ℕ) → self.new.at ≤ length b → IsMade b self.old → IsMade b self.new) }
        ensures named { OnOk result ((ms : List Move) (b : List ℕ) → AllNamed ms b self.old.segments.items
            → AllNamed ms b self.new.segments.items) }
    {
        self.copy_to(cut.span.at)?;
        self.push_bytes(alloc, cut.bytes.as_slice())?;
        let Some(end) = cut.span.at.checked_add(cut.span.len) else {
            return Err(NoMemory);
        };
        self.at = end - cut.keep;
        self.copy_to(end)?;
        Ok(())
    }

    // The tables from a number on that begin at a place or before it; the number of the next one.
    fn push_tables(
        &mut self,
        tables: &[TableAt],
        widened: bool,
        from: usize,
        place: u64,
    ) -> Result<usize, NoMemory>
        requires { from ≤ length tables.now }
        ensures next { IfOk result (λ n. n ≡ from + length (tables_up_to place (drop from tables.now))) }
        ensures inside { IfOk result (λ n. n ≤ length tables.now) }
        ensures bytes { IfOk result (λ n. (ms : List Move) (b : List ℕ) (rest : List Cut)
            → made_of ms b self.new ++ splice_from self.new.at (drop self.new.at b) rest
            ≡ made_of ms b self.old ++ splice_from self.old.at (drop self.old.at b)
            (map (table_in widened ms b) (tables_up_to place (drop from tables.now)) ++ rest)) }
        ensures order { IfOk result (λ n. self.old.at ≤ self.new.at) }
        ensures sound { IfOk result (λ n. (b : List ℕ) → self.new.at ≤ length b → IsMade b self.old
            → IsMade b self.new) }
        ensures named { IfOk result (λ n. (ms : List Move) (b : List ℕ)
            → AllByRecursion (IsNamed widened ms b) tables.now → AllNamed ms b self.old.segments.items
            → AllNamed ms b self.new.segments.items) }
    {
        let mut next = from;
        'tables: while next < tables.len() {
            let table = &tables[next];
            if table.at > place {
                return Ok(next);
            }
            self.push_table(table, widened)?;
            next += 1;
        }
        Ok(next)
    }
}

/// The segments of a file of `len` bytes of which spans are replaced, with its tables anew between them; the new file has `new_len`
/// bytes. The spans ascend, and so do the tables between them.
pub fn segments_with(
    alloc: Global,
    cuts: &[CutAt],
    tables: &[TableAt],
    widened: bool,
    len: u64,
    new_len: u64,
) -> Result<Segments, NoMemory>
    requires { AllByRecursion IsKept cuts.now }
    ensures bytes { IfOk result (λ s. (ms : List Move) (b : List ℕ) → length b ≡ len
        → flat_map (segment_bytes ms b) s ≡ splice b (merged widened ms b cuts.now tables.now)) }
    ensures total { IfOk result (λ s. total_len s ≡ new_len) }
    ensures based { IfOk result AllBased }
    ensures inside { IfOk result (λ s. (b : List ℕ) → len ≤ length b → AllInside b s) }
    ensures named { IfOk result (λ s. (ms : List Move) (b : List ℕ) → AllByRecursion (IsNamed widened ms b) tables.now
        → AllNamed ms b s) }
{
    let mut made = Rewritten::new(alloc);
    let mut next = 0;
    'cuts: for cut in cuts {
        next = made.push_tables(tables, widened, next, cut.span.at)?;
        made.push_cut(alloc, cut)?;
    }
    let last = made.push_tables(tables, widened, next, len)?;
    made.copy_to(len)?;
    if last != tables.len() || made.len != new_len {
        return Err(NoMemory);
    }
    Ok(Segments::new(made.segments))
}
