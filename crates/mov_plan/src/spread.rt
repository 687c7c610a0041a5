// Where the ranges of a file go between the spans of an edit and the tables, where these are widened.
ghost use Rattle.std.specs.Prelude.{◌≡◌, ◌≤◌, ◌+◌, ◌++◌, ◌∷◌, ℕ, List, true, length, map, drop, IfOk, OnOk};
ghost use Rattle.std.specs.List.{AllByRecursion};
ghost use Rattle.part_tree.specs.Moves.{Move};
ghost use Rattle.carrier_model.specs.Gaps.{between, moves_of};
ghost use Rattle.container_model.specs.Splice.{Cut};
ghost use Rattle.unit_plan.specs.Cuts.{cut_in};
ghost use Rattle.mov_plan.specs.Moved.{AreRanges, IsKeptIn};
ghost use Rattle.mov_plan.specs.Tables.{LiesIn, merged, table_in, tables_up_to};

use crate::moves::Ranges;
use crate::tables::TableAt;
use part_tree::{Moves, NoMemory, Span};
use std::alloc::Global;
use unit_plan::CutAt;

impl Ranges {
    // The range before a table, of which each row gets eight bytes.
    fn jump_table(&mut self, table: &TableAt) -> Result<(), NoMemory>
        ensures held { OnOk result ((ms : List Move) (b : List ℕ) (rest : List Cut) (end : ℕ) → LiesIn b table.now
            → self.new.held.items ++ between self.new.at self.new.to rest end
            ≡ self.old.held.items ++ between self.old.at self.old.to (table_in true ms b table.now ∷ rest) end) }
        ensures sound { OnOk result (AreRanges self.old → AreRanges self.new) }
    {
        let span = Span {
            at: table.at,
            len: table.len(),
        };
        self.jump(span, table.new_len(true))?;
        Ok(())
    }

    // The range before a span of an edit.
    fn jump_cut(&mut self, cut: &CutAt) -> Result<(), NoMemory>
        ensures held { OnOk result ((b : List ℕ) (rest : List Cut) (end : ℕ) → length b ≡ end → IsKeptIn end cut.now
            → self.new.held.items ++ between self.new.at self.new.to rest end
            ≡ self.old.held.items ++ between self.old.at self.old.to (cut_in b cut.now ∷ rest) end) }
        ensures sound { OnOk result (AreRanges self.old → AreRanges self.new) }
    {
        let Some(now) = (cut.bytes.as_slice().len() as u64).checked_add(cut.keep) else {
            return Err(NoMemory);
        };
        self.jump(cut.span, now)?;
        Ok(())
    }

    // The ranges before the tables from a number on that begin at a place or before it; the number of the next one.
    fn jump_tables(
        &mut self,
        tables: &[TableAt],
        from: usize,
        place: u64,
    ) -> Result<usize, NoMemory>
        requires { from ≤ length tables.now }
        ensures next { IfOk result (λ n. n ≡ from + length (tables_up_to place (drop from tables.now))) }
        ensures inside { IfOk result (λ n. n ≤ length tables.now) }
        ensures held { IfOk result (λ n. (ms : List Move) (b : List ℕ) (rest : List Cut) (end : ℕ)
            → AllByRecursion (LiesIn b) tables.now
            → self.new.held.items ++ between self.new.at self.new.to rest end
            ≡ self.old.held.items ++ between self.old.at self.old.to
            (map (table_in true ms b) (tables_up_to place (drop from tables.now)) ++ rest) end) }
        ensures sound { IfOk result (λ n. AreRanges self.old → AreRanges self.new) }
    {
        let mut next = from;
        'tables: while next < tables.len() {
            let table = &tables[next];
            if table.at > place {
                return Ok(next);
            }
            self.jump_table(table)?;
            next += 1;
        }
        Ok(next)
    }
}

/// Where the ranges of a file of `len` bytes go between spans in the place of which others stand, and its tables, of which each row
/// gets eight bytes. The spans ascend, and so do the tables between them.
pub fn moves_widened(
    alloc: Global,
    cuts: &[CutAt],
    tables: &[TableAt],
    len: u64,
) -> Result<Moves, NoMemory>
    ensures { IfOk result (λ m. (ms : List Move) (b : List ℕ) → length b ≡ len
        → AllByRecursion (IsKeptIn len) cuts.now → AllByRecursion (LiesIn b) tables.now
        → m ≡ moves_of (merged true ms b cuts.now tables.now) len) }
{
    let mut ranges = Ranges {
        held: Vec::new(alloc),
        at: 0,
        to: 0,
    };
    let mut next = 0;
    'cuts: for cut in cuts {
        next = ranges.jump_tables(tables, next, cut.span.at)?;
        ranges.jump_cut(cut)?;
    }
    let last = ranges.jump_tables(tables, next, len)?;
    if last != tables.len() {
        return Err(NoMemory);
    }
    ranges.jump(Span { at: len, len: 0 }, 0)?;
    Moves::new(alloc, &ranges.held)
}
