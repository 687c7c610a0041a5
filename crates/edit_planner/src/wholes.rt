// Chunks that are fields as a whole: `axml`, `iXML`, `_PMX` and `MD5 `.
ghost use Rattle.std.specs.Prelude.{◌≡◌, ◌≤◌, ◌<◌, ◌+◌, ◌^◌, [], ℕ, List, IfOk, IfSome, OnOk, length, Bool, Some, None, true, if◌then◌else◌, ◌==◌, map};
ghost use Rattle.std.specs.List.{flat_map};
ghost use Rattle.part_tree.specs.declared.field.Value.{Value};
ghost use Rattle.container_model.specs.Chunk.{Chunk};
ghost use Rattle.container_model.specs.Units.{Cell, live};
ghost use Rattle.carrier_model.specs.Cells.{acted_cells};
ghost use Rattle.carrier_model.specs.Info.{one_of};
ghost use Rattle.part_tree.specs.Names.{whole_ids};
ghost use Rattle.wave_model.specs.Fields.{is_whole as is_field};
ghost use Rattle.bext_fields.specs.Change.{raw_items_of};
ghost use Rattle.wave_model.specs.Carry.{names_whole, some_chunk, whole_act, whole_by};
ghost use Rattle.carrier_model.specs.Steps.{carried};
ghost use Rattle.edit_planner.specs.Cells.{AreFine, Follow, NoWholes, Unmet, edited_as, told_row};
ghost use Rattle.edit_planner.specs.Row.{changed_row, count_row, edited_at, first_new, is_whole as holds_whole, new_whole};
ghost use Rattle.edit_planner.specs.declared.cells.CellAt.{CellAt};

use crate::cells::{CellAt, Content, is_whole, put_cell, spell_chunk};
use bext_fields::RawChange;
use part_tree::{Bytes, FieldName, FourCc, NoMemory, Value};
use std::alloc::Global;

// What is to stand where the chunk of an identifier stood: the chunk of the value for the first one, if there is a
// value, and nothing for any other.
fn whole_content(
    alloc: Global,
    word: FourCc,
    value: &Option<Value>,
    first: bool,
) -> Result<Content, NoMemory>
    requires whole { one_of whole_ids word.0 ≡ true }
    requires small { IfSome value.now (λ v. length v.raw < 2 ^ 32) }
    ensures { (now : List Chunk) → now ≡ (if first then new_whole word.0 value.now else [])
        → IfOk result (λ content. content ≡ edited_as now) }
{
    let Some(value) = value else {
        return Ok(Content::Edited {
            now: Bytes::new(alloc, &[])?,
            parts: 0,
        });
    };
    if !first {
        return Ok(Content::Edited {
            now: Bytes::new(alloc, &[])?,
            parts: 0,
        });
    }
    let now = spell_chunk(alloc, word, value.raw.as_slice())?;
    Ok(Content::Edited { now, parts: 1 })
}

// Edits a cell where it is the field of an identifier as a whole. Gives how many there were up to this one.
fn whole_at(
    cell: &mut CellAt,
    alloc: Global,
    word: FourCc,
    value: &Option<Value>,
    count: usize,
) -> Result<usize, NoMemory>
    requires whole { one_of whole_ids word.0 ≡ true }
    requires small { IfSome value.now (λ v. length v.raw < 2 ^ 32) }
    requires few { count + 1 < 2 ^ 64 }
    ensures cell { OnOk result (cell.new
        ≡ (if holds_whole word.0 cell.old.content then edited_at cell.old (first_new (new_whole word.0 value.now) count)
        else cell.old)) }
    ensures count { IfOk result (λ n. n ≡ (if holds_whole word.0 cell.old.content then count + 1 else count)) }
{
    if !is_whole(cell, word) {
        return Ok(count);
    }
    cell.content = whole_content(alloc, word, value, count == 0)?;
    cell.lacks_pad = false;
    Ok(count + 1)
}

// Edits all cells that are the field of an identifier as a whole. Gives how many there are.
fn change_wholes(
    cells: &mut Vec<CellAt>,
    alloc: Global,
    word: FourCc,
    value: &Option<Value>,
) -> Result<usize, NoMemory>
    requires whole { one_of whole_ids word.0 ≡ true }
    requires small { IfSome value.now (λ v. length v.raw < 2 ^ 32) }
    ensures cells { OnOk result (cells.new.items ≡ changed_row (holds_whole word.0)
        (λ n x. edited_at x (first_new (new_whole word.0 value.now) n)) 0 cells.old.items) }
    ensures count { IfOk result (λ n. n ≡ count_row (holds_whole word.0) cells.old.items) }
{
    let mut count = 0;
    'cells: for i in 0..cells.len() {
        count = whole_at(&mut cells[i], alloc, word, value, count)?;
    }
    Ok(count)
}

/// Sets or removes the field of an identifier as a whole, in a row of cells that begins at the byte `from`: the first
/// chunk becomes the new one and the others go, or a new one stands behind all but padding.
pub fn put_whole(
    cells: &mut Vec<CellAt>,
    alloc: Global,
    from: u64,
    word: FourCc,
    value: &Option<Value>,
) -> Result<(), NoMemory>
    requires whole { one_of whole_ids word.0 ≡ true }
    requires small { IfSome value.now (λ v. length v.raw < 2 ^ 32) }
    ensures told { OnOk result ((xs : List Cell) → Unmet (is_field word.0) xs → cells.old.items ≡ told_row from xs
        → cells.new.items ≡ told_row from (acted_cells
        (whole_by word.0 (Some value.now) (some_chunk (is_field word.0) (flat_map live xs))) xs)) }
    ensures follow { OnOk result ((end : ℕ) → Follow from cells.old.items end → Follow from cells.new.items end) }
{
    let count = change_wholes(cells, alloc, word, value)?;
    if count > 0 {
        return Ok(());
    }
    let Some(value) = value else {
        return Ok(());
    };
    let now = spell_chunk(alloc, word, value.raw.as_slice())?;
    put_cell(cells, from, false, Content::Edited { now, parts: 1 })
}

// Whether a change is of the field of an identifier as a whole.
fn is_of(change: &RawChange, word: FourCc) -> bool
    ensures { result ≡ names_whole word.0 change.now.name }
{
    match &change.name {
        FieldName::Whole(id) => id.is(&word.0),
        _ => false,
    }
}

// Sets or removes the field of an identifier as a whole, where a change is of it; the last one tells what becomes of
// it.
fn edit_whole(
    cells: &mut Vec<CellAt>,
    alloc: Global,
    from: u64,
    word: FourCc,
    changes: &[RawChange],
) -> Result<(), NoMemory>
    requires whole { one_of whole_ids word.0 ≡ true }
    requires fine { AreFine changes.now }
    ensures told { OnOk result ((xs : List Cell) → Unmet (is_field word.0) xs → cells.old.items ≡ told_row from xs
        → cells.new.items
        ≡ told_row from (acted_cells (whole_act word.0 (raw_items_of changes.now) (flat_map live xs)) xs)) }
    ensures follow { OnOk result ((end : ℕ) → Follow from cells.old.items end → Follow from cells.new.items end) }
{
    let mut k = changes.len();
    'changes: while k > 0 {
        let change = &changes[k - 1];
        if is_of(change, word) {
            return put_whole(cells, alloc, from, word, &change.value);
        }
        k -= 1;
    }
    Ok(())
}

/// Sets and removes the fields that are whole chunks, in a row of cells that begins at the byte `from`.
pub fn edit_wholes(
    cells: &mut Vec<CellAt>,
    alloc: Global,
    from: u64,
    changes: &[RawChange],
) -> Result<(), NoMemory>
    requires fine { AreFine changes.now }
    ensures told { OnOk result ((xs : List Cell) → NoWholes xs → cells.old.items ≡ told_row from xs
        → cells.new.items ≡ told_row from (carried (map (λ w. whole_act w (raw_items_of changes.now)) whole_ids) xs)) }
    ensures follow { OnOk result ((end : ℕ) → Follow from cells.old.items end → Follow from cells.new.items end) }
{
    edit_whole(cells, alloc, from, FourCc(*b"axml"), changes)?;
    edit_whole(cells, alloc, from, FourCc(*b"iXML"), changes)?;
    edit_whole(cells, alloc, from, FourCc(*b"_PMX"), changes)?;
    edit_whole(cells, alloc, from, FourCc(*b"MD5 "), changes)
}
