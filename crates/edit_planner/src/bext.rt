// The chunk `bext` (EBU Tech 3285).
ghost use Rattle.std.specs.Prelude.{◌≡◌, ◌≤◌, ◌<◌, ◌+◌, ◌^◌, ◌∷◌, [], ℕ, List, IfOk, OnOk, codes, length, Bool, true, if◌then◌else◌};
ghost use Rattle.std.specs.List.{flat_map};
ghost use Rattle.container_model.specs.Chunk.{Chunk, spell};
ghost use Rattle.container_model.specs.Units.{Cell, live};
ghost use Rattle.carrier_model.specs.Info.{made};
ghost use Rattle.field_model.specs.Bext.{new_body};
ghost use Rattle.field_model.specs.Body.{edited_bext};
ghost use Rattle.carrier_model.specs.Cells.{acted_cells};
ghost use Rattle.field_model.specs.Update.{is_bext as is_range};
ghost use Rattle.bext_fields.specs.Change.{raw_items_of};
ghost use Rattle.wave_model.specs.Carry.{bext_act, edits_bext};
ghost use Rattle.edit_planner.specs.Cells.{AreFine, AreReadable, Follow, IsReadable, Unedited, edited_as, told_row};
ghost use Rattle.edit_planner.specs.Row.{body_edited, changed_row, count_row, is_body as holds_body};
ghost use Rattle.edit_planner.specs.declared.cells.CellAt.{CellAt};

use crate::cells::{CellAt, Content, put_cell, spell_chunk};
use bext_fields::{RawChange, edited_body, new_edited_body};
use part_tree::{Bytes, FieldName, FourCc, NoMemory};
use std::alloc::Global;

fn is_of_bext(name: &FieldName) -> bool
    ensures { result ≡ is_range name.now }
{
    match name {
        FieldName::Bext(_) => true,
        _ => false,
    }
}

// Whether a change is of a field of `bext`.
fn edits(changes: &[RawChange]) -> bool
    ensures { result ≡ edits_bext (raw_items_of changes.now) }
{
    'changes: for change in changes {
        if is_of_bext(&change.name) {
            return true;
        }
    }
    false
}

// The chunk of a body with the changes.
fn edited_content(alloc: Global, body: &[u8], changes: &[RawChange]) -> Result<Content, NoMemory>
    requires long { 602 ≤ length body.now }
    requires small { length body.now ≤ 2 ^ 24 }
    requires fine { AreFine changes.now }
    ensures { (now : List Chunk) → now ≡ made (codes "bext") (edited_bext (raw_items_of changes.now) body.now) ∷ []
        → IfOk result (λ content. content ≡ edited_as now) }
{
    let edited = edited_body(alloc, body, changes)?;
    let now = spell_chunk(alloc, FourCc(*b"bext"), edited.as_slice())?;
    Ok(Content::Edited { now, parts: 1 })
}

// Edits a cell where it is `bext`. Gives how many there were up to this one.
fn body_at(
    cell: &mut CellAt,
    alloc: Global,
    changes: &[RawChange],
    count: usize,
) -> Result<usize, NoMemory>
    requires readable { IsReadable cell.old.content }
    requires fine { AreFine changes.now }
    requires few { count + 1 < 2 ^ 64 }
    ensures cell { OnOk result (cell.new
        ≡ (if holds_body cell.old.content then body_edited (raw_items_of changes.now) cell.old else cell.old)) }
    ensures count { IfOk result (λ n. n ≡ (if holds_body cell.old.content then count + 1 else count)) }
{
    let Content::Body(body) = &cell.content else {
        return Ok(count);
    };
    cell.content = edited_content(alloc, body.as_slice(), changes)?;
    cell.lacks_pad = false;
    Ok(count + 1)
}

// Edits each cell that is `bext`. Gives how many there are.
fn change_bodies(
    cells: &mut Vec<CellAt>,
    alloc: Global,
    changes: &[RawChange],
) -> Result<usize, NoMemory>
    requires readable { AreReadable cells.old.items }
    requires fine { AreFine changes.now }
    ensures cells { OnOk result (cells.new.items
        ≡ changed_row holds_body (λ n x. body_edited (raw_items_of changes.now) x) 0 cells.old.items) }
    ensures count { IfOk result (λ n. n ≡ count_row holds_body cells.old.items) }
{
    let mut count = 0;
    'cells: for i in 0..cells.len() {
        count = body_at(&mut cells[i], alloc, changes, count)?;
    }
    Ok(count)
}

// The chunk of a new body with the changes.
fn new_chunk(alloc: Global, changes: &[RawChange]) -> Result<Bytes, NoMemory>
    requires fine { AreFine changes.now }
    ensures { IfOk result (λ bytes. bytes
        ≡ spell (made (codes "bext") (edited_bext (raw_items_of changes.now) new_body))) }
{
    let body = new_edited_body(alloc, changes)?;
    spell_chunk(alloc, FourCc(*b"bext"), body.as_slice())
}

/// Edits `bext` where it stands, in a row of cells that begins at the byte `from`, or puts a new one before `fmt `.
pub fn edit_bext(
    cells: &mut Vec<CellAt>,
    alloc: Global,
    from: u64,
    changes: &[RawChange],
) -> Result<(), NoMemory>
    requires readable { AreReadable cells.old.items }
    requires fine { AreFine changes.now }
    ensures told { OnOk result ((xs : List Cell) → Unedited xs → cells.old.items ≡ told_row from xs
        → cells.new.items ≡ told_row from (acted_cells (bext_act (raw_items_of changes.now) (flat_map live xs)) xs)) }
    ensures follow { OnOk result ((end : ℕ) → Follow from cells.old.items end → Follow from cells.new.items end) }
    ensures readable { OnOk result (AreReadable cells.new.items) }
{
    if !edits(changes) {
        return Ok(());
    }
    let count = change_bodies(cells, alloc, changes)?;
    if count > 0 {
        return Ok(());
    }
    let now = new_chunk(alloc, changes)?;
    put_cell(cells, from, true, Content::Edited { now, parts: 1 })
}
