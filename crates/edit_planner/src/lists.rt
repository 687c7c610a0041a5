// Lists of INFO items.
ghost use Rattle.std.specs.Prelude.{◌≡◌, ◌≤◌, ◌<◌, ◌+◌, ◌^◌, ◌++◌, ◌∷◌, [], ℕ, List, IfOk, OnOk, IfErr, length, Bool, true, None, if◌then◌else◌, option_map, ◌==◌};
ghost use Rattle.std.specs.List.{flat_map, AllByRecursion};
ghost use Rattle.container_model.specs.Chunk.{Chunk};
ghost use Rattle.container_model.specs.Units.{Cell, live};
ghost use Rattle.container_model.specs.Deep.{Token};
ghost use Rattle.container_model.specs.Items.{has_mark, put_all};
ghost use Rattle.carrier_model.specs.Cells.{Test, never};
ghost use Rattle.carrier_model.specs.Info.{info, info_items, list_of};
ghost use Rattle.part_tree.specs.Large.{limited};
ghost use Rattle.carrier_model.specs.Lists.{edit_list_cells, edit_lists as edited_lists, home, sets_some, some_hold};
ghost use Rattle.bext_fields.specs.Change.{raw_items_of};
ghost use Rattle.info_list.specs.Changes.{changes_of};
ghost use Rattle.info_list.specs.Info.{chunks_of, tokens_of};
ghost use Rattle.wave_model.specs.Fields.{bodies, is_info};
ghost use Rattle.wave_model.specs.Carry.{info_item, info_part, raw};
ghost use Rattle.edit_planner.specs.Cells.{AreReadable, Follow, IsReadable, Unmet, edited_as, told_row, told_row_by};
ghost use Rattle.edit_planner.specs.Row.{changed_row, count_row, is_list as holds_list};
ghost use Rattle.edit_planner.specs.Lists.{AreInfo, Edits, HoldsLists, IsLarge, IsNewList, SmallLists, TellsLarge, new_sizes, all_marks, changed_list, concerned, home_from, homed_as, homed_of, list_edited, marks_in, lengths, part_in, size_in, sizes_in};
ghost use Rattle.edit_planner.specs.declared.cells.CellAt.{CellAt};
ghost use Rattle.edit_planner.specs.declared.cells.Content.{Content as Held};

use crate::cells::{CellAt, Content, is_list, put_cell};
use bext_fields::RawChange;
use info_list::{InfoChange, InfoList, spell_info};
use part_tree::{Bytes, FieldName, FourCc, NoMemory, Value};
use std::alloc::Global;

const MOST_BYTES: u64 = 16_777_216;

/// A field of INFO, what becomes of it, and the number of the list where it is at home.
#[derive(Debug, Drop)]
pub struct Homed {
    pub id: FourCc,
    pub value: Option<Bytes>,
    pub home: usize,
}

/// Why lists aren't edited.
#[derive(Clone, Copy, Debug, PartialEq, Eq)]
pub enum ListsFault {
    /// The body of a list would have this many bytes, which are more than 16 MiB.
    TooLarge { size: u64 },
    Memory,
}

// Whether a cell is a list that has an item of a field.
fn has_item(cell: &CellAt, id: &FourCc) -> bool
    ensures { result ≡ some_hold id.now.0 (marks_in cell.now.content) }
{
    match &cell.content {
        Content::Listed(list) => list.has_item(id),
        _ => false,
    }
}

// The number of the next list.
fn next_number(cell: &CellAt, n: usize) -> usize
    requires { n + 1 < 2 ^ 64 }
    ensures { result ≡ (if holds_list cell.now.content then n + 1 else n) }
{
    if is_list(cell) { n + 1 } else { n }
}

// The number of the first list that has an item of a field. 0 where none has.
fn home_of(cells: &[CellAt], id: &FourCc) -> usize
    ensures { result ≡ home (all_marks cells.now) id.now.0 }
{
    let mut n = 0;
    'cells: for cell in cells {
        if has_item(cell, id) {
            return n;
        }
        n = next_number(cell, n);
    }
    0
}

/// The bytes of a value.
pub fn raw_of(alloc: Global, value: &Option<Value>) -> Result<Option<Bytes>, NoMemory>
    ensures { IfOk result (λ r. r ≡ option_map raw value.now) }
{
    let Some(value) = value else {
        return Ok(None);
    };
    let bytes = Bytes::new(alloc, value.raw.as_slice())?;
    Ok(Some(bytes))
}

// Appends a change where it is of a field of INFO.
fn put_homed(
    homed: &mut Vec<Homed>,
    alloc: Global,
    cells: &[CellAt],
    change: &RawChange,
) -> Result<(), NoMemory>
    ensures { OnOk result (homed.new.items
        ≡ homed.old.items ++ homed_of (home (all_marks cells.now)) (info_item change.now.name change.now.value)) }
{
    let FieldName::Info(id) = &change.name else {
        return Ok(());
    };
    if !change.name.is_field() {
        return Ok(());
    }
    let value = raw_of(alloc, &change.value)?;
    let home = home_of(cells, id);
    match homed.push(Homed {
        id: *id,
        value,
        home,
    }) {
        Err(_) => Err(NoMemory),
        Ok(()) => Ok(()),
    }
}

// The changes of fields of INFO.
fn homed_changes(
    alloc: Global,
    cells: &[CellAt],
    changes: &[RawChange],
) -> Result<Vec<Homed>, NoMemory>
    ensures { IfOk result (λ homed. homed.items
        ≡ homed_of (home (all_marks cells.now)) (info_part (raw_items_of changes.now))) }
{
    let mut homed = Vec::new(alloc);
    'changes: for change in changes {
        put_homed(&mut homed, alloc, cells, change)?;
    }
    Ok(homed)
}

// Whether the list of this number is edited.
fn is_concerned(list: &InfoList, homed: &[Homed], n: usize) -> bool
    ensures { result ≡ concerned n (tokens_of list.now) homed.now }
{
    'changes: for change in homed {
        if list.has_item(&change.id) || change.home == n {
            return true;
        }
    }
    false
}

// The value that a field gets in the list of this number.
fn value_in(alloc: Global, change: &Homed, n: usize) -> Result<Option<Bytes>, NoMemory>
    ensures { IfOk result (λ value. value ≡ (if change.now.home == n then change.now.value else None)) }
{
    if change.home != n {
        return Ok(None);
    }
    let Some(value) = &change.value else {
        return Ok(None);
    };
    let bytes = Bytes::new(alloc, value.as_slice())?;
    Ok(Some(bytes))
}

// The changes of the list of this number.
fn part_for(alloc: Global, homed: &[Homed], n: usize) -> Result<Vec<InfoChange>, NoMemory>
    ensures { IfOk result (λ part. changes_of part.items ≡ part_in n homed.now) }
{
    let mut part = Vec::new(alloc);
    'changes: for change in homed {
        let value = value_in(alloc, change, n)?;
        let id = change.id;
        match part.push(InfoChange { id, value }) {
            Err(_) => return Err(NoMemory),
            Ok(()) => {}
        }
    }
    Ok(part)
}

// A list that is too long; no memory holds one whose length 64 bits don't tell.
fn too_large(size: u64) -> ListsFault
    requires { 2 ^ 24 < size }
    ensures { IsLarge size result }
{
    if size == u64::MAX {
        ListsFault::Memory
    } else {
        ListsFault::TooLarge { size }
    }
}

// The chunk of a list. `TooLarge` where its body passes 16 MiB.
fn spelled_list(alloc: Global, list: &InfoList) -> Result<Content, ListsFault>
    requires readable { IsReadable (Content.Listed list.now) }
    ensures content { (c : Chunk) → c ≡ list_of (chunks_of list.now) list.now.rest
        → IfOk result (λ content. content ≡ edited_as (c ∷ [])) }
    ensures large { (c : Chunk) → c ≡ list_of (chunks_of list.now) list.now.rest
        → TellsLarge (limited (2 ^ 24) (length c.body) ∷ []) result }
{
    let size = list.body_len();
    if size > MOST_BYTES {
        return Err(too_large(size));
    }
    let Some(parts) = (list.count() as u64).checked_add(1) else {
        return Err(ListsFault::Memory);
    };
    match spell_info(alloc, list) {
        Err(_) => Err(ListsFault::Memory),
        Ok(now) => Ok(Content::Edited { now, parts }),
    }
}

// Edits the list of a number. `TooLarge` where its body passes 16 MiB.
fn edited_list(
    list: &mut InfoList,
    alloc: Global,
    homed: &[Homed],
    n: usize,
) -> Result<Content, ListsFault>
    requires readable { IsReadable (Content.Listed list.old) }
    requires info { AreInfo homed.now }
    ensures content { (c : Chunk) → c ≡ changed_list (part_in n homed.now) list.old
        → IfOk result (λ content. content ≡ edited_as (c ∷ [])) }
    ensures large { TellsLarge
        (limited (2 ^ 24) (length (changed_list (part_in n homed.now) list.old).body) ∷ []) result }
{
    let part = match part_for(alloc, homed, n) {
        Err(_) => return Err(ListsFault::Memory),
        Ok(part) => part,
    };
    match list.put_all(alloc, &part) {
        Err(_) => return Err(ListsFault::Memory),
        Ok(()) => {}
    }
    spelled_list(alloc, list)
}

// Edits a cell where it is a list that the changes concern. Gives the number of the next list.
fn list_at(cell: &mut CellAt, alloc: Global, homed: &[Homed], n: usize) -> Result<usize, ListsFault>
    requires readable { IsReadable cell.old.content }
    requires info { AreInfo homed.now }
    requires few { n + 1 < 2 ^ 64 }
    ensures cell { OnOk result (cell.new
        ≡ (if holds_list cell.old.content then list_edited homed.now n cell.old else cell.old)) }
    ensures count { IfOk result (λ m. m ≡ (if holds_list cell.old.content then n + 1 else n)) }
    ensures large { TellsLarge (size_in homed.now n cell.old.content) result }
{
    let Content::Listed(list) = &mut cell.content else {
        return Ok(n);
    };
    if !is_concerned(list, homed, n) {
        return Ok(n + 1);
    }
    let content = match edited_list(list, alloc, homed, n) {
        Err(fault) => return Err(fault),
        Ok(content) => content,
    };
    cell.content = content;
    cell.lacks_pad = false;
    Ok(n + 1)
}

// Edits each list that the changes concern. Gives how many lists there are.
fn change_lists(
    cells: &mut Vec<CellAt>,
    alloc: Global,
    homed: &[Homed],
) -> Result<usize, ListsFault>
    requires readable { AreReadable cells.old.items }
    requires info { AreInfo homed.now }
    ensures cells { OnOk result (cells.new.items
        ≡ changed_row holds_list (λ n x. list_edited homed.now n x) 0 cells.old.items) }
    ensures count { IfOk result (λ n. n ≡ count_row holds_list cells.old.items) }
    ensures large { TellsLarge (sizes_in homed.now 0 cells.old.items) result }
{
    let mut count = 0;
    'cells: for i in 0..cells.len() {
        count = match list_at(&mut cells[i], alloc, homed, count) {
            Err(fault) => return Err(fault),
            Ok(next) => next,
        };
    }
    Ok(count)
}

// Whether a change sets a value.
fn sets_value(part: &[InfoChange]) -> bool
    ensures { result ≡ sets_some (changes_of part.now) }
{
    'changes: for change in part {
        if change.value.is_some() {
            return true;
        }
    }
    false
}

// A new list, where the changes set a value.
fn new_list(alloc: Global, homed: &[Homed]) -> Result<Option<Content>, ListsFault>
    requires info { AreInfo homed.now }
    ensures content { IfOk result (λ content. IsNewList (part_in 0 homed.now) content) }
    ensures large { TellsLarge (new_sizes (part_in 0 homed.now)) result }
{
    let part = match part_for(alloc, homed, 0) {
        Err(_) => return Err(ListsFault::Memory),
        Ok(part) => part,
    };
    if !sets_value(&part) {
        return Ok(None);
    }
    let mut list = InfoList::new(alloc);
    match edited_list(&mut list, alloc, homed, 0) {
        Err(fault) => Err(fault),
        Ok(content) => Ok(Some(content)),
    }
}

/// Edits the lists of INFO items in a row of cells: each list that has an item of a changed field, or where such a field
/// is at home. Where there is no list and a field is set, a new one is given, which is to be put into the row. `TooLarge`
/// tells the first list whose body passes 16 MiB.
pub fn change_or_new(
    cells: &mut Vec<CellAt>,
    alloc: Global,
    changes: &[RawChange],
) -> Result<Option<Content>, ListsFault>
    requires readable { AreReadable cells.old.items }
    ensures edits { IfOk result (λ new. (held : ℕ → Chunk → Held) (t : Test) (from : ℕ) (xs : List Cell)
        → HoldsLists held → Unmet is_info xs → cells.old.items ≡ told_row_by held from xs
        → Edits held t from (info_part (raw_items_of changes.now)) xs cells.new.items new) }
    ensures large { (held : ℕ → Chunk → Held) (t : Test) (from : ℕ) (xs : List Cell) → HoldsLists held
        → Unmet is_info xs → SmallLists (flat_map live xs) → cells.old.items ≡ told_row_by held from xs
        → TellsLarge (lengths (bodies is_info
        (edited_lists info info_items t (info_part (raw_items_of changes.now)) (flat_map live xs)))) result }
    ensures follow { OnOk result ((from end : ℕ) → Follow from cells.old.items end
        → Follow from cells.new.items end) }
    ensures count { OnOk result (length cells.new.items ≡ length cells.old.items) }
{
    let homed = match homed_changes(alloc, cells, changes) {
        Err(_) => return Err(ListsFault::Memory),
        Ok(homed) => homed,
    };
    let count = match change_lists(cells, alloc, &homed) {
        Err(fault) => return Err(fault),
        Ok(count) => count,
    };
    if count > 0 {
        return Ok(None);
    }
    new_list(alloc, &homed)
}

/// Edits the lists of INFO items in a row of cells that begins at the byte `from`: each list that has an item of a
/// changed field, or where such a field is at home. Where there is no list and a field is set, a new one stands behind
/// all but padding. `TooLarge` tells the first list whose body passes 16 MiB.
pub fn edit_lists(
    cells: &mut Vec<CellAt>,
    alloc: Global,
    from: u64,
    changes: &[RawChange],
) -> Result<(), ListsFault>
    requires readable { AreReadable cells.old.items }
    ensures told { OnOk result ((xs : List Cell) → Unmet is_info xs → cells.old.items ≡ told_row from xs
        → cells.new.items
        ≡ told_row from (edit_list_cells info info_items never (info_part (raw_items_of changes.now)) xs)) }
    ensures large { (xs : List Cell) → Unmet is_info xs → SmallLists (flat_map live xs)
        → cells.old.items ≡ told_row from xs
        → TellsLarge (lengths (bodies is_info
        (edited_lists info info_items never (info_part (raw_items_of changes.now)) (flat_map live xs)))) result }
    ensures follow { OnOk result ((end : ℕ) → Follow from cells.old.items end → Follow from cells.new.items end) }
{
    let content = match change_or_new(cells, alloc, changes) {
        Err(fault) => return Err(fault),
        Ok(None) => return Ok(()),
        Ok(Some(content)) => content,
    };
    match put_cell(cells, from, false, content) {
        Err(_) => Err(ListsFault::Memory),
        Ok(()) => Ok(()),
    }
}
