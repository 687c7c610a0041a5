// The cells of the file's row.
ghost use Rattle.std.specs.Prelude.{◌≡◌, ◌+◌, ◌<◌, ◌++◌, ◌^◌, [], length, drop, OnOk, None};
ghost use Rattle.csv.specs.Records.{fields_of};
ghost use Rattle.field_model.specs.Texts.{field_name as named};
ghost use Rattle.core_table.specs.Answers.{Answers, map_ok};
ghost use Rattle.core_csv.specs.Table as spec;

use crate::records::cell_at;
use core_edit::{Edit, field_name, unescape};
use core_table::TableFault;
use csv::ByteRecord;
use part_tree::{Change, EditItem, NoMemory};
use std::alloc::Global;

fn is_removal(cell: &[u8]) -> bool
    ensures { result ≡ spec.is_removal cell.now }
{
    cell == b"\\d".as_slice()
}

// The change that a cell of row `row` and column `col` spells. None where it is empty.
fn change_of(alloc: Global, cell: &[u8], row: u32, col: u32) -> Result<Option<Change>, TableFault>
    ensures { Answers (spec.cell_change row col cell.now) result }
{
    if cell.is_empty() {
        return Ok(None);
    }
    if is_removal(cell) {
        return Ok(Some(Change::Remove));
    }
    match unescape(alloc, cell)? {
        Some(text) => Ok(Some(Change::Set(text))),
        None => Err(TableFault::BadEscape { row, col }),
    }
}

// Appends the item of a name and a change, if both are there.
fn put_item(items: &mut Vec<EditItem>, name: &[u8], change: Option<Change>) -> Result<(), NoMemory>
    ensures { OnOk result (items.new.items ≡ items.old.items ++ spec.item (named name.now) change) }
{
    match (field_name(name), change) {
        (Some(name), Some(change)) => match items.push(EditItem { name, change }) {
            Ok(()) => Ok(()),
            Err(_) => Err(NoMemory),
        },
        _ => Ok(()),
    }
}

/// The items of row `n`, under the names of the header. The first cell with a bad escape is a fault.
pub(crate) fn row_items(
    alloc: Global,
    header: &ByteRecord,
    row: &ByteRecord,
    n: u32,
) -> Result<Edit, TableFault>
    requires width { length (fields_of row.now) ≡ length (fields_of header.now) }
    requires small { length (fields_of header.now) < 2 ^ 32 }
    requires sound { spec.header_fault 2 [] (drop 1 (fields_of header.now)) ≡ None }
    ensures { Answers (spec.row_items n 2 (drop 1 (fields_of header.now)) (drop 1 (fields_of row.now))) result }
{
    let mut items = Vec::new(alloc);
    for at in 1..row.len() {
        let change = change_of(alloc, cell_at(row, at), n, at as u32 + 1)?;
        put_item(&mut items, cell_at(header, at), change)?;
    }
    Ok(Edit::of(items))
}
