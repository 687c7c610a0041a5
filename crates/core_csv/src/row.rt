// The rows of a table, and the file's row among them.
ghost use Rattle.std.specs.Prelude.{◌≡◌, ◌+◌, ◌<◌, ◌^◌, [], None, Ok, length, drop};
ghost use Rattle.std.specs.List.{list_all};
ghost use Rattle.std.specs.Str.{is_utf8};
ghost use Rattle.csv.specs.Records.{fields_of};
ghost use Rattle.core_table.specs.Answers.{Answers, unless};
ghost use Rattle.core_csv.specs.Table as spec;

use crate::cell::row_items;
use crate::found::Found;
use crate::records::cell_at;
use bstr::ByteSlice;
use core_edit::unescape;
use core_table::TableFault;
use csv::ByteRecord;
use std::alloc::Global;

// Whether a cell is UTF-8.
fn is_text(cell: &[u8]) -> bool
    ensures { result ≡ is_utf8 cell.now }
{
    cell.is_utf8()
}

// Whether each cell is UTF-8.
fn are_texts(row: &ByteRecord) -> bool
    ensures { result ≡ list_all is_utf8 (fields_of row.now) }
{
    for at in 0..row.len() {
        if !is_text(cell_at(row, at)) {
            return false;
        }
    }
    true
}

// Looks at row `n` by itself, and whether it is the file's.
fn is_row_of(
    alloc: Global,
    file: &[u8],
    width: usize,
    n: u32,
    row: &ByteRecord,
) -> Result<bool, TableFault>
    ensures { Answers
        (unless (spec.row_fault width n (fields_of row.now)) (Ok (spec.is_row_of file.now (fields_of row.now))))
        result }
{
    if row.len() != width {
        return Err(TableFault::RowLength { row: n });
    }
    if !are_texts(row) {
        return Err(TableFault::NotUtf8 { row: n });
    }
    match unescape(alloc, cell_at(row, 0))? {
        Some(name) => Ok(name.as_slice() == file),
        None => Err(TableFault::BadEscape { row: n, col: 1 }),
    }
}

// Takes the file's row `n`, where no earlier one is the file's.
fn take_row(
    alloc: Global,
    header: &ByteRecord,
    n: u32,
    row: &ByteRecord,
    found: Option<Found>,
) -> Result<Option<Found>, TableFault>
    requires width { length (fields_of row.now) ≡ length (fields_of header.now) }
    requires small { length (fields_of header.now) < 2 ^ 32 }
    requires sound { spec.header_fault 2 [] (drop 1 (fields_of header.now)) ≡ None }
    ensures { Answers (spec.take_row (drop 1 (fields_of header.now)) n (fields_of row.now) found) result }
{
    if let Some(first) = found {
        return Err(TableFault::TwoRows {
            first: first.row,
            second: n,
        });
    }
    let edit = row_items(alloc, header, row, n)?;
    Ok(Some(Found { row: n, edit }))
}

/// The file's row so far, after row `n`.
pub(crate) fn after_row(
    alloc: Global,
    file: &[u8],
    header: &ByteRecord,
    n: u32,
    row: &ByteRecord,
    found: Option<Found>,
) -> Result<Option<Found>, TableFault>
    requires some { 0 < length (fields_of header.now) }
    requires small { length (fields_of header.now) < 2 ^ 32 }
    requires sound { spec.header_fault 2 [] (drop 1 (fields_of header.now)) ≡ None }
    ensures { Answers (spec.after_row file.now (drop 1 (fields_of header.now)) n found (fields_of row.now)) result }
{
    if is_row_of(alloc, file, header.len(), n, row)? {
        take_row(alloc, header, n, row, found)
    } else {
        Ok(found)
    }
}
