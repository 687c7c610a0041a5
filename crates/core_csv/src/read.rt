// A table read.
ghost use Rattle.std.specs.Prelude.{◌≡◌, ◌+◌, ◌<◌, ◌≤◌, ◌^◌, [], None, length, drop};
ghost use Rattle.csv.specs.Reading.{default_config, records_from};
ghost use Rattle.csv.specs.Records.{fields_of};
ghost use Rattle.core_table.specs.Answers.{Answers};
ghost use Rattle.core_csv.specs.Records.{IsReading, state_of, text_of};
ghost use Rattle.core_csv.specs.Table as spec;

use crate::found::Found;
use crate::header::{check_columns, is_header};
use crate::records::{next, start, text_len};
use crate::row::after_row;
use core_edit::Edit;
use core_table::{MOST_BYTES, TableFault};
use csv::{ByteRecord, Reader};
use std::alloc::Global;

/// The edit that a table gives a file, or the first fault in reading order. Records are those of the crate `csv` with its default
/// settings.
///
/// # Errors
///
/// Each fault exactly where the table has it first; `Memory` where there was none.
pub fn read_table(alloc: Global, bytes: &[u8], file: &[u8]) -> Result<Edit, TableFault>
    ensures { Answers (spec.table bytes.now file.now) result }
{
    if bytes.len() > MOST_BYTES {
        return Err(TableFault::Long);
    }
    let mut reader = start(alloc, bytes);
    read_records(alloc, file, &mut reader, text_len(bytes))
}

// Reads the records of a text of so many bytes.
fn read_records(
    alloc: Global,
    file: &[u8],
    reader: &mut Reader<&[u8]>,
    size: usize,
) -> Result<Edit, TableFault>
    requires few { size + 1 < 2 ^ 32 }
    requires reading { IsReading reader.old }
    requires size { length (text_of reader.old) ≡ size }
    ensures { Answers
        (spec.read file.now (records_from default_config (size + 1) (state_of reader.old) (text_of reader.old)))
        result }
{
    let mut header = ByteRecord::new(alloc);
    if !next(reader, &mut header)? {
        return Err(TableFault::NoHeader);
    }
    if !is_header(&header) {
        return Err(TableFault::NoHeader);
    }
    check_columns(alloc, &header)?;
    read_rows(alloc, file, &header, reader, size)
}

// Reads the rows that are left, which are at most so many.
fn read_rows(
    alloc: Global,
    file: &[u8],
    header: &ByteRecord,
    reader: &mut Reader<&[u8]>,
    most: usize,
) -> Result<Edit, TableFault>
    requires few { most < 2 ^ 32 }
    requires reading { IsReading reader.old }
    requires some { 0 < length (fields_of header.now) }
    requires small { length (fields_of header.now) < 2 ^ 32 }
    requires sound { spec.header_fault 2 [] (drop 1 (fields_of header.now)) ≡ None }
    ensures { Answers
        (spec.read_rows file.now (drop 1 (fields_of header.now)) 1 None
        (records_from default_config most (state_of reader.old) (text_of reader.old))) result }
{
    let mut row = ByteRecord::new(alloc);
    let mut found = None;
    for k in 0..most {
        if !next(reader, &mut row)? {
            return edit_of(found);
        }
        found = after_row(alloc, file, header, k as u32 + 1, &row, found)?;
    }
    edit_of(found)
}

fn edit_of(found: Option<Found>) -> Result<Edit, TableFault>
    ensures { result ≡ spec.edit_of found }
{
    match found {
        Some(found) => Ok(found.edit),
        None => Err(TableFault::NoRow),
    }
}
