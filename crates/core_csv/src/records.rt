// The records of a table, as `csv` reads them with its default settings.
ghost use Rattle.std.specs.Prelude.{◌≡◌, ◌+◌, ◌≤◌, [], IfOk, IfErr, OnOk, length, get_or};
ghost use Rattle.csv.specs.Machine.{next_record};
ghost use Rattle.csv.specs.Reading.{NextIs, default_config, strip_bom};
ghost use Rattle.csv.specs.Records.{fields_of};
ghost use Rattle.csv.specs.declared.parser.State.TheVariants as st;
ghost use Rattle.core_csv.specs.Records as spec;
ghost use Rattle.core_csv.specs.Records.{IsReading, state_of, text_of};

use core_table::TableFault;
use csv::{ByteRecord, Reader, ReaderBuilder};
use std::alloc::Global;

/// A reader at the start of a table.
pub(crate) fn start(alloc: Global, bytes: &[u8]) -> Reader<&[u8]>
    ensures reading { IsReading result }
    ensures state { state_of result ≡ st.StartRecord }
    ensures text { text_of result ≡ strip_bom bytes.now }
{
    ReaderBuilder::new()
        .has_headers(false)
        .flexible(true)
        .from_reader(alloc, bytes)
}

/// Reads the next record, and whether there was one. No read of bytes fails but for want of memory.
pub(crate) fn next(reader: &mut Reader<&[u8]>, row: &mut ByteRecord) -> Result<bool, TableFault>
    requires { IsReading reader.old }
    ensures reading { OnOk result (IsReading reader.new) }
    ensures found { IfOk result
        (λ found. NextIs (next_record default_config (state_of reader.old) [] [] (text_of reader.old)) found
        (fields_of row.new) (state_of reader.new) (text_of reader.new)) }
    ensures memory { IfErr result (λ e. e ≡ TableFault.Memory) }
{
    match reader.read_byte_record(row) {
        Ok(found) => Ok(found),
        Err(_) => Err(TableFault::Memory),
    }
}

// Whether a table begins with a byte order mark.
fn is_marked(bytes: &[u8]) -> bool
    ensures { result ≡ spec.is_marked bytes.now }
{
    match bytes {
        [a, b, c, ..] => *a == 0xef && *b == 0xbb && *c == 0xbf,
        _ => false,
    }
}

/// How many bytes a table has behind a byte order mark at its very start.
pub(crate) fn text_len(bytes: &[u8]) -> usize
    ensures len { result ≡ length (strip_bom bytes.now) }
    ensures most { result ≤ length bytes.now }
{
    if is_marked(bytes) {
        bytes.len() - 3
    } else {
        bytes.len()
    }
}

/// The cell at a place, from 0; no bytes past the last one.
pub(crate) fn cell_at(row: &ByteRecord, at: usize) -> &[u8]
    ensures { result.now ≡ get_or (fields_of row.now) at [] }
{
    match row.get(at) {
        Some(cell) => cell,
        None => b"",
    }
}
