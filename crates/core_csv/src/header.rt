// The columns of a table.
ghost use Rattle.std.specs.Prelude.{◌≡◌, ◌+◌, ◌<◌, ◌^◌, ◌||◌, ℕ, List, [], Ok, length, drop, OnOk};
ghost use Rattle.std.specs.Str.{bytes_eq};
ghost use Rattle.csv.specs.Records.{fields_of};
ghost use Rattle.core_table.specs.Answers.{Answers, unless};
ghost use Rattle.core_table.specs.Sets.{has};
ghost use Rattle.core_csv.specs.Table.{column_fault, header_fault, is_header as has_file_name};

use crate::records::cell_at;
use core_edit::field_name;
use core_table::{Seen, TableFault};
use csv::ByteRecord;
use std::alloc::Global;

/// Whether the first cell is `FileName`.
pub(crate) fn is_header(header: &ByteRecord) -> bool
    ensures { result ≡ has_file_name (fields_of header.now) }
{
    cell_at(header, 0) == b"FileName".as_slice()
}

// Looks at the name of column `n`, and takes it.
fn check_column(alloc: Global, seen: &mut Seen, name: &[u8], n: u32) -> Result<(), TableFault>
    ensures answer { Answers (unless (column_fault n seen.old name.now) (Ok tt)) result }
    ensures taken { OnOk result ((other : List ℕ)
        → has seen.new other ≡ (bytes_eq other name.now || has seen.old other)) }
{
    if field_name(name).is_none() {
        return Err(TableFault::UnknownColumn { n });
    }
    if !seen.add(alloc, name)? {
        return Err(TableFault::TwiceColumn { n });
    }
    Ok(())
}

/// Looks at the names of the columns behind the first.
pub(crate) fn check_columns(alloc: Global, header: &ByteRecord) -> Result<(), TableFault>
    requires { length (fields_of header.now) < 2 ^ 32 }
    ensures { Answers (unless (header_fault 2 [] (drop 1 (fields_of header.now))) (Ok tt)) result }
{
    let mut seen = Seen::new(alloc);
    for at in 1..header.len() {
        check_column(alloc, &mut seen, cell_at(header, at), at as u32 + 1)?;
    }
    Ok(())
}
