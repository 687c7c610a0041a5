// A table read.
ghost use Rattle.std.specs.Prelude.{◌≡◌, ◌+◌, ◌≤◌, ◌<◌, ◌^◌, List, ℕ, length};
ghost use Rattle.core_table.specs.Answers.{Answers};
ghost use Rattle.core_xml.specs.Table as spec;

use crate::reading::{Reading, after_line, at_end};
use bstr::{ByteSlice, LinesWithTerminator};
use core_edit::Edit;
use core_table::{MOST_BYTES, TableFault};
use std::alloc::Global;

/// The edit that a table gives a file, or the first fault in reading order.
///
/// # Errors
///
/// Each fault exactly where the table has it first; `Memory` where there was none.
pub fn read_core(alloc: Global, bytes: &[u8], file: &[u8]) -> Result<Edit, TableFault>
    ensures { Answers (spec.table bytes.now file.now) result }
{
    if bytes.len() > MOST_BYTES {
        return Err(TableFault::Long);
    }
    read_lines(alloc, file, bytes.lines_with_terminator())
}

// Reads the lines of a table.
fn read_lines(
    alloc: Global,
    file: &[u8],
    mut lines: LinesWithTerminator<'_>,
) -> Result<Edit, TableFault>
    requires { length lines + 1 < 2 ^ 32 }
    ensures { Answers (spec.read_lines spec.start file.now 1 lines.entry) result }
{
    let mut reading = Reading::new(alloc);
    let mut n = 1;
    'lines: while let Some(line) = lines.next() {
        reading = after_line(reading, alloc, file, n, line)?;
        n += 1;
    }
    at_end(reading, n)
}
