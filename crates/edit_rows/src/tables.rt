// Worked rows: a run with a table, and what it is to answer, print and leave.
use crate::files::PLAIN;
use crate::runs::{depot_of, holds, paper, run_by, words_of};
use crate::stops::stop;
use me_disk::{Depot, MemorySource};
use metaedit_top::{Outcome, code, line_of};
use part_tree::NoMemory;
use std::alloc::Global;

/// A run with a table, and what it is to tell, print and leave.
#[derive(Clone, Copy)]
pub struct TableRow<'a> {
    pub words: &'a [&'a str],
    pub table: &'a [u8],
    pub before: &'a [u8],
    pub status: u8,
    pub line: &'a str,
    pub printed: &'a str,
    pub after: &'a [u8],
}

impl<'a> TableRow<'a> {
    /// A run that is done with a file, and leaves this one.
    pub fn done(
        words: &'a [&'a str],
        table: &'a [u8],
        before: &'a [u8],
        printed: &'a str,
        after: &'a [u8],
    ) -> TableRow<'a> {
        TableRow {
            words,
            table,
            before,
            status: 0,
            line: "",
            printed,
            after,
        }
    }

    /// A run whose words are refused.
    pub fn words(words: &'a [&'a str], line: &'a str) -> TableRow<'a> {
        TableRow::refused(words, b"", PLAIN, 2, line)
    }

    /// A run that is refused, and leaves the file as it is.
    pub fn refused(
        words: &'a [&'a str],
        table: &'a [u8],
        file: &'a [u8],
        status: u8,
        line: &'a str,
    ) -> TableRow<'a> {
        TableRow {
            words,
            table,
            before: file,
            status,
            line,
            printed: "",
            after: file,
        }
    }
}

/// Whether the run ends at its table without a call of the device, where these reads of the table fail.
pub fn stops_at_the_table(
    alloc: Global,
    row: &TableRow<'_>,
    failing: &[u64],
) -> Result<bool, NoMemory> {
    let words = words_of(alloc, row.words)?;
    let bytes = row.table.to_vec(alloc)?;
    let mut table = MemorySource::new(bytes, failing.to_vec(alloc)?);
    let mut depot = depot_of(alloc, Some(row.before), None, &[])?;
    stop(&mut depot, 0);
    let mut out = paper(alloc, &[])?;
    let outcome = run_by(alloc, &words, &mut table, &mut depot, &mut out);
    Ok(outcome == Outcome::TableReadFault && depot.faults() == 0)
}

/// Whether the run goes as the row says, where these reads of the table fail.
pub fn goes_by(alloc: Global, row: &TableRow<'_>, failing: &[u64]) -> Result<bool, NoMemory> {
    let words = words_of(alloc, row.words)?;
    let bytes = row.table.to_vec(alloc)?;
    let mut table = MemorySource::new(bytes, failing.to_vec(alloc)?);
    let mut depot = depot_of(alloc, Some(row.before), None, &[])?;
    let mut out = paper(alloc, &[])?;
    let outcome = run_by(alloc, &words, &mut table, &mut depot, &mut out);
    let line = line_of(alloc, &outcome)?;
    Ok(
        code(&outcome) == row.status
            && line.as_slice() == row.line.as_bytes()
            && out.written() == row.printed.as_bytes()
            && holds(&depot, Some(row.after), None),
    )
}
