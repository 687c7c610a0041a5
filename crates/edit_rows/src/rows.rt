// Worked rows: a run on a file, and what it is to answer, print, write and leave.
use crate::runs::{Ran, depot_of, holds, run_told};
use me_disk::MemoryDepot;
use metaedit_top::{Outcome, code, line_of};
use part_tree::NoMemory;
use std::alloc::Global;

/// A file and a journal beside it.
#[derive(Clone, Copy)]
pub struct Held<'a> {
    pub main: Option<&'a [u8]>,
    pub journal: Option<&'a [u8]>,
}

impl<'a> Held<'a> {
    /// A file beside which no journal stands.
    pub fn alone(main: &'a [u8]) -> Held<'a> {
        Held {
            main: Some(main),
            journal: None,
        }
    }
}

/// A run, and what it is to tell, print, write and leave.
#[derive(Clone, Copy)]
pub struct Row<'a> {
    pub words: &'a [&'a str],
    pub before: Held<'a>,
    pub status: u8,
    pub line: &'a str,
    pub printed: &'a str,
    pub written: u64,
    pub after: Held<'a>,
}

impl<'a> Row<'a> {
    /// A run that is done with a file, and leaves it as it is.
    pub fn done(words: &'a [&'a str], file: &'a [u8], printed: &'a str) -> Row<'a> {
        Row {
            words,
            before: Held::alone(file),
            status: 0,
            line: "",
            printed,
            written: 0,
            after: Held::alone(file),
        }
    }

    /// A run that is refused, and leaves the file as it is.
    pub fn refused(words: &'a [&'a str], file: &'a [u8], status: u8, line: &'a str) -> Row<'a> {
        Row {
            words,
            before: Held::alone(file),
            status,
            line,
            printed: "",
            written: 0,
            after: Held::alone(file),
        }
    }

    /// A run that is done with a file and leaves it as it is, with the status 1 where it has findings.
    pub fn finding(
        words: &'a [&'a str],
        file: &'a [u8],
        printed: &'a str,
        has_findings: bool,
    ) -> Row<'a> {
        Row {
            words,
            before: Held::alone(file),
            status: u8::from(has_findings),
            line: "",
            printed,
            written: 0,
            after: Held::alone(file),
        }
    }

    /// A run that is done with a file, writes so many bytes, and leaves another one.
    pub fn leaving(
        words: &'a [&'a str],
        file: &'a [u8],
        printed: &'a str,
        left: &'a [u8],
        written: u64,
    ) -> Row<'a> {
        Row {
            words,
            before: Held::alone(file),
            status: 0,
            line: "",
            printed,
            written,
            after: Held::alone(left),
        }
    }
}

/// Whether the run goes as the row says.
pub fn is_row(alloc: Global, row: &Row<'_>) -> Result<bool, NoMemory> {
    let mut depot = depot_of(alloc, row.before.main, row.before.journal, &[])?;
    let ran = run_told(alloc, row.words, &mut depot)?;
    Ok(is_told(alloc, &ran, row)? && is_left(&depot, row))
}

/// Whether the run answers this and goes as the row says.
pub fn goes(alloc: Global, row: &Row<'_>, outcome: &Outcome) -> Result<bool, NoMemory> {
    let mut depot = depot_of(alloc, row.before.main, row.before.journal, &[])?;
    let ran = run_told(alloc, row.words, &mut depot)?;
    Ok(ran.outcome == *outcome && is_told(alloc, &ran, row)? && is_left(&depot, row))
}

// Whether the status, the line and the report are those of the row.
fn is_told(alloc: Global, ran: &Ran, row: &Row<'_>) -> Result<bool, NoMemory> {
    let line = line_of(alloc, &ran.outcome)?;
    Ok(
        code(&ran.outcome) == row.status
            && line.as_slice() == row.line.as_bytes()
            && ran.out.written() == row.printed.as_bytes(),
    )
}

// Whether what is left is what the row says.
fn is_left(depot: &MemoryDepot, row: &Row<'_>) -> bool {
    depot.written() == row.written && holds(depot, row.after.main, row.after.journal)
}
