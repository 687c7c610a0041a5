// Worked rows on files of which some bytes are others.
ghost use Rattle.std.specs.Prelude.{◌≡◌, length, IfOk};

use crate::runs::{depot_of, holds, run_told};
use metaedit_top::{code, line_of};
use part_tree::NoMemory;
use std::alloc::Global;

/// A file in which these bytes stand at `at`.
#[derive(Clone, Copy)]
pub struct Laid<'a> {
    pub file: &'a [u8],
    pub at: usize,
    pub bytes: &'a [u8],
}

impl<'a> Laid<'a> {
    /// A file as it is.
    pub fn plain(file: &'a [u8]) -> Laid<'a>
        ensures { result.file.now ≡ file.now }
    {
        Laid {
            file,
            at: 0,
            bytes: b"",
        }
    }
}

/// The bytes of such a file: those of the file itself, where the others don't lie inside it.
pub fn bytes_of(alloc: Global, laid: &Laid<'_>) -> Result<Vec<u8>, NoMemory>
    ensures { IfOk result (λ bytes. length bytes.items ≡ length laid.now.file.now) }
{
    let mut bytes = laid.file.to_vec(alloc)?;
    match laid.at.checked_add(laid.bytes.len()) {
        Some(end) if end <= bytes.len() => bytes[laid.at..end].copy_from_slice(laid.bytes),
        _ => {}
    }
    Ok(bytes)
}

/// A run on such a file, and what it is to tell, print, write and leave.
#[derive(Clone, Copy)]
pub struct LaidRow<'a> {
    pub words: &'a [&'a str],
    pub before: Laid<'a>,
    pub status: u8,
    pub line: &'a str,
    pub printed: &'a str,
    pub written: u64,
    pub after: Laid<'a>,
}

impl<'a> LaidRow<'a> {
    /// A run that is done, writes so many bytes, and leaves another file.
    pub fn leaving(
        words: &'a [&'a str],
        before: Laid<'a>,
        printed: &'a str,
        after: Laid<'a>,
        written: u64,
    ) -> LaidRow<'a> {
        LaidRow {
            words,
            before,
            status: 0,
            line: "",
            printed,
            written,
            after,
        }
    }

    /// A run that is done, and leaves the file as it is.
    pub fn done(words: &'a [&'a str], file: Laid<'a>, printed: &'a str) -> LaidRow<'a> {
        LaidRow::leaving(words, file, printed, file, 0)
    }

    /// A run that is refused, and leaves the file as it is.
    pub fn refused(words: &'a [&'a str], file: Laid<'a>, status: u8, line: &'a str) -> LaidRow<'a> {
        LaidRow {
            words,
            before: file,
            status,
            line,
            printed: "",
            written: 0,
            after: file,
        }
    }
}

/// Whether the run goes as the row says.
pub fn is_laid_row(alloc: Global, row: &LaidRow<'_>) -> Result<bool, NoMemory> {
    let before = bytes_of(alloc, &row.before)?;
    let after = bytes_of(alloc, &row.after)?;
    let mut depot = depot_of(alloc, Some(&before), None, &[])?;
    let ran = run_told(alloc, row.words, &mut depot)?;
    let line = line_of(alloc, &ran.outcome)?;
    Ok(
        code(&ran.outcome) == row.status
            && line.as_slice() == row.line.as_bytes()
            && ran.out.written() == row.printed.as_bytes()
            && depot.written() == row.written
            && holds(&depot, Some(&after), None),
    )
}
