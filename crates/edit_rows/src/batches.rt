// Worked batches: one edit of many files, each on its own depot, and what it is to tell, print and leave.
ghost use Rattle.std.specs.Prelude.{◌≡◌, ◌<◌, ℕ, Ok, IfOk, IsTrue, get_or, length, true};
ghost use Rattle.me_disk.specs.Memory.{Memory, memory_disk};
ghost use Rattle.metaedit_top.specs.Run.{OneImage};
ghost use Rattle.metaedit_top.specs.BatchWords.{batch_files as files_in, is_batch as asks_for_batch};

use crate::rows::Held;
use crate::runs::{depot_of, holds, paper, words_of};
use me_disk::{Depot, FailAt, MemoryDepot, MemorySink};
use metaedit_top::{
    BatchOutcome, FileEnd, Word, batch_code, batch_files, batch_line, is_batch, metaedit_batch,
};
use part_tree::NoMemory;
use std::alloc::Global;

/// A file of a batch: what stands before it, which calls of its device fail, and what is left.
#[derive(Clone, Copy)]
pub struct BatchFile<'a> {
    pub before: Held<'a>,
    pub failing: &'a [FailAt],
    pub after: Held<'a>,
}

impl<'a> BatchFile<'a> {
    /// A file of which this is left.
    pub fn leaving(before: &'a [u8], after: &'a [u8]) -> BatchFile<'a> {
        BatchFile {
            before: Held::alone(before),
            failing: &[],
            after: Held::alone(after),
        }
    }

    /// A file that is left as it is, where these calls of its device fail.
    pub fn failing(file: &'a [u8], failing: &'a [FailAt]) -> BatchFile<'a> {
        BatchFile {
            before: Held::alone(file),
            failing,
            after: Held::alone(file),
        }
    }

    /// What is left as it is.
    pub fn kept(held: Held<'a>) -> BatchFile<'a> {
        BatchFile {
            before: held,
            failing: &[],
            after: held,
        }
    }
}

/// A batch on these files, and what it is to tell and print.
#[derive(Clone, Copy)]
pub struct BatchRow<'a> {
    pub words: &'a [&'a str],
    pub files: &'a [BatchFile<'a>],
    pub rounds: Option<u64>,
    pub status: u8,
    pub line: &'a str,
    pub printed: &'a str,
}

impl<'a> BatchRow<'a> {
    /// A batch in which each file has its end.
    pub fn ran(
        words: &'a [&'a str],
        files: &'a [BatchFile<'a>],
        status: u8,
        printed: &'a str,
    ) -> BatchRow<'a> {
        BatchRow {
            words,
            files,
            rounds: None,
            status,
            line: "",
            printed,
        }
    }

    /// A batch whose words are refused.
    pub fn words(words: &'a [&'a str], files: &'a [BatchFile<'a>], line: &'a str) -> BatchRow<'a> {
        BatchRow {
            words,
            files,
            rounds: None,
            status: 2,
            line,
            printed: "",
        }
    }

    /// A batch of which so many rounds are made, and in which a file has calls left then.
    pub fn stopped(words: &'a [&'a str], files: &'a [BatchFile<'a>], rounds: u64) -> BatchRow<'a> {
        BatchRow {
            words,
            files,
            rounds: Some(rounds),
            status: 15,
            line: "refused 15 Stopped\n",
            printed: "",
        }
    }
}

/// A depot for each file.
pub fn depots_of(alloc: Global, files: &[BatchFile<'_>]) -> Result<Vec<MemoryDepot>, NoMemory>
    ensures { IfOk result (λ depots. (i : ℕ) (d : Memory) → i < length depots.items
        → OneImage (memory_disk (get_or depots.items i d))) }
{
    let mut depots = Vec::new(alloc);
    for file in files {
        let depot = depot_of(alloc, file.before.main, file.before.journal, file.failing)?;
        match depots.push(depot) {
            Ok(()) => {}
            Err(_) => return Err(NoMemory),
        }
    }
    Ok(depots)
}

// Whether so many depots are those of a batch with these words. Any are, where the words are refused.
fn fits(words: &[Word], count: usize) -> bool
    ensures { IsTrue result → (n : ℕ) → files_in words.now ≡ Ok n → count ≡ n }
{
    match batch_files(words) {
        Ok(n) => n == count,
        Err(_) => true,
    }
}

/// What a batch answers; None where its words begin with no `batch`, or name another number of files.
pub fn batch_on<D: Depot>(
    alloc: Global,
    words: &[Word],
    depots: &mut [D],
    out: &mut MemorySink,
    rounds: Option<u64>,
) -> Option<BatchOutcome> {
    if is_batch(words) && fits(words, depots.len()) {
        Some(metaedit_batch(alloc, words, depots, out, rounds))
    } else {
        None
    }
}

/// What a batch answers, its depots, and the paper that it printed on.
#[derive(Drop)]
pub struct BatchRan {
    pub outcome: Option<BatchOutcome>,
    pub depots: Vec<MemoryDepot>,
    pub out: MemorySink,
}

/// A batch, where these writes of its output fail.
pub fn batch_ran(alloc: Global, row: &BatchRow<'_>, failing: &[u64]) -> Result<BatchRan, NoMemory> {
    let words = words_of(alloc, row.words)?;
    let mut depots = depots_of(alloc, row.files)?;
    let mut out = paper(alloc, failing)?;
    let outcome = batch_on(alloc, &words, &mut depots, &mut out, row.rounds);
    Ok(BatchRan {
        outcome,
        depots,
        out,
    })
}

// Whether the status and the line of what it answers are those of the row.
fn is_told(
    alloc: Global,
    outcome: &Option<BatchOutcome>,
    row: &BatchRow<'_>,
) -> Result<bool, NoMemory> {
    match outcome {
        Some(outcome) => {
            let line = batch_line(alloc, outcome)?;
            Ok(batch_code(outcome) == row.status && line.as_slice() == row.line.as_bytes())
        }
        None => Ok(false),
    }
}

// Whether each depot holds what is to be left of its file.
fn are_left(depots: &[MemoryDepot], files: &[BatchFile<'_>]) -> bool {
    if depots.len() != files.len() {
        return false;
    }
    for i in 0..files.len() {
        if !holds(&depots[i], files[i].after.main, files[i].after.journal) {
            return false;
        }
    }
    true
}

/// Whether the batch goes as the row says, where these writes of its output fail.
pub fn batch_goes(alloc: Global, row: &BatchRow<'_>, failing: &[u64]) -> Result<bool, NoMemory> {
    let ran = batch_ran(alloc, row, failing)?;
    Ok(
        is_told(alloc, &ran.outcome, row)?
            && ran.out.written() == row.printed.as_bytes()
            && are_left(&ran.depots, row.files),
    )
}

/// Whether these are the ends that the outcome tells.
pub fn tells_ends(outcome: &Option<BatchOutcome>, want: &[FileEnd]) -> bool {
    match outcome {
        Some(BatchOutcome::Ran { ends }) => ends.as_slice() == want,
        Some(BatchOutcome::OutFault { ends }) => ends.as_slice() == want,
        _ => false,
    }
}

/// Whether the batch was stopped with these ends, each where its file has one.
pub fn tells_stop(outcome: &Option<BatchOutcome>, want: &[Option<FileEnd>]) -> bool {
    match outcome {
        Some(BatchOutcome::Stopped { ends }) => ends.as_slice() == want,
        _ => false,
    }
}
