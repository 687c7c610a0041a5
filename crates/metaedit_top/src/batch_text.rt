// What a batch prints, the line that it writes of itself, and its status.
ghost use Rattle.std.specs.Prelude.{◌≡◌, ◌++◌, IfOk, count_by, length};
ghost use Rattle.std.specs.List.{list_all};
ghost use Rattle.metaedit_top.specs.BatchText as spec;
ghost use Rattle.metaedit_top.specs.BatchText.{Printed, batch_status, end_line as end_line_of, is_done};

use crate::batch_end::{BatchOutcome, FileEnd, outcome_of};
use crate::outcome::Outcome;
use crate::text::{code, line_of};
use escapes::escape;
use itoa::Buffer;
use me_disk::{Sink, SinkFault};
use me_report::done_line;
use part_tree::{Bytes, NoMemory};
use std::alloc::Global;

/// The texts of a file of a batch: its word with escapes and a blank, and the line of an end.
#[derive(Drop)]
pub(crate) struct FileTexts {
    pub(crate) name: Bytes,
    pub(crate) line: Bytes,
}

// A word with escapes, and a blank.
fn name_of(alloc: Global, file: &[u8]) -> Result<Bytes, NoMemory>
    ensures { IfOk result (λ name. name ≡ spec.name_text file.now) }
{
    let escaped = escape(alloc, file)?;
    let mut name = escaped.as_slice().to_vec(alloc)?;
    name.extend_from_slice(b" ")?;
    Ok(Bytes::of(name))
}

// The line of an end.
fn end_line(alloc: Global, end: &FileEnd) -> Result<Bytes, NoMemory>
    ensures { IfOk result (λ line. line ≡ end_line_of end.now) }
{
    match end {
        FileEnd::Done(summary) => Bytes::new(alloc, done_line(summary).as_slice()),
        _ => line_of(alloc, &outcome_of(end)),
    }
}

/// The texts of a file with this end.
pub(crate) fn texts_of(alloc: Global, file: &[u8], end: &FileEnd) -> Result<FileTexts, NoMemory>
    ensures name { IfOk result (λ t. t.name ≡ spec.name_text file.now) }
    ensures line { IfOk result (λ t. t.line ≡ end_line_of end.now) }
{
    Ok(FileTexts {
        name: name_of(alloc, file)?,
        line: end_line(alloc, end)?,
    })
}

// Prints two texts, one behind the other.
fn print_both<K: Sink>(out: &mut K, first: &[u8], second: &[u8]) -> Result<(), SinkFault>
    ensures { Printed (first.now ++ second.now)
        (K.contents out.old) (K.contents out.new) (K.faults out.old) (K.faults out.new) result }
{
    out.write_all(first)?;
    out.write_all(second)
}

// Prints three texts, one behind the other.
fn print_three<K: Sink>(
    out: &mut K,
    first: &[u8],
    second: &[u8],
    third: &[u8],
) -> Result<(), SinkFault>
    ensures { Printed (first.now ++ (second.now ++ third.now))
        (K.contents out.old) (K.contents out.new) (K.faults out.old) (K.faults out.new) result }
{
    out.write_all(first)?;
    print_both(out, second, third)
}

// Prints the line of a device that failed. It takes no memory.
fn print_fault<K: Sink>(out: &mut K, faults: u64) -> Result<(), SinkFault>
    ensures { Printed (end_line_of (FileEnd.DepotFault faults))
        (K.contents out.old) (K.contents out.new) (K.faults out.old) (K.faults out.new) result }
{
    let mut buffer = Buffer::new();
    print_three(
        out,
        b"refused 9 DepotFault ",
        buffer.format(faults).as_bytes(),
        b"\n",
    )
}

// How many faults the device had counted, where it failed.
fn fault_count(end: FileEnd) -> Option<u64>
    ensures { result ≡ spec.fault_count end }
{
    match end {
        FileEnd::DepotFault { faults } => Some(faults),
        _ => None,
    }
}

// Prints the line of an end, which is that of the texts but where the device has failed since.
fn print_end<K: Sink>(out: &mut K, texts: &FileTexts, end: FileEnd) -> Result<(), SinkFault>
    requires { spec.IsTextOf texts.now end }
    ensures { Printed (end_line_of end)
        (K.contents out.old) (K.contents out.new) (K.faults out.old) (K.faults out.new) result }
{
    match fault_count(end) {
        Some(faults) => print_fault(out, faults),
        None => out.write_all(texts.line.as_slice()),
    }
}

// Prints the line of a file.
fn print_file<K: Sink>(out: &mut K, texts: &FileTexts, end: FileEnd) -> Result<(), SinkFault>
    requires { spec.IsTextOf texts.now end }
    ensures { Printed (texts.now.name ++ end_line_of end)
        (K.contents out.old) (K.contents out.new) (K.faults out.old) (K.faults out.new) result }
{
    out.write_all(texts.name.as_slice())?;
    print_end(out, texts, end)
}

// Prints the last line.
fn print_last<K: Sink>(out: &mut K, files: usize, done: usize) -> Result<(), SinkFault>
    ensures { Printed (spec.last_line files done)
        (K.contents out.old) (K.contents out.new) (K.faults out.old) (K.faults out.new) result }
{
    let mut buffer = Buffer::new();
    print_both(out, b"files ", buffer.format(files).as_bytes())?;
    print_three(out, b" done ", buffer.format(done).as_bytes(), b"\n")
}

// Prints the lines of the files.
fn print_files<K: Sink>(out: &mut K, texts: &[FileTexts], ends: &[FileEnd]) -> Result<(), SinkFault>
    requires count { length ends.now ≡ length texts.now }
    requires texts { spec.AreTextsOf texts.now ends.now }
    ensures { Printed (spec.texts_lines texts.now ends.now)
        (K.contents out.old) (K.contents out.new) (K.faults out.old) (K.faults out.new) result }
{
    for i in 0..texts.len() {
        print_file(out, &texts[i], ends[i])?;
    }
    Ok(())
}

/// Prints the report of a batch. It takes no memory.
pub(crate) fn print_report<K: Sink>(
    out: &mut K,
    texts: &[FileTexts],
    ends: &[FileEnd],
) -> Result<(), SinkFault>
    requires count { length ends.now ≡ length texts.now }
    requires texts { spec.AreTextsOf texts.now ends.now }
    ensures { Printed
        (spec.texts_lines texts.now ends.now ++ spec.last_line (length ends.now) (spec.done_count ends.now))
        (K.contents out.old) (K.contents out.new) (K.faults out.old) (K.faults out.new) result }
{
    print_files(out, texts, ends)?;
    print_last(out, ends.len(), done_count(ends))
}

// How many files are done.
fn done_count(ends: &[FileEnd]) -> usize
    ensures { result ≡ count_by is_done ends.now }
{
    ends.iter().filter(|end| end.is_done()).count()
}

// Whether all files are done.
fn all_done(ends: &[FileEnd]) -> bool
    ensures { result ≡ list_all is_done ends.now }
{
    ends.iter().all(|end| end.is_done())
}

/// The status that the program ends with.
pub fn batch_code(outcome: &BatchOutcome) -> u8
    ensures { result ≡ batch_status outcome.now }
{
    match outcome {
        BatchOutcome::Ran { ends } => { if all_done(ends) { 0 } else { 1 } }
        BatchOutcome::Usage(fault) => code(&Outcome::Usage(*fault)),
        BatchOutcome::OutFault { ends: _ } => 11,
        BatchOutcome::Stopped { ends: _ } => 15,
        BatchOutcome::Memory => code(&Outcome::Memory),
    }
}

/// The line that the program writes to standard error; empty where each file has its end and the report was printed.
pub fn batch_line(alloc: Global, outcome: &BatchOutcome) -> Result<Bytes, NoMemory>
    ensures { IfOk result (λ text. text ≡ spec.batch_line outcome.now) }
{
    match outcome {
        BatchOutcome::Ran { ends: _ } => Ok(Bytes::of(Vec::new(alloc))),
        BatchOutcome::Usage(fault) => line_of(alloc, &Outcome::Usage(*fault)),
        BatchOutcome::OutFault { ends: _ } => Bytes::new(alloc, b"refused 11 OutFault\n"),
        BatchOutcome::Stopped { ends: _ } => Bytes::new(alloc, b"refused 15 Stopped\n"),
        BatchOutcome::Memory => line_of(alloc, &Outcome::Memory),
    }
}
