// One edit of many files, in turns.
ghost use Rattle.std.specs.Prelude.{◌≡◌, ◌<◌, ℕ, List, [], ◌∷◌, ◌++◌, Option, Some, None, Ok, Err, IfOk, OnOk, OnErr, length, get_or, map, set, take, true, if◌then◌else◌};
ghost use Rattle.me_disk.specs.Causes.{Rose};
ghost use Rattle.file_swap.specs.Swap.{Swapping};
ghost use Rattle.turn_batch.specs.Members.{fresh_member, is_open};
ghost use Rattle.turn_batch.specs.declared.member.Member.{Member};
ghost use Rattle.std.specs.Io.KnownBytes.{Appends};
ghost use Rattle.metaedit_top.specs.declared.outcome.UsageFault.{UsageFault};
ghost use Rattle.metaedit_top.specs.declared.batch_end.FileEnd.{FileEnd};
ghost use Rattle.metaedit_top.specs.Batch.{Begun, BegunAll, BegunTexts, EachEnds, FinishesBatch, OfBatch, OfDepots, OnOutFault, OnRan, OnStopped, Readies, SomeGoOn, StartsBatch, StaysOld, end_behind, end_in, file_request, prints, swap_in};
ghost use Rattle.metaedit_top.specs.BatchText.{batch_text, end_line, name_text};
ghost use Rattle.metaedit_top.specs.BatchWords.{batch_files as files_in, is_batch};

use crate::batch_end::{BatchOutcome, FileEnd, end_of};
use crate::batch_text::{FileTexts, print_report, texts_of};
use crate::batch_words::{BatchWords, batch_files, batch_parts};
use crate::outcome::{Prepared, Stop};
use crate::run::counted_stop;
use crate::set::prepare;
use crate::word::Word;
use crate::words::read_edit;
use core_edit::Edit;
use file_swap::Swap;
use me_disk::{Depot, Sink};
use part_tree::{NoMemory, RuleSet};
use recovery::recover;
use std::alloc::Global;
use std::slice::from_ref;
use turn_batch::Batch;

/// A file before the first round: the end that it has where its device doesn't fail, its texts, and the swap that edits
/// it.
#[derive(Drop)]
struct FileStart {
    end: FileEnd,
    texts: FileTexts,
    swap: Option<Swap>,
}

/// All files before the first round, with the room for what a stop tells of them.
#[derive(Drop)]
struct Started {
    ends: Vec<FileEnd>,
    left: Vec<Option<FileEnd>>,
    texts: Vec<FileTexts>,
    batch: Batch,
}

// Settles a file after a crash, and makes ready what is needed for the edit.
fn ready_file<D: Depot>(alloc: Global, depot: &mut D, edit: &Edit) -> Result<Prepared, Stop>
    ensures { (file : List ℕ) → Readies (file_request edit.now file) (D.disk depot.old) (D.disk depot.new) result }
{
    let before = depot.faults();
    recover(depot)?;
    match prepare(alloc, depot, RuleSet::Base, edit) {
        Ok(prepared) => Ok(prepared),
        Err(stop) => Err(counted_stop(stop, before, depot.faults())),
    }
}

// The end that an answer gives where the device doesn't fail from there on, and the swap that edits the file.
fn end_and_swap(answer: Result<Prepared, Stop>, faults: u64) -> (FileEnd, Option<Swap>)
    ensures end { result.0 ≡ end_in answer faults }
    ensures swap { result.1 ≡ swap_in answer }
{
    match answer {
        Ok(Prepared { finished, swap }) => (FileEnd::Done(finished.summary), swap),
        Err(stop) => (end_of(stop, faults), None),
    }
}

// A file with this end and this swap, and its texts.
fn file_start(
    alloc: Global,
    file: &Word,
    end: FileEnd,
    swap: Option<Swap>,
) -> Result<FileStart, NoMemory>
    ensures end { IfOk result (λ s. s.end ≡ end) }
    ensures swap { IfOk result (λ s. s.swap ≡ swap) }
    ensures name { IfOk result (λ s. s.texts.name ≡ name_text file.now) }
    ensures line { IfOk result (λ s. s.texts.line ≡ end_line end) }
{
    let texts = texts_of(alloc, file.as_bytes(), &end)?;
    Ok(FileStart { end, texts, swap })
}

// Begins the edit of a file. Where there is no memory for its texts, none is edited.
fn start_file<D: Depot>(
    alloc: Global,
    depot: &mut D,
    file: &Word,
    edit: &Edit,
) -> Result<FileStart, NoMemory>
    ensures begun { IfOk result (λ s. Begun (file_request edit.now file.now)
        (D.disk depot.old) (D.disk depot.new) s.end s.swap) }
    ensures name { IfOk result (λ s. s.texts.name ≡ name_text file.now) }
    ensures line { IfOk result (λ s. s.texts.line ≡ end_line s.end) }
    ensures stays { StaysOld (D.disk depot.old) (D.disk depot.new) }
{
    let answer = ready_file(alloc, depot, edit);
    let (end, swap) = end_and_swap(answer, depot.faults());
    file_start(alloc, file, end, swap)
}

// Begins the edit of the file of this number, on its own depot, and touches no other.
fn start_at<D: Depot>(
    alloc: Global,
    depots: &mut [D],
    i: usize,
    file: &Word,
    edit: &Edit,
) -> Result<FileStart, NoMemory>
    requires { i < length depots.old }
    ensures begun { IfOk result (λ s. (d : D) → Begun (file_request edit.now file.now)
        (D.disk (get_or depots.old i d)) (D.disk (get_or depots.new i d)) s.end s.swap) }
    ensures name { IfOk result (λ s. s.texts.name ≡ name_text file.now) }
    ensures line { IfOk result (λ s. s.texts.line ≡ end_line s.end) }
    ensures stays { (d : D) → StaysOld (D.disk (get_or depots.old i d)) (D.disk (get_or depots.new i d)) }
    ensures others { (d : D) → depots.new ≡ set depots.old i (get_or depots.new i d) }
{
    start_file(alloc, &mut depots[i], file, edit)
}

// Puts an item behind the others.
fn push<T: Drop>(items: &mut Vec<T>, item: T) -> Result<(), NoMemory>
    ensures { OnOk result (items.new.items ≡ items.old.items ++ item ∷ []) }
{
    match items.push(item) {
        Ok(()) => Ok(()),
        Err(_) => Err(NoMemory),
    }
}

// Begins the edit of each file, on its own depot.
fn start_files<D: Depot>(
    alloc: Global,
    depots: &mut [D],
    files: &[Word],
    edit: &Edit,
) -> Result<Started, NoMemory>
    requires { length depots.old ≡ length files.now }
    ensures begun { IfOk result (λ s. (swaps : List (Option Swapping)) × (s.batch ≡ map fresh_member swaps)
        × BegunAll D.disk edit.now files.now depots.old depots.new s.ends.items swaps) }
    ensures texts { IfOk result (λ s. BegunTexts files.now s.ends.items s.texts.items) }
    ensures left { IfOk result (λ s. length s.left.items ≡ length files.now) }
    ensures stays { OnErr result (OfDepots D.disk depots.old depots.new StaysOld) }
{
    let mut ends = Vec::with_capacity(alloc, files.len())?;
    let mut left = Vec::with_capacity(alloc, files.len())?;
    let mut texts = Vec::with_capacity(alloc, files.len())?;
    let mut swaps = Vec::with_capacity(alloc, files.len())?;
    for i in 0..files.len() {
        let FileStart {
            end,
            texts: told,
            swap,
        } = start_at(alloc, depots, i, &files[i], edit)?;
        push(&mut ends, end)?;
        push(&mut left, None)?;
        push(&mut texts, told)?;
        push(&mut swaps, swap)?;
    }
    let batch = Batch::new(alloc, swaps)?;
    Ok(Started {
        ends,
        left,
        texts,
        batch,
    })
}

// The end of the file of this number behind the last round: where its device failed, the faults of it.
fn end_now<D: Depot>(batch: &Batch, depots: &[D], i: usize, end: FileEnd) -> FileEnd
    requires batch { i < length batch.now }
    requires depots { i < length depots.now }
    ensures { (m : Member) (d : D)
        → result ≡ end_behind (get_or batch.now i m).swap (D.disk (get_or depots.now i d)).faults end }
{
    if batch.has_failed(i) {
        FileEnd::DepotFault {
            faults: depots[i].faults(),
        }
    } else {
        end
    }
}

// The ends behind the last round, with the faults of the devices that failed.
fn with_faults<D: Depot>(batch: &Batch, depots: &[D], mut ends: Vec<FileEnd>) -> Vec<FileEnd>
    requires batch { length batch.now ≡ length ends.items }
    requires depots { length depots.now ≡ length ends.items }
    ensures count { length result.items ≡ length ends.items }
    ensures told { (i : ℕ) (m : Member) (d : D) (x : FileEnd) → i < length ends.items
        → get_or result.items i x
        ≡ end_behind (get_or batch.now i m).swap (D.disk (get_or depots.now i d)).faults (get_or ends.items i x) }
{
    for i in 0..ends.len() {
        ends[i] = end_now(batch, depots, i, ends[i]);
    }
    ends
}

// The end of the file of this number, where it has one.
fn ended_at(batch: &Batch, i: usize, end: FileEnd) -> Option<FileEnd>
    requires { i < length batch.now }
    ensures { (m : Member) → result ≡ (if is_open (get_or batch.now i m) then None else Some end) }
{
    if batch.is_open(i) { None } else { Some(end) }
}

// The ends of the files that have one, in the room for them.
fn ended(batch: &Batch, ends: &[FileEnd], mut left: Vec<Option<FileEnd>>) -> Vec<Option<FileEnd>>
    requires batch { length batch.now ≡ length ends.now }
    requires left { length left.items ≡ length ends.now }
    ensures count { length result.items ≡ length left.items }
    ensures told { (i : ℕ) (m : Member) (x : FileEnd) (y : Option FileEnd) → i < length ends.now
        → get_or result.items i y ≡ (if is_open (get_or batch.now i m) then None else Some (get_or ends.now i x)) }
{
    for i in 0..ends.len() {
        left[i] = ended_at(batch, i, ends[i]);
    }
    left
}

// Settles and reads the files that the words of a batch name, and begins their edits.
fn start<D: Depot>(alloc: Global, words: &[Word], depots: &mut [D]) -> Result<Started, NoMemory>
    requires { (n : ℕ) × (files_in words.now ≡ Ok n) × (length depots.old ≡ n) }
    ensures starts { IfOk result (λ s. OfBatch words.now (λ p. StartsBatch D.disk p depots.old depots.new s)) }
    ensures stays { OnErr result (OfDepots D.disk depots.old depots.new StaysOld) }
{
    let Some(BatchWords { item, files }) = batch_parts(words) else {
        return Err(NoMemory);
    };
    let Ok(edit) = read_edit(alloc, from_ref(item)) else {
        return Err(NoMemory);
    };
    start_files(alloc, depots, files, &edit)
}

// Edits the files of a batch, whose words have the form of one.
fn edit_files<D: Depot, K: Sink>(
    alloc: Global,
    words: &[Word],
    depots: &mut [D],
    out: &mut K,
    rounds: Option<u64>,
) -> BatchOutcome
    requires { (n : ℕ) × (files_in words.now ≡ Ok n) × (length depots.old ≡ n) }
    ensures ran { OnRan result (λ ends. OfBatch words.now (λ p. EachEnds D.disk p rounds depots.old depots.new ends
        × Appends (K.contents out.old) (K.contents out.new) (batch_text p.files ends))) }
    ensures out_fault { OnOutFault result (λ ends. Rose (K.faults out.old) (K.faults out.new)
        × OfBatch words.now (λ p. EachEnds D.disk p rounds depots.old depots.new ends
        × ((n : ℕ) × Appends (K.contents out.old) (K.contents out.new) (take n (batch_text p.files ends))))) }
    ensures stopped { OnStopped result (λ ends. OfBatch words.now
        (λ p. SomeGoOn D.disk p rounds depots.old depots.new ends)) }
    ensures memory { result ≡ BatchOutcome.Memory → OfDepots D.disk depots.old depots.new StaysOld }
    ensures usage { (fault : UsageFault) → result ≡ BatchOutcome.Usage fault → ⊥ }
    ensures complete { (Rose (K.faults out.old) (K.faults out.new) → ⊥) → FinishesBatch rounds result }
    ensures silent { (prints result → ⊥) → out.new ≡ out.old }
{
    let Ok(
        Started {
            ends,
            left,
            texts,
            mut batch,
        },
    ) = start(alloc, words, depots)
    else {
        return BatchOutcome::Memory;
    };
    let open = batch.rounds(depots, rounds);
    let ends = with_faults(&batch, depots, ends);
    if open {
        let left = ended(&batch, &ends, left);
        return BatchOutcome::Stopped { ends: left };
    }
    match print_report(out, &texts, &ends) {
        Ok(()) => BatchOutcome::Ran { ends },
        Err(_) => BatchOutcome::OutFault { ends },
    }
}

/// Edits many files, each on its own depot: settles, reads and plans each, and then makes one device call of each in
/// turn until every file has its end, or until so many rounds were made. Prints the line of each file, and how many are
/// done. What is told of a crash is told of each file where what its depot read as at the start was its one image.
pub fn metaedit_batch<D: Depot, K: Sink>(
    alloc: Global,
    words: &[Word],
    depots: &mut [D],
    out: &mut K,
    rounds: Option<u64>,
) -> BatchOutcome
    requires batch { is_batch words.now ≡ true }
    requires depots { (n : ℕ) → files_in words.now ≡ Ok n → length depots.old ≡ n }

    // Each file has its end, as the edit of it alone ends; and the report is printed.
    ensures ran { OnRan result (λ ends. OfBatch words.now (λ p. EachEnds D.disk p rounds depots.old depots.new ends
        × Appends (K.contents out.old) (K.contents out.new) (batch_text p.files ends))) }
    // Each file has its end, and some of the report is printed.
    ensures out_fault { OnOutFault result (λ ends. Rose (K.faults out.old) (K.faults out.new)
        × OfBatch words.now (λ p. EachEnds D.disk p rounds depots.old depots.new ends
        × ((n : ℕ) × Appends (K.contents out.old) (K.contents out.new) (take n (batch_text p.files ends))))) }
    // So many rounds were made: each file has its end or goes on, and one goes on.
    ensures stopped { OnStopped result (λ ends. OfBatch words.now
        (λ p. SomeGoOn D.disk p rounds depots.old depots.new ends)) }
    // There was no memory, and no file was edited.
    ensures memory { result ≡ BatchOutcome.Memory → OfDepots D.disk depots.old depots.new StaysOld }
    // The words are refused exactly where they aren't those of a batch, and then no depot is touched.
    ensures usage { (fault : UsageFault) → result ≡ BatchOutcome.Usage fault → files_in words.now ≡ Err fault }
    ensures all_usage { (fault : UsageFault) → files_in words.now ≡ Err fault
        → (result ≡ BatchOutcome.Usage fault) × (depots.new ≡ depots.old) }
    // Where the output doesn't fail, the batch comes to its end, or there was no memory, or so many rounds were made.
    ensures complete { (n : ℕ) → files_in words.now ≡ Ok n → (Rose (K.faults out.old) (K.faults out.new) → ⊥)
        → FinishesBatch rounds result }
    ensures silent { (prints result → ⊥) → out.new ≡ out.old }
{
    match batch_files(words) {
        Err(fault) => BatchOutcome::Usage(fault),
        Ok(_) => edit_files(alloc, words, depots, out, rounds),
    }
}
