// Runs of the editor over a depot in memory.
ghost use Rattle.std.specs.Prelude.{◌≡◌, ◌↔◌, IfOk, IsTrue, None, Some, [], map, option_copied};
ghost use Rattle.me_disk.specs.Disk.{Image, held};
ghost use Rattle.me_disk.specs.Memory.{items_of, memory_disk};
ghost use Rattle.metaedit_top.specs.Answered.{MayStandOf};
ghost use Rattle.metaedit_top.specs.Run.{OneImage};

use me_disk::{Depot, FailAt, MemoryDepot, MemorySink, MemorySource, Room, Slot};
use metaedit_top::{Outcome, Word, metaedit};
use part_tree::NoMemory;
use std::alloc::Global;

const AMPLE: Room = Room {
    calls: 100,
    bytes: 2000,
};

// How many bytes a run may print.
const PAPER: usize = 200;

/// These texts as words of a command line.
pub fn words_of(alloc: Global, texts: &[&str]) -> Result<Vec<Word>, NoMemory>
    ensures { IfOk result (λ words. words.items ≡ map (λ text. text.now) texts.now) }
{
    let mut words = Vec::new(alloc);
    for text in texts {
        let word = Word::new(alloc, text)?;
        if words.push(word).is_err() {
            return Err(NoMemory);
        }
    }
    Ok(words)
}

/// A depot that holds these, and of which these calls fail.
pub fn depot_of(
    alloc: Global,
    main: Option<&[u8]>,
    journal: Option<&[u8]>,
    failing: &[FailAt],
) -> Result<MemoryDepot, NoMemory>
    ensures slots { IfOk result (λ d. (memory_disk d).slots
        ≡ record { main = option_copied main.entry; journal = option_copied journal.entry; work = None }) }
    ensures only { IfOk result (λ d. OneImage (memory_disk d)) }
{
    let main = owned(alloc, main)?;
    let journal = owned(alloc, journal)?;
    MemoryDepot::new(alloc, main, journal, AMPLE, failing.to_vec(alloc)?)
}

// A copy of the bytes, where there are some.
fn owned(alloc: Global, bytes: Option<&[u8]>) -> Result<Option<Vec<u8>>, NoMemory>
    ensures { IfOk result (λ copy. items_of copy ≡ option_copied bytes.entry) }
{
    match bytes {
        Some(bytes) => Ok(Some(bytes.to_vec(alloc)?)),
        None => Ok(None),
    }
}

/// Paper for what a run prints, of which these calls fail.
pub fn paper(alloc: Global, failing: &[u64]) -> Result<MemorySink, NoMemory>
    ensures { IfOk result (λ out. out.written ≡ []) }
{
    MemorySink::new(alloc, PAPER, failing.to_vec(alloc)?)
}

/// What a run with these words and this table answers.
pub fn run_by<D: Depot>(
    alloc: Global,
    words: &[Word],
    table: &mut MemorySource,
    depot: &mut D,
    out: &mut MemorySink,
) -> Outcome
    ensures { OneImage (D.disk depot.old) → (i : Image) → (D.disk depot.new).since (D.disk depot.old).clock i
        → MayStandOf words.now (Some table.old.left) (D.disk depot.old) i }
{
    metaedit(alloc, words, depot, table, out)
}

/// What a run with these words answers.
pub fn run_on<D: Depot>(
    alloc: Global,
    words: &[Word],
    depot: &mut D,
    out: &mut MemorySink,
) -> Outcome
    ensures { OneImage (D.disk depot.old) → (i : Image) → (D.disk depot.new).since (D.disk depot.old).clock i
        → MayStandOf words.now (Some []) (D.disk depot.old) i }
{
    let mut table = MemorySource::new(Vec::new(alloc), Vec::new(alloc));
    run_by(alloc, words, &mut table, depot, out)
}

/// What a run answers, and the paper that it printed on.
#[derive(Drop)]
pub struct Ran {
    pub outcome: Outcome,
    pub out: MemorySink,
}

/// A run whose words are these texts.
pub fn run_told<D: Depot>(alloc: Global, texts: &[&str], depot: &mut D) -> Result<Ran, NoMemory>
    ensures { OneImage (D.disk depot.old) → (i : Image) → (D.disk depot.new).since (D.disk depot.old).clock i
        → MayStandOf (map (λ text. text.now) texts.now) (Some []) (D.disk depot.old) i }
{
    let words = words_of(alloc, texts)?;
    let mut out = paper(alloc, &[])?;
    let outcome = run_on(alloc, &words, depot, &mut out);
    Ok(Ran { outcome, out })
}

/// Whether the depot holds this file and this journal, and no work file.
pub fn holds(depot: &MemoryDepot, main: Option<&[u8]>, journal: Option<&[u8]>) -> bool
    ensures { IsTrue result ↔ ((memory_disk depot.now).slots
        ≡ record { main = option_copied main.entry; journal = option_copied journal.entry; work = None }) }
{
    has(depot, Slot::Main, main)
        && has(depot, Slot::Journal, journal)
        && has(depot, Slot::Work, None)
}

// Whether a slot holds these bytes, or nothing.
fn has(depot: &MemoryDepot, slot: Slot, want: Option<&[u8]>) -> bool
    ensures { IsTrue result ↔ (held slot (memory_disk depot.now).slots ≡ option_copied want.entry) }
{
    match (depot.content(slot), want) {
        (Some(bytes), Some(want)) => bytes == want,
        (None, None) => true,
        _ => false,
    }
}
