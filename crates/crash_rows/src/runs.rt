// Runs of a worked edit over a depot in memory.
ghost use Rattle.std.specs.Prelude.{[], ◌≡◌, ◌↔◌, IfErr, IfOk, IsSome, IsTrue, None, OnOk, Some};
ghost use Rattle.part_tree.specs.declared.plan.Segment.TheVariants.{Copy};
ghost use Rattle.part_tree.specs.declared.plan.Plan.TheVariants.{InPlace, Rewrite};
ghost use Rattle.part_tree.specs.Plans.{applied};
ghost use Rattle.me_disk.specs.Disk.{held, plain, Leaves, Only, read_as};
ghost use Rattle.me_disk.specs.Memory.{items_of, memory_disk};
ghost use Rattle.me_disk.specs.Steps.{ReadsOnly};
ghost use Rattle.edit_journal.specs.Damage.{damage_over};
ghost use Rattle.edit_journal.specs.Journal.{spelled};
ghost use Rattle.edit_journal.specs.Reads.{OnDamaged};
ghost use Rattle.edit_journal.specs.Settled.{Settles, Stands, StandsAlone};
ghost use Rattle.file_swap.specs.Midway.{SettlesEither};
ghost use Rattle.file_swap.specs.Swap.{fresh};
ghost use Rattle.recovery.specs.Recovered.{IsRefusal, Recovers};
ghost use Rattle.recovery.specs.Redo.{SettlesAlike};
ghost use Rattle.crash_rows.specs.Worked.{file, in_place, patches, rewrite, zeros, IsJournalOf};

use crate::bytes::{LIST, SIZE, file_bytes, journal_bytes, old_journal_bytes};
use edit_journal::{JournalFault, JournalHead, check_journal, spell_journal};
use file_swap::Swap;
use me_disk::{Depot, FailAt, MemoryDepot, Pick, Room, Slot};
use part_tree::{Bytes, Moves, NoMemory, Patch, Patches, Plan, Segment, Segments, Span};
use recovery::{RecoverFault, Recovered, recover};
use std::alloc::Global;

const AMPLE: Room = Room {
    calls: 100,
    bytes: 1000,
};

/// The patches of the edit in place.
pub fn patches_in_place(alloc: Global) -> Result<Patches, NoMemory>
    ensures { IfOk result (λ ps. ps ≡ patches) }
{
    let size = Patch {
        at: 4,
        bytes: Bytes::of(SIZE.to_vec(alloc)?),
    };
    let list = Patch {
        at: 48,
        bytes: Bytes::of(LIST.to_vec(alloc)?),
    };
    let Ok(patches) = vec![in alloc; size, list] else {
        return Err(NoMemory);
    };
    Ok(Patches::new(patches))
}

/// The swap of the edit in place.
pub fn edit_in_place(alloc: Global) -> Result<Swap, NoMemory>
    ensures { IfOk result (λ s. s ≡ fresh in_place) }
{
    let patches = patches_in_place(alloc)?;
    let plan = Plan::InPlace {
        old_len: 48,
        new_len: 72,
        patches,
    };
    Swap::new(alloc, plan)
}

/// The journal of the edit in place.
pub fn spell_in_place(alloc: Global) -> Result<Bytes, NoMemory>
    ensures { IfOk result (λ b. b ≡ spelled 48 72 patches) }
{
    let patches = patches_in_place(alloc)?;
    spell_journal(alloc, 48, 72, patches.as_slice())
}

fn copied(at: u64, len: u64) -> Segment
    ensures { result ≡ Copy (record { at = at; len = len }) }
{
    Segment::Copy(Span { at, len })
}

fn segments(alloc: Global) -> Result<Vec<Segment>, NoMemory>
    ensures { IfOk result (λ ss. Rewrite 72 [] ss.items ≡ rewrite) }
{
    let none = Segment::Literal(Bytes::of(Vec::new(alloc)));
    let size = Segment::Literal(Bytes::of(SIZE.to_vec(alloc)?));
    let list = Segment::Literal(Bytes::of(LIST.to_vec(alloc)?));
    let all = vec![in alloc; copied(0, 4), none, size, copied(8, 0), copied(8, 40), list];
    all.or(Err(NoMemory))
}

/// The swap of a rewrite that makes the same file.
pub fn edit_by_rewrite(alloc: Global) -> Result<Swap, NoMemory>
    ensures { IfOk result (λ s. s ≡ fresh rewrite) }
{
    let segments = segments(alloc)?;
    let plan = Plan::Rewrite {
        new_len: 72,
        moves: Moves::none(alloc),
        segments: Segments::new(segments),
    };
    Swap::new(alloc, plan)
}

/// A depot that holds the file, and of which these calls fail.
pub fn depot_of(alloc: Global, failing: Vec<FailAt>) -> Result<MemoryDepot, NoMemory>
    ensures { IfOk result (λ d. StandsAlone file (memory_disk d)) }
{
    let main = file_bytes(alloc)?;
    MemoryDepot::new(alloc, Some(main), None, AMPLE, failing)
}

/// A depot that holds these, and of which these calls fail.
pub fn depot_with(
    alloc: Global,
    main: Option<Vec<u8>>,
    journal: Vec<u8>,
    failing: Vec<FailAt>,
) -> Result<MemoryDepot, NoMemory>
    ensures main { IfOk result (λ d. (memory_disk d).slots.main ≡ items_of main) }
    ensures journal { IfOk result (λ d. (memory_disk d).slots.journal ≡ Some journal.items) }
    ensures only { IfOk result (λ d. Only (read_as (memory_disk d).slots) (memory_disk d)) }
{
    MemoryDepot::new(alloc, main, Some(journal), AMPLE, failing)
}

/// Lets every call after the n-th fail.
pub fn stop(depot: &mut MemoryDepot, n: u64)
    ensures alone { StandsAlone file (memory_disk depot.old) → StandsAlone file (memory_disk depot.new) }
    ensures only { Only (read_as (memory_disk depot.old).slots) (memory_disk depot.old)
        → Only (read_as (memory_disk depot.new).slots) (memory_disk depot.new) }
{
    depot.stop_after(n);
}

/// Runs the edit in place, and says whether it was done.
pub fn run_in_place<D: Depot>(depot: &mut D, swap: Swap) -> bool
    requires stands { Stands file (D.disk depot.old) }
    requires swap { swap ≡ fresh in_place }
    ensures done { IsTrue result → Stands (applied in_place file) (D.disk depot.new) }
    ensures alone { StandsAlone file (D.disk depot.old) → IsTrue result
        → StandsAlone (applied in_place file) (D.disk depot.new) }
    ensures crash { Only (plain (Some file)) (D.disk depot.old)
        → Leaves (SettlesEither file (applied in_place file)) (D.disk depot.old) (D.disk depot.new) }
{
    swap.run(depot).is_ok()
}

/// Runs the rewrite, and says whether it was done.
pub fn run_rewrite<D: Depot>(depot: &mut D, swap: Swap) -> bool
    requires stands { Stands file (D.disk depot.old) }
    requires swap { swap ≡ fresh rewrite }
    ensures done { IsTrue result → Stands (applied rewrite file) (D.disk depot.new) }
    ensures alone { StandsAlone file (D.disk depot.old) → IsTrue result
        → StandsAlone (applied rewrite file) (D.disk depot.new) }
    ensures crash { Only (plain (Some file)) (D.disk depot.old)
        → Leaves (SettlesEither file (applied rewrite file)) (D.disk depot.old) (D.disk depot.new) }
{
    swap.run(depot).is_ok()
}

/// The depot opened again after a crash.
pub fn reopened(depot: MemoryDepot, pick: Pick) -> MemoryDepot
    ensures { Only (read_as (memory_disk result).slots) (memory_disk result) }
{
    depot.reopen(pick)
}

/// The edit in place, stopped after n calls and opened again.
pub fn stopped_edit(alloc: Global, n: u64, pick: Pick) -> Result<MemoryDepot, NoMemory>
    ensures { IfOk result (λ d. Only (read_as (memory_disk d).slots) (memory_disk d)) }
{
    let mut depot = depot_of(alloc, Vec::new(alloc))?;
    let swap = edit_in_place(alloc)?;
    stop(&mut depot, n);
    run_in_place(&mut depot, swap);
    Ok(reopened(depot, pick))
}

/// The rewrite, stopped after n calls and opened again.
pub fn stopped_rewrite(alloc: Global, n: u64, pick: Pick) -> Result<MemoryDepot, NoMemory>
    ensures { IfOk result (λ d. Only (read_as (memory_disk d).slots) (memory_disk d)) }
{
    let mut depot = depot_of(alloc, Vec::new(alloc))?;
    let swap = edit_by_rewrite(alloc)?;
    stop(&mut depot, n);
    run_rewrite(&mut depot, swap);
    Ok(reopened(depot, pick))
}

/// A recovery that is stopped after so many calls, and the depot opened again.
pub fn stopped_recovery(mut depot: MemoryDepot, n: u64, pick: Pick) -> MemoryDepot
    ensures { Only (read_as (memory_disk result).slots) (memory_disk result) }
{
    stop(&mut depot, n);
    let _ = recovery_of(&mut depot);
    reopened(depot, pick)
}

/// What a recovery of the depot answers.
pub fn recovery_of(depot: &mut MemoryDepot) -> Result<Recovered, RecoverFault>
    ensures done { OnOk result (Recovers (memory_disk depot.old) (memory_disk depot.new)) }
    ensures refusal { IfErr result (λ e. IsRefusal e → ReadsOnly (memory_disk depot.old) (memory_disk depot.new)) }
    ensures crash { Only (read_as (memory_disk depot.old).slots) (memory_disk depot.old)
        → Leaves (SettlesAlike (read_as (memory_disk depot.old).slots)) (memory_disk depot.old)
        (memory_disk depot.new) }
{
    recover(depot)
}

/// Whether a recovery is done, and leaves this file alone.
pub fn is_recovered(mut depot: MemoryDepot, want: &[u8]) -> bool
    ensures { IsTrue result → Settles (Some want.now) (read_as (memory_disk depot).slots) }
{
    recovery_of(&mut depot).is_ok() && holds_alone(&depot, want)
}

/// Whether the depot holds this file and nothing else.
pub fn holds_alone(depot: &MemoryDepot, want: &[u8]) -> bool
    ensures { IsTrue result ↔ ((memory_disk depot.now).slots
        ≡ record { main = Some want.now; journal = None; work = None }) }
{
    holds(depot, want) && !has(depot, Slot::Journal) && !has(depot, Slot::Work)
}

// Whether the file in the depot is this one.
fn holds(depot: &MemoryDepot, want: &[u8]) -> bool
    ensures { IsTrue result ↔ ((memory_disk depot.now).slots.main ≡ Some want.now) }
{
    match depot.content(Slot::Main) {
        Some(main) => main == want,
        None => false,
    }
}

// Whether there is something in a slot.
fn has(depot: &MemoryDepot, slot: Slot) -> bool
    ensures { IsTrue result ↔ IsSome (held slot (memory_disk depot.now).slots) }
{
    depot.content(slot).is_some()
}

// A file of so many zeros.
fn zero_file(alloc: Global, len: Option<usize>) -> Result<Option<Vec<u8>>, NoMemory>
    ensures { IfOk result (λ main. items_of main ≡ zeros len) }
{
    match len {
        Some(len) => Ok(Some(vec![in alloc; 0; len]?)),
        None => Ok(None),
    }
}

/// What a check answers for a journal beside a file of so many bytes, or beside none.
pub fn check_of(
    alloc: Global,
    len: Option<usize>,
    journal: Vec<u8>,
) -> Result<Result<JournalHead, JournalFault>, NoMemory>
    ensures whole { IfOk result (λ answer. OnOk answer (damage_over (zeros len) journal.items ≡ None)) }
    ensures head { IfOk result (λ answer. IfOk answer (λ head. IsJournalOf head journal.items)) }
    ensures damaged { IfOk result
        (λ answer. IfErr answer (λ e. OnDamaged e (λ at. damage_over (zeros len) journal.items ≡ Some at))) }
{
    let main = zero_file(alloc, len)?;
    let mut depot = depot_with(alloc, main, journal, Vec::new(alloc))?;
    Ok(check_journal(&mut depot))
}

/// A depot that holds the file and its journal, of the version that is written or of the older one, and of which one call fails.
pub fn broken_off(alloc: Global, old: bool, failing: Vec<FailAt>) -> Result<MemoryDepot, NoMemory>
    ensures { IfOk result (λ d. Only (read_as (memory_disk d).slots) (memory_disk d)) }
{
    let main = file_bytes(alloc)?;
    let journal = if old {
        old_journal_bytes(alloc)?
    } else {
        journal_bytes(alloc)?
    };
    depot_with(alloc, Some(main), journal, failing)
}

/// The edit in place of which one call fails, and whether it was done.
pub fn failing_edit(alloc: Global, failing: Vec<FailAt>) -> Result<(MemoryDepot, bool), NoMemory>
    ensures { IfOk result (λ run. IsTrue run.1 → StandsAlone (applied in_place file) (memory_disk run.0)) }
{
    let mut depot = depot_of(alloc, failing)?;
    let swap = edit_in_place(alloc)?;
    let done = run_in_place(&mut depot, swap);
    Ok((depot, done))
}

/// The rewrite, and whether it was done.
pub fn whole_rewrite(alloc: Global) -> Result<(MemoryDepot, bool), NoMemory>
    ensures { IfOk result (λ run. IsTrue run.1 → StandsAlone (applied rewrite file) (memory_disk run.0)) }
{
    let mut depot = depot_of(alloc, Vec::new(alloc))?;
    let swap = edit_by_rewrite(alloc)?;
    let done = run_rewrite(&mut depot, swap);
    Ok((depot, done))
}
