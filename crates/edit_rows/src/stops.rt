// Runs that are stopped after one of their calls, and recovered.
ghost use Rattle.std.specs.Prelude.{◌≡◌, ◌+◌, ◌-◌, ◌<◌, ◌≤◌, IfOk, None, Some, [], map};
ghost use Rattle.me_disk.specs.Disk.{read_as};
ghost use Rattle.me_disk.specs.Memory.{memory_disk};
ghost use Rattle.metaedit_top.specs.Answered.{MayStandOf};
ghost use Rattle.metaedit_top.specs.Run.{OneImage};

use crate::files::PLAIN;
use crate::runs::{depot_of, holds, run_told};
use me_disk::{FailAt, MemoryDepot, Pick};
use metaedit_top::{Outcome, Summary};
use part_tree::NoMemory;
use std::alloc::Global;

/// The words of a recovery.
pub const RECOVER: &[&str] = &["recover", "f.wav"];

/// The summary of a recovery.
pub const NO_EDIT: Summary = Summary {
    changed: false,
    in_place: false,
    payload: 0,
    findings: 0,
};

/// The k-th way in which a crash may leave the writes: none of them, all, or so many bytes.
pub fn pick_of(k: u64) -> Pick
    ensures none { k ≡ 0 → result ≡ Pick.Before }
    ensures all { k ≡ 1 → result ≡ Pick.After }
    ensures torn { 2 ≤ k → result ≡ Pick.Torn (k - 2) }
{
    match k {
        0 => Pick::Before,
        1 => Pick::After,
        _ => Pick::Torn(k - 2),
    }
}

/// A depot that holds the plain file.
pub fn plain(alloc: Global) -> Result<MemoryDepot, NoMemory>
    ensures slots { IfOk result (λ d. (memory_disk d).slots
        ≡ record { main = Some PLAIN.now; journal = None; work = None }) }
    ensures only { IfOk result (λ d. OneImage (memory_disk d)) }
{
    depot_of(alloc, Some(PLAIN), None, &[])
}

/// Lets every call after the n-th fail.
pub fn stop(depot: &mut MemoryDepot, n: u64)
    ensures slots { (memory_disk depot.new).slots ≡ (memory_disk depot.old).slots }
    ensures only { OneImage (memory_disk depot.old) → OneImage (memory_disk depot.new) }
{
    depot.stop_after(n);
}

/// The depot after a run that was stopped after n calls, and a crash.
pub fn stopped(
    alloc: Global,
    texts: &[&str],
    mut depot: MemoryDepot,
    n: u64,
    pick: Pick,
) -> Result<MemoryDepot, NoMemory>
    ensures stands { IfOk result
        (λ d. OneImage (memory_disk depot) → MayStandOf (map (λ text. text.now) texts.now) (Some [])
        (memory_disk depot) (read_as (memory_disk d).slots)) }
    ensures only { IfOk result (λ d. OneImage (memory_disk d)) }
{
    stop(&mut depot, n);
    run_told(alloc, texts, &mut depot)?;
    Ok(depot.reopen(pick))
}

/// Whether a recovery is done, and leaves this file alone.
pub fn is_recovered(alloc: Global, mut depot: MemoryDepot, want: &[u8]) -> Result<bool, NoMemory> {
    let ran = run_told(alloc, RECOVER, &mut depot)?;
    Ok(ran.outcome == Outcome::Done(NO_EDIT) && holds(&depot, Some(want), None))
}

/// An edit of a file.
#[derive(Clone, Copy)]
pub struct Edit<'a> {
    pub words: &'a [&'a str],
    pub before: &'a [u8],
    pub after: &'a [u8],
    /// How many calls it makes behind the one with which the new file stands.
    pub behind: u64,
    /// How many bytes its writes have.
    pub bytes: u64,
}

impl<'a> Edit<'a> {
    /// How many crashes leave its writes in another way: none of them, all, and each number of their bytes.
    pub fn crashes(&self) -> u64
        ensures { self.now.bytes < 1000 → result ≡ self.now.bytes + 3 }
    {
        self.bytes.saturating_add(3)
    }

    /// The file that stands where so many of its calls were made, of `calls` in all.
    pub fn left(&self, calls: u64, made: u64) -> &'a [u8]
        ensures before { made + self.now.behind < calls → result.now ≡ self.now.before.now }
        ensures after { calls ≤ made + self.now.behind → result.now ≡ self.now.after.now }
    {
        if made < calls.saturating_sub(self.behind) {
            self.before
        } else {
            self.after
        }
    }
}

// A depot with the file before the edit, and of which these calls fail.
fn depot_before(alloc: Global, edit: &Edit<'_>, failing: &[FailAt]) -> Result<MemoryDepot, NoMemory>
    ensures { IfOk result (λ d. OneImage (memory_disk d)) }
{
    depot_of(alloc, Some(edit.before), None, failing)
}

/// Whether the edit, stopped after n calls and then the k-th crash, is recovered as this file.
pub fn survives(
    alloc: Global,
    edit: &Edit<'_>,
    n: u64,
    k: u64,
    want: &[u8],
) -> Result<bool, NoMemory> {
    let depot = depot_before(alloc, edit, &[])?;
    let depot = stopped(alloc, edit.words, depot, n, pick_of(k))?;
    is_recovered(alloc, depot, want)
}

/// The same where the recovery is itself stopped after m calls, and then the crash `again`.
pub fn survives_twice(
    alloc: Global,
    edit: &Edit<'_>,
    first: (u64, u64),
    second: (u64, u64),
    want: &[u8],
) -> Result<bool, NoMemory> {
    let depot = depot_before(alloc, edit, &[])?;
    let depot = stopped(alloc, edit.words, depot, first.0, pick_of(first.1))?;
    let depot = stopped(alloc, RECOVER, depot, second.0, pick_of(second.1))?;
    is_recovered(alloc, depot, want)
}

/// Whether this call of the edit is told as one fault where it fails, nothing is printed, and what the k-th crash leaves is
/// recovered as this file.
pub fn survives_fault(
    alloc: Global,
    edit: &Edit<'_>,
    failing: FailAt,
    k: u64,
    want: &[u8],
) -> Result<bool, NoMemory> {
    let mut depot = depot_before(alloc, edit, &[failing])?;
    let ran = run_told(alloc, edit.words, &mut depot)?;
    Ok(
        ran.outcome == Outcome::DepotFault { faults: 1 }
            && ran.out.written().is_empty()
            && is_recovered(alloc, depot.reopen(pick_of(k)), want)?,
    )
}

/// Whether the edit is done within n calls.
pub fn is_done_within(alloc: Global, edit: &Edit<'_>, n: u64) -> Result<bool, NoMemory> {
    let mut depot = depot_before(alloc, edit, &[])?;
    stop(&mut depot, n);
    let ran = run_told(alloc, edit.words, &mut depot)?;
    Ok(matches!(ran.outcome, Outcome::Done(_)))
}

/// How many calls the edit makes, up to 100.
pub fn calls_of(alloc: Global, edit: &Edit<'_>) -> Result<u64, NoMemory>
    ensures { IfOk result (λ n. n ≤ 100) }
{
    for n in 0..100 {
        if is_done_within(alloc, edit, n)? {
            return Ok(n);
        }
    }
    Ok(100)
}
