// Two worked edits in turns.
ghost use Rattle.std.specs.Prelude.{◌≡◌, ◌<◌, IfOk, length, slice_index, EachIndex};
ghost use Rattle.me_disk.specs.Memory.{memory_disk};
ghost use Rattle.turn_batch.specs.Schedules.{Ran};
ghost use Rattle.turn_rows.specs.Two.{both_fresh, the_file, AllAlone, AllSettle, HoldTheFile};

use crash_rows::{depot_of, edit_in_place};
use me_bytes::NoMemory;
use me_disk::{Depot, FailAt, MemoryDepot};
use std::alloc::Global;
use turn_batch::{Batch, BatchTurn};

/// Two edits in place of which no turn was made.
pub fn two_edits(alloc: Global) -> Result<Batch, NoMemory>
    ensures { IfOk result (λ b. b ≡ both_fresh) }
{
    let first = edit_in_place(alloc)?;
    let second = edit_in_place(alloc)?;
    match vec![in alloc; Some(first), Some(second)] {
        Ok(swaps) => Batch::new(alloc, swaps),
        Err(_) => Err(NoMemory),
    }
}

/// Two depots that hold the file each. These calls of the second fail.
pub fn two_depots(alloc: Global, failing: Vec<FailAt>) -> Result<Vec<MemoryDepot>, NoMemory>
    ensures hold { IfOk result (λ ds. HoldTheFile memory_disk ds.items) }
    ensures alone { IfOk result (λ ds. AllAlone memory_disk ds.items) }
{
    let first = depot_of(alloc, Vec::new(alloc))?;
    let second = depot_of(alloc, failing)?;
    vec![in alloc; first, second].or(Err(NoMemory))
}

/// Makes the turns of a schedule.
pub fn run_turns<D: Depot>(batch: &mut Batch, depots: &mut [D], schedule: &[u32])
    requires fresh { batch.old ≡ both_fresh }
    requires hold { HoldTheFile D.disk depots.old }
    requires inside { EachIndex schedule.now (λ k. slice_index schedule.now k < 2) }
    ensures ran { Ran D.disk the_file schedule.now batch.old batch.new depots.old depots.new }
    ensures crash { AllAlone D.disk depots.old → AllSettle D.disk depots.old depots.new }
{
    batch.run(depots, schedule);
}

/// What each turn of a schedule answers.
pub fn answers_of<D: Depot>(
    alloc: Global,
    batch: &mut Batch,
    depots: &mut [D],
    schedule: &[u32],
) -> Result<Vec<BatchTurn>, NoMemory>
    requires fresh { batch.old ≡ both_fresh }
    requires hold { HoldTheFile D.disk depots.old }
    requires inside { EachIndex schedule.now (λ k. slice_index schedule.now k < 2) }
    ensures count { IfOk result (λ answers. length answers.items ≡ length schedule.now) }
    ensures ran { IfOk result (λ answers. Ran D.disk the_file schedule.now batch.old batch.new depots.old depots.new) }
    ensures crash { AllAlone D.disk depots.old → IfOk result (λ answers. AllSettle D.disk depots.old depots.new) }
{
    let mut answers = Vec::new(alloc);
    for i in schedule {
        let answer = batch.turn(depots, *i as usize);
        match answers.push(answer) {
            Ok(()) => {}
            Err(_) => return Err(NoMemory),
        }
    }
    Ok(answers)
}
