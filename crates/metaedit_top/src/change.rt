// The edit of a file that is settled: what is ready for it, and how that is carried out.
ghost use Rattle.std.specs.Prelude.{◌≡◌, None, IsTrue, IfOk};
ghost use Rattle.me_disk.specs.Disk.{bytes_of};
ghost use Rattle.me_report.specs.Done.{done_line as line_of};
ghost use Rattle.edit_journal.specs.Settled.{Stands};
ghost use Rattle.part_tree.specs.Plans.{Belongs};
ghost use Rattle.edit_planner.specs.Facts.{IsRead};
ghost use Rattle.edit_planner.specs.Plan.{IsReady, fields_in, kind_in, streams_in, told_in};
ghost use Rattle.metaedit_top.specs.Changed.{CarriedBy, IsFresh, OnSwap, StartsChange};
ghost use Rattle.metaedit_top.specs.Changed as spec;

use crate::outcome::{Finished, Prepared, Stop};
use core_edit::Edit;
use edit_planner::{FileMap, plan};
use file_swap::Swap;
use me_disk::Depot;
use me_report::{Summary, done_line};
use part_tree::{Bytes, NoMemory, Plan, Shows};
use std::alloc::Global;

// Whether a plan is one in place.
fn is_in_place(plan: &Plan) -> bool
    ensures { result ≡ spec.is_in_place plan.now }
{
    match plan {
        Plan::InPlace {
            old_len: _,
            new_len: _,
            patches: _,
        } => true,
        Plan::Rewrite {
            new_len: _,
            moves: _,
            segments: _,
        } => false,
    }
}

/// What is told of an edit that is done.
pub(crate) fn tell_edit(alloc: Global, summary: Summary) -> Result<Finished, NoMemory>
    ensures summary { IfOk result (λ f. f.summary ≡ summary) }
    ensures text { IfOk result (λ f. f.text ≡ line_of summary) }
{
    let text = Bytes::new(alloc, done_line(&summary).as_slice())?;
    Ok(Finished { summary, text })
}

/// Makes ready what is needed for an edit by the map of a file that is settled, where each item has an effect and no
/// rule is broken. The file is only read.
pub(crate) fn start_change<D: Depot>(
    alloc: Global,
    depot: &mut D,
    map: &FileMap,
    edit: &Edit,
) -> Result<Prepared, Stop>
    requires read { IsRead (D.disk depot.old) map.now }
    requires ready { IsReady (kind_in map.now) (streams_in map.now) (fields_in map.now) edit.now }
    ensures { StartsChange edit.now (told_in map.now).payload (D.disk depot.old) (D.disk depot.new) result }
{
    let plan = plan(alloc, depot, map, edit)?;
    let summary = Summary {
        changed: true,
        in_place: is_in_place(&plan),
        payload: map.payload(),
        findings: 0,
    };
    let finished = tell_edit(alloc, summary)?;
    let swap = Swap::new(alloc, plan)?;
    Ok(Prepared {
        finished,
        swap: Some(swap),
    })
}

/// Carries out what is ready, on the file that stands there.
pub(crate) fn carry_out<D: Depot>(depot: &mut D, prepared: Prepared) -> Result<Finished, Stop>
    requires fresh { OnSwap prepared.swap IsFresh }
    requires stands { Stands (bytes_of (D.disk depot.old).slots.main) (D.disk depot.old) }
    requires belongs { IsTrue (D.disk depot.old).tells
        → OnSwap prepared.swap (λ s. Belongs s.plan (bytes_of (D.disk depot.old).slots.main)) }
    ensures { CarriedBy prepared.swap prepared.finished
        (bytes_of (D.disk depot.old).slots.main) (D.disk depot.old) (D.disk depot.new) result }
{
    let Prepared { finished, swap } = prepared;
    match swap {
        None => Ok(finished),
        Some(swap) => {
            swap.run(depot)?;
            Ok(finished)
        }
    }
}
