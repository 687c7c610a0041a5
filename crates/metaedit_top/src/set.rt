// The edit that is asked for, of a file that is settled.
ghost use Rattle.std.specs.Prelude.{◌≡◌, Bool, ℕ, List, true, IfOk};
ghost use Rattle.me_disk.specs.Holds.{Holds};
ghost use Rattle.metaedit_top.specs.Asked.{edits_file};
ghost use Rattle.metaedit_top.specs.Changed.{Prepares, in_front as in_front_of};
ghost use Rattle.metaedit_top.specs.Stage.{Acts, IsSettled};
ghost use Rattle.metaedit_top.specs.Told.{front_of};

use crate::change::{carry_out, start_change, tell_edit};
use crate::outcome::{Finished, Prepared, Stop};
use crate::words::Request;
use core_edit::{Edit, effective};
use edit_planner::read;
use fadgi_rules::first_broken;
use me_disk::Depot;
use me_report::Summary;
use part_tree::{Bytes, NoMemory, RuleSet, Shows};
use std::alloc::Global;

/// Makes ready what is needed for the edit of a file that is settled, where the file is supported and the edit breaks
/// none of the rules. The file is only read, and from here on an edit takes no memory.
pub(crate) fn prepare<D: Depot>(
    alloc: Global,
    depot: &mut D,
    rules: RuleSet,
    edit: &Edit,
) -> Result<Prepared, Stop>
    ensures { Prepares rules edit.now (D.disk depot.old) (D.disk depot.new) result }
{
    let map = read(alloc, depot)?;
    match first_broken(map.kind(), map.streams(), map.fields(), edit, rules) {
        Some(broken) => return Err(Stop::RuleBroken(broken)),
        None => {}
    }
    let edit = effective(alloc, map.fields(), edit)?;
    if edit.items().is_empty() {
        let unchanged = Summary {
            changed: false,
            in_place: false,
            payload: map.payload(),
            findings: 0,
        };
        let finished = tell_edit(alloc, unchanged)?;
        return Ok(Prepared {
            finished,
            swap: None,
        });
    }
    start_change(alloc, depot, &map, &edit)
}

// What is ready, told behind a text.
fn in_front(alloc: Global, front: &[u8], prepared: Prepared) -> Result<Prepared, NoMemory>
    ensures { IfOk result (λ p. p ≡ in_front_of front.now prepared) }
{
    let Prepared { finished, swap } = prepared;
    let mut text = Vec::from_slice(alloc, front)?;
    text.extend_from_slice(finished.text.as_slice())?;
    let finished = Finished {
        summary: finished.summary,
        text: Bytes::of(text),
    };
    Ok(Prepared { finished, swap })
}

/// Edits a file that is settled, where it is supported and the edit breaks none of the rules. Its line is told behind
/// a text.
pub(crate) fn set<D: Depot>(
    alloc: Global,
    depot: &mut D,
    request: &Request,
    front: &[u8],
) -> Result<Finished, Stop>
    requires command { edits_file request.now.command ≡ true }
    requires front { (o : List ℕ) → Holds (D.disk depot.old) o → front.now ≡ front_of request.now o }
    requires settled { IsSettled (D.disk depot.old) }
    ensures { (stood : Bool) → Acts request.now stood (D.disk depot.old) (D.disk depot.new) result }
{
    let prepared = prepare(alloc, depot, request.rules, &request.edit)?;
    let told = in_front(alloc, front, prepared)?;
    carry_out(depot, told)
}
