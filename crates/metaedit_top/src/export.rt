// The table of a file's fields.
ghost use Rattle.std.specs.Prelude.{◌≡◌, Bool};
ghost use Rattle.metaedit_top.specs.Stage.{Acts, IsSettled};

use crate::outcome::{Finished, Stop};
use crate::table::exported;
use crate::tell::look_summary;
use crate::words::{Command, Request};
use edit_planner::read;
use me_disk::Depot;
use part_tree::Shows;
use std::alloc::Global;

/// Prints the Core table of a file's fields, under the name that the words have for it, where the file is supported.
pub(crate) fn export<D: Depot>(
    alloc: Global,
    depot: &mut D,
    request: &Request,
) -> Result<Finished, Stop>
    requires command { request.now.command ≡ Command.Export }
    requires settled { IsSettled (D.disk depot.old) }
    ensures { (stood : Bool) → Acts request.now stood (D.disk depot.old) (D.disk depot.new) result }
{
    let map = read(alloc, depot)?;
    let text = exported(alloc, request.format, request.file.as_slice(), map.fields())?;
    let summary = look_summary(map.payload(), 0);
    Ok(Finished { summary, text })
}
