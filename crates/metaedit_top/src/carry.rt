// What a request asks for, whether it makes a file or not.
ghost use Rattle.std.specs.Prelude.{◌≡◌, true};
ghost use Rattle.me_generate.specs.Stated.{IsMade};
ghost use Rattle.metaedit_top.specs.Begun.{Carries};
ghost use Rattle.metaedit_top.specs.Words as spec;

use crate::make::make_file;
use crate::outcome::{Finished, Stop};
use crate::run::{counted_stop, run};
use crate::words::{Request, makes_file};
use me_disk::Depot;
use std::alloc::Global;

// Makes a file and edits it, and tells a fault of the device where it counted one.
fn make_counted<D: Depot>(alloc: Global, depot: &mut D, request: &Request) -> Result<Finished, Stop>
    requires makes { spec.makes_file request.now.command ≡ true }
    requires number { IsMade request.now.kind request.now.n }
    ensures { Carries request.now (D.disk depot.old) (D.disk depot.new) result }
{
    let before = depot.faults();
    match make_file(alloc, depot, request) {
        Ok(finished) => Ok(finished),
        Err(stop) => Err(counted_stop(stop, before, depot.faults())),
    }
}

/// Does what is asked for, up to the output: it makes a file, or settles the one that is there and goes on with it.
pub(crate) fn carry<D: Depot>(
    alloc: Global,
    depot: &mut D,
    request: &Request,
) -> Result<Finished, Stop>
    requires number { spec.makes_file request.now.command ≡ true → IsMade request.now.kind request.now.n }
    ensures { Carries request.now (D.disk depot.old) (D.disk depot.new) result }
{
    if makes_file(request.command) {
        make_counted(alloc, depot, request)
    } else {
        run(alloc, depot, request)
    }
}
