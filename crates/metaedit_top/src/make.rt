// A file that is made, and edited.
ghost use Rattle.std.specs.Prelude.{◌≡◌, true, IsTrue, IfOk, IfErr, OnOk};
ghost use Rattle.field_model.specs.KindFacts.{facts};
ghost use Rattle.me_disk.specs.Steps.{ReadsOnly};
ghost use Rattle.me_generate.specs.Stated.{IsMade};
ghost use Rattle.metaedit_top.specs.Begun.{IsClear, MakeLeaves, MakeStops, MakesFile};
ghost use Rattle.metaedit_top.specs.Told.{made_line as made_line_of};
ghost use Rattle.metaedit_top.specs.Words.{makes_file};

use crate::outcome::{Finished, Stop};
use crate::set::set;
use crate::words::Request;
use edit_journal::{JournalFault, check_journal};
use me_disk::{Depot, Slot};
use me_generate::{MakeFault, make};
use part_tree::{Bytes, Kind, NoMemory};
use std::alloc::Global;

impl From<MakeFault> for Stop {
    ghost use Rattle.std.specs.Prelude.{◌≡◌};
    ghost use Rattle.metaedit_top.specs.Begun.{stop_of_make};

    ghost from_gives = { λ fault e. e ≡ stop_of_make fault };

    fn from(fault: MakeFault) -> Stop {
        match fault {
            MakeFault::Depot => Stop::Depot,
            MakeFault::Memory => Stop::Memory,
        }
    }
}

// Finds neither a file nor a journal, or tells which is there. A journal without a file is damaged.
fn find_none<D: Depot>(depot: &mut D, request: &Request) -> Result<(), Stop>
    ensures clear { OnOk result (IsTrue (D.disk depot.old).tells → IsClear (D.disk depot.old).slots) }
    ensures stops { IfErr result (MakeStops request.now (D.disk depot.old) (D.disk depot.new)) }
    ensures leaves { IfErr result (MakeLeaves request.now (D.disk depot.old) (D.disk depot.new)) }
    ensures reads { ReadsOnly (D.disk depot.old) (D.disk depot.new) }
{
    match depot.has(Slot::Main) {
        Err(_) => return Err(Stop::Depot),
        Ok(true) => return Err(Stop::FileThere),
        Ok(false) => {}
    }
    match depot.has(Slot::Journal) {
        Err(_) => return Err(Stop::Depot),
        Ok(false) => return Ok(()),
        Ok(true) => {}
    }
    match check_journal(depot) {
        Ok(head) => Err(Stop::Damaged { at: head.len }),
        Err(JournalFault::Damaged { at }) => Err(Stop::Damaged { at }),
        Err(JournalFault::Depot) => Err(Stop::Depot),
    }
}

// The printed name of a kind.
fn kind_word(kind: Kind) -> &'static str
    ensures { result.now ≡ (facts kind).word }
{
    match kind {
        Kind::Wave => "wave",
        Kind::Rf64 => "rf64",
        Kind::Bw64 => "bw64",
        Kind::Avi => "avi",
        Kind::Mov => "mov",
    }
}

// The line of a file that was made.
fn made_line(alloc: Global, kind: Kind, n: u64, len: u64) -> Result<Bytes, NoMemory>
    ensures { IfOk result (λ line. line ≡ made_line_of kind n len) }
{
    let word = kind_word(kind);
    let text = format!(in alloc; "made {word} {n} bytes {len}\n")?;
    Ok(Bytes::of(text.into_bytes()))
}

/// Makes a stated file where none is, and edits it, up to the output.
pub(crate) fn make_file<D: Depot>(
    alloc: Global,
    depot: &mut D,
    request: &Request,
) -> Result<Finished, Stop>
    requires makes { makes_file request.now.command ≡ true }
    requires number { IsMade request.now.kind request.now.n }
    ensures { MakesFile request.now (D.disk depot.old) (D.disk depot.new) result }
{
    find_none(depot, request)?;
    let len = make(alloc, depot, request.kind, request.n)?;
    let line = made_line(alloc, request.kind, request.n, len)?;
    set(alloc, depot, request, line.as_slice())
}
