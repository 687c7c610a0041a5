// A run on the file of a depot, up to its output.
ghost use Rattle.std.specs.Prelude.{◌≡◌, IfOk, false, string_bytes};
ghost use Rattle.metaedit_top.specs.Run.{Runs};
ghost use Rattle.metaedit_top.specs.Stage.{Acts, IsSettled, counted};
ghost use Rattle.metaedit_top.specs.Told.{no_edit, recovered_line, was_redone};
ghost use Rattle.metaedit_top.specs.Words.{makes_file};

use crate::export::export;
use crate::outcome::{Finished, Stop};
use crate::set::set;
use crate::tell::{md5, show, validate};
use crate::words::{Command, Request};
use me_disk::Depot;
use me_report::Summary;
use part_tree::{Bytes, NoMemory};
use recovery::{Recovered, recover};
use std::alloc::Global;

// Whether a journal was redone.
fn is_redone(recovered: Recovered) -> bool
    ensures { result ≡ was_redone recovered }
{
    match recovered {
        Recovered::Nothing => false,
        Recovered::Redone { len: _ } => true,
    }
}

// The line of a recovery.
fn recovered_text(redone: bool) -> &'static str
    ensures { result.now ≡ recovered_line redone }
{
    if redone {
        "recovered redone\n"
    } else {
        "recovered nothing\n"
    }
}

// What is told of a recovery that was all that was asked for.
fn tell_recovery(alloc: Global, redone: bool) -> Result<Finished, NoMemory>
    ensures summary { IfOk result (λ f. f.summary ≡ no_edit) }
    ensures text { IfOk result (λ f. f.text ≡ recovered_line redone) }
{
    let text = Bytes::new(alloc, recovered_text(redone).as_bytes())?;
    Ok(Finished {
        summary: Summary {
            changed: false,
            in_place: false,
            payload: 0,
            findings: 0,
        },
        text,
    })
}

// Does what is asked for with a file that is settled, beside which a journal stood or not.
fn act<D: Depot>(
    alloc: Global,
    depot: &mut D,
    request: &Request,
    redone: bool,
) -> Result<Finished, Stop>
    requires there { makes_file request.now.command ≡ false }
    requires settled { IsSettled (D.disk depot.old) }
    ensures { Acts request.now redone (D.disk depot.old) (D.disk depot.new) result }
{
    match request.command {
        // no file is made here
        Command::Set | Command::Apply | Command::Make => set(alloc, depot, request, b""),
        Command::Recover => Ok(tell_recovery(alloc, redone)?),
        Command::Show => show(alloc, depot, request),
        Command::Validate => validate(alloc, depot, request),
        Command::Md5 => md5(alloc, depot, request),
        Command::Export => export(alloc, depot, request),
    }
}

/// The stop that is told of a run before which the device had counted so many faults, and so many after it: where there
/// was no memory and the device failed too, the device's fault.
pub(crate) fn counted_stop(stop: Stop, before: u64, after: u64) -> Stop
    ensures { result ≡ counted before after stop }
{
    match stop {
        Stop::Memory if before < after => Stop::Depot,
        stop => stop,
    }
}

/// Settles the file after a crash, and then does what is asked for, up to the output.
pub(crate) fn run<D: Depot>(
    alloc: Global,
    depot: &mut D,
    request: &Request,
) -> Result<Finished, Stop>
    requires there { makes_file request.now.command ≡ false }
    ensures { Runs request.now (D.disk depot.old) (D.disk depot.new) result }
{
    let before = depot.faults();
    let recovered = recover(depot)?;
    match act(alloc, depot, request, is_redone(recovered)) {
        Ok(finished) => Ok(finished),
        Err(stop) => Err(counted_stop(stop, before, depot.faults())),
    }
}
