// What is told of a file that is settled, and that is only read.
ghost use Rattle.std.specs.Prelude.{◌≡◌, ◌+◌, ◌<◌, ◌^◌, Bool, length, Some, None, IfOk, IfSome};
ghost use Rattle.me_disk.specs.Holds.{Inside};
ghost use Rattle.me_disk.specs.Steps.{HasCause, ReadsOnly};
ghost use Rattle.me_report.specs.Checksums.{checksum_text, finding_count};
ghost use Rattle.me_report.specs.Findings.{findings_text};
ghost use Rattle.field_model.specs.Lawful.{IsLawful};
ghost use Rattle.edit_planner.specs.Plan.{fields_in, told_in};
ghost use Rattle.metaedit_top.specs.Asked.{digest_of};
ghost use Rattle.metaedit_top.specs.Stage.{Acts, IsSettled, OnHeld};
ghost use Rattle.metaedit_top.specs.Told.{findings_of, look_summary as look_summary_of};

use crate::outcome::{Finished, Stop};
use crate::words::{Command, Request};
use edit_planner::{FileMap, read};
use fadgi_rules::all_broken;
use me_disk::{Depot, DepotFault};
use me_report::{Summary, md5_findings, md5_text, show_text, sound_md5, validate_text};
use part_tree::{NoMemory, RuleSet, Shows, Span};
use std::alloc::Global;

/// The summary of a run that only reads a file.
pub(crate) fn look_summary(payload: u64, findings: u32) -> Summary
    ensures { result ≡ look_summary_of payload findings }
{
    Summary {
        changed: false,
        in_place: false,
        payload,
        findings,
    }
}

// What is told of the rules that fields break as they stand.
fn tell_findings(alloc: Global, map: &FileMap, rules: RuleSet) -> Result<Finished, NoMemory>
    requires { IsLawful (fields_in map.now) }
    ensures summary { IfOk result (λ f. f.summary
        ≡ look_summary_of (told_in map.now).payload (length (findings_of map.now rules))) }
    ensures text { IfOk result (λ f. f.text ≡ findings_text (findings_of map.now rules)) }
{
    let broken = all_broken(alloc, map.kind(), map.fields(), rules)?;
    let text = validate_text(alloc, broken.as_slice())?;
    let summary = look_summary(map.payload(), broken.len() as u32);
    Ok(Finished { summary, text })
}

/// Tells which of the rules the fields of a file break as they stand, where the file is supported.
pub(crate) fn validate<D: Depot>(
    alloc: Global,
    depot: &mut D,
    request: &Request,
) -> Result<Finished, Stop>
    requires command { request.now.command ≡ Command.Validate }
    requires settled { IsSettled (D.disk depot.old) }
    ensures { (stood : Bool) → Acts request.now stood (D.disk depot.old) (D.disk depot.new) result }
{
    let map = read(alloc, depot)?;
    let finished = tell_findings(alloc, &map, request.rules)?;
    Ok(finished)
}

// The checksum of a range of the file, where there is one.
fn digest<D: Depot>(depot: &mut D, range: Option<Span>) -> Result<Option<[u8; 16]>, DepotFault>
    requires inside { IfSome range (λ s. Inside (s.at + s.len) (D.disk depot.old)) }
    requires small { IfSome range (λ s. s.at + s.len < 2 ^ 63) }
    ensures digest { OnHeld (D.disk depot.old) (λ o. IfOk result (λ digest. digest ≡ digest_of o range)) }
    ensures reads { ReadsOnly (D.disk depot.old) (D.disk depot.new) }
    ensures cause { HasCause (D.disk depot.old) (D.disk depot.new) result }
{
    match range {
        Some(range) => Ok(Some(sound_md5(depot, range)?)),
        None => Ok(None),
    }
}

// What is told of the checksums of a sound, of which this is the computed one.
fn tell_checksums(
    alloc: Global,
    map: &FileMap,
    digest: Option<[u8; 16]>,
) -> Result<Finished, NoMemory>
    ensures summary { IfOk result (λ f. f.summary
        ≡ look_summary_of (told_in map.now).payload (finding_count (fields_in map.now) digest)) }
    ensures text { IfOk result (λ f. f.text ≡ checksum_text (fields_in map.now) digest) }
{
    let text = md5_text(alloc, map.fields(), digest)?;
    let summary = look_summary(map.payload(), md5_findings(map.fields(), digest));
    Ok(Finished { summary, text })
}

/// Tells the checksums of a file's sound: those that it stores, and the computed one, where the file is supported. It has a
/// block of the sound on its stack, which other commands needn't have on theirs.
#[inline(never)]
pub(crate) fn md5<D: Depot>(
    alloc: Global,
    depot: &mut D,
    request: &Request,
) -> Result<Finished, Stop>
    requires command { request.now.command ≡ Command.Md5 }
    requires settled { IsSettled (D.disk depot.old) }
    ensures { (stood : Bool) → Acts request.now stood (D.disk depot.old) (D.disk depot.new) result }
{
    let map = read(alloc, depot)?;
    let digest = digest(depot, map.hashed())?;
    let finished = tell_checksums(alloc, &map, digest)?;
    Ok(finished)
}

/// Shows the kind of a file, the length of its sound and its fields, where it is supported.
pub(crate) fn show<D: Depot>(
    alloc: Global,
    depot: &mut D,
    request: &Request,
) -> Result<Finished, Stop>
    requires command { request.now.command ≡ Command.Show }
    requires settled { IsSettled (D.disk depot.old) }
    ensures { (stood : Bool) → Acts request.now stood (D.disk depot.old) (D.disk depot.new) result }
{
    let map = read(alloc, depot)?;
    let text = show_text(alloc, depot, &map)?;
    let summary = look_summary(map.payload(), 0);
    Ok(Finished { summary, text })
}
