// What is shown of a file.
ghost use Rattle.std.specs.Prelude.{◌≡◌, ◌++◌, ℕ, List, [], IfOk, OnOk, Err};
ghost use Rattle.std.specs.List.{AllByRecursion};
ghost use Rattle.part_tree.specs.Fields.{values};
ghost use Rattle.field_model.specs.KindFacts.{facts};
ghost use Rattle.field_model.specs.Lawful.{FillsName, IsLawful};
ghost use Rattle.me_disk.specs.Causes.{Rose};
ghost use Rattle.me_disk.specs.Holds.{Holds};
ghost use Rattle.me_disk.specs.Steps.{ReadsOnly};
ghost use Rattle.part_tree.specs.Ranges.{Ascends};
ghost use Rattle.track_samples.specs.Places.{AllInside, TablesLie};
ghost use Rattle.me_report.specs.Report.{all_lines, counted_line, field_lines, head_lines, index_line, kind_line, plain_report, show_report, text_line, track_lines, value_line};

use crate::text::{put, put_count, put_name, put_number};
use core_edit::shown;
use escapes::escape;
use me_disk::Depot;
use part_tree::{Bytes, FieldName, Fields, Kind, NoMemory, Shows, Span, Track, Value};
use std::alloc::Global;
use track_samples::{TrackCounts, count_track};

/// Why a file isn't shown.
#[derive(Clone, Copy, Debug, PartialEq, Eq)]
pub enum ReportFault {
    Depot,
    Memory,
}

fn kind_word(kind: Kind) -> &'static [u8]
    ensures { result.now ≡ (facts kind).word }
{
    match kind {
        Kind::Wave => b"wave",
        Kind::Rf64 => b"rf64",
        Kind::Bw64 => b"bw64",
        Kind::Avi => b"avi",
        Kind::Mov => b"mov",
    }
}

fn put_kind(out: &mut Vec<u8>, kind: Kind) -> Result<(), NoMemory>
    ensures { OnOk result (out.new.items ≡ out.old.items ++ kind_line kind) }
{
    put(out, b"kind ")?;
    put(out, kind_word(kind))?;
    put(out, b"\n")
}

fn put_entries(out: &mut Vec<u8>, entries: Option<u64>) -> Result<(), NoMemory>
    ensures { OnOk result (out.new.items ≡ out.old.items ++ index_line entries) }
{
    match entries {
        Some(count) => put_count(out, b"index ", count),
        None => Ok(()),
    }
}

// Appends a name and a text with escapes, as a line.
fn put_text(alloc: Global, out: &mut Vec<u8>, name: &FieldName, text: &[u8]) -> Result<(), NoMemory>
    ensures { OnOk result (out.new.items ≡ out.old.items ++ text_line name.now text.now) }
{
    let escaped = escape(alloc, text)?;
    put_name(alloc, out, name)?;
    put(out, b"=")?;
    put(out, escaped.as_slice())?;
    put(out, b"\n")
}

// Appends the line of a value, where it shows a text.
fn put_value(
    alloc: Global,
    out: &mut Vec<u8>,
    fields: &Fields,
    name: &FieldName,
    value: &Value,
) -> Result<(), NoMemory>
    requires lawful { IsLawful (values fields.now) }
    requires fills { FillsName name.now value.now.raw }
    ensures { OnOk result (out.new.items ≡ out.old.items ++ value_line (values fields.now) name.now value.now) }
{
    match shown(alloc, fields, name, value)? {
        Some(text) => put_text(alloc, out, name, text.as_slice()),
        None => Ok(()),
    }
}

// Appends the lines of a field.
fn put_field(
    alloc: Global,
    out: &mut Vec<u8>,
    fields: &Fields,
    name: &FieldName,
) -> Result<(), NoMemory>
    requires { IsLawful (values fields.now) }
    ensures { OnOk result (out.new.items ≡ out.old.items ++ field_lines (values fields.now) name.now) }
{
    'values: for value in fields.get(name) {
        put_value(alloc, out, fields, name, value)?;
    }
    Ok(())
}

// Appends the lines of all fields.
fn put_fields(alloc: Global, out: &mut Vec<u8>, fields: &Fields) -> Result<(), NoMemory>
    requires { IsLawful (values fields.now) }
    ensures { OnOk result (out.new.items ≡ out.old.items ++ all_lines fields.now) }
{
    let mut k = 0;
    'names: while let Some(name) = fields.name_at(k) {
        put_field(alloc, out, fields, name)?;
        k += 1;
    }
    Ok(())
}

// Appends the kind, the length of the sound or pictures, and the counted entries of indexes.
fn put_head<M: Shows>(out: &mut Vec<u8>, map: &M) -> Result<(), NoMemory>
    ensures { OnOk result (out.new.items ≡ out.old.items ++ head_lines (M.told map.now)) }
{
    put_kind(out, map.kind())?;
    put_count(out, b"essence ", map.payload())?;
    put_entries(out, map.entries())
}

// Appends the line of a track.
fn put_track(out: &mut Vec<u8>, number: u64, counts: &TrackCounts) -> Result<(), NoMemory>
    ensures { OnOk result (out.new.items
        ≡ out.old.items ++ counted_line number counts.now.chunks counts.now.samples) }
{
    put(out, b"track ")?;
    put_number(out, number)?;
    put(out, b" chunks ")?;
    put_number(out, u64::from(counts.chunks))?;
    put(out, b" samples ")?;
    put_number(out, u64::from(counts.samples))?;
    put(out, b"\n")
}

// Appends the lines of the tracks of a file, whose samples these bodies hold.
fn put_tracks<D: Depot>(
    out: &mut Vec<u8>,
    depot: &mut D,
    tracks: &[Track],
    bodies: &[Span],
) -> Result<(), ReportFault>
    requires order { Ascends 0 bodies.now }
    requires inside { AllInside (D.disk depot.old) bodies.now }
    requires tables { AllByRecursion (TablesLie (D.disk depot.old)) tracks.now }
    ensures lines { (b : List ℕ) → Holds (D.disk depot.old) b
        → OnOk result (out.new.items ≡ out.old.items ++ track_lines b bodies.now 1 tracks.now) }
    ensures none { tracks.now ≡ [] → OnOk result (out.new.items ≡ out.old.items) }
    ensures still { tracks.now ≡ [] → depot.new ≡ depot.old }
    ensures reads { ReadsOnly (D.disk depot.old) (D.disk depot.new) }
    ensures cause { result ≡ Err ReportFault.Depot → Rose (D.disk depot.old).faults (D.disk depot.new).faults }
{
    let mut number: u64 = 1;
    'tracks: for track in tracks {
        let counts = match count_track(depot, track, bodies) {
            Err(_) => return Err(ReportFault::Depot),
            Ok(counts) => counts,
        };
        match put_track(out, number, &counts) {
            Err(_) => return Err(ReportFault::Memory),
            Ok(()) => {}
        }
        number += 1;
    }
    Ok(())
}

/// What a file shows: its kind, the length of its sound or pictures, the counted entries of its indexes, for each track how many
/// chunks it has and how many samples that lie in the `mdat` of their chunk, and a line for each value that shows a text, in field
/// order.
///
/// # Errors
///
/// `Memory` where there is none for the text. `Depot` only where the count of the depot's faults rose.
pub fn show_text<D: Depot, M: Shows>(
    alloc: Global,
    depot: &mut D,
    map: &M,
) -> Result<Bytes, ReportFault>
    requires lawful { IsLawful (values (M.told map.now).fields) }
    requires order { Ascends 0 (M.told map.now).mdats }
    requires inside { AllInside (D.disk depot.old) (M.told map.now).mdats }
    requires tables { AllByRecursion (TablesLie (D.disk depot.old)) (M.told map.now).tracks }
    ensures text { (b : List ℕ) → Holds (D.disk depot.old) b
        → IfOk result (λ text. text ≡ show_report b (M.told map.now)) }
    // A file without tracks is shown by its map alone, whatever the depot tells.
    ensures plain { (M.told map.now).tracks ≡ [] → IfOk result (λ text. text ≡ plain_report (M.told map.now)) }
    ensures still { (M.told map.now).tracks ≡ [] → depot.new ≡ depot.old }
    ensures reads { ReadsOnly (D.disk depot.old) (D.disk depot.new) }
    ensures cause { result ≡ Err ReportFault.Depot → Rose (D.disk depot.old).faults (D.disk depot.new).faults }
{
    let mut out = Vec::new(alloc);
    match put_head(&mut out, map) {
        Err(_) => return Err(ReportFault::Memory),
        Ok(()) => {}
    }
    match put_tracks(&mut out, depot, map.tracks(), map.mdats()) {
        Err(fault) => return Err(fault),
        Ok(()) => {}
    }
    match put_fields(alloc, &mut out, map.fields()) {
        Err(_) => Err(ReportFault::Memory),
        Ok(()) => Ok(Bytes::of(out)),
    }
}
