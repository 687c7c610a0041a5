// The names of the streams.
ghost use Rattle.std.specs.Prelude.{◌≡◌, ◌+◌, ◌-◌, ◌<◌, ◌≤◌, ◌^◌, ◌∷◌, [], ℕ, List, IfErr, OnOk, length, map};
ghost use Rattle.std.specs.List.{AllByRecursion};
ghost use Rattle.me_disk.specs.Causes.{Rose};
ghost use Rattle.me_disk.specs.Holds.{Holds, Inside as IsInside};
ghost use Rattle.me_disk.specs.Steps.{ReadsOnly};
ghost use Rattle.opendml_index.specs.Checks.{EndInside};
ghost use Rattle.avi_model.specs.Map.{bytes_in};
ghost use Rattle.avi_names.specs.Names.{IsWhole};
ghost use Rattle.info_list.specs.Fields.{Grows};
ghost use Rattle.avi_file.specs.Fields.{IsNoWhy, OnlyTexts};
ghost use Rattle.avi_file.specs.Names.{StreamsEnd, names_at, stream_held, streams_held};

use crate::fields::read_bytes;
use avi_names::{NamesFault, strl_names};
use me_disk::Depot;
use part_tree::{FieldName, Fields, ReadFault, Span, Value};
use std::alloc::Global;

// Puts a name with this body behind the fields, as one of the stream of a number.
fn read_name<D: Depot>(
    fields: &mut Fields,
    alloc: Global,
    depot: &mut D,
    stream: u32,
    name: Span,
) -> Result<(), ReadFault>
    requires inside { IsInside (name.at + name.len) (D.disk depot.old) }
    requires small { name.at + name.len < 2 ^ 63 }
    ensures name { (b : List ℕ) → Holds (D.disk depot.old) b
        → OnOk result (Grows fields.old fields.new (stream_held stream (bytes_in b name ∷ []))) }
    ensures only { OnOk result (OnlyTexts fields.old → OnlyTexts fields.new) }
    ensures why { IfErr result (λ fault. IsNoWhy fault) }
    ensures reads { ReadsOnly (D.disk depot.old) (D.disk depot.new) }
    ensures cause { result ≡ Err ReadFault.Depot → Rose (D.disk depot.old).faults (D.disk depot.new).faults }
{
    let raw = match read_bytes(alloc, depot, name) {
        Err(fault) => return Err(fault),
        Ok(raw) => raw,
    };
    match fields.add(FieldName::Stream(stream), Value { lang: 0, raw }) {
        Err(_) => Err(ReadFault::Memory),
        Ok(()) => Ok(()),
    }
}

// Puts the names with these bodies behind the fields, as those of the stream of a number.
fn read_names<D: Depot>(
    fields: &mut Fields,
    alloc: Global,
    depot: &mut D,
    stream: u32,
    names: &[Span],
) -> Result<(), ReadFault>
    requires inside { (b : List ℕ) → Holds (D.disk depot.old) b → AllByRecursion (EndInside (length b)) names.now }
    requires small { AllByRecursion (EndInside (2 ^ 63 - 1)) names.now }
    ensures names { (b : List ℕ) → Holds (D.disk depot.old) b
        → OnOk result (Grows fields.old fields.new (stream_held stream (map (bytes_in b) names.now))) }
    ensures only { OnOk result (OnlyTexts fields.old → OnlyTexts fields.new) }
    ensures why { IfErr result (λ fault. IsNoWhy fault) }
    ensures reads { ReadsOnly (D.disk depot.old) (D.disk depot.new) }
    ensures cause { result ≡ Err ReadFault.Depot → Rose (D.disk depot.old).faults (D.disk depot.new).faults }
{
    'names: for name in names {
        match read_name(fields, alloc, depot, stream, *name) {
            Err(fault) => return Err(fault),
            Ok(()) => {}
        }
    }
    Ok(())
}

// Puts the names in the list of the stream of a number behind the fields, where that list ends at a place or before.
fn read_stream<D: Depot>(
    fields: &mut Fields,
    alloc: Global,
    depot: &mut D,
    stream: u32,
    strl: Span,
    end: u64,
) -> Result<(), ReadFault>
    requires inside { IsInside end (D.disk depot.old) }
    requires small { end < 2 ^ 63 }
    requires whole { IsWhole (D.disk depot.old) strl }
    ensures names { (b : List ℕ) → Holds (D.disk depot.old) b → strl.at + strl.len ≤ end
        → OnOk result (Grows fields.old fields.new (stream_held stream (names_at b strl))) }
    ensures only { OnOk result (OnlyTexts fields.old → OnlyTexts fields.new) }
    ensures why { IfErr result (λ fault. IsNoWhy fault) }
    ensures reads { ReadsOnly (D.disk depot.old) (D.disk depot.new) }
    ensures cause { result ≡ Err ReadFault.Depot → Rose (D.disk depot.old).faults (D.disk depot.new).faults }
{
    if strl.at > end {
        return Ok(());
    }
    if strl.len > end - strl.at {
        return Ok(());
    }
    let names = match strl_names(alloc, depot, strl) {
        Err(NamesFault::Depot) => return Err(ReadFault::Depot),
        Err(NamesFault::Memory) => return Err(ReadFault::Memory),
        Ok(names) => names,
    };
    read_names(fields, alloc, depot, stream, &names)
}

/// Puts the names of the streams with these lists behind the fields: each as a value of its stream, by its number from 0. The
/// lists end with their chunks, at a place or before.
pub fn read_streams<D: Depot>(
    fields: &mut Fields,
    alloc: Global,
    depot: &mut D,
    strls: &[Span],
    end: u64,
) -> Result<(), ReadFault>
    requires inside { IsInside end (D.disk depot.old) }
    requires small { end < 2 ^ 63 }
    requires lists { (b : List ℕ) → Holds (D.disk depot.old) b → AllByRecursion (EndInside end) strls.now }
    requires whole { (b : List ℕ) → Holds (D.disk depot.old) b → StreamsEnd b strls.now }
    requires few { (b : List ℕ) → Holds (D.disk depot.old) b → length strls.now ≤ 65536 }
    ensures names { (b : List ℕ) → Holds (D.disk depot.old) b
        → OnOk result (Grows fields.old fields.new (streams_held b 0 strls.now)) }
    ensures only { OnOk result (OnlyTexts fields.old → OnlyTexts fields.new) }
    ensures why { IfErr result (λ fault. IsNoWhy fault) }
    ensures reads { ReadsOnly (D.disk depot.old) (D.disk depot.new) }
    ensures cause { result ≡ Err ReadFault.Depot → Rose (D.disk depot.old).faults (D.disk depot.new).faults }
{
    let mut stream: u32 = 0;
    'strls: for strl in strls {
        match read_stream(fields, alloc, depot, stream, *strl, end) {
            Err(fault) => return Err(fault),
            Ok(()) => {}
        }
        stream = stream.saturating_add(1);
    }
    Ok(())
}
