// The whole file.
ghost use Rattle.std.specs.Prelude.{◌≡◌, ◌<◌, ◌^◌, ℕ, List, IfOk, None, length, map};
ghost use Rattle.me_disk.specs.Causes.{Rose};
ghost use Rattle.me_disk.specs.Holds.{Holds};
ghost use Rattle.me_disk.specs.Steps.{ReadsOnly};
ghost use Rattle.part_tree.specs.Fields.{values};
ghost use Rattle.field_model.specs.Lawful.{IsLawful};
ghost use Rattle.avi_model.specs.Avi.{avi_of, strls};
ghost use Rattle.avi_model.specs.Map.{parts_of};
ghost use Rattle.avi_model.specs.Why.{why_named};
ghost use Rattle.avi_file.specs.Forms.{AreForms};
ghost use Rattle.avi_file.specs.Map.{IsSound, ReadsAvi, ReadsFields};
ghost use Rattle.avi_file.specs.Walk.{ArePlaced, behind_type};

use crate::chosen::infos_of;
use crate::fields::read_lists;
use crate::form::{Forms, read_forms};
use crate::map::AviMap;
use crate::names::read_streams;
use crate::tables::{Tables, read_tables};
use me_disk::{Depot, Slot};
use part_tree::{Fields, Part, ReadFault, Span};
use std::alloc::Global;

// The fields of a file of this length, whose parts and whose streams' lists these are.
fn read_fields<D: Depot>(
    alloc: Global,
    depot: &mut D,
    parts: &[Part],
    streams: &[Span],
    len: u64,
) -> Result<Fields, ReadFault>
    requires whole { (b : List ℕ) → Holds (D.disk depot.old) b → len ≡ length b }
    requires small { len < 2 ^ 63 }
    requires placed { ArePlaced len len parts.now }
    requires parts { (b : List ℕ) → Holds (D.disk depot.old) b → parts.now ≡ parts_of b }
    requires streams { (b : List ℕ) → Holds (D.disk depot.old) b → streams.now ≡ map behind_type (strls (avi_of b)) }
    requires supported { (b : List ℕ) → Holds (D.disk depot.old) b → why_named b ≡ None }
    ensures fields { (b : List ℕ) → Holds (D.disk depot.old) b → ReadsFields b result }
    ensures lawful { IfOk result (λ fields. IsLawful (values fields)) }
    ensures reads { ReadsOnly (D.disk depot.old) (D.disk depot.new) }
    ensures cause { result ≡ Err ReadFault.Depot → Rose (D.disk depot.old).faults (D.disk depot.new).faults }
{
    let lists = match infos_of(alloc, parts) {
        Err(_) => return Err(ReadFault::Memory),
        Ok(lists) => lists,
    };
    let mut fields = Fields::new(alloc);
    match read_lists(&mut fields, alloc, depot, &lists) {
        Err(fault) => return Err(fault),
        Ok(()) => {}
    }
    match read_streams(&mut fields, alloc, depot, streams, len) {
        Err(fault) => Err(fault),
        Ok(()) => Ok(fields),
    }
}

// The map of a file of this length whose forms were read.
fn read_rest<D: Depot>(
    alloc: Global,
    depot: &mut D,
    forms: Forms,
    len: u64,
) -> Result<AviMap, ReadFault>
    requires whole { (b : List ℕ) → Holds (D.disk depot.old) b → len ≡ length b }
    requires small { len < 2 ^ 63 }
    requires placed { ArePlaced len len forms.top.reading.parts.items }
    requires forms { (b : List ℕ) → Holds (D.disk depot.old) b → AreForms b forms }
    ensures avi { (b : List ℕ) → Holds (D.disk depot.old) b → ReadsAvi b result }
    ensures sound { IfOk result (λ map. IsSound map) }
    ensures reads { ReadsOnly (D.disk depot.old) (D.disk depot.new) }
    ensures cause { result ≡ Err ReadFault.Depot → Rose (D.disk depot.old).faults (D.disk depot.new).faults }
{
    let reading = forms.top.reading;
    let tables = match read_tables(alloc, depot, &reading.parts, len) {
        Err(fault) => return Err(fault),
        Ok(tables) => tables,
    };
    match read_fields(alloc, depot, &reading.parts, &reading.streams, len) {
        Err(fault) => Err(fault),
        Ok(fields) => Ok(AviMap {
            len,
            forms: forms.forms,
            parts: reading.parts,
            fields,
            movis: tables.movis,
            idx1: tables.idx1,
            supers: tables.supers,
            standards: tables.standards,
            entries: tables.entries,
            streams: reading.streams,
        }),
    }
}

/// Reads an AVI file: its map, or the first reason for which it is refused, with its place and entry. The depot is only read.
/// `Depot` only where the count of the depot's faults rose. Whatever the depot, a map is sound: its parts and its essence lie
/// inside the length, its index chunks have headers, and its fields are lawful. Tables are read in windows.
pub fn read_avi<D: Depot>(alloc: Global, depot: &mut D) -> Result<AviMap, ReadFault>
    ensures avi { (b : List ℕ) → Holds (D.disk depot.old) b → ReadsAvi b result }
    ensures sound { IfOk result (λ map. IsSound map) }
    ensures reads { ReadsOnly (D.disk depot.old) (D.disk depot.new) }
    ensures cause { result ≡ Err ReadFault.Depot → Rose (D.disk depot.old).faults (D.disk depot.new).faults }
{
    let len = match depot.len(Slot::Main) {
        Err(_) => return Err(ReadFault::Depot),
        Ok(len) => len,
    };
    let forms = match read_forms(alloc, depot, len) {
        Err(fault) => return Err(fault),
        Ok(forms) => forms,
    };
    read_rest(alloc, depot, forms, len)
}
