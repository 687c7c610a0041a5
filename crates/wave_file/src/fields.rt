// The fields of a chunk.
ghost use Rattle.std.specs.Prelude.{◌≡◌, ◌≤◌, ◌<◌, ◌+◌, ◌^◌, ℕ, List, IfErr, IfOk, OnOk, length, Bool, true};
ghost use Rattle.me_disk.specs.Causes.{Rose};
ghost use Rattle.me_disk.specs.Steps.{ReadsOnly};
ghost use Rattle.me_disk.specs.Holds.{Holds, Inside};
ghost use Rattle.container_model.specs.Chunk.{riff};
ghost use Rattle.container_model.specs.Written.{slice};
ghost use Rattle.carrier_model.specs.Info.{one_of};
ghost use Rattle.part_tree.specs.Fields.{Adds};
ghost use Rattle.part_tree.specs.Names.{whole_ids};
ghost use Rattle.field_model.specs.Fields.{plain};
ghost use Rattle.wave_model.specs.Fields.{is_info};
ghost use Rattle.riff_form.specs.Walk.{chunk_in};
ghost use Rattle.wave_model.specs.Wave.{form_kind};
ghost use Rattle.wave_file.specs.Map.{role_of};
ghost use Rattle.info_list.specs.Fields.{Grows};
ghost use Rattle.wave_file.specs.Reads.{IsNoWhy, KeepsKeys, KeepsRanges, ReadsFields, ranges_below};

use crate::range::{RangeFault, read_range};
use bext_fields::{BEXT, BextField, get_raw, rows_are_the_ranges};
use info_list::{InfoFault, add_items, read_info};
use me_disk::Depot;
use part_tree::{Bytes, FieldName, Fields, NoMemory, ReadFault, Role, Span, Value, Why};
use riff_form::ChunkAt;
use std::alloc::Global;

const MOST_PARTS: u64 = 65_536;

// A value without a language.
fn plain_value(alloc: Global, raw: &[u8]) -> Result<Value, NoMemory>
    ensures { IfOk result (λ value. value ≡ record { lang = 0; raw = raw.now }) }
{
    let raw = Bytes::new(alloc, raw)?;
    Ok(Value { lang: 0, raw })
}

// Puts the ranges of fixed length of a body of `bext` behind the fields.
fn add_rows(fields: &mut Fields, alloc: Global, body: &[u8]) -> Result<(), NoMemory>
    requires { 602 ≤ length body.now }
    ensures { OnOk result (Grows fields.old fields.new (ranges_below 14 body.now)) }
{
    rows_are_the_ranges();
    'rows: for k in 0..14 {
        let row = &BEXT[k];
        let value = plain_value(alloc, get_raw(body, row))?;
        fields.add(FieldName::Bext(row.field), value)?;
    }
    Ok(())
}

// Puts the fields of a body of `bext` behind the fields.
fn add_bext(fields: &mut Fields, alloc: Global, body: &[u8]) -> Result<(), NoMemory>
    requires { 602 ≤ length body.now }
    ensures { OnOk result (Grows fields.old fields.new (ranges_below 15 body.now)) }
{
    add_rows(fields, alloc, body)?;
    let value = plain_value(alloc, &body[602..])?;
    fields.add(FieldName::Bext(BextField::CodingHistory), value)
}

// Reads the items of a list. Gives how many parts it is.
fn read_items<D: Depot>(
    fields: &mut Fields,
    alloc: Global,
    depot: &mut D,
    chunk: &ChunkAt,
    parts: u64,
) -> Result<u64, ReadFault>
    requires inside { Inside (chunk.now.body.at + chunk.now.body.len) (D.disk depot.old) }
    requires small { chunk.now.body.at + chunk.now.body.len < 2 ^ 63 }
    requires place { chunk.now.at + 8 ≤ chunk.now.body.at }
    requires long { 4 ≤ chunk.now.body.len }
    requires few { parts < 65536 }
    ensures items { (b : List ℕ) → Holds (D.disk depot.old) b → is_info (chunk_in b riff chunk.now) ≡ true
        → ReadsFields (chunk_in b riff chunk.now) chunk.now.at parts fields.old fields.new result }
    ensures ranges { OnOk result (KeepsRanges Role.Info fields.old fields.new) }
    ensures keys { OnOk result (KeepsKeys fields.old fields.new) }
    ensures few { IfOk result (λ n. (0 < n) × (parts + n ≤ 65536)) }
    ensures reads { ReadsOnly (D.disk depot.old) (D.disk depot.new) }
    ensures cause { result ≡ Err ReadFault.Depot → Rose (D.disk depot.old).faults (D.disk depot.new).faults }
{
    let body = Span {
        at: chunk.body.at + 4,
        len: chunk.body.len - 4,
    };
    let bytes = match read_range(alloc, depot, body) {
        Err(RangeFault::Depot) => return Err(ReadFault::Depot),
        Err(RangeFault::Memory) => return Err(ReadFault::Memory),
        Ok(bytes) => bytes,
    };
    let list = match read_info(alloc, bytes.as_slice()) {
        Err(InfoFault::Memory) => return Err(ReadFault::Memory),
        Err(InfoFault::Truncated { at }) => {
            return Err(ReadFault::Why(Why::Truncated {
                at: chunk.at + 12 + at,
            }));
        }
        Ok(list) => list,
    };
    let items = list.items.as_slice();
    let count = items.len() as u64;
    if parts + 1 + count > MOST_PARTS {
        return Err(ReadFault::Why(Why::TooManyParts));
    }
    match add_items(fields, alloc, items) {
        Err(_) => Err(ReadFault::Memory),
        Ok(()) => Ok(1 + count),
    }
}

// Reads the fields of a chunk that is one as a whole.
fn read_whole<D: Depot>(
    fields: &mut Fields,
    alloc: Global,
    depot: &mut D,
    chunk: &ChunkAt,
) -> Result<(), ReadFault>
    requires inside { Inside (chunk.now.body.at + chunk.now.body.len) (D.disk depot.old) }
    requires small { chunk.now.body.at + chunk.now.body.len < 2 ^ 63 }
    requires name { one_of whole_ids chunk.now.id.0 ≡ true }
    ensures value { (b : List ℕ) → Holds (D.disk depot.old) b
        → OnOk result
        (Adds fields.old fields.new (FieldName.Whole chunk.now.id)
        (plain (slice b chunk.now.body.at chunk.now.body.len))) }
    ensures ranges { OnOk result (KeepsRanges Role.Whole fields.old fields.new) }
    ensures keys { OnOk result (KeepsKeys fields.old fields.new) }
    ensures why { IfErr result (λ fault. IsNoWhy fault) }
    ensures reads { ReadsOnly (D.disk depot.old) (D.disk depot.new) }
    ensures cause { result ≡ Err ReadFault.Depot → Rose (D.disk depot.old).faults (D.disk depot.new).faults }
{
    let raw = match read_range(alloc, depot, chunk.body) {
        Err(RangeFault::Depot) => return Err(ReadFault::Depot),
        Err(RangeFault::Memory) => return Err(ReadFault::Memory),
        Ok(raw) => raw,
    };
    match fields.add(FieldName::Whole(chunk.id), Value { lang: 0, raw }) {
        Err(_) => Err(ReadFault::Memory),
        Ok(()) => Ok(()),
    }
}

// Reads the fields of `bext`.
fn read_bext<D: Depot>(
    fields: &mut Fields,
    alloc: Global,
    depot: &mut D,
    chunk: &ChunkAt,
) -> Result<(), ReadFault>
    requires inside { Inside (chunk.now.body.at + chunk.now.body.len) (D.disk depot.old) }
    requires small { chunk.now.body.at + chunk.now.body.len < 2 ^ 63 }
    requires long { 602 ≤ chunk.now.body.len }
    ensures values { (b : List ℕ) → Holds (D.disk depot.old) b
        → OnOk result (Grows fields.old fields.new (ranges_below 15 (slice b chunk.now.body.at chunk.now.body.len))) }
    ensures ranges { OnOk result (KeepsRanges Role.Bext fields.old fields.new) }
    ensures keys { OnOk result (KeepsKeys fields.old fields.new) }
    ensures why { IfErr result (λ fault. IsNoWhy fault) }
    ensures reads { ReadsOnly (D.disk depot.old) (D.disk depot.new) }
    ensures cause { result ≡ Err ReadFault.Depot → Rose (D.disk depot.old).faults (D.disk depot.new).faults }
{
    let body = match read_range(alloc, depot, chunk.body) {
        Err(RangeFault::Depot) => return Err(ReadFault::Depot),
        Err(RangeFault::Memory) => return Err(ReadFault::Memory),
        Ok(body) => body,
    };
    match add_bext(fields, alloc, body.as_slice()) {
        Err(_) => Err(ReadFault::Memory),
        Ok(()) => Ok(()),
    }
}

// Reads the fields of a chunk with this role. Gives how many parts it is.
pub fn read_fields<D: Depot>(
    fields: &mut Fields,
    alloc: Global,
    depot: &mut D,
    chunk: &ChunkAt,
    role: Role,
    parts: u64,
) -> Result<u64, ReadFault>
    requires inside { Inside (chunk.now.body.at + chunk.now.body.len) (D.disk depot.old) }
    requires small { chunk.now.body.at + chunk.now.body.len < 2 ^ 63 }
    requires place { chunk.now.at + 8 ≤ chunk.now.body.at }
    requires whole { role ≡ Role.Whole → one_of whole_ids chunk.now.id.0 ≡ true }
    requires long { role ≡ Role.Bext → 602 ≤ chunk.now.body.len }
    requires few { parts < 65536 }
    ensures fields { (b : List ℕ) → Holds (D.disk depot.old) b → (wide : Bool)
        → role ≡ role_of (chunk_in b (form_kind wide) chunk.now)
        → ReadsFields (chunk_in b (form_kind wide) chunk.now) chunk.now.at parts fields.old fields.new result }
    ensures ranges { OnOk result (KeepsRanges role fields.old fields.new) }
    ensures keys { OnOk result (KeepsKeys fields.old fields.new) }
    ensures few { IfOk result (λ n. (0 < n) × (parts + n ≤ 65536)) }
    ensures reads { ReadsOnly (D.disk depot.old) (D.disk depot.new) }
    ensures cause { result ≡ Err ReadFault.Depot → Rose (D.disk depot.old).faults (D.disk depot.new).faults }
{
    match role {
        Role::Info => {
            if chunk.body.len < 4 {
                return Ok(1);
            }
            read_items(fields, alloc, depot, chunk, parts)
        }
        Role::Whole => match read_whole(fields, alloc, depot, chunk) {
            Err(fault) => Err(fault),
            Ok(()) => Ok(1),
        },
        Role::Bext => match read_bext(fields, alloc, depot, chunk) {
            Err(fault) => Err(fault),
            Ok(()) => Ok(1),
        },
        _ => Ok(1),
    }
}
