// One chunk of the form: its tests, its fields and its part.
ghost use Rattle.std.specs.Prelude.{◌≡◌, ◌≤◌, ◌<◌, ◌+◌, ◌^◌, ℕ, List, IsTrue, IfOk, OnOk, length, codes, Bool, None, true};
ghost use Rattle.std.specs.Str.{bytes_eq};
ghost use Rattle.me_disk.specs.Causes.{Rose};
ghost use Rattle.me_disk.specs.Steps.{HasCause, ReadsOnly};
ghost use Rattle.me_disk.specs.Holds.{Holds, Inside};
ghost use Rattle.container_model.specs.Chunk.{spell};
ghost use Rattle.container_model.specs.Written.{slice};
ghost use Rattle.carrier_model.specs.Info.{one_of};
ghost use Rattle.part_tree.specs.Names.{whole_ids};
ghost use Rattle.riff_form.specs.Walk.{InOrder, chunk_in};
ghost use Rattle.wave_model.specs.Wave.{form_kind};
ghost use Rattle.wave_model.specs.Edited.{block_size};
ghost use Rattle.container_model.specs.Tests.{first};
ghost use Rattle.wave_file.specs.Map.{at_front, role_of};
ghost use Rattle.wave_file.specs.Tests.{early_tests};
ghost use Rattle.wave_file.specs.Reads.{Ends, IsPartial, ReadsSound, Takes, carries, is_ranges, role_from, seen_of};

use crate::fields::read_fields;
use crate::sizing::Found;
use me_disk::{Depot, DepotFault, Slot};
use part_tree::{FieldName, Fields, FourCc, Part, ReadFault, Role, Span, Why};
use riff_form::ChunkAt;
use std::alloc::Global;

const MOST_PARTS: u64 = 65_536;

const MOST_BYTES: u64 = 16_777_216;

/// What was read of a form so far: how many parts, these parts, their fields, the bytes of a block, the body of `data`, and
/// whether `bext` was there.
#[derive(Debug, Drop)]
pub struct Reading {
    pub count: u64,
    pub parts: Vec<Part>,
    pub fields: Fields,
    pub align: Option<u16>,
    pub sound: Option<Span>,
    pub has_bext: bool,
}

/// The bytes of a block and the body of `data`, as far as they were read.
#[derive(Clone, Copy, Debug, PartialEq, Eq)]
pub struct Essence {
    pub align: Option<u16>,
    pub sound: Option<Span>,
}

// The first of these tests that holds.
fn first_of(tests: &[(bool, Why)]) -> Option<Why>
    ensures { result ≡ first tests.now }
{
    for (holds, why) in tests {
        if *holds {
            return Some(*why);
        }
    }
    None
}

// What a chunk is refused for by its header.
fn early_why(reading: &Reading, id: FourCc, len: u64, role: Role) -> Option<Why>
    requires few { reading.now.count ≤ 65536 }
    ensures { result ≡ first (early_tests (seen_of reading.now) id.0 len (carries role) (is_ranges role)) }
{
    let carrier = is_carrier(role);
    let bext = is_bext(role);
    let format = id.is(b"fmt ");
    first_of(&[
        (reading.count + 1 > MOST_PARTS, Why::TooManyParts),
        (carrier & (len > MOST_BYTES), Why::CarrierBig { id, len }),
        (bext & reading.has_bext, Why::TwoBext),
        (bext & (len < 602), Why::ShortBext { len }),
        (format & reading.align.is_some(), Why::TwoFmt),
        (format & (len < 16), Why::ShortFmt { len }),
    ])
}

fn is_carrier(role: Role) -> bool
    ensures { result ≡ carries role }
{
    match role {
        Role::Info | Role::Whole | Role::Bext => true,
        _ => false,
    }
}

fn is_bext(role: Role) -> bool
    ensures { result ≡ is_ranges role }
{
    match role {
        Role::Bext => true,
        _ => false,
    }
}

// What a chunk is to an edit.
fn role_in<D: Depot>(depot: &mut D, chunk: &ChunkAt, wide: bool) -> Result<Role, DepotFault>
    requires inside { Inside (chunk.now.body.at + chunk.now.body.len) (D.disk depot.old) }
    requires small { chunk.now.body.at + chunk.now.body.len < 2 ^ 63 }
    ensures role { (b : List ℕ) → Holds (D.disk depot.old) b
        → IfOk result (λ r. r ≡ role_of (chunk_in b (form_kind wide) chunk.now)) }
    ensures whole { IfOk result (λ r. r ≡ Role.Whole → one_of whole_ids chunk.now.id.0 ≡ true) }
    ensures reads { ReadsOnly (D.disk depot.old) (D.disk depot.new) }
    ensures cause { HasCause (D.disk depot.old) (D.disk depot.new) result }
{
    if !chunk.id.is(b"LIST") {
        return Ok(role_by(!wide, chunk.id, &[0; 4]));
    }
    if chunk.body.len < 4 {
        return Ok(role_by(!wide, chunk.id, &[0; 4]));
    }
    let mut word = [0u8; 4];
    depot.read_at(Slot::Main, chunk.body.at, &mut word)?;
    Ok(role_by(!wide, chunk.id, &word))
}

// The same by the chunk's identifier and its first four bytes, and whether its size stands in its header.
fn role_by(own: bool, id: FourCc, word: &[u8; 4]) -> Role
    ensures role { result ≡ role_from own id.0 word.now }
    ensures whole { result ≡ Role.Whole → one_of whole_ids id.0 ≡ true }
{
    if own && id.is(b"LIST") && word == b"INFO" {
        Role::Info
    } else if own && FieldName::Whole(id).is_field() {
        Role::Whole
    } else if own && id.is(b"bext") {
        Role::Bext
    } else if id.is(b"data") {
        Role::Essence
    } else if own && id.is(b"JUNK") {
        Role::Padding
    } else {
        Role::Opaque
    }
}

// How many bytes a block has.
fn read_align<D: Depot>(depot: &mut D, body: Span) -> Result<u16, DepotFault>
    requires inside { Inside (body.at + body.len) (D.disk depot.old) }
    requires small { body.at + body.len < 2 ^ 63 }
    requires long { 16 ≤ body.len }
    ensures align { (b : List ℕ) → Holds (D.disk depot.old) b
        → IfOk result (λ n. n ≡ block_size (slice b body.at body.len)) }
    ensures reads { ReadsOnly (D.disk depot.old) (D.disk depot.new) }
    ensures cause { HasCause (D.disk depot.old) (D.disk depot.new) result }
{
    let mut word = [0u8; 2];
    depot.read_at(Slot::Main, body.at + 12, &mut word)?;
    Ok(u16::from_le_bytes(word))
}

// The block size and the sound, with those of a chunk.
fn read_essence<D: Depot>(
    depot: &mut D,
    reading: &Reading,
    chunk: &ChunkAt,
) -> Result<Essence, ReadFault>
    requires inside { Inside (chunk.now.body.at + chunk.now.body.len) (D.disk depot.old) }
    requires small { chunk.now.body.at + chunk.now.body.len < 2 ^ 63 }
    requires place { chunk.now.body.at ≡ chunk.now.at + 8 }
    requires one { IsTrue (bytes_eq (codes "fmt ") chunk.now.id.0) → reading.now.align ≡ None }
    requires long { IsTrue (bytes_eq (codes "fmt ") chunk.now.id.0) → 16 ≤ chunk.now.body.len }
    ensures essence { (b : List ℕ) → Holds (D.disk depot.old) b → (wide : Bool)
        → ReadsSound (chunk_in b (form_kind wide) chunk.now) chunk.now.at reading.now result }
    ensures ends { IfOk result (λ e. Ends chunk.now.at reading.now.sound
        → Ends (chunk.now.body.at + chunk.now.body.len) e.sound) }
    ensures reads { ReadsOnly (D.disk depot.old) (D.disk depot.new) }
    ensures cause { result ≡ Err ReadFault.Depot → Rose (D.disk depot.old).faults (D.disk depot.new).faults }
{
    if chunk.id.is(b"fmt ") {
        let align = match read_align(depot, chunk.body) {
            Err(_) => return Err(ReadFault::Depot),
            Ok(align) => align,
        };
        if align == 0 {
            return Err(ReadFault::Why(Why::BlockZero));
        }
        return Ok(Essence {
            align: Some(align),
            sound: reading.sound,
        });
    }
    if chunk.id.is(b"data") {
        if reading.sound.is_some() {
            return Err(ReadFault::Why(Why::TwoData));
        }
        return Ok(Essence {
            align: reading.align,
            sound: Some(chunk.body),
        });
    }
    Ok(Essence {
        align: reading.align,
        sound: reading.sound,
    })
}

fn role_at(at: u64, role: Role) -> Role
    ensures { result ≡ at_front at role }
{
    match role {
        Role::Padding => {
            if at == 12 {
                Role::Opaque
            } else {
                Role::Padding
            }
        }
        _ => role,
    }
}

// Reads a chunk.
pub fn take_chunk<D: Depot>(
    reading: &mut Reading,
    alloc: Global,
    depot: &mut D,
    found: &Found,
) -> Result<(), ReadFault>
    requires inside { Inside found.now.chunk.next (D.disk depot.old) }
    requires small { found.now.chunk.next < 2 ^ 63 }
    requires order { InOrder found.now.chunk.at found.now.chunk.next found.now.chunk }
    requires partial { IsPartial reading.old found.now.chunk.at }
    ensures took { (b : List ℕ) → Holds (D.disk depot.old) b
        → found.now.chunk.at + length (spell (chunk_in b (form_kind found.now.wide) found.now.chunk))
        ≡ found.now.chunk.next → Takes (chunk_in b (form_kind found.now.wide) found.now.chunk) found.now.chunk.at
        reading.old reading.new result }
    ensures partial { OnOk result (IsPartial reading.new found.now.chunk.next) }
    ensures more { OnOk result (reading.old.count < reading.new.count) }
    ensures reads { ReadsOnly (D.disk depot.old) (D.disk depot.new) }
    ensures cause { result ≡ Err ReadFault.Depot → Rose (D.disk depot.old).faults (D.disk depot.new).faults }
{
    let chunk = &found.chunk;
    let role = match role_in(depot, chunk, found.wide) {
        Err(_) => return Err(ReadFault::Depot),
        Ok(role) => role,
    };
    match early_why(reading, chunk.id, chunk.body.len, role) {
        Some(why) => return Err(ReadFault::Why(why)),
        None => {}
    }
    let essence = match read_essence(depot, reading, chunk) {
        Err(fault) => return Err(fault),
        Ok(essence) => essence,
    };
    let parts = match read_fields(
        &mut reading.fields,
        alloc,
        depot,
        chunk,
        role,
        reading.count,
    ) {
        Err(fault) => return Err(fault),
        Ok(parts) => parts,
    };
    reading.count += parts;
    reading.align = essence.align;
    reading.sound = essence.sound;
    reading.has_bext = reading.has_bext | is_bext(role);
    let part = Part {
        id: chunk.id,
        at: chunk.at,
        body: chunk.body,
        next: chunk.next,
        role: role_at(chunk.at, role),
    };
    match reading.parts.push(part) {
        Err(_) => Err(ReadFault::Memory),
        Ok(()) => Ok(()),
    }
}
