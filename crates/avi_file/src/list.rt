// The chunks of a list or a form, one after the other.
ghost use Rattle.std.specs.Prelude.{◌≡◌, ◌+◌, ◌<◌, ◌≤◌, ◌^◌, ℕ, List, OnOk, false, length};
ghost use Rattle.me_disk.specs.Causes.{Rose};
ghost use Rattle.me_disk.specs.Holds.{Holds, Inside as IsInside};
ghost use Rattle.me_disk.specs.Steps.{ReadsOnly};
ghost use Rattle.container_model.specs.Chunk.{Chunk, ends, riff, spell};
ghost use Rattle.riff_form.specs.Walk.{InOrder, chunk_in, row};
ghost use Rattle.avi_file.specs.Walk.{KeepsPlaces, Reads, StandsAt, carries, chunk_told, end_told, is_essence, is_items, list_told, plain_told, role_of, run_told};

use crate::kind::{Inside, is_carrier, role_in};
use me_disk::Depot;
use part_tree::{FourCc, Part, ReadFault, Role, Span, Why};
use riff_form::{ChunkAt, StepFault, Walker};

const MOST_PARTS: u64 = 65_536;

const MOST_BYTES: u64 = 16_777_216;

/// What was read of a file so far: how many chunks were met, these as parts with the rests, and the bodies of the streams'
/// lists behind their types.
#[derive(Debug, Drop)]
pub struct Reading {
    pub met: u64,
    pub parts: Vec<Part>,
    pub streams: Vec<Span>,
}

/// Whether a part is a list of fields.
pub fn is_info(role: Role) -> bool
    ensures { result ≡ is_items role }
{
    match role {
        Role::Info => true,
        _ => false,
    }
}

/// Takes a chunk as a part with this role. `TooManyParts` where 65,536 chunks were met, and `CarrierBig` where it is a carrier,
/// a field or a list of fields, of more than 16 MiB.
pub fn put_part(
    reading: &mut Reading,
    chunk: &ChunkAt,
    role: Role,
    carrier: bool,
) -> Result<(), ReadFault>
    requires order { InOrder chunk.now.at chunk.now.next chunk.now }
    ensures took { (c : Chunk) → StandsAt c chunk.now
        → Reads (chunk_told carrier role chunk.now.at c) reading.old reading.new result }
    ensures placed { OnOk result
        (KeepsPlaces chunk.now.at chunk.now.next chunk.now.next reading.old.parts.items reading.new.parts.items) }
    ensures inside { is_essence role ≡ false
        → OnOk result
        (KeepsPlaces chunk.now.at chunk.now.at chunk.now.next reading.old.parts.items reading.new.parts.items) }
    ensures never { result ≡ Err ReadFault.Depot → ⊥ }
{
    if reading.met >= MOST_PARTS {
        return Err(ReadFault::Why(Why::TooManyParts));
    }
    if carrier && chunk.body.len > MOST_BYTES {
        return Err(ReadFault::Why(Why::CarrierBig {
            id: chunk.id,
            len: chunk.body.len,
        }));
    }
    reading.met += 1;
    let part = Part {
        id: chunk.id,
        at: chunk.at,
        body: chunk.body,
        next: chunk.next,
        role,
    };
    match reading.parts.push(part) {
        Err(_) => Err(ReadFault::Memory),
        Ok(()) => Ok(()),
    }
}

/// Takes the bytes from a place up to an end as a rest, if there are some.
pub fn put_rest(reading: &mut Reading, at: u64, end: u64) -> Result<(), ReadFault>
    requires order { at ≤ end }
    requires least { 8 ≤ at }
    ensures took { (left : List ℕ) → at + length left ≡ end
        → Reads (end_told at ends left) reading.old reading.new result }
    ensures placed { OnOk result (KeepsPlaces at end end reading.old.parts.items reading.new.parts.items) }
    ensures never { result ≡ Err ReadFault.Depot → ⊥ }
{
    if at == end {
        return Ok(());
    }
    let rest = Part {
        id: FourCc([0; 4]),
        at,
        body: Span { at, len: end - at },
        next: end,
        role: Role::Rest,
    };
    match reading.parts.push(rest) {
        Err(_) => Err(ReadFault::Memory),
        Ok(()) => Ok(()),
    }
}

/// Takes the body of a stream's list behind its type.
pub fn put_stream(reading: &mut Reading, stream: Span) -> Result<(), ReadFault>
    ensures took { Reads (list_told stream) reading.old reading.new result }
    ensures parts { reading.new.parts.items ≡ reading.old.parts.items }
    ensures never { result ≡ Err ReadFault.Depot → ⊥ }
{
    match reading.streams.push(stream) {
        Err(_) => Err(ReadFault::Memory),
        Ok(()) => Ok(()),
    }
}

// Reads a chunk.
fn take_chunk<D: Depot>(
    reading: &mut Reading,
    depot: &mut D,
    inside: Inside,
    chunk: &ChunkAt,
) -> Result<(), ReadFault>
    requires inside { IsInside chunk.now.next (D.disk depot.old) }
    requires small { chunk.now.next < 2 ^ 63 }
    requires order { InOrder chunk.now.at chunk.now.next chunk.now }
    ensures took { (b : List ℕ) → Holds (D.disk depot.old) b
        → chunk.now.at + length (spell (chunk_in b riff chunk.now)) ≡ chunk.now.next
        → Reads (chunk_told (carries inside (chunk_in b riff chunk.now)) (role_of inside (chunk_in b riff chunk.now))
        chunk.now.at (chunk_in b riff chunk.now)) reading.old reading.new result }
    ensures placed { OnOk result
        (KeepsPlaces chunk.now.at chunk.now.next chunk.now.next reading.old.parts.items reading.new.parts.items) }
    ensures reads { ReadsOnly (D.disk depot.old) (D.disk depot.new) }
    ensures cause { result ≡ Err ReadFault.Depot → Rose (D.disk depot.old).faults (D.disk depot.new).faults }
{
    let role = match role_in(depot, chunk, inside) {
        Err(_) => return Err(ReadFault::Depot),
        Ok(role) => role,
    };
    put_part(reading, chunk, role, is_carrier(chunk, inside))
}

/// Reads the chunks that stand from a place up to an end, of which none is opened: each is a part more, and so is their rest.
/// `TooManyParts` where more than 65,536 chunks were met, `CarrierBig` where a stream's name has more than 16 MiB, and
/// `Truncated` where a chunk ends past the end, whichever comes first.
pub fn read_chunks<D: Depot>(
    reading: &mut Reading,
    depot: &mut D,
    inside: Inside,
    start: u64,
    end: u64,
) -> Result<(), ReadFault>
    requires inside { IsInside end (D.disk depot.old) }
    requires small { end < 2 ^ 63 }
    requires order { start ≤ end }
    requires least { 8 ≤ start }
    ensures run { (b : List ℕ) → Holds (D.disk depot.old) b
        → Reads (run_told (plain_told inside) start (row b start end)) reading.old reading.new result }
    ensures placed { OnOk result (KeepsPlaces start end end reading.old.parts.items reading.new.parts.items) }
    ensures reads { ReadsOnly (D.disk depot.old) (D.disk depot.new) }
    ensures cause { result ≡ Err ReadFault.Depot → Rose (D.disk depot.old).faults (D.disk depot.new).faults }
{
    let mut walker = Walker::new(start, end);
    'chunks: loop {
        let chunk = match walker.step(depot) {
            Err(StepFault::Depot) => return Err(ReadFault::Depot),
            Err(StepFault::Truncated { at }) => {
                return Err(ReadFault::Why(Why::Truncated { at }));
            }
            Ok(None) => return put_rest(reading, walker.at, end),
            Ok(Some(chunk)) => chunk,
        };
        match take_chunk(reading, depot, inside, &chunk) {
            Err(fault) => return Err(fault),
            Ok(()) => {}
        }
    }
}
