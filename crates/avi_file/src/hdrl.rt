// The list `hdrl` with the lists of the streams.
ghost use Rattle.std.specs.Prelude.{◌≡◌, ◌+◌, ◌<◌, ◌≤◌, ◌^◌, ℕ, List, OnOk, length, true};
ghost use Rattle.me_disk.specs.Causes.{Rose};
ghost use Rattle.me_disk.specs.Holds.{Holds, Inside as IsInside};
ghost use Rattle.me_disk.specs.Steps.{ReadsOnly};
ghost use Rattle.container_model.specs.Chunk.{riff, spell};
ghost use Rattle.carrier_model.specs.Info.{is_type};
ghost use Rattle.riff_form.specs.Walk.{InOrder, chunk_in, row};
ghost use Rattle.avi_file.specs.Walk.{KeepsPlaces, Reads, opened_strl, run_told, stream_told, strl_told};

use crate::kind::{Inside, is_list};
use crate::list::{Reading, put_part, put_rest, put_stream, read_chunks};
use me_disk::Depot;
use part_tree::{ReadFault, Role, Span, Why};
use riff_form::{ChunkAt, StepFault, Walker};

// Opens the list of a stream.
fn open_stream<D: Depot>(
    reading: &mut Reading,
    depot: &mut D,
    chunk: &ChunkAt,
) -> Result<(), ReadFault>
    requires inside { IsInside chunk.now.next (D.disk depot.old) }
    requires small { chunk.now.next < 2 ^ 63 }
    requires order { InOrder chunk.now.at chunk.now.next chunk.now }
    requires long { 4 ≤ chunk.now.body.len }
    ensures opened { (b : List ℕ) → Holds (D.disk depot.old) b
        → Reads (strl_told true chunk.now.at (chunk_in b riff chunk.now)) reading.old reading.new result }
    ensures placed { OnOk result
        (KeepsPlaces chunk.now.at chunk.now.next chunk.now.next reading.old.parts.items reading.new.parts.items) }
    ensures reads { ReadsOnly (D.disk depot.old) (D.disk depot.new) }
    ensures cause { result ≡ Err ReadFault.Depot → Rose (D.disk depot.old).faults (D.disk depot.new).faults }
{
    let start = chunk.body.at + 4;
    let end = chunk.body.at + chunk.body.len;
    match put_stream(
        reading,
        Span {
            at: start,
            len: chunk.body.len - 4,
        },
    ) {
        Err(fault) => return Err(fault),
        Ok(()) => {}
    }
    read_chunks(reading, depot, Inside::Stream, start, end)
}

// Reads a chunk of `hdrl`. A `strl` is opened, and is a stream more.
fn take_stream<D: Depot>(
    reading: &mut Reading,
    depot: &mut D,
    chunk: &ChunkAt,
) -> Result<(), ReadFault>
    requires inside { IsInside chunk.now.next (D.disk depot.old) }
    requires small { chunk.now.next < 2 ^ 63 }
    requires order { InOrder chunk.now.at chunk.now.next chunk.now }
    ensures took { (b : List ℕ) → Holds (D.disk depot.old) b
        → chunk.now.at + length (spell (chunk_in b riff chunk.now)) ≡ chunk.now.next
        → Reads (opened_strl chunk.now.at (chunk_in b riff chunk.now)) reading.old reading.new result }
    ensures placed { OnOk result
        (KeepsPlaces chunk.now.at chunk.now.next chunk.now.next reading.old.parts.items reading.new.parts.items) }
    ensures reads { ReadsOnly (D.disk depot.old) (D.disk depot.new) }
    ensures cause { result ≡ Err ReadFault.Depot → Rose (D.disk depot.old).faults (D.disk depot.new).faults }
{
    match put_part(reading, chunk, Role::Opaque, false) {
        Err(fault) => return Err(fault),
        Ok(()) => {}
    }
    match is_list(depot, chunk, b"strl") {
        Err(_) => Err(ReadFault::Depot),
        Ok(false) => Ok(()),
        Ok(true) => open_stream(reading, depot, chunk),
    }
}

/// Reads the chunks of `hdrl`, which stand from a place up to an end, and what stands in the streams' lists.
pub fn read_hdrl<D: Depot>(
    reading: &mut Reading,
    depot: &mut D,
    start: u64,
    end: u64,
) -> Result<(), ReadFault>
    requires inside { IsInside end (D.disk depot.old) }
    requires small { end < 2 ^ 63 }
    requires order { start ≤ end }
    requires least { 8 ≤ start }
    ensures run { (b : List ℕ) → Holds (D.disk depot.old) b
        → Reads (run_told stream_told start (row b start end)) reading.old reading.new result }
    ensures placed { OnOk result (KeepsPlaces start end end reading.old.parts.items reading.new.parts.items) }
    ensures reads { ReadsOnly (D.disk depot.old) (D.disk depot.new) }
    ensures cause { result ≡ Err ReadFault.Depot → Rose (D.disk depot.old).faults (D.disk depot.new).faults }
{
    let mut walker = Walker::new(start, end);
    'chunks: loop {
        let chunk = match walker.step(depot) {
            Err(StepFault::Depot) => return Err(ReadFault::Depot),
            Err(StepFault::Truncated { at }) => {
                return Err(ReadFault::Why(Why::Truncated { at }));
            }
            Ok(None) => return put_rest(reading, walker.at, end),
            Ok(Some(chunk)) => chunk,
        };
        match take_stream(reading, depot, &chunk) {
            Err(fault) => return Err(fault),
            Ok(()) => {}
        }
    }
}
