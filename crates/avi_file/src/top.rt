// The first form.
ghost use Rattle.std.specs.Prelude.{◌≡◌, ◌+◌, ◌<◌, ◌≤◌, ◌^◌, ◌||◌, ◌&&◌, ℕ, List, Bool, OnOk, length, not, true, codes};
ghost use Rattle.me_disk.specs.Causes.{Rose};
ghost use Rattle.me_disk.specs.Holds.{Holds, Inside as IsInside};
ghost use Rattle.me_disk.specs.Steps.{ReadsOnly};
ghost use Rattle.container_model.specs.Chunk.{riff, spell};
ghost use Rattle.carrier_model.specs.Info.{is_type};
ghost use Rattle.riff_form.specs.Walk.{InOrder, chunk_in, row};
ghost use Rattle.avi_model.specs.Avi.{has_id};
ghost use Rattle.avi_file.specs.Walk.{IsKind, KeepsPlaces, Reads, has_hdrl, inside_told, is_hdrl_kind, is_info_kind, is_movi_kind, opened_top, role_of_kind, run_told, top_told};

use crate::hdrl::read_hdrl;
use crate::kind::{Inside, TopKind, is_hdrl, is_idx1, top_kind};
use crate::list::{Reading, is_info, put_part, put_rest, read_chunks};
use me_disk::Depot;
use part_tree::{ReadFault, Role, Why};
use riff_form::{ChunkAt, StepFault, Walker};

/// What was read of the first form so far, and whether a `hdrl` and an `idx1` were met.
#[derive(Debug, Drop)]
pub struct Top {
    pub reading: Reading,
    pub hdrl: bool,
    pub idx1: bool,
}

// What a chunk of a kind is to an edit, behind a first `idx1` or not.
fn role_by(kind: TopKind, indexed: bool) -> Role
    ensures { result ≡ role_of_kind kind indexed }
{
    match kind {
        TopKind::Padding => Role::Padding,
        TopKind::Info => Role::Info,
        TopKind::Movi => Role::Essence,
        TopKind::Idx1 => { if indexed { Role::Opaque } else { Role::Tables } }
        TopKind::Hdrl => Role::Opaque,
        TopKind::Other => Role::Opaque,
    }
}

// Reads what stands in a chunk of the first form: the first `hdrl` and each list of fields are opened.
fn open_top<D: Depot>(
    reading: &mut Reading,
    depot: &mut D,
    chunk: &ChunkAt,
    kind: TopKind,
    seen: bool,
) -> Result<(), ReadFault>
    requires inside { IsInside chunk.now.next (D.disk depot.old) }
    requires small { chunk.now.next < 2 ^ 63 }
    requires order { InOrder chunk.now.at chunk.now.next chunk.now }
    requires long { (is_info_kind kind || is_hdrl_kind kind) ≡ true → 4 ≤ chunk.now.body.len }
    ensures opened { (b : List ℕ) → Holds (D.disk depot.old) b
        → Reads
        (inside_told (not seen && is_hdrl_kind kind) (is_info_kind kind) chunk.now.at (chunk_in b riff chunk.now))
        reading.old reading.new result }
    ensures placed { OnOk result
        (KeepsPlaces chunk.now.at chunk.now.next chunk.now.next reading.old.parts.items reading.new.parts.items) }
    ensures same { is_movi_kind kind ≡ true → reading.new.parts.items ≡ reading.old.parts.items }
    ensures reads { ReadsOnly (D.disk depot.old) (D.disk depot.new) }
    ensures cause { result ≡ Err ReadFault.Depot → Rose (D.disk depot.old).faults (D.disk depot.new).faults }
{
    match kind {
        TopKind::Hdrl => {
            if seen {
                return Ok(());
            }
            read_hdrl(
                reading,
                depot,
                chunk.body.at + 4,
                chunk.body.at + chunk.body.len,
            )
        }
        TopKind::Info => read_chunks(
            reading,
            depot,
            Inside::Items,
            chunk.body.at + 4,
            chunk.body.at + chunk.body.len,
        ),
        _ => Ok(()),
    }
}

// Reads a chunk of the first form.
fn take_top<D: Depot>(top: &mut Top, depot: &mut D, chunk: &ChunkAt) -> Result<(), ReadFault>
    requires inside { IsInside chunk.now.next (D.disk depot.old) }
    requires small { chunk.now.next < 2 ^ 63 }
    requires order { InOrder chunk.now.at chunk.now.next chunk.now }
    ensures took { (b : List ℕ) → Holds (D.disk depot.old) b
        → chunk.now.at + length (spell (chunk_in b riff chunk.now)) ≡ chunk.now.next
        → Reads (opened_top top.old.hdrl top.old.idx1 chunk.now.at (chunk_in b riff chunk.now)) top.old.reading
        top.new.reading result }
    ensures hdrl { (b : List ℕ) → Holds (D.disk depot.old) b
        → OnOk result (top.new.hdrl ≡ (top.old.hdrl || is_type (codes "hdrl") (chunk_in b riff chunk.now))) }
    ensures idx1 { (b : List ℕ) → Holds (D.disk depot.old) b
        → OnOk result (top.new.idx1 ≡ (top.old.idx1 || has_id (codes "idx1") (chunk_in b riff chunk.now))) }
    ensures placed { OnOk result
        (KeepsPlaces chunk.now.at chunk.now.next chunk.now.next top.old.reading.parts.items
        top.new.reading.parts.items) }
    ensures reads { ReadsOnly (D.disk depot.old) (D.disk depot.new) }
    ensures cause { result ≡ Err ReadFault.Depot → Rose (D.disk depot.old).faults (D.disk depot.new).faults }
{
    let kind = match top_kind(depot, chunk) {
        Err(_) => return Err(ReadFault::Depot),
        Ok(kind) => kind,
    };
    let role = role_by(kind, top.idx1);
    match put_part(&mut top.reading, chunk, role, is_info(role)) {
        Err(fault) => return Err(fault),
        Ok(()) => {}
    }
    match open_top(&mut top.reading, depot, chunk, kind, top.hdrl) {
        Err(fault) => return Err(fault),
        Ok(()) => {}
    }
    top.hdrl |= is_hdrl(kind);
    top.idx1 |= is_idx1(kind);
    Ok(())
}

/// Reads the chunks of the first form, which stand from a place up to an end, and what stands in its first `hdrl` and in its
/// lists of fields.
pub fn read_top<D: Depot>(
    top: &mut Top,
    depot: &mut D,
    start: u64,
    end: u64,
) -> Result<(), ReadFault>
    requires inside { IsInside end (D.disk depot.old) }
    requires small { end < 2 ^ 63 }
    requires order { start ≤ end }
    requires least { 8 ≤ start }
    ensures run { (b : List ℕ) → Holds (D.disk depot.old) b
        → Reads (run_told (top_told top.old.hdrl top.old.idx1) start (row b start end)) top.old.reading top.new.reading
        result }
    ensures hdrl { (b : List ℕ) → Holds (D.disk depot.old) b
        → OnOk result (top.new.hdrl ≡ (top.old.hdrl || has_hdrl (row b start end).chunks)) }
    ensures placed { OnOk result (KeepsPlaces start end end top.old.reading.parts.items top.new.reading.parts.items) }
    ensures reads { ReadsOnly (D.disk depot.old) (D.disk depot.new) }
    ensures cause { result ≡ Err ReadFault.Depot → Rose (D.disk depot.old).faults (D.disk depot.new).faults }
{
    let mut walker = Walker::new(start, end);
    'chunks: loop {
        let chunk = match walker.step(depot) {
            Err(StepFault::Depot) => return Err(ReadFault::Depot),
            Err(StepFault::Truncated { at }) => {
                return Err(ReadFault::Why(Why::Truncated { at }));
            }
            Ok(None) => return put_rest(&mut top.reading, walker.at, end),
            Ok(Some(chunk)) => chunk,
        };
        match take_top(top, depot, &chunk) {
            Err(fault) => return Err(fault),
            Ok(()) => {}
        }
    }
}
