// The tables of a file: its index chunks with their entries, and `idx1`.
ghost use Rattle.std.specs.Prelude.{◌≡◌, ◌+◌, ◌-◌, ◌<◌, ◌≤◌, ◌^◌, ℕ, List, IfOk, IfSome, length};
ghost use Rattle.std.specs.List.{AllByRecursion};
ghost use Rattle.me_disk.specs.Causes.{Rose};
ghost use Rattle.me_disk.specs.Holds.{Holds, Inside as IsInside};
ghost use Rattle.me_disk.specs.Steps.{ReadsOnly};
ghost use Rattle.part_tree.specs.Ranges.{Ascends};
ghost use Rattle.opendml_index.specs.Checks.{EndInside};
ghost use Rattle.avi_model.specs.Index.{indexes, spans};
ghost use Rattle.avi_model.specs.Map.{essence_spans};
ghost use Rattle.avi_model.specs.Support.{by_place as in_order};
ghost use Rattle.avi_file.specs.Entries.{AreWhole};
ghost use Rattle.avi_file.specs.Indexes.{AreSound};
ghost use Rattle.avi_file.specs.Map.{IsBody, OldEnds};
ghost use Rattle.avi_file.specs.Tables.{ArePlacedIndexes, CountsEntries, FindsIndexes, FindsOld, IsFront, PlacesIndexes, ReadsTables, counted_in as count_in, first_range as range_of, head_of};
ghost use Rattle.avi_file.specs.Walk.{ArePlaced, essence_of};

use crate::chosen::{movis_of, tables_of};
use crate::entries::{check_old, check_standards};
use crate::index::{IndexChunk, read_indexes};
use crate::map::OldIndex;
use crate::order::{bodies_of, by_place, standards_of, supers_of};
use me_disk::Depot;
use part_tree::{Part, ReadFault, Span};
use std::alloc::Global;

/// What was read of the tables: the bodies of the `movi` lists, `idx1`, the bodies of the super and of the standard indexes, and
/// how many entries are counted.
#[derive(Debug, Drop)]
pub struct Tables {
    pub movis: Vec<Span>,
    pub idx1: Option<OldIndex>,
    pub supers: Vec<Span>,
    pub standards: Vec<Span>,
    pub entries: u64,
}

/// The index chunks in their order and by place, and the bodies of those by place.
#[derive(Debug, Drop)]
pub struct Placed {
    pub chunks: Vec<IndexChunk>,
    pub sorted: Vec<IndexChunk>,
    pub bodies: Vec<Span>,
}

/// `idx1`, if there is one, and how many entries of all indexes are counted.
#[derive(Clone, Copy, Debug, PartialEq, Eq)]
pub struct Counted {
    pub idx1: Option<OldIndex>,
    pub entries: u64,
}

// The first of some ranges, if there is one.
fn head_range(ranges: &[Span]) -> Option<Span>
    ensures { result ≡ head_of ranges.now }
{
    if ranges.is_empty() {
        return None;
    }
    Some(ranges[0])
}

// The first of some ranges, and no bytes at 0 where there is none.
fn first_range(ranges: &[Span]) -> Span
    ensures { result ≡ range_of ranges.now }
{
    match head_range(ranges) {
        None => Span { at: 0, len: 0 },
        Some(range) => range,
    }
}

// The index chunks of the streams, and those that they name.
fn find_indexes<D: Depot>(
    alloc: Global,
    depot: &mut D,
    parts: &[Part],
    movis: &[Span],
    len: u64,
) -> Result<Vec<IndexChunk>, ReadFault>
    requires whole { (b : List ℕ) → Holds (D.disk depot.old) b → len ≡ length b }
    requires small { len < 2 ^ 63 }
    requires front { (b : List ℕ) → Holds (D.disk depot.old) b → IsFront b parts.now }
    requires placed { ArePlaced len len parts.now }
    requires movis { movis.now ≡ essence_of parts.now }
    ensures indexes { (b : List ℕ) → Holds (D.disk depot.old) b → FindsIndexes b result }
    ensures few { IfOk result (λ chunks. length chunks.items ≤ 65536) }
    ensures sound { IfOk result (λ chunks. AreSound chunks.items) }
    ensures reads { ReadsOnly (D.disk depot.old) (D.disk depot.new) }
    ensures cause { result ≡ Err ReadFault.Depot → Rose (D.disk depot.old).faults (D.disk depot.new).faults }
{
    let bodies = match tables_of(alloc, parts, b"indx") {
        Err(_) => return Err(ReadFault::Memory),
        Ok(bodies) => bodies,
    };
    read_indexes(alloc, depot, movis, &bodies)
}

// The index chunks by place, none of which overlaps the one before it.
fn place_indexes<D: Depot>(
    alloc: Global,
    depot: &mut D,
    parts: &[Part],
    movis: &[Span],
    len: u64,
) -> Result<Placed, ReadFault>
    requires whole { (b : List ℕ) → Holds (D.disk depot.old) b → len ≡ length b }
    requires small { len < 2 ^ 63 }
    requires front { (b : List ℕ) → Holds (D.disk depot.old) b → IsFront b parts.now }
    requires placed { ArePlaced len len parts.now }
    requires movis { movis.now ≡ essence_of parts.now }
    ensures indexes { (b : List ℕ) → Holds (D.disk depot.old) b → PlacesIndexes b result }
    ensures few { IfOk result (λ placed. length placed.sorted.items ≤ 65536) }
    ensures ascend { IfOk result (λ placed. Ascends 0 placed.bodies.items) }
    ensures sound { IfOk result (λ placed. AreSound placed.chunks.items × AreSound placed.sorted.items) }
    ensures reads { ReadsOnly (D.disk depot.old) (D.disk depot.new) }
    ensures cause { result ≡ Err ReadFault.Depot → Rose (D.disk depot.old).faults (D.disk depot.new).faults }
{
    let chunks = match find_indexes(alloc, depot, parts, movis, len) {
        Err(fault) => return Err(fault),
        Ok(chunks) => chunks,
    };
    let sorted = match by_place(alloc, &chunks) {
        Err(fault) => return Err(fault),
        Ok(sorted) => sorted,
    };
    match bodies_of(alloc, &sorted) {
        Err(_) => Err(ReadFault::Memory),
        Ok(bodies) => Ok(Placed {
            chunks,
            sorted,
            bodies,
        }),
    }
}

// `idx1` with its base and how many of its entries are counted, if there is one. `bodies` are those of the index chunks by place.
fn find_old<D: Depot>(
    alloc: Global,
    depot: &mut D,
    parts: &[Part],
    movis: &[Span],
    bodies: &[Span],
    len: u64,
) -> Result<Option<OldIndex>, ReadFault>
    requires whole { (b : List ℕ) → Holds (D.disk depot.old) b → len ≡ length b }
    requires small { len < 2 ^ 63 }
    requires front { (b : List ℕ) → Holds (D.disk depot.old) b → IsFront b parts.now }
    requires placed { ArePlaced len len parts.now }
    requires movis { movis.now ≡ essence_of parts.now }
    requires bodies { (b : List ℕ) → Holds (D.disk depot.old) b → bodies.now ≡ spans (in_order (indexes b)) }
    requires ascend { Ascends 0 bodies.now }
    ensures old { (b : List ℕ) → Holds (D.disk depot.old) b → FindsOld b result }
    ensures inside { IfOk result (λ old. OldEnds len old) }
    ensures few { IfOk result (λ old. IfSome old (λ idx1. idx1.counted < 2 ^ 63)) }
    ensures reads { ReadsOnly (D.disk depot.old) (D.disk depot.new) }
    ensures cause { result ≡ Err ReadFault.Depot → Rose (D.disk depot.old).faults (D.disk depot.new).faults }
{
    let tables = match tables_of(alloc, parts, b"idx1") {
        Err(_) => return Err(ReadFault::Memory),
        Ok(tables) => tables,
    };
    match head_range(&tables) {
        None => Ok(None),
        Some(idx) => match check_old(depot, idx, first_range(movis), bodies) {
            Err(fault) => Err(fault),
            Ok(old) => Ok(Some(old)),
        },
    }
}

// How many entries of `idx1` are counted, if there is one.
fn counted_in(idx1: &Option<OldIndex>) -> u64
    ensures { result ≡ count_in idx1.now }
{
    match idx1 {
        None => 0,
        Some(old) => old.counted,
    }
}

// How many entries of the index chunks and of `idx1` are counted.
fn count_entries<D: Depot>(
    alloc: Global,
    depot: &mut D,
    parts: &[Part],
    movis: &[Span],
    placed: &Placed,
    len: u64,
) -> Result<Counted, ReadFault>
    requires whole { (b : List ℕ) → Holds (D.disk depot.old) b → len ≡ length b }
    requires small { len < 2 ^ 63 }
    requires front { (b : List ℕ) → Holds (D.disk depot.old) b → IsFront b parts.now }
    requires parts_placed { ArePlaced len len parts.now }
    requires movis { movis.now ≡ essence_of parts.now }
    requires indexes { (b : List ℕ) → Holds (D.disk depot.old) b → ArePlacedIndexes b placed.now }
    requires ascend { Ascends 0 placed.now.bodies.items }
    requires few { length placed.now.sorted.items ≤ 65536 }
    requires sound { AreSound placed.now.sorted.items }
    ensures entries { (b : List ℕ) → Holds (D.disk depot.old) b → CountsEntries b result }
    ensures inside { IfOk result (λ counted. OldEnds len counted.idx1) }
    ensures reads { ReadsOnly (D.disk depot.old) (D.disk depot.new) }
    ensures cause { result ≡ Err ReadFault.Depot → Rose (D.disk depot.old).faults (D.disk depot.new).faults }
{
    let standards = match check_standards(depot, &placed.sorted, movis, &placed.bodies) {
        Err(fault) => return Err(fault),
        Ok(standards) => standards,
    };
    match find_old(alloc, depot, parts, movis, &placed.bodies, len) {
        Err(fault) => Err(fault),
        Ok(idx1) => Ok(Counted {
            idx1,
            entries: standards + counted_in(&idx1),
        }),
    }
}

/// Reads the tables of a file of this length, whose parts these are, or tells the first reason why it is refused there.
pub fn read_tables<D: Depot>(
    alloc: Global,
    depot: &mut D,
    parts: &[Part],
    len: u64,
) -> Result<Tables, ReadFault>
    requires whole { (b : List ℕ) → Holds (D.disk depot.old) b → len ≡ length b }
    requires small { len < 2 ^ 63 }
    requires front { (b : List ℕ) → Holds (D.disk depot.old) b → IsFront b parts.now }
    requires placed { ArePlaced len len parts.now }
    ensures tables { (b : List ℕ) → Holds (D.disk depot.old) b → ReadsTables b result }
    ensures movis { IfOk result (λ tables. tables.movis.items ≡ essence_of parts.now) }
    ensures inside { IfOk result (λ tables. OldEnds len tables.idx1) }
    ensures supers { IfOk result (λ tables. AllByRecursion IsBody tables.supers.items) }
    ensures standards { IfOk result (λ tables. AllByRecursion IsBody tables.standards.items) }
    ensures reads { ReadsOnly (D.disk depot.old) (D.disk depot.new) }
    ensures cause { result ≡ Err ReadFault.Depot → Rose (D.disk depot.old).faults (D.disk depot.new).faults }
{
    let movis = match movis_of(alloc, parts) {
        Err(_) => return Err(ReadFault::Memory),
        Ok(movis) => movis,
    };
    let placed = match place_indexes(alloc, depot, parts, &movis, len) {
        Err(fault) => return Err(fault),
        Ok(placed) => placed,
    };
    let counted = match count_entries(alloc, depot, parts, &movis, &placed, len) {
        Err(fault) => return Err(fault),
        Ok(counted) => counted,
    };
    let supers = match supers_of(alloc, &placed.chunks) {
        Err(_) => return Err(ReadFault::Memory),
        Ok(supers) => supers,
    };
    match standards_of(alloc, &placed.chunks) {
        Err(_) => Err(ReadFault::Memory),
        Ok(standards) => Ok(Tables {
            movis,
            idx1: counted.idx1,
            supers,
            standards,
            entries: counted.entries,
        }),
    }
}
