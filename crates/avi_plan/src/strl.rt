// The list of a stream with another name.
ghost use Rattle.std.specs.Prelude.{◌≡◌, ◌≤◌, ◌<◌, ◌+◌, ◌^◌, ◌++◌, ◌∷◌, ◌||◌, ◌==◌, ◌⊎◌, [], ℕ, List, IfOk, OnOk, codes, length, map, Bool, false, true};
ghost use Rattle.std.specs.Str.{bytes_eq};
ghost use Rattle.std.specs.List.{AllByRecursion};
ghost use Rattle.me_bytes.specs.Bytes.{IsBytes};
ghost use Rattle.me_disk.specs.Causes.{Rose};
ghost use Rattle.me_disk.specs.Holds.{Holds, Inside};
ghost use Rattle.me_disk.specs.Steps.{ReadsOnly};
ghost use Rattle.container_model.specs.Chunk.{Chunk, riff, spell_all};
ghost use Rattle.container_model.specs.Units.{lacks_pad as lacks};
ghost use Rattle.carrier_model.specs.Names.{name_cells};
ghost use Rattle.riff_form.specs.Walk.{InOrder, chunk_in};
ghost use Rattle.unit_plan.specs.Cuts.{FitsIn, IsExact, SpansAscend, outcome_in};
ghost use Rattle.unit_plan.specs.Places.{Follow, shape_in};
ghost use Rattle.unit_plan.specs.Rows.{cells_outcome};
ghost use Rattle.avi_names.specs.Names.{IsWhole, chunks_of};
ghost use Rattle.avi_model.specs.Named.{cell_of};
ghost use Rattle.avi_plan.specs.Strls.{IsSpelled, StandsThere, cells_from, name_cell, name_chunks, one, place_of, put_here, shapes};

use avi_names::{NamesFault, strl_names, strl_new_place};
use me_disk::Depot;
use part_tree::{Bytes, NoMemory, Span};
use riff_form::{ChunkAt, StepFault, Walker};
use std::alloc::Global;
use unit_plan::{Place, UnitCuts, What, unit_cuts};

/// The name that a stream is to have, as it is spelled, and how many chunks these are: one, or none.
#[derive(Debug, Drop)]
pub struct Spelled {
    pub bytes: Bytes,
    pub chunks: u64,
}

/// The chunks of a stream's list as places up to a byte, whether a name is among them, and how many chunks they are.
#[derive(Debug, Drop)]
pub struct StrlRow {
    pub places: Vec<Place>,
    pub named: bool,
    pub chunks: u64,
    pub at: u64,
}

/// What the units of a stream's list come to, and how many chunks the list has.
#[derive(Debug, Drop)]
pub struct StrlUnits {
    pub units: UnitCuts,
    pub was: u64,
}

// A name as a whole chunk: its body, and a pad of 0 where the length is odd. Without a body there is no chunk.
fn spelled_name(alloc: Global, body: &Option<Bytes>) -> Result<Spelled, NoMemory>
    ensures { IfOk result (λ s. IsSpelled (name_chunks body.now) s) }
{
    let Some(body) = body else {
        let bytes = Bytes::new(alloc, &[])?;
        return Ok(Spelled { bytes, chunks: 0 });
    };
    let mut out = Vec::from_slice(alloc, b"strn")?;
    let size = (body.as_slice().len() as u64).to_le_bytes();
    out.extend_from_slice(&[size[0], size[1], size[2], size[3]])?;
    out.extend_from_slice(body.as_slice())?;
    if body.as_slice().len() % 2 == 1 {
        out.extend_from_slice(&[0])?;
    }
    Ok(Spelled {
        bytes: Bytes::of(out),
        chunks: 1,
    })
}

// Whether a chunk's pad is missing.
fn lacks_pad(chunk: &ChunkAt) -> bool
    requires order { InOrder chunk.now.at chunk.now.next chunk.now }
    requires small { chunk.now.next < 2 ^ 63 }
    ensures { (b : List ℕ) → chunk.now.next ≤ length b → result ≡ lacks (chunk_in b riff chunk.now) }
{
    chunk.body.len % 2 == 1 && chunk.next == chunk.body.at + chunk.body.len
}

impl StrlRow {
    // One place more.
    fn put(&mut self, next: u64, lacks_pad: bool, parts: u64, what: What) -> Result<(), NoMemory>
        requires order { self.old.at ≤ next }
        ensures places { OnOk result (self.new.places.items ≡ self.old.places.items
            ++ record { at = self.old.at; next = next; lacks_pad = lacks_pad; parts = parts; what = what } ∷ []) }
        ensures at { OnOk result (self.new.at ≡ next) }
        ensures follow { OnOk result ((from : ℕ) → Follow from self.old.places.items self.old.at
            → Follow from self.new.places.items self.new.at) }
        ensures named { self.new.named ≡ self.old.named }
        ensures chunks { self.new.chunks ≡ self.old.chunks }
    {
        match self.places.push(Place {
            at: self.at,
            next,
            lacks_pad,
            parts,
            what,
        }) {
            Err(_) => return Err(NoMemory),
            Ok(()) => {}
        }
        self.at = next;
        Ok(())
    }

    // The new name stands here, if this is the place where it is to stand.
    fn put_new(&mut self, alloc: Global, new: &Spelled, place: Option<u64>) -> Result<(), NoMemory>
        ensures shapes { OnOk result ((b : List ℕ) (ns : List Chunk) → IsSpelled ns new.now
            → map (shape_in b) self.new.places.items
            ≡ map (shape_in b) self.old.places.items ++ shapes (put_here ns place self.old.at)) }
        ensures follow { OnOk result ((from : ℕ) → Follow from self.old.places.items self.old.at
            → Follow from self.new.places.items self.new.at) }
        ensures at { OnOk result (self.new.at ≡ self.old.at) }
        ensures named { self.new.named ≡ self.old.named }
        ensures chunks { self.new.chunks ≡ self.old.chunks }
    {
        let Some(place) = place else {
            return Ok(());
        };
        let at = self.at;
        if place != at {
            return Ok(());
        }
        let bytes = Bytes::new(alloc, new.bytes.as_slice())?;
        self.put(at, false, new.chunks, What::Changes(bytes))
    }

    // A name. The first one becomes the new one, and the others are taken away.
    fn put_name(&mut self, alloc: Global, new: &Spelled, chunk: &ChunkAt) -> Result<(), NoMemory>
        requires order { InOrder self.old.at chunk.now.next chunk.now }
        ensures shapes { OnOk result ((b : List ℕ) (ns : List Chunk) → IsSpelled ns new.now → StandsThere b chunk.now
            → bytes_eq chunk.now.id.0 (codes "strn") ≡ true → map (shape_in b) self.new.places.items
            ≡ map (shape_in b) self.old.places.items
            ++ shapes (name_cell ns self.old.named (chunk_in b riff chunk.now) ∷ [])) }
        ensures follow { OnOk result ((from : ℕ) → Follow from self.old.places.items self.old.at
            → Follow from self.new.places.items self.new.at) }
        ensures at { OnOk result (self.new.at ≡ chunk.now.next) }
        ensures named { OnOk result (self.new.named ≡ true) }
        ensures chunks { self.new.chunks ≡ self.old.chunks }
    {
        if self.named {
            let bytes = Bytes::new(alloc, &[])?;
            return self.put(chunk.next, false, 0, What::Changes(bytes));
        }
        self.named = true;
        let bytes = Bytes::new(alloc, new.bytes.as_slice())?;
        self.put(chunk.next, false, new.chunks, What::Changes(bytes))
    }

    // Another chunk: padding, or one that stays.
    fn put_other(&mut self, chunk: &ChunkAt) -> Result<(), NoMemory>
        requires order { InOrder self.old.at chunk.now.next chunk.now }
        requires small { chunk.now.next < 2 ^ 63 }
        ensures shapes { OnOk result ((b : List ℕ) (ns : List Chunk) → StandsThere b chunk.now
            → bytes_eq chunk.now.id.0 (codes "strn") ≡ false → map (shape_in b) self.new.places.items
            ≡ map (shape_in b) self.old.places.items
            ++ shapes (name_cell ns self.old.named (chunk_in b riff chunk.now) ∷ [])) }
        ensures follow { OnOk result ((from : ℕ) → Follow from self.old.places.items self.old.at
            → Follow from self.new.places.items self.new.at) }
        ensures at { OnOk result (self.new.at ≡ chunk.now.next) }
        ensures named { self.new.named ≡ self.old.named }
        ensures chunks { self.new.chunks ≡ self.old.chunks }
    {
        let lacks = lacks_pad(chunk);
        if chunk.id.is(b"JUNK") {
            return self.put(chunk.next, lacks, 1, What::Pads);
        }
        self.put(chunk.next, lacks, 1, What::Stays)
    }

    // One chunk more.
    fn put_chunk(&mut self, alloc: Global, new: &Spelled, chunk: &ChunkAt) -> Result<(), NoMemory>
        requires order { InOrder self.old.at chunk.now.next chunk.now }
        requires small { chunk.now.next < 2 ^ 63 }
        ensures shapes { OnOk result ((b : List ℕ) (ns : List Chunk) → IsSpelled ns new.now → StandsThere b chunk.now
            → map (shape_in b) self.new.places.items
            ≡ map (shape_in b) self.old.places.items
            ++ shapes (name_cell ns self.old.named (chunk_in b riff chunk.now) ∷ [])) }
        ensures follow { OnOk result ((from : ℕ) → Follow from self.old.places.items self.old.at
            → Follow from self.new.places.items self.new.at) }
        ensures at { OnOk result (self.new.at ≡ chunk.now.next) }
        ensures named { OnOk result (self.new.named ≡ (self.old.named || bytes_eq chunk.now.id.0 (codes "strn"))) }
        ensures chunks { OnOk result (self.new.chunks ≡ self.old.chunks + 1) }
    {
        let Some(count) = self.chunks.checked_add(1) else {
            return Err(NoMemory);
        };
        self.chunks = count;
        if chunk.id.is(b"strn") {
            return self.put_name(alloc, new, chunk);
        }
        self.put_other(chunk)
    }
}

// Where a new name stands in a stream's list. None where it has one, or none is set.
fn new_place<D: Depot>(
    alloc: Global,
    depot: &mut D,
    strl: Span,
    new: &Spelled,
) -> Result<Option<u64>, NamesFault>
    requires inside { Inside (strl.at + strl.len) (D.disk depot.old) }
    requires small { strl.at + strl.len < 2 ^ 63 }
    requires whole { IsWhole (D.disk depot.old) strl }
    ensures place { (b : List ℕ) (ns : List Chunk) → Holds (D.disk depot.old) b → IsSpelled ns new.now
        → IfOk result (λ p. p ≡ place_of ns strl.at (chunks_of b strl).chunks) }
    ensures reads { ReadsOnly (D.disk depot.old) (D.disk depot.new) }
    ensures cause { result ≡ Err NamesFault.Depot → Rose (D.disk depot.old).faults (D.disk depot.new).faults }
{
    if new.chunks == 0 {
        return Ok(None);
    }
    let names = match strl_names(alloc, depot, strl) {
        Err(fault) => return Err(fault),
        Ok(names) => names,
    };
    if !names.is_empty() {
        return Ok(None);
    }
    match strl_new_place(depot, strl) {
        Err(_) => Err(NamesFault::Depot),
        Ok(place) => Ok(Some(place)),
    }
}

// The places of a stream's list behind its type.
fn strl_row<D: Depot>(
    alloc: Global,
    depot: &mut D,
    strl: Span,
    new: &Spelled,
    place: Option<u64>,
) -> Result<StrlRow, NamesFault>
    requires inside { Inside (strl.at + strl.len) (D.disk depot.old) }
    requires small { strl.at + strl.len < 2 ^ 63 }
    requires whole { IsWhole (D.disk depot.old) strl }
    ensures shapes { (b : List ℕ) (ns : List Chunk) → Holds (D.disk depot.old) b → IsBytes b → IsSpelled ns new.now
        → IfOk result (λ r. map (shape_in b) r.places.items
        ≡ shapes (cells_from ns place false strl.at (chunks_of b strl).chunks)) }
    ensures count { (b : List ℕ) → Holds (D.disk depot.old) b
        → IfOk result (λ r. r.chunks ≡ length (chunks_of b strl).chunks) }
    ensures end { (b : List ℕ) → Holds (D.disk depot.old) b
        → IfOk result (λ r. r.at ≡ strl.at + length (spell_all (chunks_of b strl).chunks)) }
    ensures follow { IfOk result (λ r. Follow strl.at r.places.items r.at) }
    ensures inside { IfOk result (λ r. r.at ≤ strl.at + strl.len) }
    ensures reads { ReadsOnly (D.disk depot.old) (D.disk depot.new) }
    ensures cause { result ≡ Err NamesFault.Depot → Rose (D.disk depot.old).faults (D.disk depot.new).faults }
{
    let mut walker = Walker::new(strl.at, strl.at + strl.len);
    let mut row = StrlRow {
        places: Vec::new(alloc),
        named: false,
        chunks: 0,
        at: strl.at,
    };
    'chunks: loop {
        match row.put_new(alloc, new, place) {
            Err(_) => return Err(NamesFault::Memory),
            Ok(()) => {}
        }
        let chunk = match walker.step(depot) {
            Err(StepFault::Depot) => return Err(NamesFault::Depot),
            Err(StepFault::Truncated { .. }) => return Ok(row),
            Ok(None) => return Ok(row),
            Ok(Some(chunk)) => chunk,
        };
        match row.put_chunk(alloc, new, &chunk) {
            Err(_) => return Err(NamesFault::Memory),
            Ok(()) => {}
        }
    }
}

// What the units of such places come to, in a file of `len` bytes.
fn units_of(alloc: Global, strl: Span, row: StrlRow, len: u64) -> Result<StrlUnits, NoMemory>
    requires follow { Follow strl.at row.places.items row.at }
    requires inside { row.at ≤ strl.at + strl.len }
    requires whole { strl.at + strl.len ≤ len }
    requires small { len < 2 ^ 63 }
    ensures outcome { IfOk result (λ r. (b : List ℕ) (ns cs : List Chunk) → row.at ≤ length b
        → map (shape_in b) row.places.items ≡ shapes (name_cells ns (map cell_of cs))
        → outcome_in b r.units ≡ cells_outcome one (row.at == len) strl.at (name_cells ns (map cell_of cs))) }
    ensures was { IfOk result (λ r. r.was ≡ row.chunks) }
    ensures ascend { IfOk result (λ r. SpansAscend strl.at r.units.cuts.items (strl.at + strl.len)) }
    ensures fits { IfOk result (λ r. r.units.fits ≡ true → AllByRecursion IsExact r.units.cuts.items
        ⊎ ((strl.at + strl.len ≡ len) × FitsIn len r.units.cuts.items)) }
{
    let was = row.chunks;
    let units = unit_cuts(alloc, &row.places, strl.at, row.at, row.at == len)?;
    Ok(StrlUnits { units, was })
}

/// What the units of a stream's list come to that is to have this name, in a file of `len` bytes. `strl` is the list behind its
/// type, whose chunks end with it.
pub fn strl_units<D: Depot>(
    alloc: Global,
    depot: &mut D,
    strl: Span,
    name: &Option<Bytes>,
    len: u64,
) -> Result<StrlUnits, NamesFault>
    requires inside { Inside len (D.disk depot.old) }
    requires within { strl.at + strl.len ≤ len }
    requires small { len < 2 ^ 63 }
    requires whole { IsWhole (D.disk depot.old) strl }
    ensures outcome { (b : List ℕ) → Holds (D.disk depot.old) b → IsBytes b
        → IfOk result (λ r. outcome_in b r.units
        ≡ cells_outcome one ((strl.at + length (spell_all (chunks_of b strl).chunks)) == len) strl.at
        (name_cells (name_chunks name.now) (map cell_of (chunks_of b strl).chunks))) }
    ensures was { (b : List ℕ) → Holds (D.disk depot.old) b
        → IfOk result (λ r. r.was ≡ length (chunks_of b strl).chunks) }
    ensures ascend { IfOk result (λ r. SpansAscend strl.at r.units.cuts.items (strl.at + strl.len)) }
    ensures fits { IfOk result (λ r. r.units.fits ≡ true → AllByRecursion IsExact r.units.cuts.items
        ⊎ ((strl.at + strl.len ≡ len) × FitsIn len r.units.cuts.items)) }
    ensures reads { ReadsOnly (D.disk depot.old) (D.disk depot.new) }
    ensures cause { result ≡ Err NamesFault.Depot → Rose (D.disk depot.old).faults (D.disk depot.new).faults }
{
    let new = match spelled_name(alloc, name) {
        Err(_) => return Err(NamesFault::Memory),
        Ok(new) => new,
    };
    let place = match new_place(alloc, depot, strl, &new) {
        Err(fault) => return Err(fault),
        Ok(place) => place,
    };
    let row = match strl_row(alloc, depot, strl, &new, place) {
        Err(fault) => return Err(fault),
        Ok(row) => row,
    };
    match units_of(alloc, strl, row, len) {
        Err(_) => Err(NamesFault::Memory),
        Ok(units) => Ok(units),
    }
}
