// The places of an edit of a WAVE or RF64 file.
ghost use Rattle.std.specs.Prelude.{◌≡◌, ◌≤◌, ◌<◌, ◌^◌, ℕ, List, IfOk, length, drop, Bool};
ghost use Rattle.me_bytes.specs.Bytes.{IsBytes};
ghost use Rattle.me_disk.specs.Causes.{Rose};
ghost use Rattle.me_disk.specs.Steps.{ReadsOnly};
ghost use Rattle.me_disk.specs.Holds.{Holds, Inside};
ghost use Rattle.bext_fields.specs.Change.{raw_items_of};
ghost use Rattle.unit_plan.specs.Places.{Follow};
ghost use Rattle.wave_file.specs.Map.{IsMapOf, IsSound};
ghost use Rattle.edit_planner.specs.Cells.{AreFine};
ghost use Rattle.edit_planner.specs.Places.{PlacesEdit, begins_at, first_child, is_sizes as names_sizes};

use crate::edit::edit_cells;
use crate::lists::ListsFault;
use crate::load::{LoadFault, load_cells};
use crate::places::places_in;
use bext_fields::RawChange;
use me_disk::Depot;
use part_tree::{Part, Role};
use std::alloc::Global;
use unit_plan::Place;
use wave_file::WaveMap;

/// The places of the children of a form, from the byte `from` up to the byte `end`.
#[derive(Debug, Drop)]
pub struct PlaceRow {
    pub from: u64,
    pub end: u64,
    pub places: Vec<Place>,
}

/// Why an edit has no places.
#[derive(Clone, Copy, Debug, PartialEq, Eq)]
pub enum PlaceFault {
    /// The body of a list of INFO items would have this many bytes, which are more than 16 MiB.
    TooLarge { size: u64 },
    /// The depot failed.
    Depot,
    /// There was no memory, or the depot gave other bytes than those that the map was made of.
    Memory,
}

fn is_sizes(role: Role) -> bool
    ensures { result ≡ names_sizes role }
{
    match role {
        Role::Sizes => true,
        _ => false,
    }
}

// How many parts stand before the children of a form.
fn first_of(parts: &[Part]) -> usize
    ensures first { result ≡ first_child parts.now }
    ensures inside { result ≤ length parts.now }
{
    if parts.is_empty() {
        return 0;
    }
    if is_sizes(parts[0].role) { 1 } else { 0 }
}

// Where the children of a form begin.
fn begin_of(parts: &[Part]) -> u64
    ensures { result ≡ begins_at parts.now }
{
    if parts.is_empty() {
        return 12;
    }
    if is_sizes(parts[0].role) {
        parts[0].next
    } else {
        12
    }
}

/// The places of a file whose map is this, and what is to stand there after the changes. The depot is only read: the
/// bodies of `bext` and of lists of INFO items. `TooLarge` where a list's body would pass 16 MiB, `Depot` only where
/// the count of the depot's faults rose.
pub fn places_of<D: Depot>(
    alloc: Global,
    depot: &mut D,
    map: &WaveMap,
    changes: &[RawChange],
) -> Result<PlaceRow, PlaceFault>
    requires mapped { (b : List ℕ) → Holds (D.disk depot.old) b → IsMapOf b map.now }
    requires sound { IsSound map.now }
    requires fine { AreFine changes.now }
    ensures row { (b : List ℕ) → IsBytes b → Holds (D.disk depot.old) b
        → PlacesEdit b (raw_items_of changes.now) result }
    ensures follow { IfOk result (λ r. Follow r.from r.places.items r.end) }
    ensures inside { IfOk result (λ r. (12 ≤ r.from) × (r.from ≤ r.end) × (r.end ≤ map.now.form_end)) }
    ensures reads { ReadsOnly (D.disk depot.old) (D.disk depot.new) }
    ensures cause { result ≡ Err PlaceFault.Depot → Rose (D.disk depot.old).faults (D.disk depot.new).faults }
{
    let parts = map.parts.as_slice();
    let first = first_of(parts);
    let from = begin_of(parts);
    let loaded = match load_cells(alloc, depot, &parts[first..], from, map.form_end) {
        Err(LoadFault::Depot) => return Err(PlaceFault::Depot),
        Err(LoadFault::Memory) => return Err(PlaceFault::Memory),
        Ok(loaded) => loaded,
    };
    let end = loaded.end;
    let mut cells = loaded.cells;
    match edit_cells(&mut cells, alloc, from, changes) {
        Err(ListsFault::TooLarge { size }) => return Err(PlaceFault::TooLarge { size }),
        Err(ListsFault::Memory) => return Err(PlaceFault::Memory),
        Ok(()) => {}
    }
    match places_in(alloc, &cells) {
        Err(_) => Err(PlaceFault::Memory),
        Ok(places) => Ok(PlaceRow { from, end, places }),
    }
}
