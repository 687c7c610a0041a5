// The places of an edit of an AVI file: where its first form stands, and what is to stand in it.
ghost use Rattle.std.specs.Prelude.{◌≡◌, ◌<◌, ℕ, List, IfOk, OnOk, length};
ghost use Rattle.std.specs.List.{flat_map};
ghost use Rattle.me_bytes.specs.Bytes.{IsBytes};
ghost use Rattle.me_disk.specs.Causes.{Rose};
ghost use Rattle.me_disk.specs.Holds.{Holds, Inside};
ghost use Rattle.me_disk.specs.Steps.{ReadsOnly};
ghost use Rattle.container_model.specs.Chunk.{Chunk};
ghost use Rattle.container_model.specs.Units.{live};
ghost use Rattle.unit_plan.specs.Places.{Follow as PlacesFollow};
ghost use Rattle.bext_fields.specs.Change.{raw_items_of};
ghost use Rattle.avi_file.specs.Map.{IsMapOf, IsSound};
ghost use Rattle.avi_model.specs.Edited.{info_edit};
ghost use Rattle.wave_model.specs.Fields.{bodies, is_info};
ghost use Rattle.edit_planner.specs.Cells.{AreReadable, Follow, told_row_by};
ghost use Rattle.edit_planner.specs.Lists.{SmallLists, TellsLarge, lengths};
ghost use Rattle.edit_planner.specs.Avi.{EditsLists, SoundForm, TellsForm, avi_cells, avi_held, lists_after};
ghost use Rattle.edit_planner.specs.AviPlaces.{PlacesLists};

use crate::cells::{CellAt, put_behind, set_pad};
use crate::head::{Head, head_of};
use crate::lists::{ListsFault, change_or_new};
use crate::load::{LoadFault, load_cells};
use crate::places::places_in;
use crate::tops::{form_size, tops_of};
use crate::wave::PlaceFault;
use avi_file::AviMap;
use avi_plan::FormAt;
use bext_fields::RawChange;
use me_disk::Depot;
use part_tree::Part;
use std::alloc::Global;
use unit_plan::Place;

/// The first form of an AVI file, its chunks, the byte behind the last one, and its list `hdrl`.
#[derive(Debug, Drop)]
pub struct AviForm {
    pub form: FormAt,
    pub chunks: Vec<Part>,
    pub end: u64,
    pub head: Head,
}

/// The first form of a file whose map this is. The depot is only read: the types of lists up to `hdrl`.
pub fn read_form<D: Depot>(alloc: Global, depot: &mut D, map: &AviMap) -> Result<AviForm, LoadFault>
    requires mapped { (b : List ℕ) → Holds (D.disk depot.old) b → IsMapOf b map.now }
    requires sound { IsSound map.now }
    ensures tells { (b : List ℕ) → Holds (D.disk depot.old) b → IfOk result (λ f. TellsForm b f) }
    ensures sound { IfOk result (λ f. SoundForm f) }
    ensures len { IfOk result (λ f. f.form.len ≡ map.now.len) }
    ensures reads { ReadsOnly (D.disk depot.old) (D.disk depot.new) }
    ensures cause { result ≡ Err LoadFault.Depot → Rose (D.disk depot.old).faults (D.disk depot.new).faults }
{
    let Some(size) = form_size(map) else {
        return Err(LoadFault::Memory);
    };
    let tops = match tops_of(alloc, &map.parts, 8 + size) {
        Err(_) => return Err(LoadFault::Memory),
        Ok(tops) => tops,
    };
    let end = tops.at;
    let form = FormAt {
        len: map.len,
        size,
        others: tops.others,
    };
    let head = match head_of(depot, &tops.parts, 12, end) {
        Err(_) => return Err(LoadFault::Depot),
        Ok(None) => return Err(LoadFault::Memory),
        Ok(Some(head)) => head,
    };
    Ok(AviForm {
        form,
        chunks: tops.parts,
        end,
        head,
    })
}

// Edits the lists of INFO items in a row of cells, of which that of a number is `hdrl`: a new list stands behind it. Whether `hdrl`
// lacks its pad is told anew.
fn edit_row(
    cells: &mut Vec<CellAt>,
    alloc: Global,
    head: usize,
    lacks_pad: bool,
    changes: &[RawChange],
) -> Result<(), ListsFault>
    requires readable { AreReadable cells.old.items }
    requires head { head < length cells.old.items }
    ensures told { OnOk result ((cs : List Chunk) → EditsLists cs head lacks_pad (info_edit (raw_items_of changes.now))
        cells.old.items cells.new.items) }
    ensures large { (cs : List Chunk) → SmallLists (flat_map live (avi_cells cs))
        → cells.old.items ≡ told_row_by avi_held 12 (avi_cells cs)
        → TellsLarge (lengths (bodies is_info (lists_after (info_edit (raw_items_of changes.now)) cs))) result }
    ensures follow { OnOk result ((from end : ℕ) → Follow from cells.old.items end
        → Follow from cells.new.items end) }
{
    let new = match change_or_new(cells, alloc, changes) {
        Err(fault) => return Err(fault),
        Ok(new) => new,
    };
    set_pad(cells, head, lacks_pad);
    let content = match new {
        None => return Ok(()),
        Some(content) => content,
    };
    match put_behind(cells, head, content) {
        Err(_) => Err(ListsFault::Memory),
        Ok(()) => Ok(()),
    }
}

/// The places of the chunks of a form, and what is to stand there after the changes of INFO fields; it is told whether `hdrl` lacks
/// its pad then. The depot is only read: the bodies of lists of INFO items. `TooLarge` where a list's body would pass 16 MiB, `Depot`
/// only where the count of the depot's faults rose.
pub fn avi_places<D: Depot>(
    alloc: Global,
    depot: &mut D,
    form: &AviForm,
    lacks_pad: bool,
    changes: &[RawChange],
) -> Result<Vec<Place>, PlaceFault>
    requires sound { SoundForm form.now }
    requires inside { Inside form.now.form.len (D.disk depot.old) }
    ensures places { (b : List ℕ) → Holds (D.disk depot.old) b → IsBytes b → TellsForm b form.now
        → PlacesLists b lacks_pad (info_edit (raw_items_of changes.now)) result }
    ensures follow { IfOk result (λ places. PlacesFollow 12 places.items form.now.end) }
    ensures reads { ReadsOnly (D.disk depot.old) (D.disk depot.new) }
    ensures cause { result ≡ Err PlaceFault.Depot → Rose (D.disk depot.old).faults (D.disk depot.new).faults }
{
    let loaded = match load_cells(alloc, depot, &form.chunks, 12, form.end) {
        Err(LoadFault::Depot) => return Err(PlaceFault::Depot),
        Err(LoadFault::Memory) => return Err(PlaceFault::Memory),
        Ok(loaded) => loaded,
    };
    let mut cells = loaded.cells;
    if form.head.number >= cells.len() || loaded.end != form.end {
        return Err(PlaceFault::Memory);
    }
    match edit_row(&mut cells, alloc, form.head.number, lacks_pad, changes) {
        Err(ListsFault::TooLarge { size }) => return Err(PlaceFault::TooLarge { size }),
        Err(ListsFault::Memory) => return Err(PlaceFault::Memory),
        Ok(()) => {}
    }
    match places_in(alloc, &cells) {
        Err(_) => Err(PlaceFault::Memory),
        Ok(places) => Ok(places),
    }
}
