// The tables of chunk places of the tracks of a movie.
ghost use Rattle.std.specs.Prelude.{◌≡◌, ◌<◌, ◌++◌, ◌^◌, ℕ, List, length, map, IfOk, OnOk};
ghost use Rattle.std.specs.List.{flat_map};
ghost use Rattle.me_bytes.specs.Bytes.{IsBytes};
ghost use Rattle.me_disk.specs.Causes.{Rose};
ghost use Rattle.me_disk.specs.Holds.{Holds, Inside};
ghost use Rattle.me_disk.specs.Steps.{HasCause, ReadsOnly};
ghost use Rattle.me_disk.specs.Windows.{IsWindow};
ghost use Rattle.container_model.specs.Items.{listed};
ghost use Rattle.mov_model.specs.Map.{tracks_of};
ghost use Rattle.mov_model.specs.Support.{Supported};
ghost use Rattle.mov_plan.specs.Planned.{AreTables};
ghost use Rattle.mov_plan.specs.Tables.{rows_of};
ghost use Rattle.mov_plan.specs.Tracks.{track_rows};

use crate::rows::read_narrow;
use crate::tables::TableAt;
use me_disk::{Depot, DepotFault, HeaderWindow};
use part_tree::{NoMemory, Track};
use std::alloc::Global;

/// Why the tables of a movie aren't told.
#[derive(Clone, Copy, Debug, PartialEq, Eq)]
pub enum TracksFault {
    /// The depot failed.
    Depot,
    /// There was no memory.
    Memory,
}

// The table of chunk places of a track in a file that ends at the byte `end`, or none.
fn table_of<D: Depot>(
    window: &mut HeaderWindow,
    depot: &mut D,
    track: &Track,
    end: u64,
) -> Result<Option<TableAt>, DepotFault>
    requires inside { Inside end (D.disk depot.old) }
    requires small { end < 2 ^ 63 }
    requires window { IsWindow (D.disk depot.old) window.old }
    ensures table { (b : List ℕ) → Holds (D.disk depot.old) b → length b ≡ end
        → IfOk result (λ t. map rows_of (listed t) ≡ track_rows b track.now) }
    ensures window { IsWindow (D.disk depot.new) window.new }
    ensures reads { ReadsOnly (D.disk depot.old) (D.disk depot.new) }
    ensures cause { HasCause (D.disk depot.old) (D.disk depot.new) result }
{
    if track.chunks.len < 8 {
        return Ok(None);
    }
    let Some(at) = track.chunks.at.checked_add(8) else {
        return Ok(None);
    };
    if at > end {
        return Ok(None);
    }
    let rows = read_narrow(window, depot, track.chunks.at + 4, end)?;
    Ok(Some(TableAt {
        at,
        wide: track.wide,
        rows,
    }))
}

// One table more, where there is one.
fn keep(tables: &mut Vec<TableAt>, table: Option<TableAt>) -> Result<(), NoMemory>
    ensures { OnOk result (tables.new.items ≡ tables.old.items ++ listed table) }
{
    match table {
        None => Ok(()),
        Some(table) => match tables.push(table) {
            Err(_) => Err(NoMemory),
            Ok(()) => Ok(()),
        },
    }
}

// The tables of tracks, by what these tell.
fn all_tables<D: Depot>(
    alloc: Global,
    depot: &mut D,
    tracks: &[Track],
    end: u64,
) -> Result<Vec<TableAt>, TracksFault>
    requires inside { Inside end (D.disk depot.old) }
    requires small { end < 2 ^ 63 }
    ensures tables { (b : List ℕ) → Holds (D.disk depot.old) b → length b ≡ end
        → IfOk result (λ ts. map rows_of ts.items ≡ flat_map (track_rows b) tracks.now) }
    ensures reads { ReadsOnly (D.disk depot.old) (D.disk depot.new) }
    ensures cause { result ≡ Err TracksFault.Depot → Rose (D.disk depot.old).faults (D.disk depot.new).faults }
{
    let mut window = HeaderWindow::new();
    let mut tables = Vec::new(alloc);
    'tracks: for track in tracks {
        let table = match table_of(&mut window, depot, track, end) {
            Err(_) => return Err(TracksFault::Depot),
            Ok(table) => table,
        };
        match keep(&mut tables, table) {
            Err(_) => return Err(TracksFault::Memory),
            Ok(()) => {}
        }
    }
    Ok(tables)
}

/// The tables of chunk places of the tracks of a movie, in file order. The file ends at the byte `end`.
pub fn tables_of<D: Depot>(
    alloc: Global,
    depot: &mut D,
    tracks: &[Track],
    end: u64,
) -> Result<Vec<TableAt>, TracksFault>
    requires inside { Inside end (D.disk depot.old) }
    requires small { end < 2 ^ 63 }
    ensures tables { (b : List ℕ) → Holds (D.disk depot.old) b → length b ≡ end → IsBytes b → Supported b
        → tracks.now ≡ tracks_of b
        → IfOk result (λ ts. AreTables b ts.items) }
    ensures reads { ReadsOnly (D.disk depot.old) (D.disk depot.new) }
    ensures cause { result ≡ Err TracksFault.Depot → Rose (D.disk depot.old).faults (D.disk depot.new).faults }
{
    all_tables(alloc, depot, tracks, end)
}
