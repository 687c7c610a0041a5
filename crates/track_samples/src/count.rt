// The chunks and samples of a track.
ghost use Rattle.std.specs.Prelude.{◌≡◌, ◌≤◌, ◌<◌, ◌+◌, ◌*◌, ◌^◌, ℕ, List, map, drop, IfOk, IfSome};
ghost use Rattle.me_disk.specs.Steps.{HasCause, ReadsOnly};
ghost use Rattle.me_disk.specs.Holds.{Holds};
ghost use Rattle.me_disk.specs.Windows.{IsWindow};
ghost use Rattle.container_model.specs.Rows.{numbers};
ghost use Rattle.part_tree.specs.Ranges.{Ascends};
ghost use Rattle.sample_tables.specs.Samples.{runs_in, samples_from};
ghost use Rattle.std.specs.List.{flat_map};
ghost use Rattle.track_samples.specs.Left.{runs_of, sizes_left, width_of};
ghost use Rattle.track_samples.specs.Places.{AllInside, Lies, RowsLie, SizesLie, TablesLie};
ghost use Rattle.track_samples.specs.Tables.{chunk_count, sample_count, tail_in, total};
ghost use Rattle.track_samples.specs.Told.{ArePlaces, AreRuns, HaveSizes};

use crate::heads::rows_in;
use crate::rooms::room_behind;
use crate::rows::{Rows, place_at, place_len, read_place};
use crate::runs::{Runs, are_in_order};
use crate::sizes::{SizeTable, Sizes, no_sizes, sizes_in};
use me_disk::{Depot, DepotFault, HeaderWindow};
use part_tree::{Span, Track};

const RUN_BYTES: u64 = 12;

/// How many chunks a track has, and how many of its samples lie in the `mdat` of their chunk.
#[derive(Clone, Copy, Debug, PartialEq, Eq)]
pub struct TrackCounts {
    pub chunks: u32,
    pub samples: u32,
}

// The rows of a track's places.
fn places_of<D: Depot>(
    window: &mut HeaderWindow,
    depot: &mut D,
    track: &Track,
) -> Result<Rows, DepotFault>
    requires lies { Lies (D.disk depot.old) track.now.chunks }
    requires window { IsWindow (D.disk depot.old) window.old }
    ensures places { (b : List ℕ) → Holds (D.disk depot.old) b
        → IfOk result (ArePlaces b track.now.wide track.now.chunks) }
    ensures lie { IfOk result (λ rows. RowsLie (width_of track.now.wide).bytes (D.disk depot.new) rows) }
    ensures window { IsWindow (D.disk depot.new) window.new }
    ensures reads { ReadsOnly (D.disk depot.old) (D.disk depot.new) }
    ensures cause { HasCause (D.disk depot.old) (D.disk depot.new) result }
{
    rows_in(window, depot, track.chunks, place_len(track.wide))
}

// The rows of a track's runs.
fn runs_at<D: Depot>(
    window: &mut HeaderWindow,
    depot: &mut D,
    body: Option<Span>,
) -> Result<Rows, DepotFault>
    requires lies { IfSome body (Lies (D.disk depot.old)) }
    requires window { IsWindow (D.disk depot.old) window.old }
    ensures runs { (b : List ℕ) → Holds (D.disk depot.old) b → IfOk result (AreRuns b body) }
    ensures lie { IfOk result (λ rows. RowsLie 12 (D.disk depot.new) rows) }
    ensures window { IsWindow (D.disk depot.new) window.new }
    ensures reads { ReadsOnly (D.disk depot.old) (D.disk depot.new) }
    ensures cause { HasCause (D.disk depot.old) (D.disk depot.new) result }
{
    match body {
        None => Ok(Rows {
            at: 0,
            count: 0,
            end: 0,
        }),
        Some(body) => rows_in(window, depot, body, RUN_BYTES),
    }
}

// The sizes of a track's samples.
fn sizes_at<D: Depot>(
    window: &mut HeaderWindow,
    depot: &mut D,
    body: Option<Span>,
) -> Result<SizeTable, DepotFault>
    requires lies { IfSome body (Lies (D.disk depot.old)) }
    requires window { IsWindow (D.disk depot.old) window.old }
    ensures sizes { (b : List ℕ) → Holds (D.disk depot.old) b → IfOk result (HaveSizes b body) }
    ensures lie { IfOk result (λ sizes. SizesLie (D.disk depot.new) sizes) }
    ensures window { IsWindow (D.disk depot.new) window.new }
    ensures reads { ReadsOnly (D.disk depot.old) (D.disk depot.new) }
    ensures cause { HasCause (D.disk depot.old) (D.disk depot.new) result }
{
    match body {
        None => Ok(no_sizes(0)),
        Some(body) => sizes_in(window, depot, body),
    }
}

// How many samples of the chunks at these places lie in the `mdat` of their chunk, by runs that ascend from chunk 1.
fn count_samples<D: Depot>(
    window: &mut HeaderWindow,
    depot: &mut D,
    mdats: &[Span],
    wide: bool,
    places: Rows,
    runs: &mut Runs,
    sizes: &mut Sizes,
) -> Result<u32, DepotFault>
    requires order { Ascends 0 mdats.now }
    requires inside { AllInside (D.disk depot.old) mdats.now }
    requires places { RowsLie (width_of wide).bytes (D.disk depot.old) places }
    requires runs { RowsLie 12 (D.disk depot.old) runs.old.rows }
    requires sizes { SizesLie (D.disk depot.old) sizes.old.table }
    requires no_run { runs.old.next ≡ 0 }
    requires no_samples { runs.old.samples ≡ 0 }
    requires no_size { sizes.old.next ≡ 0 }
    requires window { IsWindow (D.disk depot.old) window.old }
    requires runs_window { IsWindow (D.disk depot.old) runs.old.window }
    requires sizes_window { IsWindow (D.disk depot.old) sizes.old.window }
    ensures samples { (b : List ℕ) → Holds (D.disk depot.old) b → IfOk result (λ n. n
        ≡ total (samples_from (runs_of b runs.old.rows) 1 (sizes_left b sizes.old.table 0)
        (map (tail_in b mdats.now) (numbers (width_of wide) places.count (drop places.at b))))) }
    ensures reads { ReadsOnly (D.disk depot.old) (D.disk depot.new) }
    ensures cause { HasCause (D.disk depot.old) (D.disk depot.new) result }
{
    let mut counted: u32 = 0;
    'chunks: for chunk in 0..places.count {
        let at = place_at(places, wide, chunk);
        let place = read_place(window, depot, wide, at, places.end)?;
        runs.go_to(depot, chunk + 1)?;
        let room = room_behind(mdats, place);
        let fits = sizes.take_next(depot, runs.samples, room)?;
        counted += fits;
    }
    Ok(counted)
}

/// Counts the chunks of a track, and its samples that lie in the `mdat` of their chunk. The `mdat`s ascend. `DepotFault` only
/// where the count of the depot's faults rose.
pub fn count_track<D: Depot>(
    depot: &mut D,
    track: &Track,
    mdats: &[Span],
) -> Result<TrackCounts, DepotFault>
    requires order { Ascends 0 mdats.now }
    requires inside { AllInside (D.disk depot.old) mdats.now }
    requires tables { TablesLie (D.disk depot.old) track.now }
    ensures chunks { (b : List ℕ) → Holds (D.disk depot.old) b
        → IfOk result (λ counts. counts.chunks ≡ chunk_count b track.now) }
    ensures samples { (b : List ℕ) → Holds (D.disk depot.old) b
        → IfOk result (λ counts. counts.samples ≡ sample_count b mdats.now track.now) }
    ensures reads { ReadsOnly (D.disk depot.old) (D.disk depot.new) }
    ensures cause { HasCause (D.disk depot.old) (D.disk depot.new) result }
{
    let mut window = HeaderWindow::new();
    let places = places_of(&mut window, depot, track)?;
    let rows = runs_at(&mut window, depot, track.stsc)?;
    let table = sizes_at(&mut window, depot, track.stsz)?;
    let ordered = are_in_order(&mut window, depot, rows)?;
    let chunks = places.count;
    if !ordered {
        return Ok(TrackCounts { chunks, samples: 0 });
    }
    let mut runs = Runs::new(rows);
    let mut sizes = Sizes::new(table);
    let samples = count_samples(
        &mut window,
        depot,
        mdats,
        track.wide,
        places,
        &mut runs,
        &mut sizes,
    )?;
    Ok(TrackCounts { chunks, samples })
}
