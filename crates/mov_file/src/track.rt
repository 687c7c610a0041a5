// The tables of the tracks that are met.
ghost use Rattle.std.specs.Prelude.{◌≡◌, ◌++◌, ◌∷◌, [], List, map, codes, IfOk, OnOk, if◌then◌else◌};
ghost use Rattle.std.specs.Str.{bytes_eq};
ghost use Rattle.container_model.specs.Tests.{or_else};
ghost use Rattle.mov_file.specs.Holder.{place_of};
ghost use Rattle.mov_file.specs.Track.{in_last, is_wide, no_tables, places_at, span_where, tables_by, track_from, with_table};

use crate::holder::Holder;
use part_tree::{FourCc, NoMemory, Span, Track};
use qt_atoms::AtomAt;
use std::alloc::Global;

/// The bodies of the tables of a track that were met, of each type the first: of chunk places in four and in eight bytes, of
/// runs of chunks, and of the sizes of samples.
#[derive(Clone, Copy, Debug, PartialEq, Eq)]
pub struct TablesAt {
    pub narrow: Option<Span>,
    pub wide: Option<Span>,
    pub runs: Option<Span>,
    pub sizes: Option<Span>,
}

// The body that was met first.
fn first_or(met: Option<Span>, is: bool, body: Span) -> Option<Span>
    ensures { result ≡ or_else met (span_where is body) }
{
    match met {
        Some(span) => Some(span),
        None => { if is { Some(body) } else { None } }
    }
}

// The tables with an atom of this type, where it is the first of it.
fn with(tables: TablesAt, kind: FourCc, body: Span) -> TablesAt
    ensures { result ≡ with_table kind.0 body tables }
{
    TablesAt {
        narrow: first_or(tables.narrow, kind.is(b"stco"), body),
        wide: first_or(tables.wide, kind.is(b"co64"), body),
        runs: first_or(tables.runs, kind.is(b"stsc"), body),
        sizes: first_or(tables.sizes, kind.is(b"stsz"), body),
    }
}

// Takes a table of the last track.
fn keep_table(tracks: &mut Vec<TablesAt>, kind: FourCc, body: Span)
    ensures { tracks.new.items ≡ in_last (with_table kind.0 body) tracks.old.items }
{
    let count = tracks.len();
    if count == 0 {
        return;
    }
    tracks[count - 1] = with(tracks[count - 1], kind, body);
}

// Takes a new track.
fn keep_track(tracks: &mut Vec<TablesAt>, is: bool) -> Result<(), NoMemory>
    ensures { OnOk result (tracks.new.items ≡ (if is then tracks.old.items ++ no_tables ∷ [] else tracks.old.items)) }
{
    if !is {
        return Ok(());
    }
    let tables = TablesAt {
        narrow: None,
        wide: None,
        runs: None,
        sizes: None,
    };
    match tracks.push(tables) {
        Err(_) => Err(NoMemory),
        Ok(()) => Ok(()),
    }
}

// Takes a track, or a table of one.
pub fn keep_tables(
    tracks: &mut Vec<TablesAt>,
    holder: Holder,
    atom: &AtomAt,
) -> Result<(), NoMemory>
    ensures { OnOk result (tracks.new.items
        ≡ tables_by (place_of holder) atom.now.kind.0 atom.now.body tracks.old.items) }
{
    match holder {
        Holder::Moov => keep_track(tracks, atom.kind.is(b"trak")),
        Holder::Stbl => {
            keep_table(tracks, atom.kind, atom.body);
            Ok(())
        }
        _ => Ok(()),
    }
}

// The table of chunk places, which is one of no bytes where there is none.
fn places_of(narrow: Option<Span>, wide: Option<Span>) -> Span
    ensures { result ≡ places_at narrow wide }
{
    match narrow {
        Some(span) => span,
        None => match wide {
            Some(span) => span,
            None => Span { at: 0, len: 0 },
        },
    }
}

// Whether places have eight bytes.
fn has_wide(narrow: Option<Span>, wide: Option<Span>) -> bool
    ensures { result ≡ is_wide narrow wide }
{
    match narrow {
        Some(_) => false,
        None => match wide {
            Some(_) => true,
            None => false,
        },
    }
}

// A track by its tables.
fn track_by(tables: &TablesAt) -> Track
    ensures { result ≡ track_from tables.now }
{
    Track {
        chunks: places_of(tables.narrow, tables.wide),
        wide: has_wide(tables.narrow, tables.wide),
        stsc: tables.runs,
        stsz: tables.sizes,
    }
}

// The tracks by their tables.
pub fn tracks_by(alloc: Global, tables: &[TablesAt]) -> Result<Vec<Track>, NoMemory>
    ensures { IfOk result (λ tracks. tracks.items ≡ map track_from tables.now) }
{
    let mut tracks = Vec::new(alloc);
    'tracks: for track in tables {
        match tracks.push(track_by(track)) {
            Err(_) => return Err(NoMemory),
            Ok(()) => {}
        }
    }
    Ok(tracks)
}
