// Why a table of a track is refused.
ghost use Rattle.std.specs.Prelude.{◌≡◌, ◌≤◌, ◌<◌, ◌+◌, ◌*◌, ◌^◌, ℕ, List, [], Bool, false, length, take, drop, nat_lt, codes, map, IfOk, if◌then◌else◌};
ghost use Rattle.std.specs.Int.{w32, from_be_bytes};
ghost use Rattle.std.specs.Str.{bytes_eq};
ghost use Rattle.me_disk.specs.Steps.{HasCause, ReadsOnly};
ghost use Rattle.me_disk.specs.Holds.{Holds, Inside};
ghost use Rattle.container_model.specs.Written.{slice};
ghost use Rattle.container_model.specs.Walk.{Step};
ghost use Rattle.mov_model.specs.Atoms.{Place};
ghost use Rattle.container_model.specs.Atoms.{atom, is_listed};
ghost use Rattle.mov_model.specs.Reading.{once};
ghost use Rattle.sample_tables.specs.Tables.{is_other_offsets, is_short_table};
ghost use Rattle.mov_model.specs.Why.{is_twice, other_offsets, track_tests};
ghost use Rattle.container_model.specs.Tests.{first};
ghost use Rattle.qt_atoms.specs.Walk.{atom_in};
ghost use Rattle.sample_tables.specs.Counts.{rows_by, size_count};
ghost use Rattle.mov_file.specs.Holder.{place_of};
ghost use Rattle.mov_file.specs.Tables.{AreReferences, rows_short, sizes_short};
ghost use Rattle.mov_file.specs.Walked.{Knows};

use crate::holder::{Holder, once_as};
use crate::reading::{Reading, was_met};
use me_disk::{Depot, DepotFault, Slot};
use part_tree::{FourCc, Span, Why};
use qt_atoms::AtomAt;
use sample_tables::row_len;

/// Where the data of a track is, by its table of references: that is too short, or some are to other files, or none is.
#[derive(Clone, Copy, Debug, PartialEq, Eq)]
pub enum References {
    Short,
    External,
    Local,
}

// The number in four bytes of the file.
fn read_number<D: Depot>(depot: &mut D, at: u64) -> Result<u32, DepotFault>
    requires inside { Inside (at + 4) (D.disk depot.old) }
    ensures number { (b : List ℕ) → Holds (D.disk depot.old) b
        → IfOk result (λ n. n ≡ from_be_bytes w32 (take 4 (drop at b))) }
    ensures reads { ReadsOnly (D.disk depot.old) (D.disk depot.new) }
    ensures cause { HasCause (D.disk depot.old) (D.disk depot.new) result }
{
    let mut word = [0u8; 4];
    depot.read_at(Slot::Main, at, &mut word)?;
    Ok(u32::from_be_bytes(word))
}

// Whether a table with rows of this length is too short for them.
fn lacks_rows<D: Depot>(depot: &mut D, body: Span, len: u64) -> Result<bool, DepotFault>
    requires inside { Inside (body.at + body.len) (D.disk depot.old) }
    requires small { body.at + body.len < 2 ^ 63 }
    requires row { len ≤ 12 }
    ensures short { (b : List ℕ) → Holds (D.disk depot.old) b
        → IfOk result (λ short. short ≡ rows_short len (slice b body.at body.len)) }
    ensures reads { ReadsOnly (D.disk depot.old) (D.disk depot.new) }
    ensures cause { HasCause (D.disk depot.old) (D.disk depot.new) result }
{
    if body.len < 8 {
        return Ok(true);
    }
    let count = u64::from(read_number(depot, body.at + 4)?);
    Ok(body.len < 8 + len * count)
}

// Whether a table of sizes is too short for them.
fn lacks_sizes<D: Depot>(depot: &mut D, body: Span) -> Result<bool, DepotFault>
    requires inside { Inside (body.at + body.len) (D.disk depot.old) }
    requires small { body.at + body.len < 2 ^ 63 }
    ensures short { (b : List ℕ) → Holds (D.disk depot.old) b
        → IfOk result (λ short. short ≡ sizes_short (slice b body.at body.len)) }
    ensures reads { ReadsOnly (D.disk depot.old) (D.disk depot.new) }
    ensures cause { HasCause (D.disk depot.old) (D.disk depot.new) result }
{
    if body.len < 12 {
        return Ok(true);
    }
    let common = read_number(depot, body.at + 4)?;
    if common != 0 {
        return Ok(false);
    }
    let count = u64::from(read_number(depot, body.at + 8)?);
    Ok(body.len < 12 + 4 * count)
}

// Whether a table in `stbl` is too short for its rows.
fn is_short<D: Depot>(depot: &mut D, kind: FourCc, body: Span) -> Result<bool, DepotFault>
    requires inside { Inside (body.at + body.len) (D.disk depot.old) }
    requires small { body.at + body.len < 2 ^ 63 }
    ensures short { (b : List ℕ) → Holds (D.disk depot.old) b
        → IfOk result (λ short. short ≡ is_short_table (atom kind.0 (slice b body.at body.len))) }
    ensures reads { ReadsOnly (D.disk depot.old) (D.disk depot.new) }
    ensures cause { HasCause (D.disk depot.old) (D.disk depot.new) result }
{
    match row_len(kind) {
        Some(len) => lacks_rows(depot, body, len),
        None => {
            if kind.is(b"stsz") {
                lacks_sizes(depot, body)
            } else {
                Ok(false)
            }
        }
    }
}

// What a table of references says, which is no other table.
fn read_references<D: Depot>(
    depot: &mut D,
    kind: FourCc,
    body: Span,
) -> Result<References, DepotFault>
    requires inside { Inside (body.at + body.len) (D.disk depot.old) }
    requires small { body.at + body.len < 2 ^ 63 }
    ensures references { (b : List ℕ) → Holds (D.disk depot.old) b
        → IfOk result (λ found. AreReferences (atom kind.0 (slice b body.at body.len)) found) }
    ensures reads { ReadsOnly (D.disk depot.old) (D.disk depot.new) }
    ensures cause { HasCause (D.disk depot.old) (D.disk depot.new) result }
{
    if !kind.is(b"dref") {
        return Ok(References::Local);
    }
    if body.len < 8 {
        return Ok(References::Short);
    }
    let count = read_number(depot, body.at + 4)?;
    let end = body.at + body.len;
    let mut at = body.at + 8;
    let mut local = true;
    'entries: for _entry in 0..count {
        if end - at < 12 {
            return Ok(References::Short);
        }
        let size = u64::from(read_number(depot, at)?);
        if size < 12 {
            return Ok(References::Short);
        }
        if size > end - at {
            return Ok(References::Short);
        }
        let flags = read_number(depot, at + 8)?;
        local = local & (flags % 2 == 1);
        at += size;
    }
    if local {
        Ok(References::Local)
    } else {
        Ok(References::External)
    }
}

// Whether a table has offsets that aren't read.
fn has_other_offsets(holder: Holder, kind: FourCc) -> bool
    ensures { result ≡ other_offsets (place_of holder) (atom kind.0 []) }
{
    match holder {
        Holder::Stbl => kind.is(b"saio"),
        _ => false,
    }
}

// Whether the atom stands once in a track, and was met there.
fn stands_twice(reading: &Reading, holder: Holder, kind: FourCc) -> bool
    ensures { result ≡ is_twice (once (place_of holder) kind.0) (map (λ n. n.0) reading.now.names.items) }
{
    match once_as(holder, kind) {
        None => false,
        Some(name) => was_met(reading.names.as_slice(), name),
    }
}

// What an atom of a track is refused for.
pub fn track_why<D: Depot>(
    reading: &Reading,
    depot: &mut D,
    holder: Holder,
    atom: &AtomAt,
) -> Result<Option<Why>, DepotFault>
    requires inside { Inside (atom.now.body.at + atom.now.body.len) (D.disk depot.old) }
    requires small { atom.now.body.at + atom.now.body.len < 2 ^ 63 }
    ensures why { (b : List ℕ) (before : List (Step Place)) → Holds (D.disk depot.old) b → Knows reading.now before
        → IfOk result (λ why. why ≡ first (track_tests (place_of holder) before atom.now.at (atom_in b atom.now))) }
    ensures reads { ReadsOnly (D.disk depot.old) (D.disk depot.new) }
    ensures cause { HasCause (D.disk depot.old) (D.disk depot.new) result }
{
    let track = reading.track;
    if has_other_offsets(holder, atom.kind) {
        return Ok(Some(Why::OtherOffsets { track }));
    }
    if stands_twice(reading, holder, atom.kind) {
        return Ok(Some(Why::TableTwice { track }));
    }
    match holder {
        Holder::Stbl => {
            if is_short(depot, atom.kind, atom.body)? {
                return Ok(Some(Why::TableShort { at: atom.at }));
            }
            Ok(None)
        }
        Holder::Dinf => match read_references(depot, atom.kind, atom.body)? {
            References::Short => Ok(Some(Why::TableShort { at: atom.at })),
            References::External => Ok(Some(Why::External { track })),
            References::Local => Ok(None),
        },
        _ => Ok(None),
    }
}
