// Whether each chunk of a track stands in an `mdat`. The rows of a table are read in pages of at most 4,096.
ghost use Rattle.std.specs.Prelude.{◌≡◌, ◌≤◌, ◌<◌, ◌+◌, ◌*◌, ◌^◌, ℕ, List, length, take, drop, IfOk, IsNone, true, false};
ghost use Rattle.std.specs.Int.{w32, from_be_bytes};
ghost use Rattle.me_disk.specs.Steps.{HasCause, ReadsOnly};
ghost use Rattle.me_disk.specs.Holds.{Holds, Inside};
ghost use Rattle.container_model.specs.Rows.{field, numbers};
ghost use Rattle.container_model.specs.Written.{slice};
ghost use Rattle.part_tree.specs.Ranges.{Ascends, in_one as lies_in_one};
ghost use Rattle.mov_file.specs.Chunks.{HasRows, first_astray, places_of, width_of};

use me_disk::{Depot, DepotFault, Slot};
use part_tree::{Span, in_one, lies_in};

const PAGE_ROWS: u32 = 4_096;

const PAGE_BYTES: usize = 32_768;

// How many bytes a row has.
fn row_len(wide: bool) -> usize
    ensures len { result ≡ (width_of wide).bytes }
    ensures few { result ≤ 8 }
{
    if wide { 8 } else { 4 }
}

// The number in the four bytes at a place of a page.
fn narrow_in(page: &[u8], at: usize) -> u32
    requires { at + 4 ≤ length page.now }
    ensures { result ≡ field (width_of false) at page.now }
{
    let mut row = [0u8; 4];
    row.copy_from_slice(&page[at..at + 4]);
    u32::from_be_bytes(row)
}

// The number in the eight bytes at a place of a page.
fn wide_in(page: &[u8], at: usize) -> u64
    requires { at + 8 ≤ length page.now }
    ensures { result ≡ field (width_of true) at page.now }
{
    let mut row = [0u8; 8];
    row.copy_from_slice(&page[at..at + 8]);
    u64::from_be_bytes(row)
}

// The number of a row, which has eight bytes where `wide`, else four.
fn place_in(page: &[u8], wide: bool, at: usize) -> u64
    requires { at + (width_of wide).bytes ≤ length page.now }
    ensures { result ≡ field (width_of wide) at page.now }
{
    if wide {
        wide_in(page, at)
    } else {
        u64::from(narrow_in(page, at))
    }
}

// Whether a range of this number holds a place.
fn holds(mdats: &[Span], near: usize, place: u64) -> bool
    ensures { result ≡ true → lies_in_one mdats.now place 1 ≡ true }
{
    near < mdats.len() && lies_in(mdats[near], place, 1)
}

// Whether a place stands in one of these, which ascend. It is looked for in the range of this number first, and then in the next.
fn is_held(mdats: &[Span], near: &mut usize, place: u64) -> bool
    requires { Ascends 0 mdats.now }
    ensures { result ≡ lies_in_one mdats.now place 1 }
{
    if holds(mdats, *near, place) {
        return true;
    }
    let next = near.saturating_add(1);
    if holds(mdats, next, place) {
        *near = next;
        return true;
    }
    in_one(mdats, place, 1)
}

// The number of the first of so many rows, which are counted on from `first`, whose place stands in none of these, which ascend.
fn astray_in_page(
    page: &[u8],
    wide: bool,
    rows: u32,
    first: u32,
    mdats: &[Span],
    near: &mut usize,
) -> Option<u32>
    requires room { (width_of wide).bytes * rows ≤ length page.now }
    requires few { first + rows ≤ 2 ^ 32 }
    requires order { Ascends 0 mdats.now }
    ensures { result ≡ first_astray mdats.now first (numbers (width_of wide) rows page.now) }
{
    let width = row_len(wide);
    'rows: for row in 0..rows {
        let place = place_in(page, wide, width * row as usize);
        if !is_held(mdats, near, place) {
            return Some(first + row);
        }
    }
    None
}

// The number, from 1, of the first of so many rows whose place stands in none of these, which ascend.
fn astray_among<D: Depot>(
    depot: &mut D,
    mdats: &[Span],
    wide: bool,
    rows: Span,
    count: u32,
) -> Result<Option<u32>, DepotFault>
    requires inside { Inside (rows.at + rows.len) (D.disk depot.old) }
    requires small { rows.at + rows.len < 2 ^ 63 }
    requires order { Ascends 0 mdats.now }
    ensures astray { (b : List ℕ) → Holds (D.disk depot.old) b → (width_of wide).bytes * count ≤ rows.len
        → IfOk result (λ found. found ≡ first_astray mdats.now 1 (numbers (width_of wide) count (drop rows.at b))) }
    ensures reads { ReadsOnly (D.disk depot.old) (D.disk depot.new) }
    ensures cause { HasCause (D.disk depot.old) (D.disk depot.new) result }
{
    let width = row_len(wide);
    if width as u64 * u64::from(count) > rows.len {
        return Ok(None);
    }
    let mut page = [0u8; PAGE_BYTES];
    let mut near = 0;
    let mut done: u32 = 0;
    'pages: while done < count {
        let some = (count - done).min(PAGE_ROWS);
        let bytes = &mut page[..width * some as usize];
        depot.read_at(Slot::Main, rows.at + width as u64 * u64::from(done), bytes)?;
        match astray_in_page(bytes, wide, some, done + 1, mdats, &mut near) {
            Some(found) => return Ok(Some(found)),
            None => {}
        }
        done += some;
    }
    Ok(None)
}

// How many rows a table with this body has.
fn count_in<D: Depot>(depot: &mut D, body: Span) -> Result<u32, DepotFault>
    requires inside { Inside (body.at + body.len) (D.disk depot.old) }
    requires small { body.at + body.len < 2 ^ 63 }
    requires long { 8 ≤ body.len }
    ensures number { (b : List ℕ) → Holds (D.disk depot.old) b
        → IfOk result (λ n. n ≡ from_be_bytes w32 (take 4 (drop (body.at + 4) b))) }
    ensures reads { ReadsOnly (D.disk depot.old) (D.disk depot.new) }
    ensures cause { HasCause (D.disk depot.old) (D.disk depot.new) result }
{
    let mut word = [0u8; 4];
    depot.read_at(Slot::Main, body.at + 4, &mut word)?;
    Ok(u32::from_be_bytes(word))
}

/// The number, from 1, of the first chunk in a table of places, with this body, that stands in none of these, which ascend.
pub fn astray_in<D: Depot>(
    depot: &mut D,
    mdats: &[Span],
    wide: bool,
    body: Span,
) -> Result<Option<u32>, DepotFault>
    requires inside { Inside (body.at + body.len) (D.disk depot.old) }
    requires small { body.at + body.len < 2 ^ 63 }
    requires order { Ascends 0 mdats.now }
    ensures astray { (b : List ℕ) → Holds (D.disk depot.old) b → HasRows wide (slice b body.at body.len)
        → IfOk result (λ found. found ≡ first_astray mdats.now 1 (places_of wide (slice b body.at body.len))) }
    ensures none { body.len < 8 → IfOk result (λ found. IsNone found) }
    ensures reads { ReadsOnly (D.disk depot.old) (D.disk depot.new) }
    ensures cause { HasCause (D.disk depot.old) (D.disk depot.new) result }
{
    if body.len < 8 {
        return Ok(None);
    }
    let count = count_in(depot, body)?;
    let rows = Span {
        at: body.at + 8,
        len: body.len - 8,
    };
    astray_among(depot, mdats, wide, rows, count)
}
