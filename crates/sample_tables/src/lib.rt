//! The sample tables of a QuickTime track, by their bodies (QuickTime File Format, sample table atoms).
//! A body is version and flags, a count, and so many rows; `stsz` has a common size before the count. All numbers are
//! big-endian. It reads no file and takes no memory.
#![tactic(auto)]

ghost use Rattle.std.specs.Prelude.{false, ◌≡◌, ◌↔◌, ◌≤◌, ◌<◌, ◌+◌, ◌*◌, ℕ, List, length, map, take, drop, sum, Some, IfSome, IsSome, IsTrue, codes, slice_index, ◌||◌};
ghost use Rattle.std.specs.List.{AllByRecursion};
ghost use Rattle.std.specs.Int.{w32, w64, from_be_bytes};
ghost use Rattle.container_model.specs.Chunk.{Chunk};
ghost use Rattle.container_model.specs.Atoms.{atom, is};
ghost use Rattle.sample_tables.specs.Samples.{runs_in, samples_in, sizes_in};
ghost use Rattle.sample_tables.specs.Tables.{FitsRows, is_short_table, moved_table, places, places_in};
ghost use Rattle.sample_tables.specs.Counts.{HasRow, place_table, placed, row_len_of, rows_by, rows_told, size_rows_by};

use part_tree::FourCc;

/// How many rows a table has, by its body and its type. None exactly where the body is too short for its header and rows, or
/// the type is none of `stco`, `co64`, `stsc` and `stsz`.
pub fn rows_of(body: &[u8], kind: FourCc) -> Option<u32>
    ensures { result ≡ rows_told (atom kind.0 body.now) }
{
    match row_len(kind) {
        Some(len) => counted_rows(body, len),
        None => {
            if kind.is(b"stsz") {
                size_rows(body)
            } else {
                None
            }
        }
    }
}

/// The place of a chunk by its number, counted from 0, from the body of `co64` where `wide`, else of `stco`. None exactly where
/// that row isn't in the body.
pub fn chunk_at(body: &[u8], wide: bool, k: u32) -> Option<u64>
    ensures inside { IsSome result ↔ HasRow wide body.now k }
    ensures place { IfSome result (λ place. place ≡ slice_index (places_in (place_table wide body.now)) k) }
{
    if body.len() < 8 {
        return None;
    }
    if k >= number_at(body, 4) {
        return None;
    }
    if wide {
        wide_row(body, k)
    } else {
        narrow_row(body, k)
    }
}

/// Where a sample begins in its chunk: the chunk's place and the sizes of the samples before it. None exactly where the chunk
/// has no sample of that number, counted from 0, or the place passes 2^63-1.
pub fn sample_place(offset: u64, sizes: &[u32], n: usize) -> Option<u64>
    ensures { result ≡ placed offset sizes.now n }
{
    if n >= sizes.len() {
        return None;
    }
    let mut place = offset;
    for k in 0..n {
        place = place.saturating_add(u64::from(sizes[k]));
    }
    if place > 0x7FFF_FFFF_FFFF_FFFF {
        return None;
    }
    Some(place)
}

/// How many bytes a row has in the tables that begin with a count. None for other types.
pub fn row_len(kind: FourCc) -> Option<u64>
    ensures len { result ≡ row_len_of kind.0 }
    ensures small { IfSome result (λ len. len ≤ 12) }
{
    if kind.is(b"stco") {
        Some(4)
    } else if kind.is(b"co64") {
        Some(8)
    } else if kind.is(b"stsc") {
        Some(12)
    } else {
        None
    }
}

// The count of a table with rows of this length.
fn counted_rows(body: &[u8], len: u64) -> Option<u32>
    requires { len ≤ 12 }
    ensures { result ≡ rows_by len body.now }
{
    if body.len() < 8 {
        return None;
    }
    let count = number_at(body, 4);
    if (body.len() as u64) < 8 + len * u64::from(count) {
        return None;
    }
    Some(count)
}

// The count of a table of sizes, which has no row where the sizes are one.
fn size_rows(body: &[u8]) -> Option<u32>
    ensures { result ≡ size_rows_by body.now }
{
    if body.len() < 12 {
        return None;
    }
    let count = number_at(body, 8);
    if number_at(body, 4) != 0 {
        return Some(count);
    }
    if (body.len() as u64) < 12 + 4 * u64::from(count) {
        return None;
    }
    Some(count)
}

// A place of 32 bits.
fn narrow_row(body: &[u8], k: u32) -> Option<u64>
    ensures inside { IsSome result ↔ (8 + 4 * (k + 1) ≤ length body.now) }
    ensures place { IfSome result (λ place. place ≡ from_be_bytes w32 (take 4 (drop (4 * k) (drop 8 body.now)))) }
{
    let at = 8 + 4 * k as usize;
    if body.len() < at + 4 {
        return None;
    }
    Some(u64::from(number_at(body, at)))
}

// A place of 64 bits.
fn wide_row(body: &[u8], k: u32) -> Option<u64>
    ensures inside { IsSome result ↔ (8 + 8 * (k + 1) ≤ length body.now) }
    ensures place { IfSome result (λ place. place ≡ from_be_bytes w64 (take 8 (drop (8 * k) (drop 8 body.now)))) }
{
    let at = 8 + 8 * k as usize;
    if body.len() < at + 8 {
        return None;
    }
    let mut row = [0u8; 8];
    row.copy_from_slice(&body[at..at + 8]);
    Some(u64::from_be_bytes(row))
}

// The number in four bytes.
fn number_at(body: &[u8], at: usize) -> u32
    requires { at + 4 ≤ length body.now }
    ensures { result ≡ from_be_bytes w32 (take 4 (drop at body.now)) }
{
    let mut word = [0u8; 4];
    word.copy_from_slice(&body[at..at + 4]);
    u32::from_be_bytes(word)
}

/// A table that is long enough names as many places, runs or sizes as it has rows.
pub fn rows_are_counted()
    ensures places { (c : Chunk) (n : ℕ) → IsTrue (is c (codes "stco") || is c (codes "co64")) → rows_told c ≡ Some n
        → length (places_in c) ≡ n }
    ensures runs { (body : List ℕ) (n : ℕ) → rows_told (atom (codes "stsc") body) ≡ Some n
        → length (runs_in (atom (codes "stsc") body)) ≡ n }
    ensures sizes { (body : List ℕ) (n : ℕ) → rows_told (atom (codes "stsz") body) ≡ Some n
        → length (sizes_in (atom (codes "stsz") body)) ≡ n }
{}

/// Tables that are long enough, with their places changed so that each fits its width, hold the changed places.
pub fn places_are_changed()
    ensures { (f : ℕ → ℕ) (ts : List Chunk) → AllByRecursion (λ c. is_short_table c ≡ false) ts
        → AllByRecursion (FitsRows f) ts → places (map (moved_table f) ts) ≡ map f (places ts) }
{}

/// Each sample that is named has as many bytes as the table of sizes tells.
pub fn samples_are_whole()
    ensures { (n : ℕ) (sizes tail : List ℕ)
        → map (λ (x : List ℕ). length x) (samples_in n sizes tail) ≡ take (length (samples_in n sizes tail)) sizes }
{}

#[cfg(test)]
mod tests {
    use super::*;

    // Two places of 32 bits, and one of 64.
    const NARROW: &[u8] = b"\0\0\0\0\0\0\0\x02\0\0\0\xBC\0\0\0\xC4";

    const WIDE: &[u8] = b"\0\0\0\0\0\0\0\x01\0\0\0\x01\0\0\0\x05";

    // Samples of one size, and samples of sizes one by one.
    const SAME: &[u8] = b"\0\0\0\0\0\0\0\x08\0\0\x10\0";

    const EACH: &[u8] = b"\0\0\0\0\0\0\0\0\0\0\0\x01\0\0\0\x08";

    #[test]
    fn counts_rows(rt: HostRuntime) {
        assert_eq!(rt; rows_of(NARROW, FourCc(*b"stco")), Some(2));
        assert_eq!(rt; rows_of(NARROW, FourCc(*b"co64")), None);
        assert_eq!(rt; rows_of(WIDE, FourCc(*b"co64")), Some(1));
        assert_eq!(rt; rows_of(WIDE, FourCc(*b"stsc")), None);
        assert_eq!(rt; rows_of(SAME, FourCc(*b"stsz")), Some(4096));
        assert_eq!(rt; rows_of(EACH, FourCc(*b"stsz")), Some(1));
        assert_eq!(rt; rows_of(&EACH[..15], FourCc(*b"stsz")), None);
        assert_eq!(rt; rows_of(NARROW, FourCc(*b"free")), None);
    }

    #[test]
    fn finds_places(rt: HostRuntime) {
        assert_eq!(rt; chunk_at(NARROW, false, 1), Some(196));
        assert_eq!(rt; chunk_at(NARROW, false, 2), None);
        assert_eq!(rt; chunk_at(&NARROW[..15], false, 1), None);
        assert_eq!(rt; chunk_at(WIDE, true, 0), Some(4_294_967_301));
        assert_eq!(rt; sample_place(100, &[5, 7, 9], 2), Some(112));
        assert_eq!(rt; sample_place(100, &[5, 7, 9], 3), None);
        assert_eq!(rt;
            sample_place(0x7FFF_FFFF_FFFF_FFFF, &[1, 1], 0),
            Some(0x7FFF_FFFF_FFFF_FFFF)
        );
        assert_eq!(rt; sample_place(0x7FFF_FFFF_FFFF_FFFF, &[1, 1], 1), None);
    }
}
