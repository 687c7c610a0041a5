// Where `moov` stands in a movie, by the map of the file.
ghost use Rattle.std.specs.Prelude.{◌≡◌, ◌≢◌, ◌≤◌, ◌+◌, ◌==◌, ℕ, List, length, drop, true, IfSome, None};
ghost use Rattle.me_bytes.specs.Bytes.{IsBytes};
ghost use Rattle.part_tree.specs.Parts.{count_parts, count_role};
ghost use Rattle.mov_file.specs.Map.{IsMapOf, IsSound};
ghost use Rattle.mov_plan.specs.Frame.{IsMoovOf, IsSoundMoov};
ghost use Rattle.edit_planner.specs.MoovMap.{before_at, gap_count, gap_end, is_gap as names_gap, joined_from, kids_end};

use mov_file::MovMap;
use mov_plan::{Behind, MoovAt};
use part_tree::{Part, Role};

// The atoms of a file and its tail among its parts: these come first, each where the one before it ends.
fn top_parts(parts: &[Part]) -> &[Part]
    ensures { result.now ≡ joined_from 0 parts.now }
{
    let mut at = 0;
    let mut count = 0;
    'parts: for part in parts {
        if part.at != at {
            return &parts[..count];
        }
        at = part.next;
        count += 1;
    }
    parts
}

// How many parts stand before the one that begins at a byte.
fn count_before(parts: &[Part], at: u64) -> usize
    ensures place { result ≡ before_at at parts.now }
    ensures bound { result ≤ length parts.now }
{
    let mut count = 0;
    'parts: for part in parts {
        if part.at == at {
            return count;
        }
        count += 1;
    }
    count
}

fn is_gap(role: Role) -> bool
    ensures { result ≡ names_gap role }
{
    match role {
        Role::Padding => true,
        _ => false,
    }
}

// How many paddings parts begin with, and where these end. The parts begin at the byte `from`.
fn gaps_in(parts: &[Part], from: u64) -> (usize, u64)
    ensures count { result.0 ≡ gap_count parts.now }
    ensures bound { result.0 ≤ length parts.now }
    ensures end { result.1 ≡ gap_end from parts.now }
{
    let mut count = 0;
    let mut end = from;
    'parts: for part in parts {
        if !is_gap(part.role) {
            return (count, end);
        }
        count += 1;
        end = part.next;
    }
    (count, end)
}

fn counts(role: Role) -> u64
    ensures { result ≡ count_role role }
{
    match role {
        Role::Rest => 0,
        _ => 1,
    }
}

// How many parts are no rests.
fn count_atoms(parts: &[Part]) -> u64
    ensures count { result ≡ count_parts parts.now }
    ensures bound { result ≤ length parts.now }
{
    let mut count = 0;
    'parts: for part in parts {
        count += counts(part.role);
    }
    count
}

// What stands behind `moov`, and how many atoms follow the padding there.
#[derive(Clone, Copy, Debug, PartialEq, Eq)]
struct Followed {
    behind: Behind,
    atoms: u64,
}

// The same by the parts behind `moov`, which ends at the byte `next` of a file of this length.
fn behind_of(parts: &[Part], next: u64, goes_on: bool, len: u64) -> Option<Followed>
    ensures goes_on { IfSome result (λ a. a.behind.goes_on ≡ goes_on) }
    ensures gaps { IfSome result (λ a. a.behind.gaps ≡ gap_count parts.now) }
    ensures gap { IfSome result (λ a. next + a.behind.gap ≡ gap_end next parts.now) }
    ensures last { IfSome result (λ a. a.behind.last ≡ (gap_count parts.now == length parts.now)) }
    ensures atoms { IfSome result (λ a. a.atoms ≡ count_parts (drop (gap_count parts.now) parts.now)) }
    ensures few { IfSome result (λ a. a.atoms ≤ length parts.now) }
    ensures inside { IfSome result (λ a. next + a.behind.gap ≤ len) }
    ensures ends { IfSome result (λ a. a.behind.last ≡ true → next + a.behind.gap ≡ len) }
    ensures found { next ≤ gap_end next parts.now → gap_end next parts.now ≤ len
        → (gap_count parts.now ≡ length parts.now → gap_end next parts.now ≡ len) → result ≢ None }
{
    let (gaps, end) = gaps_in(parts, next);
    let Some(gap) = end.checked_sub(next) else {
        return None;
    };
    let last = gaps == parts.len();
    if end > len {
        return None;
    }
    if last && end != len {
        return None;
    }
    let atoms = count_atoms(&parts[gaps..]);
    Some(Followed {
        behind: Behind {
            goes_on,
            gap,
            gaps: gaps as u64,
            last,
        },
        atoms,
    })
}

/// Where `moov` stands in a movie with this map, whose atoms of `moov` end at the byte `end`. None where no file has such a map.
pub fn moov_at(map: &MovMap, end: u64) -> Option<MoovAt>
    requires sound { IsSound map.now }
    requires order { map.now.moov.body.at ≤ end }
    requires inside { end ≤ map.now.moov.next }
    ensures moov { (b : List ℕ) → IsBytes b → IsMapOf b map.now → end ≡ kids_end b → IfSome result (IsMoovOf b) }
    ensures found { (b : List ℕ) → IsBytes b → IsMapOf b map.now → result ≢ None }
    ensures sound { IfSome result IsSoundMoov }
    ensures from { IfSome result (λ m. m.from ≡ map.now.moov.body.at) }
    ensures end { IfSome result (λ m. m.end ≡ end) }
    ensures len { IfSome result (λ m. m.len ≡ map.now.len) }
{
    let top = top_parts(&map.parts);
    let before = count_before(top, map.moov.at);
    if before >= top.len() {
        return None;
    }
    let left = map.moov.next - end;
    let Some(Followed { behind, atoms }) = behind_of(
        &top[before + 1..],
        map.moov.next,
        left == 0,
        map.len,
    ) else {
        return None;
    };
    Some(MoovAt {
        at: map.moov.at,
        form: map.moov.form,
        from: map.moov.body.at,
        end,
        left,
        behind,
        others: before as u64 + 1 + atoms,
        len: map.len,
    })
}
