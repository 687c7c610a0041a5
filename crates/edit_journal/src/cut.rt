// Cuts the bytes of a patch at their long runs.
ghost use Rattle.std.specs.Prelude.{◌≡◌, ℕ, ◌+◌, ◌-◌, ◌*◌, ◌≤◌, ◌<◌, ◌∷◌, ◌++◌, List, length, take, drop, get_or, replicate};
ghost use Rattle.part_tree.specs.Patches.{all_bytes, most_bytes};
ghost use Rattle.edit_journal.specs.Strips.{maximal_runs, joined, cut, strips, piece_of};
ghost use Rattle.edit_journal.specs.Strips.Piece.{Plain};

use part_tree::Patch;

/// A run of at least so many bytes is told as one.
const LEAST_RUN: usize = 64;

/// The bytes of a strip: how many there are, and whether they are told as a run.
#[derive(Clone, Copy)]
pub(crate) struct Cut {
    pub(crate) len: usize,
    pub(crate) run: bool,
}

/// How many strips there are, and how many bytes tell them.
#[derive(Clone, Copy)]
pub(crate) struct Tally {
    pub(crate) strips: u32,
    pub(crate) size: usize,
}

// The length of the longest run that begins at a place.
fn run_len(bytes: &[u8], from: usize) -> usize
    requires { from < length bytes.now }
    ensures runs { maximal_runs (drop from bytes.now)
        ≡ record { byte = get_or bytes.now from 0; times = result } ∷ maximal_runs (drop (from + result) bytes.now) }
    ensures same { take result (drop from bytes.now) ≡ replicate result (get_or bytes.now from 0) }
    ensures some { (0 < result) × (from + result ≤ length bytes.now) }
{
    let first = bytes[from];
    let mut end = from + 1;
    while end < bytes.len() && bytes[end] == first {
        end += 1;
    }
    end - from
}

// The place of the first long run from a place on, or the end.
fn plain_end(bytes: &[u8], from: usize) -> usize
    requires { from ≤ length bytes.now }
    ensures joins { (b : List ℕ) → joined b (cut (drop from bytes.now))
        ≡ Plain (b ++ take (result - from) (drop from bytes.now)) ∷ cut (drop result bytes.now) }
    ensures inside { (from ≤ result) × (result ≤ length bytes.now) }
{
    let mut end = from;
    while end < bytes.len() {
        let run = run_len(bytes, end);
        if run >= LEAST_RUN {
            return end;
        }
        end += run;
    }
    end
}

/// The strip that begins at a place where a run begins.
pub(crate) fn cut_at(bytes: &[u8], from: usize) -> Cut
    requires { from < length bytes.now }
    ensures cut { cut (drop from bytes.now)
        ≡ piece_of result.run (take result.len (drop from bytes.now)) ∷ cut (drop (from + result.len) bytes.now) }
    ensures some { (0 < result.len) × (from + result.len ≤ length bytes.now) }
{
    let run = run_len(bytes, from);
    if run >= LEAST_RUN {
        return Cut {
            len: run,
            run: true,
        };
    }
    Cut {
        len: plain_end(bytes, from + run) - from,
        run: false,
    }
}

// Counts the strips of one patch, and the bytes that tell them.
fn count_cuts(bytes: &[u8]) -> Tally
    requires { length bytes.now ≤ most_bytes }
    ensures strips { result.strips ≡ length (cut bytes.now) }
    ensures small { (result.strips ≤ length bytes.now) × (result.size ≤ 14 * length bytes.now) }
{
    let mut tally = Tally { strips: 0, size: 0 };
    let mut from = 0;
    while from < bytes.len() {
        let cut = cut_at(bytes, from);
        tally.strips += 1;
        tally.size += 13 + if cut.run { 1 } else { cut.len };
        from += cut.len;
    }
    tally
}

/// Counts the strips of patches, and the bytes that tell them.
pub(crate) fn count_strips(patches: &[Patch]) -> Tally
    requires { all_bytes patches.now ≤ most_bytes }
    ensures strips { result.strips ≡ length (strips patches.now) }
    ensures small { result.size ≤ 14 * all_bytes patches.now }
{
    let mut tally = Tally { strips: 0, size: 0 };
    for patch in patches {
        let more = count_cuts(patch.bytes.as_slice());
        tally.strips += more.strips;
        tally.size += more.size;
    }
    tally
}
