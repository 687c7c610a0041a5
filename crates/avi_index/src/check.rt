// Whether the entries of `idx1` name bytes of the essence, and how many are counted.
ghost use Rattle.std.specs.Prelude.{◌≡◌, ◌+◌, ◌<◌, ◌≤◌, ◌^◌, ◌||◌, ℕ, List, IfOk};
ghost use Rattle.me_disk.specs.Causes.{Rose};
ghost use Rattle.me_disk.specs.Holds.{Holds, Inside};
ghost use Rattle.me_disk.specs.Steps.{ReadsOnly};
ghost use Rattle.container_model.specs.Written.{slice};
ghost use Rattle.avi_index.specs.Rows.{from_movi, from_start, old_rows};
ghost use Rattle.avi_index.specs.Found.{counted};
ghost use Rattle.avi_index.specs.Entries.{IsEntry};
ghost use Rattle.part_tree.specs.Ranges.{Ascends, begins_one, clear_of};
ghost use Rattle.avi_index.specs.Checks.{JudgesRow, JudgesRows, model_base};

use crate::entry::{IdxEntry, read_entry};
use me_disk::{Depot, TableWindow};
use part_tree::{Base, IndexFault, Span, is_clear, is_head, lies_in};

// Whether an entry at a place names an index chunk, or bytes outside all of them.
fn names(indexes: &[Span], place: u64, len: u64) -> bool
    requires indexes_ascend { Ascends 0 indexes.now }
    requires small { place + len + 16 < 2 ^ 64 }
    ensures { result ≡ (begins_one indexes.now place || clear_of indexes.now (place + 8) len) }
{
    is_head(indexes, place) || is_clear(indexes, place + 8, len)
}

// Whether an entry that counts from movi is counted.
fn counts_from_movi(entry: &IdxEntry, movi: Span, indexes: &[Span]) -> bool
    requires indexes_ascend { Ascends 0 indexes.now }
    requires small { movi.at + movi.len < 2 ^ 63 }
    ensures { (row : List ℕ) → IsEntry row entry.now → result ≡ counted from_movi movi indexes.now row }
{
    let place = movi.at + u64::from(entry.offset);
    let len = u64::from(entry.len);
    let some = len != 0;
    let inside = lies_in(movi, place, 8 + len);
    let named = names(indexes, place, len);
    some & (inside & named)
}

// Whether an entry that counts from the start of the file is counted, or why it is refused.
fn judge_from_start(
    entry: &IdxEntry,
    k: u64,
    movi: Span,
    indexes: &[Span],
) -> Result<bool, IndexFault>
    requires indexes_ascend { Ascends 0 indexes.now }
    ensures row { (row : List ℕ) → IsEntry row entry.now → JudgesRow from_start movi indexes.now k row result }
    ensures never { result ≡ Err IndexFault.Depot → ⊥ }
{
    let offset = u64::from(entry.offset);
    let len = u64::from(entry.len);
    if len == 0 {
        return Ok(false);
    }
    let inside = lies_in(movi, offset, 8 + len);
    if !inside {
        return Err(IndexFault::Astray { entry: k });
    }
    let named = names(indexes, offset, len);
    if !named {
        return Err(IndexFault::Overlap { entry: k });
    }
    Ok(true)
}

// Whether an entry is counted, or why it is refused.
fn judge(
    entry: &IdxEntry,
    k: u64,
    movi: Span,
    base: Base,
    indexes: &[Span],
) -> Result<bool, IndexFault>
    requires indexes_ascend { Ascends 0 indexes.now }
    requires small { movi.at + movi.len < 2 ^ 63 }
    ensures row { (row : List ℕ) → IsEntry row entry.now → JudgesRow (model_base base) movi indexes.now k row result }
    ensures never { result ≡ Err IndexFault.Depot → ⊥ }
{
    match base {
        Base::Movi(_) => {
            let counts = counts_from_movi(entry, movi, indexes);
            Ok(counts)
        }
        Base::FileStart => judge_from_start(entry, k, movi, indexes),
    }
}

/// How many entries of a table are counted. Where they count from the start of the file, `Astray` tells the first entry that
/// doesn't lie inside `movi`, and `Overlap` the first that has bytes in an index chunk, whichever comes first. `idx` is the
/// table, `movi` the body of the first `LIST movi` from its word on, and `indexes` are the bodies of the index chunks by
/// place, which are searched by halving. It takes no memory.
pub fn check_idx1<D: Depot>(
    depot: &mut D,
    idx: Span,
    movi: Span,
    base: Base,
    indexes: &[Span],
) -> Result<u64, IndexFault>
    requires indexes_ascend { Ascends 0 indexes.now }
    requires inside { Inside (idx.at + idx.len) (D.disk depot.old) }
    requires small { idx.at + idx.len < 2 ^ 63 }
    requires movi_small { movi.at + movi.len < 2 ^ 63 }
    ensures entries { (b : List ℕ) → Holds (D.disk depot.old) b
        → JudgesRows (model_base base) movi indexes.now (old_rows (slice b idx.at idx.len)) result }
    ensures few { IfOk result (λ n. n ≤ idx.len) }
    ensures reads { ReadsOnly (D.disk depot.old) (D.disk depot.new) }
    ensures cause { result ≡ Err IndexFault.Depot → Rose (D.disk depot.old).faults (D.disk depot.new).faults }
{
    let mut window = TableWindow::new();
    let mut counted = 0;
    'entries: for k in 0..idx.len / 16 {
        let entry = match read_entry(&mut window, depot, idx, k) {
            Err(_) => return Err(IndexFault::Depot),
            Ok(entry) => entry,
        };
        match judge(&entry, k, movi, base, indexes) {
            Err(fault) => return Err(fault),
            Ok(counts) => counted += u64::from(counts),
        }
    }
    Ok(counted)
}
