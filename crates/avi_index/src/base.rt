// What the offsets of `idx1` count from.
ghost use Rattle.std.specs.Prelude.{◌≡◌, ◌+◌, ◌<◌, ◌≤◌, ◌^◌, ℕ, List, IfOk, length, map};
ghost use Rattle.me_disk.specs.Causes.{Rose};
ghost use Rattle.me_disk.specs.Holds.{Holds, Inside};
ghost use Rattle.me_disk.specs.Steps.{HasCause, ReadsOnly};
ghost use Rattle.part_tree.specs.Ranges.{Ascends};
ghost use Rattle.container_model.specs.Written.{slice};
ghost use Rattle.avi_index.specs.Rows.{decides, old_rows, row_id};
ghost use Rattle.avi_index.specs.Found.{stands_at as is_named_at};
ghost use Rattle.avi_index.specs.Entries.{IsEntry};
ghost use Rattle.avi_index.specs.Checks.{FindsBase, SettlesBase};

use crate::entry::{IdxEntry, read_entry};
use me_disk::{Depot, DepotFault, Slot, TableWindow};
use part_tree::{Base, FourCc, IndexFault, Span, is_clear, is_head, lies_in};

// Whether an entry has bytes and is no list.
fn does_decide(entry: &IdxEntry) -> bool
    ensures { (row : List ℕ) → IsEntry row entry.now → result ≡ decides row }
{
    entry.len != 0 && entry.flags % 2 == 0
}

// Whether an identifier stands at a place, as that of an index chunk or outside them.
fn stands_at<D: Depot>(
    depot: &mut D,
    id: FourCc,
    place: u64,
    indexes: &[Span],
) -> Result<bool, DepotFault>
    requires indexes_ascend { Ascends 0 indexes.now }
    requires inside { Inside (place + 4) (D.disk depot.old) }
    requires small { place + 4 < 2 ^ 63 }
    ensures stands { (b row : List ℕ) → Holds (D.disk depot.old) b → id.0 ≡ row_id row
        → IfOk result (λ stands. stands ≡ is_named_at b indexes.now row place) }
    ensures reads { ReadsOnly (D.disk depot.old) (D.disk depot.new) }
    ensures cause { HasCause (D.disk depot.old) (D.disk depot.new) result }
{
    let mut word = [0u8; 4];
    depot.read_at(Slot::Main, place, &mut word)?;
    let same = FourCc(word).is(&id.0);
    let head = is_head(indexes, place);
    let clear = is_clear(indexes, place, 4);
    Ok(same & (head | clear))
}

// The base that an entry settles, where the file has so many bytes.
fn settle<D: Depot>(
    depot: &mut D,
    entry: &IdxEntry,
    movi: Span,
    len: u64,
    indexes: &[Span],
) -> Result<Base, IndexFault>
    requires indexes_ascend { Ascends 0 indexes.now }
    requires whole { (b : List ℕ) → Holds (D.disk depot.old) b → len ≡ length b }
    requires few { len < 2 ^ 63 }
    requires inside { Inside (movi.at + movi.len) (D.disk depot.old) }
    requires small { movi.at + movi.len < 2 ^ 63 }
    ensures base { (b row : List ℕ) → Holds (D.disk depot.old) b → IsEntry row entry.now
        → SettlesBase b indexes.now movi row result }
    ensures reads { ReadsOnly (D.disk depot.old) (D.disk depot.new) }
    ensures cause { result ≡ Err IndexFault.Depot → Rose (D.disk depot.old).faults (D.disk depot.new).faults }
{
    let offset = u64::from(entry.offset);
    if offset < movi.at {
        if !lies_in(movi, movi.at + offset, 4) {
            return Err(IndexFault::NoBase);
        }
        return match stands_at(depot, entry.id, movi.at + offset, indexes) {
            Err(_) => Err(IndexFault::Depot),
            Ok(false) => Err(IndexFault::NoBase),
            Ok(true) => Ok(Base::Movi(movi.at)),
        };
    }
    if len < 4 || offset > len - 4 {
        return Err(IndexFault::NoBase);
    }
    match stands_at(depot, entry.id, offset, indexes) {
        Err(_) => Err(IndexFault::Depot),
        Ok(false) => Err(IndexFault::NoBase),
        Ok(true) => Ok(Base::FileStart),
    }
}

/// What the offsets of a table count from, as the first entry that has bytes and is no list says: `movi` where its offset is
/// below that place, else the start of the file. `NoBase` exactly where its identifier doesn't stand there, or stands inside
/// an index chunk. `idx` is the table, `movi` the body of the first `LIST movi` from its word on, and `indexes` are the bodies
/// of the index chunks by place. It takes no memory.
pub fn entry_base<D: Depot>(
    depot: &mut D,
    idx: Span,
    movi: Span,
    indexes: &[Span],
) -> Result<Base, IndexFault>
    requires indexes_ascend { Ascends 0 indexes.now }
    requires inside { Inside (idx.at + idx.len) (D.disk depot.old) }
    requires small { idx.at + idx.len < 2 ^ 63 }
    requires movi { Inside (movi.at + movi.len) (D.disk depot.old) }
    requires movi_small { movi.at + movi.len < 2 ^ 63 }
    ensures base { (b : List ℕ) → Holds (D.disk depot.old) b
        → FindsBase b indexes.now movi (old_rows (slice b idx.at idx.len)) result }
    ensures reads { ReadsOnly (D.disk depot.old) (D.disk depot.new) }
    ensures cause { result ≡ Err IndexFault.Depot → Rose (D.disk depot.old).faults (D.disk depot.new).faults }
{
    let len = match depot.len(Slot::Main) {
        Err(_) => return Err(IndexFault::Depot),
        Ok(len) => len,
    };
    let mut window = TableWindow::new();
    'entries: for k in 0..idx.len / 16 {
        let entry = match read_entry(&mut window, depot, idx, k) {
            Err(_) => return Err(IndexFault::Depot),
            Ok(entry) => entry,
        };
        if does_decide(&entry) {
            return settle(depot, &entry, movi, len, indexes);
        }
    }
    Ok(Base::Movi(movi.at))
}
