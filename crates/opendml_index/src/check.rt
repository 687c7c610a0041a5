// Whether the entries of a standard index name bytes of the essence, and how many are counted.
ghost use Rattle.std.specs.Prelude.{◌≡◌, drop, ◌+◌, ◌*◌, ◌-◌, ◌<◌, ◌≤◌, ◌^◌, ℕ, List, IfOk, length};
ghost use Rattle.std.specs.List.{AllByRecursion};
ghost use Rattle.me_disk.specs.Causes.{Rose};
ghost use Rattle.me_disk.specs.Holds.{Holds, Inside};
ghost use Rattle.me_disk.specs.Steps.{HasCause, ReadsOnly};
ghost use Rattle.part_tree.specs.Ranges.{Ascends};
ghost use Rattle.container_model.specs.Written.{rows, slice};
ghost use Rattle.container_model.specs.Tables.{named};
ghost use Rattle.opendml_index.specs.Index.{entries, index_base};
ghost use Rattle.opendml_index.specs.Kinds.{second_lies as lies_second};
ghost use Rattle.me_disk.specs.Windows.{IsWindow};
ghost use Rattle.opendml_index.specs.Entries.{IsStandard, SecondAt, width_by};
ghost use Rattle.opendml_index.specs.Checks.{EndInside, IsChunk, IsTable, JudgesEntries, JudgesEntry, TableAt, EntriesBy};

use crate::entry::{StdEntry, standard_in, width_by_fields, width_of};
use crate::head::{head_of, kind_in};
use me_disk::{Depot, DepotFault, Slot, TableWindow};
use part_tree::{IndexFault, IndexHead, Span, in_one, is_clear};

/// The entries of a standard index in a file: where the first stands, where the last ends, how many bytes one has, how many
/// there are, and what their offsets count from.
#[derive(Clone, Copy, Debug, PartialEq, Eq)]
pub struct Entries {
    pub at: u64,
    pub end: u64,
    pub two_fields: bool,
    pub used: u32,
    pub base: u64,
}

// Whether the second place of an entry is at or behind its place and before its end.
fn second_lies(entry: &StdEntry) -> bool
    ensures { (row : List ℕ) → IsStandard row entry.now → result ≡ lies_second row }
{
    match entry.second {
        None => true,
        Some(second) => {
            let none = second == 0;
            let behind = second >= entry.offset;
            let before = u64::from(second) < u64::from(entry.offset) + u64::from(entry.size);
            none | (behind & before)
        }
    }
}

// Whether an entry is counted, or why it is refused.
fn judge(
    entry: &StdEntry,
    k: u64,
    base: u64,
    movis: &[Span],
    indexes: &[Span],
) -> Result<bool, IndexFault>
    requires indexes_ascend { Ascends 0 indexes.now }
    requires movis_ascend { Ascends 0 movis.now }
    ensures row { (row : List ℕ) → IsStandard row entry.now → AllByRecursion (EndInside (2 ^ 64)) movis.now
        → JudgesEntry movis.now indexes.now base k row result }
    ensures never { result ≡ Err IndexFault.Depot → ⊥ }
{
    let offset = u64::from(entry.offset);
    let len = u64::from(entry.size);
    if len == 0 {
        return Ok(false);
    }
    if base > u64::MAX - offset {
        return Err(IndexFault::Astray { entry: k });
    }
    let inside = in_one(movis, base + offset, len);
    let second = second_lies(entry);
    if !(inside & second) {
        return Err(IndexFault::Astray { entry: k });
    }
    let clear = is_clear(indexes, base + offset, len);
    if !clear {
        return Err(IndexFault::Overlap { entry: k });
    }
    Ok(true)
}

// The second field of an entry at a place of a file.
fn read_second<D: Depot>(
    window: &mut TableWindow,
    depot: &mut D,
    two_fields: bool,
    at: u64,
    end: u64,
) -> Result<Option<u32>, DepotFault>
    requires inside { Inside end (D.disk depot.old) }
    requires small { end < 2 ^ 63 }
    requires there { at + width_by two_fields ≤ end }
    requires window { IsWindow (D.disk depot.old) window.old }
    ensures second { (b : List ℕ) → Holds (D.disk depot.old) b
        → IfOk result (λ second. SecondAt b at two_fields second) }
    ensures window { IsWindow (D.disk depot.new) window.new }
    ensures reads { ReadsOnly (D.disk depot.old) (D.disk depot.new) }
    ensures cause { HasCause (D.disk depot.old) (D.disk depot.new) result }
{
    if !two_fields {
        return Ok(None);
    }
    let mut word = [0u8; 4];
    window.read_at(depot, at + 8, end, &mut word)?;
    Ok(Some(u32::from_le_bytes(word)))
}

// The entry at a place of a file.
fn read_entry<D: Depot>(
    window: &mut TableWindow,
    depot: &mut D,
    two_fields: bool,
    at: u64,
    end: u64,
) -> Result<StdEntry, DepotFault>
    requires inside { Inside end (D.disk depot.old) }
    requires small { end < 2 ^ 63 }
    requires there { at + width_by two_fields ≤ end }
    requires window { IsWindow (D.disk depot.old) window.old }
    ensures entry { (b : List ℕ) → Holds (D.disk depot.old) b
        → IfOk result (λ e. IsStandard (slice b at (width_by two_fields)) e) }
    ensures window { IsWindow (D.disk depot.new) window.new }
    ensures reads { ReadsOnly (D.disk depot.old) (D.disk depot.new) }
    ensures cause { HasCause (D.disk depot.old) (D.disk depot.new) result }
{
    let mut row = [0u8; 8];
    window.read_at(depot, at, end, &mut row)?;
    let second = read_second(window, depot, two_fields, at, end)?;
    Ok(standard_in(&row, second))
}

// The entries of the standard index whose header stands at a place, in a file of this length. None where the file has none
// there, which is so only where the depot doesn't tell its content.
fn entries_at<D: Depot>(depot: &mut D, at: u64, len: u64) -> Result<Option<Entries>, DepotFault>
    requires whole { (b : List ℕ) → Holds (D.disk depot.old) b → len ≡ length b }
    requires few { len < 2 ^ 63 }
    requires told { (b : List ℕ) → Holds (D.disk depot.old) b → IsChunk b at }
    ensures table { (b : List ℕ) → Holds (D.disk depot.old) b → IfOk result (λ found. TableAt b at found) }
    ensures inside { IfOk result (λ found. IsTable len found) }
    ensures reads { ReadsOnly (D.disk depot.old) (D.disk depot.new) }
    ensures cause { HasCause (D.disk depot.old) (D.disk depot.new) result }
{
    if len < 32 || at > len - 32 {
        return Ok(None);
    }
    let mut first = [0u8; 24];
    depot.read_at(Slot::Main, at + 8, &mut first)?;
    let Some(kind) = kind_in(&first) else {
        return Ok(None);
    };
    Ok(entries_of(&head_of(&first, kind), at + 32, len))
}

// The entries that a head tells, which begin at a place, in a file of this length.
fn entries_of(head: &IndexHead, at: u64, len: u64) -> Option<Entries>
    requires order { at ≤ len }
    requires few { len < 2 ^ 63 }
    ensures { EntriesBy head.now at len result }
{
    let end = at + width_of(head) * u64::from(head.used);
    if end > len {
        return None;
    }
    Some(Entries {
        at,
        end,
        two_fields: head.two_fields,
        used: head.used,
        base: head.base,
    })
}

// How many of these entries are counted, or the first that is refused.
fn check_entries<D: Depot>(
    depot: &mut D,
    table: Entries,
    movis: &[Span],
    indexes: &[Span],
) -> Result<u64, IndexFault>
    requires indexes_ascend { Ascends 0 indexes.now }
    requires movis_ascend { Ascends 0 movis.now }
    requires inside { Inside table.end (D.disk depot.old) }
    requires small { table.end < 2 ^ 63 }
    requires rows { table.at + width_by table.two_fields * table.used ≡ table.end }
    ensures entries { (b : List ℕ) → Holds (D.disk depot.old) b → AllByRecursion (EndInside (2 ^ 64)) movis.now
        → JudgesEntries movis.now indexes.now table.base (rows (width_by table.two_fields) table.used (drop table.at b))
        result }
    ensures few { IfOk result (λ n. n ≤ table.used) }
    ensures reads { ReadsOnly (D.disk depot.old) (D.disk depot.new) }
    ensures cause { result ≡ Err IndexFault.Depot → Rose (D.disk depot.old).faults (D.disk depot.new).faults }
{
    let width = width_by_fields(table.two_fields);
    let mut window = TableWindow::new();
    let mut counted = 0;
    'entries: for k in 0..u64::from(table.used) {
        let entry = match read_entry(
            &mut window,
            depot,
            table.two_fields,
            table.at + width * k,
            table.end,
        ) {
            Err(_) => return Err(IndexFault::Depot),
            Ok(entry) => entry,
        };
        match judge(&entry, k, table.base, movis, indexes) {
            Err(fault) => return Err(fault),
            Ok(counts) => counted += u64::from(counts),
        }
    }
    Ok(counted)
}

/// How many entries of the standard index whose header stands at a place are counted. `Astray` tells the first entry that
/// doesn't lie inside one of `movis`, or whose second place isn't inside it, and `Overlap` the first that has bytes in an
/// index chunk, whichever comes first. `movis` are the bodies of the lists of that type by place, `indexes` those of the
/// index chunks; both are searched by halving. It takes no memory.
pub fn check_standard<D: Depot>(
    depot: &mut D,
    at: u64,
    movis: &[Span],
    indexes: &[Span],
) -> Result<u64, IndexFault>
    requires indexes_ascend { Ascends 0 indexes.now }
    requires movis_ascend { Ascends 0 movis.now }
    requires told { (b : List ℕ) → Holds (D.disk depot.old) b → IsChunk b at }
    requires movis { (b : List ℕ) → Holds (D.disk depot.old) b → AllByRecursion (EndInside (length b)) movis.now }
    ensures entries { (b : List ℕ) → Holds (D.disk depot.old) b
        → JudgesEntries movis.now indexes.now (index_base (named b at).body) (entries (named b at).body) result }
    ensures few { IfOk result (λ n. n < 2 ^ 32) }
    ensures reads { ReadsOnly (D.disk depot.old) (D.disk depot.new) }
    ensures cause { result ≡ Err IndexFault.Depot → Rose (D.disk depot.old).faults (D.disk depot.new).faults }
{
    let len = match depot.len(Slot::Main) {
        Err(_) => return Err(IndexFault::Depot),
        Ok(len) => len,
    };
    let table = match entries_at(depot, at, len) {
        Err(_) => return Err(IndexFault::Depot),
        Ok(None) => return Ok(0),
        Ok(Some(table)) => table,
    };
    check_entries(depot, table, movis, indexes)
}
