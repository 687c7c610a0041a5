// The entries of the index chunks, and those of `idx1`.
ghost use Rattle.std.specs.Prelude.{◌≡◌, ◌+◌, ◌-◌, ◌<◌, ◌≤◌, ◌*◌, ◌^◌, ℕ, List, IfOk, length, true};
ghost use Rattle.std.specs.List.{AllByRecursion};
ghost use Rattle.me_disk.specs.Causes.{Rose};
ghost use Rattle.me_disk.specs.Holds.{Holds, Inside as IsInside};
ghost use Rattle.me_disk.specs.Steps.{ReadsOnly};
ghost use Rattle.part_tree.specs.Ranges.{Ascends};
ghost use Rattle.opendml_index.specs.Checks.{EndInside};
ghost use Rattle.avi_file.specs.Entries.{AreWhole, Counts, CountsChunks, IsWhole, ReadsEntries, chunk_count, chunk_tests, fault_of};
ghost use Rattle.avi_file.specs.Indexes.{AreSound, table_at};

use crate::index::IndexChunk;
use crate::map::OldIndex;
use avi_index::{check_idx1, entry_base};
use me_disk::Depot;
use opendml_index::check_standard;
use part_tree::{IndexFault, ReadFault, Span, Why};

// Why the file isn't read, for a fault of an entry of the index whose header stands at a place.
fn entry_fault(at: u64, fault: IndexFault) -> ReadFault
    ensures { result ≡ fault_of at fault }
{
    match fault {
        IndexFault::NoBase => ReadFault::Why(Why::IndexBase),
        IndexFault::Astray { entry } => ReadFault::Why(Why::IndexAstray { at, entry }),
        IndexFault::Overlap { entry: _ } => ReadFault::Why(Why::IndexOverlap { at }),
        IndexFault::Depot => ReadFault::Depot,
    }
}

// How many entries of an index chunk are counted, or why the file is refused. Those of a super index aren't.
fn check_chunk<D: Depot>(
    depot: &mut D,
    chunk: &IndexChunk,
    movis: &[Span],
    bodies: &[Span],
) -> Result<u64, ReadFault>
    requires ascend { Ascends 0 movis.now }
    requires bodies_ascend { Ascends 0 bodies.now }
    requires movis { (b : List ℕ) → Holds (D.disk depot.old) b → AllByRecursion (EndInside (length b)) movis.now }
    requires least { 8 ≤ chunk.now.body.at }
    requires whole { (b : List ℕ) → Holds (D.disk depot.old) b → IsWhole b chunk.now }
    ensures entries { (b : List ℕ) → Holds (D.disk depot.old) b
        → Counts (chunk_tests movis.now bodies.now b chunk.now) (chunk_count b chunk.now) result }
    ensures few { IfOk result (λ n. n < 2 ^ 32) }
    ensures reads { ReadsOnly (D.disk depot.old) (D.disk depot.new) }
    ensures cause { result ≡ Err ReadFault.Depot → Rose (D.disk depot.old).faults (D.disk depot.new).faults }
{
    if !chunk.standard {
        return Ok(0);
    }
    let at = chunk.body.at - 8;
    match check_standard(depot, at, movis, bodies) {
        Err(fault) => Err(entry_fault(at, fault)),
        Ok(counted) => Ok(counted),
    }
}

/// How many entries of the standard indexes among these chunks are counted, or why the file is refused: the first entry that
/// doesn't lie in the essence, or has bytes in an index chunk. `movis` and `bodies`, those of the index chunks, ascend, and are
/// searched by halving.
pub fn check_standards<D: Depot>(
    depot: &mut D,
    chunks: &[IndexChunk],
    movis: &[Span],
    bodies: &[Span],
) -> Result<u64, ReadFault>
    requires ascend { Ascends 0 movis.now }
    requires bodies_ascend { Ascends 0 bodies.now }
    requires movis { (b : List ℕ) → Holds (D.disk depot.old) b → AllByRecursion (EndInside (length b)) movis.now }
    requires few { length chunks.now ≤ 65536 }
    requires sound { AreSound chunks.now }
    requires whole { (b : List ℕ) → Holds (D.disk depot.old) b → AreWhole b chunks.now }
    ensures entries { (b : List ℕ) → Holds (D.disk depot.old) b
        → CountsChunks movis.now bodies.now b chunks.now result }
    ensures few { IfOk result (λ n. n ≤ 2 ^ 48) }
    ensures reads { ReadsOnly (D.disk depot.old) (D.disk depot.new) }
    ensures cause { result ≡ Err ReadFault.Depot → Rose (D.disk depot.old).faults (D.disk depot.new).faults }
{
    let mut counted = 0;
    'chunks: for chunk in chunks {
        match check_chunk(depot, chunk, movis, bodies) {
            Err(fault) => return Err(fault),
            Ok(more) => counted += more,
        }
    }
    Ok(counted)
}

/// What the entries of `idx1` count from, and how many are counted, or why the file is refused. `movi` is the body of the first
/// list of that type; `bodies`, those of the index chunks, ascend, and are searched by halving.
pub fn check_old<D: Depot>(
    depot: &mut D,
    idx: Span,
    movi: Span,
    bodies: &[Span],
) -> Result<OldIndex, ReadFault>
    requires bodies_ascend { Ascends 0 bodies.now }
    requires inside { IsInside (idx.at + idx.len) (D.disk depot.old) }
    requires small { idx.at + idx.len < 2 ^ 63 }
    requires least { 8 ≤ idx.at }
    requires movi { IsInside (movi.at + movi.len) (D.disk depot.old) }
    requires movi_small { movi.at + movi.len < 2 ^ 63 }
    ensures entries { (b : List ℕ) → Holds (D.disk depot.old) b
        → ReadsEntries b bodies.now movi (table_at b idx) result }
    ensures body { IfOk result (λ old. old.body ≡ idx) }
    ensures few { IfOk result (λ old. old.counted ≤ idx.len) }
    ensures reads { ReadsOnly (D.disk depot.old) (D.disk depot.new) }
    ensures cause { result ≡ Err ReadFault.Depot → Rose (D.disk depot.old).faults (D.disk depot.new).faults }
{
    let at = idx.at - 8;
    let base = match entry_base(depot, idx, movi, bodies) {
        Err(fault) => return Err(entry_fault(at, fault)),
        Ok(base) => base,
    };
    match check_idx1(depot, idx, movi, base, bodies) {
        Err(fault) => Err(entry_fault(at, fault)),
        Ok(counted) => Ok(OldIndex {
            body: idx,
            base,
            counted,
        }),
    }
}
