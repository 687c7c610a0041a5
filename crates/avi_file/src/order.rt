// The index chunks by place.
ghost use Rattle.std.specs.Prelude.{◌≡◌, ◌+◌, ◌<◌, ℕ, List, IfOk, OnOk, length, map};
ghost use Rattle.std.specs.List.{AllByRecursion};
ghost use Rattle.part_tree.specs.Ranges.{Ascends};
ghost use Rattle.container_model.specs.Tables.{Table};
ghost use Rattle.avi_file.specs.Indexes.{AreSound, kept_of};
ghost use Rattle.avi_file.specs.Order.{IsNamed, Orders, TestsApart, bodies_in, standards_in, supers_in};

use crate::index::IndexChunk;
use part_tree::{NoMemory, ReadFault, Span, Why};
use std::alloc::Global;

// Whether each chunk begins behind the one before it, or why the file is refused.
fn check_apart(chunks: &[IndexChunk]) -> Result<(), ReadFault>
    requires sound { AreSound chunks.now }
    ensures apart { (ts : List Table) → chunks.now ≡ map kept_of ts → TestsApart 0 ts result }
    ensures ascend { OnOk result (Ascends 0 (bodies_in chunks.now)) }
    ensures never { result ≡ Err ReadFault.Depot → ⊥ }
{
    let mut from = 0;
    'chunks: for chunk in chunks {
        if chunk.body.at < from + 8 {
            return Err(ReadFault::Why(Why::IndexOverlap {
                at: chunk.body.at - 8,
            }));
        }
        from = chunk.body.at + chunk.body.len;
    }
    Ok(())
}

/// The chunks by place, none of which overlaps the one before it, or why the file is refused.
pub fn by_place(alloc: Global, chunks: &[IndexChunk]) -> Result<Vec<IndexChunk>, ReadFault>
    requires sound { AreSound chunks.now }
    ensures order { (b : List ℕ) (ts : List Table) → AllByRecursion (IsNamed b) ts → chunks.now ≡ map kept_of ts
        → Orders ts result }
    ensures sound { IfOk result (λ sorted. AreSound sorted.items) }
    ensures ascend { IfOk result (λ sorted. Ascends 0 (bodies_in sorted.items)) }
    ensures same { IfOk result (λ sorted. length sorted.items ≡ length chunks.now) }
    ensures never { result ≡ Err ReadFault.Depot → ⊥ }
{
    let mut sorted = match Vec::from_slice(alloc, chunks) {
        Err(_) => return Err(ReadFault::Memory),
        Ok(sorted) => sorted,
    };
    match sorted.sort_by_key(|chunk| chunk.body.at) {
        Err(_) => return Err(ReadFault::Memory),
        Ok(()) => {}
    }
    match check_apart(&sorted) {
        Err(fault) => Err(fault),
        Ok(()) => Ok(sorted),
    }
}

/// The bodies of the chunks.
pub fn bodies_of(alloc: Global, chunks: &[IndexChunk]) -> Result<Vec<Span>, NoMemory>
    ensures { IfOk result (λ bodies. bodies.items ≡ bodies_in chunks.now) }
{
    let mut bodies = Vec::new(alloc);
    'chunks: for chunk in chunks {
        match bodies.push(chunk.body) {
            Err(_) => return Err(NoMemory),
            Ok(()) => {}
        }
    }
    Ok(bodies)
}

/// The bodies of the standard indexes.
pub fn standards_of(alloc: Global, chunks: &[IndexChunk]) -> Result<Vec<Span>, NoMemory>
    ensures { IfOk result (λ bodies. bodies.items ≡ standards_in chunks.now) }
{
    let mut bodies = Vec::new(alloc);
    'chunks: for chunk in chunks {
        if chunk.standard {
            match bodies.push(chunk.body) {
                Err(_) => return Err(NoMemory),
                Ok(()) => {}
            }
        }
    }
    Ok(bodies)
}

/// The bodies of the super indexes.
pub fn supers_of(alloc: Global, chunks: &[IndexChunk]) -> Result<Vec<Span>, NoMemory>
    ensures { IfOk result (λ bodies. bodies.items ≡ supers_in chunks.now) }
{
    let mut bodies = Vec::new(alloc);
    'chunks: for chunk in chunks {
        if !chunk.standard {
            match bodies.push(chunk.body) {
                Err(_) => return Err(NoMemory),
                Ok(()) => {}
            }
        }
    }
    Ok(bodies)
}
