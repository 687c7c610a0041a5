// The tables of an AVI file, by place.
ghost use Rattle.std.specs.Prelude.{◌≡◌, ◌≤◌, ◌++◌, ℕ, List, IfOk, OnOk, length, map};
ghost use Rattle.avi_file.specs.Indexes.{kept_of};
ghost use Rattle.avi_file.specs.Map.{IsMapOf};
ghost use Rattle.avi_model.specs.Index.{indexes};
ghost use Rattle.avi_model.specs.Support.{by_place};
ghost use Rattle.avi_plan.specs.Tables.{AreTables};
ghost use Rattle.edit_planner.specs.TablesAt.{chunks_of, number_behind, old_at, put_table, told_chunk};

use avi_file::{AviMap, IndexChunk, OldIndex};
use avi_plan::{TableAt, TableKind};
use part_tree::{NoMemory, Span};
use std::alloc::Global;

// The index chunks with these bodies more, which are of one kind.
fn push_chunks(
    chunks: &mut Vec<IndexChunk>,
    bodies: &[Span],
    standard: bool,
) -> Result<(), NoMemory>
    ensures { OnOk result (chunks.new.items ≡ chunks.old.items ++ chunks_of standard bodies.now) }
{
    'bodies: for body in bodies {
        let body = *body;
        match chunks.push(IndexChunk { body, standard }) {
            Err(_) => return Err(NoMemory),
            Ok(()) => {}
        }
    }
    Ok(())
}

// The index chunks of a file whose map this is, by place.
fn sorted_chunks(alloc: Global, avi: &AviMap) -> Result<Vec<IndexChunk>, NoMemory>
    ensures { (b : List ℕ) → IsMapOf b avi.now
        → IfOk result (λ chunks. chunks.items ≡ map kept_of (by_place (indexes b))) }
{
    let mut chunks = Vec::new(alloc);
    push_chunks(&mut chunks, &avi.supers, false)?;
    push_chunks(&mut chunks, &avi.standards, true)?;
    match chunks.sort_by_key(|chunk| chunk.body.at) {
        Err(_) => Err(NoMemory),
        Ok(()) => Ok(chunks),
    }
}

// An index chunk as a table.
fn table_of(chunk: &IndexChunk) -> TableAt
    ensures { result ≡ told_chunk chunk.now }
{
    let kind = if chunk.standard {
        TableKind::Standard
    } else {
        TableKind::Super
    };
    TableAt {
        body: chunk.body,
        kind,
    }
}

// Index chunks as tables.
fn tables_in(alloc: Global, chunks: &[IndexChunk]) -> Result<Vec<TableAt>, NoMemory>
    ensures { IfOk result (λ tables. tables.items ≡ map told_chunk chunks.now) }
{
    let mut tables = Vec::new(alloc);
    'chunks: for chunk in chunks {
        match tables.push(table_of(chunk)) {
            Err(_) => return Err(NoMemory),
            Ok(()) => {}
        }
    }
    Ok(tables)
}

// The number of the first table that begins at a byte or behind it.
fn place_for(tables: &[TableAt], end: u64) -> usize
    ensures place { result ≡ number_behind end tables.now }
    ensures inside { result ≤ length tables.now }
{
    let mut k = 0;
    'tables: for table in tables {
        if end <= table.body.at {
            return k;
        }
        k += 1;
    }
    k
}

// Puts `idx1` before the first table that begins at its end or behind it. There is no memory for one whose end 64 bits don't tell.
fn put_old(tables: &mut Vec<TableAt>, old: &OldIndex) -> Result<(), NoMemory>
    ensures { OnOk result (tables.new.items ≡ put_table (old_at old.now) tables.old.items) }
{
    let Some(end) = old.body.at.checked_add(old.body.len) else {
        return Err(NoMemory);
    };
    let k = place_for(tables, end);
    let table = TableAt {
        body: old.body,
        kind: TableKind::Old(old.base),
    };
    match tables.insert(k, table) {
        Err(_) => Err(NoMemory),
        Ok(()) => Ok(()),
    }
}

/// The tables of an AVI file whose map this is, by place: `idx1`, and the super and the standard indexes.
pub fn tables_of(alloc: Global, avi: &AviMap) -> Result<Vec<TableAt>, NoMemory>
    ensures { (b : List ℕ) → IsMapOf b avi.now → IfOk result (λ tables. AreTables b tables.items) }
{
    let chunks = sorted_chunks(alloc, avi)?;
    let mut tables = tables_in(alloc, &chunks)?;
    match &avi.idx1 {
        None => Ok(tables),
        Some(old) => {
            put_old(&mut tables, old)?;
            Ok(tables)
        }
    }
}
