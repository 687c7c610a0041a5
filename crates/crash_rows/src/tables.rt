// A worked rewrite with tables: an `idx1` that counts from the start of the file, a standard index with two fields, and chunk
// places of two pages, before the bytes that they name.
ghost use Rattle.std.specs.Prelude.{◌≡◌, ◌≢◌, ◌*◌, ◌≤◌, IfOk, IfSome, IsTrue, length, Some, None};
ghost use Rattle.me_disk.specs.Disk.{Leaves, Only, bytes_of, plain, read_as};
ghost use Rattle.me_disk.specs.Memory.{memory_disk};
ghost use Rattle.edit_journal.specs.Settled.{Stands, StandsAlone};
ghost use Rattle.part_tree.specs.declared.table.TableForm.TheVariants.{Widen};
ghost use Rattle.part_tree.specs.Plans.{Belongs, applied};
ghost use Rattle.part_tree.specs.Tables.{HasBase, RowsNamed, width};
ghost use Rattle.relocator.specs.Pages.{count};
ghost use Rattle.file_swap.specs.Midway.{SettlesEither};
ghost use Rattle.file_swap.specs.Swap.{fresh};
ghost use Rattle.crash_rows.specs.Tables.{gone, parts, tables};

use crate::runs::reopened;
use file_swap::Swap;
use me_bytes::{put_be32, put_le32};
use me_disk::{Depot, FailAt, MemoryDepot, Pick, Room};
use part_tree::{
    Base, Bytes, FourCc, IndexHead, Moves, NoMemory, Plan, Segment, Segments, Span, TableForm,
};
use relocator::relocate_page;
use std::alloc::Global;

// Where the bytes begin that the tables name.
const ESSENCE: u32 = 16_476;

// The base of the offsets of the standard index, which doesn't move.
const BASE: u32 = 16_000;

// One chunk more than a page has.
const CHUNKS: u32 = 4_097;

pub(crate) const HEAD: IndexHead = IndexHead {
    longs: 3,
    two_fields: true,
    standard: true,
    used: 2,
    id: FourCc(*b"00dc"),
    base: 16_000,
};

pub(crate) const MORE: [u8; 8] = *b"++++++++";

const ENOUGH: Room = Room {
    calls: 100,
    bytes: 100_000,
};

fn put_numbers(alloc: Global, file: &mut Vec<u8>, numbers: &[u32]) -> Result<(), NoMemory> {
    for n in numbers {
        put_le32(alloc, file, *n)?;
    }
    Ok(())
}

// The rows of `idx1` and of the standard index, the last one of each without bytes.
fn put_indexes(alloc: Global, file: &mut Vec<u8>, essence: u32) -> Result<(), NoMemory>
    requires { (16476 ≤ essence) × (essence ≤ 16484) }
{
    let id = 0x6364_3030;
    put_numbers(alloc, file, &[id, 16, essence, 8])?;
    put_numbers(alloc, file, &[id, 0, essence + 8, 8])?;
    put_numbers(alloc, file, &[id, 0, ESSENCE, 0])?;
    put_numbers(alloc, file, &[essence + 16 - BASE, 8, essence + 20 - BASE])?;
    put_numbers(alloc, file, &[ESSENCE - BASE, 0, 5])
}

/// The file with these bytes before its tables, which name the place where its last 40 bytes stand then.
pub fn tables_file(alloc: Global, more: &[u8]) -> Result<Vec<u8>, NoMemory>
    requires { length more.now ≤ 8 }
{
    let essence = ESSENCE + more.len() as u32;
    let mut file = b"tables in a file".to_vec(alloc)?;
    file.extend_from_slice(more)?;
    put_indexes(alloc, &mut file, essence)?;
    for k in 0..CHUNKS {
        put_be32(alloc, &mut file, essence + k % 40)?;
    }
    for k in 0..40 {
        file.extend_from_slice(&[k])?;
    }
    Ok(file)
}

/// The bytes that the rewrite puts before the tables.
pub fn more_bytes() -> &'static [u8]
    ensures { length result.now ≡ 8 }
{
    &MORE
}

fn moves(alloc: Global) -> Result<Moves, NoMemory>
    ensures { IfOk result (λ m. m ≡ gone) }
{
    let essence = Span {
        at: 16_476,
        len: 40,
    };
    Moves::new(alloc, &[(essence, 16_484)])
}

fn table(form: TableForm, from: u64, rows: u64) -> Segment
    ensures { result ≡ Segment.Table form from rows }
{
    Segment::Table { form, from, rows }
}

fn segments(alloc: Global) -> Result<Vec<Segment>, NoMemory>
    ensures { IfOk result (λ ss. ss.items ≡ parts) }
{
    let head = Segment::Copy(Span { at: 0, len: 16 });
    let more = Segment::Literal(Bytes::of(MORE.to_vec(alloc)?));
    let idx1 = table(TableForm::Idx1(Base::FileStart), 16, 3);
    let form = TableForm::Standard {
        old: HEAD,
        new_base: 16_000,
    };
    let standard = table(form, 64, 2);
    let chunks = table(TableForm::Chunks32, 88, 4_097);
    let essence = Segment::Copy(Span {
        at: 16_476,
        len: 40,
    });
    let all = vec![in alloc; head, more, idx1, standard, chunks, essence];
    all.or(Err(NoMemory))
}

/// The swap of the rewrite.
pub fn tables_swap(alloc: Global) -> Result<Swap, NoMemory>
    ensures { IfOk result (λ s. s ≡ fresh tables) }
{
    let segments = segments(alloc)?;
    let moves = moves(alloc)?;
    let plan = Plan::Rewrite {
        new_len: 16_524,
        moves,
        segments: Segments::new(segments),
    };
    Swap::new(alloc, plan)
}

// Whether these rows can name all their new places.
fn are_named(alloc: Global, form: &TableForm, rows: &[u8], moves: &Moves) -> Result<bool, NoMemory>
    requires narrow { form.now ≢ Widen }
    requires base { HasBase form.now }
    requires whole { length rows.now ≡ width form.now * count form.now rows.now }
    ensures { IfOk result (λ ok. IsTrue ok → RowsNamed moves.now form.now (count form.now rows.now) rows.now) }
{
    let mut page = rows.to_vec(alloc)?;
    Ok(relocate_page(form, &mut page, 0, moves).is_ok())
}

fn all_are(first: bool, second: bool, third: bool) -> bool
    ensures { IsTrue result → IsTrue first × IsTrue second × IsTrue third }
{
    first && second && third
}

/// Whether the rewrite is a plan for this file.
pub fn is_for(alloc: Global, file: &[u8]) -> Result<bool, NoMemory>
    ensures { IfOk result (λ ok. IsTrue ok → Belongs tables file.now) }
{
    if file.len() != 16_516 {
        return Ok(false);
    }
    let moves = moves(alloc)?;
    let form = TableForm::Standard {
        old: HEAD,
        new_base: 16_000,
    };
    let idx1 = are_named(
        alloc,
        &TableForm::Idx1(Base::FileStart),
        &file[16..64],
        &moves,
    )?;
    let standard = are_named(alloc, &form, &file[64..88], &moves)?;
    let chunks = are_named(alloc, &TableForm::Chunks32, &file[88..16_476], &moves)?;
    Ok(all_are(idx1, standard, chunks))
}

/// Runs the rewrite, and says whether it was done.
pub fn run_tables<D: Depot>(depot: &mut D, swap: Swap) -> bool
    requires swap { swap ≡ fresh tables }
    requires stands { Stands (bytes_of (D.disk depot.old).slots.main) (D.disk depot.old) }
    requires belongs { IsTrue (D.disk depot.old).tells → Belongs tables (bytes_of (D.disk depot.old).slots.main) }
    ensures done { IsTrue result → Stands (applied tables (bytes_of (D.disk depot.old).slots.main))
        (D.disk depot.new) }
    ensures alone { StandsAlone (bytes_of (D.disk depot.old).slots.main) (D.disk depot.old) → IsTrue result
        → StandsAlone (applied tables (bytes_of (D.disk depot.old).slots.main)) (D.disk depot.new) }
    ensures crash { Only (plain (Some (bytes_of (D.disk depot.old).slots.main))) (D.disk depot.old) → Leaves
        (SettlesEither (bytes_of (D.disk depot.old).slots.main)
        (applied tables (bytes_of (D.disk depot.old).slots.main))) (D.disk depot.old) (D.disk depot.new) }
{
    swap.run(depot).is_ok()
}

/// The rewrite of the file, of which these calls fail, stopped after n calls and opened again, and whether it was done. None
/// where the rewrite is no plan for the file.
pub fn stopped_tables(
    alloc: Global,
    n: u64,
    failing: Vec<FailAt>,
    pick: Pick,
) -> Result<Option<(MemoryDepot, bool)>, NoMemory>
    ensures { IfOk result (λ o. IfSome o (λ run. Only (read_as (memory_disk run.0).slots) (memory_disk run.0))) }
{
    let file = tables_file(alloc, &[])?;
    if !is_for(alloc, &file)? {
        return Ok(None);
    }
    let mut depot = MemoryDepot::new(alloc, Some(file), None, ENOUGH, failing)?;
    let swap = tables_swap(alloc)?;
    depot.stop_after(n);
    let done = run_tables(&mut depot, swap);
    Ok(Some((reopened(depot, pick), done)))
}
