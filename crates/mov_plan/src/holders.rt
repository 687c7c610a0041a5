// The headers of the atoms in which tables of chunk places stand that become wider.
ghost use Rattle.std.specs.Prelude.{◌≡◌, ◌≤◌, ◌<◌, ◌+◌, ◌-◌, ◌^◌, ℕ, length, map, take, slice_index, sum_by, vec_len, IfOk, OnOk};
ghost use Rattle.std.specs.List.{AllByRecursion};
ghost use Rattle.mov_plan.specs.Holders.{TablesAscend, begun_by, cuts_before, grown_by, grown_within, head_in, head_of, kind_after, put_all, put_cut as put_by};
ghost use Rattle.mov_plan.specs.Made.{IsKept};

use crate::tables::TableAt;
use crate::user::put_header;
use part_tree::{Bytes, FourCc, NoMemory, Span};
use qt_atoms::AtomAt;
use std::alloc::Global;
use unit_plan::CutAt;

const MOST_BODY: u64 = 2_147_483_647;

// By how many bytes a table grows where its rows get eight bytes.
fn grown(table: &TableAt) -> u64
    ensures { result ≡ grown_by table.now }
{
    if table.wide {
        0
    } else {
        4 * u64::from(table.rows)
    }
}

/// By how many bytes tables grow together where those of four bytes get eight.
pub fn growth(tables: &[TableAt]) -> Result<u64, NoMemory>
    ensures { IfOk result (λ n. n ≡ sum_by grown_by tables.now) }
{
    let mut sum = 0_u64;
    'tables: for table in tables {
        let Some(next) = sum.checked_add(grown(table)) else {
            return Err(NoMemory);
        };
        sum = next;
    }
    Ok(sum)
}

// By how many bytes the first so many tables grow, for each number of tables.
fn growths(alloc: Global, tables: &[TableAt]) -> Result<Vec<u64>, NoMemory>
    ensures len { IfOk result (λ sums. vec_len sums ≡ length tables.now + 1) }
    ensures sums { IfOk result (λ sums. (k : ℕ) → k ≤ length tables.now
        → slice_index sums.items k ≡ sum_by grown_by (take k tables.now)) }
{
    let mut sums = Vec::new(alloc);
    let mut sum = 0_u64;
    'tables: for table in tables {
        match sums.push(sum) {
            Ok(()) => {}
            Err(_) => return Err(NoMemory),
        }
        let Some(next) = sum.checked_add(grown(table)) else {
            return Err(NoMemory);
        };
        sum = next;
    }
    match sums.push(sum) {
        Ok(()) => Ok(sums),
        Err(_) => Err(NoMemory),
    }
}

// How many of the tables begin before a place.
fn begun(tables: &[TableAt], place: u64) -> usize
    ensures bound { result ≤ length tables.now }
    ensures count { TablesAscend tables.now → result ≡ begun_by place tables.now }
{
    tables.partition_point(|table| table.at < place)
}

// By how many bytes the tables in an atom grow, by what the first so many grow by.
fn grown_in(sums: &[u64], tables: &[TableAt], atom: &AtomAt) -> u64
    requires len { length sums.now ≡ length tables.now + 1 }
    requires sums { (k : ℕ) → k ≤ length tables.now → slice_index sums.now k ≡ sum_by grown_by (take k tables.now) }
    ensures { TablesAscend tables.now → result ≡ grown_within atom.now.at atom.now.next tables.now }
{
    let first = begun(tables, atom.at);
    let last = begun(tables, atom.next);
    sums[last].saturating_sub(sums[first])
}

// The type of an atom, where `stco` becomes `co64`.
fn new_kind(kind: FourCc) -> FourCc
    ensures { result.0 ≡ kind_after kind.0 }
{
    if kind.is(b"stco") {
        FourCc(*b"co64")
    } else {
        kind
    }
}

// The header of an atom that grows by so many bytes.
fn head_cut(alloc: Global, atom: &AtomAt, grown: u64) -> Result<CutAt, NoMemory>
    ensures { IfOk result (λ cut. cut ≡ head_of grown atom.now) }
{
    let Some(len) = atom.body.len.checked_add(grown) else {
        return Err(NoMemory);
    };
    if len > MOST_BODY {
        return Err(NoMemory);
    }
    let mut bytes = Vec::new(alloc);
    put_header(&mut bytes, atom.form, new_kind(atom.kind), len)?;
    Ok(CutAt {
        span: Span {
            at: atom.at,
            len: atom.form.header_len(),
        },
        bytes: Bytes::of(bytes),
        keep: 0,
    })
}

// The headers of atoms that hold tables, each with what these grow by.
fn head_cuts(alloc: Global, holders: &[AtomAt], tables: &[TableAt]) -> Result<Vec<CutAt>, NoMemory>
    ensures heads { IfOk result (λ cuts. TablesAscend tables.now → cuts.items ≡ map (head_in tables.now) holders.now) }
    ensures kept { IfOk result (λ cuts. AllByRecursion IsKept cuts.items) }
{
    let sums = growths(alloc, tables)?;
    let mut cuts = Vec::new(alloc);
    'holders: for holder in holders {
        let grown = grown_in(sums.as_slice(), tables, holder);
        match cuts.push(head_cut(alloc, holder, grown)?) {
            Ok(()) => {}
            Err(_) => return Err(NoMemory),
        }
    }
    Ok(cuts)
}

// How many spans stand before the first one that begins at a place or behind it.
fn before(cuts: &[CutAt], place: u64) -> usize
    ensures count { result ≡ cuts_before place cuts.now }
    ensures bound { result ≤ length cuts.now }
{
    'cuts: for (k, cut) in cuts.iter().enumerate() {
        if cut.span.at >= place {
            return k;
        }
    }
    cuts.len()
}

// One span more among others: behind those that begin before it.
fn put_cut(cuts: &mut Vec<CutAt>, cut: CutAt) -> Result<(), NoMemory>
    ensures { OnOk result (cuts.new.items ≡ put_by cut cuts.old.items) }
{
    let place = before(cuts.as_slice(), cut.span.at);
    match cuts.insert(place, cut) {
        Err(_) => Err(NoMemory),
        Ok(()) => Ok(()),
    }
}

/// The spans of an edit in which tables are widened: those of the units, and the headers of the atoms that hold the tables, in
/// reading order, the tables of four bytes themselves among them.
pub fn widened_cuts(
    alloc: Global,
    holders: &[AtomAt],
    tables: &[TableAt],
    units: Vec<CutAt>,
) -> Result<Vec<CutAt>, NoMemory>
    requires { AllByRecursion IsKept units.items }
    ensures cuts { IfOk result (λ cuts. TablesAscend tables.now
        → cuts.items ≡ put_all units.items (map (head_in tables.now) holders.now)) }
    ensures kept { IfOk result (λ cuts. AllByRecursion IsKept cuts.items) }
{
    let mut units = units;
    let mut cuts = head_cuts(alloc, holders, tables)?;
    'units: while let Some(unit) = units.pop() {
        put_cut(&mut cuts, unit)?;
    }
    Ok(cuts)
}
