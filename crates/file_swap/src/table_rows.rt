// Pages of the rows of a table.
ghost use Rattle.std.specs.Prelude.{◌≡◌, ◌+◌, ◌*◌, ◌≤◌, ◌<◌, ◌^◌, length, take};
ghost use Rattle.me_disk.specs.Calls.{Allows};
ghost use Rattle.me_disk.specs.Calls.Call.{AppendWork};
ghost use Rattle.me_disk.specs.Steps.{Counted, Does};
ghost use Rattle.part_tree.specs.Tables.{HasBase, new_width, relocated, width};
ghost use Rattle.file_swap.specs.Parts.{table_of};

use me_disk::{Depot, DepotFault};
use part_tree::{Moves, Segment, TableForm};
use relocator::{relocate_rows, widen_chunks};

/// The most rows that one call reads.
pub(crate) const PAGE: u64 = 4_096;

/// So many rows of a table that begins at a place of the old file.
#[derive(Clone, Copy)]
pub(crate) struct TableRows {
    pub(crate) form: TableForm,
    pub(crate) from: u64,
    pub(crate) rows: u64,
}

impl TableRows {
    /// The place of a row.
    pub(crate) fn place(&self, row: u64) -> u64
        ensures { self.now.from + width self.now.form * row < 2 ^ 64
            → result ≡ self.now.from + width self.now.form * row }
    {
        let width = self.form.width() as u64;
        self.from.saturating_add(width.saturating_mul(row))
    }
}

// The table that a segment moves, and one of no rows where it moves none.
pub(crate) fn table_in(segment: &Segment) -> TableRows
    ensures { result ≡ table_of segment.now }
{
    match segment {
        Segment::Table { form, from, rows } => TableRows {
            form: *form,
            from: *from,
            rows: *rows,
        },
        _ => TableRows {
            form: TableForm::Chunks32,
            from: 0,
            rows: 0,
        },
    }
}

// Makes a page of so many rows out of these, with their places moved.
fn move_page(form: &TableForm, rows: usize, moves: &Moves, held: &[u8], page: &mut [u8])
    requires base { HasBase form.now }
    requires held { length held.now ≡ width form.now * rows }
    requires page { length page.old ≡ new_width form.now * rows }
    ensures { page.new ≡ relocated moves.now form.now rows held.now }
{
    match form {
        TableForm::Widen => widen_chunks(held, page, moves),
        _ => {
            page.copy_from_slice(held);
            relocate_rows(form, page, moves);
        }
    }
}

// Appends the rows at the front of the buffer with their places moved.
pub(crate) fn append_rows<D: Depot>(
    depot: &mut D,
    form: &TableForm,
    rows: usize,
    moves: &Moves,
    buffer: &[u8],
    moved: &mut [u8],
) -> Result<(), DepotFault>
    requires base { HasBase form.now }
    requires rows { rows ≤ 4096 }
    requires room { 65536 ≤ length buffer.now }
    requires moved_room { 65536 ≤ length moved.old }
    requires allows { Allows (AppendWork (relocated moves.now form.now rows (take (width form.now * rows) buffer.now)))
        (D.disk depot.old) }
    ensures does { Does (AppendWork (relocated moves.now form.now rows (take (width form.now * rows) buffer.now)))
        (D.disk depot.old) (D.disk depot.new) result }
    ensures counted { Counted 1 (D.calls depot.old) (D.calls depot.new) }
{
    let held = &buffer[..form.width() * rows];
    let page = &mut moved[..form.new_width() * rows];
    move_page(form, rows, moves, held, page);
    depot.append_work(page)
}
