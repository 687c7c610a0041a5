// The samples of a chunk that fit into a room.
ghost use Rattle.std.specs.Prelude.{◌≡◌, ◌≤◌, ◌<◌, ◌+◌, ◌*◌, ◌/◌, ◌^◌, ℕ, List, length, take, drop, min, IfOk, IfSome, OnOk};
ghost use Rattle.std.specs.Int.{w32, from_be_bytes};
ghost use Rattle.me_disk.specs.Steps.{HasCause, ReadsOnly};
ghost use Rattle.me_disk.specs.Holds.{Holds, Inside};
ghost use Rattle.me_disk.specs.Windows.{IsWindow};
ghost use Rattle.container_model.specs.Rows.{be32, numbers};
ghost use Rattle.container_model.specs.Written.{slice};
ghost use Rattle.sample_tables.specs.Counts.{size_rows_by};
ghost use Rattle.track_samples.specs.Left.{fitting, sizes_left};
ghost use Rattle.track_samples.specs.Places.{AreSizes, Lies, RowsLie, SizesLie};

use crate::rows::{Rows, read_narrow};
use me_disk::{Depot, DepotFault, HeaderWindow};
use part_tree::Span;

const SIZE_BYTES: u64 = 4;

/// A table of sizes: one size of all samples, or 0 and a row for each.
#[derive(Clone, Copy, Debug, PartialEq, Eq)]
pub struct SizeTable {
    pub common: u32,
    pub rows: Rows,
}

/// The sizes of a track that are read in turn, and how many were taken.
#[derive(Drop)]
pub struct Sizes {
    pub window: HeaderWindow,
    pub table: SizeTable,
    pub next: u32,
}

/// The table of sizes with this body; none where it is too short for its rows.
pub fn sizes_in<D: Depot>(
    window: &mut HeaderWindow,
    depot: &mut D,
    body: Span,
) -> Result<SizeTable, DepotFault>
    requires lies { Lies (D.disk depot.old) body }
    requires window { IsWindow (D.disk depot.old) window.old }
    ensures sizes { (b : List ℕ) → Holds (D.disk depot.old) b
        → IfOk result (λ sizes. AreSizes (slice b body.at body.len) body (size_rows_by (slice b body.at body.len))
        sizes) }
    ensures lie { IfOk result (λ sizes. SizesLie (D.disk depot.new) sizes) }
    ensures window { IsWindow (D.disk depot.new) window.new }
    ensures reads { ReadsOnly (D.disk depot.old) (D.disk depot.new) }
    ensures cause { HasCause (D.disk depot.old) (D.disk depot.new) result }
{
    let end = body.at + body.len;
    if body.len < 12 {
        return Ok(no_sizes(end));
    }
    let common = read_narrow(window, depot, body.at + 4, end)?;
    let count = read_narrow(window, depot, body.at + 8, end)?;
    if common == 0 && body.len < 12 + SIZE_BYTES * u64::from(count) {
        return Ok(no_sizes(end));
    }
    Ok(SizeTable {
        common,
        rows: Rows {
            at: body.at + 12,
            count,
            end,
        },
    })
}

/// A table without sizes.
pub fn no_sizes(end: u64) -> SizeTable
    ensures common { result.common ≡ 0 }
    ensures count { result.rows.count ≡ 0 }
    ensures at { result.rows.at ≡ end }
    ensures end { result.rows.end ≡ end }
{
    SizeTable {
        common: 0,
        rows: Rows {
            at: end,
            count: 0,
            end,
        },
    }
}

// How many of so many sizes, from a place on, fit into a room.
fn fit_each<D: Depot>(
    window: &mut HeaderWindow,
    depot: &mut D,
    at: u64,
    count: u32,
    end: u64,
    room: u64,
) -> Result<u32, DepotFault>
    requires inside { Inside end (D.disk depot.old) }
    requires small { end < 2 ^ 63 }
    requires rows { at + 4 * count ≤ end }
    requires window { IsWindow (D.disk depot.old) window.old }
    ensures fit { (b : List ℕ) → Holds (D.disk depot.old) b
        → IfOk result (λ n. n ≡ fitting count (numbers be32 count (drop at b)) room) }
    ensures few { IfOk result (λ n. n ≤ count) }
    ensures window { IsWindow (D.disk depot.new) window.new }
    ensures reads { ReadsOnly (D.disk depot.old) (D.disk depot.new) }
    ensures cause { HasCause (D.disk depot.old) (D.disk depot.new) result }
{
    let mut left = room;
    'sizes: for row in 0..count {
        let size = read_narrow(window, depot, at + SIZE_BYTES * u64::from(row), end)?;
        let bytes = u64::from(size);
        if bytes > left {
            return Ok(row);
        }
        left -= bytes;
    }
    Ok(count)
}

// How many of so many samples of one size fit into a room.
fn fit_common(common: u32, count: u32, room: u64) -> u32
    requires { 0 < common }
    ensures fit { result ≡ min count (room / common) }
    ensures few { result ≤ count }
{
    u64::from(count).min(room / u64::from(common)) as u32
}

impl Sizes {
    /// No size is taken yet.
    pub fn new(table: SizeTable) -> Sizes
        ensures table { result.table ≡ table }
        ensures next { result.next ≡ 0 }
        ensures from { result.window.from ≡ 0 }
        ensures len { result.window.len ≡ 0 }
    {
        Sizes {
            window: HeaderWindow::new(),
            table,
            next: 0,
        }
    }

    // How many of the next sizes fit into a room.
    fn fit<D: Depot>(&mut self, depot: &mut D, count: u32, room: u64) -> Result<u32, DepotFault>
        requires lie { SizesLie (D.disk depot.old) self.old.table }
        requires window { IsWindow (D.disk depot.old) self.old.window }
        requires count { self.old.next + count ≤ self.old.table.rows.count }
        ensures fit { (b : List ℕ) → Holds (D.disk depot.old) b
            → IfOk result (λ n. n ≡ fitting count (sizes_left b self.old.table self.old.next) room) }
        ensures few { IfOk result (λ n. n ≤ count) }
        ensures table { self.new.table ≡ self.old.table }
        ensures next { self.new.next ≡ self.old.next }
        ensures window { IsWindow (D.disk depot.new) self.new.window }
        ensures reads { ReadsOnly (D.disk depot.old) (D.disk depot.new) }
        ensures cause { HasCause (D.disk depot.old) (D.disk depot.new) result }
    {
        if self.table.common > 0 {
            return Ok(fit_common(self.table.common, count, room));
        }
        let rows = self.table.rows;
        let at = rows.at + SIZE_BYTES * u64::from(self.next);
        fit_each(&mut self.window, depot, at, count, rows.end, room)
    }

    /// Takes the sizes of the next so many samples, or of those that there are, and counts those that fit into a room.
    pub fn take_next<D: Depot>(
        &mut self,
        depot: &mut D,
        samples: u32,
        room: u64,
    ) -> Result<u32, DepotFault>
        requires lie { SizesLie (D.disk depot.old) self.old.table }
        requires window { IsWindow (D.disk depot.old) self.old.window }
        requires next { self.old.next ≤ self.old.table.rows.count }
        ensures fit { (b : List ℕ) → Holds (D.disk depot.old) b
            → IfOk result (λ n. n ≡ fitting samples (sizes_left b self.old.table self.old.next) room) }
        ensures left { (b : List ℕ) → OnOk result (sizes_left b self.new.table self.new.next
            ≡ drop samples (sizes_left b self.old.table self.old.next)) }
        ensures few { IfOk result (λ n. self.old.next + n ≤ self.new.next) }
        ensures small { IfOk result (λ n. self.old.next + n < 2 ^ 32) }
        ensures table { self.new.table ≡ self.old.table }
        ensures next { self.new.next ≤ self.new.table.rows.count }
        ensures window { IsWindow (D.disk depot.new) self.new.window }
        ensures reads { ReadsOnly (D.disk depot.old) (D.disk depot.new) }
        ensures cause { HasCause (D.disk depot.old) (D.disk depot.new) result }
    {
        let count = samples.min(self.table.rows.count - self.next);
        let fits = self.fit(depot, count, room)?;
        self.next += count;
        Ok(fits)
    }
}
