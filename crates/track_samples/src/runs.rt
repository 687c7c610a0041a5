// The samples in each chunk, by runs of chunks.
ghost use Rattle.std.specs.Prelude.{◌≡◌, ◌≤◌, ◌<◌, ◌+◌, ◌*◌, ◌^◌, ℕ, List, take, drop, IfOk, OnOk};
ghost use Rattle.std.specs.Int.{w32, from_be_bytes};
ghost use Rattle.me_disk.specs.Steps.{HasCause, ReadsOnly};
ghost use Rattle.me_disk.specs.Holds.{Holds, Inside};
ghost use Rattle.me_disk.specs.Windows.{IsWindow};
ghost use Rattle.sample_tables.specs.Samples.{samples_of, start_at_one};
ghost use Rattle.track_samples.specs.Left.{runs_left, runs_of};
ghost use Rattle.track_samples.specs.Places.{RowsLie};

use crate::rows::{Rows, read_narrow};
use me_disk::{Depot, DepotFault, HeaderWindow};

const RUN_BYTES: u64 = 12;

/// The runs of a track that are read in turn: how many were read, and how many samples each chunk of the last one has.
#[derive(Drop)]
pub struct Runs {
    pub window: HeaderWindow,
    pub rows: Rows,
    pub next: u32,
    pub samples: u32,
}

// Whether the first chunks of runs begin at 1 and ascend.
pub fn are_in_order<D: Depot>(
    window: &mut HeaderWindow,
    depot: &mut D,
    rows: Rows,
) -> Result<bool, DepotFault>
    requires lie { RowsLie 12 (D.disk depot.old) rows }
    requires window { IsWindow (D.disk depot.old) window.old }
    ensures order { (b : List ℕ) → Holds (D.disk depot.old) b
        → IfOk result (λ order. order ≡ start_at_one (runs_of b rows)) }
    ensures window { IsWindow (D.disk depot.new) window.new }
    ensures reads { ReadsOnly (D.disk depot.old) (D.disk depot.new) }
    ensures cause { HasCause (D.disk depot.old) (D.disk depot.new) result }
{
    if rows.count == 0 {
        return Ok(false);
    }
    let mut low = read_narrow(window, depot, rows.at, rows.end)?;
    if low != 1 {
        return Ok(false);
    }
    'runs: for row in 1..rows.count {
        let first = read_narrow(
            window,
            depot,
            rows.at + RUN_BYTES * u64::from(row),
            rows.end,
        )?;
        if first <= low {
            return Ok(false);
        }
        low = first;
    }
    Ok(true)
}

impl Runs {
    /// No run is read yet.
    pub fn new(rows: Rows) -> Runs
        ensures rows { result.rows ≡ rows }
        ensures next { result.next ≡ 0 }
        ensures samples { result.samples ≡ 0 }
        ensures from { result.window.from ≡ 0 }
        ensures len { result.window.len ≡ 0 }
    {
        Runs {
            window: HeaderWindow::new(),
            rows,
            next: 0,
            samples: 0,
        }
    }

    /// Reads the runs that begin at this chunk or before it, from 1.
    pub fn go_to<D: Depot>(&mut self, depot: &mut D, chunk: u32) -> Result<(), DepotFault>
        requires lie { RowsLie 12 (D.disk depot.old) self.old.rows }
        requires window { IsWindow (D.disk depot.old) self.old.window }
        requires next { self.old.next ≤ self.old.rows.count }
        ensures ahead { (b : List ℕ) (n : ℕ) → Holds (D.disk depot.old) b → chunk ≤ n
            → OnOk result (samples_of self.old.samples n (runs_left b self.old.rows self.old.next)
            ≡ samples_of self.new.samples n (runs_left b self.new.rows self.new.next)) }
        ensures here { (b : List ℕ) → Holds (D.disk depot.old) b
            → OnOk result (samples_of self.new.samples chunk (runs_left b self.new.rows self.new.next)
            ≡ self.new.samples) }
        ensures rows { self.new.rows ≡ self.old.rows }
        ensures next { self.new.next ≤ self.new.rows.count }
        ensures window { IsWindow (D.disk depot.new) self.new.window }
        ensures reads { ReadsOnly (D.disk depot.old) (D.disk depot.new) }
        ensures cause { HasCause (D.disk depot.old) (D.disk depot.new) result }
    {
        'runs: while self.next < self.rows.count {
            let at = self.rows.at + RUN_BYTES * u64::from(self.next);
            let first = read_narrow(&mut self.window, depot, at, self.rows.end)?;
            if first > chunk {
                return Ok(());
            }
            let samples = read_narrow(&mut self.window, depot, at + 4, self.rows.end)?;
            self.samples = samples;
            self.next += 1;
        }
        Ok(())
    }
}
