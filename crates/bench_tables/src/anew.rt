// A file that is one table, made anew.
ghost use Rattle.std.specs.Prelude.{◌≡◌, ◌+◌, ◌<◌, ◌^◌, ◌∷◌, [], false, IfOk};
ghost use Rattle.me_disk.specs.declared.depot.WorkState.TheVariants.{Closed};
ghost use Rattle.part_tree.specs.Plans.{AddsUp, CanRun};
ghost use Rattle.file_swap.specs.Steps.{bytes_written};
ghost use Rattle.bench_tables.specs.Words.{new_len, rows_named};

use file_swap::Swap;
use me_bytes::NoMemory;
use me_disk::{Depot, DepotFault, Slot};
use part_tree::{Base, Moves, Plan, Segment, Segments, Span, TableForm};
use std::alloc::Global;

// How much further the places go.
const FURTHER: u64 = 4_096;

/// What the bytes of the file are.
#[derive(Clone, Copy, Debug, PartialEq, Eq)]
pub enum Rows {
    /// The rows of a `stco`.
    Chunks,
    /// The entries of an `idx1`.
    Index,
    /// Bytes that stay.
    Copy,
}

/// Why a file isn't made anew.
#[derive(Clone, Copy, Debug, PartialEq, Eq)]
pub enum Fault {
    Memory,
    Depot,
}

impl From<NoMemory> for Fault {
    fn from(_: NoMemory) -> Fault {
        Fault::Memory
    }
}

impl From<DepotFault> for Fault {
    fn from(_: DepotFault) -> Fault {
        Fault::Depot
    }
}

impl Rows {
    /// The rows of this name.
    pub fn named(word: &[u8]) -> Option<Rows>
        ensures { result ≡ rows_named word.now }
    {
        if word == b"chunks".as_slice() {
            Some(Rows::Chunks)
        } else if word == b"index".as_slice() {
            Some(Rows::Index)
        } else if word == b"copy".as_slice() {
            Some(Rows::Copy)
        } else {
            None
        }
    }
}

// The table of the whole rows of a file of so many bytes.
fn segment_of(rows: Rows, len: u64) -> Segment
    requires { len < 2 ^ 63 }
    ensures { AddsUp (new_len rows len) (result ∷ []) }
{
    match rows {
        Rows::Chunks => Segment::Table {
            form: TableForm::Chunks32,
            from: 0,
            rows: len / 4,
        },
        Rows::Index => Segment::Table {
            form: TableForm::Idx1(Base::FileStart),
            from: 0,
            rows: len / 16,
        },
        Rows::Copy => Segment::Copy(Span { at: 0, len }),
    }
}

// How many bytes they have.
fn len_of(rows: Rows, len: u64) -> u64
    ensures { result ≡ new_len rows len }
{
    match rows {
        Rows::Chunks => len / 4 * 4,
        Rows::Index => len / 16 * 16,
        Rows::Copy => len,
    }
}

// The plan that makes the file anew.
fn plan_of(alloc: Global, rows: Rows, len: u64) -> Result<Plan, NoMemory>
    requires { len < 2 ^ 63 }
    ensures can { IfOk result CanRun }
    ensures written { IfOk result (λ p. bytes_written p ≡ new_len rows len) }
{
    let whole = Span {
        at: 0,
        len: 1 << 62,
    };
    let moves = Moves::new(alloc, &[(whole, FURTHER)])?;
    match vec![in alloc; segment_of(rows, len)] {
        Ok(segments) => Ok(Plan::Rewrite {
            new_len: len_of(rows, len),
            moves,
            segments: Segments::new(segments),
        }),
        Err(_) => Err(NoMemory),
    }
}

/// Makes the file in a depot anew, and answers how many bytes were written. The depot tells nothing of what it holds.
pub fn make_anew<D: Depot>(alloc: Global, depot: &mut D, rows: Rows) -> Result<u64, Fault>
    requires silent { (D.disk depot.old).tells ≡ false }
    requires closed { (D.disk depot.old).work_state ≡ Closed }
    ensures { IfOk result (λ n. (D.disk depot.new).written ≡ (D.disk depot.old).written + n) }
{
    if !depot.has(Slot::Main)? {
        return Err(Fault::Depot);
    }
    let len = depot.len(Slot::Main)?;
    let plan = plan_of(alloc, rows, len)?;
    let swap = Swap::new(alloc, plan)?;
    swap.run(depot)?;
    Ok(len_of(rows, len))
}
