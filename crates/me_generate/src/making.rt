// A file made on a depot.
ghost use Rattle.std.specs.Prelude.{◌≡◌, ◌+◌, ◌<◌, ◌^◌, None, length, IsTrue};
ghost use Rattle.me_disk.specs.Disk.{bytes_of};
ghost use Rattle.me_disk.specs.declared.depot.WorkState.TheVariants.{Open};
ghost use Rattle.me_generate.specs.Makes.{Adds, Installs, Makes};
ghost use Rattle.me_generate.specs.Rows.{HasRows, rows};
ghost use Rattle.me_generate.specs.Stated.{IsMade, stated, whole};

use crate::rows::{Row, put_rows};
use crate::shape::{Shape, len_of, shape_of};
use me_bytes::NoMemory;
use me_disk::{Depot, DepotFault};
use part_tree::Kind;
use std::alloc::Global;

/// Why no file was made.
#[derive(Clone, Copy, Debug, PartialEq, Eq)]
pub enum MakeFault {
    /// A call of the depot failed, and was counted.
    Depot,
    Memory,
}

impl From<DepotFault> for MakeFault {
    ghost use Rattle.std.specs.Prelude.{◌≡◌};
    ghost use Rattle.me_generate.specs.declared.making.MakeFault.TheVariants as fault;

    ghost from_gives = { λ _ e. e ≡ fault.Depot };

    fn from(_: DepotFault) -> MakeFault {
        MakeFault::Depot
    }
}

impl From<NoMemory> for MakeFault {
    ghost use Rattle.std.specs.Prelude.{◌≡◌};
    ghost use Rattle.me_generate.specs.declared.making.MakeFault.TheVariants as fault;

    ghost from_gives = { λ _ e. e ≡ fault.Memory };

    fn from(_: NoMemory) -> MakeFault {
        MakeFault::Memory
    }
}

// Appends bytes.
fn append<D: Depot>(depot: &mut D, bytes: &[u8]) -> Result<(), MakeFault>
    requires open { (D.disk depot.old).work_state ≡ Open }
    requires fits { IsTrue (D.disk depot.old).tells
        → length (bytes_of (D.disk depot.old).slots.work) + length bytes.now < 2 ^ 63 }
    ensures { Adds bytes.now (D.disk depot.old) (D.disk depot.new) result }
{
    match depot.append_work(bytes) {
        Ok(()) => Ok(()),
        Err(_) => Err(MakeFault::Depot),
    }
}

// Appends the rows of the first `n` numbers, page by page.
fn append_rows<D: Depot>(
    alloc: Global,
    depot: &mut D,
    page: &mut Vec<u8>,
    row: Row,
    n: u64,
) -> Result<(), MakeFault>
    requires rows { HasRows row n }
    requires open { (D.disk depot.old).work_state ≡ Open }
    requires fits { IsTrue (D.disk depot.old).tells
        → length (bytes_of (D.disk depot.old).slots.work) + length (rows row n) < 2 ^ 63 }
    ensures { Adds (rows row n) (D.disk depot.old) (D.disk depot.new) result }
{
    let mut first = 0;
    'pages: while first < n {
        let end = first + row.page().min(n - first);
        page.clear();
        put_rows(alloc, page, row, first, end)?;
        append(depot, page)?;
        first = end;
    }
    Ok(())
}

// Appends a file.
fn append_all<D: Depot>(
    alloc: Global,
    depot: &mut D,
    shape: &Shape,
    n: u64,
) -> Result<(), MakeFault>
    requires first { HasRows shape.now.first n }
    requires last { HasRows shape.now.last shape.now.lasts }
    requires open { (D.disk depot.old).work_state ≡ Open }
    requires fits { IsTrue (D.disk depot.old).tells
        → length (bytes_of (D.disk depot.old).slots.work) + length (whole shape.now n) < 2 ^ 63 }
    ensures { Adds (whole shape.now n) (D.disk depot.old) (D.disk depot.new) result }
{
    let mut page = Vec::new(alloc);
    append(depot, shape.head.as_slice())?;
    append_rows(alloc, depot, &mut page, shape.first, n)?;
    append(depot, shape.middle.as_slice())?;
    append_rows(alloc, depot, &mut page, shape.last, shape.lasts)
}

// Makes the new file safe, and gives it its name.
fn install<D: Depot>(depot: &mut D) -> Result<(), MakeFault>
    requires { (D.disk depot.old).work_state ≡ Open }
    ensures { Installs (D.disk depot.old) (D.disk depot.new) result }
{
    depot.sync_work()?;
    depot.install_main()?;
    Ok(())
}

/// Makes the file of a number, and returns its length. A crash leaves no file or the whole one.
///
/// # Errors
///
/// `Depot` only where the depot's count of faults rose; `Memory` where there was none.
pub fn make<D: Depot>(alloc: Global, depot: &mut D, kind: Kind, n: u64) -> Result<u64, MakeFault>
    requires number { IsMade kind n }
    requires absent { IsTrue (D.disk depot.old).tells → (D.disk depot.old).slots.main ≡ None }
    ensures { Makes (stated kind n) (D.disk depot.old) (D.disk depot.new) result }
{
    let shape = shape_of(alloc, kind, n)?;
    depot.begin_work()?;
    append_all(alloc, depot, &shape, n)?;
    install(depot)?;
    Ok(len_of(kind, n))
}
