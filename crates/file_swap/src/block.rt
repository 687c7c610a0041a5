// Blocks of bytes, each for one call of a depot.
ghost use Rattle.std.specs.Prelude.{◌≡◌, ◌+◌, ◌-◌, ◌≤◌, ◌<◌, ◌^◌, min, length, take, drop, IsTrue, OnOk};
ghost use Rattle.me_disk.specs.Calls.{Allows};
ghost use Rattle.me_disk.specs.Calls.Call.{AppendWork, WriteMain};
ghost use Rattle.me_disk.specs.Disk.{bytes_of};
ghost use Rattle.me_disk.specs.Steps.{Counted, Does, HasCause, ReadsOnly};
ghost use Rattle.file_swap.specs.Steps.{part, block};

use me_disk::{Depot, DepotFault, Slot};
use part_tree::Patch;

/// The most bytes that one call writes or reads.
pub(crate) const BLOCK: usize = 65_536;

// The block of these bytes that begins at a place in them.
fn block_of(bytes: &[u8], from: usize) -> &[u8]
    requires { from < length bytes.now }
    ensures { result.now ≡ part bytes.now (record { at = from; len = min block (length bytes.now - from) }) }
{
    let n = BLOCK.min(bytes.len() - from);
    &bytes[from..from + n]
}

// Appends a block of these bytes.
pub(crate) fn append_block<D: Depot>(
    depot: &mut D,
    bytes: &[u8],
    from: usize,
) -> Result<(), DepotFault>
    requires from { from < length bytes.now }
    requires allows { Allows
        (AppendWork (part bytes.now (record { at = from; len = min block (length bytes.now - from) })))
        (D.disk depot.old) }
    ensures does { Does (AppendWork (part bytes.now (record { at = from; len = min block (length bytes.now - from) })))
        (D.disk depot.old) (D.disk depot.new) result }
    ensures counted { Counted 1 (D.calls depot.old) (D.calls depot.new) }
{
    depot.append_work(block_of(bytes, from))
}

// Writes a block of this patch.
pub(crate) fn write_block<D: Depot>(depot: &mut D, p: &Patch, from: usize) -> Result<(), DepotFault>
    requires from { from < length p.now.bytes }
    requires fits { p.now.at + length p.now.bytes < 2 ^ 63 }
    requires allows { Allows
        (WriteMain (p.now.at + from)
        (part p.now.bytes (record { at = from; len = min block (length p.now.bytes - from) }))) (D.disk depot.old) }
    ensures does { Does
        (WriteMain (p.now.at + from)
        (part p.now.bytes (record { at = from; len = min block (length p.now.bytes - from) }))) (D.disk depot.old)
        (D.disk depot.new) result }
    ensures counted { Counted 1 (D.calls depot.old) (D.calls depot.new) }
{
    depot.write_main(p.at + from as u64, block_of(p.bytes.as_slice(), from))
}

// Reads n bytes of the file to the front of the buffer.
pub(crate) fn read_block<D: Depot>(
    depot: &mut D,
    at: u64,
    n: usize,
    buffer: &mut [u8],
) -> Result<(), DepotFault>
    requires room { n ≤ length buffer.old }
    requires told { IsTrue (D.disk depot.old).tells → at + n ≤ length (bytes_of (D.disk depot.old).slots.main) }
    ensures held { OnOk result (IsTrue (D.disk depot.old).tells
        → take n buffer.new ≡ take n (drop at (bytes_of (D.disk depot.old).slots.main))) }
    ensures reads { ReadsOnly (D.disk depot.old) (D.disk depot.new) }
    ensures cause { HasCause (D.disk depot.old) (D.disk depot.new) result }
    ensures counted { Counted 1 (D.calls depot.old) (D.calls depot.new) }
{
    let block = &mut buffer[..n];
    depot.read_at(Slot::Main, at, block)
}

// Appends the n bytes at the front of the buffer.
pub(crate) fn append_read<D: Depot>(
    depot: &mut D,
    n: usize,
    buffer: &[u8],
) -> Result<(), DepotFault>
    requires room { n ≤ length buffer.now }
    requires allows { Allows (AppendWork (take n buffer.now)) (D.disk depot.old) }
    ensures does { Does (AppendWork (take n buffer.now)) (D.disk depot.old) (D.disk depot.new) result }
    ensures counted { Counted 1 (D.calls depot.old) (D.calls depot.new) }
{
    depot.append_work(&buffer[..n])
}
