// A source read to its end.
ghost use Rattle.std.specs.Prelude.{◌≡◌, ◌+◌, ◌≤◌, ◌++◌, [], OnOk, IfOk, Err, length, take};
ghost use Rattle.me_disk.specs.Causes.{Rose};
ghost use Rattle.table_source.specs.Read.{IsTableOf, Takes};

use core_table::MOST_BYTES;
use me_bytes::NoMemory;
use me_disk::{Source, SourceFault};
use part_tree::Bytes;
use std::alloc::Global;

/// Why a source wasn't read to its end.
#[derive(Clone, Copy, Debug, PartialEq, Eq)]
pub enum ReadStop {
    /// A read failed, and was counted.
    Read,
    Memory,
}

// Appends what one read gives, and says how many bytes that were.
fn read_some<S: Source>(source: &mut S, bytes: &mut Vec<u8>) -> Result<usize, ReadStop>
    ensures takes { IfOk result (λ n. Takes n (S.left source.old) (S.left source.new) bytes.old.items bytes.new.items) }
    ensures counts { S.faults source.old ≤ S.faults source.new }
    ensures cause { result ≡ Err ReadStop.Read → Rose (S.faults source.old) (S.faults source.new) }
{
    let mut buffer = [0u8; 4096];
    let n = match source.read(&mut buffer) {
        Ok(n) => n,
        Err(SourceFault) => return Err(ReadStop::Read),
    };
    match bytes.extend_from_slice(&buffer[..n]) {
        Ok(()) => Ok(n),
        Err(_) => Err(ReadStop::Memory),
    }
}

/// The bytes that a source has left, to its end; or more than a table may have, and then not all of them.
///
/// # Errors
///
/// `Read` only where the source's count of faults rose; `Memory` where there was none.
pub fn read_to_end<S: Source>(alloc: Global, source: &mut S) -> Result<Bytes, ReadStop>
    ensures table { IfOk result (λ bytes. IsTableOf (S.left source.old) (S.left source.new) bytes) }
    ensures counts { S.faults source.old ≤ S.faults source.new }
    ensures cause { result ≡ Err ReadStop.Read → Rose (S.faults source.old) (S.faults source.new) }
{
    let mut bytes = Vec::new(alloc);
    'reads: while bytes.len() <= MOST_BYTES {
        if read_some(source, &mut bytes)? == 0 {
            return Ok(Bytes::of(bytes));
        }
    }
    Ok(Bytes::of(bytes))
}
