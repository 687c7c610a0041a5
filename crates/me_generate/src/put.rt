// Bytes of a file in a vector.
ghost use Rattle.std.specs.Prelude.{◌≡◌, ◌++◌, OnOk};
ghost use Rattle.me_generate.specs.Bytes as spec;

use me_bytes::{NoMemory, put_be32, put_le32};
use std::alloc::Global;

/// Appends bytes.
pub(crate) fn put(out: &mut Vec<u8>, bytes: &[u8]) -> Result<(), NoMemory>
    ensures { OnOk result (out.new.items ≡ out.old.items ++ bytes.now) }
{
    match out.extend_from_slice(bytes) {
        Ok(()) => Ok(()),
        Err(_) => Err(NoMemory),
    }
}

/// Appends zeros.
pub(crate) fn put_zeros(out: &mut Vec<u8>, n: usize) -> Result<(), NoMemory>
    ensures { OnOk result (out.new.items ≡ out.old.items ++ spec.zeros n) }
{
    for _ in 0..n {
        if out.push(0).is_err() {
            return Err(NoMemory);
        }
    }
    Ok(())
}

/// Appends a text, cut or filled up with zeros to a width.
pub(crate) fn put_padded(out: &mut Vec<u8>, text: &[u8], width: usize) -> Result<(), NoMemory>
    ensures { OnOk result (out.new.items ≡ out.old.items ++ spec.padded width text.now) }
{
    let kept = width.min(text.len());
    put(out, &text[..kept])?;
    put_zeros(out, width - kept)
}

/// Appends the header of a chunk.
pub(crate) fn put_chunk(
    alloc: Global,
    out: &mut Vec<u8>,
    id: &[u8],
    size: u32,
) -> Result<(), NoMemory>
    ensures { OnOk result (out.new.items ≡ out.old.items ++ spec.chunk id.now size) }
{
    put(out, id)?;
    put_le32(alloc, out, size)
}

/// Appends the header of an atom, whose size counts it.
pub(crate) fn put_atom(
    alloc: Global,
    out: &mut Vec<u8>,
    size: u32,
    kind: &[u8],
) -> Result<(), NoMemory>
    ensures { OnOk result (out.new.items ≡ out.old.items ++ spec.atom size kind.now) }
{
    put_be32(alloc, out, size)?;
    put(out, kind)
}

/// Appends numbers of four bytes each, the highest first.
pub(crate) fn put_numbers(alloc: Global, out: &mut Vec<u8>, numbers: &[u32]) -> Result<(), NoMemory>
    ensures { OnOk result (out.new.items ≡ out.old.items ++ spec.numbers numbers.now) }
{
    for n in numbers {
        put_be32(alloc, out, *n)?;
    }
    Ok(())
}
