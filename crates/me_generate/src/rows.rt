// The rows of a file, each with its number.
ghost use Rattle.std.specs.Prelude.{◌≡◌, ◌+◌, ◌*◌, ◌<◌, ◌≤◌, ◌^◌, ◌++◌, [], OnOk};
ghost use Rattle.me_generate.specs.Rows as spec;

use crate::put::{put, put_chunk, put_zeros};
use me_bytes::{NoMemory, put_be32, put_be64, put_le16, put_le32, put_le64};
use std::alloc::Global;

/// What stands in a file once for each number from 0 on.
#[derive(Clone, Copy, Debug, PartialEq, Eq)]
pub(crate) enum Row {
    /// A second of sound: the number, and zeros.
    Second,
    /// A chunk of a picture: the number.
    Picture,
    /// An entry of an index: where the chunk of that number stands, from the word `movi`.
    Entry,
    /// A row of a table: where the sample of that number stands, the first at this place.
    Place(u64),
    /// A sample: the number.
    Sample,
}

impl Row {
    /// How many rows a page has.
    pub(crate) fn page(self) -> u64
        ensures { 0 < result }
    {
        match self {
            Row::Second => 1,
            _ => 4096,
        }
    }
}

/// Appends the row of a number.
pub(crate) fn put_row(alloc: Global, out: &mut Vec<u8>, row: Row, k: u64) -> Result<(), NoMemory>
    requires { spec.HasRow row k }
    ensures { OnOk result (out.new.items ≡ out.old.items ++ spec.row_bytes row k) }
{
    match row {
        Row::Second => put_second(alloc, out, k),
        Row::Picture => put_picture(alloc, out, k),
        Row::Entry => put_entry(alloc, out, k),
        Row::Place(first) => put_be32(alloc, out, (first + 8 * k) as u32),
        Row::Sample => put_be64(alloc, out, k),
    }
}

fn put_second(alloc: Global, out: &mut Vec<u8>, k: u64) -> Result<(), NoMemory>
    requires { k < 2 ^ 16 }
    ensures { OnOk result (out.new.items ≡ out.old.items ++ spec.second k) }
{
    put_le16(alloc, out, k as u16)?;
    put_zeros(out, 287_998)
}

fn put_picture(alloc: Global, out: &mut Vec<u8>, k: u64) -> Result<(), NoMemory>
    ensures { OnOk result (out.new.items ≡ out.old.items ++ spec.picture k) }
{
    put_chunk(alloc, out, b"00db", 8)?;
    put_le64(alloc, out, k)
}

fn put_entry(alloc: Global, out: &mut Vec<u8>, k: u64) -> Result<(), NoMemory>
    requires { 4 + 16 * k < 2 ^ 32 }
    ensures { OnOk result (out.new.items ≡ out.old.items ++ spec.entry k) }
{
    put(out, b"00db")?;
    put_le32(alloc, out, 0x10)?;
    put_le32(alloc, out, (4 + 16 * k) as u32)?;
    put_le32(alloc, out, 8)
}

/// Appends the rows from one number on, up to another.
pub(crate) fn put_rows(
    alloc: Global,
    out: &mut Vec<u8>,
    row: Row,
    first: u64,
    end: u64,
) -> Result<(), NoMemory>
    requires order { first ≤ end }
    requires rows { spec.HasRows row end }
    requires empty { out.old.items ≡ [] }
    ensures { OnOk result (spec.rows row first ++ out.new.items ≡ spec.rows row end) }
{
    for k in first..end {
        put_row(alloc, out, row, k)?;
    }
    Ok(())
}
