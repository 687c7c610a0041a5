//! The body of the chunk `ds64` of an RF64 file (EBU Tech 3306): the 64-bit sizes of the form, of `data` and of other chunks.
//! It reads and spells bodies alone, and knows no file.
#![tactic(auto)]

ghost use Rattle.std.specs.Prelude.{◌≡◌, ℕ, List, ◌+◌, ◌*◌, ◌^◌, ◌<◌, ◌≤◌, ◌++◌, length, map, take, drop, true, false, IfOk, OnOk, Option};
ghost use Rattle.container_model.specs.Sizes.{Row};
ghost use Rattle.container_model.specs.Ds64.{le32, le64, rows};
ghost use Rattle.rf64_ds64.specs.declared.Ds64.{Ds64};
ghost use Rattle.rf64_ds64.specs.Ds64.{GivesSize, IsDs64, IsSpellable, ReadsDs64, body_of, is_short, nth_size, row_bytes, row_of};

use part_tree::{Bytes, FourCc, NoMemory};
use std::alloc::Global;
use std::marker::Model;

/// A row of the table: an identifier, and the size in bytes of the body of a chunk that has it.
#[derive(Clone, Copy, Debug, PartialEq, Eq)]
pub struct Ds64Row {
    pub id: FourCc,
    pub size: u64,
}

/// Rows, seen as the list of them.
#[derive(Debug, Drop)]
pub struct Ds64Rows {
    held: Vec<Ds64Row>,
}

impl Model for Ds64Rows {
    ghost use Rattle.std.specs.Prelude.{List};
    ghost use Rattle.rf64_ds64.specs.declared.Ds64Row.{Ds64Row};

    ghost Value = { List Ds64Row };

    ghost view = { λ r. r.held.items };
}

impl Ds64Rows {
    /// These rows, without taking memory.
    pub fn new(rows: Vec<Ds64Row>) -> Ds64Rows
        ensures { result ≡ rows.items }
    {
        Ds64Rows { held: rows }
    }

    pub fn as_slice(&self) -> &[Ds64Row]
        ensures { result.now ≡ self.now }
    {
        &self.held
    }
}

/// What `ds64` holds: the sizes of the form and of `data` in bytes, the count of samples, the table, and further bytes.
#[derive(Debug, Drop)]
pub struct Ds64 {
    pub riff: u64,
    pub data_size: u64,
    pub samples: u64,
    pub rows: Ds64Rows,
    pub extra: Bytes,
}

/// Why a body isn't read. `len` is its length in bytes.
#[derive(Clone, Copy, Debug, PartialEq, Eq)]
pub enum Ds64Fault {
    /// It has fewer than 28 bytes, or fewer than its table needs.
    Short { len: u64 },
    Memory,
}

impl From<NoMemory> for Ds64Fault {
    ghost use Rattle.std.specs.Prelude.{◌≡◌};
    ghost use Rattle.rf64_ds64.specs.declared.Ds64Fault.TheVariants.{Memory};

    ghost from_gives = { λ _ e. e ≡ Memory };

    fn from(_: NoMemory) -> Self {
        Ds64Fault::Memory
    }
}

/// There is no row for a chunk of this identifier.
#[derive(Clone, Copy, Debug, PartialEq, Eq)]
pub struct RowMissing {
    pub id: FourCc,
}

/// Reads a body. `Short` exactly where it has fewer than 28 bytes or fewer than its table needs.
pub fn read_ds64(alloc: Global, body: &[u8]) -> Result<Ds64, Ds64Fault>
    ensures { ReadsDs64 body.now result }
{
    let len = body.len();
    if len < 28 {
        return Err(Ds64Fault::Short { len: len as u64 });
    }
    let count = le32_in(body, 24);
    let end = 28 + 12 * count as usize;
    if len < end {
        return Err(Ds64Fault::Short { len: len as u64 });
    }
    let rows = read_rows(alloc, count, &body[28..])?;
    let extra = Bytes::new(alloc, &body[end..])?;
    Ok(Ds64 {
        riff: le64_in(body, 0),
        data_size: le64_in(body, 8),
        samples: le64_in(body, 16),
        rows: Ds64Rows::new(rows),
        extra,
    })
}

// The number in the four bytes at a place.
fn le32_in(bytes: &[u8], at: usize) -> u32
    requires { at + 4 ≤ length bytes.now }
    ensures { result ≡ le32 (drop at bytes.now) }
{
    let mut word = [0u8; 4];
    word.copy_from_slice(&bytes[at..at + 4]);
    u32::from_le_bytes(word)
}

// The number in the eight bytes at a place.
fn le64_in(bytes: &[u8], at: usize) -> u64
    requires { at + 8 ≤ length bytes.now }
    ensures { result ≡ le64 (drop at bytes.now) }
{
    let mut word = [0u8; 8];
    word.copy_from_slice(&bytes[at..at + 8]);
    u64::from_le_bytes(word)
}

// The row at a place.
fn row_at(bytes: &[u8], at: usize) -> Ds64Row
    requires { at + 12 ≤ length bytes.now }
    ensures id { result.id.0 ≡ take 4 (drop at bytes.now) }
    ensures size { result.size ≡ le64 (drop (at + 4) bytes.now) }
{
    let mut id = [0u8; 4];
    id.copy_from_slice(&bytes[at..at + 4]);
    Ds64Row {
        id: FourCc(id),
        size: le64_in(bytes, at + 4),
    }
}

// The first rows of a table.
fn read_rows(alloc: Global, count: u32, table: &[u8]) -> Result<Vec<Ds64Row>, NoMemory>
    requires { 12 * count ≤ length table.now }
    ensures { IfOk result (λ found. map row_of found.items ≡ rows count table.now) }
{
    let mut found = Vec::new(alloc);
    'rows: for k in 0..count {
        match found.push(row_at(table, 12 * k as usize)) {
            Err(_) => return Err(NoMemory),
            Ok(()) => {}
        }
    }
    Ok(found)
}

/// The spelling of a body.
pub fn spell_ds64(alloc: Global, ds: &Ds64) -> Result<Bytes, NoMemory>
    requires { length ds.now.rows < 2 ^ 32 }
    ensures { IfOk result (λ body. body ≡ body_of ds.now) }
{
    let rows = ds.rows.as_slice();
    let mut out = Vec::new(alloc);
    out.extend_from_slice(&ds.riff.to_le_bytes())?;
    out.extend_from_slice(&ds.data_size.to_le_bytes())?;
    out.extend_from_slice(&ds.samples.to_le_bytes())?;
    out.extend_from_slice(&(rows.len() as u32).to_le_bytes())?;
    put_rows(alloc, &mut out, rows)?;
    out.extend_from_slice(ds.extra.as_slice())?;
    Ok(Bytes::of(out))
}

// Appends the spelling of rows.
fn put_rows(_alloc: Global, out: &mut Vec<u8>, rows: &[Ds64Row]) -> Result<(), NoMemory>
    ensures { OnOk result (out.new.items ≡ out.old.items ++ row_bytes rows.now) }
{
    'rows: for row in rows {
        out.extend_from_slice(&row.id.0)?;
        out.extend_from_slice(&row.size.to_le_bytes())?;
    }
    Ok(())
}

impl Ds64 {
    /// The size in bytes of the body of a chunk that stands directly in the form, by its identifier, the size in its header,
    /// and how many chunks of that identifier with a size of FFFFFFFF stand before it. `RowMissing` exactly where it has
    /// FFFFFFFF, isn't `data` and has no row.
    pub fn size_of(&self, id: FourCc, field: u32, nth: u32) -> Result<u64, RowMissing>
        ensures { GivesSize self.now id field nth result }
    {
        if field != u32::MAX {
            return Ok(u64::from(field));
        }
        if id.is(b"data") {
            return Ok(self.data_size);
        }
        match nth_row(self.rows.as_slice(), id, nth) {
            None => Err(RowMissing { id }),
            Some(size) => Ok(size),
        }
    }
}

// The size of the nth row of an identifier, from 0.
fn nth_row(rows: &[Ds64Row], id: FourCc, nth: u32) -> Option<u64>
    ensures { result ≡ nth_size id.0 nth (map row_of rows.now) }
{
    let mut left = nth;
    'rows: for row in rows {
        if id.is(&row.id.0) {
            if left == 0 {
                return Some(row.size);
            }
            left -= 1;
        }
    }
    None
}

/// What is spelled is read back, whatever the numbers, the rows and the further bytes.
pub fn spelled_is_read()
    ensures back { (ds : Ds64) → IsSpellable ds → (is_short (body_of ds) ≡ false) × IsDs64 (body_of ds) ds }
{}

#[cfg(test)]
mod tests {
    use super::*;
    use std::test::Fail;

    // The form has 100 bytes, `data` 5,000,000,000, and there are two rows of one identifier and a further byte.
    const BODY: &[u8] =
        b"\x64\0\0\0\0\0\0\0\x00\xf2\x05\x2a\x01\0\0\0\x07\0\0\0\0\0\0\0\x02\0\0\0abcd\x01\0\0\0\0\0\0\0abcd\x02\0\0\0\0\0\0\0x";

    #[test]
    fn reads_spells_and_sizes(rt: HostRuntime) -> Result<(), Fail> {
        let ds = read_ds64(rt.alloc(), BODY)?;
        assert_eq!(rt; ds.riff, 100);
        assert_eq!(rt; ds.data_size, 5_000_000_000);
        assert_eq!(rt; ds.samples, 7);
        assert_eq!(rt; ds.rows.as_slice().len(), 2);
        assert_eq!(rt; ds.extra.as_slice(), b"x".as_slice());
        let row = FourCc(*b"abcd");
        assert_eq!(rt; ds.size_of(row, 5, 0), Ok(5));
        assert_eq!(rt;
            ds.size_of(FourCc(*b"data"), u32::MAX, 1),
            Ok(5_000_000_000)
        );
        assert_eq!(rt; ds.size_of(row, u32::MAX, 0), Ok(1));
        assert_eq!(rt; ds.size_of(row, u32::MAX, 1), Ok(2));
        assert_eq!(rt; ds.size_of(row, u32::MAX, 2), Err(RowMissing { id: row }));
        let spelled = spell_ds64(rt.alloc(), &ds)?;
        assert_eq!(rt; spelled.as_slice(), BODY);
        Ok(())
    }

    #[test]
    fn refuses_short_bodies(rt: HostRuntime) {
        // a body of 27 bytes, and one of 28 that names a row
        let mut body = [0u8; 28];
        body[24] = 1;
        for len in [27, 28] {
            let fault = match read_ds64(rt.alloc(), &body[..len]) {
                Ok(_) => None,
                Err(fault) => Some(fault),
            };
            assert_eq!(rt; fault, Some(Ds64Fault::Short { len: len as u64 }));
        }
    }
}
