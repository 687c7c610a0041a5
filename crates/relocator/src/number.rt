// Numbers in a row, and where the moves put the places that they name.
ghost use Rattle.std.specs.Prelude.{◌≡◌, ◌⊎◌, ◌+◌, ◌≤◌, ◌<◌, ◌^◌, length};
ghost use Rattle.part_tree.specs.Tables.{be32, be64, le32, le64, moved, number, with_number};

use byteorder::{BigEndian, ByteOrder, LittleEndian};
use part_tree::Moves;

// The number of four bytes at a place, the lowest first.
pub(crate) fn le32_in(row: &[u8], at: usize) -> u32
    requires { at + 4 ≤ length row.now }
    ensures { result ≡ number le32 at row.now }
{
    LittleEndian::read_u32(&row[at..at + 4])
}

// The number of eight bytes at a place, the lowest first.
pub(crate) fn le64_in(row: &[u8], at: usize) -> u64
    requires { at + 8 ≤ length row.now }
    ensures { result ≡ number le64 at row.now }
{
    LittleEndian::read_u64(&row[at..at + 8])
}

// The number of four bytes at a place, the highest first.
pub(crate) fn be32_in(row: &[u8], at: usize) -> u32
    requires { at + 4 ≤ length row.now }
    ensures { result ≡ number be32 at row.now }
{
    BigEndian::read_u32(&row[at..at + 4])
}

// The number of eight bytes at a place, the highest first.
pub(crate) fn be64_in(row: &[u8], at: usize) -> u64
    requires { at + 8 ≤ length row.now }
    ensures { result ≡ number be64 at row.now }
{
    BigEndian::read_u64(&row[at..at + 8])
}

// Writes a number of four bytes at a place, the lowest first.
pub(crate) fn set_le32(row: &mut [u8], at: usize, n: u32)
    requires { at + 4 ≤ length row.old }
    ensures { row.new ≡ with_number le32 at n row.old }
{
    LittleEndian::write_u32(&mut row[at..at + 4], n);
}

// Writes a number of eight bytes at a place, the lowest first.
pub(crate) fn set_le64(row: &mut [u8], at: usize, n: u64)
    requires { at + 8 ≤ length row.old }
    ensures { row.new ≡ with_number le64 at n row.old }
{
    LittleEndian::write_u64(&mut row[at..at + 8], n);
}

// Writes a number of four bytes at a place, the highest first.
pub(crate) fn set_be32(row: &mut [u8], at: usize, n: u32)
    requires { at + 4 ≤ length row.old }
    ensures { row.new ≡ with_number be32 at n row.old }
{
    BigEndian::write_u32(&mut row[at..at + 4], n);
}

// Writes a number of eight bytes at a place, the highest first.
pub(crate) fn set_be64(row: &mut [u8], at: usize, n: u64)
    requires { at + 8 ≤ length row.old }
    ensures { row.new ≡ with_number be64 at n row.old }
{
    BigEndian::write_u64(&mut row[at..at + 8], n);
}

// The new place of a place; one that no range holds stays.
pub(crate) fn moved_place(moves: &Moves, near: &mut usize, at: u64) -> u64
    ensures moved { result ≡ moved moves.now at }
    ensures small { (result ≡ at) ⊎ (result < 2 ^ 63) }
{
    moves.place_near(near, at).unwrap_or(at)
}
