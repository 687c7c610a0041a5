// The entries of index chunks.
ghost use Rattle.std.specs.Prelude.{◌≡◌, ◌+◌, ◌≤◌, length};
ghost use Rattle.opendml_index.specs.Entries.{IsFields, IsStandard, IsSuper, ReadsStandard, ReadsSuper, SecondAt, width_by};

use crate::numbers::le32_in;
use part_tree::IndexHead;

/// An entry of a super index: the place of an index chunk's header, the size of that chunk in bytes, and how long it lasts.
/// A place of 0 marks an entry that isn't used.
#[derive(Clone, Copy, Debug, PartialEq, Eq)]
pub struct SuperEntry {
    pub place: u64,
    pub size: u32,
    pub duration: u32,
}

/// An entry of a standard index: an offset from the index's base, a length in bytes, whether it is a key frame, and the
/// offset of its second field, None in an index of one field.
#[derive(Clone, Copy, Debug, PartialEq, Eq)]
pub struct StdEntry {
    pub offset: u32,
    pub size: u32,
    pub key: bool,
    pub second: Option<u32>,
}

// The super entry in a row.
fn super_in(row: &[u8; 16]) -> SuperEntry
    ensures { IsSuper row.now result }
{
    SuperEntry {
        place: u64::from_le_bytes([
            row[0], row[1], row[2], row[3], row[4], row[5], row[6], row[7],
        ]),
        size: u32::from_le_bytes([row[8], row[9], row[10], row[11]]),
        duration: u32::from_le_bytes([row[12], row[13], row[14], row[15]]),
    }
}

/// The entry of this number of a super index, from 0, by the index's body. None exactly where the number isn't below that of
/// the entries in use, or where the entry passes the end.
pub fn read_super(body: &[u8], k: usize) -> Option<SuperEntry>
    ensures { ReadsSuper body.now k result }
{
    if body.len() < 24 || k >= (body.len() - 24) / 16 {
        return None;
    }
    if k >= le32_in(body, 4) as usize {
        return None;
    }
    let mut row = [0u8; 16];
    row.copy_from_slice(&body[24 + 16 * k..40 + 16 * k]);
    Some(super_in(&row))
}

// The standard entry in a row, and its second field.
pub fn standard_in(row: &[u8; 8], second: Option<u32>) -> StdEntry
    ensures { IsFields row.now second result }
{
    let size = u32::from_le_bytes([row[4], row[5], row[6], row[7]]);
    StdEntry {
        offset: u32::from_le_bytes([row[0], row[1], row[2], row[3]]),
        size: size % 0x8000_0000,
        key: size < 0x8000_0000,
        second,
    }
}

// How many bytes an entry of one or of two fields has.
pub fn width_by_fields(two_fields: bool) -> u64
    ensures { result ≡ width_by two_fields }
{
    if two_fields { 12 } else { 8 }
}

// How many bytes an entry of a standard index has.
pub fn width_of(head: &IndexHead) -> u64
    ensures { result ≡ width_by head.now.two_fields }
{
    width_by_fields(head.two_fields)
}

// The second field of an entry that ends here.
fn second_in(body: &[u8], two_fields: bool, at: usize) -> Option<u32>
    requires { at + width_by two_fields ≤ length body.now }
    ensures { SecondAt body.now at two_fields result }
{
    if two_fields {
        return Some(le32_in(body, at + 8));
    }
    None
}

/// The entry of this number of a standard index, from 0, by the index's body and its head. None exactly where the number isn't
/// below that of the entries in use, or where the entry passes the end.
pub fn read_standard(body: &[u8], head: &IndexHead, k: usize) -> Option<StdEntry>
    ensures { ReadsStandard body.now head.now k result }
{
    let width = width_of(head) as usize;
    if body.len() < 24 || k >= (body.len() - 24) / width {
        return None;
    }
    if k >= head.used as usize {
        return None;
    }
    let at = 24 + width * k;
    let mut row = [0u8; 8];
    row.copy_from_slice(&body[at..at + 8]);
    let second = second_in(body, head.two_fields, at);
    Some(standard_in(&row, second))
}
