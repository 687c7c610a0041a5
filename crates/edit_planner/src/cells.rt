// The chunks of a form as cells, which an edit changes one after the other.
ghost use Rattle.std.specs.Prelude.{◌≡◌, ◌≤◌, ◌<◌, ◌^◌, ◌∷◌, ◌++◌, [], ℕ, List, IfOk, OnOk, length, take, drop, codes, Bool, if◌then◌else◌};
ghost use Rattle.std.specs.Str.{bytes_eq};
ghost use Rattle.container_model.specs.Chunk.{spell};
ghost use Rattle.carrier_model.specs.Info.{made};
ghost use Rattle.edit_planner.specs.Row.{is_body as holds_body, is_field as names_field, is_format as holds_format, is_gap as holds_gap, is_list as holds_list, is_whole as holds_whole, new_at, place_for as place_in, put_after, put_new, starts_at, with_pad};

use info_list::InfoList;
use me_bytes::put_le32;
use part_tree::{Bytes, FourCc, NoMemory, Role};
use std::alloc::Global;

/// What stands, or is to stand, in a cell.
#[derive(Debug, Drop)]
pub enum Content {
    /// A chunk that an edit knows by its identifier alone.
    Kept { id: FourCc, role: Role },
    /// `bext`, by its body.
    Body(Bytes),
    /// A list of INFO items.
    Listed(InfoList),
    /// Padding.
    Gap,
    /// The bytes that are to stand there, and how many parts they count for.
    Edited { now: Bytes, parts: u64 },
}

/// A cell from the byte `at` of the file up to the byte `next`. `lacks_pad` tells whether a chunk stands there that
/// lacks its pad byte.
#[derive(Debug, Drop)]
pub struct CellAt {
    pub at: u64,
    pub next: u64,
    pub lacks_pad: bool,
    pub content: Content,
}

pub fn is_gap(cell: &CellAt) -> bool
    ensures { result ≡ holds_gap cell.now.content }
{
    match &cell.content {
        Content::Gap => true,
        _ => false,
    }
}

pub fn is_body(cell: &CellAt) -> bool
    ensures { result ≡ holds_body cell.now.content }
{
    match &cell.content {
        Content::Body(_) => true,
        _ => false,
    }
}

pub fn is_list(cell: &CellAt) -> bool
    ensures { result ≡ holds_list cell.now.content }
{
    match &cell.content {
        Content::Listed(_) => true,
        _ => false,
    }
}

pub fn is_format(cell: &CellAt) -> bool
    ensures { result ≡ holds_format cell.now.content }
{
    match &cell.content {
        Content::Kept { id, role: _ } => id.is(b"fmt "),
        _ => false,
    }
}

/// Whether it is the field of this identifier as a whole.
pub fn is_whole(cell: &CellAt, word: FourCc) -> bool
    ensures { result ≡ holds_whole word.0 cell.now.content }
{
    match &cell.content {
        Content::Kept { id, role } => is_field(*role) && word.is(&id.0),
        _ => false,
    }
}

fn is_field(role: Role) -> bool
    ensures { result ≡ names_field role }
{
    match role {
        Role::Whole => true,
        _ => false,
    }
}

// The number of the cell behind the last one that is no padding, as far as was seen: that of the one behind this cell,
// or else the earlier one.
fn behind_last(cell: &CellAt, last: usize, next: usize) -> usize
    ensures { result ≡ (if holds_gap cell.now.content then last else next) }
{
    if is_gap(cell) { last } else { next }
}

// Where a new cell goes in a row: before `fmt `, where it is to, and else behind all but padding.
fn place_for(cells: &[CellAt], before_format: bool) -> usize
    ensures place { result ≡ place_in before_format cells.now }
    ensures inside { result ≤ length cells.now }
{
    let mut last = 0;
    let mut k = 0;
    'cells: for cell in cells {
        if before_format && is_format(cell) {
            return k;
        }
        k += 1;
        last = behind_last(cell, last, k);
    }
    last
}

// Where the k-th cell begins, in a row from a place on.
fn start_of(cells: &[CellAt], from: u64, k: usize) -> u64
    requires { k ≤ length cells.now }
    ensures { result ≡ starts_at from k cells.now }
{
    if k == 0 {
        return from;
    }
    cells[k - 1].next
}

/// Puts a new cell into a row that begins at the byte `from`: before `fmt `, where it is to, and else behind all but
/// padding.
pub fn put_cell(
    cells: &mut Vec<CellAt>,
    from: u64,
    before_format: bool,
    content: Content,
) -> Result<(), NoMemory>
    ensures { OnOk result (cells.new.items ≡ put_new before_format (new_at content) from cells.old.items) }
{
    let k = place_for(cells, before_format);
    let at = start_of(cells, from, k);
    let cell = CellAt {
        at,
        next: at,
        lacks_pad: false,
        content,
    };
    match cells.insert(k, cell) {
        Err(_) => Err(NoMemory),
        Ok(()) => Ok(()),
    }
}

/// Puts a new cell into a row, directly behind that of a number.
pub fn put_behind(cells: &mut Vec<CellAt>, k: usize, content: Content) -> Result<(), NoMemory>
    requires { k < length cells.old.items }
    ensures { OnOk result (cells.new.items ≡ put_after (new_at content) k cells.old.items) }
{
    let at = cells[k].next;
    let cell = CellAt {
        at,
        next: at,
        lacks_pad: false,
        content,
    };
    match cells.insert(k + 1, cell) {
        Err(_) => Err(NoMemory),
        Ok(()) => Ok(()),
    }
}

/// Tells anew whether the chunk in the cell of a number lacks its pad byte.
pub fn set_pad(cells: &mut Vec<CellAt>, k: usize, lacks_pad: bool)
    requires { k < length cells.old.items }
    ensures { cells.new.items ≡ with_pad lacks_pad k cells.old.items }
{
    cells[k].lacks_pad = lacks_pad;
}

/// The chunk of an identifier and a body, with a pad of 0 where the body's length is odd.
pub fn spell_chunk(alloc: Global, id: FourCc, body: &[u8]) -> Result<Bytes, NoMemory>
    requires { length body.now < 2 ^ 32 }
    ensures { IfOk result (λ bytes. bytes ≡ spell (made id.0 body.now)) }
{
    let mut out = Vec::new(alloc);
    out.extend_from_slice(&id.0)?;
    put_le32(alloc, &mut out, body.len() as u32)?;
    out.extend_from_slice(body)?;
    if body.len() % 2 == 1 {
        out.extend_from_slice(&[0])?;
    }
    Ok(Bytes::of(out))
}
