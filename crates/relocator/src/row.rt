// One row of a table.
ghost use Rattle.std.specs.Prelude.{◌≡◌, ◌≢◌, ◌+◌, ◌≤◌, ◌<◌, ◌^◌, length, None};
ghost use Rattle.part_tree.specs.declared.table.TableForm.TheVariants.{Idx1, Super, Standard, Chunks32, Chunks64, Widen};
ghost use Rattle.part_tree.specs.declared.table.Base.TheVariants.{FileStart};
ghost use Rattle.part_tree.specs.Tables.{HasBase, misfit, moved_row, second_of, width};
ghost use Rattle.relocator.specs.Names.{NewNumber, NewOffset, NewSecond};

use crate::number::{
    be32_in, be64_in, le32_in, le64_in, moved_place, set_be32, set_be64, set_le32, set_le64,
};
use part_tree::{Base, IndexHead, Moves, TableForm};

// A place that a number names, from one base in the old file and from another in the new one, where the new number may not be
// less than this.
#[derive(Clone, Copy)]
pub(crate) struct Named {
    pub(crate) place: u64,
    pub(crate) new_base: u64,
    pub(crate) least: u64,
}

// The new number of 32 bits that names a place's new one, or that place where no such number does.
fn new_number(named: Named, moves: &Moves, near: &mut usize) -> Result<u32, u64>
    ensures { NewNumber moves.now named result }
{
    let place = moved_place(moves, near, named.place);
    if place < named.new_base || place - named.new_base < named.least {
        return Err(place);
    }
    let number = place - named.new_base;
    if number > 0xffff_ffff {
        return Err(place);
    }
    Ok(number as u32)
}

// A place that counts from the start of the file.
fn plain(place: u64) -> Named
    ensures { result ≡ record { place = place; new_base = 0; least = 0 } }
{
    Named {
        place,
        new_base: 0,
        least: 0,
    }
}

// Moves the offset of an entry of `idx1` that counts from the start of the file. An entry of length 0 stays.
fn move_old(row: &mut [u8], moves: &Moves, near: &mut usize) -> Option<u64>
    requires { length row.old ≡ 16 }
    ensures misfit { result ≡ misfit moves.now (Idx1 FileStart) row.old }
    ensures row { row.new ≡ moved_row moves.now (Idx1 FileStart) row.old }
{
    if le32_in(row, 12) == 0 {
        return None;
    }
    match new_number(plain(u64::from(le32_in(row, 8))), moves, near) {
        Err(place) => Some(place),
        Ok(offset) => {
            set_le32(row, 8, offset);
            None
        }
    }
}

// Moves the place of an entry of a super index. A place of 0 stays.
pub(crate) fn move_super(row: &mut [u8], moves: &Moves, near: &mut usize)
    requires { length row.old ≡ 16 }
    ensures misfit { misfit moves.now Super row.old ≡ None }
    ensures row { row.new ≡ moved_row moves.now Super row.old }
{
    let place = le64_in(row, 0);
    if place == 0 {
        return;
    }
    let place = moved_place(moves, near, place);
    set_le64(row, 0, place);
}

// Moves a chunk place of 32 bits.
pub(crate) fn move_chunk32(row: &mut [u8], moves: &Moves, near: &mut usize) -> Option<u64>
    requires { length row.old ≡ 4 }
    ensures misfit { result ≡ misfit moves.now Chunks32 row.old }
    ensures row { row.new ≡ moved_row moves.now Chunks32 row.old }
{
    match new_number(plain(u64::from(be32_in(row, 0))), moves, near) {
        Err(place) => Some(place),
        Ok(place) => {
            set_be32(row, 0, place);
            None
        }
    }
}

// Moves a chunk place of 64 bits.
fn move_chunk64(row: &mut [u8], moves: &Moves, near: &mut usize)
    requires { length row.old ≡ 8 }
    ensures misfit { misfit moves.now Chunks64 row.old ≡ None }
    ensures row { row.new ≡ moved_row moves.now Chunks64 row.old }
{
    let place = moved_place(moves, near, be64_in(row, 0));
    set_be64(row, 0, place);
}

// The new second field of an entry of a standard index. None where it has none, or where that is 0.
fn new_second(
    row: &[u8],
    old: &IndexHead,
    new_base: u64,
    moves: &Moves,
    near: &mut usize,
) -> Result<Option<u32>, u64>
    requires width { length row.now ≡ width (Standard old.now new_base) }
    requires base { old.now.base < 2 ^ 63 }
    ensures { NewSecond moves.now row.now (second_of old.now new_base row.now) result }
{
    if !old.two_fields {
        return Ok(None);
    }
    let second = le32_in(row, 8);
    if second == 0 {
        return Ok(None);
    }
    let named = Named {
        place: old.base + u64::from(second),
        new_base,
        least: 1,
    };
    match new_number(named, moves, near) {
        Err(place) => Err(place),
        Ok(number) => Ok(Some(number)),
    }
}

// The new offset of an entry of a standard index.
fn new_offset(
    row: &[u8],
    old: &IndexHead,
    new_base: u64,
    moves: &Moves,
    near: &mut usize,
) -> Result<u32, u64>
    requires width { 8 ≤ length row.now }
    requires base { old.now.base < 2 ^ 63 }
    ensures { NewOffset moves.now row.now old.now new_base result }
{
    let named = Named {
        place: old.base + u64::from(le32_in(row, 0)),
        new_base,
        least: 0,
    };
    new_number(named, moves, near)
}

// Moves the offset of an entry of a standard index, and its second field where that isn't 0. An entry of length 0 stays.
fn move_standard(
    row: &mut [u8],
    old: &IndexHead,
    new_base: u64,
    moves: &Moves,
    near: &mut usize,
) -> Option<u64>
    requires width { length row.old ≡ width (Standard old.now new_base) }
    requires base { old.now.base < 2 ^ 63 }
    ensures misfit { result ≡ misfit moves.now (Standard old.now new_base) row.old }
    ensures row { row.new ≡ moved_row moves.now (Standard old.now new_base) row.old }
{
    if le32_in(row, 4) % 0x8000_0000 == 0 {
        return None;
    }
    let offset = match new_offset(row, old, new_base, moves, near) {
        Err(place) => return Some(place),
        Ok(offset) => offset,
    };
    match new_second(row, old, new_base, moves, near) {
        Err(place) => return Some(place),
        Ok(Some(second)) => set_le32(row, 8, second),
        Ok(None) => {}
    }
    set_le32(row, 0, offset);
    None
}

// Moves the places that a row names. Where it can't name one of the new places, it stays, and the first of these is given.
pub(crate) fn move_row(
    form: &TableForm,
    row: &mut [u8],
    moves: &Moves,
    near: &mut usize,
) -> Option<u64>
    requires narrow { form.now ≢ Widen }
    requires width { length row.old ≡ width form.now }
    requires base { HasBase form.now }
    ensures misfit { result ≡ misfit moves.now form.now row.old }
    ensures row { row.new ≡ moved_row moves.now form.now row.old }
{
    match form {
        TableForm::Idx1(Base::Movi(_)) => None,
        TableForm::Idx1(Base::FileStart) => move_old(row, moves, near),
        TableForm::Super => {
            move_super(row, moves, near);
            None
        }
        TableForm::Standard { old, new_base } => { move_standard(row, old, *new_base, moves, near) }
        TableForm::Chunks32 => move_chunk32(row, moves, near),
        TableForm::Chunks64 => {
            move_chunk64(row, moves, near);
            None
        }
        TableForm::Widen => None,
    }
}
