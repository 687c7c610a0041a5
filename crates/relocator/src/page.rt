// Pages: so many whole rows of a table.
ghost use Rattle.std.specs.Prelude.{◌≡◌, ◌≢◌, ◌+◌, ◌*◌, ◌/◌, ◌%◌, ◌<◌, ◌^◌, length};
ghost use Rattle.part_tree.specs.declared.table.TableForm.TheVariants.{Idx1, Super, Standard, Chunks32, Chunks64, Widen};
ghost use Rattle.part_tree.specs.Tables.{HasBase, RowsNamed, relocated, width};
ghost use Rattle.relocator.specs.Pages.{Relocates, chunks, count, IsPage};

use crate::narrow::{move_narrow, relocate_narrow};
use crate::number::{be32_in, moved_place, set_be64};
use crate::row::{move_row, move_super};
use part_tree::{Base, IndexHead, Moves, TableForm};

/// The number of an entry, and a new place that one of its numbers can't name.
#[derive(Clone, Copy, Debug, PartialEq, Eq)]
pub struct Overflow {
    pub entry: u64,
    pub place: u64,
}

// Moves the places in a page of a table, row by row.
fn relocate_each(
    form: &TableForm,
    page: &mut [u8],
    first: u64,
    moves: &Moves,
) -> Result<(), Overflow>
    requires narrow { form.now ≢ Widen }
    requires base { HasBase form.now }
    requires page { IsPage form.now page.old first }
    ensures { Relocates moves.now form.now first page.old page.new result }
{
    let width = form.width();
    let mut near = 0;
    for k in 0..page.len() / width {
        let at = k * width;
        if let Some(place) = move_row(form, &mut page[at..at + width], moves, &mut near) {
            return Err(Overflow {
                entry: first + k as u64,
                place,
            });
        }
    }
    Ok(())
}

/// Moves the places in a page of a table whose first row has this number. `Overflow` exactly where a row can't name one of its
/// new places: it tells the first of them, the rows before it are moved, and the others are as before.
pub fn relocate_page(
    form: &TableForm,
    page: &mut [u8],
    first: u64,
    moves: &Moves,
) -> Result<(), Overflow>
    requires narrow { form.now ≢ Widen }
    requires base { HasBase form.now }
    requires page { IsPage form.now page.old first }
    ensures { Relocates moves.now form.now first page.old page.new result }
{
    match form {
        TableForm::Chunks32 => relocate_narrow(page, first, moves),
        _ => relocate_each(form, page, first, moves),
    }
}

// Moves the places in a page of a table, row by row. A row that can't name its new places stays.
fn move_each(form: &TableForm, page: &mut [u8], moves: &Moves)
    requires narrow { form.now ≢ Widen }
    requires base { HasBase form.now }
    requires whole { length page.old ≡ width form.now * count form.now page.old }
    ensures { page.new ≡ relocated moves.now form.now (count form.now page.old) page.old }
{
    let width = form.width();
    let mut near = 0;
    for k in 0..page.len() / width {
        let at = k * width;
        move_row(form, &mut page[at..at + width], moves, &mut near);
    }
}

/// Moves the places in a page of a table. A row that can't name its new places stays.
pub fn relocate_rows(form: &TableForm, page: &mut [u8], moves: &Moves)
    requires narrow { form.now ≢ Widen }
    requires base { HasBase form.now }
    requires whole { length page.old ≡ width form.now * count form.now page.old }
    ensures { page.new ≡ relocated moves.now form.now (count form.now page.old) page.old }
{
    match form {
        TableForm::Chunks32 => move_narrow(page, moves),
        _ => move_each(form, page, moves),
    }
}

/// Moves the offsets of counted entries of `idx1` that count from the start of the file. With another base all stay.
pub fn relocate_idx1(page: &mut [u8], first: u64, base: Base, moves: &Moves) -> Result<(), Overflow>
    requires { IsPage (Idx1 base) page.old first }
    ensures { Relocates moves.now (Idx1 base) first page.old page.new result }
{
    relocate_page(&TableForm::Idx1(base), page, first, moves)
}

/// Moves the places of the used entries of a super index, which can name each place.
pub fn relocate_super(page: &mut [u8], moves: &Moves)
    requires { length page.old ≡ 16 * count Super page.old }
    ensures page { page.new ≡ relocated moves.now Super (count Super page.old) page.old }
    ensures named { RowsNamed moves.now Super (count Super page.old) page.old }
{
    let mut near = 0;
    for k in 0..page.len() / 16 {
        let at = k * 16;
        move_super(&mut page[at..at + 16], moves, &mut near);
    }
}

/// Moves the offsets of counted entries of a standard index, which count from a new base then.
pub fn relocate_standard(
    page: &mut [u8],
    first: u64,
    old: &IndexHead,
    new_base: u64,
    moves: &Moves,
) -> Result<(), Overflow>
    requires base { old.now.base < 2 ^ 63 }
    requires page { IsPage (Standard old.now new_base) page.old first }
    ensures { Relocates moves.now (Standard old.now new_base) first page.old page.new result }
{
    let form = TableForm::Standard {
        old: *old,
        new_base,
    };
    relocate_page(&form, page, first, moves)
}

/// Moves the places of chunks, of 64 bits where they are wide and else of 32.
pub fn relocate_chunks(
    page: &mut [u8],
    first: u64,
    wide: bool,
    moves: &Moves,
) -> Result<(), Overflow>
    requires { IsPage (chunks wide) page.old first }
    ensures { Relocates moves.now (chunks wide) first page.old page.new result }
{
    if wide {
        relocate_page(&TableForm::Chunks64, page, first, moves)
    } else {
        relocate_page(&TableForm::Chunks32, page, first, moves)
    }
}

/// The places of chunks of 32 bits, moved, as places of 64 bits.
pub fn widen_chunks(page: &[u8], out: &mut [u8], moves: &Moves)
    requires whole { length page.now ≡ 4 * count Widen page.now }
    requires twice { length out.old ≡ 2 * length page.now }
    ensures { out.new ≡ relocated moves.now Widen (count Widen page.now) page.now }
{
    let mut near = 0;
    for k in 0..page.len() / 4 {
        let place = moved_place(moves, &mut near, u64::from(be32_in(page, 4 * k)));
        set_be64(out, 8 * k, place);
    }
}
