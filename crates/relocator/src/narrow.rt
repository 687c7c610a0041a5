// Pages of chunk places of 32 bits. A movie has up to a million of them and more, so they have loops of their own.
ghost use Rattle.std.specs.Prelude.{◌≡◌, ◌*◌, ◌/◌, length};
ghost use Rattle.part_tree.specs.declared.table.TableForm.TheVariants.{Chunks32};
ghost use Rattle.part_tree.specs.Tables.{RowsNamed, relocated};
ghost use Rattle.relocator.specs.Pages.{Relocates, count, IsPage};

use crate::page::Overflow;
use crate::row::move_chunk32;
use part_tree::Moves;

// Moves the places in a page of a table whose first row has this number, up to the first that can't be named.
pub(crate) fn relocate_narrow(page: &mut [u8], first: u64, moves: &Moves) -> Result<(), Overflow>
    requires { IsPage Chunks32 page.old first }
    ensures { Relocates moves.now Chunks32 first page.old page.new result }
{
    let mut near = 0;
    for k in 0..page.len() / 4 {
        let at = k * 4;
        if let Some(place) = move_chunk32(&mut page[at..at + 4], moves, &mut near) {
            return Err(Overflow {
                entry: first + k as u64,
                place,
            });
        }
    }
    Ok(())
}

// Moves the places in a page of a table. One that can't be named stays.
pub(crate) fn move_narrow(page: &mut [u8], moves: &Moves)
    requires { length page.old ≡ 4 * count Chunks32 page.old }
    ensures { page.new ≡ relocated moves.now Chunks32 (count Chunks32 page.old) page.old }
{
    let mut near = 0;
    for k in 0..page.len() / 4 {
        let at = k * 4;
        move_chunk32(&mut page[at..at + 4], moves, &mut near);
    }
}
