// Cells as places.
ghost use Rattle.std.specs.Prelude.{◌≡◌, List, map, length, IfOk, ◌+◌};
ghost use Rattle.edit_planner.specs.Stand.{count_of as count_in, placed, what_of as what_in};

use crate::cells::{CellAt, Content};
use part_tree::{Bytes, NoMemory};
use std::alloc::Global;
use unit_plan::{Place, What};

// How many parts a cell counts for. No memory holds as many as 64 bits don't count.
fn count_of(content: &Content) -> Result<u64, NoMemory>
    ensures { IfOk result (λ n. n ≡ count_in content.now) }
{
    match content {
        Content::Listed(list) => match (list.count() as u64).checked_add(1) {
            None => Err(NoMemory),
            Some(parts) => Ok(parts),
        },
        Content::Edited { now: _, parts } => Ok(*parts),
        _ => Ok(1),
    }
}

// What is to stand in a cell.
fn what_of(alloc: Global, content: &Content) -> Result<What, NoMemory>
    ensures { IfOk result (λ what. what ≡ what_in content.now) }
{
    match content {
        Content::Gap => Ok(What::Pads),
        Content::Edited { now, parts: _ } => {
            let bytes = Bytes::new(alloc, now.as_slice())?;
            Ok(What::Changes(bytes))
        }
        _ => Ok(What::Stays),
    }
}

fn place_of(alloc: Global, cell: &CellAt) -> Result<Place, NoMemory>
    ensures { IfOk result (λ place. place ≡ placed cell.now) }
{
    let parts = count_of(&cell.content)?;
    let what = what_of(alloc, &cell.content)?;
    Ok(Place {
        at: cell.at,
        next: cell.next,
        lacks_pad: cell.lacks_pad,
        parts,
        what,
    })
}

/// The places of a row of cells.
pub fn places_in(alloc: Global, cells: &[CellAt]) -> Result<Vec<Place>, NoMemory>
    ensures { IfOk result (λ places. places.items ≡ map placed cells.now) }
{
    let mut places = Vec::new(alloc);
    'cells: for cell in cells {
        let place = place_of(alloc, cell)?;
        match places.push(place) {
            Err(_) => return Err(NoMemory),
            Ok(()) => {}
        }
    }
    Ok(places)
}
