// What stands in the atoms of a worked `moov`.
use crate::{Nested, atoms_of, nested_of};
use me_disk::{Depot, MemoryDepot, Room, Slot};
use part_tree::{FourCc, NoMemory};
use std::alloc::Global;
use std::test::Fail;

// The body of a `moov`: a track whose `stbl` has a place, padding, and two user data with two items each.
const BODY: [u8; 108] =
    *b"\0\0\04trak\0\0\0,mdia\0\0\0$minf\0\0\0\x1Cstbl\0\0\0\x14stco\0\0\0\0\0\0\0\x01\0\0\0w\0\0\0\x08free\0\0\0\x18udta\0\0\0\x08abcd\0\0\0\x08efgh\0\0\0\x18udta\0\0\0\x08abcd\0\0\0\x08efgh";

fn nested_in<D: Depot>(alloc: Global, depot: &mut D) -> Result<Nested, Fail> {
    let len = match depot.len(Slot::Main) {
        Err(_) => return Err(Fail::from(NoMemory)),
        Ok(len) => len,
    };
    let atoms = match atoms_of(alloc, depot, 0, len) {
        Err(_) => return Err(Fail::from(NoMemory)),
        Ok(atoms) => atoms,
    };
    match nested_of(alloc, depot, atoms.as_slice()) {
        Err(_) => Err(Fail::from(NoMemory)),
        Ok(nested) => Ok(nested),
    }
}

#[test]
fn tells_what_stands_in_atoms(rt: HostRuntime) -> Result<(), Fail> {
    let alloc = rt.alloc();
    let file = Vec::from_slice(alloc, &BODY)?;
    let room = Room { calls: 0, bytes: 0 };
    let mut depot = match MemoryDepot::new(alloc, Some(file), None, room, Vec::new(alloc)) {
        Err(_) => return Err(Fail::from(NoMemory)),
        Ok(depot) => depot,
    };
    let nested = nested_in(alloc, &mut depot)?;
    assert_eq!(rt; nested.counts.as_slice(), [5, 1, 3, 1].as_slice());
    let kinds = [*b"trak", *b"mdia", *b"minf", *b"stbl", *b"stco"];
    let places = [0, 8, 16, 24, 32];
    assert_eq!(rt; nested.holders.len(), kinds.len());
    for (holder, (kind, at)) in nested.holders.iter().zip(kinds.iter().zip(&places)) {
        assert_eq!(rt; holder.kind, FourCc(*kind));
        assert_eq!(rt; holder.at, *at);
    }
    Ok(())
}
