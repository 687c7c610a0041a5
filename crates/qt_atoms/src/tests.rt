// Atoms worked by hand, of each form of header, and headers that are none.
use crate::{AtomAt, AtomFault, AtomWalker, HeaderFault, Parent, SizeForm};
use me_disk::{Depot, MemoryDepot, Room, Slot};
use part_tree::{FourCc, Span};
use std::alloc::{AllocError, Global};
use std::test::Fail;

// A short atom, a long one, and one that goes on to the end.
const THREE: [u8; 41] =
    *b"\0\0\0\x0Cftyp\x01\x02\x03\x04\0\0\0\x01free\0\0\0\0\0\0\0\x12\x05\x06\0\0\0\0mdat\x07\x08\x09";

fn depot_of(alloc: Global, file: &[u8]) -> Result<MemoryDepot, AllocError> {
    let room = Room {
        calls: 10,
        bytes: 100,
    };
    match MemoryDepot::new(
        alloc,
        Some(file.to_vec(alloc)?),
        None,
        room,
        Vec::new(alloc),
    ) {
        Ok(depot) => Ok(depot),
        Err(_) => Err(AllocError),
    }
}

fn atom(kind: &[u8; 4], at: u64, form: SizeForm, body: Span, next: u64) -> AtomAt {
    AtomAt {
        kind: FourCc(*kind),
        at,
        body,
        form,
        next,
    }
}

// Up to four atoms from a place of the file on.
fn walk<D: Depot>(
    depot: &mut D,
    at: u64,
    parent: Parent,
) -> Result<[Option<AtomAt>; 4], AtomFault> {
    let len = match depot.len(Slot::Main) {
        Err(_) => return Err(AtomFault::Depot),
        Ok(len) => len,
    };
    if at > len {
        return Err(AtomFault::Truncated { at });
    }
    let mut walker = AtomWalker::new(at, len, parent);
    let first = walker.next(depot)?;
    let second = walker.next(depot)?;
    let third = walker.next(depot)?;
    let fourth = walker.next(depot)?;
    Ok([first, second, third, fourth])
}

#[test]
fn reads_each_form_of_header(rt: HostRuntime) -> Result<(), Fail> {
    let mut depot = depot_of(rt.alloc(), &THREE)?;
    let wanted = [
        Some(atom(b"ftyp", 0, SizeForm::Short, Span { at: 8, len: 4 }, 12)),
        Some(atom(b"free", 12, SizeForm::Long, Span { at: 28, len: 2 }, 30)),
        Some(atom(b"mdat", 30, SizeForm::ToEnd, Span { at: 38, len: 3 }, 41)),
        None,
    ];
    assert_eq!(rt; walk(&mut depot, 0, Parent::File), Ok(wanted));
    let small = Err(AtomFault::SizeSmall { at: 30 });
    assert_eq!(rt; walk(&mut depot, 30, Parent::Atom), small);
    Ok(())
}

#[test]
fn refuses_headers_that_are_none(rt: HostRuntime) {
    let small = Err(HeaderFault::SizeSmall { at: 0 });
    let cut = Err(HeaderFault::Truncated { at: 0 });
    let rows = [
        (*b"\0\0\0\x07free", Parent::File, small),
        (*b"\0\0\0\0free", Parent::Atom, small),
        (*b"\0\0\0\0free", Parent::UserData, Ok(None)),
        (*b"\0\0\0\x09free", Parent::File, cut),
        (*b"\0\0\0\x01free", Parent::File, cut),
    ];
    for (bytes, parent, wanted) in rows {
        let mut walker = AtomWalker::new(0, 8, parent);
        assert_eq!(rt; walker.next_in(&bytes), wanted);
    }
}
