// The parts of worked files.
use crate::tell_parts;
use me_disk::{Run, SparseDepot};
use part_tree::{FourCc, NoMemory, Part, ReadFault, Role, Span};
use std::alloc::Global;
use std::test::Fail;
use wave_file::read_wave;

// A form with a format, sound of four bytes and a list of one item; and a tail of two bytes.
const FILE: &[u8] =
    b"RIFF\x40\0\0\0WAVEfmt \x10\0\0\0\x01\0\x01\0\x44\xac\0\0\x88\x58\x01\0\x02\0\x10\0data\x04\0\0\0\x01\x02\x03\x04LIST\x10\0\0\0INFOINAM\x03\0\0\0Hi\0\0..";

// A depot that holds these bytes.
fn held(alloc: Global, bytes: &[u8]) -> Result<SparseDepot, NoMemory> {
    let Ok(runs) = vec![in alloc; Run::Bytes(Vec::from_slice(alloc, bytes)?)] else {
        return Err(NoMemory);
    };
    SparseDepot::new(alloc, Some(runs))
}

fn told(alloc: Global, bytes: &[u8]) -> Result<Vec<Part>, ReadFault> {
    let mut depot = held(alloc, bytes)?;
    let map = read_wave(alloc, &mut depot)?;
    tell_parts(alloc, &mut depot, &map)
}

#[test]
fn items_and_the_tail_are_told(rt: HostRuntime) -> Result<(), Fail> {
    let parts = told(rt.alloc(), FILE)?;
    assert_eq!(rt; parts.len(), 5);
    let item = Part {
        id: FourCc(*b"INAM"),
        at: 60,
        body: Span { at: 68, len: 3 },
        next: 72,
        role: Role::Opaque,
    };
    assert_eq!(rt; parts[3], item);
    let tail = Part {
        id: FourCc([0; 4]),
        at: 72,
        body: Span { at: 72, len: 2 },
        next: 74,
        role: Role::Rest,
    };
    assert_eq!(rt; parts[4], tail);
    Ok(())
}
