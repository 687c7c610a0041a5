// Worked indexes.
use crate::{
    HeadFault, StdEntry, SuperEntry, check_standard, read_head, read_standard, read_super,
};
use me_disk::{Run, SparseDepot};
use part_tree::{IndexFault, Span};
use std::alloc::Global;
use std::test::Fail;

// A super index with one entry of two in use.
const SUPER: [u8; 56] =
    *b"\x04\0\x01\0\x01\0\0\x0000db............\x40\x01\0\0\0\0\0\0\x2c\0\0\0\x03\0\0\0................";

// A movi of a frame of eight bytes and a standard index of two fields for it, of which the second entry is astray.
const FILE: [u8; 76] =
    *b"movi00db\x08\0\0\0abcdefghix00\x30\0\0\0\x03\0\x01\x01\x02\0\0\x0000db\x04\0\0\0\0\0\0\0....\x08\0\0\0\x08\0\0\0\x0c\0\0\0\x09\0\0\0\x08\0\0\x80\x00\0\0\0";

const MOVI: Span = Span { at: 0, len: 20 };

fn depot_of(alloc: Global, file: &[u8]) -> Result<SparseDepot, Fail> {
    let mut runs = Vec::new(alloc);
    runs.push(Run::Bytes(file.to_vec(alloc)?))?;
    Ok(SparseDepot::new(alloc, Some(runs))?)
}

#[test]
fn super_entries_are_those_in_use(rt: HostRuntime) -> Result<(), Fail> {
    let entry = SuperEntry {
        place: 320,
        size: 44,
        duration: 3,
    };
    assert_eq!(rt; read_super(&SUPER, 0), Some(entry));
    assert_eq!(rt; read_super(&SUPER, 1), None);
    Ok(())
}

#[test]
fn heads_are_read_or_refused(rt: HostRuntime) -> Result<(), Fail> {
    assert_eq!(rt; read_head(&FILE[28..75]).err(), Some(HeadFault::Short));
    assert_eq!(rt; read_head(&FILE[29..]).err(), Some(HeadFault::Wrong));
    let head = read_head(&FILE[28..])?;
    let first = StdEntry {
        offset: 8,
        size: 8,
        key: true,
        second: Some(12),
    };
    let last = StdEntry {
        offset: 9,
        size: 8,
        key: false,
        second: Some(0),
    };
    assert_eq!(rt; head.base, 4);
    assert_eq!(rt; read_standard(&FILE[28..], &head, 0), Some(first));
    assert_eq!(rt; read_standard(&FILE[28..], &head, 1), Some(last));
    assert_eq!(rt; read_standard(&FILE[28..], &head, 2), None);
    Ok(())
}

#[test]
fn standard_entries_lie_in_one_movi(rt: HostRuntime) -> Result<(), Fail> {
    let mut depot = depot_of(rt.alloc(), &FILE)?;
    let own = Span { at: 28, len: 48 };
    let wide = Span { at: 0, len: 76 };
    assert_eq!(rt;
        check_standard(&mut depot, 20, &[MOVI], &[own]),
        Err(IndexFault::Astray { entry: 1 })
    );
    assert_eq!(rt;
        check_standard(&mut depot, 20, &[wide], &[own]),
        Err(IndexFault::Overlap { entry: 1 })
    );
    assert_eq!(rt; check_standard(&mut depot, 20, &[wide], &[]), Ok(2));
    Ok(())
}
