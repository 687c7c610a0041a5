// Worked tables.
use crate::{IdxEntry, check_idx1, entry_at, entry_base};
use me_disk::{Run, SparseDepot};
use part_tree::{Base, FourCc, IndexFault, Span};
use std::alloc::Global;
use std::test::Fail;

// Eight bytes, a movi of one frame, and a table of three entries for it: from movi, from the start of the file, and astray.
const FILE: [u8; 76] =
    *b"........movi00db\x08\0\0\0abcdefgh00db\x10\0\0\0\x04\0\0\0\x08\0\0\000db\x10\0\0\0\x0c\0\0\0\x08\0\0\000db\x10\0\0\0\x64\0\0\0\x08\0\0\0";

const MOVI: Span = Span { at: 8, len: 20 };

// The three entries, each as a table.
const FIRST: Span = Span { at: 28, len: 16 };

const SECOND: Span = Span { at: 44, len: 16 };

const THIRD: Span = Span { at: 60, len: 16 };

fn depot_of(alloc: Global, file: &[u8]) -> Result<SparseDepot, Fail> {
    let mut runs = Vec::new(alloc);
    runs.push(Run::Bytes(file.to_vec(alloc)?))?;
    Ok(SparseDepot::new(alloc, Some(runs))?)
}

#[test]
fn entries_are_read_up_to_the_end(rt: HostRuntime) -> Result<(), Fail> {
    let second = IdxEntry {
        id: FourCc(*b"00db"),
        flags: 16,
        offset: 12,
        len: 8,
    };
    assert_eq!(rt; entry_at(&FILE[28..], 1), Some(second));
    assert_eq!(rt; entry_at(&FILE[28..75], 2), None);
    Ok(())
}

#[test]
fn the_first_entry_tells_the_base(rt: HostRuntime) -> Result<(), Fail> {
    let mut depot = depot_of(rt.alloc(), &FILE)?;
    assert_eq!(rt; entry_base(&mut depot, FIRST, MOVI, &[]), Ok(Base::Movi(8)));
    assert_eq!(rt;
        entry_base(&mut depot, SECOND, MOVI, &[]),
        Ok(Base::FileStart)
    );
    assert_eq!(rt;
        entry_base(&mut depot, THIRD, MOVI, &[]),
        Err(IndexFault::NoBase)
    );
    Ok(())
}

#[test]
fn entries_are_counted_or_refused(rt: HostRuntime) -> Result<(), Fail> {
    let mut depot = depot_of(rt.alloc(), &FILE)?;
    let all = Span { at: 28, len: 48 };
    let last = Span { at: 44, len: 32 };
    assert_eq!(rt;
        check_idx1(&mut depot, all, MOVI, Base::Movi(8), &[]),
        Ok(1)
    );
    assert_eq!(rt;
        check_idx1(&mut depot, last, MOVI, Base::FileStart, &[]),
        Err(IndexFault::Astray { entry: 1 })
    );
    assert_eq!(rt;
        check_idx1(
            &mut depot,
            SECOND,
            MOVI,
            Base::FileStart,
            &[Span { at: 24, len: 4 }]
        ),
        Err(IndexFault::Overlap { entry: 0 })
    );
    Ok(())
}
