// Worked pages.
use crate::{
    Overflow, new_base, relocate_chunks, relocate_idx1, relocate_standard, relocate_super,
    widen_chunks,
};
use part_tree::{Base, FourCc, IndexHead, Moves, Span};
use std::test::Fail;

const HEAD: IndexHead = IndexHead {
    longs: 2,
    two_fields: false,
    standard: true,
    used: 2,
    id: FourCc(*b"00dc"),
    base: 1000,
};

// 200 bytes stay, and 100 bytes go 24 bytes further.
fn apart(rt: &HostRuntime) -> Result<Moves, Fail> {
    let pairs = [
        (Span { at: 1000, len: 200 }, 1000),
        (Span { at: 1500, len: 100 }, 1524),
    ];
    Ok(Moves::new(rt.alloc(), &pairs)?)
}

// All bytes go 14 bytes further.
fn further(rt: &HostRuntime) -> Result<Moves, Fail> {
    let all = Span {
        at: 0,
        len: 4_300_000_000,
    };
    Ok(Moves::new(rt.alloc(), &[(all, 14)])?)
}

#[test]
fn a_standard_index_moves_with_its_first_entry(rt: HostRuntime) -> Result<(), Fail> {
    let moves = apart(&rt)?;
    assert_eq!(rt; new_base(&HEAD, Some(1500), &moves), 1024);
    // offset 500 and size 8, and offset 0 and size 8
    let mut page = [0xf4, 1, 0, 0, 8, 0, 0, 0, 0, 0, 0, 0, 8, 0, 0, 0];
    let answer = relocate_standard(&mut page, 0, &HEAD, 1024, &moves);
    let misfit = Overflow {
        entry: 1,
        place: 1000,
    };
    assert_eq!(rt; answer, Err(misfit));
    assert_eq!(rt; page, [0xf4, 1, 0, 0, 8, 0, 0, 0, 0, 0, 0, 0, 8, 0, 0, 0]);
    Ok(())
}

#[test]
fn both_fields_move(rt: HostRuntime) -> Result<(), Fail> {
    let moves = apart(&rt)?;
    let head = IndexHead {
        longs: 3,
        two_fields: true,
        ..HEAD
    };
    // offset 510, size 8, second field at 514; and an entry of length 0
    let mut page = [
        0xfe, 1, 0, 0, 8, 0, 0, 0, 2, 2, 0, 0, 1, 0, 0, 0, 0, 0, 0, 0x80, 2, 0, 0, 0,
    ];
    let answer = relocate_standard(&mut page, 0, &head, 1000, &moves);
    assert_eq!(rt; answer, Ok(()));
    let want = [
        0x16, 2, 0, 0, 8, 0, 0, 0, 0x1a, 2, 0, 0, 1, 0, 0, 0, 0, 0, 0, 0x80, 2, 0, 0, 0,
    ];
    assert_eq!(rt; page, want);
    Ok(())
}

#[test]
fn entries_that_count_from_the_start_move(rt: HostRuntime) -> Result<(), Fail> {
    let moves = apart(&rt)?;
    let old = [
        b'0', b'0', b'd', b'c', 16, 0, 0, 0, 0xdc, 5, 0, 0, 8, 0, 0, 0, b'0', b'0', b'd', b'c', 0,
        0, 0, 0, 0xdc, 5, 0, 0, 0, 0, 0, 0,
    ];
    let mut page = old;
    assert_eq!(rt;
        relocate_idx1(&mut page, 7, Base::Movi(212), &moves),
        Ok(())
    );
    assert_eq!(rt; page, old);
    assert_eq!(rt;
        relocate_idx1(&mut page, 7, Base::FileStart, &moves),
        Ok(())
    );
    let mut want = old;
    want[8] = 0xf4;
    assert_eq!(rt; page, want);
    Ok(())
}

#[test]
fn a_super_entry_moves_and_an_unused_one_stays(rt: HostRuntime) -> Result<(), Fail> {
    let moves = apart(&rt)?;
    let mut page = [
        0xdc, 5, 0, 0, 0, 0, 0, 0, 32, 0, 0, 0, 1, 0, 0, 0, 0, 0, 0, 0, 0, 0, 0, 0, 9, 0, 0, 0, 0,
        0, 0, 0,
    ];
    let mut want = page;
    want[0] = 0xf4;
    relocate_super(&mut page, &moves);
    assert_eq!(rt; page, want);
    Ok(())
}

#[test]
fn chunk_places_move_and_are_widened(rt: HostRuntime) -> Result<(), Fail> {
    let moves = further(&rt)?;
    // 172 and 4,294,967,290
    let old = [0, 0, 0, 172, 0xff, 0xff, 0xff, 0xfa];
    let mut page = old;
    let misfit = Overflow {
        entry: 4_097,
        place: 4_294_967_304,
    };
    assert_eq!(rt;
        relocate_chunks(&mut page, 4_096, false, &moves),
        Err(misfit)
    );
    assert_eq!(rt; page, [0, 0, 0, 186, 0xff, 0xff, 0xff, 0xfa]);
    let mut wide = [0; 16];
    widen_chunks(&old, &mut wide, &moves);
    assert_eq!(rt; wide, [0, 0, 0, 0, 0, 0, 0, 186, 0, 0, 0, 1, 0, 0, 0, 8]);
    assert_eq!(rt; relocate_chunks(&mut wide, 0, true, &moves), Ok(()));
    assert_eq!(rt; wide, [0, 0, 0, 0, 0, 0, 0, 200, 0, 0, 0, 1, 0, 0, 0, 22]);
    Ok(())
}
