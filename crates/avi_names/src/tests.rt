// Worked lists of streams.
use crate::{spell_name, strl_names, strl_new_place};
use me_disk::{Run, SparseDepot};
use part_tree::Span;
use std::alloc::Global;
use std::test::Fail;

// A stream's list behind its type word: a header, a name, and a format.
const LIST: [u8; 34] = *b"strh\x02\0\0\0abstrn\x03\0\0\0Hi\0\0strf\x04\0\0\0abcd";

fn depot_of(alloc: Global, file: &[u8]) -> Result<SparseDepot, Fail> {
    let mut runs = Vec::new(alloc);
    runs.push(Run::Bytes(file.to_vec(alloc)?))?;
    Ok(SparseDepot::new(alloc, Some(runs))?)
}

#[test]
fn names_stand_in_their_list(rt: HostRuntime) -> Result<(), Fail> {
    let mut depot = depot_of(rt.alloc(), &LIST)?;
    let strl = Span { at: 0, len: 34 };
    let names = strl_names(rt.alloc(), &mut depot, strl)?;
    assert_eq!(rt; names.as_slice(), [Span { at: 18, len: 3 }].as_slice());
    assert_eq!(rt; strl_new_place(&mut depot, strl)?, 34);
    let first = Span { at: 10, len: 12 };
    assert_eq!(rt; strl_new_place(&mut depot, first)?, 10);
    Ok(())
}

#[test]
fn names_are_spelled_with_their_pad(rt: HostRuntime) -> Result<(), Fail> {
    assert_eq!(rt;
        spell_name(rt.alloc(), b"Hi")?.as_slice(),
        b"strn\x03\0\0\0Hi\0\0".as_slice()
    );
    assert_eq!(rt;
        spell_name(rt.alloc(), b"Cam")?.as_slice(),
        b"strn\x04\0\0\0Cam\0".as_slice()
    );
    Ok(())
}
