// Key tables read and spelled.
use crate::{KeyChild, read_keys, set_key, spell_keys};
use std::test::Fail;

// A handler of keys, the key `a`, and its value `Hi`.
const ONE: &[u8] =
    b"\0\0\0\x21hdlr\0\0\0\0\0\0\0\0mdta\0\0\0\0\0\0\0\0\0\0\0\0\0\0\0\0\x19keys\0\0\0\0\0\0\0\x01\0\0\0\x09mdtaa\0\0\0\x22ilst\0\0\0\x1A\0\0\0\x01\0\0\0\x12data\0\0\0\x01\0\0\0\0Hi";

#[test]
fn reads_and_spells_a_table(rt: HostRuntime) -> Result<(), Fail> {
    let Some(table) = read_keys(rt.alloc(), ONE)? else {
        assert!(rt; false);
        return Ok(());
    };
    assert_eq!(rt; spell_keys(rt.alloc(), &table)?.as_slice(), ONE);
    assert_eq!(rt; table.children.as_slice().len(), 3);
    match &table.children.as_slice()[2] {
        KeyChild::Items(items) => {
            assert_eq!(rt; items.as_slice().len(), 1);
            assert_eq!(rt; items.as_slice()[0].index, 1);
            let values = items.as_slice()[0].values.as_slice();
            assert_eq!(rt; values.len(), 1);
            assert_eq!(rt; values[0].as_slice(), b"\0\0\0\x01\0\0\0\0Hi".as_slice());
        }
        _ => assert!(rt; false),
    }
    Ok(())
}

#[test]
fn reads_no_other_body(rt: HostRuntime) -> Result<(), Fail> {
    assert!(rt; read_keys(rt.alloc(), b"")?.is_none());
    assert!(rt; read_keys(rt.alloc(), &ONE[..91])?.is_none());
    assert!(rt; read_keys(rt.alloc(), &ONE[33..])?.is_none());
    Ok(())
}

// The same with `Ho`, and with no value.
const OTHER: &[u8] =
    b"\0\0\0\x21hdlr\0\0\0\0\0\0\0\0mdta\0\0\0\0\0\0\0\0\0\0\0\0\0\0\0\0\x19keys\0\0\0\0\0\0\0\x01\0\0\0\x09mdtaa\0\0\0\x22ilst\0\0\0\x1A\0\0\0\x01\0\0\0\x12data\0\0\0\x01\0\0\0\0Ho";

const NONE: &[u8] =
    b"\0\0\0\x21hdlr\0\0\0\0\0\0\0\0mdta\0\0\0\0\0\0\0\0\0\0\0\0\0\0\0\0\x19keys\0\0\0\0\0\0\0\x01\0\0\0\x09mdtaa\0\0\0\x08ilst";

#[test]
fn sets_and_removes_keys(rt: HostRuntime) -> Result<(), Fail> {
    let Some(table) = read_keys(rt.alloc(), ONE)? else {
        assert!(rt; false);
        return Ok(());
    };
    let other = set_key(rt.alloc(), &table, b"a", Some(b"\0\0\0\x01\0\0\0\0Ho"))?;
    assert_eq!(rt; spell_keys(rt.alloc(), &other)?.as_slice(), OTHER);
    let none = set_key(rt.alloc(), &other, b"a", None)?;
    assert_eq!(rt; spell_keys(rt.alloc(), &none)?.as_slice(), NONE);
    let again = set_key(rt.alloc(), &none, b"a", Some(b"\0\0\0\x01\0\0\0\0Hi"))?;
    assert_eq!(rt; spell_keys(rt.alloc(), &again)?.as_slice(), ONE);
    Ok(())
}
