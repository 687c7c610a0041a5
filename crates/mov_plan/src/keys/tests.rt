// A key that is set in a new table and removed again.
ghost use Rattle.std.specs.Prelude.{◌≤◌, length, IfOk};
ghost use Rattle.std.specs.List.{AllByRecursion};
ghost use Rattle.std.specs.Option.{ForSome};
ghost use Rattle.qt_keys.specs.Read.{IsRead};
ghost use Rattle.mov_plan.specs.Keyed.{CanPut};

use super::*;
use std::test::Fail;

// A change of a key.
fn change(alloc: Global, name: &[u8], value: Option<&[u8]>) -> Result<KeyChange, NoMemory>
    requires { ForSome value (λ v. 8 ≤ length v.now) }
    ensures { IfOk result CanPut }
{
    let name = Bytes::new(alloc, name)?;
    match value {
        None => Ok(KeyChange { name, value: None }),
        Some(raw) => {
            let raw = Bytes::new(alloc, raw)?;
            Ok(KeyChange {
                name,
                value: Some(raw),
            })
        }
    }
}

// The body of a table after an edit.
fn keyed(alloc: Global, table: &KeyTable, changes: &[KeyChange]) -> Result<Bytes, Fail>
    requires read { IsRead table.now }
    requires values { AllByRecursion CanPut changes.now }
{
    match edit_keys(alloc, table, changes) {
        Ok(bytes) => Ok(bytes),
        Err(KeysFault::TooLarge { .. } | KeysFault::Memory) => Err(Fail::from(NoMemory)),
    }
}

// A key with a text is put into a new table, beside another one, and removed again: its entry stays.
#[test]
fn edits_keys(rt: HostRuntime) -> Result<(), Fail> {
    let alloc = rt.alloc();
    let set = change(alloc, b"a", Some(b"\0\0\0\x01\0\0\0\0Hi"))?;
    let none = change(alloc, b"bc", None)?;
    let body = keyed(alloc, &new_keys(alloc)?, &[set, none])?;
    assert_eq!(rt; body.as_slice().len(), 92);
    assert_eq!(rt;
        &body.as_slice()[33..],
        b"\0\0\0\x19keys\0\0\0\0\0\0\0\x01\0\0\0\x09mdtaa\0\0\0\x22ilst\0\0\0\x1A\0\0\0\x01\0\0\0\x12data\0\0\0\x01\0\0\0\0Hi".as_slice()
    );
    let Some(table) = read_keys(alloc, body.as_slice())? else {
        return Err(Fail::from(NoMemory));
    };
    let gone = change(alloc, b"a", None)?;
    let body = keyed(alloc, &table, &[gone])?;
    assert_eq!(rt; body.as_slice().len(), 66);
    assert_eq!(rt;
        &body.as_slice()[33..],
        b"\0\0\0\x19keys\0\0\0\0\0\0\0\x01\0\0\0\x09mdtaa\0\0\0\x08ilst".as_slice()
    );
    Ok(())
}
