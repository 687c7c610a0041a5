// Worked tables.
use crate::{TableFault, read_table, write_row};
use core_edit::Edit;
use part_tree::{Bytes, Change, FieldName, Fields, FourCc, Value};
use std::test::Fail;

// The items as text: the first letters of each name's place, and what becomes of it.
fn shows(edit: &Edit, at: usize, text: Option<&[u8]>) -> bool {
    match edit.items().get(at) {
        Some(item) => match &item.change {
            Change::Set(bytes) => text == Some(bytes.as_slice()),
            Change::Remove => text.is_none(),
        },
        None => false,
    }
}

#[test]
fn faults(rt: HostRuntime) -> Result<(), Fail> {
    let rows: [(&[u8], TableFault); 16] = [
        (b"", TableFault::NoHeader),
        (b"Name,INAM\n", TableFault::NoHeader),
        (
            b"FileName,NAME\nf.wav,Hi\n",
            TableFault::UnknownColumn { n: 2 },
        ),
        (b"FileName,\\x49NAM\n", TableFault::UnknownColumn { n: 2 }),
        (
            b"FileName,INAM,IART,INAM,X\n",
            TableFault::TwiceColumn { n: 4 },
        ),
        (b"FileName,key:a,key:a\n", TableFault::TwiceColumn { n: 3 }),
        (
            b"FileName,INAM\nf.wav,Hi\nf.wav\n",
            TableFault::RowLength { row: 2 },
        ),
        (
            b"FileName,INAM\ng.wav,\xff\n",
            TableFault::NotUtf8 { row: 1 },
        ),
        (
            b"FileName,INAM\n\\x4,Hi\n",
            TableFault::BadEscape { row: 1, col: 1 },
        ),
        (
            b"FileName,INAM\nf.wav,\\x4\n",
            TableFault::BadEscape { row: 1, col: 2 },
        ),
        (
            b"FileName,INAM\nf.wav,Hi\nf.wav,Ho\n",
            TableFault::TwoRows {
                first: 1,
                second: 2,
            },
        ),
        (
            b"FileName,INAM\nf.wav,Hi\n\ng.wav,\\x\nf.wav,Ho\n",
            TableFault::TwoRows {
                first: 1,
                second: 3,
            },
        ),
        (b"FileName,INAM\ng.wav,Hi\n", TableFault::NoRow),
        (b"FileName\n", TableFault::NoRow),
        (
            b"FileName,INAM\n\"f.wav\",\"a,\"\"b\"\nx\n",
            TableFault::RowLength { row: 2 },
        ),
        (
            b"FileName,INAM\ng.wav,\\q\ng.wav,\\q,\n",
            TableFault::RowLength { row: 2 },
        ),
    ];
    for (table, fault) in rows.iter() {
        match read_table(rt.alloc(), table, b"f.wav") {
            Ok(_) => assert!(rt; false, "no fault"),
            Err(found) => assert_eq!(rt; found, *fault),
        }
    }
    Ok(())
}

#[test]
fn edits(rt: HostRuntime) -> Result<(), Fail> {
    let table =
        b"\xef\xbb\xbfFileName,INAM,axml,ICMT,IART\r\nf.wav,\"a,\"\"b\",\\xFF,\\d,\r\ng.wav,\\q,\\q,\\q,\\q\r\n";
    match read_table(rt.alloc(), table, b"f.wav") {
        Ok(edit) => {
            assert_eq!(rt; edit.items().len(), 3);
            assert!(rt; shows(&edit, 0, Some(b"a,\"b")));
            assert!(rt; shows(&edit, 1, Some(b"\xff")));
            assert!(rt; shows(&edit, 2, None));
        }
        Err(_) => assert!(rt; false, "a fault"),
    }
    Ok(())
}

#[test]
fn rows_are_written(rt: HostRuntime) -> Result<(), Fail> {
    let mut fields = Fields::new(rt.alloc());
    let title = Bytes::new(rt.alloc(), b"Hi\0")?;
    fields.add(
        FieldName::Info(FourCc(*b"INAM")),
        Value {
            lang: 0,
            raw: title,
        },
    )?;
    let text = write_row(rt.alloc(), b"f.wav", &fields)?;
    assert_eq!(rt; text.as_slice(), b"FileName,INAM\nf.wav,Hi\n".as_slice());
    Ok(())
}
