// Worked tables.
use crate::{TableFault, read_core, write_core};
use core_edit::Edit;
use part_tree::{Bytes, Change, FieldName, Fields, FourCc, Value};
use std::test::Fail;

// Whether an edit has an item there that sets this text, or that removes.
fn shows(edit: &Edit, at: usize, text: Option<&[u8]>) -> bool {
    match edit.items().get(at) {
        Some(item) => match &item.change {
            Change::Set(bytes) => text == Some(bytes.as_slice()),
            Change::Remove => text.is_none(),
        },
        None => false,
    }
}

const LINES: [&[u8]; 2] = [
    b"<?xml version=\"1.0\" encoding=\"UTF-8\"?>\n<Core>\n",
    b"</Core>\n",
];

#[test]
fn faults_between(rt: HostRuntime) -> Result<(), Fail> {
    let rows: [(&[u8], TableFault); 22] = [
        (b"", TableFault::NoRow),
        (b"<File name=\"g.wav\">\n</File>\n", TableFault::NoRow),
        (b"\n", TableFault::Line { n: 3 }),
        (b"<File name=\"f.wav\">\n", TableFault::Line { n: 4 }),
        (
            b"<File name=\"f.wav\">\r\n</File>\n",
            TableFault::Line { n: 3 },
        ),
        (
            b"<File name=\"f\\q\">\n</File>\n",
            TableFault::Line { n: 3 },
        ),
        (
            b"<File name=\"f\">\n<Field name=\"NAME\">Hi</Field>\n</File>\n",
            TableFault::Line { n: 4 },
        ),
        (
            b"<File name=\"f\">\n<Field name=\"INAM\"></Field>\n</File>\n",
            TableFault::Line { n: 4 },
        ),
        (
            b"<File name=\"f\">\n<Field name=\"INAM\">a\\x4</Field>\n</File>\n",
            TableFault::Line { n: 4 },
        ),
        (
            b"<File name=\"f\">\n<Field name=\"INAM\">\xff</Field>\n</File>\n",
            TableFault::Line { n: 4 },
        ),
        (
            b"<File name=\"f\">\n<Field name=\"INAM\">a>b</Field>\n</File>\n",
            TableFault::Line { n: 4 },
        ),
        (
            b"<File name=\"f\">\n<Field name=\"INAM\">a<b</Field>\n</File>\n",
            TableFault::Line { n: 4 },
        ),
        (
            b"<File name=\"f\">\n<Field name=\"INAM\">a\"b</Field>\n</File>\n",
            TableFault::Line { n: 4 },
        ),
        (
            b"<File name=\"f\">\n<Field name=\"INAM\">a&b;</Field>\n</File>\n",
            TableFault::Line { n: 4 },
        ),
        (
            b"<File name=\"f\">\n<Field name=\"INAM\">a&amp</Field>\n</File>\n",
            TableFault::Line { n: 4 },
        ),
        (
            b"<File name=\"f\">\n<Field name=\"INAM\" >a</Field>\n</File>\n",
            TableFault::Line { n: 4 },
        ),
        (
            b"<File name=\"f\">\n<Remove name=\"INAM\"/>\n<Field name=\"\\x49NAM\">a</Field>\n</File>\n",
            TableFault::Line { n: 5 },
        ),
        (
            b"<File name=\"f\">\n<Remove name=\"INAM\" />\n</File>\n",
            TableFault::Line { n: 4 },
        ),
        (
            b"<File name=\"f\">\n<File name=\"f.wav\">\n</File>\n",
            TableFault::Line { n: 4 },
        ),
        (
            b"<File name=\"f.wav\">\n</File>\n<File name=\"f.wav\">\n\n",
            TableFault::TwoRows {
                first: 1,
                second: 2,
            },
        ),
        (
            b"<File name=\"g\">\n</File>\n<File name=\"f.wav\">\n</File>\n<File name=\"g\">\n</File>\n<File name=\"f\\x2Ewav\">\n",
            TableFault::TwoRows {
                first: 2,
                second: 4,
            },
        ),
        (b"</Core>\n", TableFault::Line { n: 4 }),
    ];
    for (lines, fault) in rows.iter() {
        let mut table = Vec::from_slice(rt.alloc(), LINES[0])?;
        table.extend_from_slice(lines)?;
        table.extend_from_slice(LINES[1])?;
        match read_core(rt.alloc(), &table, b"f.wav") {
            Ok(_) => assert!(rt; false, "no fault"),
            Err(found) => assert_eq!(rt; found, *fault),
        }
    }
    Ok(())
}

#[test]
fn faults_around(rt: HostRuntime) -> Result<(), Fail> {
    let rows: [(&[u8], TableFault); 6] = [
        (b"", TableFault::Line { n: 1 }),
        (b"<Core>\n</Core>\n", TableFault::Line { n: 1 }),
        (
            b"<?xml version=\"1.0\" encoding=\"UTF-8\"?>\n",
            TableFault::Line { n: 2 },
        ),
        (
            b"<?xml version=\"1.0\" encoding=\"UTF-8\"?>\n<Core>\n",
            TableFault::Line { n: 3 },
        ),
        (
            b"<?xml version=\"1.0\" encoding=\"UTF-8\"?>\n<Core>\n</Core>",
            TableFault::Line { n: 3 },
        ),
        (
            b"<?xml version=\"1.0\" encoding=\"UTF-8\"?>\r\n<Core>\n</Core>\n",
            TableFault::Line { n: 1 },
        ),
    ];
    for (table, fault) in rows.iter() {
        match read_core(rt.alloc(), table, b"f.wav") {
            Ok(_) => assert!(rt; false, "no fault"),
            Err(found) => assert_eq!(rt; found, *fault),
        }
    }
    Ok(())
}

#[test]
fn edits(rt: HostRuntime) -> Result<(), Fail> {
    let table =
        b"<?xml version=\"1.0\" encoding=\"UTF-8\"?>\n<Core>\n<File name=\"g.wav\">\n<Remove name=\"INAM\"/>\n</File>\n\
        <File name=\"a&amp;b.wav\">\n<Field name=\"\\x49NAM\">&lt;a&gt; \\x26 &quot;b&quot;\t\\n</Field>\n<Remove name=\"ICMT\"/>\n\
        <Field name=\"axml\">\\xFF</Field>\n</File>\n</Core>\n";
    match read_core(rt.alloc(), table, b"a&b.wav") {
        Ok(edit) => {
            assert_eq!(rt; edit.items().len(), 3);
            assert!(rt; shows(&edit, 0, Some(b"<a> & \"b\"\t\n")));
            assert!(rt; shows(&edit, 1, None));
            assert!(rt; shows(&edit, 2, Some(b"\xff")));
        }
        Err(_) => assert!(rt; false, "a fault"),
    }
    Ok(())
}

#[test]
fn tables_are_written(rt: HostRuntime) -> Result<(), Fail> {
    let mut fields = Fields::new(rt.alloc());
    let title = Bytes::new(rt.alloc(), b"<Hi> & \"Ho\"\n\0")?;
    fields.add(
        FieldName::Info(FourCc(*b"INAM")),
        Value {
            lang: 0,
            raw: title,
        },
    )?;
    let text = write_core(rt.alloc(), b"f.wav", &fields)?;
    let table = b"<?xml version=\"1.0\" encoding=\"UTF-8\"?>\n<Core>\n<File name=\"f.wav\">\n\
        <Field name=\"INAM\">&lt;Hi&gt; &amp; &quot;Ho&quot;\\n</Field>\n</File>\n</Core>\n";
    assert_eq!(rt; text.as_slice(), table.as_slice());
    Ok(())
}
