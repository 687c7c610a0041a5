// Worked rows.
use crate::{
    BextField, Bytes, FieldName, Fields, FourCc, KeyName, Kind, Moves, Span, Value, kind_of,
    rule_name,
};
use std::process::Abort;
use std::test::Fail;

#[test]
fn kinds(rt: HostRuntime) {
    let rows: [(&[u8], Option<Kind>); 8] = [
        (b"RIFF\x28\0\0\0WAVEfmt ", Some(Kind::Wave)),
        (b"RF64\xff\xff\xff\xffWAVE", Some(Kind::Rf64)),
        (b"BW64\xff\xff\xff\xffWAVE", Some(Kind::Bw64)),
        (b"RIFF\0\0\0\0AVI ", Some(Kind::Avi)),
        (b"\0\0\0\x14ftyp", Some(Kind::Mov)),
        (b"RIFF\0\0\0\0WAVX", None),
        (b"\0\0\0\x14fty", None),
        (b"", None),
    ];
    for (first, kind) in rows.iter() {
        assert!(rt; kind_of(first) == *kind);
    }
}

#[test]
fn places_move(rt: HostRuntime) -> Result<(), Fail> {
    let pairs = [
        (Span { at: 1000, len: 200 }, 1000),
        (Span { at: 1500, len: 100 }, 1524),
    ];
    let moves = Moves::new(rt.alloc(), &pairs)?;
    assert!(rt; moves.place(999) == None);
    assert!(rt; moves.place(1199) == Some(1199));
    assert!(rt; moves.place(1200) == None);
    assert!(rt; moves.place(1500) == Some(1524));
    assert!(rt; moves.place(1599) == Some(1623));
    let mut near = 2;
    assert!(rt; moves.place_near(&mut near, 1500) == Some(1524));
    assert!(rt; near == 1);
    assert!(rt; moves.place_near(&mut near, 1001) == Some(1001));
    assert!(rt; Moves::none(rt.alloc()).place(0) == None);
    Ok(())
}

#[test]
fn names_stand_in_order(rt: HostRuntime) -> Result<(), Fail> {
    let title = FieldName::Info(FourCc(*b"INAM"));
    let date = FieldName::Info(FourCc(*b"ICRD"));
    let mut fields = Fields::new(rt.alloc());
    for text in [b"A", b"B"] {
        fields.add(
            title,
            Value {
                lang: 0,
                raw: Bytes::new(rt.alloc(), text)?,
            },
        )?;
    }
    fields.add(
        date,
        Value {
            lang: 0,
            raw: Bytes::new(rt.alloc(), b"2024")?,
        },
    )?;
    fields.add(
        FieldName::Bext(BextField::Version),
        Value {
            lang: 0,
            raw: Bytes::new(rt.alloc(), b"\0\0")?,
        },
    )?;
    assert!(rt; fields.name_at(0).copied() == Some(FieldName::Bext(BextField::Version)));
    assert!(rt; fields.name_at(1).copied() == Some(date));
    assert!(rt; fields.name_at(2).copied() == Some(title));
    assert!(rt; fields.name_at(3).copied() == None);
    assert_eq!(rt; fields.get(&title).len(), 2);
    let mut copy = fields.copy(rt.alloc())?;
    copy.replace(
        title,
        Some(Value {
            lang: 0,
            raw: Bytes::new(rt.alloc(), b"C")?,
        }),
    )?;
    copy.replace(date, None)?;
    assert_eq!(rt; copy.get(&title).len(), 1);
    assert_eq!(rt; copy.get(&date).len(), 0);
    assert_eq!(rt; fields.get(&title).len(), 2);
    Ok(())
}

#[test]
fn keys_and_streams_stand_in_order(rt: HostRuntime) {
    let names = [
        FieldName::User(FourCc(*b"\xa9zzz")),
        key(&rt, b"a"),
        key(&rt, b"a!"),
        key(&rt, b"aa"),
        key(&rt, b"b"),
        FieldName::Stream(0),
        FieldName::Stream(2),
        FieldName::Stream(10),
    ];
    for i in 0..names.len() {
        for j in 0..names.len() {
            assert!(rt; names[i].is_before(&names[j]) == (i < j));
        }
    }
}

#[test]
fn keys_have_printable_names(rt: HostRuntime) {
    let rows: [(&[u8], bool); 8] = [
        (b"", false),
        (b"a", true),
        (b"com.apple.quicktime.title", true),
        (b"a=b", false),
        (b"a b", false),
        (b"a\x7f", false),
        (&[b'k'; 255], true),
        (&[b'k'; 256], false),
    ];
    for (name, is) in rows.iter() {
        match KeyName::new(name) {
            Some(key) => assert!(rt; *is && key.as_slice() == *name),
            None => assert!(rt; !*is),
        }
    }
}

fn key(rt: &impl Abort, name: &[u8]) -> FieldName {
    FieldName::Key(KeyName::new(name).expect(rt, "a name"))
}

#[test]
fn rules_have_names(rt: HostRuntime) {
    let rows: [(u8, &str); 5] = [
        (0, ""),
        (1, "BASE-KIND"),
        (5, "BASE-WIDTH"),
        (24, "FADGI-DATE"),
        (25, ""),
    ];
    for (rule, name) in rows.iter() {
        assert!(rt; rule_name(*rule) == *name);
    }
}
