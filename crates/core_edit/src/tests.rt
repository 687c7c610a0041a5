// Worked rows.
use crate::{ShownText, field_name, name_text, raw_of, shown_text, text_rule};
use part_tree::{BextField, FieldName, FourCc, KeyName};
use std::process::Abort;
use std::test::Fail;

#[test]
fn names(rt: HostRuntime) {
    let rows: [(&str, Option<FieldName>); 14] = [
        ("key:a", Some(key(&rt, b"a"))),
        ("key:", None),
        ("key:a b", None),
        ("strn:10", Some(FieldName::Stream(10))),
        ("strn:010", None),
        ("INAM", Some(FieldName::Info(FourCc(*b"INAM")))),
        ("inam", None),
        ("XXXX", None),
        ("UMID", Some(FieldName::Bext(BextField::Umid))),
        ("XMP", Some(FieldName::Whole(FourCc(*b"_PMX")))),
        ("_PMX", None),
        ("Reserved", None),
        ("@nam", Some(FieldName::User(FourCc(*b"\xa9nam")))),
        ("@n.m", None),
    ];
    for (text, name) in rows.iter() {
        assert!(rt; field_name(text.as_bytes()) == *name);
    }
}

#[test]
fn texts_of_names(rt: HostRuntime) -> Result<(), Fail> {
    let rows: [(FieldName, &[u8]); 3] = [
        (FieldName::Whole(FourCc(*b"_PMX")), b"XMP"),
        (key(&rt, b"a"), b"key:a"),
        (FieldName::Stream(4_294_967_295), b"strn:4294967295"),
    ];
    for (name, text) in rows.iter() {
        let told = name_text(rt.alloc(), name)?.expect(&rt, "a text");
        assert_eq!(rt; told.as_slice(), *text);
    }
    Ok(())
}

fn key(rt: &impl Abort, name: &[u8]) -> FieldName {
    FieldName::Key(KeyName::new(name).expect(rt, "a name"))
}

#[test]
fn rules(rt: HostRuntime) -> Result<(), Fail> {
    let rows: [(&str, &[u8], Option<u8>); 21] = [
        ("key:a", b"a\0b", Some(3)),
        ("strn:0", b"\xff", Some(12)),
        ("key:a", b"Hi", None),
        ("Version", b"1", Some(2)),
        ("INAM", b"a\0b", Some(3)),
        ("Originator", b"\x7f", Some(4)),
        ("CodingHistory", b"A=PCM\r\n", None),
        ("Originator", &[b'x'; 32], None),
        ("Originator", &[b'x'; 33], Some(5)),
        ("OriginationDate", b"2024-02-30", Some(6)),
        ("OriginationDate", b"0000-02-29", None),
        ("OriginationTime", b"24:00:00", Some(7)),
        ("TimeReference", b"18446744073709551616", Some(8)),
        ("TimeReference", b"18446744073709551615", None),
        ("LoudnessValue", b"327.66", None),
        ("LoudnessValue", b"327.67", Some(9)),
        ("LoudnessValue", b"-0.00", Some(9)),
        ("UMID", b"AA", Some(10)),
        ("MD5", b"AA", Some(11)),
        ("INAM", b"\xff", Some(12)),
        ("axml", b"\xff", None),
    ];
    for (text, value, rule) in rows.iter() {
        let name = field_name(text.as_bytes()).expect(&rt, "a name");
        assert_eq!(rt; text_rule(&name, value), *rule);
    }
    Ok(())
}

#[test]
fn spellings(rt: HostRuntime) -> Result<(), Fail> {
    let rows: [(&str, &[u8], Option<&[u8]>); 10] = [
        ("key:a", b"Hi", Some(b"\0\0\0\x01\0\0\0\0Hi")),
        ("strn:0", b"Cam", Some(b"Cam\0")),
        ("OriginationDate", b"2024_01.31", Some(b"2024-01-31")),
        ("OriginationTime", b"12 00 59", Some(b"12:00:59")),
        ("TimeReference", b"258", Some(b"\x02\x01\0\0\0\0\0\0")),
        ("LoudnessValue", b"-23.00", Some(b"\x04\xf7")),
        ("LoudnessRange", b"-327.68", Some(b"\0\x80")),
        ("INAM", b"Hi", Some(b"Hi\0")),
        (
            "MD5",
            b"900150983CD24fb0d6963f7d28e17f72",
            Some(b"\x90\x01\x50\x98\x3c\xd2\x4f\xb0\xd6\x96\x3f\x7d\x28\xe1\x7f\x72"),
        ),
        ("Version", b"1", None),
    ];
    for (text, value, raw) in rows.iter() {
        let name = field_name(text.as_bytes()).expect(&rt, "a name");
        let spelled = raw_of(rt.alloc(), &name, value)?;
        assert_eq!(rt; spelled.as_ref().map(|b| b.as_slice()), *raw);
    }
    Ok(())
}

#[test]
fn texts(rt: HostRuntime) -> Result<(), Fail> {
    let loudness = FieldName::Bext(BextField::LoudnessValue);
    let text = shown_text(2, &loudness, &[0x04, 0xf7]).expect(&rt, "a text");
    assert_eq!(rt; text.to_bytes(rt.alloc())?.as_slice(), b"-23.00".as_slice());
    let small = shown_text(2, &loudness, &[5, 0]).expect(&rt, "a text");
    assert!(rt; small.is(&ShownText::Plain(b"0.05")));
    assert!(rt; shown_text(2, &loudness, &[0xff, 0x7f]).is_none());
    assert!(rt; shown_text(1, &loudness, &[5, 0]).is_none());
    Ok(())
}
