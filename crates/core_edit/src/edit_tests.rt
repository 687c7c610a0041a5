// Worked rows of edits.
ghost use Rattle.std.specs.Prelude.{◌≡◌, IfOk};
ghost use Rattle.part_tree.specs.Fields.{values};
ghost use Rattle.field_model.specs.Lawful.{IsLawful};
ghost use Rattle.core_edit.specs.Edits.{IsNamed};

use crate::{
    Change, Edit, EditFault, EditItem, effective, field_name, has_effect, name_text, raw_changes,
    shown, update,
};
use part_tree::{Bytes, FieldName, Fields, FourCc, Value};
use std::alloc::Global;
use std::process::Abort;
use std::test::Fail;

// An item: the field, and its text or none to remove it.
fn item<R: Abort>(rt: &R, alloc: Global, field: &str, text: Option<&[u8]>) -> Result<EditItem, Fail>
    ensures { IfOk result (λ item. IsNamed item.name) }
{
    let name = field_name(field.as_bytes()).expect(rt, "a field");
    let named = name_text(alloc, &name)?;
    assert!(rt; named.is_some());
    let change = match text {
        Some(text) => Change::Set(Bytes::new(alloc, text)?),
        None => Change::Remove,
    };
    Ok(EditItem { name, change })
}

fn edit_of<R: Abort>(
    rt: &R,
    alloc: Global,
    field: &str,
    text: Option<&[u8]>,
) -> Result<Edit, Fail> {
    let item = item(rt, alloc, field, text)?;
    Ok(Edit::new(alloc, vec![in alloc; item]?).expect(rt, "an edit"))
}

// The fields after one item.
fn after<R: Abort>(
    rt: &R,
    alloc: Global,
    fields: &Fields,
    field: &str,
    text: Option<&[u8]>,
) -> Result<Fields, Fail>
    requires { IsLawful (values fields.now) }
    ensures { IfOk result (λ new. IsLawful (values new)) }
{
    let edit = edit_of(rt, alloc, field, text)?;
    let new = update(alloc, fields, &edit)?;
    Ok(new)
}

// The bytes of the only value of a field.
fn only<'a, R: Abort>(rt: &R, fields: &'a Fields, field: &str) -> &'a [u8] {
    let name = field_name(field.as_bytes()).expect(rt, "a field");
    let held = fields.get(&name);
    assert!(rt; held.len() == 1);
    held[0].raw.as_slice()
}

#[test]
fn faults(rt: HostRuntime) -> Result<(), Fail> {
    let heap = rt.alloc();
    let title = item(&rt, heap, "INAM", Some(b"A"))?;
    let artist = item(&rt, heap, "IART", None)?;
    let again = item(&rt, heap, "INAM", None)?;
    let empty = item(&rt, heap, "INAM", Some(b""))?;
    let artist_again = item(&rt, heap, "IART", Some(b""))?;
    assert!(rt;
        Edit::new(heap, vec![in heap; title, artist, again]?).err()
            == Some(EditFault::Twice { n: 3 })
    );
    assert!(rt;
        Edit::new(heap, vec![in heap; artist_again, empty]?).err()
            == Some(EditFault::Empty { n: 1 })
    );
    Ok(())
}

#[test]
fn effects(rt: HostRuntime) -> Result<(), Fail> {
    let heap = rt.alloc();
    let titled = after(&rt, heap, &Fields::new(heap), "INAM", Some(b"Hi"))?;
    let dated = after(&rt, heap, &titled, "OriginationDate", Some(b"2024_01.31"))?;
    let fields = after(&rt, heap, &dated, "LoudnessValue", Some(b"-23.00"))?;
    let rows: [(&str, Option<&[u8]>, bool); 14] = [
        ("INAM", Some(b"Hi"), false),
        ("INAM", Some(b"Hi\0there"), false),
        ("INAM", Some(b"hi"), true),
        ("INAM", None, true),
        ("IART", None, false),
        ("OriginationDate", Some(b"2024:01:31"), false),
        ("OriginationDate", None, true),
        ("OriginationTime", None, false),
        ("TimeReference", None, false),
        ("TimeReference", Some(b"0"), false),
        ("TimeReference", Some(b"00"), true),
        ("LoudnessValue", None, true),
        ("LoudnessRange", None, false),
        ("Version", Some(b"2"), false),
    ];
    for (field, text, effect) in rows.iter() {
        let edit = edit_of(&rt, heap, field, *text)?;
        let kept = effective(heap, &fields, &edit)?;
        assert!(rt; kept.items().is_empty() != *effect, "{}", field);
        if let [one] = edit.items() {
            assert!(rt; has_effect(&fields, one) == *effect);
        }
    }
    Ok(())
}

#[test]
fn updates(rt: HostRuntime) -> Result<(), Fail> {
    let heap = rt.alloc();
    let one = after(&rt, heap, &Fields::new(heap), "UMID", Some(&[b'a'; 128]))?;
    assert_eq!(rt; only(&rt, &one, "UMID"), [0xaa; 64].as_slice());
    assert_eq!(rt; only(&rt, &one, "Version"), [1, 0].as_slice());
    assert_eq!(rt; only(&rt, &one, "LoudnessValue"), [0, 0].as_slice());
    assert_eq!(rt; only(&rt, &one, "Description"), [0; 256].as_slice());
    let two = after(&rt, heap, &one, "LoudnessRange", Some(b"1.05"))?;
    assert_eq!(rt; only(&rt, &two, "Version"), [2, 0].as_slice());
    assert_eq!(rt; only(&rt, &two, "UMID"), [0xaa; 64].as_slice());
    assert_eq!(rt; only(&rt, &two, "LoudnessRange"), [105, 0].as_slice());
    assert_eq!(rt;
        only(&rt, &two, "MaxShortTermLoudness"),
        [0xff, 0x7f].as_slice()
    );
    let three = after(&rt, heap, &two, "UMID", None)?;
    assert_eq!(rt; only(&rt, &three, "UMID"), [0; 64].as_slice());
    let four = after(&rt, heap, &three, "CodingHistory", Some(b"A=PCM"))?;
    assert_eq!(rt; only(&rt, &four, "CodingHistory"), b"A=PCM".as_slice());
    assert_eq!(rt; only(&rt, &four, "LoudnessRange"), [105, 0].as_slice());
    Ok(())
}

#[test]
fn raw_bytes(rt: HostRuntime) -> Result<(), Fail> {
    let heap = rt.alloc();
    let loudness = item(&rt, heap, "LoudnessValue", None)?;
    let title = item(&rt, heap, "INAM", Some(b"Hi"))?;
    let name = item(&rt, heap, "@nam", Some(b"Hi"))?;
    let sum = item(&rt, heap, "MD5", None)?;
    let edit = Edit::new(heap, vec![in heap; loudness, title, name, sum]?).expect(&rt, "an edit");
    let changes = raw_changes(heap, &edit)?;
    let rows: [(&str, Option<(u16, &[u8])>); 4] = [
        ("LoudnessValue", Some((0, &[0xff, 0x7f]))),
        ("INAM", Some((0, b"Hi\0"))),
        ("@nam", Some((0x15c7, b"Hi"))),
        ("MD5", None),
    ];
    assert_eq!(rt; changes.len(), 4);
    for i in 0..4 {
        let change = changes.get(i).expect(&rt, "a change");
        let (field, value) = rows[i];
        assert!(rt; field_name(field.as_bytes()) == Some(change.name));
        assert_eq!(rt;
            change.value.as_ref().map(|v| (v.lang, v.raw.as_slice())),
            value
        );
    }
    Ok(())
}

#[test]
fn shown_values(rt: HostRuntime) -> Result<(), Fail> {
    let heap = rt.alloc();
    let name = FieldName::Info(FourCc(*b"INAM"));
    let value = Value {
        lang: 0,
        raw: Bytes::new(heap, b"Hi\0x")?,
    };
    let text = shown(heap, &Fields::new(heap), &name, &value)?.expect(&rt, "a text");
    assert_eq!(rt; text.as_slice(), b"Hi".as_slice());
    Ok(())
}
