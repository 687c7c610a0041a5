// Worked rows.
ghost use Rattle.std.specs.Prelude.{◌≡◌, IfOk, Some};
ghost use Rattle.part_tree.specs.declared.field.FieldName.TheVariants.{Bext};
ghost use Rattle.field_model.specs.Fields.{plain};

use crate::{
    BEXT, BextField, RawChange, ShortBext, check_bext, edited_body, get_raw, locate,
    new_edited_body, raise_version, set_raw,
};
use me_bytes::NoMemory;
use part_tree::{Bytes, FieldName, Value};
use std::test::Fail;

// A body of zeros whose version, UMID and loudness fields are 1.
fn body_of(version: u8) -> [u8; 604] {
    let mut body = [0; 604];
    body[346] = version;
    body[348] = 1;
    body[411] = 1;
    body[412] = 1;
    body[421] = 1;
    body
}

#[test]
fn raises(rt: HostRuntime) -> Result<(), Fail> {
    // the old version, the new one, and bytes 346, 348, 411, 412, 413, 420 and 421 of the body after it
    let rows: [(u8, u16, [u8; 7]); 5] = [
        (0, 1, [1, 0, 0, 1, 0, 0, 1]),
        (0, 2, [2, 0, 0, 0xff, 0x7f, 0xff, 0x7f]),
        (1, 1, [1, 1, 1, 1, 0, 0, 1]),
        (1, 2, [2, 1, 1, 0xff, 0x7f, 0xff, 0x7f]),
        (3, 2, [3, 1, 1, 1, 0, 0, 1]),
    ];
    for (old, to, after) in rows.iter() {
        let mut body = body_of(*old);
        if *to == 1 {
            raise_version(&mut body, 1);
        } else {
            raise_version(&mut body, 2);
        }
        let found = [
            body[346], body[348], body[411], body[412], body[413], body[420], body[421],
        ];
        assert_eq!(rt; found.as_slice(), after.as_slice());
    }
    Ok(())
}

#[test]
fn lays_one_range(rt: HostRuntime) -> Result<(), Fail> {
    let mut body = [7; 602];
    set_raw(&mut body, &BEXT[3], b"2024-01-31");
    assert_eq!(rt; get_raw(&body, &BEXT[3]), b"2024-01-31".as_slice());
    assert_eq!(rt; &body[318..320], [7, 7].as_slice());
    assert_eq!(rt; &body[330..332], [7, 7].as_slice());
    assert_eq!(rt; locate(&BEXT, BextField::Umid), Some(7));
    assert_eq!(rt; locate(&BEXT, BextField::CodingHistory), None);
    assert_eq!(rt; check_bext(601), Err(ShortBext { len: 601 }));
    assert_eq!(rt; check_bext(602), Ok(()));
    Ok(())
}

// A change of a field of `bext`, which sets these bytes.
fn change_of(rt: HostRuntime, field: BextField, raw: &[u8]) -> Result<RawChange, NoMemory>
    ensures name { IfOk result (λ change. change.name ≡ Bext field) }
    ensures value { IfOk result (λ change. change.value ≡ Some (plain raw.now)) }
{
    let raw = Bytes::new(rt.alloc(), raw)?;
    Ok(RawChange {
        name: FieldName::Bext(field),
        value: Some(Value { lang: 0, raw }),
    })
}

#[test]
fn edits(rt: HostRuntime) -> Result<(), Fail> {
    let changes = [
        change_of(rt, BextField::LoudnessRange, &[0x10, 0x27])?,
        change_of(rt, BextField::CodingHistory, b"A=PCM\r\n")?,
    ];
    let body = edited_body(rt.alloc(), &body_of(0), &changes)?;
    assert_eq!(rt; body.as_slice().len(), 609);
    assert_eq!(rt; &body.as_slice()[346..350], [2, 0, 0, 0].as_slice());
    assert_eq!(rt;
        &body.as_slice()[410..422],
        [
            0, 0, 0xff, 0x7f, 0x10, 0x27, 0xff, 0x7f, 0xff, 0x7f, 0xff, 0x7f
        ]
        .as_slice()
    );
    assert_eq!(rt; &body.as_slice()[602..], b"A=PCM\r\n".as_slice());
    let empty = [change_of(rt, BextField::CodingHistory, b"")?];
    let body = edited_body(rt.alloc(), &body_of(0), &empty)?;
    assert_eq!(rt; body.as_slice().len(), 602);
    assert_eq!(rt; &body.as_slice()[346..350], [0, 0, 1, 0].as_slice());
    assert_eq!(rt; &body.as_slice()[410..414], [0, 1, 1, 0].as_slice());
    let dated = [change_of(rt, BextField::OriginationDate, b"2024-01-31")?];
    let body = new_edited_body(rt.alloc(), &dated)?;
    assert_eq!(rt; body.as_slice().len(), 602);
    assert_eq!(rt;
        &body.as_slice()[318..332],
        b"\0\02024-01-31\0\0".as_slice()
    );
    Ok(())
}
