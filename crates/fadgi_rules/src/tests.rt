// Worked rows.
ghost use Rattle.std.specs.Prelude.{◌≡◌, ℕ, List, [], IfOk};
ghost use Rattle.part_tree.specs.declared.field.BextField.{BextField as BextName};
ghost use Rattle.part_tree.specs.declared.field.FieldName.TheVariants.{Bext, Key};
ghost use Rattle.part_tree.specs.Fields.{values};
ghost use Rattle.core_edit.specs.Edits.{IsNamed};

use crate::{all_broken, first_broken};
use core_edit::{Change, Edit, EditItem, field_name, name_text};
use part_tree::{Broken, Bytes, FieldName, Fields, FourCc, Kind, RuleSet, Value};
use std::alloc::Global;
use std::process::Abort;
use std::test::Fail;

// An edit of one field, in a file without fields: the kind, the field, its text or none to remove it, and the set of
// rules.
#[derive(Clone, Copy)]
struct Row {
    kind: Kind,
    field: &'static str,
    text: Option<&'static [u8]>,
    rules: RuleSet,
    broken: Option<(u8, &'static str)>,
}

const fn sets(
    kind: Kind,
    field: &'static str,
    text: &'static [u8],
    rules: RuleSet,
    broken: Option<(u8, &'static str)>,
) -> Row {
    Row {
        kind,
        field,
        text: Some(text),
        rules,
        broken,
    }
}

fn item<R: Abort>(rt: &R, alloc: Global, field: &str, text: Option<&[u8]>) -> Result<EditItem, Fail>
    ensures { IfOk result (λ item. IsNamed item.name) }
{
    let name = field_name(field.as_bytes()).expect(rt, "a field");
    let named = name_text(alloc, &name)?;
    assert!(rt; named.is_some());
    let change = match text {
        Some(text) => Change::Set(Bytes::new(alloc, text)?),
        None => Change::Remove,
    };
    Ok(EditItem { name, change })
}

fn is_broken(found: Option<Broken>, broken: Option<(u8, &str)>) -> bool {
    match (found, broken) {
        (Some(found), Some((rule, field))) => {
            found.rule == rule && Some(found.field) == field_name(field.as_bytes())
        }
        (None, None) => true,
        _ => false,
    }
}

#[test]
fn one_field(rt: HostRuntime) -> Result<(), Fail> {
    let rows = [
        sets(Kind::Wave, "@nam", b"x", RuleSet::Base, Some((1, "@nam"))),
        sets(Kind::Avi, "MD5", b"x", RuleSet::Base, Some((1, "MD5"))),
        sets(Kind::Wave, "key:a", b"x", RuleSet::Base, Some((1, "key:a"))),
        sets(Kind::Mov, "key:a", b"x", RuleSet::Base, None),
        sets(Kind::Avi, "strn:0", b"x", RuleSet::Base, None),
        sets(
            Kind::Avi,
            "strn:1",
            b"x",
            RuleSet::Base,
            Some((1, "strn:1")),
        ),
        sets(
            Kind::Wave,
            "Version",
            b"1",
            RuleSet::Base,
            Some((2, "Version")),
        ),
        sets(Kind::Wave, "Description", &[b'x'; 256], RuleSet::Ebu, None),
        sets(
            Kind::Wave,
            "Description",
            &[b'x'; 257],
            RuleSet::Ebu,
            Some((5, "Description")),
        ),
        sets(Kind::Wave, "CodingHistory", b"A=PCM", RuleSet::Info, None),
        sets(
            Kind::Wave,
            "CodingHistory",
            b"A=PCM",
            RuleSet::Ebu,
            Some((14, "CodingHistory")),
        ),
        sets(
            Kind::Wave,
            "CodingHistory",
            b"A=PCM,F=48000\r\nA=X\r\n",
            RuleSet::Ebu,
            None,
        ),
        sets(
            Kind::Wave,
            "CodingHistory",
            b"A=PCM,A=X\r\n",
            RuleSet::Ebu,
            Some((14, "CodingHistory")),
        ),
        sets(
            Kind::Rf64,
            "LoudnessRange",
            b"-0.01",
            RuleSet::Ebu,
            Some((17, "LoudnessRange")),
        ),
        sets(Kind::Rf64, "LoudnessRange", b"0.00", RuleSet::Ebu, None),
        sets(
            Kind::Avi,
            "ICRD",
            b"2024-13",
            RuleSet::Info,
            Some((21, "ICRD")),
        ),
        sets(
            Kind::Avi,
            "ICRD",
            b"2024-1",
            RuleSet::Info,
            Some((21, "ICRD")),
        ),
        sets(
            Kind::Avi,
            "ICRD",
            b"2024-02-30",
            RuleSet::Info,
            Some((21, "ICRD")),
        ),
        sets(Kind::Avi, "ICRD", b"2024-02-30", RuleSet::Ebu, None),
        sets(Kind::Avi, "ICRD", b"2024-12", RuleSet::Info, None),
        sets(
            Kind::Wave,
            "Description",
            b"x",
            RuleSet::Fadgi,
            Some((23, "Originator")),
        ),
        sets(Kind::Avi, "INAM", b"x", RuleSet::Fadgi, Some((23, "IARL"))),
        sets(Kind::Mov, "@nam", b"x", RuleSet::Fadgi, Some((24, "@day"))),
        // an item without an effect breaks no rule
        Row {
            kind: Kind::Mov,
            field: "INAM",
            text: None,
            rules: RuleSet::Info,
            broken: None,
        },
    ];
    let fields = Fields::new(rt.alloc());
    for row in rows.iter() {
        let item = item(&rt, rt.alloc(), row.field, row.text)?;
        let edit = Edit::new(rt.alloc(), vec![in rt.alloc(); item]?).expect(&rt, "an edit");
        let found = first_broken(row.kind, 1, &fields, &edit, row.rules);
        assert!(rt; is_broken(found, row.broken), "{}", row.field);
    }
    Ok(())
}

#[test]
fn the_lower_rule_and_the_first_field_are_told(rt: HostRuntime) -> Result<(), Fail> {
    let heap = rt.alloc();
    let title = item(&rt, heap, "INAM", Some(b"\xff"))?;
    let originator = item(&rt, heap, "Originator", Some(&[b'x'; 33]))?;
    let description = item(&rt, heap, "Description", Some(&[b'x'; 257]))?;
    let items = vec![in heap; title, originator, description]?;
    let edit = Edit::new(heap, items).expect(&rt, "an edit");
    let found = first_broken(Kind::Wave, 0, &Fields::new(heap), &edit, RuleSet::Base);
    assert!(rt; is_broken(found, Some((5, "Description"))));
    Ok(())
}

// The fields with one more value of INFO.
fn with_info(alloc: Global, mut fields: Fields, id: &[u8; 4], raw: &[u8]) -> Result<Fields, Fail>
    requires bext { (field : BextName) → values fields (Bext field) ≡ [] }
    requires keys { (key : List ℕ) → values fields (Key key) ≡ [] }
    ensures bext { IfOk result (λ new. (field : BextName) → values new (Bext field) ≡ []) }
    ensures keys { IfOk result (λ new. (key : List ℕ) → values new (Key key) ≡ []) }
{
    let name = FieldName::Info(FourCc(*id));
    let value = Value {
        lang: 0,
        raw: Bytes::new(alloc, raw)?,
    };
    if name.is_field() {
        fields.add(name, value)?;
    }
    Ok(fields)
}

#[test]
#[tactic(auto, using(field_model::proofs::Fills::none_lawful))]
fn fields_as_they_stand(rt: HostRuntime) -> Result<(), Fail> {
    let heap = rt.alloc();
    let none = Fields::new(heap);
    let lacks = all_broken(heap, Kind::Wave, &none, RuleSet::Fadgi)?;
    let names = ["Description", "Originator", "OriginationDate"];
    assert_eq!(rt; lacks.len(), 3);
    for i in 0..3 {
        assert!(rt; is_broken(lacks.get(i).copied(), Some((22 + i as u8, names[i]))));
    }
    let one = with_info(heap, none, b"INAM", b"A\0")?;
    let two = with_info(heap, one, b"INAM", b"B")?;
    let all = with_info(heap, two, b"ICRD", b"2024-1\0")?;
    assert_eq!(rt; all_broken(heap, Kind::Wave, &all, RuleSet::Ebu)?.len(), 0);
    let found = all_broken(heap, Kind::Wave, &all, RuleSet::Info)?;
    let names = ["INAM", "INAM", "ICRD"];
    assert_eq!(rt; found.len(), 3);
    for i in 0..3 {
        assert!(rt; is_broken(found.get(i).copied(), Some((19 + i as u8, names[i]))));
    }
    Ok(())
}
