// Worked rows.
ghost use Rattle.std.specs.Prelude.{◌≡◌, ℕ, List, [], OnOk, IfOk};
ghost use Rattle.part_tree.specs.declared.field.BextField.{BextField};
ghost use Rattle.part_tree.specs.declared.field.FieldName.TheVariants.{Bext, Info, Key};
ghost use Rattle.part_tree.specs.Fields.{values};
ghost use Rattle.part_tree.specs.Letters.{four};
ghost use Rattle.part_tree.specs.Names.{IsFieldName};

use crate::{Summary, done_line, md5_findings, md5_text, show_text, sound_md5, validate_text};
use me_disk::{Run, SparseDepot};
use part_tree::{
    BextField, Broken, Bytes, FieldName, Fields, FourCc, Kind, NoMemory, Shows, Span, Track, Value,
};
use std::alloc::Global;
use std::test::Fail;

// The MD5 of `abc`.
const ABC: [u8; 16] = [
    0x90, 0x01, 0x50, 0x98, 0x3c, 0xd2, 0x4f, 0xb0, 0xd6, 0x96, 0x3f, 0x7d, 0x28, 0xe1, 0x7f, 0x72,
];

#[test]
fn lines_of_what_was_done(rt: HostRuntime) {
    let rows = [
        (true, true, 4, "done changed in-place essence 4\n"),
        (
            true,
            false,
            5_000_000_000,
            "done changed rewrite essence 5000000000\n",
        ),
        (false, false, 0, "done unchanged essence 0\n"),
    ];
    for (changed, in_place, payload, text) in rows.iter() {
        let line = done_line(&Summary {
            changed: *changed,
            in_place: *in_place,
            payload: *payload,
            findings: 7,
        });
        assert_eq!(rt; line.as_slice(), text.as_bytes());
    }
}

fn broken(rule: u8, field: BextField) -> Broken {
    Broken {
        rule,
        field: FieldName::Bext(field),
    }
}

#[test]
fn lines_of_findings(rt: HostRuntime) -> Result<(), Fail> {
    let three = [
        broken(22, BextField::Description),
        broken(23, BextField::Originator),
        broken(24, BextField::OriginationDate),
    ];
    let text = validate_text(rt.alloc(), &three)?;
    let lines =
        "rule FADGI-DESCRIPTION Description\nrule FADGI-ORIGINATOR Originator\nrule FADGI-DATE OriginationDate\nfindings 3\n";
    assert_eq!(rt; text.as_slice(), lines.as_bytes());
    Ok(())
}

#[test]
fn findings_without_names(rt: HostRuntime) -> Result<(), Fail> {
    let none = validate_text(rt.alloc(), &[])?;
    assert_eq!(rt; none.as_slice(), b"findings 0\n".as_slice());
    let unnamed = validate_text(rt.alloc(), &[broken(25, BextField::Reserved)])?;
    assert_eq!(rt; unnamed.as_slice(), b"rule  \nfindings 1\n".as_slice());
    Ok(())
}

// Zeros between `ab` and `c`.
fn depot_of(alloc: Global, zeros: u64) -> Result<SparseDepot, Fail> {
    let mut runs = Vec::new(alloc);
    runs.push(Run::Bytes(b"ab".to_vec(alloc)?))?;
    runs.push(Run::Zero(zeros))?;
    runs.push(Run::Bytes(b"c".to_vec(alloc)?))?;
    Ok(SparseDepot::new(alloc, Some(runs))?)
}

// What is printed of a file without a stored checksum.
fn computed(alloc: Global, depot: &mut SparseDepot, at: u32, len: u32) -> Result<Bytes, Fail> {
    let sound = Span {
        at: u64::from(at),
        len: u64::from(len),
    };
    let digest = sound_md5(depot, sound).ok();
    Ok(md5_text(alloc, &Fields::new(alloc), digest)?)
}

#[test]
fn checksums_of_sound(rt: HostRuntime) -> Result<(), Fail> {
    let rows = [
        (
            0,
            0,
            3,
            "stored none\ncomputed 900150983cd24fb0d6963f7d28e17f72\n",
        ),
        (
            0,
            1,
            0,
            "stored none\ncomputed d41d8cd98f00b204e9800998ecf8427e\n",
        ),
        (
            200_000,
            0,
            200_003,
            "stored none\ncomputed 06982e32ecc0ba6f6d27128886c9e5d9\n",
        ),
        (0, 1, 3, "stored none\ncomputed none\n"),
    ];
    for (zeros, at, len, text) in rows.iter() {
        let mut depot = depot_of(rt.alloc(), *zeros)?;
        let printed = computed(rt.alloc(), &mut depot, *at, *len)?;
        assert_eq!(rt; printed.as_slice(), text.as_bytes());
    }
    Ok(())
}

fn add(alloc: Global, fields: &mut Fields, raw: &[u8]) -> Result<(), Fail> {
    let value = Value {
        lang: 0,
        raw: Bytes::new(alloc, raw)?,
    };
    fields.add(FieldName::Whole(FourCc(*b"MD5 ")), value)?;
    Ok(())
}

#[test]
fn stored_checksums(rt: HostRuntime) -> Result<(), Fail> {
    let mut fields = Fields::new(rt.alloc());
    assert_eq!(rt; md5_findings(&fields, Some(ABC)), 0);
    add(rt.alloc(), &mut fields, &ABC)?;
    assert_eq!(rt; md5_findings(&fields, Some(ABC)), 0);
    assert_eq!(rt; md5_findings(&fields, Some([0; 16])), 1);
    add(rt.alloc(), &mut fields, &[0; 16])?;
    add(rt.alloc(), &mut fields, b"")?;
    assert_eq!(rt; md5_findings(&fields, Some(ABC)), 1);
    assert_eq!(rt; md5_findings(&fields, None), 0);
    let text = md5_text(rt.alloc(), &fields, Some(ABC))?;
    let lines =
        "stored 900150983cd24fb0d6963f7d28e17f72\nstored 00000000000000000000000000000000\nstored \ncomputed 900150983cd24fb0d6963f7d28e17f72\n";
    assert_eq!(rt; text.as_slice(), lines.as_bytes());
    Ok(())
}

// A map of a file with four bytes of sound.
#[derive(Drop)]
struct Map {
    kind: Kind,
    fields: Fields,
    entries: Option<u64>,
}

impl Shows for Map {
    ghost told = { λ m. record { kind = m.kind; payload = 4; fields = m.fields; entries = m.entries; tracks = []; mdats = [] } };

    fn kind(&self) -> Kind {
        self.kind
    }

    fn payload(&self) -> u64 {
        4
    }

    fn fields(&self) -> &Fields {
        &self.fields
    }

    fn entries(&self) -> Option<u64> {
        self.entries
    }

    fn tracks(&self) -> &[Track] {
        &[]
    }

    fn mdats(&self) -> &[Span] {
        &[]
    }
}

fn add_info(alloc: Global, fields: &mut Fields, id: [u8; 4], raw: &[u8]) -> Result<(), Fail>
    requires field { IsFieldName (Info (four id)) }
    requires none { (field : BextField) → values fields.old (Bext field) ≡ [] }
    requires keys { (key : List ℕ) → values fields.old (Key key) ≡ [] }
    ensures none { OnOk result ((field : BextField) → values fields.new (Bext field) ≡ []) }
    ensures keys { OnOk result ((key : List ℕ) → values fields.new (Key key) ≡ []) }
{
    let value = Value {
        lang: 0,
        raw: Bytes::new(alloc, raw)?,
    };
    fields.add(FieldName::Info(FourCc(id)), value)?;
    Ok(())
}

#[tactic(auto, using(field_model::proofs::Fills::none_lawful))]
fn shown_of(alloc: Global, map: &Map) -> Result<Bytes, Fail>
    requires none { (field : BextField) → values map.now.fields (Bext field) ≡ [] }
    requires keys { (key : List ℕ) → values map.now.fields (Key key) ≡ [] }
{
    let mut depot = SparseDepot::new(alloc, None)?;
    match show_text(alloc, &mut depot, map) {
        Ok(text) => Ok(text),
        Err(_) => Err(NoMemory.into()),
    }
}

#[test]
fn fields_are_shown(rt: HostRuntime) -> Result<(), Fail> {
    let mut fields = Fields::new(rt.alloc());
    add_info(rt.alloc(), &mut fields, *b"INAM", b"A\0")?;
    add_info(rt.alloc(), &mut fields, *b"ICRD", b"2024")?;
    add_info(rt.alloc(), &mut fields, *b"INAM", b"B")?;
    let map = Map {
        kind: Kind::Wave,
        fields,
        entries: None,
    };
    let text = shown_of(rt.alloc(), &map)?;
    let lines = "kind wave\nessence 4\nICRD=2024\nINAM=A\nINAM=B\n";
    assert_eq!(rt; text.as_slice(), lines.as_bytes());
    Ok(())
}

#[test]
fn entries_and_escapes_are_shown(rt: HostRuntime) -> Result<(), Fail> {
    let mut fields = Fields::new(rt.alloc());
    add_info(rt.alloc(), &mut fields, *b"ICMT", b"a\n\\\x01")?;
    let map = Map {
        kind: Kind::Avi,
        fields,
        entries: Some(12),
    };
    let text = shown_of(rt.alloc(), &map)?;
    let lines = "kind avi\nessence 4\nindex 12\nICMT=a\\n\\\\\\x01\n";
    assert_eq!(rt; text.as_slice(), lines.as_bytes());
    Ok(())
}
