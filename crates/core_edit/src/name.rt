// The names of fields as texts.
ghost use Rattle.std.specs.Prelude.{◌≡◌, ◌++◌, IfOk, Some, None, option_copied, length, take, drop, if◌then◌else◌};
ghost use Rattle.std.specs.Str.{bytes_eq};
ghost use Rattle.field_model.specs.Texts as spec;
ghost use Rattle.field_model.specs.Texts.{or_name};
ghost use Rattle.core_edit.specs.Names.{found_name};

use crate::number::{count_of, decimal_text};
use part_tree::{BextField, Bytes, FieldName, FourCc, KeyName, NoMemory, is_user};
use std::alloc::Global;

// The text of a name.
struct NameRow {
    text: &'static str,
    name: FieldName,
}

const NAMES: [NameRow; 35] = [
    NameRow {
        text: "Description",
        name: FieldName::Bext(BextField::Description),
    },
    NameRow {
        text: "Originator",
        name: FieldName::Bext(BextField::Originator),
    },
    NameRow {
        text: "OriginatorReference",
        name: FieldName::Bext(BextField::OriginatorReference),
    },
    NameRow {
        text: "OriginationDate",
        name: FieldName::Bext(BextField::OriginationDate),
    },
    NameRow {
        text: "OriginationTime",
        name: FieldName::Bext(BextField::OriginationTime),
    },
    NameRow {
        text: "TimeReference",
        name: FieldName::Bext(BextField::TimeReference),
    },
    NameRow {
        text: "Version",
        name: FieldName::Bext(BextField::Version),
    },
    NameRow {
        text: "UMID",
        name: FieldName::Bext(BextField::Umid),
    },
    NameRow {
        text: "LoudnessValue",
        name: FieldName::Bext(BextField::LoudnessValue),
    },
    NameRow {
        text: "LoudnessRange",
        name: FieldName::Bext(BextField::LoudnessRange),
    },
    NameRow {
        text: "MaxTruePeakLevel",
        name: FieldName::Bext(BextField::MaxTruePeakLevel),
    },
    NameRow {
        text: "MaxMomentaryLoudness",
        name: FieldName::Bext(BextField::MaxMomentaryLoudness),
    },
    NameRow {
        text: "MaxShortTermLoudness",
        name: FieldName::Bext(BextField::MaxShortTermLoudness),
    },
    NameRow {
        text: "CodingHistory",
        name: FieldName::Bext(BextField::CodingHistory),
    },
    NameRow {
        text: "IARL",
        name: FieldName::Info(FourCc(*b"IARL")),
    },
    NameRow {
        text: "IART",
        name: FieldName::Info(FourCc(*b"IART")),
    },
    NameRow {
        text: "ICMS",
        name: FieldName::Info(FourCc(*b"ICMS")),
    },
    NameRow {
        text: "ICMT",
        name: FieldName::Info(FourCc(*b"ICMT")),
    },
    NameRow {
        text: "ICOP",
        name: FieldName::Info(FourCc(*b"ICOP")),
    },
    NameRow {
        text: "ICRD",
        name: FieldName::Info(FourCc(*b"ICRD")),
    },
    NameRow {
        text: "IENG",
        name: FieldName::Info(FourCc(*b"IENG")),
    },
    NameRow {
        text: "IGNR",
        name: FieldName::Info(FourCc(*b"IGNR")),
    },
    NameRow {
        text: "IKEY",
        name: FieldName::Info(FourCc(*b"IKEY")),
    },
    NameRow {
        text: "IMED",
        name: FieldName::Info(FourCc(*b"IMED")),
    },
    NameRow {
        text: "INAM",
        name: FieldName::Info(FourCc(*b"INAM")),
    },
    NameRow {
        text: "IPRD",
        name: FieldName::Info(FourCc(*b"IPRD")),
    },
    NameRow {
        text: "ISBJ",
        name: FieldName::Info(FourCc(*b"ISBJ")),
    },
    NameRow {
        text: "ISFT",
        name: FieldName::Info(FourCc(*b"ISFT")),
    },
    NameRow {
        text: "ISRC",
        name: FieldName::Info(FourCc(*b"ISRC")),
    },
    NameRow {
        text: "ISRF",
        name: FieldName::Info(FourCc(*b"ISRF")),
    },
    NameRow {
        text: "ITCH",
        name: FieldName::Info(FourCc(*b"ITCH")),
    },
    NameRow {
        text: "axml",
        name: FieldName::Whole(FourCc(*b"axml")),
    },
    NameRow {
        text: "iXML",
        name: FieldName::Whole(FourCc(*b"iXML")),
    },
    NameRow {
        text: "XMP",
        name: FieldName::Whole(FourCc(*b"_PMX")),
    },
    NameRow {
        text: "MD5",
        name: FieldName::Whole(FourCc(*b"MD5 ")),
    },
];

/// The field that a text names. None where it names none.
pub fn field_name(text: &[u8]) -> Option<FieldName>
    ensures { result ≡ spec.field_name text.now }
{
    match named_in(&NAMES, text) {
        Some(name) => Some(name),
        None => other_name(text),
    }
}

// The user field, the key or the stream that a text names.
fn other_name(text: &[u8]) -> Option<FieldName>
    ensures { result
        ≡ or_name (spec.user_name text.now) (or_name (spec.key_name text.now) (spec.stream_name text.now)) }
{
    if let Some(name) = user_name(text) {
        return Some(name);
    }
    match key_name(text) {
        Some(name) => Some(name),
        None => stream_name(text),
    }
}

// The first row's name that has this text.
fn named_in(rows: &[NameRow], text: &[u8]) -> Option<FieldName>
    ensures { result ≡ found_name text.now rows.now }
{
    for row in rows {
        if row.text.as_bytes() == text {
            return Some(row.name);
        }
    }
    None
}

// The user field that a text names: `@` and three letters or digits.
fn user_name(text: &[u8]) -> Option<FieldName>
    ensures { result ≡ spec.user_name text.now }
{
    match text {
        [b'@', a, b, c] => {
            let id = FourCc([0xa9, *a, *b, *c]);
            if is_user(&id) {
                Some(FieldName::User(id))
            } else {
                None
            }
        }
        _ => None,
    }
}

// The key that a text names: `key:` and its name.
fn key_name(text: &[u8]) -> Option<FieldName>
    ensures { result ≡ spec.key_name text.now }
{
    let name = behind(b"key:", text)?;
    match KeyName::new(name) {
        Some(key) => Some(FieldName::Key(key)),
        None => None,
    }
}

// The stream that a text names: `strn:` and its number.
fn stream_name(text: &[u8]) -> Option<FieldName>
    ensures { result ≡ spec.stream_name text.now }
{
    let digits = behind(b"strn:", text)?;
    match count_of(digits) {
        Some(n) if n <= u64::from(u32::MAX) => Some(FieldName::Stream(n as u32)),
        _ => None,
    }
}

// What stands behind a word. None where the text doesn't begin with it.
fn behind<'a>(word: &[u8], text: &'a [u8]) -> Option<&'a [u8]>
    ensures { option_copied result ≡
        (if bytes_eq (take (length word.now) text.now) word.now then Some (drop (length word.now) text.now) else None) }
{
    if text.len() < word.len() || &text[..word.len()] != word {
        return None;
    }
    Some(&text[word.len()..])
}

/// The text of a name. None where the name is no field's, or is that of the reserved bytes.
pub fn name_text(alloc: Global, name: &FieldName) -> Result<Option<Bytes>, NoMemory>
    ensures { IfOk result (λ text. text ≡ spec.name_text name.now) }
{
    if !name.is_field() {
        return Ok(None);
    }
    match name {
        FieldName::Bext(field) => match bext_text(*field) {
            Some(text) => some_bytes(alloc, text.as_bytes()),
            None => Ok(None),
        },
        FieldName::Info(id) => some_bytes(alloc, &id.0),
        FieldName::Whole(id) => some_bytes(alloc, whole_text(id)),
        FieldName::User(id) => some_bytes(alloc, &[b'@', id.0[1], id.0[2], id.0[3]]),
        FieldName::Key(key) => joined(alloc, b"key:", key.as_slice()),
        FieldName::Stream(n) => joined(alloc, b"strn:", decimal_text(u64::from(*n)).as_slice()),
    }
}

// A word and what stands behind it.
fn joined(alloc: Global, word: &[u8], rest: &[u8]) -> Result<Option<Bytes>, NoMemory>
    ensures { IfOk result (λ found. found ≡ Some (word.now ++ rest.now)) }
{
    let mut text = Vec::from_slice(alloc, word)?;
    text.extend_from_slice(rest)?;
    Ok(Some(Bytes::of(text)))
}

fn some_bytes(alloc: Global, text: &[u8]) -> Result<Option<Bytes>, NoMemory>
    ensures { IfOk result (λ found. found ≡ Some text.now) }
{
    let bytes = Bytes::new(alloc, text)?;
    Ok(Some(bytes))
}

fn whole_text(id: &FourCc) -> &[u8]
    ensures { result.now ≡ spec.whole_text id.now.0 }
{
    if id.is(b"_PMX") {
        b"XMP"
    } else if id.is(b"MD5 ") {
        b"MD5"
    } else {
        &id.0
    }
}

fn bext_text(field: BextField) -> Option<&'static str>
    ensures { option_copied result ≡ spec.bext_text field }
{
    match field {
        BextField::Description => Some("Description"),
        BextField::Originator => Some("Originator"),
        BextField::OriginatorReference => Some("OriginatorReference"),
        BextField::OriginationDate => Some("OriginationDate"),
        BextField::OriginationTime => Some("OriginationTime"),
        BextField::TimeReference => Some("TimeReference"),
        BextField::Version => Some("Version"),
        BextField::Umid => Some("UMID"),
        BextField::LoudnessValue => Some("LoudnessValue"),
        BextField::LoudnessRange => Some("LoudnessRange"),
        BextField::MaxTruePeakLevel => Some("MaxTruePeakLevel"),
        BextField::MaxMomentaryLoudness => Some("MaxMomentaryLoudness"),
        BextField::MaxShortTermLoudness => Some("MaxShortTermLoudness"),
        BextField::CodingHistory => Some("CodingHistory"),
        BextField::Reserved => None,
    }
}
