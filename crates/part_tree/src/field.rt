// The names of fields, the items of an edit, and the rules' sets.
ghost use Rattle.std.specs.Prelude.{◌≡◌, ◌+◌, ◌<◌, ◌≤◌, ◌^◌, length, List, [], ℕ, IfOk, nat_lt};
ghost use Rattle.std.specs.List.{position_or_len};
ghost use Rattle.std.specs.Str.{bytes_eq};
ghost use Rattle.me_bytes.specs.Bytes.{be};
ghost use Rattle.part_tree.specs.Names.{bext_row, field_place, is_field_name, is_user_type, named_rule, same_name};
ghost use Rattle.part_tree.specs.Stands.{Stands};

use crate::bytes::Bytes;
use crate::key::{KeyName, is_key};
use crate::names::FourCc;
use me_bytes::{NoMemory, be32_at};
use std::alloc::Global;

/// The fields of the chunk `bext`, in its order (EBU Tech 3285).
#[derive(Clone, Copy, Debug, PartialEq, Eq)]
pub enum BextField {
    Description,
    Originator,
    OriginatorReference,
    OriginationDate,
    OriginationTime,
    TimeReference,
    Version,
    Umid,
    LoudnessValue,
    LoudnessRange,
    MaxTruePeakLevel,
    MaxMomentaryLoudness,
    MaxShortTermLoudness,
    /// The bytes that the standard reserves; no edit names them.
    Reserved,
    /// The rest of the chunk.
    CodingHistory,
}

impl BextField {
    /// The number of the field in the order of `bext`, from 0.
    pub fn row(self) -> u8
        ensures row { result ≡ bext_row self }
        ensures small { result ≤ 14 }
    {
        match self {
            BextField::Description => 0,
            BextField::Originator => 1,
            BextField::OriginatorReference => 2,
            BextField::OriginationDate => 3,
            BextField::OriginationTime => 4,
            BextField::TimeReference => 5,
            BextField::Version => 6,
            BextField::Umid => 7,
            BextField::LoudnessValue => 8,
            BextField::LoudnessRange => 9,
            BextField::MaxTruePeakLevel => 10,
            BextField::MaxMomentaryLoudness => 11,
            BextField::MaxShortTermLoudness => 12,
            BextField::Reserved => 13,
            BextField::CodingHistory => 14,
        }
    }
}

/// What the bytes of a `bext` field are.
#[derive(Clone, Copy, Debug, PartialEq, Eq)]
pub enum Form {
    Text,
    Date,
    Time,
    /// A number of samples, u64.
    Count,
    Version,
    Umid,
    /// Hundredths, i16; 7FFF where there is none.
    Loudness,
    Reserved,
}

/// The name of a field.
#[derive(Clone, Copy, Debug, PartialEq, Eq)]
pub enum FieldName {
    Bext(BextField),
    /// A child of a `LIST` of type `INFO`, by its identifier.
    Info(FourCc),
    /// A whole chunk, by its identifier.
    Whole(FourCc),
    /// An item of QuickTime's user data, by its type.
    User(FourCc),
    /// A key of QuickTime's metadata, by its name.
    Key(KeyName),
    /// The name of a stream of an AVI file, by the stream's number from 0.
    Stream(u32),
}

/// The children of a `LIST` of type `INFO` that are fields, in field order.
pub const INFO_IDS: [FourCc; 17] = [
    FourCc(*b"IARL"),
    FourCc(*b"IART"),
    FourCc(*b"ICMS"),
    FourCc(*b"ICMT"),
    FourCc(*b"ICOP"),
    FourCc(*b"ICRD"),
    FourCc(*b"IENG"),
    FourCc(*b"IGNR"),
    FourCc(*b"IKEY"),
    FourCc(*b"IMED"),
    FourCc(*b"INAM"),
    FourCc(*b"IPRD"),
    FourCc(*b"ISBJ"),
    FourCc(*b"ISFT"),
    FourCc(*b"ISRC"),
    FourCc(*b"ISRF"),
    FourCc(*b"ITCH"),
];

/// The chunks that are a field as a whole, in field order.
pub const WHOLE_IDS: [FourCc; 4] = [
    FourCc(*b"axml"),
    FourCc(*b"iXML"),
    FourCc(*b"_PMX"),
    FourCc(*b"MD5 "),
];

// The number of an identifier among others, or how many these are.
fn position_of(id: &FourCc, ids: &[FourCc]) -> usize
    ensures place { result ≡ position_or_len (λ i. bytes_eq id.now.0 i.0) ids.now }
    ensures small { result ≤ length ids.now }
{
    let mut k = 0;
    for other in ids {
        if id.is(&other.0) {
            return k;
        }
        k += 1;
    }
    k
}

// The place of all keys, behind every user type.
const KEYS_AT: u64 = 36 + (1 << 32);

// Where a name stands in field order: a number, and among keys their bytes.
#[derive(Clone, Copy)]
struct Stand<'a> {
    number: u64,
    key: &'a [u8],
}

impl Stand<'_> {
    fn at(number: u64) -> Self
        ensures number { result.number ≡ number }
        ensures key { result.key.now ≡ [] }
    {
        Stand { number, key: &[] }
    }
}

impl FieldName {
    /// Whether the name stands before another in field order.
    pub fn is_before(&self, other: &FieldName) -> bool
        ensures { result ≡ nat_lt (field_place self.now) (field_place other.now) }
    {
        let (a, b) = (self.stand(), other.stand());
        a.number < b.number || (a.number == b.number && a.key < b.key)
    }

    // Where the name stands in field order.
    fn stand(&self) -> Stand<'_>
        ensures { Stands self.now result.number result.key.now }
    {
        match self {
            FieldName::Bext(field) => Stand::at(u64::from(field.row())),
            FieldName::Info(id) => Stand::at(15 + position_of(id, &INFO_IDS) as u64),
            FieldName::Whole(id) => Stand::at(32 + position_of(id, &WHOLE_IDS) as u64),
            FieldName::User(id) => Stand::at(36 + user_place(id)),
            FieldName::Key(key) => Stand {
                number: KEYS_AT,
                key: key.as_slice(),
            },
            FieldName::Stream(n) => Stand::at(KEYS_AT + 1 + u64::from(*n)),
        }
    }

    /// Whether the names are the same.
    pub fn is(&self, other: &FieldName) -> bool
        ensures { result ≡ same_name self.now other.now }
    {
        match (self, other) {
            (FieldName::Bext(a), FieldName::Bext(b)) => a.row() == b.row(),
            (FieldName::Info(a), FieldName::Info(b)) => a.is(&b.0),
            (FieldName::Whole(a), FieldName::Whole(b)) => a.is(&b.0),
            (FieldName::User(a), FieldName::User(b)) => a.is(&b.0),
            (FieldName::Key(a), FieldName::Key(b)) => a.as_slice() == b.as_slice(),
            (FieldName::Stream(a), FieldName::Stream(b)) => a == b,
            _ => false,
        }
    }

    /// Whether it is the name of a field.
    pub fn is_field(&self) -> bool
        ensures { result ≡ is_field_name self.now }
    {
        match self {
            FieldName::Bext(_) => true,
            FieldName::Info(id) => position_of(id, &INFO_IDS) < INFO_IDS.len(),
            FieldName::Whole(id) => position_of(id, &WHOLE_IDS) < WHOLE_IDS.len(),
            FieldName::User(id) => is_user(id),
            FieldName::Key(key) => is_key(key.as_slice()),
            FieldName::Stream(n) => u64::from(*n) < 1 << 32,
        }
    }
}

/// A value of a field: its raw bytes, and their language in QuickTime's user data (0 elsewhere).
#[derive(Debug, Drop)]
pub struct Value {
    pub lang: u16,
    pub raw: Bytes,
}

impl Value {
    /// The same value.
    pub fn copy(&self, alloc: Global) -> Result<Value, NoMemory>
        ensures { IfOk result (λ value. value ≡ self.now) }
    {
        let raw = Bytes::new(alloc, self.raw.as_slice())?;
        Ok(Value {
            lang: self.lang,
            raw,
        })
    }
}

/// What an edit does to a field.
#[derive(Debug, Drop)]
pub enum Change {
    /// This text becomes its only value.
    Set(Bytes),
    Remove,
}

/// One field of an edit, and what becomes of it.
#[derive(Debug, Drop)]
pub struct EditItem {
    pub name: FieldName,
    pub change: Change,
}

/// The sets of rules. Each tests the rules of `Base` too, and `Fadgi` all of them.
#[derive(Clone, Copy, Debug, PartialEq, Eq)]
pub enum RuleSet {
    Base,
    Ebu,
    Info,
    Fadgi,
}

/// A broken rule, by its number from 1, and the field that breaks it.
#[derive(Clone, Copy, Debug, PartialEq, Eq)]
pub struct Broken {
    pub rule: u8,
    pub field: FieldName,
}

// The four bytes of a type as a number, the highest first.
fn user_place(id: &FourCc) -> u64
    ensures place { result ≡ be id.now.0 }
    ensures small { result < 2 ^ 32 }
{
    match be32_at(&id.0, 0) {
        Some(n) => u64::from(n),
        None => 0,
    }
}

/// Whether the type is that of a user text: A9 and three ASCII letters or digits.
pub fn is_user(id: &FourCc) -> bool
    ensures { result ≡ is_user_type id.now.0 }
{
    id.0[0] == 0xa9
        && id.0[1].is_ascii_alphanumeric()
        && id.0[2].is_ascii_alphanumeric()
        && id.0[3].is_ascii_alphanumeric()
}

/// The name of a rule by its number, from 1; empty where no rule has the number.
pub fn rule_name(rule: u8) -> &'static str
    ensures { result.now ≡ named_rule rule }
{
    match rule {
        1 => "BASE-KIND",
        2 => "BASE-VERSION",
        3 => "BASE-NUL",
        4 => "BASE-ASCII",
        5 => "BASE-WIDTH",
        6 => "BASE-DATE",
        7 => "BASE-TIME",
        8 => "BASE-TIMEREF",
        9 => "BASE-LOUDNESS",
        10 => "BASE-UMID",
        11 => "BASE-MD5",
        12 => "BASE-UTF8",
        13 => "BASE-LONG",
        14 => "EBU-HISTORY",
        15 => "EBU-DATE",
        16 => "EBU-TIME",
        17 => "EBU-RANGE",
        18 => "EBU-TEXT",
        19 => "INFO-ONCE",
        20 => "INFO-END",
        21 => "INFO-DATE",
        22 => "FADGI-DESCRIPTION",
        23 => "FADGI-ORIGINATOR",
        24 => "FADGI-DATE",
        _ => {
            let outside = rule == 0 || rule > 24;
            prove!(outside);
            ""
        }
    }
}
