// The text that a value shows.
ghost use Rattle.std.specs.Prelude.{◌≡◌, ◌<◌, ℕ, List, length, ◌≤◌, ◌/◌, ◌%◌, ◌==◌, ◌↔◌, get_or, IfOk, option_copied, option_map, IsTrue, true, false, if◌then◌else◌};
ghost use Rattle.std.specs.List.{position_or_len};
ghost use Rattle.std.specs.Str.{bytes_eq};
ghost use Rattle.std.specs.Fmt.{digit_glyph};
ghost use Rattle.me_bytes.specs.Bytes.{le};
ghost use Rattle.part_tree.specs.Fields.{values};
ghost use Rattle.field_model.specs.Bext.{form_of};
ghost use Rattle.field_model.specs.Fields.{version_of};
ghost use Rattle.field_model.specs.Lawful.{FillsName, IsLawful};
ghost use Rattle.field_model.specs.Numbers.{hex_text};
ghost use Rattle.field_model.specs.Shown as spec;
ghost use Rattle.core_edit.specs.Forms.{FormHasNumber, HasNumber};
ghost use Rattle.core_edit.specs.Shown.{shown_at, text_of};

use crate::number::{decimal_text, loudness_text};
use crate::short::Short;
use bext_fields::{BEXT, locate};
use me_bytes::{le16_at, le64_at};
use part_tree::{BextField, Bytes, FieldName, Fields, Form, NoMemory, Value};
use std::alloc::Global;

/// A text that a value shows, without a copy of it.
#[derive(Debug, Drop)]
pub enum ShownText<'a> {
    /// These bytes.
    Plain(&'a [u8]),
    /// The hexadecimal digits of these bytes, in upper case.
    Upper(&'a [u8]),
    /// The same in lower case.
    Lower(&'a [u8]),
    Few(Short),
}

impl<'a> ShownText<'a> {
    /// How many bytes it has.
    pub fn len(&self) -> usize
        ensures { result ≡ length (text_of self.now) }
    {
        match self {
            ShownText::Plain(bytes) => bytes.len(),
            ShownText::Upper(raw) => hex_len(raw),
            ShownText::Lower(raw) => hex_len(raw),
            ShownText::Few(bytes) => bytes.as_slice().len(),
        }
    }

    pub fn is_empty(&self) -> bool
        ensures { IsTrue result ↔ (length (text_of self.now) ≡ 0) }
    {
        self.len() == 0
    }

    /// The byte at a place, from 0.
    pub fn byte(&self, at: usize) -> u8
        requires { at < length (text_of self.now) }
        ensures { result ≡ get_or (text_of self.now) at 0 }
    {
        match self {
            ShownText::Plain(bytes) => bytes[at],
            ShownText::Upper(raw) => hex_byte(raw, at, true),
            ShownText::Lower(raw) => hex_byte(raw, at, false),
            ShownText::Few(bytes) => bytes.as_slice()[at],
        }
    }

    /// Whether it is the same text as another.
    pub fn is(&self, other: &ShownText) -> bool
        ensures { result ≡ bytes_eq (text_of self.now) (text_of other.now) }
    {
        if self.len() != other.len() {
            return false;
        }
        for i in 0..self.len() {
            if self.byte(i) != other.byte(i) {
                return false;
            }
        }
        true
    }

    /// The text in memory of its own.
    pub fn to_bytes(&self, alloc: Global) -> Result<Bytes, NoMemory>
        ensures { IfOk result (λ bytes. bytes ≡ text_of self.now) }
    {
        let mut text = Vec::new(alloc);
        for i in 0..self.len() {
            match text.push(self.byte(i)) {
                Ok(()) => {}
                Err(_) => return Err(NoMemory),
            }
        }
        Ok(Bytes::of(text))
    }
}

// How many digits some bytes have.
fn hex_len(raw: &[u8]) -> usize
    ensures upper { result ≡ length (hex_text true raw.now) }
    ensures lower { result ≡ length (hex_text false raw.now) }
{
    raw.len() * 2
}

// The digit at a place.
fn hex_byte(raw: &[u8], at: usize, upper: bool) -> u8
    requires { at < length (hex_text upper raw.now) }
    ensures { result ≡ get_or (hex_text upper raw.now) at 0 }
{
    hex_digit(raw[at / 2], at % 2 == 0, upper)
}

// One of the two digits of a byte.
fn hex_digit(byte: u8, high: bool, upper: bool) -> u8
    ensures { result ≡ digit_glyph upper (if high then byte / 16 else byte % 16) }
{
    let value = if high { byte / 16 } else { byte % 16 };
    if value < 10 {
        b'0' + value
    } else if upper {
        b'A' - 10 + value
    } else {
        b'a' - 10 + value
    }
}

// The place of the first 0, or the length where there is none.
fn zero_place(raw: &[u8]) -> usize
    ensures place { result ≡ position_or_len (λ x. x == 0) raw.now }
    ensures inside { result ≤ length raw.now }
{
    let mut k = 0;
    for x in raw {
        if *x == 0 {
            return k;
        }
        k += 1;
    }
    k
}

/// The bytes before the first 0.
pub fn before_zero(raw: &[u8]) -> &[u8]
    ensures { result.now ≡ spec.before_zero raw.now }
{
    &raw[..zero_place(raw)]
}

fn all_zeros(raw: &[u8]) -> bool
    ensures { result ≡ spec.all_zeros raw.now }
{
    for x in raw {
        if *x != 0 {
            return false;
        }
    }
    true
}

/// The number of eight bytes.
pub fn number_8(raw: &[u8]) -> u64
    requires { length raw.now ≡ 8 }
    ensures { result ≡ le raw.now }
{
    match le64_at(raw, 0) {
        Some(n) => n,
        None => 0,
    }
}

// The number of two bytes.
fn number_2(raw: &[u8]) -> u16
    requires { length raw.now ≡ 2 }
    ensures { result ≡ le raw.now }
{
    match le16_at(raw, 0) {
        Some(n) => n,
        None => 0,
    }
}

/// What the bytes of a field show, where `bext` tells this version. None where they show nothing.
pub fn shown_text<'a>(version: u16, name: &FieldName, raw: &'a [u8]) -> Option<ShownText<'a>>
    requires { HasNumber name.now raw.now }
    ensures { option_map text_of result ≡ shown_at version name.now raw.now }
{
    match name {
        FieldName::Bext(field) => shown_bext(version, *field, raw),
        FieldName::Info(_) => Some(ShownText::Plain(before_zero(raw))),
        FieldName::Whole(id) => {
            if id.is(b"MD5 ") {
                Some(ShownText::Lower(raw))
            } else {
                Some(ShownText::Plain(raw))
            }
        }
        FieldName::User(_) => Some(ShownText::Plain(raw)),
        FieldName::Key(_) => {
            let text = key_text(raw)?;
            Some(ShownText::Plain(text))
        }
        FieldName::Stream(_) => Some(ShownText::Plain(before_zero(raw))),
    }
}

/// The text of a key's value: what stands behind its type and its locale. None where the type isn't UTF-8.
pub fn key_text(raw: &[u8]) -> Option<&[u8]>
    ensures { option_copied result ≡ spec.shown_key raw.now }
{
    if raw.len() < 4 || raw[..4] != [0, 0, 0, 1] {
        return None;
    }
    Some(if raw.len() < 8 { &[] } else { &raw[8..] })
}

/// What the bytes of a field of `bext` show, where it tells this version. None where they show nothing.
pub fn shown_bext<'a>(version: u16, field: BextField, raw: &'a [u8]) -> Option<ShownText<'a>>
    requires { FormHasNumber (form_of field) raw.now }
    ensures { option_map text_of result ≡ spec.shown_form (form_of field) version raw.now }
{
    match form(field) {
        Form::Text | Form::Date | Form::Time => {
            let text = before_zero(raw);
            if text.is_empty() {
                None
            } else {
                Some(ShownText::Plain(text))
            }
        }
        Form::Count => Some(ShownText::Few(decimal_text(number_8(raw)))),
        Form::Version => Some(ShownText::Few(decimal_text(u64::from(number_2(raw))))),
        Form::Umid => {
            if version == 0 || all_zeros(raw) {
                None
            } else {
                Some(ShownText::Upper(raw))
            }
        }
        Form::Loudness => {
            let n = number_2(raw);
            if version < 2 || n == 32767 {
                None
            } else {
                Some(ShownText::Few(loudness_text(n)))
            }
        }
        Form::Reserved => None,
    }
}

/// What the bytes of a field of `bext` are.
pub fn form(field: BextField) -> Form
    ensures { result ≡ form_of field }
{
    match locate(&BEXT, field) {
        Some(k) => BEXT[k].form,
        None => Form::Text,
    }
}

/// The version that `bext` tells, 0 where there is none.
pub fn version(fields: &Fields) -> u16
    requires { IsLawful (values fields.now) }
    ensures { result ≡ version_of (values fields.now) }
{
    let held = fields.get(&FieldName::Bext(BextField::Version));
    if held.len() == 0 {
        return 0;
    }
    number_2(held[0].raw.as_slice())
}

/// The text that a value of a field shows. None where it shows none.
pub fn shown(
    alloc: Global,
    fields: &Fields,
    name: &FieldName,
    value: &Value,
) -> Result<Option<Bytes>, NoMemory>
    requires lawful { IsLawful (values fields.now) }
    requires fills { FillsName name.now value.now.raw }
    ensures { IfOk result (λ text. text ≡ spec.shown (values fields.now) name.now value.now) }
{
    match shown_text(version(fields), name, value.raw.as_slice()) {
        Some(text) => {
            let bytes = text.to_bytes(alloc)?;
            Ok(Some(bytes))
        }
        None => Ok(None),
    }
}
