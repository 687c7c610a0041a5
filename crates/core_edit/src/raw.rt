// The bytes that a text is laid as.
ghost use Rattle.std.specs.Prelude.{◌≡◌, ◌<◌, ◌≤◌, ◌++◌, Some, IfOk, replicate, option_map};
ghost use Rattle.field_model.specs.Bext.{form_of, width as spec_width};
ghost use Rattle.me_bytes.specs.Bytes.{le_bytes};
ghost use Rattle.field_model.specs.Numbers.{count_of, loudness_of};
ghost use Rattle.field_model.specs.Raw as spec;
ghost use Rattle.core_edit.specs.Forms.{IsNoText};

use crate::date::{date_raw, time_raw};
use crate::number::{count_of, hex_raw, loudness_of};
use crate::short::Short;
use crate::value_text::form;
use bext_fields::{BEXT, locate};
use part_tree::{BextField, Bytes, FieldName, Form, NoMemory};
use std::alloc::Global;

/// The bytes that a text is laid as for a field. None where the field can't have the text.
pub fn raw_of(alloc: Global, name: &FieldName, text: &[u8]) -> Result<Option<Bytes>, NoMemory>
    ensures { IfOk result (λ raw. raw ≡ spec.raw_of name.now text.now) }
{
    match name {
        FieldName::Bext(field) => raw_bext(alloc, *field, text),
        FieldName::Info(_) => padded(alloc, text, 1),
        FieldName::Whole(id) => {
            if id.is(b"MD5 ") {
                owned(alloc, hex_raw(32, text))
            } else {
                padded(alloc, text, 0)
            }
        }
        FieldName::User(_) => padded(alloc, text, 0),
        FieldName::Key(_) => key_raw(alloc, text),
        FieldName::Stream(_) => padded(alloc, text, 1),
    }
}

// What stands before the text of a key: type 1, which is UTF-8, and locale 0.
const KEY_HEAD: [u8; 8] = [0, 0, 0, 1, 0, 0, 0, 0];

fn key_raw(alloc: Global, text: &[u8]) -> Result<Option<Bytes>, NoMemory>
    ensures { IfOk result (λ raw. raw ≡ Some (spec.key_head ++ text.now)) }
{
    let mut raw = Vec::from_slice(alloc, &KEY_HEAD)?;
    raw.extend_from_slice(text)?;
    Ok(Some(Bytes::of(raw)))
}

fn raw_bext(alloc: Global, field: BextField, text: &[u8]) -> Result<Option<Bytes>, NoMemory>
    ensures { IfOk result (λ raw. raw ≡ spec.raw_form (form_of field) field text.now) }
{
    if let Form::Text = form(field) {
        if !fits_width(field, text) {
            return Ok(None);
        }
        let width = width(field);
        let zeros = if text.len() < width {
            width - text.len()
        } else {
            0
        };
        return padded(alloc, text, zeros);
    }
    owned(alloc, short_raw(field, text))
}

/// Whether a text fits the range of its field; the coding history has no length of its own.
pub fn fits_width(field: BextField, text: &[u8]) -> bool
    ensures { result ≡ spec.fits_width field text.now }
{
    field.row() == 14 || text.len() <= width(field)
}

/// The length of a field's range, 0 for the coding history.
pub fn width(field: BextField) -> usize
    ensures { result ≡ spec_width field }
{
    match locate(&BEXT, field) {
        Some(k) => BEXT[k].len as usize,
        None => 0,
    }
}

/// The bytes of a field of `bext` that is no text. None where it can't have the text.
pub fn short_raw(field: BextField, text: &[u8]) -> Option<Short>
    requires { IsNoText (form_of field) }
    ensures { result ≡ spec.raw_form (form_of field) field text.now }
{
    match form(field) {
        Form::Date => date_raw(text),
        Form::Time => time_raw(text),
        Form::Count => count_raw(text),
        Form::Umid => hex_raw(128, text),
        Form::Loudness => loudness_raw(text),
        _ => None,
    }
}

fn count_raw(text: &[u8]) -> Option<Short>
    ensures { result ≡ option_map (le_bytes 8) (count_of text.now) }
{
    let n = count_of(text)?;
    Some(Short::of(&n.to_le_bytes()))
}

fn loudness_raw(text: &[u8]) -> Option<Short>
    ensures { result ≡ option_map (le_bytes 2) (loudness_of text.now) }
{
    let n = loudness_of(text)?;
    Some(Short::of(&n.to_le_bytes()))
}

/// The value of a loudness field that has none.
pub const NO_LOUDNESS: [u8; 2] = [0xff, 0x7f];

/// So many zeros.
pub fn zeros(alloc: Global, len: usize) -> Result<Bytes, NoMemory>
    requires { len < 512 }
    ensures { IfOk result (λ bytes. bytes ≡ replicate len 0) }
{
    Bytes::new(alloc, &[0; 512][..len])
}

// The text, and so many zeros.
fn padded(alloc: Global, text: &[u8], zeros: usize) -> Result<Option<Bytes>, NoMemory>
    requires { zeros < 512 }
    ensures { IfOk result (λ raw. raw ≡ Some (text.now ++ replicate zeros 0)) }
{
    let mut raw = Vec::from_slice(alloc, text)?;
    raw.extend_from_slice(&[0; 512][..zeros])?;
    Ok(Some(Bytes::of(raw)))
}

fn owned(alloc: Global, raw: Option<Short>) -> Result<Option<Bytes>, NoMemory>
    ensures { IfOk result (λ bytes. bytes ≡ raw) }
{
    match raw {
        Some(raw) => {
            let bytes = Bytes::new(alloc, raw.as_slice())?;
            Ok(Some(bytes))
        }
        None => Ok(None),
    }
}
