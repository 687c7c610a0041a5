// The rules 2 to 13: texts that a field can't be set to.
ghost use Rattle.std.specs.Prelude.{◌≡◌, ◌<◌, ◌==◌, ◌||◌, ◌&&◌, IfSome, length, position};
ghost use Rattle.std.specs.List.{list_all, list_any};
ghost use Rattle.std.specs.Str.{is_utf8};
ghost use Rattle.field_model.specs.Rules as spec;

use crate::date::{is_date, is_time};
use crate::number::{count_of, is_hex, loudness_of};
use crate::raw::fits_width;
use crate::value_text::form;
use bstr::ByteSlice;
use part_tree::{FieldName, Form};

/// The least of the rules 2 to 13 that a text breaks for a field. None where it breaks none.
pub fn text_rule(name: &FieldName, text: &[u8]) -> Option<u8>
    ensures { result ≡ spec.text_rule name.now text.now }
{
    let broken = [
        is_form(name, Form::Version),
        has_nul(name, text),
        has_other_letter(name, text),
        too_wide(name, text),
        no_date(name, text),
        no_time(name, text),
        no_count(name, text),
        no_loudness_text(name, text),
        no_umid(name, text),
        no_checksum(name, text),
        no_utf8(name, text),
        too_long(name, text),
    ];
    let k = first_true(&broken)?;
    Some(k as u8 + 2)
}

// The place of the first that holds.
fn first_true(tests: &[bool]) -> Option<usize>
    ensures place { result ≡ position (λ t. t) tests.now }
    ensures small { IfSome result (λ k. k < length tests.now) }
{
    let mut k = 0;
    for test in tests {
        if *test {
            return Some(k);
        }
        k += 1;
    }
    None
}

// Whether a name is that of a field of `bext` of this form.
fn is_form(name: &FieldName, wanted: Form) -> bool
    ensures { result ≡ spec.is_form wanted name.now }
{
    match name {
        FieldName::Bext(field) => form(*field) == wanted,
        _ => false,
    }
}

fn is_info(name: &FieldName) -> bool
    ensures { result ≡ spec.is_info name.now }
{
    matches!(name, FieldName::Info(_))
}

fn is_short(name: &FieldName) -> bool
    ensures { result ≡ spec.is_short name.now }
{
    matches!(
        name,
        FieldName::User(_) | FieldName::Key(_) | FieldName::Stream(_)
    )
}

fn is_whole(name: &FieldName) -> bool
    ensures { result ≡ spec.is_whole name.now }
{
    matches!(name, FieldName::Whole(_))
}

fn is_checksum(name: &FieldName) -> bool
    ensures { result ≡ spec.is_checksum name.now }
{
    match name {
        FieldName::Whole(id) => id.is(b"MD5 "),
        _ => false,
    }
}

fn is_history_name(name: &FieldName) -> bool
    ensures { result ≡ spec.is_history_name name.now }
{
    match name {
        FieldName::Bext(field) => field.row() == 14,
        _ => false,
    }
}

fn has_zero(text: &[u8]) -> bool
    ensures { result ≡ list_any (λ x. x == 0) text.now }
{
    for x in text {
        if *x == 0 {
            return true;
        }
    }
    false
}

fn has_nul(name: &FieldName, text: &[u8]) -> bool
    ensures { result ≡ spec.has_nul name.now text.now }
{
    (is_form(name, Form::Text) || is_info(name) || is_short(name)) && has_zero(text)
}

fn is_bext_letter(history: bool, x: u8) -> bool
    ensures { result ≡ (spec.is_printable x || (history && ((x == 13) || (x == 10)))) }
{
    (32 <= x && x <= 126) || (history && (x == 13 || x == 10))
}

fn are_bext_letters(history: bool, text: &[u8]) -> bool
    ensures { result ≡ list_all (λ x. spec.is_printable x || (history && ((x == 13) || (x == 10)))) text.now }
{
    for x in text {
        if !is_bext_letter(history, *x) {
            return false;
        }
    }
    true
}

fn has_other_letter(name: &FieldName, text: &[u8]) -> bool
    ensures { result ≡ spec.has_other_letter name.now text.now }
{
    is_form(name, Form::Text) && !are_bext_letters(is_history_name(name), text)
}

fn is_too_wide(name: &FieldName, text: &[u8]) -> bool
    ensures { result ≡ spec.is_too_wide name.now text.now }
{
    match name {
        FieldName::Bext(field) => !fits_width(*field, text),
        _ => false,
    }
}

fn too_wide(name: &FieldName, text: &[u8]) -> bool
    ensures { result ≡ spec.too_wide name.now text.now }
{
    is_form(name, Form::Text) && is_too_wide(name, text)
}

fn no_date(name: &FieldName, text: &[u8]) -> bool
    ensures { result ≡ spec.no_date name.now text.now }
{
    is_form(name, Form::Date) && !is_date(text)
}

fn no_time(name: &FieldName, text: &[u8]) -> bool
    ensures { result ≡ spec.no_time name.now text.now }
{
    is_form(name, Form::Time) && !is_time(text)
}

fn no_count(name: &FieldName, text: &[u8]) -> bool
    ensures { result ≡ spec.no_count name.now text.now }
{
    is_form(name, Form::Count) && count_of(text).is_none()
}

fn no_loudness_text(name: &FieldName, text: &[u8]) -> bool
    ensures { result ≡ spec.no_loudness_text name.now text.now }
{
    is_form(name, Form::Loudness) && loudness_of(text).is_none()
}

fn no_umid(name: &FieldName, text: &[u8]) -> bool
    ensures { result ≡ spec.no_umid name.now text.now }
{
    is_form(name, Form::Umid) && !is_hex(128, text)
}

fn no_checksum(name: &FieldName, text: &[u8]) -> bool
    ensures { result ≡ spec.no_checksum name.now text.now }
{
    is_checksum(name) && !is_hex(32, text)
}

fn is_text(text: &[u8]) -> bool
    ensures { result ≡ is_utf8 text.now }
{
    text.is_utf8()
}

fn no_utf8(name: &FieldName, text: &[u8]) -> bool
    ensures { result ≡ spec.no_utf8 name.now text.now }
{
    (is_info(name) || is_short(name)) && !is_text(text)
}

fn too_long(name: &FieldName, text: &[u8]) -> bool
    ensures { result ≡ spec.too_long name.now text.now }
{
    let len = text.len();
    (is_short(name) && len > 65535)
        || ((is_info(name) || is_history_name(name)) && len > 1_048_576)
        || (is_whole(name) && !is_checksum(name) && len > 16_777_216)
}
