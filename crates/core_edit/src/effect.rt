// Which items of an edit change something.
ghost use Rattle.std.specs.Prelude.{◌≡◌, Some, ◌||◌, ◌&&◌, ◌==◌, is_none, ℕ};
ghost use Rattle.me_bytes.specs.Bytes.{le};
ghost use Rattle.part_tree.specs.declared.field.FieldName.TheVariants.{Bext};
ghost use Rattle.part_tree.specs.declared.field.Form.TheVariants.{Text};
ghost use Rattle.part_tree.specs.Fields.{values};
ghost use Rattle.part_tree.specs.Names.{bext_row};
ghost use Rattle.field_model.specs.Bext.{form_of};
ghost use Rattle.field_model.specs.Body.{FillsRange};
ghost use Rattle.field_model.specs.Lawful.{IsLawful};
ghost use Rattle.field_model.specs.Raw.{raw_form, raw_of, raw_whole};
ghost use Rattle.field_model.specs.Shown.{shown_form};
ghost use Rattle.field_model.specs.Update as spec;
ghost use Rattle.core_edit.specs.Forms.{HasNumber, IsNoText};
ghost use Rattle.core_edit.specs.Shown.{shown_at, spelled_at, spelled_form, spelled_whole, text_of};

use crate::number::hex_raw;
use crate::raw::{fits_width, short_raw};
use crate::value_text::{ShownText, before_zero, form, number_8, shown_bext, shown_text, version};
use part_tree::{BextField, Change, EditItem, FieldName, Fields, Form, FourCc};

/// Whether an item changes the fields. Setting a text doesn't where the only value shows it, or shows what its spelling shows;
/// removing doesn't where there is nothing to remove.
pub fn has_effect(fields: &Fields, item: &EditItem) -> bool
    requires { IsLawful (values fields.now) }
    ensures { result ≡ spec.has_effect (values fields.now) item.now }
{
    match &item.change {
        Change::Set(text) => !shows_already(fields, &item.name, text.as_slice()),
        Change::Remove => removes(fields, &item.name),
    }
}

// Whether setting a text changes nothing.
fn shows_already(fields: &Fields, name: &FieldName, text: &[u8]) -> bool
    requires { IsLawful (values fields.now) }
    ensures { result ≡ spec.shows_already (values fields.now) name.now text.now }
{
    match fields.get(name) {
        [value] => value_shows(version(fields), name, value.raw.as_slice(), text),
        _ => false,
    }
}

// Whether the bytes of a field show a text, or what its spelling shows.
fn value_shows(version: u16, name: &FieldName, raw: &[u8], text: &[u8]) -> bool
    requires { HasNumber name.now raw.now }
    ensures { result ≡ (spec.same_text (shown_at version name.now raw.now) (Some text.now)
        || spec.same_text (shown_at version name.now raw.now)
        (spelled_at version name.now (raw_of name.now text.now))) }
{
    match shown_text(version, name, raw) {
        Some(found) => {
            found.is(&ShownText::Plain(text)) || is_spelled(version, name, &found, text)
        }
        None => false,
    }
}

// Whether a shown text is what the spelling of another one shows.
fn is_spelled(version: u16, name: &FieldName, found: &ShownText, text: &[u8]) -> bool
    ensures { result ≡ spec.same_text (Some (text_of found.now))
        (spelled_at version name.now (raw_of name.now text.now)) }
{
    match name {
        FieldName::Bext(field) => is_spelled_bext(version, *field, found, text),
        FieldName::Info(_) => found.is(&ShownText::Plain(before_zero(text))),
        FieldName::Whole(id) => is_spelled_whole(id, found, text),
        FieldName::User(_) | FieldName::Key(_) => found.is(&ShownText::Plain(text)),
        FieldName::Stream(_) => found.is(&ShownText::Plain(before_zero(text))),
    }
}

fn is_spelled_whole(id: &FourCc, found: &ShownText, text: &[u8]) -> bool
    ensures { result
        ≡ spec.same_text (Some (text_of found.now)) (spelled_whole id.now.0 (raw_whole id.now.0 text.now)) }
{
    if !id.is(b"MD5 ") {
        return found.is(&ShownText::Plain(text));
    }
    match hex_raw(32, text) {
        Some(raw) => found.is(&ShownText::Lower(raw.as_slice())),
        None => false,
    }
}

fn is_spelled_bext(version: u16, field: BextField, found: &ShownText, text: &[u8]) -> bool
    ensures { result ≡ spec.same_text (Some (text_of found.now))
        (spelled_form (form_of field) version (raw_form (form_of field) field text.now)) }
{
    match form(field) {
        Form::Text => is_spelled_text(field, found, text),
        _ => is_spelled_short(version, field, found, text),
    }
}

fn is_spelled_text(field: BextField, found: &ShownText, text: &[u8]) -> bool
    ensures { (version : ℕ) → result
        ≡ spec.same_text (Some (text_of found.now)) (spelled_form Text version (raw_form Text field text.now)) }
{
    if !fits_width(field, text) {
        return false;
    }
    let shown = before_zero(text);
    if shown.is_empty() {
        return false;
    }
    found.is(&ShownText::Plain(shown))
}

fn is_spelled_short(version: u16, field: BextField, found: &ShownText, text: &[u8]) -> bool
    requires { IsNoText (form_of field) }
    ensures { result ≡ spec.same_text (Some (text_of found.now))
        (spelled_form (form_of field) version (raw_form (form_of field) field text.now)) }
{
    let Some(raw) = short_raw(field, text) else {
        return false;
    };
    match shown_bext(version, field, raw.as_slice()) {
        Some(spelled) => found.is(&spelled),
        None => false,
    }
}

// Whether removing a name changes something.
fn removes(fields: &Fields, name: &FieldName) -> bool
    requires { IsLawful (values fields.now) }
    ensures { result ≡ spec.removes (values fields.now) name.now (values fields.now name.now) }
{
    match name {
        FieldName::Bext(field) => removes_bext(fields, *field),
        _ => fields.get(name).len() != 0,
    }
}

fn removes_bext(fields: &Fields, field: BextField) -> bool
    requires { IsLawful (values fields.now) }
    ensures { result ≡ spec.removes (values fields.now) (Bext field) (values fields.now (Bext field)) }
{
    match fields.get(&FieldName::Bext(field)) {
        [value] => !is_nothing(version(fields), field, value.raw.as_slice()),
        _ => false,
    }
}

// Whether there is nothing to remove in the bytes of a field: they show nothing, or are a time reference of 0.
fn is_nothing(version: u16, field: BextField, raw: &[u8]) -> bool
    requires { FillsRange field raw.now }
    ensures { result ≡
        (is_none (shown_form (form_of field) version raw.now) || ((bext_row field == 5) && (le raw.now == 0))) }
{
    shown_bext(version, field, raw).is_none() || (field.row() == 5 && number_8(raw) == 0)
}
