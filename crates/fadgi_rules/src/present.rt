// Whether a rule fails for fields as they stand.
ghost use Rattle.std.specs.Prelude.{◌≡◌, not, option_copied};
ghost use Rattle.std.specs.List.{list_any};
ghost use Rattle.part_tree.specs.Fields.{values};
ghost use Rattle.field_model.specs.Broken as spec;
ghost use Rattle.field_model.specs.Lawful.{IsLawful};
ghost use Rattle.fadgi_rules.specs.Present as present;
ghost use Rattle.fadgi_rules.specs.Rows as rows;

use crate::row::FieldRule;
use crate::text::text_fails;
use core_edit::{before_zero, key_text};
use me_bytes::le16_at;
use part_tree::{BextField, FieldName, Fields, Value};

/// Whether a rule fails for a field that it looks at.
pub fn fails_now(rule: FieldRule, fields: &Fields, name: &FieldName) -> bool
    requires lawful { IsLawful (values fields.now) }
    requires looks { rows.LooksAt rule name.now }
    ensures { result ≡ rows.fails rule (values fields.now) name.now }
{
    let held = fields.get(name);
    match rule {
        FieldRule::Once => held.len() > 1,
        FieldRule::End => some_unended(held),
        FieldRule::Range => range_is_negative(fields),
        FieldRule::HasDescription | FieldRule::HasOriginator | FieldRule::HasDate => {
            !shows_any(name, held) || some_text_fails(rule, name, held)
        }
        FieldRule::History
        | FieldRule::Date
        | FieldRule::Time
        | FieldRule::Letters
        | FieldRule::Created => some_text_fails(rule, name, held),
    }
}

// Whether some value doesn't end with 0.
fn some_unended(held: &[Value]) -> bool
    ensures { result ≡ list_any (λ v. not (spec.ends_with_zero v.raw)) held.now }
{
    for value in held {
        if !ends_with_zero(value.raw.as_slice()) {
            return true;
        }
    }
    false
}

fn ends_with_zero(raw: &[u8]) -> bool
    ensures { result ≡ spec.ends_with_zero raw.now }
{
    raw.len() > 0 && raw[raw.len() - 1] == 0
}

// The text that the bytes of a field show that is kept as a text. None where they show none.
fn plain_text<'a>(name: &FieldName, raw: &'a [u8]) -> Option<&'a [u8]>
    ensures { option_copied result ≡ present.plain_text name.now raw.now }
{
    match name {
        FieldName::Bext(_) => {
            let text = before_zero(raw);
            if text.is_empty() { None } else { Some(text) }
        }
        FieldName::Info(_) | FieldName::Stream(_) => Some(before_zero(raw)),
        FieldName::Whole(_) | FieldName::User(_) => Some(raw),
        FieldName::Key(_) => key_text(raw),
    }
}

// Whether a value shows a text for which a rule fails.
fn value_fails(rule: FieldRule, name: &FieldName, value: &Value) -> bool
    ensures { result ≡ present.value_fails rule name.now value.now }
{
    match plain_text(name, value.raw.as_slice()) {
        Some(text) => text_fails(rule, text),
        None => false,
    }
}

fn some_text_fails(rule: FieldRule, name: &FieldName, held: &[Value]) -> bool
    ensures { result ≡ list_any (present.value_fails rule name.now) held.now }
{
    for value in held {
        if value_fails(rule, name, value) {
            return true;
        }
    }
    false
}

// Whether some value shows a text.
fn shows_any(name: &FieldName, held: &[Value]) -> bool
    ensures { result ≡ list_any (present.shows_text name.now) held.now }
{
    for value in held {
        if plain_text(name, value.raw.as_slice()).is_some() {
            return true;
        }
    }
    false
}

// The number of a field of `bext` of two bytes, 0 where there is no `bext`.
fn number(fields: &Fields, field: BextField) -> u16
    requires { present.HasTwoBytes (values fields.now) field }
    ensures { result ≡ present.number (values fields.now) field }
{
    let held = fields.get(&FieldName::Bext(field));
    if held.len() == 0 {
        return 0;
    }
    match le16_at(held[0].raw.as_slice(), 0) {
        Some(n) => n,
        None => 0,
    }
}

// Whether a loudness range is shown that is negative.
fn range_is_negative(fields: &Fields) -> bool
    requires { IsLawful (values fields.now) }
    ensures { result ≡ present.shows_negative (values fields.now) }
{
    number(fields, BextField::Version) >= 2 && number(fields, BextField::LoudnessRange) >= 32768
}
