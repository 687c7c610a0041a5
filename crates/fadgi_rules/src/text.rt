// Tests of texts.
ghost use Rattle.std.specs.Prelude.{◌≡◌, ◌≤◌, ◌==◌, [], ◌∷◌, length, codes, IsTrue};
ghost use Rattle.std.specs.Str.Parse.{digits_value};
ghost use Rattle.std.specs.List.{list_all, position_or_len};
ghost use Rattle.field_model.specs.Dates as dates;
ghost use Rattle.field_model.specs.Numbers as numbers;
ghost use Rattle.field_model.specs.Rules.{is_printable};
ghost use Rattle.fadgi_rules.specs.Rows as rows;
ghost use Rattle.fadgi_rules.specs.Days as tests;

use crate::history::is_history;
use crate::row::FieldRule;
use core_edit::text_rule;
use part_tree::{BextField, FieldName};

/// Whether a rule fails for a text that is shown.
pub fn text_fails(rule: FieldRule, text: &[u8]) -> bool
    ensures { result ≡ rows.text_fails rule text.now }
{
    match rule {
        FieldRule::History => !is_history(text),
        FieldRule::Date => !is_date(text),
        FieldRule::Time => !is_time(text),
        FieldRule::Range => is_negative(text),
        FieldRule::Letters => !are_printable(text),
        FieldRule::Once | FieldRule::End => false,
        FieldRule::Created => !is_info_date(text),
        FieldRule::HasDescription | FieldRule::HasOriginator | FieldRule::HasDate => {
            text.is_empty()
        }
    }
}

/// The place of a byte in a text, or the length where it isn't there.
pub fn place_of(byte: u8, text: &[u8]) -> usize
    ensures place { result ≡ position_or_len (λ x. x == byte) text.now }
    ensures inside { result ≤ length text.now }
{
    let mut k = 0;
    for x in text {
        if *x == byte {
            return k;
        }
        k += 1;
    }
    k
}

// Whether a text is a date that exists: it is one that the origination date can be set to.
fn is_date(text: &[u8]) -> bool
    ensures { result ≡ dates.is_date text.now }
{
    text_rule(&FieldName::Bext(BextField::OriginationDate), text).is_none()
}

// Whether a text is a time of a day, in the same way.
fn is_time(text: &[u8]) -> bool
    ensures { result ≡ dates.is_time text.now }
{
    text_rule(&FieldName::Bext(BextField::OriginationTime), text).is_none()
}

// Whether a text begins with a minus sign.
fn is_negative(text: &[u8]) -> bool
    ensures { result ≡ numbers.is_negative text.now }
{
    matches!(text, [b'-', ..])
}

// Whether each byte of a text is printable ASCII.
fn are_printable(text: &[u8]) -> bool
    ensures { result ≡ list_all is_printable text.now }
{
    for x in text {
        if *x < 32 || 126 < *x {
            return false;
        }
    }
    true
}

// Whether a text is `yyyy`, `yyyy-mm` or `yyyy-mm-dd`, of a month or a date that exists.
fn is_info_date(text: &[u8]) -> bool
    ensures { result ≡ dates.is_info_date text.now }
{
    is_year(text) || is_month(text) || is_day(text)
}

fn is_digit(x: u8) -> bool
    ensures { result ≡ dates.fits 100 x }
{
    x.is_ascii_digit()
}

// Whether a text is four digits.
fn is_year(text: &[u8]) -> bool
    ensures { result ≡ dates.has_form (codes "dddd") text.now }
{
    match text {
        [a, b, c, d] => is_digit(*a) && is_digit(*b) && is_digit(*c) && is_digit(*d),
        _ => false,
    }
}

// Whether a text is `yyyy-mm` with a month that exists.
fn is_month(text: &[u8]) -> bool
    ensures { result ≡ dates.is_month text.now }
{
    match text {
        [a, b, c, d, dash, ten, one] => {
            is_digit(*a)
                && is_digit(*b)
                && is_digit(*c)
                && is_digit(*d)
                && *dash == b'-'
                && is_digit(*ten)
                && is_digit(*one)
                && month_exists(*ten, *one)
        }
        _ => false,
    }
}

// Whether two digits write a month.
fn month_exists(ten: u8, one: u8) -> bool
    requires ten { IsTrue (dates.fits 100 ten) }
    requires one { IsTrue (dates.fits 100 one) }
    ensures { result ≡ dates.month_exists (digits_value 10 (ten ∷ one ∷ [])) }
{
    let month = (ten - b'0') * 10 + (one - b'0');
    1 <= month && month <= 12
}

// Whether a text is a date that is written with `-`.
fn is_day(text: &[u8]) -> bool
    ensures { result ≡ dates.is_day text.now }
{
    has_dashes(text) && is_date(text)
}

// Whether `-` stands at the places of a date's separators.
fn has_dashes(text: &[u8]) -> bool
    ensures { result ≡ tests.has_dashes text.now }
{
    text.len() > 7 && text[4] == b'-' && text[7] == b'-'
}
