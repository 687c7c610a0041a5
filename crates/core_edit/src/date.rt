// Dates and times as texts.
ghost use Rattle.std.specs.Prelude.{◌≡◌, ◌≤◌, ◌<◌, ℕ, length, IsTrue, Some, None, if◌then◌else◌};
ghost use Rattle.std.specs.Char.{digit_value};
ghost use Rattle.std.specs.Str.Parse.{digits_value};
ghost use Rattle.field_model.specs.Dates as spec;

use crate::short::Short;
use jiff::civil::Date;

// The value of a digit or letter, 36 for another byte.
pub fn digit(c: u8) -> u8
    ensures value { result ≡ digit_value c }
    ensures small { result ≤ 36 }
{
    match c {
        48..=57 => c - 48,
        65..=90 => c - 55,
        97..=122 => c - 87,
        _ => 36,
    }
}

// Whether a byte separates the numbers of a date or a time.
fn is_separator(x: u8) -> bool
    ensures { result ≡ spec.is_separator x }
{
    x == b'-' || x == b'_' || x == b':' || x == b' ' || x == b'.'
}

// Whether a byte is what a letter of a form stands for.
fn fits(letter: u8, x: u8) -> bool
    ensures { result ≡ spec.fits letter x }
{
    if letter == b'd' {
        x.is_ascii_digit()
    } else if letter == b's' {
        is_separator(x)
    } else {
        x == letter
    }
}

/// Whether a text has a form, letter by letter: `d` for a digit, `s` for a separator, another letter for itself.
pub fn has_form(form: &[u8], text: &[u8]) -> bool
    ensures form { result ≡ spec.has_form form.now text.now }
    ensures long { IsTrue result → length text.now ≡ length form.now }
{
    if form.len() != text.len() {
        return false;
    }
    for i in 0..form.len() {
        if !fits(form[i], text[i]) {
            return false;
        }
    }
    true
}

/// The number that at most four digits write.
pub fn number(digits: &[u8]) -> u16
    requires { length digits.now ≤ 4 }
    ensures { result ≡ digits_value 10 digits.now }
{
    let mut n = 0;
    for c in digits {
        n = n * 10 + u16::from(digit(*c));
    }
    n
}

fn date_exists(year: u16, month: u16, day: u16) -> bool
    requires year { year ≤ 9999 }
    requires month { month ≤ 99 }
    requires day { day ≤ 99 }
    ensures { result ≡ spec.date_exists year month day }
{
    Date::new(year as i16, month as i8, day as i8).is_ok()
}

/// Whether a text is a date that exists.
pub fn is_date(text: &[u8]) -> bool
    ensures date { result ≡ spec.is_date text.now }
    ensures long { IsTrue result → length text.now ≡ 10 }
{
    has_form(b"ddddsddsdd", text)
        && date_exists(
            number(&text[0..4]),
            number(&text[5..7]),
            number(&text[8..10]),
        )
}

/// Whether a text is a time of a day.
pub fn is_time(text: &[u8]) -> bool
    ensures time { result ≡ spec.is_time text.now }
    ensures long { IsTrue result → length text.now ≡ 8 }
{
    has_form(b"ddsddsdd", text)
        && number(&text[0..2]) <= 23
        && number(&text[3..5]) <= 59
        && number(&text[6..8]) <= 59
}

/// Whether a text is `yyyy`, `yyyy-mm` or `yyyy-mm-dd`, of a month or a date that exists.
pub fn is_info_date(text: &[u8]) -> bool
    ensures { result ≡ spec.is_info_date text.now }
{
    has_form(b"dddd", text) || is_month(text) || is_day(text)
}

fn is_month(text: &[u8]) -> bool
    ensures { result ≡ spec.is_month text.now }
{
    has_form(b"dddd-dd", text) && month_exists(number(&text[5..7]))
}

fn month_exists(month: u16) -> bool
    ensures { result ≡ spec.month_exists month }
{
    1 <= month && month <= 12
}

fn is_day(text: &[u8]) -> bool
    ensures { result ≡ spec.is_day text.now }
{
    has_form(b"dddd-dd-dd", text)
        && date_exists(
            number(&text[0..4]),
            number(&text[5..7]),
            number(&text[8..10]),
        )
}

/// The spelling of a date, `yyyy-mm-dd`. None where it is none.
pub fn date_raw(text: &[u8]) -> Option<Short>
    ensures { result ≡ (if spec.is_date text.now then Some (spec.spelled_date text.now) else None) }
{
    if !is_date(text) {
        return None;
    }
    let mut spelled = Short::of(&text[0..4]);
    spelled.extend(b"-");
    spelled.extend(&text[5..7]);
    spelled.extend(b"-");
    spelled.extend(&text[8..10]);
    Some(spelled)
}

/// The spelling of a time, `hh:mm:ss`. None where it is none.
pub fn time_raw(text: &[u8]) -> Option<Short>
    ensures { result ≡ (if spec.is_time text.now then Some (spec.spelled_time text.now) else None) }
{
    if !is_time(text) {
        return None;
    }
    let mut spelled = Short::of(&text[0..2]);
    spelled.extend(b":");
    spelled.extend(&text[3..5]);
    spelled.extend(b":");
    spelled.extend(&text[6..8]);
    Some(spelled)
}
