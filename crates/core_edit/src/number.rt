// Numbers, loudness and hexadecimal digits as texts.
ghost use Rattle.std.specs.Prelude.{◌≡◌, ◌≤◌, ◌<◌, ◌+◌, ◌&&◌, ℕ, IsTrue, length, nat_le, option_map, IfSome, ◌++◌, Some, None, decimal, if◌then◌else◌};
ghost use Rattle.me_bytes.specs.Bytes.{le_bytes};
ghost use Rattle.std.specs.List.{position_or_len};
ghost use Rattle.field_model.specs.Numbers as spec;
ghost use Rattle.core_edit.specs.Hundredths.{up_to_32768};

use crate::date::{digit, has_form, number};
use crate::short::Short;
use itoa::Buffer;

// Whether a text is a decimal number without leading zeros.
fn is_numeral(text: &[u8]) -> bool
    ensures { result ≡ spec.is_numeral text.now }
{
    if text.is_empty() {
        return false;
    }
    for c in text {
        if !c.is_ascii_digit() {
            return false;
        }
    }
    text.len() == 1 || text[0] != b'0'
}

/// The number that a text writes in decimal without leading zeros. None where it is none or 2^64 and above.
pub fn count_of(text: &[u8]) -> Option<u64>
    ensures { result ≡ spec.count_of text.now }
{
    if !is_numeral(text) {
        return None;
    }
    match std::str::from_utf8(text) {
        Ok(digits) => match u64::from_str_radix(digits, 10) {
            Ok(n) => Some(n),
            Err(_) => None,
        },
        Err(_) => None,
    }
}

// The place of the first point, or the length where there is none.
fn point_place(text: &[u8]) -> usize
    ensures place { result ≡ position_or_len spec.is_point text.now }
    ensures inside { result ≤ length text.now }
{
    let mut k = 0;
    for x in text {
        if *x == b'.' {
            return k;
        }
        k += 1;
    }
    k
}

// The hundredths that a text of two decimals writes, up to 32,768.
fn hundredths(text: &[u8]) -> Option<u16>
    ensures hundredths { result ≡ up_to_32768 text.now }
    ensures small { IfSome result (λ n. n ≤ 32768) }
{
    let point = point_place(text);
    if !has_form(b".dd", &text[point..]) {
        return None;
    }
    match count_of(&text[..point]) {
        Some(whole) if whole <= 327 => {
            let all = whole * 100 + u64::from(number(&text[point + 1..]));
            if all > 32768 { None } else { Some(all as u16) }
        }
        _ => None,
    }
}

fn positive_loudness(text: &[u8]) -> Option<u16>
    ensures { result ≡ spec.positive_loudness text.now }
{
    match hundredths(text) {
        Some(n) => { if n <= 32766 { Some(n) } else { None } }
        None => None,
    }
}

fn negative_loudness(text: &[u8]) -> Option<u16>
    ensures { result ≡ spec.negative_loudness text.now }
{
    match hundredths(text) {
        Some(n) => { if n == 0 { None } else { Some(65535 - n + 1) } }
        None => None,
    }
}

/// The number of 16 bits that a loudness is laid as. None where the text is none from -327.68 to 327.66.
pub fn loudness_of(text: &[u8]) -> Option<u16>
    ensures { result ≡ spec.loudness_of text.now }
{
    match text {
        [b'-', size @ ..] => negative_loudness(size),
        _ => positive_loudness(text),
    }
}

/// The text of a number in decimal.
pub fn decimal_text(n: u64) -> Short
    ensures text { result ≡ decimal n }
    ensures short { length result ≤ 40 }
{
    let mut buffer = Buffer::new();
    Short::of(buffer.format(n).as_bytes())
}

// Appends hundredths: the whole part, a point and two digits.
fn put_hundredths(text: &mut Short, n: u16)
    requires { length text.old ≤ 1 }
    ensures { text.new ≡ text.old ++ spec.hundredths_text n }
{
    let whole = decimal_text(u64::from(n / 100));
    text.extend(whole.as_slice());
    text.extend(b".");
    text.extend(&[b'0' + (n % 100 / 10) as u8, b'0' + (n % 100 % 10) as u8]);
}

/// The text of a loudness, in units of which a hundred make one.
pub fn loudness_text(n: u16) -> Short
    ensures { result ≡ spec.loudness_text n }
{
    if n < 32768 {
        let mut text = Short::of(b"");
        put_hundredths(&mut text, n);
        text
    } else {
        let mut text = Short::of(b"-");
        put_hundredths(&mut text, 65535 - n + 1);
        text
    }
}

/// Whether a text is so many hexadecimal digits.
pub fn is_hex(len: usize, text: &[u8]) -> bool
    ensures hex { result ≡ spec.is_hex len text.now }
    ensures long { IsTrue result → length text.now ≡ len }
{
    if text.len() != len {
        return false;
    }
    for c in text {
        if !c.is_ascii_hexdigit() {
            return false;
        }
    }
    true
}

/// The bytes that at most 128 hexadecimal digits write.
pub fn hex_raw(len: usize, text: &[u8]) -> Option<Short>
    requires { len ≤ 128 }
    ensures { result ≡ (if spec.is_hex len text.now then Some (spec.hex_bytes text.now) else None) }
{
    if !is_hex(len, text) {
        return None;
    }
    let mut bytes = [0u8; 64];
    for i in 0..len / 2 {
        bytes[i] = digit(text[2 * i]) * 16 + digit(text[2 * i + 1]);
    }
    Some(Short::of(&bytes[..len / 2]))
}
