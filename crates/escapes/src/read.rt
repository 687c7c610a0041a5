// Escapes read back.
ghost use Rattle.std.specs.Prelude.{◌≡◌, ◌<◌, ◌≤◌, IfOk, length, drop};
ghost use Rattle.std.specs.Char.{digit_value};
ghost use Rattle.escapes.specs.Escapes as spec;

use part_tree::{Bytes, NoMemory};
use std::alloc::Global;

/// The bytes that a text was written for. `\x` takes two digits of either case, whatever byte they name. None where a backslash
/// begins no escape.
pub fn unescape(alloc: Global, text: &[u8]) -> Result<Option<Bytes>, NoMemory>
    ensures { IfOk result (λ raw. raw ≡ spec.unescaped text.now) }
{
    let mut raw = Vec::new(alloc);
    let mut more = 0;
    for at in 0..text.len() {
        match read_letter(&mut raw, &text[at..], more)? {
            Some(next) => more = next,
            None => return Ok(None),
        }
    }
    Ok(Some(Bytes::of(raw)))
}

// Reads the first letter of a text, of which `more` letters are the rest of an escape: appends the byte that it begins.
// Returns how many of the others are the rest of one, and None at a bad escape.
fn read_letter(raw: &mut Vec<u8>, text: &[u8], more: usize) -> Result<Option<usize>, NoMemory>
    requires { 0 < length text.now }
    ensures { IfOk result (λ next. spec.joined raw.new.items (spec.left next (drop 1 text.now))
        ≡ spec.joined raw.old.items (spec.unescaped_from more text.now)) }
{
    if more > 0 {
        return Ok(Some(more - 1));
    }
    let Some(byte) = first_byte(text) else {
        return Ok(None);
    };
    match raw.push(byte) {
        Ok(()) => Ok(Some(more_letters(text))),
        Err(_) => Err(NoMemory),
    }
}

// The byte that a text begins with: that of an escape, or the letter itself.
fn first_byte(text: &[u8]) -> Option<u8>
    ensures { result ≡ spec.first_byte text.now }
{
    match text {
        [b'\\', escape @ ..] => named(escape),
        [letter, ..] => Some(*letter),
        [] => None,
    }
}

// How many more letters it takes.
fn more_letters(text: &[u8]) -> usize
    ensures { result ≡ spec.more_letters text.now }
{
    match text {
        [b'\\', b'x', ..] => 3,
        [b'\\', _, ..] => 1,
        _ => 0,
    }
}

// The byte that an escape names, by what stands behind its backslash.
fn named(escape: &[u8]) -> Option<u8>
    ensures { result ≡ spec.named escape.now }
{
    match escape {
        [b'\\', ..] => Some(b'\\'),
        [b'n', ..] => Some(b'\n'),
        [b'r', ..] => Some(b'\r'),
        [b't', ..] => Some(b'\t'),
        [b'x', digits @ ..] => hex_named(digits),
        _ => None,
    }
}

fn hex_named(digits: &[u8]) -> Option<u8>
    ensures { result ≡ spec.hex_named digits.now }
{
    match digits {
        [a, b, ..] if a.is_ascii_hexdigit() && b.is_ascii_hexdigit() => Some(
            digit(*a) * 16 + digit(*b),
        ),
        _ => None,
    }
}

// The value of a digit or letter, 36 for another byte.
fn digit(c: u8) -> u8
    ensures value { result ≡ digit_value c }
    ensures small { result ≤ 36 }
{
    match c {
        48..=57 => c - 48,
        65..=90 => c - 55,
        97..=122 => c - 87,
        _ => 36,
    }
}
