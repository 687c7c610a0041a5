// Bytes written with escapes.
ghost use Rattle.std.specs.Prelude.{◌≡◌, ◌<◌, ◌++◌, IfOk, OnOk, true, length, drop};
ghost use Rattle.std.specs.Fmt.{digit_glyph};
ghost use Rattle.escapes.specs.Escapes as spec;

use bstr::decode_utf8;
use part_tree::{Bytes, NoMemory};
use std::alloc::Global;

/// The bytes as one line of text. What isn't ASCII stays where it is valid UTF-8.
pub fn escape(alloc: Global, raw: &[u8]) -> Result<Bytes, NoMemory>
    ensures { IfOk result (λ text. text ≡ spec.escaped raw.now) }
{
    let mut text = Vec::new(alloc);
    let mut ahead = 0;
    for at in 0..raw.len() {
        ahead = put_first(&mut text, &raw[at..], ahead)?;
    }
    Ok(Bytes::of(text))
}

// Appends the first of some bytes, of which `ahead` are the rest of a character. Returns how many of the others are.
fn put_first(text: &mut Vec<u8>, rest: &[u8], ahead: usize) -> Result<usize, NoMemory>
    requires { 0 < length rest.now }
    ensures { IfOk result (λ next. text.new.items ++ spec.escaped_from next (drop 1 rest.now)
        ≡ text.old.items ++ spec.escaped_from ahead rest.now) }
{
    if ahead > 0 {
        put_all(text, &rest[..1])?;
        return Ok(ahead - 1);
    }
    let wide = wide_len(rest);
    if wide > 0 {
        put_all(text, &rest[..1])?;
        return Ok(wide - 1);
    }
    put_byte(text, rest[0])?;
    Ok(0)
}

// How many bytes the character has that some bytes begin with, where that is none of ASCII. 0 where they begin with none.
#[tactic(auto, unfolding(crate::specs::Escapes::wide_len))]
fn wide_len(bytes: &[u8]) -> usize
    ensures { result ≡ spec.wide_len bytes.now }
{
    match decode_utf8(bytes) {
        (Some(_), size) if size > 1 => size,
        _ => 0,
    }
}

// Appends a byte by itself.
fn put_byte(text: &mut Vec<u8>, byte: u8) -> Result<(), NoMemory>
    ensures { OnOk result (text.new.items ≡ text.old.items ++ spec.escaped_byte byte) }
{
    if byte == b'\\' {
        put_all(text, b"\\\\")
    } else if byte == b'\n' {
        put_all(text, b"\\n")
    } else if byte == b'\r' {
        put_all(text, b"\\r")
    } else if byte == b'\t' {
        put_all(text, b"\\t")
    } else if byte < 0x20 || byte >= 0x7f {
        put_all(text, &[b'\\', b'x', digit(byte / 16), digit(byte % 16)])
    } else {
        put_all(text, &[byte])
    }
}

// The hexadecimal digit of a number, in upper case.
fn digit(n: u8) -> u8
    requires { n < 16 }
    ensures { result ≡ digit_glyph true n }
{
    if n < 10 { b'0' + n } else { b'A' - 10 + n }
}

fn put_all(text: &mut Vec<u8>, bytes: &[u8]) -> Result<(), NoMemory>
    ensures { OnOk result (text.new.items ≡ text.old.items ++ bytes.now) }
{
    match text.extend_from_slice(bytes) {
        Ok(()) => Ok(()),
        Err(_) => Err(NoMemory),
    }
}
