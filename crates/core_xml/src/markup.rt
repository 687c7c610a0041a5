// Texts in which four characters have names.
ghost use Rattle.std.specs.Prelude.{◌≡◌, ◌<◌, ◌++◌, IfOk, OnOk, length, drop};
ghost use Rattle.core_xml.specs.Markup as spec;

use core_edit::{escape, unescape};
use part_tree::{Bytes, NoMemory};
use std::alloc::Global;

/// The bytes of a text with names and escapes. None where it has a character that must have a name, an unknown name or a bad
/// escape.
pub(crate) fn text_of(alloc: Global, marked: &[u8]) -> Result<Option<Bytes>, NoMemory>
    ensures { IfOk result (λ text. text ≡ spec.text_of marked.now) }
{
    match unmark(alloc, marked)? {
        Some(escaped) => unescape(alloc, escaped.as_slice()),
        None => Ok(None),
    }
}

// The text in which the names are the characters that they name.
fn unmark(alloc: Global, marked: &[u8]) -> Result<Option<Bytes>, NoMemory>
    ensures { IfOk result (λ text. text ≡ spec.unmarked marked.now) }
{
    let mut text = Vec::new(alloc);
    let mut more = 0;
    for at in 0..marked.len() {
        match read_letter(&mut text, &marked[at..], more)? {
            Some(next) => more = next,
            None => return Ok(None),
        }
    }
    Ok(Some(Bytes::of(text)))
}

// Reads the first letter of a text, of which `more` letters are the rest of a name: appends the character that it begins.
// Returns how many of the others are the rest of one, and None where no character begins.
fn read_letter(text: &mut Vec<u8>, marked: &[u8], more: usize) -> Result<Option<usize>, NoMemory>
    requires { 0 < length marked.now }
    ensures { IfOk result (λ next. spec.joined text.new.items (spec.left next (drop 1 marked.now))
        ≡ spec.joined text.old.items (spec.unmarked_from more marked.now)) }
{
    if more > 0 {
        return Ok(Some(more - 1));
    }
    let Some(byte) = first_byte(marked) else {
        return Ok(None);
    };
    match text.push(byte) {
        Ok(()) => Ok(Some(more_letters(marked))),
        Err(_) => Err(NoMemory),
    }
}

// The character that a text begins with: that of a name, or the letter itself.
fn first_byte(marked: &[u8]) -> Option<u8>
    ensures { result ≡ spec.first_byte marked.now }
{
    match marked {
        [b'&', name @ ..] => named(name),
        [b'<' | b'>' | b'"', ..] => None,
        [letter, ..] => Some(*letter),
        [] => None,
    }
}

// How many more letters it takes.
fn more_letters(marked: &[u8]) -> usize
    ensures { result ≡ spec.more_letters marked.now }
{
    match marked {
        [b'&', b'a', ..] => 4,
        [b'&', b'q', ..] => 5,
        [b'&', ..] => 3,
        _ => 0,
    }
}

// The character that is named behind an ampersand.
fn named(name: &[u8]) -> Option<u8>
    ensures { result ≡ spec.named name.now }
{
    match name {
        [b'a', b'm', b'p', b';', ..] => Some(b'&'),
        [b'l', b't', b';', ..] => Some(b'<'),
        [b'g', b't', b';', ..] => Some(b'>'),
        [b'q', b'u', b'o', b't', b';', ..] => Some(b'"'),
        _ => None,
    }
}

/// Appends the bytes as a text with escapes, in which four characters have names.
pub(crate) fn put_text(alloc: Global, out: &mut Vec<u8>, bytes: &[u8]) -> Result<(), NoMemory>
    ensures { OnOk result (out.new.items ≡ out.old.items ++ spec.written bytes.now) }
{
    let escaped = escape(alloc, bytes)?;
    put_marked(out, escaped.as_slice())
}

// Appends a text with the names of its characters that have one.
fn put_marked(out: &mut Vec<u8>, text: &[u8]) -> Result<(), NoMemory>
    ensures { OnOk result (out.new.items ≡ out.old.items ++ spec.marked text.now) }
{
    for x in text {
        put_byte(out, *x)?;
    }
    Ok(())
}

// Appends a character.
fn put_byte(out: &mut Vec<u8>, byte: u8) -> Result<(), NoMemory>
    ensures { OnOk result (out.new.items ≡ out.old.items ++ spec.marked_byte byte) }
{
    if byte == b'&' {
        put_all(out, b"&amp;")
    } else if byte == b'<' {
        put_all(out, b"&lt;")
    } else if byte == b'>' {
        put_all(out, b"&gt;")
    } else if byte == b'"' {
        put_all(out, b"&quot;")
    } else {
        put_all(out, &[byte])
    }
}

/// Appends bytes.
pub(crate) fn put_all(out: &mut Vec<u8>, bytes: &[u8]) -> Result<(), NoMemory>
    ensures { OnOk result (out.new.items ≡ out.old.items ++ bytes.now) }
{
    match out.extend_from_slice(bytes) {
        Ok(()) => Ok(()),
        Err(_) => Err(NoMemory),
    }
}
