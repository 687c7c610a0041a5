//! The texts of a QuickTime user item (QuickTime File Format, user data): read from the item's body, and spelled as an item.
//! A text is the length of its bytes and a language, each a big-endian u16, and the bytes. It knows no name of an item.
#![tactic(auto)]

ghost use Rattle.std.specs.Prelude.{◌≡◌, ◌≢◌, ◌≤◌, ◌<◌, ◌+◌, ◌^◌, ◌++◌, ℕ, List, [], length, take, drop, Some, IfOk, IfSome, MatchOption, OnOk};
ghost use Rattle.std.specs.Int.{w16, w32, from_be_bytes, to_be_bytes};
ghost use Rattle.std.specs.List.{AllByRecursion, flat_map};
ghost use Rattle.me_bytes.specs.Bytes.{IsBytes};
ghost use Rattle.container_model.specs.Chunk.{spell};
ghost use Rattle.container_model.specs.Atoms.{atom};
ghost use Rattle.qt_text.specs.User.{TextFits, text_bytes, text_language, texts};
ghost use Rattle.part_tree.specs.declared.field.Value.{Value as Text};
ghost use Rattle.qt_text.specs.Texts.{AreTexts, text_len_of};

use part_tree::{Bytes, FourCc, NoMemory, Value};
use std::alloc::Global;

/// The texts that fill a body, in their order. None exactly where the body isn't one or more texts that fill it.
pub fn read_user(alloc: Global, body: &[u8]) -> Result<Option<Vec<Value>>, NoMemory>
    ensures { IfOk result (λ found. MatchOption found (texts body.now
        ≡ []) (λ values. AreTexts body.now values.items)) }
{
    let mut texts = Vec::new(alloc);
    let mut at = 0;
    'texts: while at < body.len() {
        let Some(len) = text_len(body, at) else {
            return Ok(None);
        };
        let text = read_text(alloc, body, at, len)?;
        match texts.push(text) {
            Err(_) => return Err(NoMemory),
            Ok(()) => {}
        }
        at += 4 + len;
    }
    if texts.is_empty() {
        return Ok(None);
    }
    Ok(Some(texts))
}

// How many bytes the text at a place has. None where it passes the end.
fn text_len(body: &[u8], at: usize) -> Option<usize>
    requires { at ≤ length body.now }
    ensures len { result ≡ text_len_of (drop at body.now) }
    ensures inside { IfSome result (λ len. at + 4 + len ≤ length body.now) }
{
    if body.len() - at < 4 {
        return None;
    }
    let len = number_at(body, at) as usize;
    if body.len() - at - 4 < len {
        return None;
    }
    Some(len)
}

// The text at a place, of so many bytes.
fn read_text(alloc: Global, body: &[u8], at: usize, len: usize) -> Result<Value, NoMemory>
    requires { at + 4 + len ≤ length body.now }
    ensures { IfOk result (λ text. text
        ≡ record { lang = text_language (drop at body.now); raw = take len (drop 4 (drop at body.now)) }) }
{
    let lang = number_at(body, at + 2);
    let raw = Bytes::new(alloc, &body[at + 4..at + 4 + len])?;
    Ok(Value { lang, raw })
}

// The number in two bytes.
fn number_at(body: &[u8], at: usize) -> u16
    requires { at + 2 ≤ length body.now }
    ensures { result ≡ from_be_bytes w16 (take 2 (drop at body.now)) }
{
    let mut word = [0u8; 2];
    word.copy_from_slice(&body[at..at + 2]);
    u16::from_be_bytes(word)
}

/// A whole user item: the atom of this type with these texts, in the short form.
pub fn spell_user(alloc: Global, kind: FourCc, values: &[Value]) -> Result<Bytes, NoMemory>
    requires some { values.now ≢ [] }
    requires texts { AllByRecursion TextFits values.now }
    requires small { length (flat_map text_bytes values.now) ≤ 2 ^ 24 }
    ensures { IfOk result (λ bytes. bytes ≡ spell (atom kind.0 (flat_map text_bytes values.now))) }
{
    let body = spell_texts(alloc, values)?;
    let mut out = Vec::new(alloc);
    out.extend_from_slice(&(body.len() as u32 + 8).to_be_bytes())?;
    out.extend_from_slice(&kind.0)?;
    out.extend_from_slice(&body)?;
    Ok(Bytes::of(out))
}

// The texts one after the other.
fn spell_texts(alloc: Global, values: &[Value]) -> Result<Vec<u8>, NoMemory>
    requires { AllByRecursion TextFits values.now }
    ensures { IfOk result (λ body. body.items ≡ flat_map text_bytes values.now) }
{
    let mut body = Vec::new(alloc);
    for value in values {
        put_text(&mut body, value)?;
    }
    Ok(body)
}

// Appends a text: its length, its language and its bytes.
fn put_text(out: &mut Vec<u8>, value: &Value) -> Result<(), NoMemory>
    requires { length value.now.raw < 2 ^ 16 }
    ensures { OnOk result (out.new.items ≡ out.old.items ++ text_bytes value.now) }
{
    let raw = value.raw.as_slice();
    out.extend_from_slice(&(raw.len() as u16).to_be_bytes())?;
    out.extend_from_slice(&value.lang.to_be_bytes())?;
    out.extend_from_slice(raw)?;
    Ok(())
}

/// Both ways agree: texts that are spelled are read back, and the texts that fill some bytes are spelled as these.
pub fn spelled_is_read()
    ensures read { (values : List Text) → AllByRecursion TextFits values → texts (flat_map text_bytes values) ≡ values }
    ensures spelled { (body : List ℕ) → IsBytes body → texts body ≢ [] → flat_map text_bytes (texts body) ≡ body }
{}

#[cfg(test)]
mod tests {
    use super::*;
    use std::test::Fail;

    // `Reel` in the language 15C7, and an empty text in the language 0.
    const TWO: &[u8] = b"\0\x04\x15\xC7Reel\0\0\0\0";

    #[test]
    fn reads_texts_that_fill_the_body(rt: HostRuntime) -> Result<(), Fail> {
        let Some(texts) = read_user(rt.alloc(), TWO)? else {
            assert!(rt; false);
            return Ok(());
        };
        assert_eq!(rt; texts.len(), 2);
        assert_eq!(rt; texts[0].lang, 0x15C7);
        assert_eq!(rt; texts[0].raw.as_slice(), b"Reel".as_slice());
        assert_eq!(rt; texts[1].lang, 0);
        assert_eq!(rt; texts[1].raw.as_slice(), b"".as_slice());
        Ok(())
    }

    #[test]
    fn reads_no_other_body(rt: HostRuntime) -> Result<(), Fail> {
        assert!(rt; read_user(rt.alloc(), b"")?.is_none());
        assert!(rt; read_user(rt.alloc(), &TWO[..11])?.is_none());
        assert!(rt; read_user(rt.alloc(), b"\0\x05\x15\xC7Reel")?.is_none());
        Ok(())
    }

    #[test]
    fn spells_an_item(rt: HostRuntime) -> Result<(), Fail> {
        let values = [Value {
            lang: 0x15C7,
            raw: Bytes::new(rt.alloc(), b"Reel")?,
        }];
        let item = spell_user(rt.alloc(), FourCc(*b"\xA9nam"), &values)?;
        assert_eq!(rt;
            item.as_slice(),
            b"\0\0\0\x10\xA9nam\0\x04\x15\xC7Reel".as_slice()
        );
        Ok(())
    }
}
