// The words of a file that is to be made.
ghost use Rattle.std.specs.Prelude.{◌≡◌, None, Some, MatchOption};
ghost use Rattle.field_model.specs.Numbers as number;
ghost use Rattle.metaedit_top.specs.Making as spec;

use crate::word::Word;
use me_generate::limit_of;
use part_tree::Kind;

/// The kind of a file that is to be made, and the number from which it is made.
#[derive(Clone, Copy, Debug, PartialEq, Eq)]
pub(crate) struct Making {
    pub(crate) kind: Kind,
    pub(crate) n: u64,
}

// The kind that a word names, of which files are made.
fn kind_of(word: &[u8]) -> Option<Kind>
    ensures { result ≡ spec.kind_of word.now }
{
    if word == b"wave".as_slice() {
        Some(Kind::Wave)
    } else if word == b"avi".as_slice() {
        Some(Kind::Avi)
    } else if word == b"mov".as_slice() {
        Some(Kind::Mov)
    } else {
        None
    }
}

// Whether a text is a decimal number without leading zeros.
fn is_numeral(text: &[u8]) -> bool
    ensures { result ≡ number.is_numeral text.now }
{
    if text.is_empty() {
        return false;
    }
    for byte in text {
        if !byte.is_ascii_digit() {
            return false;
        }
    }
    text.len() == 1 || text[0] != b'0'
}

// The number that a text writes in decimal without leading zeros. None where it is none or 2^64 and above.
fn number_of(text: &[u8]) -> Option<u64>
    ensures { result ≡ number.count_of text.now }
{
    if !is_numeral(text) {
        return None;
    }
    match std::str::from_utf8(text) {
        Ok(digits) => match u64::from_str_radix(digits, 10) {
            Ok(n) => Some(n),
            Err(_) => None,
        },
        Err(_) => None,
    }
}

// The file of that kind and number, where there is one.
fn file_of_number(kind: Kind, n: u64) -> Option<Making>
    ensures { result ≡ spec.file_of kind n }
{
    if 0 < n && n <= limit_of(kind) {
        Some(Making { kind, n })
    } else {
        None
    }
}

/// The file that two words ask for, where it can be made.
pub(crate) fn making_of(words: &[Word]) -> Option<Making>
    ensures { result ≡ spec.making_of words.now }
{
    let [kind, number] = words else {
        return None;
    };
    file_of_number(kind_of(kind.as_bytes())?, number_of(number.as_bytes())?)
}
