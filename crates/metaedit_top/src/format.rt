// The form of a table, as the words of the command line name it.
ghost use Rattle.std.specs.Prelude.{◌≡◌, None, Some, MatchOption, drop, true, false};
ghost use Rattle.metaedit_top.specs.Formats as spec;
ghost use Rattle.metaedit_top.specs.Formats.{format_in};

use crate::word::Word;

/// The form of a Core table.
#[derive(Clone, Copy, Debug, PartialEq, Eq)]
pub enum TableFormat {
    Csv,
    Xml,
}

/// The form of a table, and the words behind it.
#[derive(Drop)]
pub(crate) struct Formatted<'a> {
    pub(crate) format: TableFormat,
    pub(crate) rest: &'a [Word],
}

// The form that a word names.
fn format_of(word: &[u8]) -> Option<TableFormat>
    ensures { result ≡ spec.format_of word.now }
{
    if word == b"csv".as_slice() {
        Some(TableFormat::Csv)
    } else if word == b"xml".as_slice() {
        Some(TableFormat::Xml)
    } else {
        None
    }
}

// The value of `--as=F`.
fn joined_form(word: &[u8]) -> Option<&[u8]>
    ensures { MatchOption result (spec.is_joined_form word.now ≡ false)
        (λ v. (spec.is_joined_form word.now ≡ true) × (v.now ≡ drop 5 word.now)) }
{
    if word.len() < 5 {
        return None;
    }
    let (name, value) = word.split_at(5);
    if name == b"--as=".as_slice() {
        Some(value)
    } else {
        None
    }
}

/// Whether the first word is the option `--as`, alone or with its value.
pub(crate) fn begins_with_form(words: &[Word]) -> bool
    ensures { result ≡ spec.begins_with_form words.now }
{
    match words {
        [] => false,
        [word, ..] => {
            word.as_bytes() == b"--as".as_slice() || joined_form(word.as_bytes()).is_some()
        }
    }
}

// This form, where one is named, before the words that are left.
fn named_form(format: Option<TableFormat>, rest: &[Word]) -> Option<Formatted<'_>>
    ensures { MatchOption result (spec.named_form format rest.now ≡ None)
        (λ f. spec.named_form format rest.now ≡ Some (format_in f)) }
{
    let format = format?;
    Some(Formatted { format, rest })
}

/// `--as F` or `--as=F` at the front of the words.
pub(crate) fn with_format(words: &[Word]) -> Option<Formatted<'_>>
    ensures { MatchOption result (spec.with_format words.now ≡ None)
        (λ f. spec.with_format words.now ≡ Some (format_in f)) }
{
    let [word, rest @ ..] = words else {
        return None;
    };
    if word.as_bytes() == b"--as".as_slice() {
        return match rest {
            [] => None,
            [value, rest @ ..] => named_form(format_of(value.as_bytes()), rest),
        };
    }
    match joined_form(word.as_bytes()) {
        Some(value) => named_form(format_of(value), rest),
        None => None,
    }
}
