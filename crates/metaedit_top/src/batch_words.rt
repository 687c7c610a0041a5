// The words of a batch.
ghost use Rattle.std.specs.Prelude.{◌≡◌, [], Some, None, MatchOption};
ghost use Rattle.std.specs.List.{list_all, list_any};
ghost use Rattle.std.specs.Str.{bytes_eq};
ghost use Rattle.metaedit_top.specs.BatchWords as spec;
ghost use Rattle.metaedit_top.specs.BatchWords.{batch_in};
ghost use Rattle.metaedit_top.specs.Words.{is_file as names_file, item};

use crate::outcome::UsageFault;
use crate::word::Word;
use crate::words::{find_equals, is_dashed, is_file};
use core_edit::field_name;

/// The item of a batch, and its files.
#[derive(Drop)]
pub(crate) struct BatchWords<'a> {
    pub(crate) item: &'a Word,
    pub(crate) files: &'a [Word],
}

/// Whether the words ask for a batch.
pub fn is_batch(words: &[Word]) -> bool
    ensures { result ≡ spec.is_batch words.now }
{
    match words {
        [first, ..] => first.as_bytes() == b"batch".as_slice(),
        [] => false,
    }
}

// Whether each word names a file.
fn all_files(words: &[Word]) -> bool
    ensures { result ≡ list_all names_file words.now }
{
    for word in words {
        if !is_file(word.as_bytes()) {
            return false;
        }
    }
    true
}

// Whether these are 1 to 64 files.
fn are_files(words: &[Word]) -> bool
    ensures { result ≡ spec.are_files words.now }
{
    !words.is_empty() && words.len() <= 64 && all_files(words)
}

/// The item and the files that the words of a batch name, where they have its form.
pub(crate) fn batch_parts(words: &[Word]) -> Option<BatchWords<'_>>
    ensures { MatchOption result (spec.batch_parts words.now ≡ None)
        (λ p. spec.batch_parts words.now ≡ Some (batch_in p)) }
{
    let [first, rest @ ..] = words else {
        return None;
    };
    if first.as_bytes() == b"batch".as_slice() {
        read_form(rest)
    } else {
        None
    }
}

// The item and the files behind `batch`.
fn read_form(words: &[Word]) -> Option<BatchWords<'_>>
    ensures { MatchOption result (spec.batch_form words.now ≡ None)
        (λ p. spec.batch_form words.now ≡ Some (batch_in p)) }
{
    let [item, files @ ..] = words else {
        return None;
    };
    if is_dashed(item.as_bytes()) {
        return None;
    }
    if !are_files(files) {
        return None;
    }
    Some(BatchWords { item, files })
}

// What is wrong with the item.
fn item_fault(word: &[u8]) -> Option<UsageFault>
    ensures { result ≡ spec.fault_in (item 1 word.now) }
{
    let Some(k) = find_equals(word) else {
        return Some(UsageFault::Item { n: 1 });
    };
    if k == 0 {
        return Some(UsageFault::Item { n: 1 });
    }
    match field_name(&word[..k]) {
        Some(_) => None,
        None => Some(UsageFault::Field { n: 1 }),
    }
}

// Whether one of the words is this one.
fn has_word(words: &[Word], file: &[u8]) -> bool
    ensures { result ≡ list_any (λ word. bytes_eq word file.now) words.now }
{
    for word in words {
        if word.as_bytes() == file {
            return true;
        }
    }
    false
}

// The number, from 1, of the first file that is named by the word of an earlier one.
fn first_same(files: &[Word]) -> Option<u64>
    ensures { result ≡ spec.same_from 1 [] files.now }
{
    for k in 0..files.len() {
        if has_word(&files[..k], files[k].as_bytes()) {
            return Some(k as u64 + 1);
        }
    }
    None
}

/// The number of files that the words of a batch name, or the first thing that is wrong with them. It takes no memory.
pub fn batch_files(words: &[Word]) -> Result<usize, UsageFault>
    ensures { result ≡ spec.batch_files words.now }
{
    let Some(BatchWords { item, files }) = batch_parts(words) else {
        return Err(UsageFault::Words);
    };
    if let Some(fault) = item_fault(item.as_bytes()) {
        return Err(fault);
    }
    match first_same(files) {
        Some(n) => Err(UsageFault::SameFile { n }),
        None => Ok(files.len()),
    }
}
