// The coding history, as EBU Recommendation R98 writes it.
ghost use Rattle.std.specs.Prelude.{◌≡◌, ◌≤◌, ◌==◌, length, IsTrue, codes};
ghost use Rattle.std.specs.List.{list_any};
ghost use Rattle.field_model.specs.History as spec;
ghost use Rattle.fadgi_rules.specs.Lines.{is_fresh as spec_is_fresh};

use crate::text::place_of;

/// Whether a text is lines that each end with CR LF and are items joined by commas, each letter at most once in a line.
pub fn is_history(text: &[u8]) -> bool
    ensures { result ≡ spec.is_history text.now }
{
    let mut at = 0;
    'lines: while at < text.len() {
        let rest = &text[at..];
        let end = place_of(b'\n', rest);
        if end == rest.len() {
            return false;
        }
        if !is_line(&rest[..end]) {
            return false;
        }
        at += end + 1;
    }
    true
}

// Whether a line without its LF ends with CR and is items.
fn is_line(line: &[u8]) -> bool
    ensures { result ≡ spec.is_history_line line.now }
{
    line.len() > 0 && line[line.len() - 1] == 13 && are_items(&line[..line.len() - 1])
}

// Whether a line is items joined by commas, of which no two begin with one letter.
fn are_items(line: &[u8]) -> bool
    ensures { result ≡ spec.is_items_line line.now }
{
    let mut seen = [false; 256];
    let mut at = 0;
    'items: loop {
        let rest = &line[at..];
        let end = place_of(b',', rest);
        let item = &rest[..end];
        if !is_fresh(item, &seen) {
            return false;
        }
        seen[item[0] as usize] = true;
        if end == rest.len() {
            return true;
        }
        at += end + 1;
    }
}

// Whether it is an item whose letter isn't among those seen.
fn is_fresh(item: &[u8], seen: &[bool; 256]) -> bool
    ensures fresh { result ≡ spec_is_fresh seen.now item.now }
    ensures long { IsTrue result → 2 ≤ length item.now }
{
    is_item(item) && !seen[item[0] as usize]
}

// Whether it is a letter, `=`, and a value that isn't empty and has no CR.
fn is_item(item: &[u8]) -> bool
    ensures item { result ≡ spec.is_item item.now }
    ensures long { IsTrue result → 2 ≤ length item.now }
{
    match item {
        [letter, equals, value @ ..] => {
            is_letter(*letter) && *equals == b'=' && value.len() > 0 && !has_cr(value)
        }
        _ => false,
    }
}

fn is_letter(letter: u8) -> bool
    ensures { result ≡ list_any (λ wanted. letter == wanted) (codes "AFBWMT") }
{
    matches!(letter, b'A' | b'F' | b'B' | b'W' | b'M' | b'T')
}

fn has_cr(value: &[u8]) -> bool
    ensures { result ≡ list_any (λ x. x == 13) value.now }
{
    for x in value {
        if *x == 13 {
            return true;
        }
    }
    false
}
