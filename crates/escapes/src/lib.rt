//! Bytes as one line of text and back, by escapes that begin with a backslash: `\\`, `\n`, `\r`, `\t`, and `\xHH` for other
//! bytes that don't show, and for those that are no part of valid UTF-8. It knows bytes alone.
//! A character is what `bstr` decodes.
#![tactic(auto)]

ghost use Rattle.std.specs.Prelude.{◌≡◌, ◌<◌, ℕ, List, Some, IfOk};
ghost use Rattle.std.specs.List.{AllByRecursion};
ghost use Rattle.std.specs.Str.{IsUtf8};
ghost use Rattle.escapes.specs.Escapes.{IsPrintable, escaped, unescaped};

mod read;
#[cfg(test)]
mod tests;
mod write;

pub use read::unescape;
pub use write::escape;

/// Escapes are undone: what the text of some bytes is read as is these bytes.
pub fn escapes_are_undone()
    ensures { (raw : List ℕ) → AllByRecursion (λ b. b < 256) raw → unescaped (escaped raw) ≡ Some raw }
{}

/// Text with escapes is one line of valid UTF-8: no byte of it is below 20 or is 7F.
pub fn escapes_make_one_line()
    ensures printable { (raw : List ℕ) → AllByRecursion (λ b. b < 256) raw → AllByRecursion IsPrintable (escaped raw) }
    ensures utf8 { (raw : List ℕ) → AllByRecursion (λ b. b < 256) raw → IsUtf8 (escaped raw) }
{}
