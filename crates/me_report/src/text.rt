// Bytes put one after the other.
ghost use Rattle.std.specs.Prelude.{◌≡◌, ◌++◌, OnOk, decimal};
ghost use Rattle.field_model.specs.Texts as spec;
ghost use Rattle.me_report.specs.Lines.{count_line, hex_line, or_nothing};

use core_edit::{ShownText, name_text};
use itoa::Buffer;
use part_tree::{FieldName, NoMemory};
use std::alloc::Global;

/// Appends bytes.
pub(crate) fn put(out: &mut Vec<u8>, bytes: &[u8]) -> Result<(), NoMemory>
    ensures { OnOk result (out.new.items ≡ out.old.items ++ bytes.now) }
{
    out.extend_from_slice(bytes)?;
    Ok(())
}

/// Appends a number in decimal.
pub(crate) fn put_number(out: &mut Vec<u8>, n: u64) -> Result<(), NoMemory>
    ensures { OnOk result (out.new.items ≡ out.old.items ++ decimal n) }
{
    let mut buffer = Buffer::new();
    put(out, buffer.format(n).as_bytes())
}

/// Appends a word and a number in decimal, as a line.
pub(crate) fn put_count(out: &mut Vec<u8>, word: &[u8], n: u64) -> Result<(), NoMemory>
    ensures { OnOk result (out.new.items ≡ out.old.items ++ count_line word.now n) }
{
    let mut buffer = Buffer::new();
    put(out, word)?;
    put(out, buffer.format(n).as_bytes())?;
    put(out, b"\n")
}

/// Appends a word and the hexadecimal digits of bytes in lower case, as a line.
pub(crate) fn put_hex(
    alloc: Global,
    out: &mut Vec<u8>,
    word: &[u8],
    raw: &[u8],
) -> Result<(), NoMemory>
    ensures { OnOk result (out.new.items ≡ out.old.items ++ hex_line word.now raw.now) }
{
    let digits = ShownText::Lower(raw).to_bytes(alloc)?;
    put(out, word)?;
    put(out, digits.as_slice())?;
    put(out, b"\n")
}

/// Appends the text of a name, where it has one.
pub(crate) fn put_name(alloc: Global, out: &mut Vec<u8>, name: &FieldName) -> Result<(), NoMemory>
    ensures { OnOk result (out.new.items ≡ out.old.items ++ or_nothing (spec.name_text name.now)) }
{
    match name_text(alloc, name)? {
        Some(text) => put(out, text.as_slice()),
        None => Ok(()),
    }
}
