// The lines of a table that have a name in them.
ghost use Rattle.std.specs.Prelude.{◌≡◌, IfOk};
ghost use Rattle.core_xml.specs.Lines as spec;

use crate::markup::text_of;
use crate::slices::{behind, between, quote_place};
use part_tree::{Bytes, Change, NoMemory};
use std::alloc::Global;

/// What a line of a block says: the text that names a field, and what becomes of that.
#[derive(Debug, Drop)]
pub(crate) struct FieldLine {
    pub(crate) name: Bytes,
    pub(crate) change: Change,
}

/// The file that a block's first line names. None where the line is no such line.
pub(crate) fn file_line(alloc: Global, line: &[u8]) -> Result<Option<Bytes>, NoMemory>
    ensures { IfOk result (λ name. name ≡ spec.file_line line.now) }
{
    match between(b"<File name=\"", b"\">\n", line) {
        Some(name) => text_of(alloc, name),
        None => Ok(None),
    }
}

/// What a line says of a field. None where the line is no such line.
pub(crate) fn field_line(alloc: Global, line: &[u8]) -> Result<Option<FieldLine>, NoMemory>
    ensures { IfOk result (λ said. said ≡ spec.field_line line.now) }
{
    if let Some(inner) = between(b"<Field name=\"", b"</Field>\n", line) {
        return set_line(alloc, inner);
    }
    match between(b"<Remove name=\"", b"\"/>\n", line) {
        Some(name) => remove_line(alloc, name),
        None => Ok(None),
    }
}

// The name and the text of a field, from what stands round the `">` between them.
fn set_line(alloc: Global, inner: &[u8]) -> Result<Option<FieldLine>, NoMemory>
    ensures { IfOk result (λ said. said ≡ spec.set_line inner.now) }
{
    let end = quote_place(inner);
    let Some(value) = behind(b"\">", &inner[end..]) else {
        return Ok(None);
    };
    let name = text_of(alloc, &inner[..end])?;
    let text = text_of(alloc, value)?;
    Ok(said_of(name, text))
}

// What is said of a field by its name and its text, which isn't empty.
fn said_of(name: Option<Bytes>, text: Option<Bytes>) -> Option<FieldLine>
    ensures { result ≡ spec.set_to name text }
{
    let name = name?;
    let text = text?;
    if text.as_slice().is_empty() {
        return None;
    }
    Some(FieldLine {
        name,
        change: Change::Set(text),
    })
}

fn remove_line(alloc: Global, name: &[u8]) -> Result<Option<FieldLine>, NoMemory>
    ensures { IfOk result (λ said. said ≡ spec.remove_line name.now) }
{
    match text_of(alloc, name)? {
        Some(name) => Ok(Some(FieldLine {
            name,
            change: Change::Remove,
        })),
        None => Ok(None),
    }
}
