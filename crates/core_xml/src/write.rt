// A table written.
ghost use Rattle.std.specs.Prelude.{◌≡◌, ◌++◌, ◌∷◌, [], IfOk, OnOk};
ghost use Rattle.part_tree.specs.Fields.{names, values};
ghost use Rattle.field_model.specs.Lawful.{IsLawful};
ghost use Rattle.core_edit.specs.Exported.{label as label_of};
ghost use Rattle.core_xml.specs.Markup.{written};
ghost use Rattle.core_xml.specs.Written as spec;

use crate::markup::{put_all, put_text};
use core_edit::{name_text, table_text};
use part_tree::{Bytes, FieldName, Fields, NoMemory};
use std::alloc::Global;

// Appends what stands for a name.
fn put_label(alloc: Global, out: &mut Vec<u8>, name: &FieldName) -> Result<(), NoMemory>
    ensures { OnOk result (out.new.items ≡ out.old.items ++ written (label_of name.now)) }
{
    match name_text(alloc, name)? {
        Some(text) => put_text(alloc, out, text.as_slice()),
        None => put_text(alloc, out, b""),
    }
}

// Appends the line of a field.
fn put_line(alloc: Global, out: &mut Vec<u8>, name: &FieldName, text: &[u8]) -> Result<(), NoMemory>
    ensures { OnOk result (out.new.items ≡ out.old.items ++ spec.field_line (label_of name.now) text.now) }
{
    put_all(out, b"<Field name=\"")?;
    put_label(alloc, out, name)?;
    put_all(out, b"\">")?;
    put_text(alloc, out, text)?;
    put_all(out, b"</Field>\n")
}

// Appends the line of a name, if a table shows a text of it.
fn put_field(
    alloc: Global,
    out: &mut Vec<u8>,
    fields: &Fields,
    name: &FieldName,
) -> Result<(), NoMemory>
    requires { IsLawful (values fields.now) }
    ensures { OnOk result (out.new.items ≡ out.old.items ++ spec.lines (values fields.now) (name.now ∷ [])) }
{
    match table_text(alloc, fields, name)? {
        Some(text) => put_line(alloc, out, name, text.as_slice()),
        None => Ok(()),
    }
}

// Appends the lines of all names.
fn put_fields(alloc: Global, out: &mut Vec<u8>, fields: &Fields) -> Result<(), NoMemory>
    requires { IsLawful (values fields.now) }
    ensures { OnOk result (out.new.items ≡ out.old.items ++ spec.lines (values fields.now) (names fields.now)) }
{
    let mut k = 0;
    'names: while let Some(name) = fields.name_at(k) {
        put_field(alloc, out, fields, name)?;
        k += 1;
    }
    Ok(())
}

/// The table of a file and its fields: one block, with a line for each field but the version that has exactly one value and shows
/// a text that isn't empty, in field order.
pub fn write_core(alloc: Global, file: &[u8], fields: &Fields) -> Result<Bytes, NoMemory>
    requires { IsLawful (values fields.now) }
    ensures { IfOk result (λ text. text ≡ spec.block file.now fields.now) }
{
    let mut out = Vec::new(alloc);
    put_all(
        &mut out,
        b"<?xml version=\"1.0\" encoding=\"UTF-8\"?>\n<Core>\n<File name=\"",
    )?;
    put_text(alloc, &mut out, file)?;
    put_all(&mut out, b"\">\n")?;
    put_fields(alloc, &mut out, fields)?;
    put_all(&mut out, b"</File>\n</Core>\n")?;
    Ok(Bytes::of(out))
}
