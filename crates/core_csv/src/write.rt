// A table written.
ghost use Rattle.std.specs.Prelude.{◌≡◌, ◌++◌, ◌∷◌, [], IfOk, OnOk};
ghost use Rattle.csv.specs.Records.{fields_of, partial_of};
ghost use Rattle.csv.specs.Writing.{default_writer, row_text};
ghost use Rattle.part_tree.specs.Fields.{names, values};
ghost use Rattle.field_model.specs.Lawful.{IsLawful};
ghost use Rattle.core_edit.specs.Exported.{label as label_of};
ghost use Rattle.core_csv.specs.Row as spec;

use core_edit::{escape, name_text, table_text};
use csv::{ByteRecord, WriterBuilder};
use part_tree::{Bytes, FieldName, Fields, NoMemory};
use std::alloc::Global;

// Appends a cell.
fn push(cells: &mut ByteRecord, cell: &[u8]) -> Result<(), NoMemory>
    requires { partial_of cells.old ≡ [] }
    ensures cells { OnOk result (fields_of cells.new ≡ fields_of cells.old ++ cell.now ∷ []) }
    ensures whole { OnOk result (partial_of cells.new ≡ []) }
{
    match cells.push_field(cell) {
        Ok(()) => Ok(()),
        Err(_) => Err(NoMemory),
    }
}

// Appends what stands for a name.
fn push_label(alloc: Global, header: &mut ByteRecord, name: &FieldName) -> Result<(), NoMemory>
    requires { partial_of header.old ≡ [] }
    ensures cells { OnOk result (fields_of header.new ≡ fields_of header.old ++ label_of name.now ∷ []) }
    ensures whole { OnOk result (partial_of header.new ≡ []) }
{
    match name_text(alloc, name)? {
        Some(text) => push(header, text.as_slice()),
        None => push(header, b""),
    }
}

// Appends the column of a name, if a table shows a text of it.
fn push_column(
    alloc: Global,
    header: &mut ByteRecord,
    row: &mut ByteRecord,
    fields: &Fields,
    name: &FieldName,
) -> Result<(), NoMemory>
    requires lawful { IsLawful (values fields.now) }
    requires header { partial_of header.old ≡ [] }
    requires row { partial_of row.old ≡ [] }
    ensures names { OnOk result (fields_of header.new
        ≡ fields_of header.old ++ spec.labels (values fields.now) (name.now ∷ [])) }
    ensures texts { OnOk result (fields_of row.new
        ≡ fields_of row.old ++ spec.texts (values fields.now) (name.now ∷ [])) }
    ensures whole_header { OnOk result (partial_of header.new ≡ []) }
    ensures whole_row { OnOk result (partial_of row.new ≡ []) }
{
    let Some(text) = table_text(alloc, fields, name)? else {
        return Ok(());
    };
    let cell = escape(alloc, text.as_slice())?;
    push_label(alloc, header, name)?;
    push(row, cell.as_slice())
}

// Appends the columns of all names.
fn push_columns(
    alloc: Global,
    header: &mut ByteRecord,
    row: &mut ByteRecord,
    fields: &Fields,
) -> Result<(), NoMemory>
    requires lawful { IsLawful (values fields.now) }
    requires header { partial_of header.old ≡ [] }
    requires row { partial_of row.old ≡ [] }
    ensures names { OnOk result (fields_of header.new
        ≡ fields_of header.old ++ spec.labels (values fields.now) (names fields.now)) }
    ensures texts { OnOk result (fields_of row.new
        ≡ fields_of row.old ++ spec.texts (values fields.now) (names fields.now)) }
{
    let mut k = 0;
    'names: while let Some(name) = fields.name_at(k) {
        push_column(alloc, header, row, fields, name)?;
        k += 1;
    }
    Ok(())
}

// The text of a header and a row.
fn table_of(alloc: Global, header: &ByteRecord, row: &ByteRecord) -> Result<Bytes, NoMemory>
    ensures { IfOk result (λ text. text
        ≡ row_text default_writer (fields_of header.now) ++ row_text default_writer (fields_of row.now)) }
{
    let mut writer = WriterBuilder::new().from_writer(Vec::new(alloc));
    if writer.write_byte_record(header).is_err() || writer.write_byte_record(row).is_err() {
        return Err(NoMemory);
    }
    match writer.into_inner() {
        Ok(text) => Ok(Bytes::of(text)),
        Err(_) => Err(NoMemory),
    }
}

/// The table of a file and its fields: a header and one row, with a column for each field but the version that has exactly one
/// value and shows a text that isn't empty, in field order.
pub fn write_row(alloc: Global, file: &[u8], fields: &Fields) -> Result<Bytes, NoMemory>
    requires { IsLawful (values fields.now) }
    ensures { IfOk result (λ text. text ≡ spec.row file.now fields.now) }
{
    let name = escape(alloc, file)?;
    let mut header = ByteRecord::new(alloc);
    let mut row = ByteRecord::new(alloc);
    push(&mut header, b"FileName")?;
    push(&mut row, name.as_slice())?;
    push_columns(alloc, &mut header, &mut row, fields)?;
    table_of(alloc, &header, &row)
}
