//! Core tables in CSV: the edit that a table gives a file, and the table of a file's fields. What a record is, is what the crate
//! `csv` reads and writes with its default settings.
#![tactic(auto)]

ghost use Rattle.std.specs.Prelude.{◌≡◌, ◌≤◌, [], ℕ, List, Ok, length};
ghost use Rattle.part_tree.specs.declared.field.EditItem.{EditItem};
ghost use Rattle.part_tree.specs.declared.field.FieldName.{FieldName};
ghost use Rattle.part_tree.specs.declared.fields.Entry.{Entry};
ghost use Rattle.part_tree.specs.Fields.{IsMap, values};
ghost use Rattle.field_model.specs.Update.{effective};
ghost use Rattle.core_edit.specs.Exported.{shown_in};
ghost use Rattle.core_csv.specs.Row.{AreBytes, row};
ghost use Rattle.core_csv.specs.Table.{table};

mod cell;
mod found;
mod header;
mod read;
mod records;
mod row;
#[cfg(test)]
mod tests;
mod write;

pub use core_table::{MOST_BYTES, TableFault};
pub use read::read_table;
pub use write::write_row;

/// The table of a file and its fields gives the file an edit of which no item has an effect on those fields.
pub fn a_written_table_is_idle()
    ensures { (file : List ℕ) (fields : List Entry) → IsMap fields → AreBytes file
        → ((name : FieldName) → AreBytes (shown_in (values fields) name))
        → length (row file fields) ≤ MOST_BYTES
        → (items : List EditItem) × (table (row file fields) file ≡ Ok items) × (effective (values fields) items ≡ []) }
{}
