//! Core tables in XML: the edit that a table gives a file, and the table of a file's fields. A table is lines of one fixed form,
//! each with its line feed; XML in general isn't read.
#![tactic(auto)]

ghost use Rattle.std.specs.Prelude.{◌≡◌, ◌≤◌, [], ℕ, List, Ok, length};
ghost use Rattle.part_tree.specs.declared.field.EditItem.{EditItem};
ghost use Rattle.part_tree.specs.declared.field.FieldName.{FieldName};
ghost use Rattle.part_tree.specs.declared.fields.Entry.{Entry};
ghost use Rattle.part_tree.specs.Fields.{IsMap, values};
ghost use Rattle.field_model.specs.Update.{effective};
ghost use Rattle.core_edit.specs.Exported.{shown_in};
ghost use Rattle.core_xml.specs.Table.{table};
ghost use Rattle.core_xml.specs.Written.{AreBytes, block};

mod line;
mod markup;
mod place;
mod read;
mod reading;
mod slices;
#[cfg(test)]
mod tests;
mod write;

pub use core_table::{MOST_BYTES, TableFault};
pub use read::read_core;
pub use write::write_core;

/// The table of a file and its fields gives the file an edit of which no item has an effect on those fields.
pub fn a_written_table_is_idle()
    ensures { (file : List ℕ) (fields : List Entry) → IsMap fields → AreBytes file
        → ((name : FieldName) → AreBytes (shown_in (values fields) name)) → length (block file fields) ≤ MOST_BYTES
        → (items : List EditItem) × (table (block file fields) file ≡ Ok items)
        × (effective (values fields) items ≡ []) }
{}
