//! What all Core tables have in common: the texts of fields that a table shows, the names that it takes, and why a table is
//! refused. It knows no form of a table.
#![tactic(auto)]

mod fault;
mod seen;

ghost use Rattle.std.specs.Prelude.{◌≡◌, ℕ, List, Some};
ghost use Rattle.part_tree.specs.declared.field.FieldName.{FieldName};
ghost use Rattle.field_model.specs.Texts.{field_name, name_text};

pub use fault::{MOST_BYTES, TableFault};
pub use seen::Seen;

/// The text of a name names it, and no other text does.
pub fn names_are_read_back()
    ensures named { (text : List ℕ) (name : FieldName) → field_name text ≡ Some name → name_text name ≡ Some text }
    ensures told { (name : FieldName) (text : List ℕ) → name_text name ≡ Some text → field_name text ≡ Some name }
{}
