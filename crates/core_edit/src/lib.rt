//! Edits of fields, pure of any file: the names of fields as texts, what a value shows, the bytes that a text is laid as, and
//! which texts a field can't have; which items of an edit have an effect, an edit in raw bytes, and the fields after it.
//! A date exists where `jiff` says so.
#![tactic(auto)]

mod apply;
mod changes;
mod date;
mod edit;
#[cfg(test)]
mod edit_tests;
mod effect;
mod exported;
mod name;
mod number;
mod raw;
mod rule;
mod short;
#[cfg(test)]
mod tests;
mod value_text;

pub use apply::update;
pub use bext_fields::RawChange;
pub use changes::raw_changes;
pub use edit::{Edit, EditFault, effective};
pub use effect::has_effect;
pub use escapes::{escape, unescape};
pub use exported::table_text;
pub use name::{field_name, name_text};
pub use part_tree::{Change, EditItem};
pub use raw::raw_of;
pub use rule::text_rule;
pub use value_text::{ShownText, before_zero, key_text, shown, shown_text};
