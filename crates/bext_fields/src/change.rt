// Changes of fields in raw bytes.
use part_tree::{FieldName, Value};

/// A field, and what becomes of it: this value as its only one, or none.
#[derive(Debug, Drop)]
pub struct RawChange {
    pub name: FieldName,
    pub value: Option<Value>,
}
