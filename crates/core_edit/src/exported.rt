// The texts of fields that a table shows.
ghost use Rattle.std.specs.Prelude.{◌≡◌, IfOk};
ghost use Rattle.part_tree.specs.Fields.{values};
ghost use Rattle.field_model.specs.Lawful.{IsLawful};
ghost use Rattle.field_model.specs.Update.{only_shown as the_shown};
ghost use Rattle.core_edit.specs.Exported as spec;

use crate::value_text::shown;
use part_tree::{BextField, Bytes, FieldName, Fields, NoMemory};
use std::alloc::Global;

const VERSION: FieldName = FieldName::Bext(BextField::Version);

// The text that a name shows, where it has exactly one value.
fn only_shown(alloc: Global, fields: &Fields, name: &FieldName) -> Result<Option<Bytes>, NoMemory>
    requires { IsLawful (values fields.now) }
    ensures { IfOk result (λ text. text ≡ the_shown (values fields.now) name.now (values fields.now name.now)) }
{
    match fields.get(name) {
        [value] => shown(alloc, fields, name, value),
        _ => Ok(None),
    }
}

/// The text that a table shows of a name: that of its only value. None where there is none, where it is empty, and of the version,
/// which no edit sets.
pub fn table_text(
    alloc: Global,
    fields: &Fields,
    name: &FieldName,
) -> Result<Option<Bytes>, NoMemory>
    requires { IsLawful (values fields.now) }
    ensures { IfOk result (λ text. text ≡ spec.table_text (values fields.now) name.now) }
{
    if name.is(&VERSION) {
        return Ok(None);
    }
    match only_shown(alloc, fields, name)? {
        Some(text) if !text.as_slice().is_empty() => Ok(Some(text)),
        _ => Ok(None),
    }
}
