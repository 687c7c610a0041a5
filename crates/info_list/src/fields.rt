// The items of a list as fields.
ghost use Rattle.std.specs.Prelude.{◌≡◌, ◌∷◌, [], OnOk};
ghost use Rattle.info_list.specs.Fields.{Grows, items_held};

use crate::InfoItem;
use part_tree::{Bytes, FieldName, Fields, NoMemory, Value};
use std::alloc::Global;

// Puts an item behind the fields, where its identifier is a field's.
fn add_item(fields: &mut Fields, alloc: Global, item: &InfoItem) -> Result<(), NoMemory>
    ensures { OnOk result (Grows fields.old fields.new (items_held (item.now ∷ []))) }
{
    let name = FieldName::Info(item.id);
    if !name.is_field() {
        return Ok(());
    }
    let raw = Bytes::new(alloc, item.raw.as_slice())?;
    fields.add(name, Value { lang: 0, raw })
}

/// Puts the items whose identifiers are fields behind the fields.
pub fn add_items(fields: &mut Fields, alloc: Global, items: &[InfoItem]) -> Result<(), NoMemory>
    ensures { OnOk result (Grows fields.old fields.new (items_held items.now)) }
{
    'items: for item in items {
        add_item(fields, alloc, item)?;
    }
    Ok(())
}
