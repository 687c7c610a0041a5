// The values of the keys in a key table.
ghost use Rattle.std.specs.Prelude.{◌≡◌, ◌∷◌, ◌&&◌, [], List, OnOk, IsTrue, map};
ghost use Rattle.part_tree.specs.Keys.{is_key_name};
ghost use Rattle.field_model.specs.Fields.{plain};
ghost use Rattle.qt_keys.specs.Read.{IsRead};
ghost use Rattle.qt_keys.specs.Table.{entries_among, is_key, items_among};
ghost use Rattle.mov_file.specs.Fields.{Grows, StayLawful, under};
ghost use Rattle.mov_file.specs.Keys.{items_held, keys_held};

use part_tree::{Bytes, FieldName, Fields, KeyName, NoMemory, Value, is_key as is_name};
use qt_keys::{KeyChild, KeyEntry, KeyItem, KeyTable};
use std::alloc::Global;

// Puts the values of a key behind the fields.
fn add_values(
    fields: &mut Fields,
    alloc: Global,
    name: &[u8],
    values: &[Bytes],
) -> Result<(), NoMemory>
    requires { IsTrue (is_key_name name.now) }
    ensures { OnOk result (Grows fields.old fields.new (under (FieldName.Key name.now) (map plain values.now))) }
{
    'values: for value in values {
        let Some(key) = KeyName::new(name) else {
            return Ok(());
        };
        let raw = Bytes::new(alloc, value.as_slice())?;
        fields.add(FieldName::Key(key), Value { lang: 0, raw })?;
    }
    Ok(())
}

// Whether an entry is a key that is a field.
fn is_field(entry: &KeyEntry) -> bool
    ensures { result ≡ (is_key entry.now && is_key_name entry.now.name) }
{
    entry.space.is(b"mdta") && is_name(entry.name.as_slice())
}

// Puts the values of an item behind the fields.
fn add_item(
    fields: &mut Fields,
    alloc: Global,
    entries: &[KeyEntry],
    item: &KeyItem,
) -> Result<(), NoMemory>
    ensures held { OnOk result (Grows fields.old fields.new (items_held entries.now (item.now ∷ []))) }
{
    let index = item.index as usize;
    if index == 0 {
        return Ok(());
    }
    if index > entries.len() {
        return Ok(());
    }
    let entry = &entries[index - 1];
    if !is_field(entry) {
        return Ok(());
    }
    add_values(fields, alloc, entry.name.as_slice(), item.values.as_slice())
}

// The entries of the first `keys`.
fn entries_in(children: &[KeyChild]) -> &[KeyEntry]
    ensures { result.now ≡ entries_among children.now }
{
    for child in children {
        if let KeyChild::Keys { entries, .. } = child {
            return entries.as_slice();
        }
    }
    &[]
}

// The items of the first `ilst`.
fn items_in(children: &[KeyChild]) -> &[KeyItem]
    ensures { result.now ≡ items_among children.now }
{
    for child in children {
        if let KeyChild::Items(items) = child {
            return items.as_slice();
        }
    }
    &[]
}

// Puts the values of the keys of a table that are fields behind the fields.
pub fn take_keys(fields: &mut Fields, alloc: Global, table: &KeyTable) -> Result<(), NoMemory>
    requires { IsRead table.now }
    ensures held { OnOk result (Grows fields.old fields.new (keys_held table.now)) }
    ensures lawful { OnOk result (StayLawful fields.old fields.new) }
{
    let entries = entries_in(table.children.as_slice());
    'items: for item in items_in(table.children.as_slice()) {
        add_item(fields, alloc, entries, item)?;
    }
    Ok(())
}
