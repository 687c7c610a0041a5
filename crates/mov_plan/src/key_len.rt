// How many bytes a key table has. 2 ^ 64 - 1 stands for as many or more.
ghost use Rattle.std.specs.Prelude.{◌≡◌, ◌+◌, ◌-◌, ◌^◌, length, map, min};
ghost use Rattle.container_model.specs.Chunk.{spell, spell_all};
ghost use Rattle.qt_keys.specs.Table.{child_bytes, entry_atom, item_atom, table_bytes, value_atom};

use crate::user::kind_len;
use part_tree::Bytes;
use qt_keys::{KeyChild, KeyEntry, KeyItem, KeyTable};

// An atom with a body of so many bytes.
fn atom_len(body: u64) -> u64
    ensures { result ≡ min (body + 8) (2 ^ 64 - 1) }
{
    body.saturating_add(8)
}

// An entry.
fn entry_len(entry: &KeyEntry) -> u64
    ensures { result ≡ min (length (spell (entry_atom entry.now))) (2 ^ 64 - 1) }
{
    (entry.name.as_slice().len() as u64).saturating_add(4 + kind_len(entry.space))
}

// Entries one after the other.
fn entries_len(entries: &[KeyEntry]) -> u64
    ensures { result ≡ min (length (spell_all (map entry_atom entries.now))) (2 ^ 64 - 1) }
{
    let mut len = 0_u64;
    'entries: for entry in entries {
        len = len.saturating_add(entry_len(entry));
    }
    len
}

// Values one after the other.
fn values_len(values: &[Bytes]) -> u64
    ensures { result ≡ min (length (spell_all (map value_atom values.now))) (2 ^ 64 - 1) }
{
    let mut len = 0_u64;
    'values: for value in values {
        len = len.saturating_add(atom_len(value.as_slice().len() as u64));
    }
    len
}

// An item.
fn item_len(item: &KeyItem) -> u64
    ensures { result ≡ min (length (spell (item_atom item.now))) (2 ^ 64 - 1) }
{
    atom_len(values_len(item.values.as_slice()))
}

// Items one after the other.
fn items_len(items: &[KeyItem]) -> u64
    ensures { result ≡ min (length (spell_all (map item_atom items.now))) (2 ^ 64 - 1) }
{
    let mut len = 0_u64;
    'items: for item in items {
        len = len.saturating_add(item_len(item));
    }
    len
}

// A child.
fn child_len(child: &KeyChild) -> u64
    ensures { result ≡ min (length (child_bytes child.now)) (2 ^ 64 - 1) }
{
    match child {
        KeyChild::Other(bytes) => bytes.as_slice().len() as u64,
        KeyChild::Keys { entries, .. } => {
            atom_len(entries_len(entries.as_slice()).saturating_add(8))
        }
        KeyChild::Items(items) => atom_len(items_len(items.as_slice())),
    }
}

/// A table.
pub fn table_len(table: &KeyTable) -> u64
    ensures { result ≡ min (length (table_bytes table.now)) (2 ^ 64 - 1) }
{
    let mut len = 0_u64;
    'children: for child in table.children.as_slice() {
        len = len.saturating_add(child_len(child));
    }
    len
}
