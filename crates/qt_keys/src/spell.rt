// Key tables as they are spelled.
ghost use Rattle.std.specs.Prelude.{◌≡◌, ◌+◌, ◌<◌, ◌≤◌, ◌^◌, ◌++◌, length, map, IfOk, OnOk};
ghost use Rattle.std.specs.Int.{w32, to_be_bytes};
ghost use Rattle.std.specs.List.{flat_map};
ghost use Rattle.container_model.specs.Atoms.{atom};
ghost use Rattle.container_model.specs.Chunk.{spell, spell_all};
ghost use Rattle.qt_keys.specs.declared.table.KeyChild.TheVariants.{Items, Keys};
ghost use Rattle.qt_keys.specs.Read.{IsRead};
ghost use Rattle.qt_keys.specs.Table.{child_bytes, entry_atom, item_atom, table_bytes, value_atom};

use crate::table::{KeyChild, KeyEntry, KeyItem, KeyTable};
use part_tree::{Bytes, FourCc, NoMemory};
use std::alloc::Global;

/// The body of `meta` with this table.
pub fn spell_keys(alloc: Global, table: &KeyTable) -> Result<Bytes, NoMemory>
    requires { IsRead table.now }
    ensures { IfOk result (λ bytes. bytes ≡ table_bytes table.now) }
{
    let mut out = Vec::new(alloc);
    for child in table.children.as_slice() {
        put_child(alloc, &mut out, child)?;
    }
    Ok(Bytes::of(out))
}

// Appends a child.
fn put_child(alloc: Global, out: &mut Vec<u8>, child: &KeyChild) -> Result<(), NoMemory>
    requires { length (child_bytes child.now) ≤ 2 ^ 24 }
    ensures { OnOk result (out.new.items ≡ out.old.items ++ child_bytes child.now) }
{
    match child {
        KeyChild::Other(bytes) => {
            out.extend_from_slice(bytes.as_slice())?;
            Ok(())
        }
        KeyChild::Keys { head, entries } => put_keys(alloc, out, *head, entries.as_slice()),
        KeyChild::Items(items) => put_items(alloc, out, items.as_slice()),
    }
}

// Appends `keys`.
fn put_keys(
    alloc: Global,
    out: &mut Vec<u8>,
    head: u32,
    entries: &[KeyEntry],
) -> Result<(), NoMemory>
    requires { length (child_bytes (Keys head entries.now)) ≤ 2 ^ 24 }
    ensures { OnOk result (out.new.items ≡ out.old.items ++ child_bytes (Keys head entries.now)) }
{
    let body = keys_body(alloc, head, entries)?;
    put_atom(out, FourCc(*b"keys"), &body)
}

// The body of `keys`: version and flags, the count, and the entries.
fn keys_body(alloc: Global, head: u32, entries: &[KeyEntry]) -> Result<Vec<u8>, NoMemory>
    requires { length (spell_all (map entry_atom entries.now)) ≤ 2 ^ 24 }
    ensures { IfOk result (λ body. body.items
        ≡ to_be_bytes w32 head ++ (to_be_bytes w32 (length entries.now) ++ spell_all (map entry_atom entries.now))) }
{
    let mut body = Vec::new(alloc);
    body.extend_from_slice(&head.to_be_bytes())?;
    body.extend_from_slice(&(entries.len() as u32).to_be_bytes())?;
    for entry in entries {
        put_atom(&mut body, entry.space, entry.name.as_slice())?;
    }
    Ok(body)
}

// Appends `ilst`.
fn put_items(alloc: Global, out: &mut Vec<u8>, items: &[KeyItem]) -> Result<(), NoMemory>
    requires { length (child_bytes (Items items.now)) ≤ 2 ^ 24 }
    ensures { OnOk result (out.new.items ≡ out.old.items ++ child_bytes (Items items.now)) }
{
    let body = items_body(alloc, items)?;
    put_atom(out, FourCc(*b"ilst"), &body)
}

// The items one after the other.
fn items_body(alloc: Global, items: &[KeyItem]) -> Result<Vec<u8>, NoMemory>
    requires { length (spell_all (map item_atom items.now)) ≤ 2 ^ 24 }
    ensures { IfOk result (λ body. body.items ≡ spell_all (map item_atom items.now)) }
{
    let mut body = Vec::new(alloc);
    for item in items {
        put_item(alloc, &mut body, item)?;
    }
    Ok(body)
}

// Appends an item.
fn put_item(alloc: Global, out: &mut Vec<u8>, item: &KeyItem) -> Result<(), NoMemory>
    requires { length (spell (item_atom item.now)) ≤ 2 ^ 24 }
    ensures { OnOk result (out.new.items ≡ out.old.items ++ spell (item_atom item.now)) }
{
    let body = values_body(alloc, item.values.as_slice())?;
    put_atom(out, FourCc(item.index.to_be_bytes()), &body)
}

// The values one after the other.
fn values_body(alloc: Global, values: &[Bytes]) -> Result<Vec<u8>, NoMemory>
    requires { length (spell_all (map value_atom values.now)) ≤ 2 ^ 24 }
    ensures { IfOk result (λ body. body.items ≡ spell_all (map value_atom values.now)) }
{
    let mut body = Vec::new(alloc);
    for value in values {
        put_atom(&mut body, FourCc(*b"data"), value.as_slice())?;
    }
    Ok(body)
}

/// Appends an atom in the short form.
pub fn put_atom(out: &mut Vec<u8>, kind: FourCc, body: &[u8]) -> Result<(), NoMemory>
    requires { length body.now ≤ 2 ^ 24 }
    ensures { OnOk result (out.new.items ≡ out.old.items ++ spell (atom kind.0 body.now)) }
{
    out.extend_from_slice(&(body.len() as u32 + 8).to_be_bytes())?;
    out.extend_from_slice(&kind.0)?;
    out.extend_from_slice(body)?;
    Ok(())
}
