// A key table with a key set or removed.
ghost use Rattle.std.specs.Prelude.{◌≡◌, ◌+◌, ◌<◌, ◌≤◌, ◌^◌, length, map, IfOk, Some, None};
ghost use Rattle.std.specs.List.{list_any};
ghost use Rattle.std.specs.Option.{ForSome, option_copied};
ghost use Rattle.me_bytes.specs.Bytes.{IsBytes};
ghost use Rattle.qt_keys.specs.Read.{IsRead};
ghost use Rattle.qt_keys.specs.Set.{child_set, child_without, index_of as place_of, item_of, names, with_entry, with_item, with_key, without_item};
ghost use Rattle.qt_keys.specs.Table.{table_bytes};

use crate::lawful::entries_among;
use crate::table::{KeyChild, KeyEntry, KeyItem, KeyTable, Row};
use part_tree::{Bytes, FourCc, NoMemory};
use std::alloc::Global;

/// A table with this key set to one value, or removed. A value is a type and a locale, each a big-endian u32, and its bytes.
pub fn set_key(
    alloc: Global,
    table: &KeyTable,
    name: &[u8],
    raw: Option<&[u8]>,
) -> Result<KeyTable, NoMemory>
    requires read { IsRead table.now }
    requires value { ForSome raw (λ r. 8 ≤ length r.now) }
    requires small { length (table_bytes (with_key name.now (option_copied raw) table.now)) ≤ 2 ^ 24 }
    ensures set { IfOk result (λ t. t ≡ with_key name.now (option_copied raw.entry) table.now) }
    ensures read { IfOk result IsRead }
{
    let children = table.children.as_slice();
    let index = index_of(entries_among(children), name);
    match raw {
        None => without_key(alloc, children, index),
        Some(raw) => with_value(alloc, children, name, index, raw),
    }
}

// The children with the values of an index dropped.
fn without_key(alloc: Global, children: &[KeyChild], index: usize) -> Result<KeyTable, NoMemory>
    ensures { IfOk result (λ t. t.children ≡ map (child_without index) children.now) }
{
    let mut new = Vec::new(alloc);
    for child in children {
        match new.push(child.without(alloc, index)?) {
            Ok(()) => {}
            Err(_) => return Err(NoMemory),
        }
    }
    Ok(KeyTable {
        children: Row::of(new),
    })
}

// The children with a key set.
fn with_value(
    alloc: Global,
    children: &[KeyChild],
    name: &[u8],
    index: usize,
    raw: &[u8],
) -> Result<KeyTable, NoMemory>
    requires { index < 2 ^ 32 }
    ensures bytes { IsBytes raw.now }
    ensures set { IfOk result (λ t. t.children ≡ map (child_set name.now index raw.now) children.now) }
{
    let mut new = Vec::new(alloc);
    for child in children {
        match new.push(child.set(alloc, name, index, raw)?) {
            Ok(()) => {}
            Err(_) => return Err(NoMemory),
        }
    }
    Ok(KeyTable {
        children: Row::of(new),
    })
}

// The index of a key, from 1. Where it is not there, the one behind all.
fn index_of(entries: &[KeyEntry], name: &[u8]) -> usize
    requires { length entries.now < 2 ^ 32 }
    ensures index { result ≡ place_of name.now entries.now }
    ensures low { result ≤ length entries.now + 1 }
{
    for (k, entry) in entries.iter().enumerate() {
        if entry.names(name) {
            return k + 1;
        }
    }
    entries.len() + 1
}

impl KeyChild {
    // A copy without the values of an index.
    fn without(&self, alloc: Global, index: usize) -> Result<KeyChild, NoMemory>
        ensures { IfOk result (λ c. c ≡ child_without index self.now) }
    {
        match self {
            KeyChild::Other(bytes) => Ok(KeyChild::Other(Bytes::new(alloc, bytes.as_slice())?)),
            KeyChild::Keys { head, entries } => {
                let copies = copied(alloc, entries.as_slice())?;
                Ok(KeyChild::Keys {
                    head: *head,
                    entries: Row::of(copies),
                })
            }
            KeyChild::Items(items) => {
                let left = items_without(alloc, items.as_slice(), index)?;
                Ok(KeyChild::Items(Row::of(left)))
            }
        }
    }

    // A copy with a key set.
    fn set(
        &self,
        alloc: Global,
        name: &[u8],
        index: usize,
        raw: &[u8],
    ) -> Result<KeyChild, NoMemory>
        requires { index < 2 ^ 32 }
        ensures { IfOk result (λ c. c ≡ child_set name.now index raw.now self.now) }
    {
        match self {
            KeyChild::Other(bytes) => Ok(KeyChild::Other(Bytes::new(alloc, bytes.as_slice())?)),
            KeyChild::Keys { head, entries } => {
                let more = entries_with(alloc, entries.as_slice(), name)?;
                Ok(KeyChild::Keys {
                    head: *head,
                    entries: Row::of(more),
                })
            }
            KeyChild::Items(items) => {
                let more = items_with(alloc, items.as_slice(), index, raw)?;
                Ok(KeyChild::Items(Row::of(more)))
            }
        }
    }
}

impl KeyEntry {
    // Whether this is the entry of a key.
    fn names(&self, name: &[u8]) -> bool
        ensures { result ≡ names name.now self.now }
    {
        self.is_key() && self.name.as_slice() == name
    }

    fn copy(&self, alloc: Global) -> Result<KeyEntry, NoMemory>
        ensures { IfOk result (λ e. e ≡ self.now) }
    {
        let name = Bytes::new(alloc, self.name.as_slice())?;
        Ok(KeyEntry {
            space: self.space,
            name,
        })
    }
}

impl KeyItem {
    fn copy(&self, alloc: Global) -> Result<KeyItem, NoMemory>
        ensures { IfOk result (λ i. i ≡ self.now) }
    {
        let mut values = Vec::new(alloc);
        for value in self.values.as_slice() {
            match values.push(Bytes::new(alloc, value.as_slice())?) {
                Ok(()) => {}
                Err(_) => return Err(NoMemory),
            }
        }
        Ok(KeyItem {
            index: self.index,
            values: Row::of(values),
        })
    }
}

// Copies of entries.
fn copied(alloc: Global, entries: &[KeyEntry]) -> Result<Vec<KeyEntry>, NoMemory>
    ensures { IfOk result (λ es. es.items ≡ entries.now) }
{
    let mut copies = Vec::new(alloc);
    for entry in entries {
        match copies.push(entry.copy(alloc)?) {
            Ok(()) => {}
            Err(_) => return Err(NoMemory),
        }
    }
    Ok(copies)
}

// The entries with a key among them.
fn entries_with(alloc: Global, entries: &[KeyEntry], name: &[u8]) -> Result<Vec<KeyEntry>, NoMemory>
    ensures { IfOk result (λ es. es.items ≡ with_entry name.now entries.now) }
{
    let mut more = copied(alloc, entries)?;
    if !has_key(entries, name) {
        let name = Bytes::new(alloc, name)?;
        let entry = KeyEntry {
            space: FourCc(*b"mdta"),
            name,
        };
        match more.push(entry) {
            Ok(()) => {}
            Err(_) => return Err(NoMemory),
        }
    }
    Ok(more)
}

// Whether a key is among the entries.
fn has_key(entries: &[KeyEntry], name: &[u8]) -> bool
    ensures { result ≡ list_any (names name.now) entries.now }
{
    entries.iter().any(|entry| entry.names(name))
}

// The items without that of an index.
fn items_without(alloc: Global, items: &[KeyItem], index: usize) -> Result<Vec<KeyItem>, NoMemory>
    ensures { IfOk result (λ is. is.items ≡ without_item index items.now) }
{
    let mut left = Vec::new(alloc);
    let mut dropped = false;
    for item in items {
        if !dropped && item.index as usize == index {
            dropped = true;
        } else {
            match left.push(item.copy(alloc)?) {
                Ok(()) => {}
                Err(_) => return Err(NoMemory),
            }
        }
    }
    Ok(left)
}

// The items with one value under an index.
fn items_with(
    alloc: Global,
    items: &[KeyItem],
    index: usize,
    raw: &[u8],
) -> Result<Vec<KeyItem>, NoMemory>
    requires { index < 2 ^ 32 }
    ensures { IfOk result (λ is. is.items ≡ with_item index raw.now items.now) }
{
    let mut more = Vec::new(alloc);
    let mut set = false;
    for item in items {
        let new = if !set && item.index as usize == index {
            set = true;
            one_value(alloc, index, raw)?
        } else {
            item.copy(alloc)?
        };
        match more.push(new) {
            Ok(()) => {}
            Err(_) => return Err(NoMemory),
        }
    }
    if !set {
        match more.push(one_value(alloc, index, raw)?) {
            Ok(()) => {}
            Err(_) => return Err(NoMemory),
        }
    }
    Ok(more)
}

// An item with one value.
fn one_value(alloc: Global, index: usize, raw: &[u8]) -> Result<KeyItem, NoMemory>
    requires { index < 2 ^ 32 }
    ensures { IfOk result (λ i. i ≡ item_of index raw.now) }
{
    let mut values = Vec::new(alloc);
    match values.push(Bytes::new(alloc, raw)?) {
        Ok(()) => {}
        Err(_) => return Err(NoMemory),
    }
    Ok(KeyItem {
        index: index as u32,
        values: Row::of(values),
    })
}
