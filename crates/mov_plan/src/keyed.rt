// The entries and the items of a key table, while keys are set and removed.
ghost use Rattle.std.specs.Prelude.{◌≡◌, ◌==◌, ◌≤◌, ◌+◌, length, IfOk, OnOk};
ghost use Rattle.std.specs.List.{position_or_len};
ghost use Rattle.me_bytes.specs.Bytes.{IsBytes};
ghost use Rattle.qt_keys.specs.Set.{index_of, item_of, names, with_entry, with_item, without_item};
ghost use Rattle.qt_keys.specs.Table.{entries_among, entries_of, items_among, items_of};
ghost use Rattle.mov_plan.specs.Keyed.{AreBytes, child_with, entries_put, items_put, table_with};

use crate::keys::KeyChange;
use part_tree::{Bytes, FourCc, NoMemory};
use qt_keys::{KeyChild, KeyEntry, KeyItem, KeyTable, Row};
use std::alloc::Global;

// The entries and the items of a table.
#[derive(Debug, Drop)]
pub struct Keyed {
    pub entries: Vec<KeyEntry>,
    pub items: Vec<KeyItem>,
}

// The entries of the first `keys`.
fn entries_in(children: &[KeyChild]) -> &[KeyEntry]
    ensures { result.now ≡ entries_among children.now }
{
    'children: for child in children {
        if let KeyChild::Keys { entries, .. } = child {
            return entries.as_slice();
        }
    }
    &[]
}

// The items of the first `ilst`.
fn items_in(children: &[KeyChild]) -> &[KeyItem]
    ensures { result.now ≡ items_among children.now }
{
    'children: for child in children {
        if let KeyChild::Items(items) = child {
            return items.as_slice();
        }
    }
    &[]
}

// ---- copies

// A copy of an entry.
fn copy_entry(alloc: Global, entry: &KeyEntry) -> Result<KeyEntry, NoMemory>
    ensures { IfOk result (λ e. e ≡ entry.now) }
{
    let name = Bytes::new(alloc, entry.name.as_slice())?;
    Ok(KeyEntry {
        space: entry.space,
        name,
    })
}

// Copies of entries.
fn copy_entries(alloc: Global, entries: &[KeyEntry]) -> Result<Vec<KeyEntry>, NoMemory>
    ensures { IfOk result (λ es. es.items ≡ entries.now) }
{
    let mut copies = Vec::new(alloc);
    'entries: for entry in entries {
        match copies.push(copy_entry(alloc, entry)?) {
            Ok(()) => {}
            Err(_) => return Err(NoMemory),
        }
    }
    Ok(copies)
}

// Copies of values.
fn copy_values(alloc: Global, values: &[Bytes]) -> Result<Vec<Bytes>, NoMemory>
    ensures { IfOk result (λ vs. vs.items ≡ values.now) }
{
    let mut copies = Vec::new(alloc);
    'values: for value in values {
        match copies.push(Bytes::new(alloc, value.as_slice())?) {
            Ok(()) => {}
            Err(_) => return Err(NoMemory),
        }
    }
    Ok(copies)
}

// A copy of an item.
fn copy_item(alloc: Global, item: &KeyItem) -> Result<KeyItem, NoMemory>
    ensures { IfOk result (λ i. i ≡ item.now) }
{
    let values = copy_values(alloc, item.values.as_slice())?;
    Ok(KeyItem {
        index: item.index,
        values: Row::of(values),
    })
}

// Copies of items.
fn copy_items(alloc: Global, items: &[KeyItem]) -> Result<Vec<KeyItem>, NoMemory>
    ensures { IfOk result (λ is. is.items ≡ items.now) }
{
    let mut copies = Vec::new(alloc);
    'items: for item in items {
        match copies.push(copy_item(alloc, item)?) {
            Ok(()) => {}
            Err(_) => return Err(NoMemory),
        }
    }
    Ok(copies)
}

// ---- where a key stands

// Whether this is the entry of a key.
fn is_named(entry: &KeyEntry, name: &[u8]) -> bool
    ensures { result ≡ names name.now entry.now }
{
    entry.is_key() && entry.name.as_slice() == name
}

// The number of the entry of a key, from 0, or how many entries there are: one less than the index of the key.
fn place_of_key(entries: &[KeyEntry], name: &[u8]) -> usize
    ensures index { index_of name.now entries.now ≡ result + 1 }
    ensures low { result ≤ length entries.now }
{
    'entries: for (k, entry) in entries.iter().enumerate() {
        if is_named(entry, name) {
            return k;
        }
    }
    entries.len()
}

// Whether an item is that of the entry with this number.
fn is_of(item: &KeyItem, entry: usize) -> bool
    ensures { result ≡ (item.now.index == entry + 1) }
{
    item.index > 0 && item.index as usize - 1 == entry
}

// The number of the item of the entry with this number, or how many items there are.
fn place_of_item(items: &[KeyItem], entry: usize) -> usize
    ensures place { result ≡ position_or_len (λ i. i.index == entry + 1) items.now }
    ensures low { result ≤ length items.now }
{
    'items: for (k, item) in items.iter().enumerate() {
        if is_of(item, entry) {
            return k;
        }
    }
    items.len()
}

// ---- a key that is set or removed

// The index of the entry with this number. No body of 16 MiB has as many entries as four bytes don't count.
fn index_at(entry: usize) -> Result<u32, NoMemory>
    ensures { IfOk result (λ n. n ≡ entry + 1) }
{
    let Ok(number) = u32::try_from(entry) else {
        return Err(NoMemory);
    };
    match number.checked_add(1) {
        Some(index) => Ok(index),
        None => Err(NoMemory),
    }
}

// An item with one value.
fn one_value(alloc: Global, index: u32, raw: &[u8]) -> Result<KeyItem, NoMemory>
    ensures { IfOk result (λ i. i ≡ item_of index raw.now) }
{
    let mut values = Vec::new(alloc);
    match values.push(Bytes::new(alloc, raw)?) {
        Ok(()) => {}
        Err(_) => return Err(NoMemory),
    }
    Ok(KeyItem {
        index,
        values: Row::of(values),
    })
}

// An entry of a key stands among the others, or last.
fn put_entry(
    alloc: Global,
    entries: &mut Vec<KeyEntry>,
    place: usize,
    name: &[u8],
) -> Result<(), NoMemory>
    requires { index_of name.now entries.old.items ≡ place + 1 }
    ensures { OnOk result (entries.new.items ≡ with_entry name.now entries.old.items) }
{
    if place < entries.len() {
        return Ok(());
    }
    let name = Bytes::new(alloc, name)?;
    match entries.push(KeyEntry {
        space: FourCc(*b"mdta"),
        name,
    }) {
        Ok(()) => Ok(()),
        Err(_) => Err(NoMemory),
    }
}

// An item with one value stands in the place of the one with its index, or last.
fn put_item(
    alloc: Global,
    items: &mut Vec<KeyItem>,
    place: usize,
    index: u32,
    raw: &[u8],
) -> Result<(), NoMemory>
    requires { place ≡ position_or_len (λ i. i.index == index) items.old.items }
    ensures { OnOk result (items.new.items ≡ with_item index raw.now items.old.items) }
{
    let item = one_value(alloc, index, raw)?;
    if place < items.len() {
        items[place] = item;
        return Ok(());
    }
    match items.push(item) {
        Ok(()) => Ok(()),
        Err(_) => Err(NoMemory),
    }
}

impl Keyed {
    // The entries and the items of the first of each in a table.
    pub fn of(alloc: Global, table: &KeyTable) -> Result<Keyed, NoMemory>
        ensures entries { IfOk result (λ k. k.entries.items ≡ entries_of table.now) }
        ensures items { IfOk result (λ k. k.items.items ≡ items_of table.now) }
    {
        let children = table.children.as_slice();
        let entries = copy_entries(alloc, entries_in(children))?;
        let items = copy_items(alloc, items_in(children))?;
        Ok(Keyed { entries, items })
    }

    // A key is removed: its entry stays.
    fn remove(&mut self, name: &[u8])
        ensures bytes { IsBytes name.now }
        ensures entries { self.new.entries ≡ self.old.entries }
        ensures items { self.new.items.items
            ≡ without_item (index_of name.now self.old.entries.items) self.old.items.items }
    {
        let entry = place_of_key(self.entries.as_slice(), name);
        let place = place_of_item(self.items.as_slice(), entry);
        if place < self.items.len() {
            self.items.remove(place);
        }
    }

    // A key gets one value.
    fn set(&mut self, alloc: Global, name: &[u8], raw: &[u8]) -> Result<(), NoMemory>
        ensures name_bytes { IsBytes name.now }
        ensures raw_bytes { IsBytes raw.now }
        ensures entries { OnOk result (self.new.entries.items ≡ with_entry name.now self.old.entries.items) }
        ensures items { OnOk result (self.new.items.items
            ≡ with_item (index_of name.now self.old.entries.items) raw.now self.old.items.items) }
    {
        let entry = place_of_key(self.entries.as_slice(), name);
        let index = index_at(entry)?;
        let place = place_of_item(self.items.as_slice(), entry);
        put_entry(alloc, &mut self.entries, entry, name)?;
        put_item(alloc, &mut self.items, place, index, raw)?;
        Ok(())
    }

    // A change of a key.
    pub fn put(&mut self, alloc: Global, change: &KeyChange) -> Result<(), NoMemory>
        ensures bytes { OnOk result (AreBytes change.now) }
        ensures entries { OnOk result (self.new.entries.items
            ≡ entries_put change.now.name change.now.value self.old.entries.items) }
        ensures items { OnOk result (self.new.items.items
            ≡ items_put change.now.name change.now.value self.old.entries.items self.old.items.items) }
    {
        match &change.value {
            None => {
                self.remove(change.name.as_slice());
                Ok(())
            }
            Some(raw) => self.set(alloc, change.name.as_slice(), raw.as_slice()),
        }
    }

    // A child of a table with these entries and items.
    fn child(&self, alloc: Global, child: &KeyChild) -> Result<KeyChild, NoMemory>
        ensures { IfOk result (λ c. c ≡ child_with self.now.entries.items self.now.items.items child.now) }
    {
        match child {
            KeyChild::Other(bytes) => Ok(KeyChild::Other(Bytes::new(alloc, bytes.as_slice())?)),
            KeyChild::Keys { head, .. } => {
                let entries = copy_entries(alloc, self.entries.as_slice())?;
                Ok(KeyChild::Keys {
                    head: *head,
                    entries: Row::of(entries),
                })
            }
            KeyChild::Items(_) => {
                let items = copy_items(alloc, self.items.as_slice())?;
                Ok(KeyChild::Items(Row::of(items)))
            }
        }
    }

    // A table with these entries and items.
    pub fn table(&self, alloc: Global, table: &KeyTable) -> Result<KeyTable, NoMemory>
        ensures { IfOk result (λ t. t ≡ table_with self.now.entries.items self.now.items.items table.now) }
    {
        let mut children = Vec::new(alloc);
        'children: for child in table.children.as_slice() {
            match children.push(self.child(alloc, child)?) {
                Ok(()) => {}
                Err(_) => return Err(NoMemory),
            }
        }
        Ok(KeyTable {
            children: Row::of(children),
        })
    }
}
