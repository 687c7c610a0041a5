// Which children make a key table.
ghost use Rattle.std.specs.Prelude.{◌≡◌, ◌+◌, ◌≤◌, ℕ, length, take, drop, map, count_by, IfOk, List};
ghost use Rattle.std.specs.List.{flat_map, list_all};
ghost use Rattle.std.specs.Str.{bytes_eq};
ghost use Rattle.qt_keys.specs.declared.table.KeyChild.TheVariants.{Other};
ghost use Rattle.qt_keys.specs.Table.{entries_among as entries, handles_keys, has_each_once as once, index_in, indexes_fit as all_indexed, is_handler, is_items, is_key, is_keys, is_lawful as lawful, is_within, items_among as items, key_names, names_differ as all_named};

use crate::differ::differ;
use crate::table::{KeyChild, KeyEntry, KeyItem};
use part_tree::NoMemory;
use std::alloc::Global;

/// Whether these children make a table.
pub fn is_lawful(alloc: Global, children: &[KeyChild]) -> Result<bool, NoMemory>
    ensures { IfOk result (λ yes. yes ≡ lawful children.now) }
{
    if !(has_each_once(children) && all_handle_keys(children)) {
        return Ok(false);
    }
    let entries = entries_among(children);
    if !names_differ(alloc, entries)? {
        return Ok(false);
    }
    indexes_fit(alloc, entries.len(), items_among(children))
}

// Whether there is one `hdlr`, one `keys` and one `ilst`.
fn has_each_once(children: &[KeyChild]) -> bool
    ensures { result ≡ once children.now }
{
    handlers_in(children) == 1 && (keys_in(children) == 1 && items_in(children) == 1)
}

fn handlers_in(children: &[KeyChild]) -> usize
    ensures { result ≡ count_by is_handler children.now }
{
    children.iter().filter(|child| child.is_handler()).count()
}

fn keys_in(children: &[KeyChild]) -> usize
    ensures { result ≡ count_by is_keys children.now }
{
    children.iter().filter(|child| child.is_keys()).count()
}

fn items_in(children: &[KeyChild]) -> usize
    ensures { result ≡ count_by is_items children.now }
{
    children.iter().filter(|child| child.is_items()).count()
}

fn all_handle_keys(children: &[KeyChild]) -> bool
    ensures { result ≡ list_all handles_keys children.now }
{
    children.iter().all(|child| child.handles_keys())
}

// Whether no two keys have the same name.
fn names_differ(alloc: Global, entries: &[KeyEntry]) -> Result<bool, NoMemory>
    ensures { IfOk result (λ yes. yes ≡ all_named entries.now) }
{
    let names = names_of(alloc, entries)?;
    Ok(differ(names))
}

// Whether each index is that of one of so many entries, and none comes twice.
fn indexes_fit(alloc: Global, count: usize, items: &[KeyItem]) -> Result<bool, NoMemory>
    ensures { IfOk result (λ yes. yes ≡ all_indexed count items.now) }
{
    if !all_within(count, items) {
        return Ok(false);
    }
    let indexes = indexes_of(alloc, items)?;
    Ok(differ(indexes))
}

fn all_within(count: usize, items: &[KeyItem]) -> bool
    ensures { result ≡ list_all (is_within count) items.now }
{
    items.iter().all(|item| item.is_within(count))
}

/// The entries of the first `keys`.
pub fn entries_among(children: &[KeyChild]) -> &[KeyEntry]
    ensures { result.now ≡ entries children.now }
{
    for child in children {
        if let KeyChild::Keys { entries, .. } = child {
            return entries.as_slice();
        }
    }
    &[]
}

/// The items of the first `ilst`.
pub fn items_among(children: &[KeyChild]) -> &[KeyItem]
    ensures { result.now ≡ items children.now }
{
    for child in children {
        if let KeyChild::Items(items) = child {
            return items.as_slice();
        }
    }
    &[]
}

// The names of those entries that are keys.
fn names_of<'a>(alloc: Global, entries: &'a [KeyEntry]) -> Result<Vec<&'a [u8]>, NoMemory>
    ensures { IfOk result (λ names. map (λ n. n.now) names.items ≡ flat_map key_names entries.now) }
{
    let mut names = Vec::new(alloc);
    for entry in entries {
        if entry.is_key() {
            match names.push(entry.name.as_slice()) {
                Ok(()) => {}
                Err(_) => return Err(NoMemory),
            }
        }
    }
    Ok(names)
}

// The indexes of items.
fn indexes_of(alloc: Global, items: &[KeyItem]) -> Result<Vec<u32>, NoMemory>
    ensures { IfOk result (λ indexes. indexes.items ≡ map index_in items.now) }
{
    let mut indexes = Vec::new(alloc);
    for item in items {
        match indexes.push(item.index) {
            Ok(()) => {}
            Err(_) => return Err(NoMemory),
        }
    }
    Ok(indexes)
}

impl KeyChild {
    fn is_handler(&self) -> bool
        ensures { result ≡ is_handler self.now }
    {
        match self {
            KeyChild::Other(bytes) => holds(bytes.as_slice(), 4, b"hdlr"),
            KeyChild::Keys { .. } => false,
            KeyChild::Items(_) => false,
        }
    }

    fn is_keys(&self) -> bool
        ensures { result ≡ is_keys self.now }
    {
        match self {
            KeyChild::Other(_) => false,
            KeyChild::Keys { .. } => true,
            KeyChild::Items(_) => false,
        }
    }

    fn is_items(&self) -> bool
        ensures { result ≡ is_items self.now }
    {
        match self {
            KeyChild::Other(_) => false,
            KeyChild::Keys { .. } => false,
            KeyChild::Items(_) => true,
        }
    }

    // A handler is one of keys.
    fn handles_keys(&self) -> bool
        ensures { result ≡ handles_keys self.now }
    {
        match self {
            KeyChild::Other(bytes) => handles(bytes.as_slice()),
            KeyChild::Keys { .. } => true,
            KeyChild::Items(_) => true,
        }
    }
}

impl KeyEntry {
    /// Whether this entry is a key.
    pub fn is_key(&self) -> bool
        ensures { result ≡ is_key self.now }
    {
        self.space.is(b"mdta")
    }
}

impl KeyItem {
    fn is_within(&self, count: usize) -> bool
        ensures { result ≡ is_within count self.now }
    {
        1 <= self.index && self.index as usize <= count
    }
}

// Whether an atom that is `hdlr` is one of keys.
fn handles(atom: &[u8]) -> bool
    ensures { result ≡ handles_keys (Other atom.now) }
{
    if !holds(atom, 4, b"hdlr") {
        return true;
    }
    20 <= atom.len() && holds(atom, 16, b"mdta")
}

// Whether these four bytes stand at a place.
fn holds(bytes: &[u8], at: usize, word: &[u8; 4]) -> bool
    requires { at ≤ 16 }
    ensures { result ≡ bytes_eq (take 4 (drop at bytes.now)) word.now }
{
    if bytes.len() < at + 4 {
        return false;
    }
    &bytes[at..at + 4] == word.as_slice()
}
