// The body of `meta` read as a key table.
ghost use Rattle.std.specs.Prelude.{◌≡◌, ◌≤◌, ◌+◌, ◌^◌, ℕ, length, nat_le, take, drop, IfOk, IfSome, MatchOption, None, Some, OnOk, ◌++◌};
ghost use Rattle.std.specs.Int.{w32, from_be_bytes};
ghost use Rattle.container_model.specs.Atoms.{atom};
ghost use Rattle.container_model.specs.Chunk.{spell};
ghost use Rattle.qt_keys.specs.Read.{IsRead, child_read, entry_read, item_read, items_read, key_table, keys_read, value_read};
ghost use Rattle.qt_keys.specs.Short.{each};
ghost use Rattle.qt_keys.specs.Table.{table_bytes};

use crate::lawful::is_lawful;
use crate::short::{FromAtom, number_at, read_all};
use crate::spell::put_atom;
use crate::table::{KeyChild, KeyEntry, KeyItem, KeyTable, Row};
use part_tree::{Bytes, FourCc, NoMemory};
use std::alloc::Global;

// The most bytes that the body of an opened `meta` has.
const MOST_BYTES: usize = 16_777_216;

/// The key table that some bytes are, whose spelling they are. None exactly where they are none.
pub fn read_keys(alloc: Global, body: &[u8]) -> Result<Option<KeyTable>, NoMemory>
    ensures table { IfOk result (λ found. found ≡ key_table body.now) }
    ensures read { IfOk result (λ found. IfSome found IsRead) }
    ensures spelled { IfOk result (λ found. IfSome found (λ t. table_bytes t ≡ body.now)) }
{
    if body.len() > MOST_BYTES {
        return Ok(None);
    }
    let Some(children) = read_all::<KeyChild>(alloc, body)? else {
        return Ok(None);
    };
    if !is_lawful(alloc, &children)? {
        return Ok(None);
    }
    Ok(Some(KeyTable {
        children: Row::of(children),
    }))
}

impl FromAtom for Bytes {
    ghost reads = { value_read };

    fn from_atom(alloc: Global, kind: FourCc, body: &[u8]) -> Result<Option<Bytes>, NoMemory> {
        if !kind.is(b"data") {
            return Ok(None);
        }
        if body.len() < 8 {
            return Ok(None);
        }
        let value = Bytes::new(alloc, body)?;
        Ok(Some(value))
    }
}

impl FromAtom for KeyEntry {
    ghost reads = { entry_read };

    fn from_atom(alloc: Global, kind: FourCc, body: &[u8]) -> Result<Option<KeyEntry>, NoMemory> {
        let name = Bytes::new(alloc, body)?;
        Ok(Some(KeyEntry { space: kind, name }))
    }
}

impl FromAtom for KeyItem {
    ghost reads = { item_read };

    fn from_atom(alloc: Global, kind: FourCc, body: &[u8]) -> Result<Option<KeyItem>, NoMemory> {
        let Some(values) = read_all::<Bytes>(alloc, body)? else {
            return Ok(None);
        };
        if values.is_empty() {
            return Ok(None);
        }
        Ok(Some(KeyItem {
            index: u32::from_be_bytes(kind.0),
            values: Row::of(values),
        }))
    }
}

impl FromAtom for KeyChild {
    ghost reads = { child_read };

    fn from_atom(alloc: Global, kind: FourCc, body: &[u8]) -> Result<Option<KeyChild>, NoMemory> {
        if kind.is(b"keys") {
            return entries_from(alloc, body);
        }
        if kind.is(b"ilst") {
            return items_from(alloc, body);
        }
        let bytes = whole_atom(alloc, kind, body)?;
        Ok(Some(KeyChild::Other(bytes)))
    }
}

// The entries in the body of `keys`.
fn entries_from(alloc: Global, body: &[u8]) -> Result<Option<KeyChild>, NoMemory>
    requires { length body.now ≤ 2 ^ 24 }
    ensures { IfOk result (λ found. found ≡ keys_read body.now (nat_le 8 (length body.now))) }
{
    if body.len() < 8 {
        return Ok(None);
    }
    let Some(entries) = read_all::<KeyEntry>(alloc, &body[8..])? else {
        return Ok(None);
    };
    if entries.len() != number_at(body, 4) as usize {
        return Ok(None);
    }
    Ok(Some(KeyChild::Keys {
        head: number_at(body, 0),
        entries: Row::of(entries),
    }))
}

// The items in the body of `ilst`.
fn items_from(alloc: Global, body: &[u8]) -> Result<Option<KeyChild>, NoMemory>
    requires { length body.now ≤ 2 ^ 24 }
    ensures { IfOk result (λ found. found ≡ items_read (each item_read body.now)) }
{
    let Some(items) = read_all::<KeyItem>(alloc, body)? else {
        return Ok(None);
    };
    Ok(Some(KeyChild::Items(Row::of(items))))
}

// An atom with its header.
fn whole_atom(alloc: Global, kind: FourCc, body: &[u8]) -> Result<Bytes, NoMemory>
    requires { length body.now ≤ 2 ^ 24 }
    ensures { IfOk result (λ bytes. bytes ≡ spell (atom kind.0 body.now)) }
{
    let mut out = Vec::new(alloc);
    put_atom(&mut out, kind, body)?;
    Ok(Bytes::of(out))
}
