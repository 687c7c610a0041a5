// The body of a key table after an edit of its keys.
ghost use Rattle.std.specs.Prelude.{◌≡◌, IfOk};
ghost use Rattle.std.specs.List.{AllByRecursion};
ghost use Rattle.me_bytes.specs.Bytes.{IsBytes};
ghost use Rattle.mov_model.specs.Keys.{new_table, with_keys};
ghost use Rattle.qt_keys.specs.Read.{IsRead};
ghost use Rattle.qt_keys.specs.Table.{table_bytes};
ghost use Rattle.mov_plan.specs.Keyed.{CanPut, IsKeyed, changes_of};

use crate::key_len::table_len;
use crate::keyed::Keyed;
use part_tree::{Bytes, NoMemory};
use qt_keys::{KeyTable, read_keys, spell_keys};
use std::alloc::Global;

#[cfg(test)]
mod tests;

const MOST_BYTES: u64 = 16_777_216;

/// One key gets a value, which is its type and its locale, each a big-endian u32, and its bytes; or has none.
#[derive(Debug, Drop)]
pub struct KeyChange {
    pub name: Bytes,
    pub value: Option<Bytes>,
}

/// Why there is no new table: its body would have `size` bytes, which are more than 16 MiB.
#[derive(Clone, Copy, Debug, PartialEq, Eq)]
pub enum KeysFault {
    TooLarge { size: u64 },
    Memory,
}

// The body of a table with the handler of keys, no keys and no items.
const NEW_BODY: [u8; 57] =
    *b"\0\0\0\x21hdlr\0\0\0\0\0\0\0\0mdta\0\0\0\0\0\0\0\0\0\0\0\0\0\0\0\0\x10keys\0\0\0\0\0\0\0\0\0\0\0\x08ilst";

// A table with these changes made one after the other.
fn edited(alloc: Global, table: &KeyTable, changes: &[KeyChange]) -> Result<KeyTable, NoMemory>
    requires { IsRead table.now }
    ensures table { IfOk result (λ t. t ≡ with_keys (changes_of changes.now) table.now) }
    ensures bytes { IfOk result (λ t. IsBytes (table_bytes t)) }
{
    let mut keyed = Keyed::of(alloc, table)?;
    'changes: for change in changes {
        keyed.put(alloc, change)?;
    }
    keyed.table(alloc, table)
}

/// The body of a key table with these changes made one after the other: a key that is set has its item where it was, or last, and
/// an entry that wasn't there stands last; the entry of one that is removed stays. `TooLarge` where the new body passes 16 MiB.
pub fn edit_keys(alloc: Global, table: &KeyTable, changes: &[KeyChange]) -> Result<Bytes, KeysFault>
    requires read { IsRead table.now }
    requires values { AllByRecursion CanPut changes.now }
    ensures { IsKeyed (changes_of changes.now) table.now result }
{
    let Ok(table) = edited(alloc, table, changes) else {
        return Err(KeysFault::Memory);
    };
    let size = table_len(&table);
    if size == u64::MAX {
        return Err(KeysFault::Memory);
    }
    if size > MOST_BYTES {
        return Err(KeysFault::TooLarge { size });
    }
    match spell_keys(alloc, &table) {
        Err(_) => Err(KeysFault::Memory),
        Ok(bytes) => Ok(bytes),
    }
}

/// A table with the handler of keys, without keys and items.
pub fn new_keys(alloc: Global) -> Result<KeyTable, NoMemory>
    ensures table { IfOk result (λ t. t ≡ new_table) }
    ensures read { IfOk result IsRead }
{
    match read_keys(alloc, &NEW_BODY)? {
        None => Err(NoMemory),
        Some(table) => Ok(table),
    }
}
