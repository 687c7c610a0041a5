//! The metadata keys of a QuickTime movie: the body of a `meta` atom as a key table, read, changed and spelled (QuickTime File
//! Format, metadata). A key is a name in the namespace `mdta`; its values are the bodies of the `data` atoms of its item.
//! It reads no file.
#![tactic(auto)]

ghost use Rattle.std.specs.Prelude.{◌≡◌, ◌≢◌, ◌≤◌, ◌+◌, ◌^◌, ℕ, List, Option, Some, length};
ghost use Rattle.std.specs.Option.{option_to_list};
ghost use Rattle.me_bytes.specs.Bytes.{IsBytes};
ghost use Rattle.qt_keys.specs.Read.{IsRead, key_table};
ghost use Rattle.qt_keys.specs.Set.{IsKeyValue, growth, key_values, with_key};
ghost use Rattle.qt_keys.specs.Table.{table_bytes};
ghost use Rattle.qt_keys.specs.declared.table.KeyTable.{KeyTable as Keys};

mod differ;
mod lawful;
mod read;
mod set;
mod short;
mod spell;
mod table;
#[cfg(test)]
mod tests;

pub use read::read_keys;
pub use set::set_key;
pub use spell::spell_keys;
pub use table::{KeyChild, KeyEntry, KeyItem, KeyTable, Row};

/// Bytes that are a key table are its spelling, and bytes are the spelling of at most one table that is read.
pub fn keys_are_spelled_back()
    ensures spelled { (b : List ℕ) (t : Keys) → IsBytes b → key_table b ≡ Some t → table_bytes t ≡ b }
    ensures once { (a b : List ℕ) (t u : Keys) → IsBytes a → IsBytes b → key_table a ≡ Some t → key_table b ≡ Some u
        → table_bytes t ≡ table_bytes u → t ≡ u }
{}

/// After a key is set it has that value alone, or none, and each other key has what it had. What is spelled of the new table is
/// read as it, where it has at most 16 MiB; it is longer by at most 24 bytes, the name and the value.
pub fn keys_are_set()
    ensures set { (name : List ℕ) (raw : Option (List ℕ)) (t : Keys) → IsRead t
        → key_values name (with_key name raw t) ≡ option_to_list raw }
    ensures others { (other name : List ℕ) (raw : Option (List ℕ)) (t : Keys) → other ≢ name → IsRead t
        → key_values other (with_key name raw t) ≡ key_values other t }
    ensures read { (name : List ℕ) (raw : Option (List ℕ)) (t : Keys) → IsKeyValue raw → IsRead t
        → IsBytes (table_bytes (with_key name raw t)) → length (table_bytes (with_key name raw t)) ≤ 2 ^ 24
        → IsRead (with_key name raw t) }
    ensures longer { (name : List ℕ) (raw : Option (List ℕ)) (t : Keys) → IsRead t
        → length (table_bytes (with_key name raw t)) ≤ length (table_bytes t) + growth name raw }
{}
