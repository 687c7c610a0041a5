// Key tables, their entries and their items.
ghost use Rattle.std.specs.Prelude.{◌≡◌};

use part_tree::{Bytes, FourCc};
use std::marker::Model;

/// Things in a row, seen as their list.
#[derive(Debug, Drop)]
pub struct Row<T> {
    held: Vec<T>,
}

impl<T> Model for Row<T> {
    ghost use Rattle.std.specs.Prelude.{List};

    ghost Value = { List T };

    ghost view = { λ r. r.held.items };
}

impl<T> Row<T> {
    /// These, without taking memory.
    pub fn of(held: Vec<T>) -> Row<T>
        ensures { result ≡ held.items }
    {
        Row { held }
    }

    /// All of them.
    pub fn as_slice(&self) -> &[T]
        ensures { result.now ≡ self.now }
    {
        self.held.as_slice()
    }
}

/// A key table: the atoms in the body of `meta`.
#[derive(Debug, Drop)]
pub struct KeyTable {
    pub children: Row<KeyChild>,
}

/// An atom in the body of `meta`.
#[derive(Debug, Drop)]
pub enum KeyChild {
    /// One of another type, whole.
    Other(Bytes),
    /// `keys`: its version and flags, and its entries.
    Keys { head: u32, entries: Row<KeyEntry> },
    /// `ilst`: its items.
    Items(Row<KeyItem>),
}

/// A key: its namespace and its name.
#[derive(Debug, Drop)]
pub struct KeyEntry {
    pub space: FourCc,
    pub name: Bytes,
}

/// The values of a key: the bodies of its `data` atoms. The index counts entries from 1.
#[derive(Debug, Drop)]
pub struct KeyItem {
    pub index: u32,
    pub values: Row<Bytes>,
}
