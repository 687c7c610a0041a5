// The fields of a file.
ghost use Rattle.std.specs.Prelude.{◌≡◌, ◌<◌, ◌≤◌, ◌^◌, ℕ, ◌++◌, ◌∷◌, [], length, nat_le, IfOk, OnOk, OnErr, slice_get, option_copied, is_ok, if◌then◌else◌};
ghost use Rattle.std.specs.List.{position_or_len};
ghost use Rattle.part_tree.specs.Fields.{values, names, IsMap, Adds, Replaces, listed};
ghost use Rattle.part_tree.specs.Names.{IsFieldName, field_place};

use crate::field::{FieldName, Value};
use me_bytes::NoMemory;
use std::alloc::Global;
use std::marker::Model;

/// The values of a name, seen as their list.
#[derive(Debug, Drop)]
pub struct Values {
    held: Vec<Value>,
}

impl Model for Values {
    ghost use Rattle.std.specs.Prelude.{List};
    ghost use Rattle.part_tree.specs.declared.field.Value.{Value as FieldValue};

    ghost Value = { List FieldValue };

    ghost view = { λ v. v.held.items };
}

impl Values {
    fn one(alloc: Global, value: Value) -> Result<Values, NoMemory>
        ensures { IfOk result (λ v. v ≡ value ∷ []) }
    {
        let mut held = Vec::new(alloc);
        match held.push(value) {
            Ok(()) => Ok(Values { held }),
            Err(_) => Err(NoMemory),
        }
    }

    fn push(&mut self, value: Value) -> Result<(), NoMemory>
        ensures { self.new ≡ (if is_ok result then self.old ++ value ∷ [] else self.old) }
    {
        match self.held.push(value) {
            Ok(()) => Ok(()),
            Err(_) => Err(NoMemory),
        }
    }

    pub fn as_slice(&self) -> &[Value]
        ensures { result.now ≡ self.now }
    {
        &self.held
    }
}

/// A name and its values in file order.
#[derive(Debug, Drop)]
pub struct Entry {
    pub name: FieldName,
    pub values: Values,
}

impl Entry {
    fn copy(&self, alloc: Global) -> Result<Entry, NoMemory>
        ensures { IfOk result (λ entry. entry ≡ self.now) }
    {
        let mut held = Vec::new(alloc);
        for value in self.values.as_slice() {
            match held.push(value.copy(alloc)?) {
                Ok(()) => {}
                Err(_) => return Err(NoMemory),
            }
        }
        Ok(Entry {
            name: self.name,
            values: Values { held },
        })
    }
}

/// The fields of a file, seen as a finite map from names to lists of values: the entries of the names that have a value,
/// in field order.
#[derive(Debug, Drop)]
pub struct Fields {
    alloc: Global,
    entries: Vec<Entry>,
}

impl Model for Fields {
    ghost use Rattle.std.specs.Prelude.{List};
    ghost use Rattle.part_tree.specs.declared.fields.Entry.{Entry};
    ghost use Rattle.part_tree.specs.Fields.{IsMap};

    ghost Value = { List Entry };

    ghost view = { λ f. f.entries.items };

    ghost invariant = { λ f. IsMap f.entries.items };
}

impl Fields {
    /// No names.
    pub fn new(alloc: Global) -> Fields
        ensures { result ≡ [] }
    {
        Fields {
            alloc,
            entries: Vec::new(alloc),
        }
    }

    /// The value becomes the last of that name; all else stays.
    pub fn add(&mut self, name: FieldName, value: Value) -> Result<(), NoMemory>
        requires { IsFieldName name }
        ensures ok { OnOk result (Adds self.old self.new name value) }
        ensures err { OnErr result (self.new ≡ self.old) }
    {
        let k = entries_before(&self.entries, &name);
        if k < self.entries.len() && self.entries[k].name.is(&name) {
            let entry = &mut self.entries[k];
            return entry.values.push(value);
        }
        let values = Values::one(self.alloc, value)?;
        match self.entries.insert(k, Entry { name, values }) {
            Ok(()) => Ok(()),
            Err(_) => Err(NoMemory),
        }
    }

    /// The value becomes the only one of that name, or the name gets none; all else stays.
    pub fn replace(&mut self, name: FieldName, value: Option<Value>) -> Result<(), NoMemory>
        requires { IsFieldName name }
        ensures ok { OnOk result (Replaces self.old self.new name (listed value)) }
        ensures err { OnErr result (self.new ≡ self.old) }
    {
        match value {
            Some(value) => self.put_only(name, value),
            None => {
                self.take_away(&name);
                Ok(())
            }
        }
    }

    // The value becomes the only one of that name.
    fn put_only(&mut self, name: FieldName, value: Value) -> Result<(), NoMemory>
        requires { IsFieldName name }
        ensures ok { OnOk result (Replaces self.old self.new name (value ∷ [])) }
        ensures err { OnErr result (self.new ≡ self.old) }
    {
        let values = Values::one(self.alloc, value)?;
        let k = entries_before(&self.entries, &name);
        if k < self.entries.len() && self.entries[k].name.is(&name) {
            self.entries[k] = Entry { name, values };
            return Ok(());
        }
        match self.entries.insert(k, Entry { name, values }) {
            Ok(()) => Ok(()),
            Err(_) => Err(NoMemory),
        }
    }

    // The name gets no value.
    fn take_away(&mut self, name: &FieldName)
        requires { IsFieldName name.now }
        ensures { Replaces self.old self.new name.now [] }
    {
        let k = entries_before(&self.entries, name);
        if k < self.entries.len() && self.entries[k].name.is(name) {
            let _ = self.entries.remove(k);
        }
    }

    /// The same fields.
    pub fn copy(&self, alloc: Global) -> Result<Fields, NoMemory>
        ensures { IfOk result (λ fields. fields ≡ self.now) }
    {
        let mut entries = Vec::new(alloc);
        for entry in &self.entries {
            match entries.push(entry.copy(alloc)?) {
                Ok(()) => {}
                Err(_) => return Err(NoMemory),
            }
        }
        Ok(Fields { alloc, entries })
    }

    /// The values of the name in file order, none where it isn't there.
    pub fn get(&self, name: &FieldName) -> &[Value]
        ensures { result.now ≡ values self.now name.now }
    {
        let k = entries_before(&self.entries, name);
        if k < self.entries.len() && self.entries[k].name.is(name) {
            return self.entries[k].values.as_slice();
        }
        &[]
    }

    /// The k-th name that has a value, from 0, in field order. None where there are at most `k` names.
    pub fn name_at(&self, k: usize) -> Option<&FieldName>
        ensures name { option_copied result ≡ slice_get (names self.now) k }
        ensures order { IsMap self.now }
        ensures few { length (names self.now) < 2 ^ 64 }
    {
        if k < self.entries.len() {
            Some(&self.entries[k].name)
        } else {
            None
        }
    }
}

// How many entries stand before a name, found by halving.
fn entries_before(entries: &[Entry], name: &FieldName) -> usize
    requires in_order { IsMap entries.now }
    ensures count { result ≡ position_or_len (λ e. nat_le (field_place name.now) (field_place e.name)) entries.now }
    ensures bound { result ≤ length entries.now }
{
    entries.partition_point(|entry| entry.name.is_before(name))
}
