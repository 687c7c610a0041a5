// Changes of the items of a list.
ghost use Rattle.std.specs.Prelude.{◌≡◌, ◌≤◌, [], length, map, filter, not, IfOk, OnErr, OnOk, Some};
ghost use Rattle.std.specs.List.{position_or_len};
ghost use Rattle.std.specs.Vec.{vec_capacity};
ghost use Rattle.container_model.specs.Items.{has_mark, hits, put_all, put_value};
ghost use Rattle.carrier_model.specs.Info.{info_items};
ghost use Rattle.info_list.specs.Changes.{changes_of};
ghost use Rattle.info_list.specs.Info.{chunks_of, made_of, tokens_of};

use crate::{InfoItem, InfoItems, InfoList};
use part_tree::{Bytes, FieldName, FourCc, NoMemory};
use std::alloc::Global;

/// What becomes of the items of a field: one with this value, or none.
#[derive(Debug, Drop)]
pub struct InfoChange {
    pub id: FourCc,
    pub value: Option<Bytes>,
}

impl InfoList {
    /// A list without items and without a rest.
    pub fn new(alloc: Global) -> InfoList
        ensures items { result.items ≡ [] }
        ensures rest { result.rest ≡ [] }
    {
        InfoList {
            items: InfoItems::new(Vec::new(alloc)),
            rest: Bytes::of(Vec::new(alloc)),
        }
    }

    /// The number of items.
    pub fn count(&self) -> usize
        ensures { result ≡ length self.now.items }
    {
        self.items.as_slice().len()
    }

    /// Whether there is an item of a field of this identifier.
    pub fn has_item(&self, id: &FourCc) -> bool
        ensures { result ≡ has_mark id.now.0 (tokens_of self.now) }
    {
        let items = self.items.as_slice();
        first_named(items, id) < items.len()
    }

    /// The first item of the field gets the value, and the others of that field go; with no value all go. Where there was none,
    /// the new one stands last, before the rest. Items of identifiers that are no field stay. On `NoMemory` nothing changed.
    pub fn put(&mut self, id: &FourCc, value: Option<Bytes>) -> Result<(), NoMemory>
        ensures put { OnOk result (chunks_of self.new ≡ put_value info_items id.now.0 value (chunks_of self.old)) }
        ensures stays { OnErr result (self.new.items ≡ self.old.items) }
        ensures rest { self.new.rest ≡ self.old.rest }
    {
        self.items.put(id, value)
    }

    /// Makes the changes one after the other. On `NoMemory` some of them may have been made.
    pub fn put_all(&mut self, alloc: Global, changes: &[InfoChange]) -> Result<(), NoMemory>
        ensures put { OnOk result (chunks_of self.new
            ≡ put_all info_items (changes_of changes.now) (chunks_of self.old)) }
        ensures rest { self.new.rest ≡ self.old.rest }
    {
        for change in changes {
            let value = copy_of(alloc, &change.value)?;
            self.put(&change.id, value)?;
        }
        Ok(())
    }
}

impl InfoItems {
    fn put(&mut self, id: &FourCc, value: Option<Bytes>) -> Result<(), NoMemory>
        ensures put { OnOk result (map made_of self.new ≡ put_value info_items id.now.0 value (map made_of self.old)) }
        ensures stays { OnErr result (self.new ≡ self.old) }
    {
        match value {
            None => {
                drop_named(&mut self.held, id);
                Ok(())
            }
            Some(raw) => put_item(&mut self.held, InfoItem { id: *id, raw }),
        }
    }
}

// The same value.
fn copy_of(alloc: Global, value: &Option<Bytes>) -> Result<Option<Bytes>, NoMemory>
    ensures { IfOk result (λ copy. copy ≡ value.now) }
{
    match value {
        None => Ok(None),
        Some(bytes) => {
            let copy = Bytes::new(alloc, bytes.as_slice())?;
            Ok(Some(copy))
        }
    }
}

// Whether the item is one of a field of this identifier.
fn is_named(item: &InfoItem, id: &FourCc) -> bool
    ensures { result ≡ hits info_items id.now.0 (made_of item.now) }
{
    id.is(&item.id.0) && FieldName::Info(item.id).is_field()
}

// The number of the first item of a field, or how many items there are.
fn first_named(items: &[InfoItem], id: &FourCc) -> usize
    ensures place { result ≡ position_or_len (λ i. hits info_items id.now.0 (made_of i)) items.now }
    ensures bound { result ≤ length items.now }
{
    let mut k = 0;
    for item in items {
        if is_named(item, id) {
            return k;
        }
        k += 1;
    }
    k
}

// Takes the items of a field away.
fn drop_named(items: &mut Vec<InfoItem>, id: &FourCc)
    ensures room { vec_capacity items.new ≡ vec_capacity items.old }
    ensures others { items.new.items ≡ filter (λ i. not (hits info_items id.now.0 (made_of i))) items.old.items }
{
    items.retain(|item| !is_named(item, id));
}

// The item stands where the first of its field stood, or last, and the others of that field are gone.
fn put_item(items: &mut Vec<InfoItem>, item: InfoItem) -> Result<(), NoMemory>
    ensures put { OnOk result (map made_of items.new.items
        ≡ put_value info_items item.id.0 (Some item.raw) (map made_of items.old.items)) }
    ensures stays { OnErr result (items.new.items ≡ items.old.items) }
{
    let k = first_named(items, &item.id);
    drop_named(items, &item.id);
    match items.insert(k, item) {
        Ok(()) => Ok(()),
        Err(_) => Err(NoMemory),
    }
}
