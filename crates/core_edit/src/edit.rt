// An edit: items of which no two name one field.
ghost use Rattle.std.specs.Prelude.{◌≡◌, ◌++◌, ◌∷◌, [], IfOk, OnOk, filter};
ghost use Rattle.part_tree.specs.Fields.{values};
ghost use Rattle.field_model.specs.Lawful.{IsLawful};
ghost use Rattle.field_model.specs.Update as spec;
ghost use Rattle.core_edit.specs.Edits.{AreNamed, AreSound, is_empty_set, names_one};
ghost use Rattle.core_edit.specs.Made.{MakesEdit};

use crate::effect::has_effect;
use part_tree::{Bytes, Change, EditItem, FieldName, Fields, NoMemory};
use std::alloc::Global;
use std::marker::Model;

/// Why items are no edit, by the number of the first faulty item, from 1.
#[derive(Clone, Copy, Debug, PartialEq, Eq)]
pub enum EditFault {
    /// An earlier item names the field of item n.
    Twice { n: u64 },
    /// Item n sets an empty text.
    Empty { n: u64 },
    Memory,
}

/// Items that change fields, seen as the list of them.
#[derive(Debug, Drop)]
pub struct Edit {
    held: Vec<EditItem>,
}

impl Model for Edit {
    ghost use Rattle.std.specs.Prelude.{List};
    ghost use Rattle.part_tree.specs.declared.field.EditItem.{EditItem};
    ghost use Rattle.core_edit.specs.Edits.{AreSound};

    ghost Value = { List EditItem };

    ghost view = { λ e. e.held.items };

    ghost invariant = { λ e. AreSound e.held.items };
}

impl Edit {
    /// An edit of these items. `Twice` where an item names the field of an earlier one, `Empty` where one sets no bytes; the
    /// first such item is told.
    pub fn new(_alloc: Global, items: Vec<EditItem>) -> Result<Edit, EditFault>
        requires { AreNamed items.items }
        ensures { MakesEdit items.items result }
    {
        for i in 0..items.len() {
            if names_field(&items[..i], &items[i].name) {
                return Err(EditFault::Twice { n: i as u64 + 1 });
            }
            if sets_nothing(&items[i].change) {
                return Err(EditFault::Empty { n: i as u64 + 1 });
            }
        }
        Ok(Edit { held: items })
    }

    /// An edit of sound items.
    pub fn of(items: Vec<EditItem>) -> Edit
        requires { AreSound items.items }
        ensures { result ≡ items.items }
    {
        Edit { held: items }
    }

    /// The items in order.
    pub fn items(&self) -> &[EditItem]
        ensures items { result.now ≡ self.now }
        ensures sound { AreSound self.now }
    {
        &self.held
    }
}

// Whether some item names a field.
fn names_field(items: &[EditItem], name: &FieldName) -> bool
    ensures { result ≡ names_one name.now items.now }
{
    for item in items {
        if item.name.is(name) {
            return true;
        }
    }
    false
}

fn sets_nothing(change: &Change) -> bool
    ensures { result ≡ is_empty_set change.now }
{
    match change {
        Change::Set(text) => text.as_slice().is_empty(),
        Change::Remove => false,
    }
}

/// The items that have an effect, in order.
pub fn effective(alloc: Global, fields: &Fields, edit: &Edit) -> Result<Edit, NoMemory>
    requires { IsLawful (values fields.now) }
    ensures { IfOk result (λ e. e ≡ spec.effective (values fields.now) edit.now) }
{
    let items = edit.items();
    let mut kept = Vec::new(alloc);
    for item in items {
        keep(alloc, &mut kept, fields, item)?;
    }
    Ok(Edit::of(kept))
}

// Appends a copy of an item that has an effect.
fn keep(
    alloc: Global,
    kept: &mut Vec<EditItem>,
    fields: &Fields,
    item: &EditItem,
) -> Result<(), NoMemory>
    requires { IsLawful (values fields.now) }
    ensures { OnOk result (kept.new.items
        ≡ kept.old.items ++ filter (spec.has_effect (values fields.now)) (item.now ∷ [])) }
{
    if !has_effect(fields, item) {
        return Ok(());
    }
    let change = copy_change(alloc, &item.change)?;
    let copy = EditItem {
        name: item.name,
        change,
    };
    match kept.push(copy) {
        Ok(()) => Ok(()),
        Err(_) => Err(NoMemory),
    }
}

fn copy_change(alloc: Global, change: &Change) -> Result<Change, NoMemory>
    ensures { IfOk result (λ copy. copy ≡ change.now) }
{
    match change {
        Change::Set(text) => {
            let text = Bytes::new(alloc, text.as_slice())?;
            Ok(Change::Set(text))
        }
        Change::Remove => Ok(Change::Remove),
    }
}
