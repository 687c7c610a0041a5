// The items of an edit in raw bytes.
ghost use Rattle.std.specs.Prelude.{◌≡◌, ◌++◌, ◌∷◌, [], IfOk, OnOk, Some, option_map};
ghost use Rattle.std.specs.List.{filter_map};
ghost use Rattle.field_model.specs.Bext.{blank as spec_blank};
ghost use Rattle.field_model.specs.Body.{FitBext};
ghost use Rattle.field_model.specs.Fields.{FieldMap};
ghost use Rattle.field_model.specs.Lawful.{FitKeys};
ghost use Rattle.field_model.specs.Update as spec;
ghost use Rattle.bext_fields.specs.Change.{raw_item_of, raw_items_of};
ghost use Rattle.core_edit.specs.Edits.{AreOfFields};

use crate::edit::Edit;
use crate::raw::{NO_LOUDNESS, raw_of, width, zeros};
use crate::value_text::form;
use bext_fields::RawChange;
use part_tree::{BextField, Bytes, Change, EditItem, FieldName, Form, NoMemory, Value};
use std::alloc::Global;

/// The items of an edit in raw bytes, in order. An item whose text its field can't have is none of them.
pub fn raw_changes(alloc: Global, edit: &Edit) -> Result<Vec<RawChange>, NoMemory>
    ensures items { IfOk result (λ changes. raw_items_of changes.items ≡ filter_map spec.raw_item edit.now) }
    ensures effective { (f : FieldMap) → spec.effective f edit.now ≡ edit.now
        → IfOk result (λ changes. raw_items_of changes.items ≡ spec.raw_items f edit.now) }
    ensures names { IfOk result (λ changes. AreOfFields (raw_items_of changes.items)) }
    ensures fit { IfOk result (λ changes. FitBext (raw_items_of changes.items)) }
    ensures keys { IfOk result (λ changes. FitKeys (raw_items_of changes.items)) }
{
    let items = edit.items();
    let mut changes = Vec::new(alloc);
    for item in items {
        put_change(alloc, &mut changes, item)?;
    }
    Ok(changes)
}

// Appends an item in raw bytes.
fn put_change(alloc: Global, changes: &mut Vec<RawChange>, item: &EditItem) -> Result<(), NoMemory>
    ensures { OnOk result (raw_items_of changes.new.items
        ≡ raw_items_of changes.old.items ++ filter_map spec.raw_item (item.now ∷ [])) }
{
    let Some(change) = raw_change(alloc, item)? else {
        return Ok(());
    };
    match changes.push(change) {
        Ok(()) => Ok(()),
        Err(_) => Err(NoMemory),
    }
}

fn raw_change(alloc: Global, item: &EditItem) -> Result<Option<RawChange>, NoMemory>
    ensures { IfOk result (λ change. option_map raw_item_of change ≡ spec.raw_item item.now) }
{
    match &item.change {
        Change::Set(text) => {
            let raw = raw_of(alloc, &item.name, text.as_slice())?;
            Ok(written(item.name, raw))
        }
        Change::Remove => removed(alloc, item.name),
    }
}

// The change that lays bytes, where there are some.
fn written(name: FieldName, raw: Option<Bytes>) -> Option<RawChange>
    ensures { option_map raw_item_of result ≡ option_map (spec.written name) raw }
{
    let raw = raw?;
    let lang = language(&name);
    Some(RawChange {
        name,
        value: Some(Value { lang, raw }),
    })
}

// The language of a written text: 15C7, unspecified, in user data.
fn language(name: &FieldName) -> u16
    ensures { result ≡ spec.language name.now }
{
    match name {
        FieldName::User(_) => 0x15c7,
        _ => 0,
    }
}

// The change that removes a field: one of `bext` gets its blank.
fn removed(alloc: Global, name: FieldName) -> Result<Option<RawChange>, NoMemory>
    ensures { IfOk result (λ change. option_map raw_item_of change ≡ Some (spec.removed name)) }
{
    match name {
        FieldName::Bext(field) => {
            let raw = blank(alloc, field)?;
            Ok(written(name, Some(raw)))
        }
        _ => Ok(Some(RawChange { name, value: None })),
    }
}

// The bytes of a field without a value.
fn blank(alloc: Global, field: BextField) -> Result<Bytes, NoMemory>
    ensures { IfOk result (λ raw. raw ≡ spec_blank field) }
{
    match form(field) {
        Form::Loudness => Bytes::new(alloc, &NO_LOUDNESS),
        _ => zeros(alloc, width(field)),
    }
}
