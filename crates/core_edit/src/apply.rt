// The fields of a file after an edit.
ghost use Rattle.std.specs.Prelude.{◌≡◌, ◌<◌, ◌∷◌, [], List, IfOk, OnOk, if◌then◌else◌};
ghost use Rattle.part_tree.specs.declared.field.FieldName.{FieldName as Name};
ghost use Rattle.part_tree.specs.declared.field.Value.{Value as FieldValue};
ghost use Rattle.part_tree.specs.Fields.{values};
ghost use Rattle.part_tree.specs.Names.{IsFieldName, bext_row, same_name};
ghost use Rattle.field_model.specs.Fields.{plain, version_of};
ghost use Rattle.field_model.specs.Lawful.{IsLawful};
ghost use Rattle.field_model.specs.Update as spec;
ghost use Rattle.bext_fields.specs.Change.{raw_items_of};
ghost use Rattle.core_edit.specs.Edits.{AreOfFields};
ghost use Rattle.core_edit.specs.Updates.{laid_over, names_bext, prepared};

use crate::changes::raw_changes;
use crate::edit::{Edit, effective};
use crate::raw::{NO_LOUDNESS, width, zeros};
use crate::short::Short;
use crate::value_text::{form, version};
use bext_fields::{RawChange, needed_version};
use part_tree::{BextField, Bytes, FieldName, Fields, Form, NoMemory, Value};
use std::alloc::Global;

// The fields of `bext` by their numbers.
const FIELDS: [BextField; 15] = [
    BextField::Description,
    BextField::Originator,
    BextField::OriginatorReference,
    BextField::OriginationDate,
    BextField::OriginationTime,
    BextField::TimeReference,
    BextField::Version,
    BextField::Umid,
    BextField::LoudnessValue,
    BextField::LoudnessRange,
    BextField::MaxTruePeakLevel,
    BextField::MaxMomentaryLoudness,
    BextField::MaxShortTermLoudness,
    BextField::Reserved,
    BextField::CodingHistory,
];

/// The fields after the items that have an effect. Where one is of `bext`, that is first made or raised to the version that
/// the items need; then each item lays its value as the only one of its name, or takes the values of its name away. An item
/// whose text its field can't have changes nothing.
pub fn update(alloc: Global, fields: &Fields, edit: &Edit) -> Result<Fields, NoMemory>
    requires { IsLawful (values fields.now) }
    ensures values { IfOk result (λ new. (name : Name)
        → values new name ≡ spec.update (values fields.now) edit.now name) }
    ensures lawful { IfOk result (λ new. IsLawful (values new)) }
{
    let kept = effective(alloc, fields, edit)?;
    let changes = raw_changes(alloc, &kept)?;
    let mut new = prepare(alloc, fields, &changes)?;
    put_changes(alloc, &mut new, &changes)?;
    Ok(new)
}

// The fields with `bext` made or raised where a change is of it.
fn prepare(alloc: Global, fields: &Fields, changes: &[RawChange]) -> Result<Fields, NoMemory>
    requires { IsLawful (values fields.now) }
    ensures { IfOk result (λ new. (name : Name)
        → values new name ≡ prepared (raw_items_of changes.now) (values fields.now) name) }
{
    let mut new = fields.copy(alloc)?;
    if !has_bext(changes) {
        return Ok(new);
    }
    let to = needed_version(changes);
    for row in 0..15 {
        let field = field_at(row);
        let value = raised_value(alloc, fields, to, field)?;
        new.replace(FieldName::Bext(field), Some(value))?;
    }
    Ok(new)
}

// The field of `bext` of a number.
fn field_at(row: usize) -> BextField
    requires { row < 15 }
    ensures { bext_row result ≡ row }
{
    FIELDS[row]
}

fn has_bext(changes: &[RawChange]) -> bool
    ensures { result ≡ names_bext (raw_items_of changes.now) }
{
    for change in changes {
        if let FieldName::Bext(_) = change.name {
            return true;
        }
    }
    false
}

// The value of a field of `bext` that is made where there is none, and raised to a version.
fn raised_value(
    alloc: Global,
    fields: &Fields,
    to: u16,
    field: BextField,
) -> Result<Value, NoMemory>
    requires { IsLawful (values fields.now) }
    ensures { IfOk result
        (λ value. spec.raised_values to (version_of (values fields.now)) field (spec.made (values fields.now) field)
        ≡ value ∷ []) }
{
    match raised_raw(version(fields), to, field) {
        Some(raw) => plain_value(alloc, raw.as_slice()),
        None => made_value(alloc, fields, field),
    }
}

// The bytes that a raise from an old version lays in a field. None where the field stays.
fn raised_raw(old: u16, to: u16, field: BextField) -> Option<Short>
    ensures { (vs : List FieldValue) → spec.raised_values to old field vs ≡ laid_over result vs }
{
    if to <= old {
        return None;
    }
    match form(field) {
        Form::Version => Some(Short::of(&to.to_le_bytes())),
        Form::Umid if old == 0 => Some(Short::of(&[0; 64])),
        Form::Loudness if to == 2 => Some(Short::of(&NO_LOUDNESS)),
        _ => None,
    }
}

// The value of a field of `bext`, zeros where there is none.
fn made_value(alloc: Global, fields: &Fields, field: BextField) -> Result<Value, NoMemory>
    requires { IsLawful (values fields.now) }
    ensures { IfOk result (λ value. spec.made (values fields.now) field ≡ value ∷ []) }
{
    match fields.get(&FieldName::Bext(field)) {
        [value, ..] => value.copy(alloc),
        [] => {
            let raw = zeros(alloc, width(field))?;
            Ok(Value { lang: 0, raw })
        }
    }
}

fn plain_value(alloc: Global, bytes: &[u8]) -> Result<Value, NoMemory>
    ensures { IfOk result (λ value. value ≡ plain bytes.now) }
{
    let raw = Bytes::new(alloc, bytes)?;
    Ok(Value { lang: 0, raw })
}

// Each change lays its value, or takes the values away.
fn put_changes(alloc: Global, new: &mut Fields, changes: &[RawChange]) -> Result<(), NoMemory>
    requires { AreOfFields (raw_items_of changes.now) }
    ensures { OnOk result ((name : Name)
        → values new.new name ≡ spec.updated_values (raw_items_of changes.now) name (values new.old name)) }
{
    for change in changes {
        put_change(alloc, new, change)?;
    }
    Ok(())
}

fn put_change(alloc: Global, new: &mut Fields, change: &RawChange) -> Result<(), NoMemory>
    requires { IsFieldName change.now.name }
    ensures { OnOk result ((name : Name)
        → values new.new name ≡
        (if same_name change.now.name name then spec.listed change.now.value else values new.old name)) }
{
    let value = copy_value(alloc, &change.value)?;
    new.replace(change.name, value)
}

fn copy_value(alloc: Global, value: &Option<Value>) -> Result<Option<Value>, NoMemory>
    ensures { IfOk result (λ copy. copy ≡ value.now) }
{
    match value {
        Some(value) => {
            let copy = value.copy(alloc)?;
            Ok(Some(copy))
        }
        None => Ok(None),
    }
}
