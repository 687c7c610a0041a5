// The edit of a body.
ghost use Rattle.std.specs.Prelude.{◌≡◌, ◌≤◌, length, IfOk, OnOk};
ghost use Rattle.part_tree.specs.Names.{bext_row};
ghost use Rattle.field_model.specs.Bext.{lay_range, new_body, raised, since};
ghost use Rattle.field_model.specs.Body.{FillsRange, FitBext, FitsBext, edited_bext, lay_item};
ghost use Rattle.field_model.specs.Update.{needed, since_name};
ghost use Rattle.bext_fields.specs.Change.{raw_items_of};

use crate::change::RawChange;
use crate::{BEXT, FIXED_LEN, raise_version, set_raw};
use me_bytes::NoMemory;
use part_tree::{BextField, Bytes, FieldName, Value};
use std::alloc::Global;

/// A body without a value in any field: zeros, of version 0.
pub const NEW_BODY: [u8; 602] = [0; 602];

/// The body after the changes of `bext`: it is raised once to the version that they need, and then each is laid. The coding
/// history takes any length, and every other change must fill its field's range.
pub fn edited_body(alloc: Global, body: &[u8], changes: &[RawChange]) -> Result<Bytes, NoMemory>
    requires long { 602 ≤ length body.now }
    requires fit { FitBext (raw_items_of changes.now) }
    ensures edited { IfOk result (λ bytes. bytes ≡ edited_bext (raw_items_of changes.now) body.now) }
    ensures long { IfOk result (λ bytes. 602 ≤ length bytes) }
{
    let mut bext = Vec::from_slice(alloc, body)?;
    raise_version(&mut bext, needed_version(changes));
    for change in changes {
        lay_change(&mut bext, change)?;
    }
    Ok(Bytes::of(bext))
}

/// A new body with the changes of `bext`.
pub fn new_edited_body(alloc: Global, changes: &[RawChange]) -> Result<Bytes, NoMemory>
    requires { FitBext (raw_items_of changes.now) }
    ensures edited { IfOk result (λ bytes. bytes ≡ edited_bext (raw_items_of changes.now) new_body) }
    ensures long { IfOk result (λ bytes. 602 ≤ length bytes) }
{
    edited_body(alloc, &NEW_BODY, changes)
}

/// The highest version that a change's field needs: 1 for the UMID, 2 for a loudness field, 0 for every other.
pub fn needed_version(changes: &[RawChange]) -> u16
    ensures needed { result ≡ needed (raw_items_of changes.now) }
    ensures small { result ≤ 2 }
{
    let mut version = 0;
    for change in changes {
        let since = since_of(&change.name);
        if since > version {
            version = since;
        }
    }
    version
}

// The version that the field of a name came with.
fn since_of(name: &FieldName) -> u16
    ensures since { result ≡ since_name name.now }
    ensures small { result ≤ 2 }
{
    match name {
        FieldName::Bext(field) => since_field(*field),
        _ => 0,
    }
}

fn since_field(field: BextField) -> u16
    ensures since { result ≡ since field }
    ensures small { result ≤ 2 }
{
    match field {
        BextField::Umid => 1,
        BextField::LoudnessValue
        | BextField::LoudnessRange
        | BextField::MaxTruePeakLevel
        | BextField::MaxMomentaryLoudness
        | BextField::MaxShortTermLoudness => 2,
        _ => 0,
    }
}

// Lays the value of a change where it is of `bext`.
fn lay_change(bext: &mut Vec<u8>, change: &RawChange) -> Result<(), NoMemory>
    requires long { 602 ≤ length bext.old.items }
    requires fits { FitsBext change.now.name change.now.value }
    ensures laid { OnOk result (bext.new.items ≡ lay_item change.now.name change.now.value bext.old.items) }
{
    match (&change.name, &change.value) {
        (FieldName::Bext(field), Some(value)) => lay_field(bext, *field, value),
        _ => Ok(()),
    }
}

// Lays a value in the range of a field.
fn lay_field(bext: &mut Vec<u8>, field: BextField, value: &Value) -> Result<(), NoMemory>
    requires long { 602 ≤ length bext.old.items }
    requires fills { FillsRange field value.now.raw }
    ensures laid { OnOk result (bext.new.items ≡ lay_range (bext_row field) value.now.raw bext.old.items) }
{
    let raw = value.raw.as_slice();
    match BEXT.get(field.row() as usize) {
        Some(row) => {
            set_raw(bext, row, raw);
            Ok(())
        }
        None => lay_history(bext, raw),
    }
}

// The rest of the body becomes these bytes.
fn lay_history(bext: &mut Vec<u8>, raw: &[u8]) -> Result<(), NoMemory>
    requires { 602 ≤ length bext.old.items }
    ensures { OnOk result (bext.new.items ≡ lay_range 14 raw.now bext.old.items) }
{
    bext.truncate(FIXED_LEN as usize);
    bext.extend_from_slice(raw)?;
    Ok(())
}
