// The changes that an edit makes to the carriers of a movie: to its user data and its key table.
ghost use Rattle.std.specs.Prelude.{◌≡◌, ◌<◌, ◌^◌, ℕ, List, map, option_map, IfOk};
ghost use Rattle.std.specs.List.{AllByRecursion};
ghost use Rattle.me_bytes.specs.Bytes.{IsBytes};
ghost use Rattle.me_disk.specs.Causes.{Rose};
ghost use Rattle.me_disk.specs.Holds.{Holds, Inside};
ghost use Rattle.me_disk.specs.Steps.{ReadsOnly};
ghost use Rattle.bext_fields.specs.Change.{raw_items_of};
ghost use Rattle.container_model.specs.Atoms.{atoms_in};
ghost use Rattle.container_model.specs.Items.{listed};
ghost use Rattle.mov_model.specs.Edited.{changed_by, key_item, user_item};
ghost use Rattle.mov_model.specs.Movie.{movie_of};
ghost use Rattle.mov_model.specs.Reading.{inside_at};
ghost use Rattle.mov_model.specs.Support.{Supported};
ghost use Rattle.mov_plan.specs.Atoms.{AreRow};
ghost use Rattle.mov_plan.specs.Carriers.{EndsBy};
ghost use Rattle.mov_plan.specs.Keyed as keyed;
ghost use Rattle.mov_plan.specs.Users as users;
ghost use Rattle.qt_keys.specs.Set.{IsKeyValue};
ghost use Rattle.qt_text.specs.User.{IsUserValue};
ghost use Rattle.edit_planner.specs.Movie.{CarriesEdit};

use bext_fields::RawChange;
use me_disk::Depot;
use mov_plan::{Carries, CarryFault, KeyChange, UserChange, carriers};
use part_tree::{Bytes, FieldName, NoMemory, PlanFault, Value, is_key, is_user};
use qt_atoms::AtomAt;
use std::alloc::Global;

const MOST_BYTES: u64 = 16_777_216;

// The change of a type of user items that a change of a field is.
fn user_change(alloc: Global, change: &RawChange) -> Result<Option<UserChange>, NoMemory>
    ensures { IfOk result (λ c. map users.change_of (listed c) ≡ user_item change.now.name change.now.value) }
{
    let FieldName::User(kind) = change.name else {
        return Ok(None);
    };
    if !is_user(&kind) {
        return Ok(None);
    }
    let value = copied(alloc, &change.value)?;
    Ok(Some(UserChange { kind, value }))
}

// The same value, where there is one.
fn copied(alloc: Global, value: &Option<Value>) -> Result<Option<Value>, NoMemory>
    ensures { IfOk result (λ v. v ≡ value.now) }
{
    match value {
        None => Ok(None),
        Some(value) => {
            let value = value.copy(alloc)?;
            Ok(Some(value))
        }
    }
}

// The bytes of a value, where there is one.
fn raw_of(alloc: Global, value: &Option<Value>) -> Result<Option<Bytes>, NoMemory>
    ensures { IfOk result (λ raw. raw ≡ option_map (λ (v : Value). v.raw) value.now) }
{
    match value {
        None => Ok(None),
        Some(value) => {
            let raw = Bytes::new(alloc, value.raw.as_slice())?;
            Ok(Some(raw))
        }
    }
}

// The change of a key that a change of a field is.
fn key_change(alloc: Global, change: &RawChange) -> Result<Option<KeyChange>, NoMemory>
    ensures { IfOk result (λ c. map keyed.change_of (listed c) ≡ key_item change.now.name change.now.value) }
{
    let FieldName::Key(key) = &change.name else {
        return Ok(None);
    };
    if !is_key(key.as_slice()) {
        return Ok(None);
    }
    let name = Bytes::new(alloc, key.as_slice())?;
    let value = raw_of(alloc, &change.value)?;
    Ok(Some(KeyChange { name, value }))
}

/// The changes of the user data among changes of fields, in order.
pub fn user_changes(alloc: Global, changes: &[RawChange]) -> Result<Vec<UserChange>, NoMemory>
    ensures { IfOk result (λ cs. users.changes_of cs.items ≡ (changed_by (raw_items_of changes.now)).users) }
{
    let mut kept = Vec::new(alloc);
    'changes: for change in changes {
        match user_change(alloc, change)? {
            None => {}
            Some(change) => match kept.push(change) {
                Err(_) => return Err(NoMemory),
                Ok(()) => {}
            },
        }
    }
    Ok(kept)
}

/// The changes of the key table among changes of fields, in order.
pub fn key_changes(alloc: Global, changes: &[RawChange]) -> Result<Vec<KeyChange>, NoMemory>
    ensures { IfOk result (λ cs. keyed.changes_of cs.items ≡ (changed_by (raw_items_of changes.now)).keys) }
{
    let mut kept = Vec::new(alloc);
    'changes: for change in changes {
        match key_change(alloc, change)? {
            None => {}
            Some(change) => match kept.push(change) {
                Err(_) => return Err(NoMemory),
                Ok(()) => {}
            },
        }
    }
    Ok(kept)
}

/// What becomes of the user data and the key table of a movie, whose atoms of `moov` end at the byte `end` or before it. `TooLarge`
/// is the first of their bodies that would pass 16 MiB.
pub fn carried<D: Depot>(
    alloc: Global,
    depot: &mut D,
    atoms: &[AtomAt],
    end: u64,
    changes: &[RawChange],
) -> Result<Carries, PlanFault>
    requires inside { Inside end (D.disk depot.old) }
    requires small { end < 2 ^ 63 }
    requires ends { AllByRecursion (EndsBy end) atoms.now }
    requires users { AllByRecursion (λ i. IsUserValue i.name i.value) (changed_by (raw_items_of changes.now)).users }
    requires keys { AllByRecursion (λ i. IsKeyValue i.value) (changed_by (raw_items_of changes.now)).keys }
    ensures carries { (b : List ℕ) → Holds (D.disk depot.old) b → IsBytes b → Supported b
        → AreRow b (inside_at (movie_of b)) atoms.now (atoms_in (movie_of b).movie).chunks
        → CarriesEdit b (changed_by (raw_items_of changes.now)) result }
    ensures reads { ReadsOnly (D.disk depot.old) (D.disk depot.new) }
    ensures cause { result ≡ Err PlanFault.Depot → Rose (D.disk depot.old).faults (D.disk depot.new).faults }
{
    let Ok(users) = user_changes(alloc, changes) else {
        return Err(PlanFault::Memory);
    };
    let Ok(keys) = key_changes(alloc, changes) else {
        return Err(PlanFault::Memory);
    };
    match carriers(alloc, depot, atoms, end, &users, &keys) {
        Err(CarryFault::TooLarge { size }) => Err(PlanFault::TooLarge {
            size,
            limit: MOST_BYTES,
        }),
        Err(CarryFault::Depot) => Err(PlanFault::Depot),
        Err(CarryFault::Memory) => Err(PlanFault::Memory),
        Ok(carries) => Ok(carries),
    }
}
