// The plan of an edit of an AVI file.
ghost use Rattle.std.specs.Prelude.{◌≡◌, ◌++◌, ◌-◌, ◌^◌, ℕ, List, IfOk, OnOk, length, min};
ghost use Rattle.me_bytes.specs.Bytes.{IsBytes};
ghost use Rattle.me_disk.specs.Causes.{Rose};
ghost use Rattle.me_disk.specs.Holds.{Holds, Inside};
ghost use Rattle.me_disk.specs.Steps.{ReadsOnly};
ghost use Rattle.part_tree.specs.Fields.{values};
ghost use Rattle.part_tree.specs.Plans.{Belongs, CanRun};
ghost use Rattle.part_tree.specs.declared.names.Kind.TheVariants.{Avi};
ghost use Rattle.field_model.specs.KindReads.{PlansKind};
ghost use Rattle.bext_fields.specs.Change.{raw_items_of};
ghost use Rattle.avi_file.specs.Map.{IsMapOf, IsSound};
ghost use Rattle.avi_model.specs.After.{name_item};
ghost use Rattle.avi_model.specs.Kind.{avi_kind};
ghost use Rattle.avi_plan.specs.NamesAt.{AreNames, StandNames};
ghost use Rattle.avi_plan.specs.Streams.{told};
ghost use Rattle.edit_planner.specs.Avi.{SoundForm, TellsForm};
ghost use Rattle.edit_planner.specs.AviPlaces.{NeverTooLarge, names_in, no_place};
ghost use Rattle.edit_planner.specs.Plan.{IsReady};

use crate::avi::{AviForm, avi_places, read_form};
use crate::lists::raw_of;
use crate::load::LoadFault;
use crate::tables::tables_of;
use crate::wave::PlaceFault;
use avi_file::AviMap;
use avi_names::NamesFault;
use avi_plan::{NamesAt, StreamName, name_spans, plan_row};
use bext_fields::RawChange;
use core_edit::{Edit, raw_changes};
use me_disk::Depot;
use part_tree::{FieldName, NoMemory, Plan, PlanFault};
use std::alloc::Global;

const MOST_BYTES: u64 = 16_777_216;

// Appends a change where it is of a stream's name.
fn put_name(names: &mut Vec<StreamName>, alloc: Global, change: &RawChange) -> Result<(), NoMemory>
    ensures { OnOk result (told names.new.items ≡ told names.old.items ++ name_item change.now.name change.now.value) }
{
    let FieldName::Stream(stream) = &change.name else {
        return Ok(());
    };
    let body = raw_of(alloc, &change.value)?;
    match names.push(StreamName {
        stream: *stream,
        body,
    }) {
        Err(_) => Err(NoMemory),
        Ok(()) => Ok(()),
    }
}

// The changes of the names of streams.
fn name_changes(alloc: Global, changes: &[RawChange]) -> Result<Vec<StreamName>, NoMemory>
    ensures { IfOk result (λ names. told names.items ≡ names_in (raw_items_of changes.now)) }
{
    let mut names = Vec::new(alloc);
    'changes: for change in changes {
        put_name(&mut names, alloc, change)?;
    }
    Ok(names)
}

// Why an edit has no plan, where it has no places.
fn placeless(fault: PlaceFault) -> PlanFault
    ensures { result ≡ no_place fault }
{
    match fault {
        PlaceFault::TooLarge { size } => PlanFault::TooLarge {
            size,
            limit: MOST_BYTES,
        },
        PlaceFault::Depot => PlanFault::Depot,
        PlaceFault::Memory => PlanFault::Memory,
    }
}

// The spans of the changes of streams' names.
fn named<D: Depot>(
    alloc: Global,
    depot: &mut D,
    avi: &AviMap,
    form: &AviForm,
    changes: &[RawChange],
) -> Result<NamesAt, PlanFault>
    requires mapped { (b : List ℕ) → Holds (D.disk depot.old) b → IsMapOf b avi.now }
    requires tells { (b : List ℕ) → Holds (D.disk depot.old) b → TellsForm b form.now }
    requires sound { SoundForm form.now }
    requires inside { Inside form.now.form.len (D.disk depot.old) }
    ensures names { (b : List ℕ) → Holds (D.disk depot.old) b → IsBytes b
        → IfOk result (λ n. AreNames b (names_in (raw_items_of changes.now)) n) }
    ensures stand { IfOk result (λ n. StandNames form.now.form.len n) }
    ensures fault { NeverTooLarge result }
    ensures reads { ReadsOnly (D.disk depot.old) (D.disk depot.new) }
    ensures cause { result ≡ Err PlanFault.Depot → Rose (D.disk depot.old).faults (D.disk depot.new).faults }
{
    let names = match name_changes(alloc, changes) {
        Err(_) => return Err(PlanFault::Memory),
        Ok(names) => names,
    };
    match name_spans(
        alloc,
        depot,
        &form.form,
        form.head.body,
        &avi.streams,
        &names,
    ) {
        Err(NamesFault::Depot) => Err(PlanFault::Depot),
        Err(NamesFault::Memory) => Err(PlanFault::Memory),
        Ok(spans) => Ok(spans),
    }
}

/// The plan of an edit of an AVI file whose map this is, where each item has an effect on the fields of the map and they break no
/// basic rule. In place exactly where the edit has room there, and else a new file with every index moved. `TooLarge` is the first
/// size of the new file that passes its limit; `Depot` only where the count of the depot's faults rose.
pub fn plan_avi<D: Depot>(
    alloc: Global,
    depot: &mut D,
    avi: &AviMap,
    edit: &Edit,
) -> Result<Plan, PlanFault>
    requires mapped { (b : List ℕ) → Holds (D.disk depot.old) b → IsMapOf b avi.now }
    requires sound { IsSound avi.now }
    requires ready { IsReady Avi (min (length avi.now.streams.items) (2 ^ 32 - 1)) (values avi.now.fields) edit.now }
    ensures plans { (b : List ℕ) → Holds (D.disk depot.old) b → IsBytes b → PlansKind avi_kind b edit.now result }
    ensures can { IfOk result (λ p. CanRun p) }
    ensures belongs { (b : List ℕ) → Holds (D.disk depot.old) b → IfOk result (λ p. Belongs p b) }
    ensures reads { ReadsOnly (D.disk depot.old) (D.disk depot.new) }
    ensures cause { result ≡ Err PlanFault.Depot → Rose (D.disk depot.old).faults (D.disk depot.new).faults }
{
    let changes = match raw_changes(alloc, edit) {
        Err(_) => return Err(PlanFault::Memory),
        Ok(changes) => changes,
    };
    let form = match read_form(alloc, depot, avi) {
        Err(LoadFault::Depot) => return Err(PlanFault::Depot),
        Err(LoadFault::Memory) => return Err(PlanFault::Memory),
        Ok(form) => form,
    };
    let names = match named(alloc, depot, avi, &form, &changes) {
        Err(fault) => return Err(fault),
        Ok(names) => names,
    };
    let places = match avi_places(alloc, depot, &form, names.lacks_pad, &changes) {
        Err(fault) => return Err(placeless(fault)),
        Ok(places) => places,
    };
    let tables = match tables_of(alloc, avi) {
        Err(_) => return Err(PlanFault::Memory),
        Ok(tables) => tables,
    };
    plan_row(alloc, depot, &form.form, names, &tables, &places, form.end)
}
