// The plan of an edit, from the map of a file.
ghost use Rattle.std.specs.Prelude.{◌≡◌, ℕ, List, None, IfOk};
ghost use Rattle.me_bytes.specs.Bytes.{IsBytes};
ghost use Rattle.me_disk.specs.Causes.{Rose};
ghost use Rattle.me_disk.specs.Steps.{ReadsOnly};
ghost use Rattle.me_disk.specs.Holds.{Holds};
ghost use Rattle.part_tree.specs.Fields.{values};
ghost use Rattle.field_model.specs.KindFacts.{is_wave};
ghost use Rattle.field_model.specs.KindReads.{PlansKind};
ghost use Rattle.part_tree.specs.Plans.{Belongs, CanRun};
ghost use Rattle.wave_file.specs.Map.{IsMapOf, IsSound};
ghost use Rattle.wave_plan.specs.Frame.{IsFormOf, IsSoundForm};
ghost use Rattle.wave_model.specs.Kind.{wave_kind};
ghost use Rattle.wave_plan.specs.Widened.{FitsReserved};
ghost use Rattle.edit_planner.specs.Kinds.{model_in};
ghost use Rattle.edit_planner.specs.Plan.{IsReady, Maps, SoundMap, fields_in, kind_in, reserved_in, streams_in, widening_in};

use crate::avi_plans::plan_avi;
use crate::movie::plan_mov;
use crate::wave::{PlaceFault, places_of};
use avi_file::AviMap;
use core_edit::{Edit, raw_changes};
use me_disk::Depot;
use mov_file::MovMap;
use part_tree::{Kind, Part, Plan, PlanFault};
use std::alloc::Global;
use wave_file::WaveMap;
use wave_plan::{FormAt, Widening, plan_row};

const MOST_BYTES: u64 = 16_777_216;

const LEAST_DS64: u64 = 28;

/// The map of a file.
#[derive(Debug, Drop)]
pub enum FileMap {
    Wave(WaveMap),
    Avi(AviMap),
    Mov(MovMap),
}

// Whether a kind is of type WAVE.
fn is_wave(kind: Kind) -> bool
    ensures { result ≡ is_wave kind }
{
    match kind {
        Kind::Wave | Kind::Rf64 | Kind::Bw64 => true,
        _ => false,
    }
}

// Where the form stands that a map tells.
fn form_of(wave: &WaveMap) -> FormAt
    ensures form { (b : List ℕ) → IsMapOf b wave.now → IsFormOf b result }
    ensures sound { IsSound wave.now → IsSoundForm result }
    ensures end { result.end ≡ wave.now.form_end }
{
    FormAt {
        big: wave.ds64.is_some(),
        len: wave.len,
        end: wave.form_end,
    }
}

// The bytes in the body of the `JUNK` that is reserved for `ds64`, directly behind the form's type.
fn reserved_of(parts: &[Part]) -> Option<u64>
    ensures reserved { result ≡ reserved_in parts.now }
    ensures fits { FitsReserved result }
{
    if parts.is_empty() {
        return None;
    }
    let len = parts[0].body.len;
    if parts[0].id.is(b"JUNK") && (LEAST_DS64 <= len && len <= MOST_BYTES) {
        Some(len)
    } else {
        None
    }
}

// What a form that becomes RF64 tells in its `ds64`.
fn widening_of(wave: &WaveMap) -> Widening
    ensures widening { result ≡ widening_in wave.now }
    ensures fits { FitsReserved result.reserved }
{
    Widening {
        reserved: reserved_of(&wave.parts),
        sound: wave.sound,
        align: wave.align,
    }
}

/// The plan of an edit of the file in the depot, whose map this is. Each item has an effect on the fields of the map,
/// and they break no basic rule. In place exactly where the edit has room there, and else a new file; a RIFF form that
/// grows past 32 bits becomes RF64. `TooLarge` is the first size of the new file that passes its limit; `Depot` only
/// where the count of the depot's faults rose.
pub fn plan<D: Depot>(
    alloc: Global,
    depot: &mut D,
    file: &FileMap,
    edit: &Edit,
) -> Result<Plan, PlanFault>
    requires mapped { (b : List ℕ) → Holds (D.disk depot.old) b → Maps b file.now }
    requires sound { SoundMap file.now }
    requires ready { IsReady (kind_in file.now) (streams_in file.now) (fields_in file.now) edit.now }
    ensures plans { (b : List ℕ) → Holds (D.disk depot.old) b → IsBytes b → PlansKind (model_in b) b edit.now result }
    ensures can { IfOk result (λ p. CanRun p) }
    ensures belongs { (b : List ℕ) → Holds (D.disk depot.old) b → IfOk result (λ p. Belongs p b) }
    ensures reads { ReadsOnly (D.disk depot.old) (D.disk depot.new) }
    ensures cause { result ≡ Err PlanFault.Depot → Rose (D.disk depot.old).faults (D.disk depot.new).faults }
{
    match file {
        FileMap::Wave(wave) => plan_wave(alloc, depot, wave, edit),
        FileMap::Avi(avi) => plan_avi(alloc, depot, avi, edit),
        FileMap::Mov(map) => plan_mov(alloc, depot, map, edit),
    }
}

// The same of a WAVE or RF64 file. A map of another kind is of no such file.
fn plan_wave<D: Depot>(
    alloc: Global,
    depot: &mut D,
    wave: &WaveMap,
    edit: &Edit,
) -> Result<Plan, PlanFault>
    requires mapped { (b : List ℕ) → Holds (D.disk depot.old) b → IsMapOf b wave.now }
    requires sound { IsSound wave.now }
    requires ready { IsReady wave.now.kind 0 (values wave.now.fields) edit.now }
    ensures plans { (b : List ℕ) → Holds (D.disk depot.old) b → IsBytes b → PlansKind wave_kind b edit.now result }
    ensures can { IfOk result (λ p. CanRun p) }
    ensures belongs { (b : List ℕ) → Holds (D.disk depot.old) b → IfOk result (λ p. Belongs p b) }
    ensures reads { ReadsOnly (D.disk depot.old) (D.disk depot.new) }
    ensures cause { result ≡ Err PlanFault.Depot → Rose (D.disk depot.old).faults (D.disk depot.new).faults }
{
    if !is_wave(wave.kind) {
        return Err(PlanFault::Memory);
    }
    let changes = match raw_changes(alloc, edit) {
        Err(_) => return Err(PlanFault::Memory),
        Ok(changes) => changes,
    };
    let row = match places_of(alloc, depot, wave, &changes) {
        Err(PlaceFault::TooLarge { size }) => {
            return Err(PlanFault::TooLarge {
                size,
                limit: MOST_BYTES,
            });
        }
        Err(PlaceFault::Depot) => return Err(PlanFault::Depot),
        Err(PlaceFault::Memory) => return Err(PlanFault::Memory),
        Ok(row) => row,
    };
    let form = form_of(wave);
    let widening = widening_of(wave);
    let plan = match plan_row(
        alloc,
        depot,
        form,
        &widening,
        &row.places,
        row.from,
        row.end,
    ) {
        Err(fault) => return Err(fault),
        Ok(plan) => plan,
    };
    Ok(plan)
}
