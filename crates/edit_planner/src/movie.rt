// The plan of an edit of a movie, from its map.
ghost use Rattle.std.specs.Prelude.{◌≡◌, ◌≤◌, ◌<◌, ◌^◌, ℕ, List, length, IfOk};
ghost use Rattle.me_bytes.specs.Bytes.{IsBytes};
ghost use Rattle.me_disk.specs.Causes.{Rose};
ghost use Rattle.me_disk.specs.Holds.{Holds};
ghost use Rattle.me_disk.specs.Steps.{ReadsOnly};
ghost use Rattle.part_tree.specs.Fields.{values};
ghost use Rattle.part_tree.specs.Plans.{Belongs, CanRun};
ghost use Rattle.part_tree.specs.declared.field.EditItem.{EditItem};
ghost use Rattle.part_tree.specs.declared.names.Kind.TheVariants as kinds;
ghost use Rattle.field_model.specs.KindReads.{PlansKind};
ghost use Rattle.container_model.specs.Atoms.{atoms_in};
ghost use Rattle.mov_file.specs.Map.{IsMapOf, IsSound};
ghost use Rattle.mov_model.specs.Edited.{changes as changed};
ghost use Rattle.mov_model.specs.Kind.{mov_kind};
ghost use Rattle.mov_model.specs.Movie.{movie_of};
ghost use Rattle.mov_model.specs.Reading.{inside_at};
ghost use Rattle.mov_plan.specs.Atoms.{AllFollow, AreRow};
ghost use Rattle.mov_plan.specs.Carry.{IsKeyStep, IsUserStep, cells_of};
ghost use Rattle.mov_plan.specs.Planned.{IsCarried};
ghost use Rattle.edit_planner.specs.Plan.{IsReady};
ghost use Rattle.edit_planner.specs.Movie.{IsLaid, StandLaid};

use crate::atoms::{end_of, places_with};
use crate::carried::carried;
use crate::moov::moov_at;
use core_edit::{Edit, raw_changes};
use me_disk::Depot;
use mov_file::MovMap;
use mov_plan::{
    AtomsFault, Carries, MoovAt, NestedFault, Place, TracksFault, atoms_of, carry_atoms, nested_of,
    plan_movie, tables_of,
};
use part_tree::{Plan, PlanFault};
use qt_atoms::AtomAt;
use std::alloc::Global;

// What a plan lacks: its depot failed, or there was no memory, or the depot gave other bytes than those that the map was made of.
#[derive(Clone, Copy, Debug, PartialEq, Eq)]
enum Want {
    Depot,
    Memory,
}

// A movie before an edit: where `moov` stands, the places of its atoms, and the atoms in which tables of chunk places stand.
#[derive(Debug, Drop)]
struct Laid {
    moov: MoovAt,
    places: Vec<Place>,
    holders: Vec<AtomAt>,
}

// The atoms of `moov`, one behind the other.
fn atoms_at<D: Depot>(alloc: Global, depot: &mut D, map: &MovMap) -> Result<Vec<AtomAt>, Want>
    requires mapped { (b : List ℕ) → Holds (D.disk depot.old) b → IsMapOf b map.now }
    requires sound { IsSound map.now }
    ensures row { (b : List ℕ) → Holds (D.disk depot.old) b
        → IfOk result (λ ks. AreRow b (inside_at (movie_of b)) ks.items (atoms_in (movie_of b).movie).chunks) }
    ensures follow { IfOk result (λ ks. AllFollow map.now.moov.body.at ks.items map.now.moov.next) }
    ensures reads { ReadsOnly (D.disk depot.old) (D.disk depot.new) }
    ensures cause { result ≡ Err Want.Depot → Rose (D.disk depot.old).faults (D.disk depot.new).faults }
{
    match atoms_of(alloc, depot, map.moov.body.at, map.moov.next) {
        Err(AtomsFault::Depot) => Err(Want::Depot),
        Err(AtomsFault::Torn | AtomsFault::Memory) => Err(Want::Memory),
        Ok(atoms) => Ok(atoms),
    }
}

// The movie before an edit, with these atoms of `moov`.
fn laid_out<D: Depot>(
    alloc: Global,
    depot: &mut D,
    map: &MovMap,
    atoms: &[AtomAt],
) -> Result<Laid, Want>
    requires mapped { (b : List ℕ) → Holds (D.disk depot.old) b → IsMapOf b map.now }
    requires sound { IsSound map.now }
    requires follow { AllFollow map.now.moov.body.at atoms.now map.now.moov.next }
    ensures laid { (b : List ℕ) → Holds (D.disk depot.old) b → IsBytes b
        → AreRow b (inside_at (movie_of b)) atoms.now (atoms_in (movie_of b).movie).chunks
        → IfOk result (IsLaid b) }
    ensures stand { IfOk result (StandLaid map.now.len) }
    ensures reads { ReadsOnly (D.disk depot.old) (D.disk depot.new) }
    ensures cause { result ≡ Err Want.Depot → Rose (D.disk depot.old).faults (D.disk depot.new).faults }
{
    let end = end_of(atoms, map.moov.body.at);
    let Some(moov) = moov_at(map, end) else {
        return Err(Want::Memory);
    };
    let nested = match nested_of(alloc, depot, atoms) {
        Err(NestedFault::Depot) => return Err(Want::Depot),
        Err(NestedFault::Memory) => return Err(Want::Memory),
        Ok(nested) => nested,
    };
    match places_with(alloc, atoms, &nested.counts) {
        Err(_) => Err(Want::Memory),
        Ok(places) => Ok(Laid {
            moov,
            places,
            holders: nested.holders,
        }),
    }
}

// The plan of an edit that makes these of the carriers in `moov`.
fn plan_laid<D: Depot>(
    alloc: Global,
    depot: &mut D,
    map: &MovMap,
    laid: Laid,
    carries: Carries,
) -> Result<Plan, PlanFault>
    requires mapped { (b : List ℕ) → Holds (D.disk depot.old) b → IsMapOf b map.now }
    requires sound { IsSound map.now }
    requires stand { StandLaid map.now.len laid }
    ensures plans { (b : List ℕ) (e : List EditItem) → Holds (D.disk depot.old) b → IsBytes b → IsLaid b laid
        → IsUserStep (changed b e).users carries.user (cells_of (movie_of b))
        → IsKeyStep (changed b e).keys carries.keys (cells_of (movie_of b)) → IsCarried b e
        → PlansKind mov_kind b e result }
    ensures can { IfOk result (λ p. CanRun p) }
    ensures belongs { (b : List ℕ) → Holds (D.disk depot.old) b → IfOk result (λ p. Belongs p b) }
    ensures reads { ReadsOnly (D.disk depot.old) (D.disk depot.new) }
    ensures cause { result ≡ Err PlanFault.Depot → Rose (D.disk depot.old).faults (D.disk depot.new).faults }
{
    let Laid {
        moov,
        places,
        holders,
    } = laid;
    let Carries { user, keys } = carries;
    let Ok(places) = carry_atoms(places, moov.from, user, keys) else {
        return Err(PlanFault::Memory);
    };
    let tables = match tables_of(alloc, depot, &map.tracks, map.len) {
        Err(TracksFault::Depot) => return Err(PlanFault::Depot),
        Err(TracksFault::Memory) => return Err(PlanFault::Memory),
        Ok(tables) => tables,
    };
    plan_movie(alloc, depot, &moov, &tables, &holders, &places)
}

/// The plan of an edit of a movie with this map. Each item has an effect on its fields, and they break no basic rule. `TooLarge` is
/// the first size of the new file that passes its limit; `Depot` only where the count of the depot's faults rose.
pub fn plan_mov<D: Depot>(
    alloc: Global,
    depot: &mut D,
    map: &MovMap,
    edit: &Edit,
) -> Result<Plan, PlanFault>
    requires mapped { (b : List ℕ) → Holds (D.disk depot.old) b → IsMapOf b map.now }
    requires sound { IsSound map.now }
    requires ready { IsReady kinds.Mov 0 (values map.now.fields) edit.now }
    ensures plans { (b : List ℕ) → Holds (D.disk depot.old) b → IsBytes b → PlansKind mov_kind b edit.now result }
    ensures can { IfOk result (λ p. CanRun p) }
    ensures belongs { (b : List ℕ) → Holds (D.disk depot.old) b → IfOk result (λ p. Belongs p b) }
    ensures reads { ReadsOnly (D.disk depot.old) (D.disk depot.new) }
    ensures cause { result ≡ Err PlanFault.Depot → Rose (D.disk depot.old).faults (D.disk depot.new).faults }
{
    let Ok(changes) = raw_changes(alloc, edit) else {
        return Err(PlanFault::Memory);
    };
    let atoms = match atoms_at(alloc, depot, map) {
        Err(Want::Depot) => return Err(PlanFault::Depot),
        Err(Want::Memory) => return Err(PlanFault::Memory),
        Ok(atoms) => atoms,
    };
    let carries = match carried(alloc, depot, &atoms, map.moov.next, &changes) {
        Err(fault) => return Err(fault),
        Ok(carries) => carries,
    };
    let laid = match laid_out(alloc, depot, map, &atoms) {
        Err(Want::Depot) => return Err(PlanFault::Depot),
        Err(Want::Memory) => return Err(PlanFault::Memory),
        Ok(laid) => laid,
    };
    plan_laid(alloc, depot, map, laid, carries)
}
