// The plan of an edit of a movie.
ghost use Rattle.std.specs.Prelude.{◌≡◌, ◌≢◌, ◌≤◌, ◌<◌, ◌+◌, ◌++◌, ◌^◌, true, false, ℕ, List, length, map, None, Err, IfOk, IfSome, sum_by};
ghost use Rattle.std.specs.List.{AllByRecursion, flat_map};
ghost use Rattle.me_bytes.specs.Bytes.{IsBytes};
ghost use Rattle.me_disk.specs.Causes.{Rose};
ghost use Rattle.me_disk.specs.Holds.{Holds, Inside};
ghost use Rattle.me_disk.specs.Steps.{ReadsOnly};
ghost use Rattle.part_tree.specs.Large.{first_above};
ghost use Rattle.part_tree.specs.Plans.{Belongs, CanRun, applied};
ghost use Rattle.part_tree.specs.declared.field.EditItem.{EditItem};
ghost use Rattle.container_model.specs.Splice.{splice};
ghost use Rattle.field_model.specs.KindReads.{IsPlanOf, PlansKind};
ghost use Rattle.mov_model.specs.After.{widens as widens_by};
ghost use Rattle.mov_model.specs.Edited.{changes};
ghost use Rattle.mov_model.specs.Kind.{mov_kind};
ghost use Rattle.mov_model.specs.Movie.{movie_of};
ghost use Rattle.unit_plan.specs.Cuts.{FitsIn, SpansAscend, patch_of};
ghost use Rattle.unit_plan.specs.Planned.{IsRewrite};
ghost use Rattle.unit_plan.specs.Planned as units;
ghost use Rattle.unit_plan.specs.Sized.{spliced_len};
ghost use Rattle.mov_plan.specs.Edits.{edited_cells};
ghost use Rattle.mov_plan.specs.Frame.{IsMoovOf, IsSoundMoov, size_cuts};
ghost use Rattle.mov_plan.specs.Holders.{grown_by};
ghost use Rattle.mov_plan.specs.Made.{IsKept, IsNamed};
ghost use Rattle.mov_plan.specs.Moved.{GoBetween};
ghost use Rattle.mov_plan.specs.Places.{Follow, shape_in};
ghost use Rattle.mov_plan.specs.Planned.{AreHolders, AreTables, IsCarried, IsKnown, IsSized, StandsIn, passed, sizes_in};
ghost use Rattle.mov_plan.specs.Shapes.{shapes};
ghost use Rattle.mov_plan.specs.Tables.{merged};

use crate::frame::{MoovAt, size_cut};
use crate::holders::{growth, widened_cuts};
use crate::moves::moves_between;
use crate::named::all_named;
use crate::place::Place;
use crate::row::{Units, unit_cuts};
use crate::spread::moves_widened;
use crate::tables::{TableAt, segments_with};
use me_disk::Depot;
use part_tree::{Moves, NoMemory, Plan, PlanFault};
use qt_atoms::AtomAt;
use std::alloc::Global;
use unit_plan::{CutAt, in_place, new_len};

const MOST_PARTS: u64 = 65_536;

const MOST_MOOV: u64 = 67_108_864;

const MOST_LEN: u64 = 9_223_372_036_854_775_807;

/// A size that passes its limit.
#[derive(Clone, Copy, Debug, PartialEq, Eq)]
pub struct Passed {
    pub size: u64,
    pub limit: u64,
}

/// What an edit comes to: how many atoms there are then, and how many bytes the body of `moov`, `moov` and the file have.
#[derive(Clone, Copy, Debug, PartialEq, Eq)]
pub struct Sizes {
    pub parts: u64,
    pub body: u64,
    pub moov: u64,
    pub len: u64,
}

// The first of these that passes its limit: the atoms, `moov`, and the file.
fn first_passed(sizes: &Sizes) -> Option<Passed>
    ensures { passed result ≡ first_above (sizes_in sizes.now) }
{
    if sizes.parts > MOST_PARTS {
        return Some(Passed {
            size: sizes.parts,
            limit: MOST_PARTS,
        });
    }
    if sizes.moov > MOST_MOOV {
        return Some(Passed {
            size: sizes.moov,
            limit: MOST_MOOV,
        });
    }
    if sizes.len > MOST_LEN {
        return Some(Passed {
            size: sizes.len,
            limit: MOST_LEN,
        });
    }
    None
}

// What an edit comes to, where its tables grow by so many bytes. None where 64 bits don't hold a number.
fn sizes_of(moov: &MoovAt, units: &Units, grown: u64) -> Option<Sizes>
    requires ascend { SpansAscend 0 units.now.cuts.items moov.now.len }
    requires order { moov.now.at ≤ moov.now.from }
    ensures { IfSome result (λ s. IsSized moov.now units.now grown s) }
{
    let Some(len) = new_len(&units.cuts, moov.len) else {
        return None;
    };
    let (Some(parts), Some(inner), Some(len)) = (
        moov.others.checked_add(units.parts),
        units.inner.checked_add(moov.left),
        len.checked_add(grown),
    ) else {
        return None;
    };
    let Some(body) = inner.checked_add(grown) else {
        return None;
    };
    let Some(whole) = body.checked_add(moov.from - moov.at) else {
        return None;
    };
    Some(Sizes {
        parts,
        body,
        moov: whole,
        len,
    })
}

// Spans with the one of the size of `moov` before them, where it changes.
fn framed(
    alloc: Global,
    moov: &MoovAt,
    size: u64,
    units: Vec<CutAt>,
) -> Result<Vec<CutAt>, NoMemory>
    requires order { moov.now.from ≤ moov.now.end }
    requires small { moov.now.end + moov.now.left < 2 ^ 63 }
    requires at { moov.now.at ≤ moov.now.end }
    requires few { size ≤ 2 ^ 26 }
    ensures { IfOk result (λ cuts. cuts.items ≡ size_cuts moov.now size ++ units.items) }
{
    let mut cuts = units;
    match size_cut(alloc, moov, size)? {
        None => Ok(cuts),
        Some(cut) => {
            match cuts.insert(0, cut) {
                Err(_) => return Err(NoMemory),
                Ok(()) => {}
            }
            Ok(cuts)
        }
    }
}

// A new file of so many bytes, of which spans are replaced, with its tables anew between them, where these can name the new places.
fn rewrite(
    alloc: Global,
    cuts: &[CutAt],
    tables: &[TableAt],
    moves: Moves,
    widened: bool,
    len: u64,
    new_len: u64,
) -> Result<Plan, NoMemory>
    requires kept { AllByRecursion IsKept cuts.now }
    requires old_small { len < 2 ^ 63 }
    requires new_small { new_len < 2 ^ 63 }
    ensures can { IfOk result (λ p. CanRun p) }
    ensures belongs { (b : List ℕ) → length b ≡ len → AllByRecursion (IsNamed widened moves b) tables.now
        → IfOk result (λ p. Belongs p b) }
    ensures applied { (b : List ℕ) → length b ≡ len
        → IfOk result (λ p. applied p b ≡ splice b (merged widened moves b cuts.now tables.now)) }
    ensures form { IfOk result (λ p. IsRewrite new_len p) }
{
    let segments = segments_with(alloc, cuts, tables, widened, len, new_len)?;
    Ok(Plan::Rewrite {
        new_len,
        moves,
        segments,
    })
}

// The plan that replaces spans, in which each table keeps its width: in place where the spans fit there and a journal holds their
// patches, and else a new file.
fn plan_cuts(
    alloc: Global,
    cuts: &[CutAt],
    fits: bool,
    tables: &[TableAt],
    moves: Moves,
    len: u64,
    new_len: u64,
) -> Result<Plan, NoMemory>
    requires ascend { SpansAscend 0 cuts.now len }
    requires fit { fits ≡ true → FitsIn len cuts.now }
    requires new { new_len ≡ spliced_len len cuts.now }
    requires old_small { len < 2 ^ 63 }
    requires new_small { new_len < 2 ^ 63 }
    ensures can { IfOk result (λ p. CanRun p) }
    ensures belongs { (b : List ℕ) → length b ≡ len → AllByRecursion (IsNamed false moves b) tables.now
        → IfOk result (λ p. Belongs p b) }
    ensures applied { (b : List ℕ) → length b ≡ len
        → IfOk result (λ p. IsRewrite new_len p → applied p b ≡ splice b (merged false moves b cuts.now tables.now)) }
    ensures form { IfOk result (λ p. units.IsPlanOf fits len new_len (flat_map patch_of cuts.now) p) }
{
    if !fits {
        return rewrite(alloc, cuts, tables, moves, false, len, new_len);
    }
    match in_place(alloc, cuts, len, new_len)? {
        None => rewrite(alloc, cuts, tables, moves, false, len, new_len),
        Some(patches) => Ok(Plan::InPlace {
            old_len: len,
            new_len,
            patches,
        }),
    }
}

// The plan of an edit in which each table keeps its width, by what its units come to and sizes that pass no limit.
fn plan_sized(
    alloc: Global,
    moov: &MoovAt,
    tables: &[TableAt],
    units: Units,
    moves: Moves,
    sizes: &Sizes,
) -> Result<Plan, NoMemory>
    requires sound { IsSoundMoov moov.now }
    requires stands { StandsIn moov.now units }
    requires moves { GoBetween moov.now.len units.cuts.items moves }
    requires sized { IsSized moov.now units 0 sizes.now }
    requires fit { first_above (sizes_in sizes.now) ≡ None }
    ensures plans { (b : List ℕ) (e : List EditItem) → IsKnown b e moov.now tables.now units → widens_by b e ≡ false
        → AllByRecursion (IsNamed false moves b) tables.now → IfOk result (λ p. IsPlanOf mov_kind b e p) }
    ensures can { IfOk result (λ p. CanRun p) }
    ensures belongs { (b : List ℕ) → length b ≡ moov.now.len → AllByRecursion (IsNamed false moves b) tables.now
        → IfOk result (λ p. Belongs p b) }
{
    let Units {
        cuts,
        fits,
        parts: _,
        inner: _,
    } = units;
    let cuts = framed(alloc, moov, sizes.body, cuts)?;
    plan_cuts(alloc, &cuts, fits, tables, moves, moov.len, sizes.len)
}

// The plan of an edit in which each table keeps its width, by what its units come to. `TooLarge` is the first of these that passes
// its limit: the atoms, `moov`, and the file.
fn plan_narrow(
    alloc: Global,
    moov: &MoovAt,
    tables: &[TableAt],
    units: Units,
    moves: Moves,
) -> Result<Plan, PlanFault>
    requires sound { IsSoundMoov moov.now }
    requires stands { StandsIn moov.now units }
    requires moves { GoBetween moov.now.len units.cuts.items moves }
    ensures plans { (b : List ℕ) (e : List EditItem) → IsKnown b e moov.now tables.now units → widens_by b e ≡ false
        → AllByRecursion (IsNamed false moves b) tables.now → PlansKind mov_kind b e result }
    ensures can { IfOk result (λ p. CanRun p) }
    ensures belongs { (b : List ℕ) → length b ≡ moov.now.len → AllByRecursion (IsNamed false moves b) tables.now
        → IfOk result (λ p. Belongs p b) }
    ensures cause { result ≢ Err PlanFault.Depot }
{
    let Some(sizes) = sizes_of(moov, &units, 0) else {
        return Err(PlanFault::Memory);
    };
    match first_passed(&sizes) {
        Some(Passed { size, limit }) => return Err(PlanFault::TooLarge { size, limit }),
        None => {}
    }
    match plan_sized(alloc, moov, tables, units, moves, &sizes) {
        Err(_) => Err(PlanFault::Memory),
        Ok(plan) => Ok(plan),
    }
}

// What a plan lacks: its depot failed, or there was no memory.
#[derive(Clone, Copy, Debug, PartialEq, Eq)]
enum Want {
    Depot,
    Memory,
}

// The plan of an edit in which tables are widened, by what its units come to and sizes that pass no limit: a new file.
fn plan_grown<D: Depot>(
    alloc: Global,
    depot: &mut D,
    moov: &MoovAt,
    tables: &[TableAt],
    holders: &[AtomAt],
    units: Units,
    sizes: &Sizes,
) -> Result<Plan, Want>
    requires sound { IsSoundMoov moov.now }
    requires stands { StandsIn moov.now units }
    requires sized { IsSized moov.now units (sum_by grown_by tables.now) sizes.now }
    requires fit { first_above (sizes_in sizes.now) ≡ None }
    requires inside { Inside moov.now.len (D.disk depot.old) }
    ensures plans { (b : List ℕ) (e : List EditItem) → Holds (D.disk depot.old) b
        → IsKnown b e moov.now tables.now units → AreHolders b holders.now → widens_by b e ≡ true
        → IfOk result (λ p. IsPlanOf mov_kind b e p) }
    ensures can { IfOk result (λ p. CanRun p) }
    ensures belongs { (b : List ℕ) → Holds (D.disk depot.old) b → length b ≡ moov.now.len
        → IfOk result (λ p. Belongs p b) }
    ensures reads { ReadsOnly (D.disk depot.old) (D.disk depot.new) }
    ensures cause { result ≡ Err Want.Depot → Rose (D.disk depot.old).faults (D.disk depot.new).faults }
{
    let Ok(cuts) = widened_cuts(alloc, holders, tables, units.cuts) else {
        return Err(Want::Memory);
    };
    let Ok(moves) = moves_widened(alloc, &cuts, tables, moov.len) else {
        return Err(Want::Memory);
    };
    let Ok(all) = framed(alloc, moov, sizes.body, cuts) else {
        return Err(Want::Memory);
    };
    let Ok(named) = all_named(depot, &moves, tables, true, moov.len) else {
        return Err(Want::Depot);
    };
    if !named {
        return Err(Want::Memory);
    }
    match rewrite(alloc, &all, tables, moves, true, moov.len, sizes.len) {
        Err(_) => Err(Want::Memory),
        Ok(plan) => Ok(plan),
    }
}

// The plan of an edit in which tables are widened, by what its units come to. `TooLarge` is the first of these that passes its
// limit: the atoms, `moov`, and the file.
fn plan_wide<D: Depot>(
    alloc: Global,
    depot: &mut D,
    moov: &MoovAt,
    tables: &[TableAt],
    holders: &[AtomAt],
    units: Units,
) -> Result<Plan, PlanFault>
    requires sound { IsSoundMoov moov.now }
    requires stands { StandsIn moov.now units }
    requires inside { Inside moov.now.len (D.disk depot.old) }
    ensures plans { (b : List ℕ) (e : List EditItem) → Holds (D.disk depot.old) b
        → IsKnown b e moov.now tables.now units → AreHolders b holders.now → widens_by b e ≡ true
        → PlansKind mov_kind b e result }
    ensures can { IfOk result (λ p. CanRun p) }
    ensures belongs { (b : List ℕ) → Holds (D.disk depot.old) b → length b ≡ moov.now.len
        → IfOk result (λ p. Belongs p b) }
    ensures reads { ReadsOnly (D.disk depot.old) (D.disk depot.new) }
    ensures cause { result ≡ Err PlanFault.Depot → Rose (D.disk depot.old).faults (D.disk depot.new).faults }
{
    let Ok(grown) = growth(tables) else {
        return Err(PlanFault::Memory);
    };
    let Some(sizes) = sizes_of(moov, &units, grown) else {
        return Err(PlanFault::Memory);
    };
    match first_passed(&sizes) {
        Some(Passed { size, limit }) => return Err(PlanFault::TooLarge { size, limit }),
        None => {}
    }
    match plan_grown(alloc, depot, moov, tables, holders, units, &sizes) {
        Err(Want::Depot) => Err(PlanFault::Depot),
        Err(Want::Memory) => Err(PlanFault::Memory),
        Ok(plan) => Ok(plan),
    }
}

/// The plan of an edit of the atoms of `moov`, which have these places. It is told the tables of chunk places of all tracks in file
/// order, and in reading order the atoms that hold those of four bytes, these among them: where a place would pass four bytes, all
/// of them get eight. `TooLarge` is the first of these that passes its limit: the atoms, `moov`, and the file. `Depot` only where
/// the depot failed.
pub fn plan_movie<D: Depot>(
    alloc: Global,
    depot: &mut D,
    moov: &MoovAt,
    tables: &[TableAt],
    holders: &[AtomAt],
    places: &[Place],
) -> Result<Plan, PlanFault>
    requires sound { IsSoundMoov moov.now }
    requires inside { Inside moov.now.len (D.disk depot.old) }
    requires follow { Follow moov.now.from places.now moov.now.end }
    ensures plans { (b : List ℕ) (e : List EditItem) → Holds (D.disk depot.old) b → IsBytes b
        → IsMoovOf b moov.now → AreTables b tables.now → AreHolders b holders.now
        → map (shape_in b) places.now ≡ shapes false (edited_cells (movie_of b) (changes b e)) → IsCarried b e
        → PlansKind mov_kind b e result }
    ensures can { IfOk result (λ p. CanRun p) }
    ensures belongs { (b : List ℕ) → Holds (D.disk depot.old) b → length b ≡ moov.now.len
        → IfOk result (λ p. Belongs p b) }
    ensures reads { ReadsOnly (D.disk depot.old) (D.disk depot.new) }
    ensures cause { result ≡ Err PlanFault.Depot → Rose (D.disk depot.old).faults (D.disk depot.new).faults }
{
    let Ok(units) = unit_cuts(alloc, places, moov.from, moov.end, moov.behind) else {
        return Err(PlanFault::Memory);
    };
    let Ok(moves) = moves_between(alloc, &units.cuts, moov.len) else {
        return Err(PlanFault::Memory);
    };
    let named = match all_named(depot, &moves, tables, false, moov.len) {
        Err(_) => return Err(PlanFault::Depot),
        Ok(named) => named,
    };
    if named {
        return plan_narrow(alloc, moov, tables, units, moves);
    }
    plan_wide(alloc, depot, moov, tables, holders, units)
}
