// The units of a row of places.
ghost use Rattle.std.specs.Prelude.{◌≡◌, ◌≤◌, ◌<◌, ◌^◌, ◌&&◌, ◌++◌, ◌∷◌, [], ℕ, List, length, map, IfOk, OnOk, Bool, true, false, not};
ghost use Rattle.unit_plan.specs.Shapes.{Shape};
ghost use Rattle.unit_plan.specs.Places.{Follow, shape_in};
ghost use Rattle.unit_plan.specs.Rows.{both, closed, counts, no_more, none, row};
ghost use Rattle.unit_plan.specs.Cuts.{BeginsBefore, FitsIn, IsSoFar, SpansAscend, filled_in, open_in, open_start, outcome_in};

use crate::cut::CutAt;
use crate::place::{Place, What};
use crate::unit::{FilledUnit, OpenUnit, begin_unit, change_unit, fill_unit};
use part_tree::NoMemory;
use std::alloc::Global;

/// What the units of a row come to: the spans that are replaced, whether each unit fits its slot in place, and how many parts
/// the row has then.
#[derive(Debug, Drop)]
pub struct UnitCuts {
    pub cuts: Vec<CutAt>,
    pub fits: bool,
    pub parts: u64,
}

impl UnitCuts {
    // So many parts more. No memory holds as many as 64 bits don't count.
    fn count(&mut self, parts: u64) -> Result<(), NoMemory>
        ensures outcome { OnOk result ((b : List ℕ)
            → outcome_in b self.new ≡ both (outcome_in b self.old) (counts parts)) }
        ensures cuts { self.new.cuts ≡ self.old.cuts }
        ensures fits { self.new.fits ≡ self.old.fits }
    {
        match self.parts.checked_add(parts) {
            None => Err(NoMemory),
            Some(sum) => {
                self.parts = sum;
                Ok(())
            }
        }
    }

    // One unit more.
    fn add(&mut self, unit: FilledUnit) -> Result<(), NoMemory>
        ensures outcome { OnOk result ((b : List ℕ)
            → outcome_in b self.new ≡ both (outcome_in b self.old) (filled_in b unit)) }
        ensures cuts { OnOk result (self.new.cuts.items ≡ self.old.cuts.items ++ unit.cut ∷ []) }
        ensures fits { OnOk result (self.new.fits ≡ (self.old.fits && unit.fits)) }
    {
        let FilledUnit { cut, fits, parts } = unit;
        self.count(parts)?;
        self.fits = self.fits & fits;
        match self.cuts.push(cut) {
            Err(_) => Err(NoMemory),
            Ok(()) => Ok(()),
        }
    }

    // A unit ends at a place, by whether its slot ends the file.
    fn close(&mut self, unit: Option<OpenUnit>, end: u64, ends: bool) -> Result<(), NoMemory>
        requires order { BeginsBefore unit end }
        requires small { end < 2 ^ 63 }
        ensures outcome { OnOk result ((b : List ℕ) (file last : Bool) → end ≤ length b → (file && last) ≡ ends
            → outcome_in b self.new ≡ both (outcome_in b self.old) (closed file last (open_in b end unit))) }
        ensures so_far { OnOk result ((from : ℕ) → IsSoFar from self.old (open_start unit end) → ends ≡ false
            → IsSoFar from self.new end) }
        ensures ascend { OnOk result ((from : ℕ) → IsSoFar from self.old (open_start unit end)
            → SpansAscend from self.new.cuts.items end) }
        ensures fits { OnOk result ((from len : ℕ) → IsSoFar from self.old (open_start unit end)
            → (ends ≡ true → end ≡ len) → self.new.fits ≡ true → FitsIn len self.new.cuts.items) }
    {
        match unit {
            None => Ok(()),
            Some(unit) => {
                let filled = fill_unit(unit, end, ends)?;
                self.add(filled)?;
                Ok(())
            }
        }
    }

    // One place more, by whether others follow it.
    fn step(
        &mut self,
        alloc: Global,
        unit: Option<OpenUnit>,
        place: &Place,
        more: bool,
    ) -> Result<Option<OpenUnit>, NoMemory>
        requires order { BeginsBefore unit place.now.at }
        requires forth { place.now.at ≤ place.now.next }
        requires small { place.now.next < 2 ^ 63 }
        ensures before { IfOk result (λ o. BeginsBefore o place.now.next) }
        ensures row { IfOk result (λ o. (b : List ℕ) (ends : Bool) (xs : List Shape) → place.now.next ≤ length b
            → not (no_more xs) ≡ more
            → both (outcome_in b self.old) (row ends place.now.at (open_in b place.now.at unit) (shape_in b place.now
            ∷ xs))
            ≡ both (outcome_in b self.new) (row ends place.now.next (open_in b place.now.next o) xs)) }
        ensures so_far { IfOk result (λ o. (from : ℕ) → IsSoFar from self.old (open_start unit place.now.at)
            → IsSoFar from self.new (open_start o place.now.next)) }
    {
        match &place.what {
            What::Stays => {
                self.close(unit, place.at, false)?;
                self.count(place.parts)?;
                let next = begin_unit(alloc, place.lacks_pad, more, place.next)?;
                Ok(next)
            }
            What::Pads => match unit {
                None => {
                    self.count(place.parts)?;
                    let next = begin_unit(alloc, place.lacks_pad, more, place.next)?;
                    Ok(next)
                }
                Some(unit) => Ok(Some(unit)),
            },
            What::Changes(now) => {
                self.count(place.parts)?;
                let unit = change_unit(alloc, unit, place.at, now)?;
                Ok(Some(unit))
            }
        }
    }
}

/// What the units of a row of places come to, which follow each other from `from` up to `end`; `ends` tells whether the row
/// ends the file.
pub fn unit_cuts(
    alloc: Global,
    places: &[Place],
    from: u64,
    end: u64,
    ends: bool,
) -> Result<UnitCuts, NoMemory>
    requires follow { Follow from places.now end }
    requires small { end < 2 ^ 63 }
    ensures outcome { IfOk result (λ u. (b : List ℕ) → end ≤ length b
        → outcome_in b u ≡ row ends from none (map (shape_in b) places.now)) }
    ensures ascend { IfOk result (λ u. SpansAscend from u.cuts.items end) }
    ensures fits { IfOk result (λ u. (len : ℕ) → (ends ≡ true → end ≡ len) → u.fits ≡ true → FitsIn len u.cuts.items) }
{
    let mut units = UnitCuts {
        cuts: Vec::new(alloc),
        fits: true,
        parts: 0,
    };
    let mut unit: Option<OpenUnit> = None;
    let mut at = from;
    let mut i = 0usize;
    while i < places.len() {
        let place = &places[i];
        unit = units.step(alloc, unit, place, i + 1 < places.len())?;
        at = place.next;
        i += 1;
    }
    units.close(unit, at, ends)?;
    Ok(units)
}
