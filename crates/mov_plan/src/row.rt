// The units of the atoms of `moov`.
ghost use Rattle.std.specs.Prelude.{◌≡◌, ◌≤◌, ◌<◌, ◌+◌, ◌^◌, ◌&&◌, ◌++◌, ◌∷◌, [], ℕ, List, length, map, IfOk, OnOk, true, false};
ghost use Rattle.unit_plan.specs.Cuts.{FitsIn, SpansAscend};
ghost use Rattle.mov_plan.specs.Shapes.{Shape};
ghost use Rattle.mov_plan.specs.Rows.{Beyond, both, closed, counts, ended, none, row};
ghost use Rattle.mov_plan.specs.Places.{BeginsBefore, Follow, IsSoFar, beyond_in, filled_in, open_in, open_start, outcome_in, shape_in};

use crate::place::{Behind, Place};
use crate::unit::{FilledUnit, OpenUnit, change_unit, fill_unit};
use part_tree::NoMemory;
use std::alloc::Global;
use unit_plan::{CutAt, What};

/// What the units of the atoms of `moov` come to: the spans that are replaced, whether each unit fits its slot in place, how many
/// atoms are counted then in `moov` and as the padding behind it, and how many bytes of atoms stand in `moov`.
#[derive(Debug, Drop)]
pub struct Units {
    pub cuts: Vec<CutAt>,
    pub fits: bool,
    pub parts: u64,
    pub inner: u64,
}

impl Units {
    // So many atoms and bytes more. No memory holds as many as 64 bits don't count.
    fn count(&mut self, parts: u64, len: u64) -> Result<(), NoMemory>
        ensures outcome { OnOk result ((b : List ℕ)
            → outcome_in b self.new ≡ both (outcome_in b self.old) (counts parts len)) }
        ensures cuts { self.new.cuts ≡ self.old.cuts }
        ensures fits { self.new.fits ≡ self.old.fits }
    {
        let (Some(sum), Some(inner)) = (self.parts.checked_add(parts), self.inner.checked_add(len))
        else {
            return Err(NoMemory);
        };
        self.parts = sum;
        self.inner = inner;
        Ok(())
    }

    // One unit more.
    fn add(&mut self, unit: FilledUnit) -> Result<(), NoMemory>
        ensures outcome { OnOk result ((b : List ℕ)
            → outcome_in b self.new ≡ both (outcome_in b self.old) (filled_in b unit)) }
        ensures cuts { OnOk result (self.new.cuts.items ≡ self.old.cuts.items ++ unit.cut ∷ []) }
        ensures fits { OnOk result (self.new.fits ≡ (self.old.fits && unit.fits)) }
    {
        let FilledUnit {
            cut,
            fits,
            parts,
            inner,
        } = unit;
        self.count(parts, inner)?;
        self.fits = self.fits & fits;
        match self.cuts.push(cut) {
            Err(_) => Err(NoMemory),
            Ok(()) => Ok(()),
        }
    }

    // A unit ends at a place. It is told whether its slot ends the file, and whether its padding stands behind `moov`.
    fn close(
        &mut self,
        unit: Option<OpenUnit>,
        end: u64,
        ends: bool,
        hangs: bool,
    ) -> Result<(), NoMemory>
        requires order { BeginsBefore unit end }
        requires small { end < 2 ^ 63 }
        ensures outcome { OnOk result ((b : List ℕ) → end ≤ length b
            → outcome_in b self.new ≡ both (outcome_in b self.old) (closed ends hangs (open_in b end unit))) }
        ensures so_far { OnOk result ((from : ℕ) → IsSoFar from self.old (open_start unit end) → ends ≡ false
            → IsSoFar from self.new end) }
        ensures ascend { OnOk result ((from : ℕ) → IsSoFar from self.old (open_start unit end)
            → SpansAscend from self.new.cuts.items end) }
        ensures fits { OnOk result ((from len : ℕ) → IsSoFar from self.old (open_start unit end)
            → (ends ≡ true → end ≡ len) → self.new.fits ≡ true → FitsIn len self.new.cuts.items) }
    {
        match unit {
            None => Ok(()),
            Some(unit) => {
                let filled = fill_unit(unit, end, ends, hangs)?;
                self.add(filled)?;
                Ok(())
            }
        }
    }

    // One place more.
    fn step(
        &mut self,
        alloc: Global,
        unit: Option<OpenUnit>,
        place: &Place,
    ) -> Result<Option<OpenUnit>, NoMemory>
        requires order { BeginsBefore unit place.now.at }
        requires forth { place.now.at ≤ place.now.next }
        requires small { place.now.next < 2 ^ 63 }
        ensures before { IfOk result (λ o. BeginsBefore o place.now.next) }
        ensures row { IfOk result (λ o. (b : List ℕ) (x : Beyond) (xs : List Shape) → place.now.next ≤ length b
            → both (outcome_in b self.old) (row x place.now.at (open_in b place.now.at unit) (shape_in b place.now
            ∷ xs))
            ≡ both (outcome_in b self.new) (row x place.now.next (open_in b place.now.next o) xs)) }
        ensures so_far { IfOk result (λ o. (from : ℕ) → IsSoFar from self.old (open_start unit place.now.at)
            → IsSoFar from self.new (open_start o place.now.next)) }
    {
        match &place.what {
            What::Stays => {
                self.close(unit, place.at, false, false)?;
                self.count(place.parts, place.next - place.at)?;
                Ok(None)
            }
            What::Pads => match unit {
                None => {
                    self.count(place.parts, place.next - place.at)?;
                    Ok(None)
                }
                Some(unit) => Ok(Some(unit)),
            },
            What::Changes(now) => {
                self.count(place.parts, 0)?;
                let unit = change_unit(alloc, unit, place.at, now)?;
                Ok(Some(unit))
            }
        }
    }

    // The atoms of `moov` end at a place: a slot there goes on behind `moov`, or the padding there stays.
    fn end(&mut self, unit: Option<OpenUnit>, end: u64, behind: Behind) -> Result<(), NoMemory>
        requires order { BeginsBefore unit end }
        requires small { end + behind.gap < 2 ^ 63 }
        ensures outcome { OnOk result ((b : List ℕ) → end + behind.gap ≤ length b
            → outcome_in b self.new
            ≡ both (outcome_in b self.old) (ended (beyond_in b end behind) (open_in b end unit) behind.goes_on)) }
        ensures ascend { OnOk result ((from : ℕ) → IsSoFar from self.old (open_start unit end)
            → SpansAscend from self.new.cuts.items (end + behind.gap)) }
        ensures fits { OnOk result ((from len : ℕ) → IsSoFar from self.old (open_start unit end)
            → (behind.goes_on ≡ true → behind.last ≡ true → end + behind.gap ≡ len) → self.new.fits ≡ true
            → FitsIn len self.new.cuts.items) }
    {
        match unit {
            None => {
                self.count(behind.gaps, 0)?;
                Ok(())
            }
            Some(unit) => {
                if behind.goes_on {
                    self.close(Some(unit), end + behind.gap, behind.last, true)?;
                    return Ok(());
                }
                self.close(Some(unit), end, false, false)?;
                self.count(behind.gaps, 0)?;
                Ok(())
            }
        }
    }
}

/// What the units of a row of places come to, which follow each other from `from` up to `end`, where the atoms of `moov` end.
pub fn unit_cuts(
    alloc: Global,
    places: &[Place],
    from: u64,
    end: u64,
    behind: Behind,
) -> Result<Units, NoMemory>
    requires follow { Follow from places.now end }
    requires small { end + behind.gap < 2 ^ 63 }
    ensures outcome { IfOk result (λ u. (b : List ℕ) → end + behind.gap ≤ length b
        → outcome_in b u ≡ row (beyond_in b end behind) from none (map (shape_in b) places.now)) }
    ensures ascend { IfOk result (λ u. SpansAscend from u.cuts.items (end + behind.gap)) }
    ensures fits { IfOk result (λ u. (len : ℕ) → (behind.goes_on ≡ true → behind.last ≡ true → end + behind.gap ≡ len)
        → u.fits ≡ true → FitsIn len u.cuts.items) }
{
    let mut units = Units {
        cuts: Vec::new(alloc),
        fits: true,
        parts: 0,
        inner: 0,
    };
    let mut unit: Option<OpenUnit> = None;
    let mut at = from;
    let mut i = 0usize;
    while i < places.len() {
        let place = &places[i];
        unit = units.step(alloc, unit, place)?;
        at = place.next;
        i += 1;
    }
    units.end(unit, at, behind)?;
    Ok(units)
}
