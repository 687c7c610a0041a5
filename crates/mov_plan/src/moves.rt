// Where the ranges between the spans of an edit go.
ghost use Rattle.std.specs.Prelude.{◌≡◌, ◌≤◌, ◌<◌, ◌+◌, ◌-◌, ◌++◌, ◌∷◌, [], ◌^◌, ℕ, List, length, map, drop, IfOk, OnOk};
ghost use Rattle.std.specs.List.{AllByRecursion};
ghost use Rattle.carrier_model.specs.Gaps.{between, moves_of};
ghost use Rattle.unit_plan.specs.Cuts.{cut_in};
ghost use Rattle.mov_plan.specs.Moved.{AreRanges, GoBetween};

use part_tree::{Moves, NoMemory, Span};
use std::alloc::Global;
use unit_plan::CutAt;

const MOST_PLACE: u64 = 9_223_372_036_854_775_807;

// Ranges of a file with their new places so far: up to which byte, and where it goes.
#[derive(Debug, Drop)]
pub struct Ranges {
    pub held: Vec<(Span, u64)>,
    pub at: u64,
    pub to: u64,
}

impl Ranges {
    // The range before a span, in the place of which so many bytes stand. None is taken back, and none goes past 2 ^ 63 - 1.
    pub fn jump(&mut self, span: Span, now: u64) -> Result<(), NoMemory>
        ensures held { OnOk result (self.new.held.items ≡ self.old.held.items
            ++ (record { at = self.old.at; len = span.at - self.old.at }, self.old.to) ∷ []) }
        ensures at { OnOk result (self.new.at ≡ span.at + span.len) }
        ensures to { OnOk result (self.new.to ≡ self.old.to + (span.at - self.old.at) + now) }
        ensures order { OnOk result (self.old.at ≤ span.at) }
        ensures sound { OnOk result (AreRanges self.old → AreRanges self.new) }
    {
        let Some(len) = span.at.checked_sub(self.at) else {
            return Err(NoMemory);
        };
        let (Some(stop), Some(next), Some(end)) = (
            self.to.checked_add(len),
            self.to.saturating_add(len).checked_add(now),
            span.at.checked_add(span.len),
        ) else {
            return Err(NoMemory);
        };
        if stop > MOST_PLACE || span.at > MOST_PLACE {
            return Err(NoMemory);
        }
        let before = Span { at: self.at, len };
        if self.held.push((before, self.to)).is_err() {
            return Err(NoMemory);
        }
        self.to = next;
        self.at = end;
        Ok(())
    }
}

/// Where the ranges of a file of `len` bytes go between spans in the place of which others stand.
pub fn moves_between(alloc: Global, cuts: &[CutAt], len: u64) -> Result<Moves, NoMemory>
    ensures { IfOk result (GoBetween len cuts.now) }
{
    let mut ranges = Ranges {
        held: Vec::new(alloc),
        at: 0,
        to: 0,
    };
    'cuts: for cut in cuts {
        let Some(now) = (cut.bytes.as_slice().len() as u64).checked_add(cut.keep) else {
            return Err(NoMemory);
        };
        ranges.jump(cut.span, now)?;
    }
    ranges.jump(Span { at: len, len: 0 }, 0)?;
    Moves::new(alloc, &ranges.held)
}
