// Where the ranges between the spans of an edit go.
ghost use Rattle.std.specs.Prelude.{◌≡◌, ◌≤◌, ◌<◌, ◌+◌, ◌-◌, ◌++◌, ◌∷◌, [], ◌^◌, ℕ, List, length, map, IfOk, OnOk};
ghost use Rattle.carrier_model.specs.Gaps.{moves_of};
ghost use Rattle.unit_plan.specs.Cuts.{SpansAscend, cut_in};
ghost use Rattle.avi_plan.specs.Moved.{AreRanges};

use part_tree::{Moves, NoMemory, Span};
use std::alloc::Global;
use unit_plan::CutAt;

const MOST_PLACE: u64 = 9_223_372_036_854_775_807;

// Ranges of a file with their new places so far: up to which byte, and where it goes.
#[derive(Debug, Drop)]
pub struct Ranges {
    pub held: Vec<(Span, u64)>,
    pub at: u64,
    pub to: u64,
}

impl Ranges {
    // The range before a span, in the place of which so many bytes stand. None is taken back, and none goes past 2 ^ 63 - 1.
    fn jump(&mut self, span: Span, now: u64) -> Result<(), NoMemory>
        ensures held { OnOk result (self.new.held.items ≡ self.old.held.items
            ++ (record { at = self.old.at; len = span.at - self.old.at }, self.old.to) ∷ []) }
        ensures at { OnOk result (self.new.at ≡ span.at + span.len) }
        ensures to { OnOk result (self.new.to ≡ self.old.to + (span.at - self.old.at) + now) }
        ensures sound { OnOk result (AreRanges self.old → AreRanges self.new) }
    {
        let Some(len) = span.at.checked_sub(self.at) else {
            return Err(NoMemory);
        };
        let Some(stop) = self.to.checked_add(len) else {
            return Err(NoMemory);
        };
        let Some(next) = stop.checked_add(now) else {
            return Err(NoMemory);
        };
        let Some(end) = span.at.checked_add(span.len) else {
            return Err(NoMemory);
        };
        if stop > MOST_PLACE || span.at > MOST_PLACE {
            return Err(NoMemory);
        }
        let before = Span { at: self.at, len };
        match self.held.push((before, self.to)) {
            Err(_) => return Err(NoMemory),
            Ok(()) => {}
        }
        self.to = next;
        self.at = end;
        Ok(())
    }

    // The range before the span of a cut.
    fn pass(&mut self, cut: &CutAt) -> Result<(), NoMemory>
        ensures held { OnOk result (self.new.held.items ≡ self.old.held.items
            ++ (record { at = self.old.at; len = cut.now.span.at - self.old.at }, self.old.to) ∷ []) }
        ensures at { OnOk result (self.new.at ≡ cut.now.span.at + cut.now.span.len) }
        ensures to { OnOk result (self.new.to
            ≡ self.old.to + (cut.now.span.at - self.old.at) + (length cut.now.bytes + cut.now.keep)) }
        ensures sound { OnOk result (AreRanges self.old → AreRanges self.new) }
    {
        let bytes = cut.bytes.as_slice().len() as u64;
        let Some(now) = bytes.checked_add(cut.keep) else {
            return Err(NoMemory);
        };
        self.jump(cut.span, now)?;
        Ok(())
    }
}

/// Where the ranges of a file of `len` bytes go between spans in the place of which others stand. No memory holds a new file
/// that is longer than 2^63-1 bytes.
pub fn moves_between(alloc: Global, cuts: &[CutAt], len: u64) -> Result<Moves, NoMemory>
    requires { SpansAscend 0 cuts.now len }
    ensures { IfOk result (λ m. (b : List ℕ) → length b ≡ len → m ≡ moves_of (map (cut_in b) cuts.now) len) }
{
    let mut ranges = Ranges {
        held: Vec::new(alloc),
        at: 0,
        to: 0,
    };
    'cuts: for cut in cuts {
        ranges.pass(cut)?;
    }
    ranges.jump(Span { at: len, len: 0 }, 0)?;
    let moves = Moves::new(alloc, &ranges.held)?;
    Ok(moves)
}
