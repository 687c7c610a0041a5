// Where the ranges of a file go.
ghost use Rattle.std.specs.Prelude.{◌≡◌, ◌-◌, ◌≤◌, ◌<◌, [], length, get_or, None, IfOk, IfSome, ◌^◌};
ghost use Rattle.part_tree.specs.Moves.{Ascend, place, place_by};

use crate::names::Span;
use me_bytes::NoMemory;
use std::alloc::Global;
use std::marker::Model;

/// Ranges of a file and their new places, seen as the list of them.
#[derive(Debug, Drop)]
pub struct Moves {
    held: Vec<(Span, u64)>,
}

impl Model for Moves {
    ghost use Rattle.std.specs.Prelude.{List};
    ghost use Rattle.part_tree.specs.Moves.{Ascend, Move};

    ghost Value = { List Move };

    ghost view = { λ m. m.held.items };

    ghost invariant = { λ m. Ascend 0 m.held.items };
}

impl Moves {
    ghost use Rattle.part_tree.specs.Moves.{Move};

    /// These pairs of a range and its new place.
    pub fn new(alloc: Global, pairs: &[(Span, u64)]) -> Result<Moves, NoMemory>
        requires { Ascend 0 pairs.now }
        ensures { IfOk result (λ moves. moves ≡ pairs.now) }
    {
        let held = Vec::from_slice(alloc, pairs)?;
        Ok(Moves { held })
    }

    /// No pairs. It takes no memory.
    pub fn none(alloc: Global) -> Moves
        ensures { result ≡ [] }
    {
        Moves {
            held: Vec::new(alloc),
        }
    }

    // How many ranges begin at a place or before it. The last of them alone may hold it.
    fn before(&self, at: u64) -> usize
        ensures bound { result ≤ length self.now }
        ensures none { result ≡ 0 → place self.now at ≡ None }
        ensures last { (d : Move) → 0 < result → place self.now at ≡ place_by (get_or self.now (result - 1) d) at }
    {
        self.held.partition_point(|pair| pair.0.at <= at)
    }

    // The new place of a place that the range of this number holds.
    fn place_by(&self, k: usize, at: u64) -> Option<u64>
        requires { k < length self.now }
        ensures there { (d : Move) → result ≡ place_by (get_or self.now k d) at }
        ensures small { IfSome result (λ to. to < 2 ^ 63) }
    {
        let (span, to) = &self.held[k];
        if span.at <= at && at - span.at < span.len {
            return Some(to + (at - span.at));
        }
        None
    }

    /// The new place of a place. None where no range holds it.
    pub fn place(&self, at: u64) -> Option<u64>
        ensures place { result ≡ place self.now at }
        ensures small { IfSome result (λ to. to < 2 ^ 63) }
    {
        let before = self.before(at);
        if before == 0 {
            return None;
        }
        self.place_by(before - 1, at)
    }

    /// The new place of a place, looked for in the range of this number first. None where no range holds it.
    pub fn place_near(&self, near: &mut usize, at: u64) -> Option<u64>
        ensures place { result ≡ place self.now at }
        ensures small { IfSome result (λ to. to < 2 ^ 63) }
    {
        if *near < self.held.len() {
            let there = self.place_by(*near, at);
            if there.is_some() {
                return there;
            }
        }
        let before = self.before(at);
        if before == 0 {
            return None;
        }
        *near = before - 1;
        self.place_by(before - 1, at)
    }
}
