// One member of a batch.
ghost use Rattle.std.specs.Prelude.{◌≡◌, ℕ, List, IsTrue};
ghost use Rattle.turn_batch.specs.Members.{is_open, IsReady, TurnedAt};

use file_swap::{Swap, Turn};
use me_disk::Depot;

/// What a turn of a member answers.
#[derive(Clone, Copy, Debug, PartialEq, Eq)]
pub enum BatchTurn {
    /// The call was Ok, and calls are left.
    More,
    /// All calls were made.
    Done,
    /// The device failed, and no further turn is made.
    Fault,
    /// The member has no swap, or an earlier turn answered Done or Fault. No call was made.
    Ended,
}

impl BatchTurn {
    ghost use Rattle.turn_batch.specs.Members.{is_more};

    /// Whether calls are left.
    pub fn is_more(self) -> bool
        ensures { result ≡ is_more self }
    {
        matches!(self, BatchTurn::More)
    }
}

/// A swap, if there is one, whether a turn of it has answered Done or Fault, and whether it was Fault.
#[derive(Drop)]
pub struct Member {
    pub(crate) swap: Option<Swap>,
    pub(crate) ended: bool,
    pub(crate) failed: bool,
}

impl Member {
    /// Makes the next call of the swap, where it hasn't ended.
    pub(crate) fn turn<D: Depot>(&mut self, depot: &mut D) -> BatchTurn
        ghost old: { List ℕ }
        requires { IsReady old self.old (D.disk depot.old) }
        ensures { TurnedAt D.disk old self.old self.new depot.old depot.new result }
    {
        if self.ended {
            return BatchTurn::Ended;
        }
        let Some(swap) = &mut self.swap else {
            return BatchTurn::Ended;
        };
        match swap.turn(depot) {
            Turn::More => BatchTurn::More,
            Turn::Done => {
                self.ended = true;
                BatchTurn::Done
            }
            Turn::Fault => {
                self.ended = true;
                self.failed = true;
                BatchTurn::Fault
            }
        }
    }

    /// Whether turns are left.
    pub(crate) fn is_open(&self) -> bool
        ensures { result ≡ is_open self.now }
    {
        !self.ended && self.swap.is_some()
    }
}
