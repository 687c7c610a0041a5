// The machine of a swap, for plans of both kinds.
ghost use Rattle.std.specs.Prelude.{◌≡◌, ◌≢◌, ◌+◌, ◌≤◌, ◌<◌, ◌∷◌, [], false, true, min, ℕ, List, IsTrue, IfOk, OnOk, OnErr, ◌↔◌};
ghost use Rattle.part_tree.specs.declared.plan.Plan.{Plan};
ghost use Rattle.me_disk.specs.Causes.{Rose};
ghost use Rattle.me_disk.specs.Disk.{Leaves};
ghost use Rattle.me_disk.specs.Steps.{Counted};
ghost use Rattle.file_swap.specs.Steps.{steps, calls, step_at, step_bytes};
ghost use Rattle.part_tree.specs.Plans.{CanRun};
ghost use Rattle.file_swap.specs.Fits.{Permits, StepDoes, HoldsAfter};
ghost use Rattle.file_swap.specs.Midway.{IsNear};
ghost use Rattle.file_swap.specs.Swap.{fresh, next_calls, Underway, IsSure, TurnWrites};

use crate::in_place::Patching;
use crate::rewrite::Rewriting;
use me_disk::{Depot, DepotFault};
use part_tree::{NoMemory, Plan};
use std::alloc::Global;

/// What a turn of a swap answers.
#[derive(Clone, Copy, Debug, PartialEq, Eq)]
pub enum Turn {
    /// The call was Ok, and calls are left.
    More,
    /// All calls were made.
    Done,
    /// The device failed, and no further turn is to be made.
    Fault,
}

/// A machine for each kind of plan.
#[derive(Drop)]
pub(crate) enum Machine {
    InPlace(Patching),
    Rewrite(Rewriting),
}

/// The machine, and whether a call has failed.
#[derive(Drop)]
pub(crate) struct Core {
    pub(crate) machine: Machine,
    pub(crate) failed: bool,
}

impl Machine {
    ghost use Rattle.file_swap.specs.Machines.{plan_of, left, step_of, held_of, IsMachine};

    // Before the first call.
    fn new(alloc: Global, plan: Plan) -> Result<Machine, NoMemory>
        requires { CanRun plan }
        ensures plan { IfOk result (λ m. plan_of m ≡ plan) }
        ensures sound { IfOk result IsMachine }
        ensures left { IfOk result (λ m. left m ≡ steps (plan_of m)) }
        ensures held { IfOk result (λ m. held_of m ≡ []) }
    {
        match plan {
            Plan::InPlace {
                old_len,
                new_len,
                patches,
            } => Ok(Machine::InPlace(Patching::new(alloc, old_len, new_len, patches)?)),
            Plan::Rewrite {
                new_len,
                moves,
                segments,
            } => Ok(Machine::Rewrite(Rewriting::new(alloc, new_len, moves, segments)?)),
        }
    }

    // Whether all calls were made.
    fn is_ended(&self) -> bool
        requires { IsMachine self.now }
        ensures { IsTrue result ↔ (left self.now ≡ []) }
    {
        match self {
            Machine::InPlace(patching) => patching.is_ended(),
            Machine::Rewrite(rewriting) => rewriting.is_ended(),
        }
    }

    // Makes the next call.
    fn step<D: Depot>(&mut self, depot: &mut D) -> Result<(), DepotFault>
        requires sound { IsMachine self.old }
        requires more { left self.old ≢ [] }
        requires permits { Permits (step_of self.old) (held_of self.old) (D.disk depot.old) }
        ensures sound { IsMachine self.new }
        ensures plan { plan_of self.new ≡ plan_of self.old }
        ensures left { OnOk result (left self.old ≡ step_of self.old ∷ left self.new) }
        ensures does { StepDoes (step_of self.old) (held_of self.old) (D.disk depot.old) (D.disk depot.new) result }
        ensures counted { Counted 1 (D.calls depot.old) (D.calls depot.new) }
        ensures holds { OnOk result (HoldsAfter (step_of self.old) (held_of self.new) (D.disk depot.old)) }
        ensures stays { OnErr result ((left self.new ≡ left self.old) × (held_of self.new ≡ held_of self.old)) }
    {
        match self {
            Machine::InPlace(patching) => patching.step(depot),
            Machine::Rewrite(rewriting) => rewriting.step(depot),
        }
    }
}

impl Core {
    ghost use Rattle.file_swap.specs.declared.machine.Turn.{Turn};
    ghost use Rattle.file_swap.specs.Machines.{plan_of, swap_of, IsSound};

    /// Before the first call.
    pub(crate) fn new(alloc: Global, plan: Plan) -> Result<Core, NoMemory>
        requires { CanRun plan }
        ensures swap { IfOk result (λ c. swap_of c ≡ fresh plan) }
        ensures sound { IfOk result IsSound }
    {
        Ok(Core {
            machine: Machine::new(alloc, plan)?,
            failed: false,
        })
    }

    /// Makes the next call.
    pub(crate) fn turn<D: Depot>(&mut self, depot: &mut D) -> Turn
        ghost old: { List ℕ }
        requires sound { IsSound self.old }
        requires underway { Underway (swap_of self.old) old (D.disk depot.old) }
        ensures sound { IsSound self.new }
        ensures runs { CanRun (swap_of self.old).plan }
        ensures plan { (swap_of self.new).plan ≡ (swap_of self.old).plan }
        ensures made { result ≢ Turn.Fault
            → (swap_of self.new).made ≡ min ((swap_of self.old).made + 1) (calls (swap_of self.old).plan) }
        ensures more { result ≡ Turn.More → (swap_of self.new).made < calls (swap_of self.old).plan }
        ensures done { result ≡ Turn.Done → (swap_of self.new).made ≡ calls (swap_of self.old).plan }
        ensures underway { result ≢ Turn.Fault → Underway (swap_of self.new) old (D.disk depot.new) }
        ensures fault { result ≡ Turn.Fault → swap_of self.new ≡ record (swap_of self.old) { failed = true } }
        ensures crash { IsSure (swap_of self.old) old (D.disk depot.old)
            → Leaves (IsNear (swap_of self.old).plan old (swap_of self.old).made) (D.disk depot.old)
            (D.disk depot.new) }
        ensures sure { result ≢ Turn.Fault → IsSure (swap_of self.old) old (D.disk depot.old)
            → IsSure (swap_of self.new) old (D.disk depot.new) }
        ensures tells { (D.disk depot.new).tells ≡ (D.disk depot.old).tells }
        ensures later { (D.disk depot.old).faults ≤ (D.disk depot.new).faults }
        ensures written { TurnWrites (step_bytes (step_at (swap_of self.old).plan (swap_of self.old).made))
            (D.disk depot.old) (D.disk depot.new) result }
        ensures cause { result ≡ Turn.Fault → Rose (D.disk depot.old).faults (D.disk depot.new).faults }
        ensures counted { Counted (next_calls (swap_of self.old)) (D.calls depot.old) (D.calls depot.new) }
        ensures idle { (swap_of self.old).made ≡ calls (swap_of self.old).plan
            → (result ≡ Turn.Done) × (depot.new ≡ depot.old) }
    {
        if self.machine.is_ended() {
            return Turn::Done;
        }
        match self.machine.step(depot) {
            Ok(()) => {
                if self.machine.is_ended() {
                    Turn::Done
                } else {
                    Turn::More
                }
            }
            Err(_) => {
                self.failed = true;
                Turn::Fault
            }
        }
    }
}
