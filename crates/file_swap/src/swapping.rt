// A swap, as its callers see it.
ghost use Rattle.std.specs.Prelude.{◌≡◌, ◌≢◌, ◌+◌, ◌-◌, ◌≤◌, ◌<◌, true, min, ℕ, List, IfOk};
ghost use Rattle.me_disk.specs.Causes.{Rose};
ghost use Rattle.me_disk.specs.Disk.{Leaves};
ghost use Rattle.me_disk.specs.Steps.{Counted};
ghost use Rattle.file_swap.specs.Steps.{calls, step_at, step_bytes};
ghost use Rattle.part_tree.specs.Plans.{CanRun};
ghost use Rattle.file_swap.specs.Midway.{IsNear};
ghost use Rattle.file_swap.specs.Swap.{fresh, next_calls, Underway, IsSure, Runs, RunCounts, TurnWrites};

use crate::machine::{Core, Turn};
use me_disk::{Depot, DepotFault};
use part_tree::{NoMemory, Plan};
use std::alloc::Global;
use std::marker::Model;

/// A plan that is being carried out, one device call a turn.
#[derive(Drop)]
pub struct Swap {
    core: Core,
}

impl Model for Swap {
    ghost use Rattle.file_swap.specs.Swap.{Swapping};
    ghost use Rattle.file_swap.specs.Machines.{swap_of, IsSound};

    ghost Value = { Swapping };

    ghost view = { λ s. swap_of s.core };

    ghost invariant = { λ s. IsSound s.core };
}

impl Swap {
    ghost use Rattle.file_swap.specs.declared.machine.Turn.{Turn};

    /// Before the first call. It takes all memory that the run needs, and spends the plan.
    pub fn new(alloc: Global, plan: Plan) -> Result<Swap, NoMemory>
        requires { CanRun plan }
        ensures { IfOk result (λ s. s ≡ fresh plan) }
    {
        Ok(Swap {
            core: Core::new(alloc, plan)?,
        })
    }

    /// Makes the next call of the plan's list, and none after the last. Where each image is one after the calls made so
    /// far, a crash at each moment of it leaves what it may leave before the call or after it, and each image behind it is
    /// one after this call. It takes no memory.
    pub fn turn<D: Depot>(&mut self, depot: &mut D) -> Turn
        ghost old: { List ℕ }
        requires { Underway self.old old (D.disk depot.old) }
        ensures runs { CanRun self.old.plan }
        ensures plan { self.new.plan ≡ self.old.plan }
        ensures made { result ≢ Turn.Fault → self.new.made ≡ min (self.old.made + 1) (calls self.old.plan) }
        ensures more { result ≡ Turn.More → self.new.made < calls self.old.plan }
        ensures done { result ≡ Turn.Done → self.new.made ≡ calls self.old.plan }
        ensures underway { result ≢ Turn.Fault → Underway self.new old (D.disk depot.new) }
        ensures fault { result ≡ Turn.Fault → self.new ≡ record self.old { failed = true } }
        ensures crash { IsSure self.old old (D.disk depot.old)
            → Leaves (IsNear self.old.plan old self.old.made) (D.disk depot.old) (D.disk depot.new) }
        ensures sure { result ≢ Turn.Fault → IsSure self.old old (D.disk depot.old)
            → IsSure self.new old (D.disk depot.new) }
        ensures tells { (D.disk depot.new).tells ≡ (D.disk depot.old).tells }
        ensures later { (D.disk depot.old).faults ≤ (D.disk depot.new).faults }
        ensures written { TurnWrites (step_bytes (step_at self.old.plan self.old.made)) (D.disk depot.old)
            (D.disk depot.new) result }
        ensures cause { result ≡ Turn.Fault → Rose (D.disk depot.old).faults (D.disk depot.new).faults }
        ensures counted { Counted (next_calls self.old) (D.calls depot.old) (D.calls depot.new) }
        ensures idle { self.old.made ≡ calls self.old.plan → (result ≡ Turn.Done) × (depot.new ≡ depot.old) }
    {
        self.core.turn(depot)
    }

    /// Makes all the calls that are left; at Ok the new file stands. Where each image is one after the calls made so far,
    /// a crash at each moment of it leaves what stands for the old file or for the new one, and at Ok the new file alone.
    /// It takes no memory.
    pub fn run<D: Depot>(mut self, depot: &mut D) -> Result<(), DepotFault>
        ghost old: { List ℕ }
        requires { Underway self old (D.disk depot.old) }
        ensures runs { Runs self old (D.disk depot.old) (D.disk depot.new) result }
        ensures counted { RunCounts (calls self.plan - self.made) (D.calls depot.old) (D.calls depot.new) result }
    {
        loop {
            match self.turn(depot) {
                Turn::More => {}
                Turn::Done => return Ok(()),
                Turn::Fault => return Err(DepotFault),
            }
        }
    }
}
