// Members in turns.
ghost use Rattle.std.specs.Prelude.{◌≡◌, ◌<◌, ℕ, List, IfOk, Some, None, length, map, set, get_or, slice_index, EachIndex};
ghost use Rattle.turn_batch.specs.Members.{fresh_member, AllFresh, IsReady, TurnedAt, failed_in, is_open, some_open};
ghost use Rattle.turn_batch.specs.Schedules.{Ready, Ran, RanRounds, each_once};

use crate::member::{BatchTurn, Member};
use file_swap::Swap;
use me_bytes::NoMemory;
use me_disk::Depot;
use std::alloc::Global;
use std::marker::Model;

/// Members, each with the number of its own depot, seen as the list of them.
#[derive(Drop)]
pub struct Batch {
    members: Vec<Member>,
}

impl Model for Batch {
    ghost use Rattle.std.specs.Prelude.{List};
    ghost use Rattle.turn_batch.specs.declared.member.Member.{Member};
    ghost use Rattle.turn_batch.specs.Members.{AllLow};

    ghost Value = { List Member };

    ghost view = { λ b. b.members.items };

    ghost invariant = { λ b. AllLow b.members.items };
}

// A member for each swap, before its first turn.
fn members_of(alloc: Global, swaps: Vec<Option<Swap>>) -> Result<Vec<Member>, NoMemory>
    ensures { IfOk result (λ ms. ms.items ≡ map fresh_member swaps.items) }
{
    let mut members = Vec::with_capacity(alloc, swaps.len())?;
    for swap in swaps {
        match members.push(Member {
            swap,
            ended: false,
            failed: false,
        }) {
            Err(_) => return Err(NoMemory),
            Ok(()) => {}
        }
    }
    Ok(members)
}

impl Batch {
    ghost use Rattle.turn_batch.specs.declared.member.Member.{Member};

    /// A member for each swap, none of which has made a turn.
    pub fn new(alloc: Global, swaps: Vec<Option<Swap>>) -> Result<Batch, NoMemory>
        requires { AllFresh swaps.items }
        ensures { IfOk result (λ b. b ≡ map fresh_member swaps.items) }
    {
        Ok(Batch {
            members: members_of(alloc, swaps)?,
        })
    }

    /// Makes one turn of the member of this number on its depot, and touches no other.
    pub fn turn<D: Depot>(&mut self, depots: &mut [D], i: usize) -> BatchTurn
        ghost old: { List ℕ }
        requires depots { length depots.old ≡ length self.old }
        requires inside { i < length self.old }
        requires ready { (m : Member) (d : D) → IsReady old (get_or self.old i m) (D.disk (get_or depots.old i d)) }
        ensures turned { (m : Member) (d : D)
            → TurnedAt D.disk old (get_or self.old i m) (get_or self.new i m) (get_or depots.old i d)
            (get_or depots.new i d) result }
        ensures members { (m : Member) → self.new ≡ set self.old i (get_or self.new i m) }
        ensures others { (d : D) → depots.new ≡ set depots.old i (get_or depots.new i d) }
    {
        self.members[i].turn(&mut depots[i])
    }

    /// Makes the turns of a schedule in order. A schedule is a list of numbers of members; each makes one turn of that member.
    pub fn run<D: Depot>(&mut self, depots: &mut [D], schedule: &[u32])
        ghost files: { ℕ → List ℕ }
        requires depots { length depots.old ≡ length self.old }
        requires inside { EachIndex schedule.now (λ k. slice_index schedule.now k < length self.old) }
        requires ready { Ready D.disk files self.old depots.old }
        ensures { Ran D.disk files schedule.now self.old self.new depots.old depots.new }
    {
        prove!(depots.len() == self.members.len());
        for i in schedule {
            self.turn(depots, *i as usize);
        }
    }

    /// Makes one turn of each member that hasn't ended, in ascending order, and says whether some member hasn't ended then.
    pub fn round<D: Depot>(&mut self, depots: &mut [D]) -> bool
        ghost files: { ℕ → List ℕ }
        requires depots { length depots.old ≡ length self.old }
        requires ready { Ready D.disk files self.old depots.old }
        ensures ran { Ran D.disk files (each_once (length self.old)) self.old self.new depots.old depots.new }
        ensures open { result ≡ some_open self.new }
    {
        let mut open = false;
        for i in 0..self.members.len() {
            if self.turn(depots, i).is_more() {
                open = true;
            }
        }
        open
    }

    /// Whether the member of this number has turns left.
    pub fn is_open(&self, i: usize) -> bool
        requires { i < length self.now }
        ensures { (m : Member) → result ≡ is_open (get_or self.now i m) }
    {
        self.members[i].is_open()
    }

    /// Whether some member has turns left.
    pub fn some_open(&self) -> bool
        ensures { result ≡ some_open self.now }
    {
        self.members.iter().any(|member| member.is_open())
    }

    /// Whether a turn of the member of this number has answered Fault.
    pub fn has_failed(&self, i: usize) -> bool
        requires { i < length self.now }
        ensures { (m : Member) → result ≡ failed_in (get_or self.now i m).swap }
    {
        self.members[i].failed
    }

    /// Makes rounds until every member has ended, and at most so many where that is a number. Says whether some member hasn't
    /// ended then.
    pub fn rounds<D: Depot>(&mut self, depots: &mut [D], most: Option<u64>) -> bool
        ghost files: { ℕ → List ℕ }
        requires depots { length depots.old ≡ length self.old }
        requires ready { Ready D.disk files self.old depots.old }
        ensures ran { RanRounds D.disk files most self.old self.new depots.old depots.new }
        ensures open { result ≡ some_open self.new }
    {
        match most {
            Some(most) => self.some_rounds(depots, most),
            None => self.all_rounds(depots),
        }
    }

    // Makes at most so many rounds.
    fn some_rounds<D: Depot>(&mut self, depots: &mut [D], most: u64) -> bool
        ghost files: { ℕ → List ℕ }
        requires depots { length depots.old ≡ length self.old }
        requires ready { Ready D.disk files self.old depots.old }
        ensures ran { RanRounds D.disk files (Some most) self.old self.new depots.old depots.new }
        ensures open { result ≡ some_open self.new }
    {
        prove!(depots.len() == self.members.len());
        let mut open = self.some_open();
        for _made in 0..most {
            if !open {
                return false;
            }
            open = self.round(depots);
        }
        open
    }

    // Makes rounds until every member has ended.
    fn all_rounds<D: Depot>(&mut self, depots: &mut [D]) -> bool
        ghost files: { ℕ → List ℕ }
        requires depots { length depots.old ≡ length self.old }
        requires ready { Ready D.disk files self.old depots.old }
        ensures ran { RanRounds D.disk files None self.old self.new depots.old depots.new }
        ensures open { result ≡ some_open self.new }
    {
        prove!(depots.len() == self.members.len());
        let mut open = self.some_open();
        while open {
            open = self.round(depots);
        }
        open
    }
}
