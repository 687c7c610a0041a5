// A depot in memory opened anew after a crash.
ghost use Rattle.std.specs.Prelude.{◌≡◌, ◌+◌, ◌-◌, ◌<◌, ◌≤◌, ℕ, length, drop, IfSome, IfNone};
ghost use Rattle.std.specs.Vec.{vec_capacity};
ghost use Rattle.me_disk.specs.Disk.{bytes_of};
ghost use Rattle.me_disk.specs.Reopened.{main_piece, torn, whole, replay, reopened};
ghost use Rattle.me_disk.specs.Store.{held_of, size_of, call_of, calls_of, total};

use crate::depot::WorkState;
use crate::memory::Pick;
use crate::store::{Held, Logged, Mark, Store, copy_into, lay};
use std::mem;

// Lays the first bytes of a call's piece over `Main`. It says how many are left for later calls, None where the piece
// was cut short.
fn redo(main: &mut Held, call: Logged, piece: &[u8], left: u64) -> Option<u64>
    requires held { bytes_of (held_of main.old) ≡ main.old.bytes.items }
    requires sized { length piece.now ≡ size_of call }
    requires room { length main.old.bytes.items + length piece.now ≤ vec_capacity main.old.bytes }
    ensures whole { IfSome result (λ rest. (main_piece (call_of call piece.now) ≤ left)
        × (rest ≡ left - main_piece (call_of call piece.now))
        × (held_of main.new ≡ whole (call_of call piece.now) (held_of main.old))) }
    ensures torn { IfNone result ((left < main_piece (call_of call piece.now))
        × (held_of main.new ≡ torn left (call_of call piece.now) (held_of main.old))) }
    ensures held { bytes_of (held_of main.new) ≡ main.new.bytes.items }
    ensures longer { length main.new.bytes.items ≤ length main.old.bytes.items + length piece.now }
    ensures room { vec_capacity main.old.bytes ≤ vec_capacity main.new.bytes }
{
    match call {
        Logged::Write(at, len) => {
            main.there = true;
            if left < len as u64 {
                lay(&mut main.bytes, at as usize, &piece[..left as usize]);
                return None;
            }
            lay(&mut main.bytes, at as usize, piece);
            Some(left - len as u64)
        }
        Logged::Cut(n) => {
            main.there = true;
            main.bytes.truncate(n as usize);
            Some(left)
        }
        _ => Some(left),
    }
}

// The bytes of a call's piece.
fn size(call: Logged) -> usize
    ensures { result ≡ size_of call }
{
    match call {
        Logged::Append(len) => len,
        Logged::Write(_, len) => len,
        _ => 0,
    }
}

// Lays the first bytes of what these calls wrote over `Main`.
fn redo_all(main: &mut Held, log: &[Logged], pool: &[u8], first: u64)
    requires held { bytes_of (held_of main.old) ≡ main.old.bytes.items }
    requires sized { total log.now ≡ length pool.now }
    requires room { length main.old.bytes.items + length pool.now ≤ vec_capacity main.old.bytes }
    ensures main { held_of main.new ≡ replay first (calls_of log.now pool.now) (held_of main.old) }
    ensures held { bytes_of (held_of main.new) ≡ main.new.bytes.items }
    ensures longer { length main.new.bytes.items ≤ length main.old.bytes.items + length pool.now }
    ensures room { vec_capacity main.old.bytes ≤ vec_capacity main.new.bytes }
{
    let mut left = first;
    let mut rest = pool;
    for call in log {
        let (piece, later) = rest.split_at(size(*call));
        rest = later;
        match redo(main, *call, piece, left) {
            Some(more) => left = more,
            None => return,
        }
    }
}

impl Store {
    ghost use Rattle.std.specs.Prelude.{length};
    ghost use Rattle.me_disk.specs.Limits.{bytes_left};
    ghost use Rattle.me_disk.specs.Reopened.{picked, reopened};
    ghost use Rattle.me_disk.specs.Store.{memory_of, slots_in, IsHeld, IsSound, SameButMain};

    // Makes `Main` what the crash is said to have left of it.
    fn pick_main(&mut self, pick: Pick)
        requires { IsSound self.old }
        ensures main { IsHeld self.new.main (picked pick (memory_of self.old).start (memory_of self.old).done).main
            self.old.limit (bytes_left self.old.limits) }
        ensures kept { self.old.limit ≤ vec_capacity self.new.kept.bytes }
        ensures rest { SameButMain self.old self.new }
    {
        match pick {
            Pick::Before => mem::swap(&mut self.main, &mut self.kept),
            Pick::After => {}
            Pick::Torn(first) => {
                redo_all(
                    &mut self.kept,
                    &self.log[self.mark.calls..],
                    &self.pool[self.mark.bytes..],
                    first,
                );
                mem::swap(&mut self.main, &mut self.kept);
            }
        }
    }

    /// Begins anew with what the crash is said to have left.
    pub(crate) fn reopen(&mut self, pick: Pick)
        requires { IsSound self.old }
        ensures sound { IsSound self.new }
        ensures exact { memory_of self.new ≡ reopened pick (memory_of self.old) }
    {
        self.pick_main(pick);
        copy_into(&mut self.first, &self.main);
        copy_into(&mut self.kept, &self.main);
        copy_into(&mut self.first_journal, &self.journal);
        self.work.there = false;
        self.work.bytes.clear();
        self.log.clear();
        self.pool.clear();
        self.mark = Mark { calls: 0, bytes: 0 };
        self.state = WorkState::Closed;
        self.limits.reopen();
    }
}
