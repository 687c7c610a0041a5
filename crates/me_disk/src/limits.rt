// Which calls of a depot in memory fail.
ghost use Rattle.std.specs.Prelude.{◌≡◌, ◌≢◌, ◌+◌, ◌<◌, ◌≤◌, ◌^◌, not, unwrap_or};
ghost use Rattle.me_disk.specs.Causes.{one_more, Rose};
ghost use Rattle.me_disk.specs.Limits.{fresh_limits, listed, is_past, asked_with, faults_after, counted, counted_read, read_fails, calls_left, bytes_left, reopened_limits};
ghost use Rattle.me_disk.specs.Limits.{lacks_room as room_is_lacking, fate as fate_of};

use std::marker::Model;

/// How many calls that don't only read there is room for, and how many bytes in all their pieces.
#[derive(Clone, Copy, Debug, PartialEq, Eq)]
pub struct Room {
    pub calls: u64,
    pub bytes: u64,
}

/// A call that is to fail, by its number from 1, and whether it is done before it fails.
#[derive(Clone, Copy, Debug, PartialEq, Eq)]
pub struct FailAt {
    pub call: u64,
    pub done: bool,
}

/// What becomes of a call: it is done, it is done and fails, or it fails undone.
#[derive(Clone, Copy, PartialEq, Eq)]
pub(crate) enum Fate {
    Done,
    DoneFault,
    Undone,
}

/// The calls that are to fail, the room, and what was counted.
#[derive(Drop)]
pub(crate) struct Limits {
    failing: Vec<FailAt>,
    stop: Option<u64>,
    room: Room,
    calls: u64,
    changes: u64,
    asked: u64,
    faults: u64,
}

impl Model for Limits {
    ghost use Rattle.std.specs.Prelude.{◌<◌, ◌^◌};
    ghost use Rattle.me_disk.specs.Limits.{Limits};

    ghost Value = { Limits };

    ghost view = { λ l. record { failing = l.failing.items; stop = l.stop; room = l.room; calls = l.calls; changes = l.changes; asked = l.asked; faults = l.faults } };

    ghost invariant = { λ l. l.room.bytes < 2 ^ 63 };
}

// The first entry for this call: whether the call is done.
fn entry_for(failing: &[FailAt], call: u64) -> Option<bool>
    ensures { result ≡ listed failing.now call }
{
    failing.iter().find(|f| f.call == call).map(|f| f.done)
}

fn count(faults: u64, fate: Fate) -> u64
    ensures value { result ≡ faults_after fate faults }
    ensures later { faults ≤ result }
    ensures rose { fate ≢ Fate.Done → Rose faults result }
{
    match fate {
        Fate::Done => faults,
        Fate::DoneFault => faults.saturating_add(1),
        Fate::Undone => faults.saturating_add(1),
    }
}

fn asked_after(asked: u64, piece: Option<usize>) -> u64
    ensures { result ≡ asked_with piece asked }
{
    match piece {
        None => asked,
        Some(len) => asked.saturating_add(len as u64),
    }
}

impl Limits {
    pub(crate) fn new(room: Room, failing: Vec<FailAt>) -> Limits
        requires { room.bytes < 2 ^ 63 }
        ensures { result ≡ fresh_limits room failing.items }
    {
        Limits {
            failing,
            stop: None,
            room,
            calls: 0,
            changes: 0,
            asked: 0,
            faults: 0,
        }
    }

    pub(crate) fn faults(&self) -> u64
        ensures { result ≡ self.now.faults }
    {
        self.faults
    }

    /// Lets each call after the n-th fail.
    pub(crate) fn stop_after(&mut self, n: u64)
        ensures { self.new ≡ record self.old { stop = Some n } }
    {
        self.stop = Some(n);
    }

    // The number of the next call.
    fn next(&self) -> u64
        ensures { result ≡ one_more self.now.calls }
    {
        self.calls.saturating_add(1)
    }

    // Whether the next call comes after the stop.
    fn is_stopped(&self) -> bool
        ensures { result ≡ is_past self.now.stop (one_more self.now.calls) }
    {
        match self.stop {
            None => false,
            Some(last) => last < self.next(),
        }
    }

    fn lacks_room(&self, piece: Option<usize>) -> bool
        ensures { result ≡ room_is_lacking piece self.now }
    {
        self.room.calls <= self.changes
            || piece.is_some() && self.room.bytes < asked_after(self.asked, piece)
    }

    // What becomes of the next call.
    fn next_fate(&self, piece: Option<usize>) -> Fate
        ensures { result ≡ fate_of piece self.now }
    {
        if self.is_stopped() || self.lacks_room(piece) {
            return Fate::Undone;
        }
        match entry_for(&self.failing, self.next()) {
            None => Fate::Done,
            Some(true) => Fate::DoneFault,
            Some(false) => Fate::Undone,
        }
    }

    /// Counts a call that changes the depot, with the length of its piece where it has one, and says what becomes of it.
    pub(crate) fn fate(&mut self, piece: Option<usize>) -> Fate
        ensures fate { result ≡ fate_of piece self.old }
        ensures counted { self.new ≡ counted piece self.old }
        ensures later { self.old.faults ≤ self.new.faults }
        ensures calls { calls_left self.new ≤ calls_left self.old }
        ensures bytes { bytes_left self.new ≤ bytes_left self.old }
        ensures room { result ≢ Fate.Undone
            → (calls_left self.new + 1 ≡ calls_left self.old)
            × (bytes_left self.new + unwrap_or piece 0 ≡ bytes_left self.old) }
    {
        let fate = self.next_fate(piece);
        self.calls = self.next();
        self.changes = self.changes.saturating_add(1);
        self.asked = asked_after(self.asked, piece);
        self.faults = count(self.faults, fate);
        fate
    }

    // Whether the next call succeeds, if it only reads.
    fn next_reads(&self) -> bool
        ensures { result ≡ not (read_fails self.now) }
    {
        !(self.is_stopped() || entry_for(&self.failing, self.next()).is_some())
    }

    /// Counts a call that only reads, and says whether it succeeds.
    pub(crate) fn reads(&mut self) -> bool
        ensures answer { result ≡ not (read_fails self.old) }
        ensures counted { self.new ≡ counted_read self.old }
        ensures later { self.old.faults ≤ self.new.faults }
    {
        let succeeds = self.next_reads();
        self.calls = self.next();
        self.faults = count(
            self.faults,
            if succeeds { Fate::Done } else { Fate::Undone },
        );
        succeeds
    }

    /// Forgets the counts, the list and the stop. The room is what was left.
    pub(crate) fn reopen(&mut self)
        ensures { self.new ≡ reopened_limits self.old }
    {
        self.failing.clear();
        self.stop = None;
        self.room = Room {
            calls: self.room.calls.saturating_sub(self.changes),
            bytes: self.room.bytes.saturating_sub(self.asked),
        };
        self.calls = 0;
        self.changes = 0;
        self.asked = 0;
        self.faults = 0;
    }
}
