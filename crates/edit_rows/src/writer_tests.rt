// Runs whose report goes to a writer of std that takes little at a time.
ghost use Rattle.std.specs.Prelude.{◌≡◌, IfOk, length};

use crate::files::{PLAIN, TITLED};
use crate::runs::{holds, words_of};
use crate::stops::{NO_EDIT, plain};
use me_disk::{MemoryDepot, MemorySource, StdSink};
use metaedit_top::{Outcome, Summary, metaedit};
use part_tree::NoMemory;
use std::alloc::Global;
use std::io::{self, Write};
use std::process::Abort;
use std::test::Fail;

// How a writer ends that takes no more.
#[derive(Clone, Copy)]
enum End {
    TakesNothing,
    Fails,
}

// A writer that takes a few bytes a call, and of which each second call is interrupted, the first among them. Past its
// room it ends.
#[derive(Drop)]
struct Grudging {
    taken: Vec<u8>,
    most: usize,
    room: usize,
    end: End,
    interrupts: bool,
}

impl Grudging {
    fn take(&mut self, front: &[u8]) -> io::Result<usize>
        ensures { IfOk result (λ n. n ≡ length front.now) }
    {
        self.taken.extend_from_slice(front)?;
        Ok(front.len())
    }
}

impl Write for Grudging {
    fn write(&mut self, bytes: &[u8]) -> io::Result<usize> {
        self.interrupts = !self.interrupts;
        if self.interrupts {
            return Err(io::ErrorKind::Interrupted.into());
        }
        let room = self.room.saturating_sub(self.taken.len());
        if room == 0 {
            return match self.end {
                End::TakesNothing => Ok(0),
                End::Fails => Err(io::ErrorKind::BrokenPipe.into()),
            };
        }
        let count = bytes.len().min(self.most).min(room);
        self.take(&bytes[..count])
    }

    fn flush(&mut self) -> io::Result<()> {
        Ok(())
    }
}

// A run with a writer, and what it is to answer.
#[derive(Clone, Copy)]
struct Told<'a> {
    words: &'a [&'a str],
    most: usize,
    room: usize,
    end: End,
    outcome: Outcome,
    // how much of the report is taken
    taken: &'a [u8],
    after: &'a [u8],
}

// What a run answers whose report goes to this writer.
fn run_to(
    alloc: Global,
    texts: &[&str],
    depot: &mut MemoryDepot,
    writer: &mut Grudging,
) -> Result<Outcome, NoMemory> {
    let words = words_of(alloc, texts)?;
    let mut table = MemorySource::new(Vec::new(alloc), Vec::new(alloc));
    let mut out = StdSink::new(writer);
    Ok(metaedit(alloc, &words, depot, &mut table, &mut out))
}

fn check(rt: &(impl Abort + AllocGlobal), row: &Told<'_>) -> Result<(), Fail> {
    let mut depot = plain(rt.alloc())?;
    let mut writer = Grudging {
        taken: Vec::new(rt.alloc()),
        most: row.most,
        room: row.room,
        end: row.end,
        interrupts: false,
    };
    let outcome = run_to(rt.alloc(), row.words, &mut depot, &mut writer)?;
    assert!(rt; outcome == row.outcome);
    assert!(rt; writer.taken.as_slice() == row.taken);
    assert!(rt; holds(&depot, Some(row.after), None));
    Ok(())
}

const SHOW: &[&str] = &["show", "f.wav"];

const SHOWN: &[u8] = b"kind wave\nessence 4\n";

const TITLE: &[&str] = &["set", "f.wav", "INAM=Hi"];

const CHANGED: &[u8] = b"done changed in-place essence 4\n";

const READ: Outcome = Outcome::Done(Summary {
    payload: 4,
    ..NO_EDIT
});

const EDITED: Outcome = Outcome::Done(Summary {
    changed: true,
    in_place: true,
    payload: 4,
    findings: 0,
});

#[test]
fn a_report_is_whole_on_a_writer_that_takes_little(rt: HostRuntime) -> Result<(), Fail> {
    for most in [1, 3, 64] {
        for (words, outcome, taken, after) in [
            (SHOW, READ, SHOWN, PLAIN),
            (TITLE, EDITED, CHANGED, TITLED),
        ] {
            let row = Told {
                words,
                most,
                room: 64,
                end: End::Fails,
                outcome,
                taken,
                after,
            };
            check(&rt, &row)?;
        }
    }
    Ok(())
}

// The edit stands, and the front of the report that was taken.
#[test]
fn a_writer_that_takes_no_more_is_told(rt: HostRuntime) -> Result<(), Fail> {
    for end in [End::TakesNothing, End::Fails] {
        for room in [0, 1, 5, 31] {
            let row = Told {
                words: TITLE,
                most: 5,
                room,
                end,
                outcome: Outcome::OutFault { edited: true },
                taken: &CHANGED[..room],
                after: TITLED,
            };
            check(&rt, &row)?;
        }
    }
    Ok(())
}
