// A source of bytes and a sink for them.
ghost use Rattle.std.specs.Prelude.{◌≡◌, ◌↔◌, ◌+◌, ◌≤◌, ◌++◌, [], ℕ, List, Option, Some, None, true, length, min, take, drop, OnOk, OnErr, IfOk, IsTrue};
ghost use Rattle.std.specs.Io.{ReadsAtMost};
ghost use Rattle.std.specs.Io.KnownBytes.{ReadConsumes, Appends};
ghost use Rattle.std.specs.Vec.{vec_capacity};
ghost use Rattle.me_disk.specs.Causes.{CountsFaults, one_more};
ghost use Rattle.me_disk.specs.Streams.{SourceCall, SinkCall, fresh_schedule};

use crate::counts::count_fault;
use me_bytes::NoMemory;
use std::alloc::Global;
use std::io::{Read, Write};
use std::marker::Model;
use thiserror::Error;

/// A read failed, and was counted.
#[derive(Clone, Copy, Debug, PartialEq, Eq, Error)]
#[error("the source failed")]
pub struct SourceFault;

/// A write failed, and was counted.
#[derive(Clone, Copy, Debug, PartialEq, Eq, Error)]
#[error("the sink failed")]
pub struct SinkFault;

/// Bytes that are read once, from the first to the last.
pub trait Source {
    /// The bytes that are left, where it tells them.
    ghost left: { Self → Option (List ℕ) };

    /// How often it has failed.
    ghost faults: { Self → ℕ };

    /// Reads some of the bytes that are left into the front of `into`, and says how many. None are read only where
    /// none are left or `into` is empty. After a fault the same bytes are left.
    fn read(&mut self, into: &mut [u8]) -> Result<usize, SourceFault>
        ensures bound { ReadsAtMost result into.new }
        ensures bytes { ReadConsumes (left self.old) (left self.new) result into.new }
        ensures silent { left self.old ≡ None → left self.new ≡ None }
        ensures cause { CountsFaults (faults self.old) (faults self.new) result };
}

/// Takes bytes, each piece behind those before it.
pub trait Sink {
    /// The bytes that were written, where it tells them.
    ghost contents: { Self → Option (List ℕ) };

    /// How often it has failed.
    ghost faults: { Self → ℕ };

    /// Writes all the bytes. After a fault a front of them was written.
    fn write_all(&mut self, bytes: &[u8]) -> Result<(), SinkFault>
        ensures ok { OnOk result (Appends (contents self.old) (contents self.new) bytes.now) }
        ensures err { OnErr result ((n : ℕ) × Appends (contents self.old) (contents self.new) (take n bytes.now)) }
        ensures silent { contents self.old ≡ None → contents self.new ≡ None }
        ensures cause { CountsFaults (faults self.old) (faults self.new) result };
}

// The calls, counted from 1, that are to fail, and the counts of calls and faults.
#[derive(Drop)]
struct Schedule {
    failing: Vec<u64>,
    calls: u64,
    faults: u64,
}

impl Model for Schedule {
    ghost use Rattle.me_disk.specs.Streams.{Schedule};

    ghost Value = { Schedule };

    ghost view = { λ s. record { failing = s.failing.items; calls = s.calls; faults = s.faults } };
}

impl Schedule {
    ghost use Rattle.me_disk.specs.Streams.{IsListed};

    fn new(failing: Vec<u64>) -> Schedule
        ensures { result ≡ fresh_schedule failing.items }
    {
        Schedule {
            failing,
            calls: 0,
            faults: 0,
        }
    }

    // Counts a call, and says whether it is to fail.
    fn is_listed(&mut self) -> bool
        ensures listed { IsTrue result ↔ IsListed self.old }
        ensures calls { self.new ≡ record self.old { calls = one_more self.old.calls } }
    {
        self.calls = self.calls.saturating_add(1);
        self.failing.contains(&self.calls)
    }
}

/// A source in memory, whose calls, counted from 1, fail exactly where they are listed.
#[derive(Drop)]
pub struct MemorySource {
    bytes: Vec<u8>,
    at: usize,
    schedule: Schedule,
}

impl Model for MemorySource {
    ghost use Rattle.std.specs.Prelude.{◌≤◌, length, drop};
    ghost use Rattle.me_disk.specs.Streams.{SourceBytes};

    ghost Value = { SourceBytes };

    ghost view = { λ s. record { left = drop s.at s.bytes.items; schedule = s.schedule } };

    ghost invariant = { λ s. s.at ≤ length s.bytes.items };
}

impl MemorySource {
    /// A source of these bytes. The calls that are to fail are listed by number, in ascending order.
    pub fn new(bytes: Vec<u8>, failing: Vec<u64>) -> MemorySource
        ensures { result ≡ record { left = bytes.items; schedule = fresh_schedule failing.items } }
    {
        MemorySource {
            bytes,
            at: 0,
            schedule: Schedule::new(failing),
        }
    }
}

impl Source for MemorySource {
    ghost left = { λ s. Some s.left };

    ghost faults = { λ s. s.schedule.faults };

    fn read(&mut self, into: &mut [u8]) -> Result<usize, SourceFault>
        ensures bound { ReadsAtMost result into.new }
        ensures bytes { ReadConsumes (Some self.old.left) (Some self.new.left) result into.new }
        ensures cause { CountsFaults self.old.schedule.faults self.new.schedule.faults result }
        ensures call { SourceCall self.old self.new result }
    {
        if self.schedule.is_listed() {
            return Err(count_fault(&mut self.schedule.faults, SourceFault));
        }
        let count = fill(&self.bytes[self.at..], into);
        self.at += count;
        Ok(count)
    }
}

// Copies as much as there is, and as there is room for.
fn fill(rest: &[u8], into: &mut [u8]) -> usize
    ensures count { result ≡ min (length rest.now) (length into.old) }
    ensures front { take result into.new ≡ take result rest.now }
{
    let count = rest.len().min(into.len());
    into[..count].copy_from_slice(&rest[..count]);
    count
}

/// A source over a reader of std, such as the standard input. It doesn't tell its bytes.
#[derive(Drop)]
pub struct StdSource<R> {
    reader: R,
    faults: u64,
}

impl<R: Read> StdSource<R> {
    /// A source of what this reader gives. Each error of the reader is counted as a fault.
    pub fn new(reader: R) -> StdSource<R>
        ensures { result.faults ≡ 0 }
    {
        StdSource { reader, faults: 0 }
    }
}

impl<R: Read> Source for StdSource<R> {
    ghost left = { λ s. None };

    ghost faults = { λ s. s.faults };

    fn read(&mut self, into: &mut [u8]) -> Result<usize, SourceFault> {
        match self.reader.read(into) {
            Ok(count) => Ok(count),
            Err(_) => Err(count_fault(&mut self.faults, SourceFault)),
        }
    }
}

/// A sink in memory, whose calls, counted from 1, fail exactly where they are listed or where the piece is longer than
/// the room that is left. A call that fails writes nothing.
#[derive(Drop)]
pub struct MemorySink {
    bytes: Vec<u8>,
    room: usize,
    schedule: Schedule,
}

impl Model for MemorySink {
    ghost use Rattle.std.specs.Prelude.{◌≤◌, length};
    ghost use Rattle.std.specs.Vec.{vec_capacity};
    ghost use Rattle.me_disk.specs.Streams.{SinkBytes};

    ghost Value = { SinkBytes };

    ghost view = { λ s. record { written = s.bytes.items; room = s.room; schedule = s.schedule } };

    ghost invariant = { λ s. (length s.bytes.items ≤ s.room) × (s.room ≤ vec_capacity s.bytes) };
}

impl MemorySink {
    /// A sink with room for so many bytes. The calls that are to fail are listed by number, in ascending order. It takes
    /// all its memory here.
    ///
    /// # Errors
    ///
    /// `NoMemory` where there is none for the room.
    pub fn new(alloc: Global, room: usize, failing: Vec<u64>) -> Result<MemorySink, NoMemory>
        ensures { IfOk result (λ s. s ≡ record { written = []; room = room; schedule = fresh_schedule failing.items }) }
    {
        Ok(MemorySink {
            bytes: Vec::with_capacity(alloc, room)?,
            room,
            schedule: Schedule::new(failing),
        })
    }

    /// The bytes that were written.
    pub fn written(&self) -> &[u8]
        ensures { result.now ≡ self.now.written }
    {
        self.bytes.as_slice()
    }
}

impl Sink for MemorySink {
    ghost contents = { λ s. Some s.written };

    ghost faults = { λ s. s.schedule.faults };

    fn write_all(&mut self, bytes: &[u8]) -> Result<(), SinkFault>
        ensures cause { CountsFaults self.old.schedule.faults self.new.schedule.faults result }
        ensures call { SinkCall bytes.now self.old self.new result }
    {
        if self.schedule.is_listed() || self.room - self.bytes.len() < bytes.len() {
            return Err(count_fault(&mut self.schedule.faults, SinkFault));
        }
        match self.bytes.extend_from_slice(bytes) {
            Ok(()) => Ok(()),
            Err(_) => unreachable!(),
        }
    }
}

/// A sink over a writer of std, such as the standard output. It doesn't tell its bytes.
#[derive(Drop)]
pub struct StdSink<W> {
    writer: W,
    faults: u64,
}

impl<W: Write> StdSink<W> {
    /// A sink that hands each piece to this writer and flushes it. Each error of the writer is counted as a fault, and
    /// so is a writer that takes nothing of a piece.
    pub fn new(writer: W) -> StdSink<W>
        ensures { result.faults ≡ 0 }
    {
        StdSink { writer, faults: 0 }
    }

    fn put(&mut self, bytes: &[u8]) -> std::io::Result<()>
        ensures { self.new.faults ≡ self.old.faults }
    {
        self.writer.write_all(bytes)?;
        self.writer.flush()
    }
}

impl<W: Write> Sink for StdSink<W> {
    ghost contents = { λ s. None };

    ghost faults = { λ s. s.faults };

    fn write_all(&mut self, bytes: &[u8]) -> Result<(), SinkFault> {
        match self.put(bytes) {
            Ok(()) => Ok(()),
            Err(_) => Err(count_fault(&mut self.faults, SinkFault)),
        }
    }
}
