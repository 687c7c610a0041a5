// A depot in memory, which can fail, and of which a crash may leave what a disk may.
ghost use Rattle.std.specs.Vec.{vec_capacity};
ghost use Rattle.std.specs.Prelude.{◌≡◌, ◌+◌, ◌-◌, ◌<◌, ◌≤◌, ◌^◌, ◌↔◌, [], Some, IfOk, IfSome, OnOk, IsTrue, IsSome, length, take, drop, option_copied};
ghost use Rattle.me_disk.specs.Calls.Call.{BeginWork, AppendWork, SyncWork, DropWork, InstallMain, InstallJournal, WriteMain, SetMainLen, SyncMain, DropJournal};
ghost use Rattle.me_disk.specs.Calls.{Allows};
ghost use Rattle.me_disk.specs.Disk.{held, bytes_of, read_as, Only};
ghost use Rattle.me_disk.specs.Memory.{memory_disk, memory_calls, memory_lawful, new_memory, items_of, Made, MadeRead};
ghost use Rattle.me_disk.specs.Reopened.{reopened};
ghost use Rattle.me_disk.specs.Steps.{Does, ReadsOnly, HasCause, Counted};
ghost use Rattle.me_disk.specs.Store.{held_of, IsHeld};

use crate::depot::{Depot, DepotFault, Slot, WorkState};
use crate::limits::{FailAt, Limits, Room};
use crate::store::{Held, Logged, Mark, Store, put};
use me_bytes::NoMemory;
use std::alloc::Global;
use std::marker::Model;

/// What a crash is said to have left of the writes since `Main` was last made safe.
#[derive(Clone, Copy, Debug, PartialEq, Eq)]
pub enum Pick {
    /// None of them.
    Before,
    /// All of them.
    After,
    /// The first so many of their bytes, in the order of the calls. A cut is left where each write before it is whole.
    Torn(u64),
}

/// A depot in memory. Its calls, counted from 1, fail exactly where they are listed, come after the stop, or have no
/// room; after the stop or without room a call fails undone, whatever the list says.
#[derive(Drop)]
pub struct MemoryDepot {
    store: Store,
}

impl Model for MemoryDepot {
    ghost use Rattle.me_disk.specs.Memory.{Memory};
    ghost use Rattle.me_disk.specs.Store.{memory_of, IsSound};

    ghost Value = { Memory };

    ghost view = { λ d. memory_of d.store };

    ghost invariant = { λ d. IsSound d.store };
}

impl Depot for MemoryDepot {
    ghost disk = { memory_disk };

    ghost calls = { memory_calls };

    ghost lawful = { memory_lawful };

    fn faults(&self) -> u64 {
        self.store.limits.faults()
    }

    fn has(&mut self, slot: Slot) -> Result<bool, DepotFault>
        ensures answer { IfOk result (λ there. IsTrue there ↔ IsSome (held slot (memory_disk self.old).slots)) }
        ensures reads { ReadsOnly (memory_disk self.old) (memory_disk self.new) }
        ensures cause { HasCause (memory_disk self.old) (memory_disk self.new) result }
        ensures made { MadeRead self.old self.new result }
        ensures counted { Counted 1 (memory_calls self.old) (memory_calls self.new) }
    {
        self.store.has(slot)
    }

    fn len(&mut self, slot: Slot) -> Result<u64, DepotFault>
        ensures answer { IfOk result (λ n. n ≡ length (bytes_of (held slot (memory_disk self.old).slots))) }
        ensures limit { IfOk result (λ n. n < 2 ^ 63) }
        ensures reads { ReadsOnly (memory_disk self.old) (memory_disk self.new) }
        ensures cause { HasCause (memory_disk self.old) (memory_disk self.new) result }
        ensures made { MadeRead self.old self.new result }
        ensures counted { Counted 1 (memory_calls self.old) (memory_calls self.new) }
    {
        self.store.len(slot)
    }

    fn read_at(&mut self, slot: Slot, at: u64, into: &mut [u8]) -> Result<(), DepotFault>
        requires { at + length into.old ≤ length (bytes_of (held slot (memory_disk self.old).slots)) }
        ensures bytes { OnOk result (into.new
            ≡ take (length into.old) (drop at (bytes_of (held slot (memory_disk self.old).slots)))) }
        ensures reads { ReadsOnly (memory_disk self.old) (memory_disk self.new) }
        ensures cause { HasCause (memory_disk self.old) (memory_disk self.new) result }
        ensures made { MadeRead self.old self.new result }
        ensures counted { Counted 1 (memory_calls self.old) (memory_calls self.new) }
    {
        self.store.read_at(slot, at, into)
    }

    fn begin_work(&mut self) -> Result<(), DepotFault>
        ensures does { Does BeginWork (memory_disk self.old) (memory_disk self.new) result }
        ensures made { Made BeginWork self.old self.new result }
        ensures counted { Counted 1 (memory_calls self.old) (memory_calls self.new) }
    {
        self.store.make(Logged::Begin, &[])
    }

    fn append_work(&mut self, bytes: &[u8]) -> Result<(), DepotFault>
        requires { Allows (AppendWork bytes.now) (memory_disk self.old) }
        ensures does { Does (AppendWork bytes.now) (memory_disk self.old) (memory_disk self.new) result }
        ensures made { Made (AppendWork bytes.now) self.old self.new result }
        ensures counted { Counted 1 (memory_calls self.old) (memory_calls self.new) }
    {
        self.store.make(Logged::Append(bytes.len()), bytes)
    }

    fn sync_work(&mut self) -> Result<(), DepotFault>
        requires { Allows SyncWork (memory_disk self.old) }
        ensures does { Does SyncWork (memory_disk self.old) (memory_disk self.new) result }
        ensures made { Made SyncWork self.old self.new result }
        ensures counted { Counted 1 (memory_calls self.old) (memory_calls self.new) }
    {
        self.store.make(Logged::Sync, &[])
    }

    fn drop_work(&mut self) -> Result<(), DepotFault>
        ensures does { Does DropWork (memory_disk self.old) (memory_disk self.new) result }
        ensures made { Made DropWork self.old self.new result }
        ensures counted { Counted 1 (memory_calls self.old) (memory_calls self.new) }
    {
        self.store.make(Logged::Drop, &[])
    }

    fn install_main(&mut self) -> Result<(), DepotFault>
        requires { Allows InstallMain (memory_disk self.old) }
        ensures does { Does InstallMain (memory_disk self.old) (memory_disk self.new) result }
        ensures made { Made InstallMain self.old self.new result }
        ensures counted { Counted 1 (memory_calls self.old) (memory_calls self.new) }
    {
        self.store.make(Logged::ToMain, &[])
    }

    fn install_journal(&mut self) -> Result<(), DepotFault>
        requires { Allows InstallJournal (memory_disk self.old) }
        ensures does { Does InstallJournal (memory_disk self.old) (memory_disk self.new) result }
        ensures made { Made InstallJournal self.old self.new result }
        ensures counted { Counted 1 (memory_calls self.old) (memory_calls self.new) }
    {
        self.store.make(Logged::ToJournal, &[])
    }

    fn write_main(&mut self, at: u64, bytes: &[u8]) -> Result<(), DepotFault>
        requires { Allows (WriteMain at bytes.now) (memory_disk self.old) }
        ensures does { Does (WriteMain at bytes.now) (memory_disk self.old) (memory_disk self.new) result }
        ensures made { Made (WriteMain at bytes.now) self.old self.new result }
        ensures counted { Counted 1 (memory_calls self.old) (memory_calls self.new) }
    {
        self.store.make(Logged::Write(at, bytes.len()), bytes)
    }

    fn set_main_len(&mut self, n: u64) -> Result<(), DepotFault>
        requires { Allows (SetMainLen n) (memory_disk self.old) }
        ensures does { Does (SetMainLen n) (memory_disk self.old) (memory_disk self.new) result }
        ensures made { Made (SetMainLen n) self.old self.new result }
        ensures counted { Counted 1 (memory_calls self.old) (memory_calls self.new) }
    {
        self.store.make(Logged::Cut(n), &[])
    }

    fn sync_main(&mut self) -> Result<(), DepotFault>
        ensures does { Does SyncMain (memory_disk self.old) (memory_disk self.new) result }
        ensures made { Made SyncMain self.old self.new result }
        ensures counted { Counted 1 (memory_calls self.old) (memory_calls self.new) }
    {
        self.store.make(Logged::SyncFile, &[])
    }

    fn drop_journal(&mut self) -> Result<(), DepotFault>
        ensures does { Does DropJournal (memory_disk self.old) (memory_disk self.new) result }
        ensures made { Made DropJournal self.old self.new result }
        ensures counted { Counted 1 (memory_calls self.old) (memory_calls self.new) }
    {
        self.store.make(Logged::DropIt, &[])
    }
}

// The bytes, none where there are none to hold.
fn part(alloc: Global, from: Option<Vec<u8>>) -> Held
    ensures is { held_of result ≡ items_of from }
    ensures bytes { bytes_of (items_of from) ≡ result.bytes.items }
{
    match from {
        Some(bytes) => Held { there: true, bytes },
        None => Held {
            there: false,
            bytes: Vec::new(alloc),
        },
    }
}

// A buffer that holds nothing and can hold so many bytes.
fn room_for(alloc: Global, limit: usize) -> Result<Vec<u8>, NoMemory>
    ensures { IfOk result (λ v. (v.items ≡ []) × (limit ≤ vec_capacity v)) }
{
    match Vec::with_capacity(alloc, limit) {
        Ok(bytes) => Ok(bytes),
        Err(_) => Err(NoMemory),
    }
}

// A copy that can hold so many bytes.
fn copied(alloc: Global, from: &Held, limit: usize) -> Result<Held, NoMemory>
    requires held { bytes_of (held_of from.now) ≡ from.now.bytes.items }
    requires fits { length from.now.bytes.items ≤ limit }
    ensures { IfOk result (λ h. IsHeld h (held_of from.now) limit (limit - length from.now.bytes.items)) }
{
    let mut bytes = room_for(alloc, limit)?;
    put(&mut bytes, &from.bytes);
    Ok(Held {
        there: from.there,
        bytes,
    })
}

// The most bytes that a slot may come to hold, where there can be memory for as many.
fn limit_of(main: &Held, journal: &Held, room: Room) -> Option<usize>
    ensures { IfSome result (λ limit. (length main.now.bytes.items + room.bytes ≤ limit)
        × (length journal.now.bytes.items + room.bytes ≤ limit) × (room.bytes < 2 ^ 63)) }
{
    let longest = main.bytes.len().max(journal.bytes.len());
    if room.bytes < 1 << 63 {
        return longest.checked_add(room.bytes as usize);
    }
    None
}

impl MemoryDepot {
    /// A depot that holds these, with this room. Calls are counted from 1; those that are to fail are listed in ascending
    /// order, and of several entries for one call the first counts. It takes all the memory that its calls will need.
    ///
    /// # Errors
    ///
    /// `NoMemory` where there is none for the room.
    pub fn new(
        alloc: Global,
        main: Option<Vec<u8>>,
        journal: Option<Vec<u8>>,
        room: Room,
        failing: Vec<FailAt>,
    ) -> Result<Self, NoMemory>
        ensures { IfOk result (λ d. d ≡ new_memory main journal room failing.items) }
    {
        let given = part(alloc, main);
        let given_journal = part(alloc, journal);
        let Some(limit) = limit_of(&given, &given_journal, room) else {
            return Err(NoMemory);
        };
        let Ok(log) = Vec::with_capacity(alloc, room.calls as usize) else {
            return Err(NoMemory);
        };
        Ok(MemoryDepot {
            store: Store {
                first: copied(alloc, &given, limit)?,
                first_journal: copied(alloc, &given_journal, limit)?,
                main: copied(alloc, &given, limit)?,
                journal: copied(alloc, &given_journal, limit)?,
                work: Held {
                    there: false,
                    bytes: room_for(alloc, limit)?,
                },
                kept: copied(alloc, &given, limit)?,
                log,
                pool: room_for(alloc, limit)?,
                mark: Mark { calls: 0, bytes: 0 },
                limit,
                state: WorkState::Closed,
                limits: Limits::new(room, failing),
            },
        })
    }

    /// Lets every call after the n-th fail undone. It takes no memory.
    pub fn stop_after(&mut self, n: u64)
        ensures { self.new ≡ record self.old { limits = record self.old.limits { stop = Some n } } }
    {
        self.store.limits.stop_after(n);
    }

    /// The depot opened anew after a crash that left this: one of the images that it might have left. The list of failing
    /// calls is empty, there is no stop, all counts are 0, and the room is what was left. It takes no memory.
    pub fn reopen(self, pick: Pick) -> MemoryDepot
        ensures exact { result ≡ reopened pick self }
        ensures image { (memory_disk self).images (read_as (memory_disk result).slots) }
        ensures only { Only (read_as (memory_disk result).slots) (memory_disk result) }
    {
        let mut store = self.store;
        store.reopen(pick);
        MemoryDepot { store }
    }

    /// What a slot holds, None where it is absent.
    pub fn content(&self, slot: Slot) -> Option<&[u8]>
        ensures { option_copied result ≡ held slot (memory_disk self.now).slots }
    {
        let held = self.store.held(slot);
        if held.there {
            return Some(&held.bytes);
        }
        None
    }

    /// How many bytes were written: the pieces of all calls that were done.
    pub fn written(&self) -> u64
        ensures { result ≡ (memory_disk self.now).written }
    {
        self.store.pool.len() as u64
    }
}
