//! The chunks of a RIFF file, one after the other (Multimedia Programming Interface and Data Specifications 1.0, RIFF).
//! A chunk is an identifier of four bytes, a little-endian size of four, the body, and a pad byte where the size is odd.
//! It knows no chunk by name, and no size that doesn't stand in a header: it is told those.
#![tactic(auto)]

ghost use Rattle.std.specs.Prelude.{OnOk, ◌≡◌, ◌↔◌, ◌+◌, ◌%◌, ◌^◌, ◌<◌, ◌≤◌, ℕ, List, length, take, drop, min, IsTrue, IfOk, IfSome, IsNone, OnErr, IsErr, IfErr, if◌then◌else◌};
ghost use Rattle.std.specs.Int.{w32, from_le_bytes};
ghost use Rattle.me_disk.specs.Causes.{Rose};
ghost use Rattle.me_disk.specs.Steps.{HasCause, ReadsOnly};
ghost use Rattle.me_disk.specs.Holds.{Holds, Inside};
ghost use Rattle.me_disk.specs.Windows.{IsWindow};
ghost use Rattle.container_model.specs.Windows.{window};
ghost use Rattle.container_model.specs.Chunk.{Form, Header, full_header, chunks, and_then, stopped, passes};
ghost use Rattle.container_model.specs.Sizes.{Sizes, riff_front};
ghost use Rattle.riff_form.specs.Walk.{InOrder, place_after, FrontIs, Passed, Cut, Stepped, Stuck};

use me_disk::{Depot, DepotFault, HeaderWindow};
use part_tree::{FourCc, Span};

/// The eight bytes before a chunk's body: its identifier, its place in the file and the size that stands in its header.
#[derive(Clone, Copy, Debug, PartialEq, Eq)]
pub struct Head {
    pub id: FourCc,
    pub at: u64,
    pub field: u32,
}

/// A chunk: the place of its header, its body, the place where the next begins, and whether a pad byte follows the body.
#[derive(Clone, Copy, Debug, PartialEq, Eq)]
pub struct ChunkAt {
    pub id: FourCc,
    pub at: u64,
    pub body: Span,
    pub next: u64,
    pub padded: bool,
}

/// The body of the chunk at this place ends past the walker's end.
#[derive(Clone, Copy, Debug, PartialEq, Eq)]
pub struct Truncated {
    pub at: u64,
}

/// Goes over the chunks that follow each other from a place up to an end, which is the end of their parent. Headers are read
/// through a window of 4,096 bytes.
#[derive(Drop)]
pub struct Walker {
    pub at: u64,
    pub end: u64,
    pub window: HeaderWindow,
    ghost in_order: { at ≤ end },
    ghost small: { end < 2 ^ 63 },
}

impl Walker {
    /// A walker that stands at a place, counted in bytes from 0.
    pub fn new(at: u64, end: u64) -> Walker
        requires in_order { at ≤ end }
        requires small { end < 2 ^ 63 }
        ensures at { result.at ≡ at }
        ensures end { result.end ≡ end }
        ensures empty { (result.window.from ≡ 0) × (result.window.len ≡ 0) }
    {
        let window = HeaderWindow::new();
        Walker { at, end, window }
    }

    /// The header of the next chunk. None where fewer than eight bytes are left.
    pub fn head<D: Depot>(&mut self, depot: &mut D) -> Result<Option<Head>, DepotFault>
        requires inside { Inside self.old.end (D.disk depot.old) }
        requires window { IsWindow (D.disk depot.old) self.old.window }
        ensures none { IfOk result (λ found. IsNone found ↔ (self.old.end < self.old.at + 8)) }
        ensures place { IfOk result (λ found. IfSome found (λ head. head.at ≡ self.old.at)) }
        ensures letters { IfOk result (λ found. IfSome found (λ head. length head.id.0 ≡ 4)) }
        ensures front { IfOk result (λ found. (b : List ℕ) → Holds (D.disk depot.old) b
            → FrontIs (window b self.old.at self.old.end) found) }
        ensures stays { (self.new.at ≡ self.old.at) × (self.new.end ≡ self.old.end) }
        ensures window { IsWindow (D.disk depot.new) self.new.window }
        ensures reads { ReadsOnly (D.disk depot.old) (D.disk depot.new) }
        ensures cause { HasCause (D.disk depot.old) (D.disk depot.new) result }
    {
        if self.end - self.at < 8 {
            return Ok(None);
        }
        let mut bytes = [0u8; 8];
        self.window.read_at(depot, self.at, self.end, &mut bytes)?;
        Ok(Some(head_of(self.at, &bytes)))
    }

    /// Steps over the chunk with this header and this size of its body, whether that is the header's or one from a table.
    /// `Truncated` where the body ends past the walker's end; the walker then stays.
    pub fn pass(&mut self, head: Head, size: u64) -> Result<ChunkAt, Truncated>
        requires place { head.at ≡ self.old.at }
        requires whole { self.old.at + 8 ≤ self.old.end }
        ensures truncated { IsErr result ↔ (self.old.end < self.old.at + 8 + size) }
        ensures place { IfErr result (λ fault. fault.at ≡ head.at) }
        ensures numbers { IfOk result (λ chunk. (chunk.id ≡ head.id) × (chunk.at ≡ head.at)
            × (chunk.body ≡ record { at = head.at + 8; len = size })
            × (chunk.next ≡ min self.old.end (head.at + 8 + size + size % 2))
            × (IsTrue chunk.padded ↔ ((size % 2 ≡ 1) × (head.at + 8 + size < self.old.end)))) }
        ensures ahead { IfOk result (λ chunk. self.old.at + 8 ≤ chunk.next) }
        ensures moved { IfOk result (λ chunk. (self.new.at ≡ chunk.next) × (self.new.end ≡ self.old.end)) }
        ensures stays { OnErr result ((self.new.at ≡ self.old.at) × (self.new.end ≡ self.old.end)) }
        ensures window { self.new.window ≡ self.old.window }

        // One step of the chunks of each file in which the header stands here.
        ensures chunk { IfOk result (λ chunk. (b : List ℕ) → self.old.end ≤ length b
            → Passed b self.old.at self.old.end chunk) }
        ensures cut { OnErr result ((b : List ℕ) → self.old.end ≤ length b → Cut b self.old.at self.old.end size) }
    {
        let room = self.end - self.at - 8;
        if size > room {
            return Err(Truncated { at: head.at });
        }
        let start = self.at + 8;
        let padded = size % 2 == 1 && size < room;
        let next = self.end.min(start + size + size % 2);
        self.at = next;
        Ok(ChunkAt {
            id: head.id,
            at: head.at,
            body: Span {
                at: start,
                len: size,
            },
            next,
            padded,
        })
    }
}

// A header of eight bytes.
fn head_of(at: u64, bytes: &[u8; 8]) -> Head
    ensures place { result.at ≡ at }
    ensures letters { length result.id.0 ≡ 4 }
    ensures id { result.id.0 ≡ take 4 bytes.now }
    ensures field { result.field ≡ from_le_bytes w32 (take 4 (drop 4 bytes.now)) }
{
    let id = FourCc([bytes[0], bytes[1], bytes[2], bytes[3]]);
    let field = u32::from_le_bytes([bytes[4], bytes[5], bytes[6], bytes[7]]);
    Head { id, at, field }
}

/// Why a walk ends before its end.
#[derive(Clone, Copy, Debug, PartialEq, Eq)]
pub enum StepFault {
    Truncated { at: u64 },
    Depot,
}

impl Walker {
    /// Steps over the next chunk, whose size is in its header. None where fewer than eight bytes are left.
    pub fn step<D: Depot>(&mut self, depot: &mut D) -> Result<Option<ChunkAt>, StepFault>
        requires inside { Inside self.old.end (D.disk depot.old) }
        requires window { IsWindow (D.disk depot.old) self.old.window }
        ensures chunk { IfOk result (λ found. IfSome found (λ chunk. InOrder self.old.at self.old.end chunk)) }
        ensures moved { IfOk result (λ found. self.new.at ≡ place_after self.old.at found) }
        ensures end { self.new.end ≡ self.old.end }
        ensures stays { OnErr result (self.new.at ≡ self.old.at) }
        ensures row { (b : List ℕ) → Holds (D.disk depot.old) b
            → IfOk result (λ found. Stepped b self.old.at self.old.end found) }
        ensures stuck { (b : List ℕ) → Holds (D.disk depot.old) b
            → IfErr result (λ fault. Stuck b self.old.at self.old.end fault) }
        ensures window { IsWindow (D.disk depot.new) self.new.window }
        ensures reads { ReadsOnly (D.disk depot.old) (D.disk depot.new) }
        ensures cause { result ≡ Err StepFault.Depot → Rose (D.disk depot.old).faults (D.disk depot.new).faults }
    {
        let head = match self.head(depot) {
            Err(_) => return Err(StepFault::Depot),
            Ok(None) => return Ok(None),
            Ok(Some(head)) => head,
        };
        match self.pass(head, u64::from(head.field)) {
            Err(fault) => Err(StepFault::Truncated { at: fault.at }),
            Ok(chunk) => Ok(Some(chunk)),
        }
    }

    /// The same over bytes in memory.
    pub fn step_in(&mut self, bytes: &[u8]) -> Result<Option<ChunkAt>, Truncated>
        requires inside { self.old.end ≡ length bytes.now }
        ensures chunk { IfOk result (λ found. IfSome found (λ chunk. InOrder self.old.at self.old.end chunk)) }
        ensures moved { IfOk result (λ found. self.new.at ≡ place_after self.old.at found) }
        ensures end { self.new.end ≡ self.old.end }
        ensures stays { OnErr result (self.new.at ≡ self.old.at) }
        ensures row { IfOk result (λ found. Stepped bytes.now self.old.at self.old.end found) }
        ensures stuck { IfErr result
            (λ fault. Stuck bytes.now self.old.at self.old.end (StepFault.Truncated fault.at)) }
    {
        let Some(head) = head_in(bytes, self.at as usize) else {
            return Ok(None);
        };
        match self.pass(head, u64::from(head.field)) {
            Err(fault) => Err(fault),
            Ok(chunk) => Ok(Some(chunk)),
        }
    }
}

/// The header at a place of some bytes. None where fewer than eight are left.
pub fn head_in(bytes: &[u8], at: usize) -> Option<Head>
    requires { at ≤ length bytes.now }
    ensures none { IsNone result ↔ (length bytes.now < at + 8) }
    ensures place { IfSome result (λ head. head.at ≡ at) }
    ensures letters { IfSome result (λ head. length head.id.0 ≡ 4) }
    ensures front { FrontIs (window bytes.now at (length bytes.now)) result }
{
    if bytes.len() - at < 8 {
        return None;
    }
    let mut first = [0u8; 8];
    first.copy_from_slice(&bytes[at..at + 8]);
    Some(head_of(at as u64, &first))
}
