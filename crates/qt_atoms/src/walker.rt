// A walk over the atoms of a file or of some bytes.
ghost use Rattle.std.specs.Prelude.{OnOk, ◌≡◌, ◌↔◌, ◌+◌, ◌^◌, ◌<◌, ◌≤◌, ℕ, List, length, IfOk, IfSome, IsNone, OnErr, IfErr, None};
ghost use Rattle.me_disk.specs.Causes.{Rose};
ghost use Rattle.me_disk.specs.Steps.{HasCause, ReadsOnly};
ghost use Rattle.me_disk.specs.Holds.{Holds, Inside};
ghost use Rattle.me_disk.specs.Windows.{IsWindow};
ghost use Rattle.container_model.specs.Windows.{window};
ghost use Rattle.qt_atoms.specs.Headers.{Begins, BeginsWith, HasSize, HasWide};
ghost use Rattle.qt_atoms.specs.Walk.{InOrder, NoneLeft, Stepped, Stuck, StuckThere, level_of, place_after};

use crate::header::{Extent, Head, Parent, SizeForm, extent_of, head_of};
use me_disk::{Depot, DepotFault, HeaderWindow};
use part_tree::{FourCc, Span};

/// An atom: its type, the place and the form of its header, its body, and the place where the next begins.
#[derive(Clone, Copy, Debug, PartialEq, Eq)]
pub struct AtomAt {
    pub kind: FourCc,
    pub at: u64,
    pub body: Span,
    pub form: SizeForm,
    pub next: u64,
}

/// Why no atom is read at a place: its size is smaller than its header, or it passes the walker's end.
#[derive(Clone, Copy, Debug, PartialEq, Eq)]
pub enum HeaderFault {
    SizeSmall { at: u64 },
    Truncated { at: u64 },
}

/// Why a walk over a depot ends before its end.
#[derive(Clone, Copy, Debug, PartialEq, Eq)]
pub enum AtomFault {
    SizeSmall { at: u64 },
    Truncated { at: u64 },
    Depot,
}

/// Goes over the atoms that follow each other from a place up to an end, which is the end of their parent. Headers are read
/// through a window of 4,096 bytes.
#[derive(Drop)]
pub struct AtomWalker {
    pub at: u64,
    pub end: u64,
    pub parent: Parent,
    pub window: HeaderWindow,
    ghost in_order: { at ≤ end },
    ghost small: { end < 2 ^ 63 },
}

impl AtomWalker {
    /// A walker that stands at a place, counted in bytes from 0.
    pub fn new(at: u64, end: u64, parent: Parent) -> AtomWalker
        requires in_order { at ≤ end }
        requires small { end < 2 ^ 63 }
        ensures at { result.at ≡ at }
        ensures end { result.end ≡ end }
        ensures parent { result.parent ≡ parent }
        ensures empty { (result.window.from ≡ 0) × (result.window.len ≡ 0) }
    {
        let window = HeaderWindow::new();
        AtomWalker {
            at,
            end,
            parent,
            window,
        }
    }

    /// Steps over the next atom. None where fewer than eight bytes are left, and in user data where a size of 0 stands.
    /// `SizeSmall` where the size is smaller than the header that it counts, and `Truncated` where the header or the body
    /// passes the walker's end; the walker then stays.
    pub fn next<D: Depot>(&mut self, depot: &mut D) -> Result<Option<AtomAt>, AtomFault>
        requires inside { Inside self.old.end (D.disk depot.old) }
        requires window { IsWindow (D.disk depot.old) self.old.window }
        ensures few { self.old.end < self.old.at + 8 → result ≡ Ok None }
        ensures none { IfOk result (λ found. IsNone found → NoneLeft self.old.parent self.old.at self.old.end) }
        ensures atom { IfOk result (λ found. IfSome found (λ atom. InOrder self.old.at self.old.end atom)) }
        ensures moved { IfOk result (λ found. self.new.at ≡ place_after self.old.at found) }
        ensures end { self.new.end ≡ self.old.end }
        ensures parent { self.new.parent ≡ self.old.parent }
        ensures stays { OnErr result (self.new.at ≡ self.old.at) }
        ensures row { (b : List ℕ) → Holds (D.disk depot.old) b
            → IfOk result (λ found. Stepped (level_of self.old.parent) b self.old.at self.old.end found) }
        ensures stuck { (b : List ℕ) → Holds (D.disk depot.old) b
            → IfErr result (λ fault. StuckThere (level_of self.old.parent) b self.old.at self.old.end fault) }
        ensures window { IsWindow (D.disk depot.new) self.new.window }
        ensures reads { ReadsOnly (D.disk depot.old) (D.disk depot.new) }
        ensures cause { result ≡ Err AtomFault.Depot → Rose (D.disk depot.old).faults (D.disk depot.new).faults }
    {
        let head = match self.head(depot) {
            Err(_) => return Err(AtomFault::Depot),
            Ok(None) => return Ok(None),
            Ok(Some(head)) => head,
        };
        let wide = match self.wide(depot, head.size) {
            Err(_) => return Err(AtomFault::Depot),
            Ok(wide) => wide,
        };
        match self.pass(head, wide) {
            Err(HeaderFault::SizeSmall { at }) => Err(AtomFault::SizeSmall { at }),
            Err(HeaderFault::Truncated { at }) => Err(AtomFault::Truncated { at }),
            Ok(found) => Ok(found),
        }
    }

    /// The same over bytes in memory.
    pub fn next_in(&mut self, bytes: &[u8]) -> Result<Option<AtomAt>, HeaderFault>
        requires inside { self.old.end ≡ length bytes.now }
        ensures few { self.old.end < self.old.at + 8 → result ≡ Ok None }
        ensures none { IfOk result (λ found. IsNone found → NoneLeft self.old.parent self.old.at self.old.end) }
        ensures atom { IfOk result (λ found. IfSome found (λ atom. InOrder self.old.at self.old.end atom)) }
        ensures moved { IfOk result (λ found. self.new.at ≡ place_after self.old.at found) }
        ensures end { self.new.end ≡ self.old.end }
        ensures parent { self.new.parent ≡ self.old.parent }
        ensures stays { OnErr result (self.new.at ≡ self.old.at) }
        ensures row { IfOk result
            (λ found. Stepped (level_of self.old.parent) bytes.now self.old.at self.old.end found) }
        ensures stuck { IfErr result
            (λ fault. Stuck (level_of self.old.parent) bytes.now self.old.at self.old.end fault) }
    {
        let at = self.at as usize;
        let Some(head) = head_in(bytes, at) else {
            return Ok(None);
        };
        self.pass(head, wide_in(bytes, at))
    }

    // The first eight bytes of the next atom. None where fewer are left.
    fn head<D: Depot>(&mut self, depot: &mut D) -> Result<Option<Head>, DepotFault>
        requires inside { Inside self.old.end (D.disk depot.old) }
        requires window { IsWindow (D.disk depot.old) self.old.window }
        ensures few { self.old.end < self.old.at + 8 → result ≡ Ok None }
        ensures none { IfOk result (λ found. IsNone found → self.old.end < self.old.at + 8) }
        ensures letters { IfOk result (λ found. IfSome found (λ head. length head.kind.0 ≡ 4)) }
        ensures front { (b : List ℕ) → Holds (D.disk depot.old) b
            → IfOk result (λ found. BeginsWith (window b self.old.at self.old.end) found) }
        ensures stays { self.new.at ≡ self.old.at }
        ensures end { self.new.end ≡ self.old.end }
        ensures parent { self.new.parent ≡ self.old.parent }
        ensures window { IsWindow (D.disk depot.new) self.new.window }
        ensures reads { ReadsOnly (D.disk depot.old) (D.disk depot.new) }
        ensures cause { HasCause (D.disk depot.old) (D.disk depot.new) result }
    {
        if self.end - self.at < 8 {
            return Ok(None);
        }
        let mut bytes = [0u8; 8];
        self.window.read_at(depot, self.at, self.end, &mut bytes)?;
        Ok(Some(head_of(&bytes)))
    }

    // The number in the eight bytes behind the type, where the size before it says that it is there.
    fn wide<D: Depot>(&mut self, depot: &mut D, size: u32) -> Result<u64, DepotFault>
        requires inside { Inside self.old.end (D.disk depot.old) }
        requires window { IsWindow (D.disk depot.old) self.old.window }
        ensures wide { (b : List ℕ) → Holds (D.disk depot.old) b
            → IfOk result (λ wide. size ≡ 1 → HasWide (window b self.old.at self.old.end) wide) }
        ensures stays { self.new.at ≡ self.old.at }
        ensures end { self.new.end ≡ self.old.end }
        ensures parent { self.new.parent ≡ self.old.parent }
        ensures window { IsWindow (D.disk depot.new) self.new.window }
        ensures reads { ReadsOnly (D.disk depot.old) (D.disk depot.new) }
        ensures cause { HasCause (D.disk depot.old) (D.disk depot.new) result }
    {
        if size != 1 {
            return Ok(0);
        }
        if self.end - self.at < 16 {
            return Ok(0);
        }
        let mut bytes = [0u8; 8];
        self.window
            .read_at(depot, self.at + 8, self.end, &mut bytes)?;
        Ok(u64::from_be_bytes(bytes))
    }

    // Steps over the atom with this header.
    fn pass(&mut self, head: Head, wide: u64) -> Result<Option<AtomAt>, HeaderFault>
        requires room { self.old.at + 8 ≤ self.old.end }
        requires letters { length head.kind.0 ≡ 4 }
        ensures none { IfOk result (λ found. IsNone found → NoneLeft self.old.parent self.old.at self.old.end) }
        ensures atom { IfOk result (λ found. IfSome found (λ atom. InOrder self.old.at self.old.end atom)) }
        ensures moved { IfOk result (λ found. self.new.at ≡ place_after self.old.at found) }
        ensures end { self.new.end ≡ self.old.end }
        ensures parent { self.new.parent ≡ self.old.parent }
        ensures stays { OnErr result (self.new.at ≡ self.old.at) }
        ensures window { self.new.window ≡ self.old.window }
        ensures row { (b : List ℕ) → self.old.end ≤ length b → Begins (window b self.old.at self.old.end) head
            → HasSize (window b self.old.at self.old.end) head.size wide
            → IfOk result (λ found. Stepped (level_of self.old.parent) b self.old.at self.old.end found) }
        ensures stuck { (b : List ℕ) → self.old.end ≤ length b → Begins (window b self.old.at self.old.end) head
            → HasSize (window b self.old.at self.old.end) head.size wide
            → IfErr result (λ fault. Stuck (level_of self.old.parent) b self.old.at self.old.end fault) }
    {
        let room = self.end - self.at;
        match extent_of(self.parent, head.size, wide, room) {
            Extent::Rest => Ok(None),
            Extent::Small => Err(HeaderFault::SizeSmall { at: self.at }),
            Extent::PastEnd => Err(HeaderFault::Truncated { at: self.at }),
            Extent::Whole { form, len } => {
                if len > room - form.header_len() {
                    return Err(HeaderFault::Truncated { at: self.at });
                }
                let at = self.at;
                let start = at + form.header_len();
                self.at = start + len;
                Ok(Some(AtomAt {
                    kind: head.kind,
                    at,
                    body: Span { at: start, len },
                    form,
                    next: start + len,
                }))
            }
        }
    }
}

// The first eight bytes of the atom at a place of some bytes. None where fewer are left.
fn head_in(bytes: &[u8], at: usize) -> Option<Head>
    requires { at ≤ length bytes.now }
    ensures none { IsNone result ↔ (length bytes.now < at + 8) }
    ensures letters { IfSome result (λ head. length head.kind.0 ≡ 4) }
    ensures front { BeginsWith (window bytes.now at (length bytes.now)) result }
{
    if bytes.len() - at < 8 {
        return None;
    }
    let mut first = [0u8; 8];
    first.copy_from_slice(&bytes[at..at + 8]);
    Some(head_of(&first))
}

// The number in the eight bytes behind the type, or 0 where they aren't there.
fn wide_in(bytes: &[u8], at: usize) -> u64
    requires { at ≤ length bytes.now }
    ensures { HasWide (window bytes.now at (length bytes.now)) result }
{
    if bytes.len() - at < 16 {
        return 0;
    }
    let mut second = [0u8; 8];
    second.copy_from_slice(&bytes[at + 8..at + 16]);
    u64::from_be_bytes(second)
}
