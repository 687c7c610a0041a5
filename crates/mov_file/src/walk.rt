// The walk over the atoms of a file.
ghost use Rattle.std.specs.Prelude.{◌≡◌, ◌≤◌, ◌<◌, ◌+◌, ◌*◌, ◌∷◌, ◌^◌, ℕ, List, [], length, OnOk, IfOk, IsNone, IfSome, Some, None, true, codes, not, ◌&&◌};
ghost use Rattle.me_disk.specs.Causes.{Rose};
ghost use Rattle.me_disk.specs.Steps.{HasCause, ReadsOnly};
ghost use Rattle.me_disk.specs.Holds.{Holds, Inside};
ghost use Rattle.container_model.specs.Chunk.{ends, spell};
ghost use Rattle.container_model.specs.Walk.{Step, chunk_at};
ghost use Rattle.std.specs.Str.{bytes_eq};
ghost use Rattle.mov_model.specs.Atoms.{Place, moov};
ghost use Rattle.mov_model.specs.Why.{end_tests, met_moov, step_tests};
ghost use Rattle.container_model.specs.Tests.{first};
ghost use Rattle.qt_atoms.specs.Walk.{InOrder, atom_in};
ghost use Rattle.mov_file.specs.Holder.{level_in, place_of};
ghost use Rattle.mov_file.specs.Sound.{LiesIn};
ghost use Rattle.mov_file.specs.Walked.{Few, Knows, Walks, atom_told, deep_told, file_told, kid_told, moov_told, told_in};

use crate::holder::{Holder, opened, parent};
use crate::reading::{Reading, keep_rest, remember};
use crate::refusals::{file_why, moov_why};
use crate::tables::track_why;
use me_disk::{Depot, DepotFault};
use part_tree::{ReadFault, Span, Why};
use qt_atoms::{AtomAt, AtomFault, AtomWalker, Parent};

const MOST_ATOMS: u64 = 65_536;

// What an atom is refused for.
fn why_not<D: Depot>(
    reading: &Reading,
    depot: &mut D,
    holder: Holder,
    atom: &AtomAt,
) -> Result<Option<Why>, DepotFault>
    requires inside { Inside atom.now.next (D.disk depot.old) }
    requires small { atom.now.next < 2 ^ 63 }
    requires order { InOrder atom.now.at atom.now.next atom.now }
    ensures why { (b : List ℕ) (before : List (Step Place)) → Holds (D.disk depot.old) b
        → atom.now.at + length (spell (atom_in b atom.now)) ≡ atom.now.next → Knows reading.now before
        → IfOk result (λ why. why
        ≡ first (step_tests before (chunk_at (place_of holder) atom.now.at (atom_in b atom.now)))) }
    ensures room { IfOk result (λ why. IsNone why → reading.now.count < 65536) }
    ensures reads { ReadsOnly (D.disk depot.old) (D.disk depot.new) }
    ensures cause { HasCause (D.disk depot.old) (D.disk depot.new) result }
{
    if reading.count >= MOST_ATOMS {
        return Ok(Some(Why::TooManyParts));
    }
    match holder {
        Holder::File => Ok(file_why(reading.has_moov, atom)),
        Holder::Moov => Ok(moov_why(reading.has_user, atom)),
        Holder::UserData => Ok(None),
        _ => track_why(reading, depot, holder, atom),
    }
}

// Meets an atom, without those in it.
fn take_atom<D: Depot>(
    reading: &mut Reading,
    depot: &mut D,
    holder: Holder,
    atom: &AtomAt,
) -> Result<(), ReadFault>
    requires inside { Inside atom.now.next (D.disk depot.old) }
    requires small { atom.now.next < 2 ^ 63 }
    requires order { InOrder atom.now.at atom.now.next atom.now }
    requires few { Few reading.old }
    ensures took { (b : List ℕ) (before : List (Step Place)) → Holds (D.disk depot.old) b
        → atom.now.at + length (spell (atom_in b atom.now)) ≡ atom.now.next → Knows reading.old before
        → Walks before (atom_told reading.old.has_user (place_of holder) atom.now.at (atom_in b atom.now))
        reading.old reading.new result }
    ensures lies { OnOk result (LiesIn holder atom.now.at atom.now.next reading.old reading.new) }
    ensures few { OnOk result (Few reading.new) }
    ensures reads { ReadsOnly (D.disk depot.old) (D.disk depot.new) }
    ensures cause { result ≡ Err ReadFault.Depot → Rose (D.disk depot.old).faults (D.disk depot.new).faults }
{
    match why_not(reading, depot, holder, atom) {
        Err(_) => return Err(ReadFault::Depot),
        Ok(Some(why)) => return Err(ReadFault::Why(why)),
        Ok(None) => {}
    }
    match remember(reading, holder, atom) {
        Err(_) => Err(ReadFault::Memory),
        Ok(()) => Ok(()),
    }
}

// Why the atoms of a file are refused at their end.
fn end_why(has_moov: bool, holder: Holder) -> Option<Why>
    ensures { (before : List (Step Place)) → has_moov ≡ met_moov before
        → result ≡ first (end_tests (place_of holder) before) }
{
    match holder {
        Holder::File => { if has_moov { None } else { Some(Why::NoMoov) } }
        _ => None,
    }
}

// Meets an atom and those in it, so many levels deep.
#[cycle(walk)]
fn walk_atom<D: Depot>(
    reading: &mut Reading,
    depot: &mut D,
    holder: Holder,
    atom: &AtomAt,
    depth: u32,
) -> Result<(), ReadFault>
    requires inside { Inside atom.now.next (D.disk depot.old) }
    requires small { atom.now.next < 2 ^ 63 }
    requires order { InOrder atom.now.at atom.now.next atom.now }
    requires few { Few reading.old }
    ensures walks { (b : List ℕ) (before : List (Step Place)) → Holds (D.disk depot.old) b
        → atom.now.at + length (spell (atom_in b atom.now)) ≡ atom.now.next → Knows reading.old before
        → Walks before (deep_told reading.old.has_user depth (place_of holder) atom.now.at (atom_in b atom.now))
        reading.old reading.new result }
    ensures lies { OnOk result (LiesIn holder atom.now.at atom.now.next reading.old reading.new) }
    ensures few { OnOk result (Few reading.new) }
    ensures reads { ReadsOnly (D.disk depot.old) (D.disk depot.new) }
    ensures cause { result ≡ Err ReadFault.Depot → Rose (D.disk depot.old).faults (D.disk depot.new).faults }
{
    match take_atom(reading, depot, holder, atom) {
        Err(fault) => return Err(fault),
        Ok(()) => {}
    }
    if depth == 0 {
        return Ok(());
    }
    match opened(holder, atom.kind) {
        None => Ok(()),
        Some(inner) => walk_atoms(reading, depot, inner, atom.body, depth - 1),
    }
}

// Meets the atoms of a range, and the end of that.
#[cycle(walk)]
fn walk_atoms<D: Depot>(
    reading: &mut Reading,
    depot: &mut D,
    holder: Holder,
    span: Span,
    depth: u32,
) -> Result<(), ReadFault>
    requires plain { place_of holder ≡ moov → ⊥ }
    requires inside { Inside (span.at + span.len) (D.disk depot.old) }
    requires small { span.at + span.len < 2 ^ 63 }
    requires few { Few reading.old }
    ensures walks { (b : List ℕ) (before : List (Step Place)) → Holds (D.disk depot.old) b → Knows reading.old before
        → Walks before (told_in depth (place_of holder) (level_in holder) b span.at (span.at + span.len)) reading.old
        reading.new result }
    ensures lies { OnOk result (LiesIn holder span.at (span.at + span.len) reading.old reading.new) }
    ensures few { OnOk result (Few reading.new) }
    ensures reads { ReadsOnly (D.disk depot.old) (D.disk depot.new) }
    ensures cause { result ≡ Err ReadFault.Depot → Rose (D.disk depot.old).faults (D.disk depot.new).faults }
{
    let mut walker = AtomWalker::new(span.at, span.at + span.len, parent(holder));
    'atoms: loop {
        let atom = match walker.next(depot) {
            Err(AtomFault::Depot) => return Err(ReadFault::Depot),
            Err(AtomFault::SizeSmall { at }) => return Err(ReadFault::Why(Why::SizeSmall { at })),
            Err(AtomFault::Truncated { at }) => return Err(ReadFault::Why(Why::Truncated { at })),
            Ok(None) => break,
            Ok(Some(atom)) => atom,
        };
        match walk_atom(reading, depot, holder, &atom, depth) {
            Err(fault) => return Err(fault),
            Ok(()) => {}
        }
    }
    match end_why(reading.has_moov, holder) {
        None => {}
        Some(why) => return Err(ReadFault::Why(why)),
    }
    match keep_rest(reading, walker.at, walker.end) {
        Err(_) => Err(ReadFault::Memory),
        Ok(()) => Ok(()),
    }
}

// Meets the first user data of `moov`, and what is in it.
fn walk_user<D: Depot>(reading: &mut Reading, depot: &mut D, atom: &AtomAt) -> Result<(), ReadFault>
    requires inside { Inside atom.now.next (D.disk depot.old) }
    requires small { atom.now.next < 2 ^ 63 }
    requires order { InOrder atom.now.at atom.now.next atom.now }
    requires few { Few reading.old }
    ensures walks { (b : List ℕ) (before : List (Step Place)) → Holds (D.disk depot.old) b
        → atom.now.at + length (spell (atom_in b atom.now)) ≡ atom.now.next → Knows reading.old before
        → Walks before (kid_told reading.old.has_user true atom.now.at (atom_in b atom.now)) reading.old reading.new
        result }
    ensures lies { OnOk result (LiesIn Holder.Moov atom.now.at atom.now.next reading.old reading.new) }
    ensures few { OnOk result (Few reading.new) }
    ensures reads { ReadsOnly (D.disk depot.old) (D.disk depot.new) }
    ensures cause { result ≡ Err ReadFault.Depot → Rose (D.disk depot.old).faults (D.disk depot.new).faults }
{
    match take_atom(reading, depot, Holder::Moov, atom) {
        Err(fault) => return Err(fault),
        Ok(()) => {}
    }
    walk_atoms(reading, depot, Holder::UserData, atom.body, 0)
}

// Meets an atom of `moov`, and what is in it.
fn walk_kid<D: Depot>(reading: &mut Reading, depot: &mut D, atom: &AtomAt) -> Result<(), ReadFault>
    requires inside { Inside atom.now.next (D.disk depot.old) }
    requires small { atom.now.next < 2 ^ 63 }
    requires order { InOrder atom.now.at atom.now.next atom.now }
    requires few { Few reading.old }
    ensures walks { (b : List ℕ) (before : List (Step Place)) → Holds (D.disk depot.old) b
        → atom.now.at + length (spell (atom_in b atom.now)) ≡ atom.now.next → Knows reading.old before
        → Walks before (kid_told reading.old.has_user (not reading.old.has_user && bytes_eq atom.now.kind.0
        (codes "udta")) atom.now.at
        (atom_in b atom.now)) reading.old reading.new result }
    ensures lies { OnOk result (LiesIn Holder.Moov atom.now.at atom.now.next reading.old reading.new) }
    ensures few { OnOk result (Few reading.new) }
    ensures reads { ReadsOnly (D.disk depot.old) (D.disk depot.new) }
    ensures cause { result ≡ Err ReadFault.Depot → Rose (D.disk depot.old).faults (D.disk depot.new).faults }
{
    if !reading.has_user & atom.kind.is(b"udta") {
        return walk_user(reading, depot, atom);
    }
    walk_atom(reading, depot, Holder::Moov, atom, 5)
}

/// Meets the atoms of `moov`, whose body this is, depth first, and its end: each is tested in the order of reading, and the
/// first test that holds is told. What is left behind the atoms is a rest.
pub fn walk_moov<D: Depot>(
    reading: &mut Reading,
    depot: &mut D,
    span: Span,
) -> Result<(), ReadFault>
    requires inside { Inside (span.at + span.len) (D.disk depot.old) }
    requires small { span.at + span.len < 2 ^ 63 }
    requires few { Few reading.old }
    ensures walks { (b : List ℕ) (before : List (Step Place)) → Holds (D.disk depot.old) b → Knows reading.old before
        → Walks before (moov_told reading.old.has_user b span.at (span.at + span.len)) reading.old reading.new result }
    ensures lies { OnOk result (LiesIn Holder.Moov span.at (span.at + span.len) reading.old reading.new) }
    ensures few { OnOk result (Few reading.new) }
    ensures reads { ReadsOnly (D.disk depot.old) (D.disk depot.new) }
    ensures cause { result ≡ Err ReadFault.Depot → Rose (D.disk depot.old).faults (D.disk depot.new).faults }
{
    let mut walker = AtomWalker::new(span.at, span.at + span.len, Parent::Atom);
    'kids: loop {
        let atom = match walker.next(depot) {
            Err(AtomFault::Depot) => return Err(ReadFault::Depot),
            Err(AtomFault::SizeSmall { at }) => return Err(ReadFault::Why(Why::SizeSmall { at })),
            Err(AtomFault::Truncated { at }) => return Err(ReadFault::Why(Why::Truncated { at })),
            Ok(None) => break,
            Ok(Some(atom)) => atom,
        };
        match walk_kid(reading, depot, &atom) {
            Err(fault) => return Err(fault),
            Ok(()) => {}
        }
    }
    match keep_rest(reading, walker.at, walker.end) {
        Err(_) => Err(ReadFault::Memory),
        Ok(()) => Ok(()),
    }
}

/// Meets the atoms of a file of this length, without those in them: each is tested in the order of reading, and the first test
/// that holds is told. At the end there has to be a `moov`.
pub fn walk_file<D: Depot>(reading: &mut Reading, depot: &mut D, len: u64) -> Result<(), ReadFault>
    requires inside { Inside len (D.disk depot.old) }
    requires small { len < 2 ^ 63 }
    requires few { Few reading.old }
    ensures walks { (b : List ℕ) (before : List (Step Place)) → Holds (D.disk depot.old) b → length b ≡ len
        → Knows reading.old before
        → Walks before (file_told b) reading.old reading.new result }
    ensures lies { OnOk result (LiesIn Holder.File 0 len reading.old reading.new) }
    ensures few { OnOk result (Few reading.new) }
    ensures reads { ReadsOnly (D.disk depot.old) (D.disk depot.new) }
    ensures cause { result ≡ Err ReadFault.Depot → Rose (D.disk depot.old).faults (D.disk depot.new).faults }
{
    walk_atoms(reading, depot, Holder::File, Span { at: 0, len }, 0)
}
