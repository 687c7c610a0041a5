// What stands in the atoms of `moov`.
ghost use Rattle.std.specs.Prelude.{◌≡◌, ◌≤◌, ◌<◌, ◌+◌, ◌++◌, ◌∷◌, ◌&&◌, ◌^◌, ℕ, List, [], codes, false, length, not, IfOk, IfSome, OnOk, if◌then◌else◌};
ghost use Rattle.std.specs.Str.{bytes_eq};
ghost use Rattle.me_disk.specs.Causes.{Rose};
ghost use Rattle.me_disk.specs.Holds.{Holds, Inside};
ghost use Rattle.me_disk.specs.Steps.{ReadsOnly};
ghost use Rattle.me_disk.specs.Windows.{IsWindow};
ghost use Rattle.container_model.specs.Atoms.{atom as atom_of, atoms_in};
ghost use Rattle.container_model.specs.Chunk.{spell};
ghost use Rattle.container_model.specs.Walk.{along, walk};
ghost use Rattle.mov_model.specs.Atoms.{format};
ghost use Rattle.mov_model.specs.Movie.{movie_of};
ghost use Rattle.mov_model.specs.Reading.{inside_at, kid_steps};
ghost use Rattle.qt_atoms.specs.Walk.{InOrder, atom_in, level_of, place_after, row};
ghost use Rattle.mov_plan.specs.Atoms.{AreRow};
ghost use Rattle.mov_plan.specs.Nested.{IsNext, Meets, StandIn, counted};
ghost use Rattle.mov_plan.specs.Planned.{AreHolders, holds_by};
ghost use Rattle.mov_plan.specs.Within.{level_in, place_in};

use crate::within::{Within, holds, opened, parent};
use me_disk::Depot;
use part_tree::{NoMemory, Span};
use qt_atoms::{AtomAt, AtomFault, AtomWalker};
use std::alloc::Global;

// How many levels of atoms are opened, below `moov`.
const LEVELS: u32 = 5;

/// What stands in the atoms of `moov`: for each of them how many atoms are counted, itself among them; and the atoms in which
/// tables of chunk places stand, with the tables of four bytes, in reading order.
#[derive(Debug, Drop)]
pub struct Nested {
    pub counts: Vec<u64>,
    pub holders: Vec<AtomAt>,
}

/// Why what stands in atoms isn't told.
#[derive(Clone, Copy, Debug, PartialEq, Eq)]
pub enum NestedFault {
    /// The depot failed.
    Depot,
    /// There was no memory.
    Memory,
}

// The next atom of a walk, or none where none is read.
fn next_atom<D: Depot>(
    walker: &mut AtomWalker,
    depot: &mut D,
) -> Result<Option<AtomAt>, NestedFault>
    requires inside { Inside walker.old.end (D.disk depot.old) }
    requires window { IsWindow (D.disk depot.old) walker.old.window }
    ensures atom { IfOk result (λ found. IfSome found (λ atom. InOrder walker.old.at walker.old.end atom)) }
    ensures moved { IfOk result (λ found. walker.new.at ≡ place_after walker.old.at found) }
    ensures end { walker.new.end ≡ walker.old.end }
    ensures parent { walker.new.parent ≡ walker.old.parent }
    ensures next { (b : List ℕ) → Holds (D.disk depot.old) b
        → IfOk result (λ found. IsNext (level_of walker.old.parent) b walker.old.at walker.old.end found) }
    ensures window { IsWindow (D.disk depot.new) walker.new.window }
    ensures reads { ReadsOnly (D.disk depot.old) (D.disk depot.new) }
    ensures cause { result ≡ Err NestedFault.Depot → Rose (D.disk depot.old).faults (D.disk depot.new).faults }
{
    match walker.next(depot) {
        Err(AtomFault::Depot) => Err(NestedFault::Depot),
        Err(AtomFault::SizeSmall { at: _ }) => Ok(None),
        Err(AtomFault::Truncated { at: _ }) => Ok(None),
        Ok(found) => Ok(found),
    }
}

// One atom more, where tables of four bytes stand in it or it is one.
fn keep(holders: &mut Vec<AtomAt>, within: Within, atom: &AtomAt) -> Result<(), NoMemory>
    ensures { OnOk result (holders.new.items ≡ holders.old.items
        ++ (if holds_by (place_in within) (atom_of atom.now.kind.0 []) then atom.now ∷ [] else [])) }
{
    if !holds(within, atom.kind) {
        return Ok(());
    }
    match holders.push(*atom) {
        Err(_) => Err(NoMemory),
        Ok(()) => Ok(()),
    }
}

// Goes over an atom and those in it, so many levels deep, and counts them.
#[cycle(walk)]
fn walk_atom<D: Depot>(
    holders: &mut Vec<AtomAt>,
    depot: &mut D,
    within: Within,
    atom: &AtomAt,
    depth: u32,
) -> Result<u64, NestedFault>
    requires inside { Inside atom.now.next (D.disk depot.old) }
    requires small { atom.now.next < 2 ^ 63 }
    requires order { InOrder atom.now.at atom.now.next atom.now }
    ensures walks { (b : List ℕ) → Holds (D.disk depot.old) b
        → atom.now.at + length (spell (atom_in b atom.now)) ≡ atom.now.next
        → IfOk result (λ n. Meets (walk format depth (place_in within) atom.now.at (atom_in b atom.now)) n
        holders.old.items holders.new.items) }
    ensures few { IfOk result (λ n. atom.now.at + n ≤ atom.now.next) }
    ensures reads { ReadsOnly (D.disk depot.old) (D.disk depot.new) }
    ensures cause { result ≡ Err NestedFault.Depot → Rose (D.disk depot.old).faults (D.disk depot.new).faults }
{
    match keep(holders, within, atom) {
        Err(_) => return Err(NestedFault::Memory),
        Ok(()) => {}
    }
    if depth == 0 {
        return Ok(1);
    }
    match opened(within, atom.kind) {
        None => Ok(1),
        Some(inner) => {
            let count = walk_atoms(holders, depot, inner, atom.body, depth - 1)?;
            Ok(1 + count)
        }
    }
}

// Goes over the atoms of a range and those in them, so many levels deep, and counts them.
#[cycle(walk)]
fn walk_atoms<D: Depot>(
    holders: &mut Vec<AtomAt>,
    depot: &mut D,
    within: Within,
    span: Span,
    depth: u32,
) -> Result<u64, NestedFault>
    requires inside { Inside (span.at + span.len) (D.disk depot.old) }
    requires small { span.at + span.len < 2 ^ 63 }
    ensures walks { (b : List ℕ) → Holds (D.disk depot.old) b
        → IfOk result (λ n. Meets (along (walk format depth (place_in within)) span.at
        (row (level_in within) b span.at (span.at + span.len)).chunks) n holders.old.items holders.new.items) }
    ensures few { IfOk result (λ n. n ≤ span.len) }
    ensures reads { ReadsOnly (D.disk depot.old) (D.disk depot.new) }
    ensures cause { result ≡ Err NestedFault.Depot → Rose (D.disk depot.old).faults (D.disk depot.new).faults }
{
    let mut walker = AtomWalker::new(span.at, span.at + span.len, parent(within));
    let mut count = 0_u64;
    'atoms: loop {
        let atom = match next_atom(&mut walker, depot) {
            Err(fault) => return Err(fault),
            Ok(None) => return Ok(count),
            Ok(Some(atom)) => atom,
        };
        match walk_atom(holders, depot, within, &atom, depth) {
            Err(fault) => return Err(fault),
            Ok(more) => count += more,
        }
    }
}

// Goes over an atom of `moov` and those in it, behind user data or not, and counts them.
fn walk_kid<D: Depot>(
    holders: &mut Vec<AtomAt>,
    depot: &mut D,
    has_user: bool,
    atom: &AtomAt,
) -> Result<u64, NestedFault>
    requires inside { Inside atom.now.next (D.disk depot.old) }
    requires small { atom.now.next < 2 ^ 63 }
    requires order { InOrder atom.now.at atom.now.next atom.now }
    ensures walks { (b : List ℕ) → Holds (D.disk depot.old) b
        → atom.now.at + length (spell (atom_in b atom.now)) ≡ atom.now.next
        → IfOk result (λ n. Meets (kid_steps (not has_user && bytes_eq atom.now.kind.0 (codes "udta")) atom.now.at
        (atom_in b atom.now)) n holders.old.items holders.new.items) }
    ensures reads { ReadsOnly (D.disk depot.old) (D.disk depot.new) }
    ensures cause { result ≡ Err NestedFault.Depot → Rose (D.disk depot.old).faults (D.disk depot.new).faults }
{
    if !has_user & atom.kind.is(b"udta") {
        let count = walk_atoms(holders, depot, Within::UserData, atom.body, 0)?;
        return Ok(1 + count);
    }
    walk_atom(holders, depot, Within::Moov, atom, LEVELS)
}

/// What stands in the atoms of `moov`, which are these: of a track its atoms are opened down to its tables, and of the user data
/// only the first. Where no atom is read in one that is opened, nothing more is counted there.
pub fn nested_of<D: Depot>(
    alloc: Global,
    depot: &mut D,
    atoms: &[AtomAt],
) -> Result<Nested, NestedFault>
    requires stand { StandIn (D.disk depot.old) atoms.now }
    ensures counts { (b : List ℕ) → Holds (D.disk depot.old) b
        → AreRow b (inside_at (movie_of b)) atoms.now (atoms_in (movie_of b).movie).chunks
        → IfOk result (λ n. n.counts.items ≡ counted false (atoms_in (movie_of b).movie).chunks) }
    ensures holders { (b : List ℕ) → Holds (D.disk depot.old) b
        → AreRow b (inside_at (movie_of b)) atoms.now (atoms_in (movie_of b).movie).chunks
        → IfOk result (λ n. AreHolders b n.holders.items) }
    ensures reads { ReadsOnly (D.disk depot.old) (D.disk depot.new) }
    ensures cause { result ≡ Err NestedFault.Depot → Rose (D.disk depot.old).faults (D.disk depot.new).faults }
{
    let mut counts = Vec::new(alloc);
    let mut holders = Vec::new(alloc);
    let mut has_user = false;
    'atoms: for atom in atoms {
        let count = match walk_kid(&mut holders, depot, has_user, atom) {
            Err(fault) => return Err(fault),
            Ok(count) => count,
        };
        match counts.push(count) {
            Err(_) => return Err(NestedFault::Memory),
            Ok(()) => {}
        }
        has_user = has_user | atom.kind.is(b"udta");
    }
    Ok(Nested { counts, holders })
}
