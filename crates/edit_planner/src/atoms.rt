// The atoms of `moov` as places of an edit.
ghost use Rattle.std.specs.Prelude.{◌≡◌, ◌≤◌, ℕ, length, IfOk};
ghost use Rattle.mov_model.specs.Atoms.{is_padding};
ghost use Rattle.mov_plan.specs.Atoms.{AllFollow};
ghost use Rattle.mov_plan.specs.Places.{Follow};
ghost use Rattle.edit_planner.specs.MoovAtoms.{atoms_end, place_with, placed_by};

use mov_plan::Place;
use part_tree::{FourCc, NoMemory};
use qt_atoms::AtomAt;
use std::alloc::Global;
use unit_plan::What;

fn pads(kind: FourCc) -> bool
    ensures { result ≡ is_padding kind.0 }
{
    kind.is(b"free") | (kind.is(b"skip") | kind.is(b"wide"))
}

// An atom before an edit, for which so many are counted.
fn place_of(atom: &AtomAt, parts: u64) -> Place
    ensures { result ≡ place_with atom.now parts }
{
    Place {
        at: atom.at,
        next: atom.next,
        parts,
        what: if pads(atom.kind) {
            What::Pads
        } else {
            What::Stays
        },
    }
}

/// Where atoms end that follow each other from a byte on.
pub fn end_of(atoms: &[AtomAt], from: u64) -> u64
    ensures end { result ≡ atoms_end from atoms.now }
    ensures inside { (end : ℕ) → AllFollow from atoms.now end → result ≤ end }
    ensures order { (end : ℕ) → AllFollow from atoms.now end → from ≤ result }
{
    let mut end = from;
    'atoms: for atom in atoms {
        end = atom.next;
    }
    end
}

/// The places of atoms before an edit, each with the number of atoms that is counted for it. No memory holds fewer numbers than atoms.
pub fn places_with(alloc: Global, atoms: &[AtomAt], counts: &[u64]) -> Result<Vec<Place>, NoMemory>
    ensures places { IfOk result (λ ps. ps.items ≡ placed_by atoms.now counts.now) }
    ensures many { IfOk result (λ ps. length counts.now ≡ length atoms.now) }
{
    if counts.len() != atoms.len() {
        return Err(NoMemory);
    }
    let mut places = Vec::new(alloc);
    'atoms: for (k, atom) in atoms.iter().enumerate() {
        match places.push(place_of(atom, counts[k])) {
            Err(_) => return Err(NoMemory),
            Ok(()) => {}
        }
    }
    Ok(places)
}
