// The atoms that follow each other in a file.
ghost use Rattle.std.specs.Prelude.{◌≡◌, ◌≤◌, ◌<◌, ◌^◌, ℕ, List, IfOk};
ghost use Rattle.me_disk.specs.Causes.{Rose};
ghost use Rattle.me_disk.specs.Holds.{Holds, Inside};
ghost use Rattle.me_disk.specs.Steps.{ReadsOnly};
ghost use Rattle.container_model.specs.Sizes.{inside as Inner};
ghost use Rattle.qt_atoms.specs.Walk.{row};
ghost use Rattle.mov_plan.specs.Atoms.{AllFollow, AreRow};

use me_disk::Depot;
use qt_atoms::{AtomAt, AtomFault, AtomWalker, Parent};
use std::alloc::Global;

/// Why atoms aren't told.
#[derive(Clone, Copy, Debug, PartialEq, Eq)]
pub enum AtomsFault {
    /// An atom has no size, or passes the end.
    Torn,
    /// The depot failed.
    Depot,
    /// There was no memory.
    Memory,
}

/// The atoms in a body that stands from a place up to an end, one behind the other.
pub fn atoms_of<D: Depot>(
    alloc: Global,
    depot: &mut D,
    from: u64,
    end: u64,
) -> Result<Vec<AtomAt>, AtomsFault>
    requires inside { Inside end (D.disk depot.old) }
    requires small { end < 2 ^ 63 }
    requires order { from ≤ end }
    ensures atoms { (b : List ℕ) → Holds (D.disk depot.old) b
        → IfOk result (λ ks. AreRow b from ks.items (row Inner b from end).chunks) }
    ensures follow { IfOk result (λ ks. AllFollow from ks.items end) }
    ensures reads { ReadsOnly (D.disk depot.old) (D.disk depot.new) }
    ensures cause { result ≡ Err AtomsFault.Depot → Rose (D.disk depot.old).faults (D.disk depot.new).faults }
{
    let mut walker = AtomWalker::new(from, end, Parent::Atom);
    let mut atoms = Vec::new(alloc);
    'atoms: loop {
        let atom = match walker.next(depot) {
            Err(AtomFault::Depot) => return Err(AtomsFault::Depot),
            Err(AtomFault::SizeSmall { at: _ }) => return Err(AtomsFault::Torn),
            Err(AtomFault::Truncated { at: _ }) => return Err(AtomsFault::Torn),
            Ok(None) => return Ok(atoms),
            Ok(Some(atom)) => atom,
        };
        match atoms.push(atom) {
            Err(_) => return Err(AtomsFault::Memory),
            Ok(()) => {}
        }
    }
}
