// Whether a file is a movie, and where its `moov` stands.
ghost use Rattle.std.specs.Prelude.{◌≡◌, ◌≤◌, ◌<◌, ◌^◌, ℕ, List, length, IfOk};
ghost use Rattle.me_disk.specs.Causes.{Rose};
ghost use Rattle.me_disk.specs.Steps.{HasCause, ReadsOnly};
ghost use Rattle.me_disk.specs.Holds.{Holds, Inside};
ghost use Rattle.mov_model.specs.Begins.{begins_movie, is_mov};
ghost use Rattle.qt_atoms.specs.Walk.{InOrder};
ghost use Rattle.mov_file.specs.Moov.{FindsMoov};

use me_disk::{Depot, DepotFault, Slot};
use part_tree::{Kind, ReadFault, Why, kind_of};
use qt_atoms::{AtomAt, AtomFault, AtomWalker, Parent};

/// Whether the first bytes of a file of this length are those of a movie.
pub fn begins<D: Depot>(depot: &mut D, len: u64) -> Result<bool, DepotFault>
    requires inside { Inside len (D.disk depot.old) }
    ensures begins { (b : List ℕ) → Holds (D.disk depot.old) b → length b ≡ len
        → IfOk result (λ yes. yes ≡ begins_movie b) }
    ensures reads { ReadsOnly (D.disk depot.old) (D.disk depot.new) }
    ensures cause { HasCause (D.disk depot.old) (D.disk depot.new) result }
{
    let mut first = [0u8; 12];
    let known = len.min(12) as usize;
    depot.read_at(Slot::Main, 0, &mut first[..known])?;
    Ok(is_movie(kind_of(&first[..known])))
}

fn is_movie(kind: Option<Kind>) -> bool
    ensures { result ≡ is_mov kind }
{
    match kind {
        Some(Kind::Mov) => true,
        _ => false,
    }
}

/// The first `moov` of a file of this length.
pub fn find_moov<D: Depot>(depot: &mut D, len: u64) -> Result<AtomAt, ReadFault>
    requires inside { Inside len (D.disk depot.old) }
    requires small { len < 2 ^ 63 }
    ensures moov { (b : List ℕ) → Holds (D.disk depot.old) b → length b ≡ len → FindsMoov b result }
    ensures order { IfOk result (λ atom. InOrder atom.at len atom) }
    ensures reads { ReadsOnly (D.disk depot.old) (D.disk depot.new) }
    ensures cause { result ≡ Err ReadFault.Depot → Rose (D.disk depot.old).faults (D.disk depot.new).faults }
{
    let mut walker = AtomWalker::new(0, len, Parent::File);
    'atoms: loop {
        let atom = match walker.next(depot) {
            Err(AtomFault::Depot) => return Err(ReadFault::Depot),
            Err(AtomFault::SizeSmall { at }) => return Err(ReadFault::Why(Why::SizeSmall { at })),
            Err(AtomFault::Truncated { at }) => return Err(ReadFault::Why(Why::Truncated { at })),
            Ok(None) => return Err(ReadFault::Why(Why::NoMoov)),
            Ok(Some(atom)) => atom,
        };
        if atom.kind.is(b"moov") {
            return Ok(atom);
        }
    }
}
