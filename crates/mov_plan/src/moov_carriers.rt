// What an edit makes of the carriers in `moov`, of which the bodies are read.
ghost use Rattle.std.specs.Prelude.{◌≡◌, ◌<◌, ◌^◌, ℕ, List};
ghost use Rattle.std.specs.List.{AllByRecursion};
ghost use Rattle.me_bytes.specs.Bytes.{IsBytes};
ghost use Rattle.me_disk.specs.Causes.{Rose};
ghost use Rattle.me_disk.specs.Holds.{Holds, Inside};
ghost use Rattle.me_disk.specs.Steps.{ReadsOnly};
ghost use Rattle.container_model.specs.Atoms.{atoms_in};
ghost use Rattle.mov_model.specs.Movie.{movie_of};
ghost use Rattle.mov_model.specs.Reading.{inside_at};
ghost use Rattle.mov_model.specs.Support.{Supported};
ghost use Rattle.mov_plan.specs.Atoms.{AreRow};
ghost use Rattle.mov_plan.specs.Carriers.{AreCarried, EndsBy};
ghost use Rattle.mov_plan.specs.Keyed.{CanPut, changes_of as key_changes};
ghost use Rattle.mov_plan.specs.Users.{CanSet, changes_of as user_changes};

use crate::bodies::CarryFault;
use crate::carry::Carry;
use crate::key_carry::key_carry;
use crate::keys::KeyChange;
use crate::user::UserChange;
use crate::user_carry::user_carry;
use me_disk::Depot;
use qt_atoms::AtomAt;
use std::alloc::Global;

#[cfg(test)]
mod tests;

/// What becomes of the user data and of the key table in `moov`.
#[derive(Debug, Drop)]
pub struct Carries {
    pub user: Carry,
    pub keys: Carry,
}

/// What an edit makes of the user data and of the key table among the atoms of `moov`, whose bodies end by the byte `end`. Of these
/// bodies the first user data and each `meta` up to the first key table are read. `TooLarge` where the user data, or else the key
/// table, would have a body of more than 16 MiB.
pub fn carriers<D: Depot>(
    alloc: Global,
    depot: &mut D,
    atoms: &[AtomAt],
    end: u64,
    users: &[UserChange],
    keys: &[KeyChange],
) -> Result<Carries, CarryFault>
    requires inside { Inside end (D.disk depot.old) }
    requires small { end < 2 ^ 63 }
    requires ends { AllByRecursion (EndsBy end) atoms.now }
    requires can_set { AllByRecursion CanSet users.now }
    requires can_put { AllByRecursion CanPut keys.now }
    ensures carriers { (b : List ℕ) → Holds (D.disk depot.old) b → IsBytes b → Supported b
        → AreRow b (inside_at (movie_of b)) atoms.now (atoms_in (movie_of b).movie).chunks
        → AreCarried b (user_changes users.now) (key_changes keys.now) result }
    ensures reads { ReadsOnly (D.disk depot.old) (D.disk depot.new) }
    ensures cause { result ≡ Err CarryFault.Depot → Rose (D.disk depot.old).faults (D.disk depot.new).faults }
{
    let user = match user_carry(alloc, depot, atoms, end, users) {
        Err(fault) => return Err(fault),
        Ok(user) => user,
    };
    match key_carry(alloc, depot, atoms, end, keys) {
        Err(fault) => Err(fault),
        Ok(keys) => Ok(Carries { user, keys }),
    }
}
