// What an edit makes of the user data among the atoms of `moov`.
ghost use Rattle.std.specs.Prelude.{◌≡◌, ◌≢◌, ◌≤◌, ◌<◌, ◌^◌, ◌+◌, [], ℕ, List, length, codes, true, IfOk, IfErr};
ghost use Rattle.std.specs.List.{AllByRecursion, position_or_len};
ghost use Rattle.std.specs.Str.{bytes_eq};
ghost use Rattle.me_bytes.specs.Bytes.{IsBytes};
ghost use Rattle.me_disk.specs.Causes.{Rose};
ghost use Rattle.me_disk.specs.Holds.{Holds, Inside};
ghost use Rattle.me_disk.specs.Steps.{ReadsOnly};
ghost use Rattle.container_model.specs.Atoms.{atoms_in};
ghost use Rattle.container_model.specs.Chunk.{Chunk, ends, spell};
ghost use Rattle.container_model.specs.Items.{edit_carrier, put_all};
ghost use Rattle.mov_model.specs.Carried.{fresh};
ghost use Rattle.mov_model.specs.Movie.{movie_of};
ghost use Rattle.mov_model.specs.Reading.{inside_at};
ghost use Rattle.mov_model.specs.Support.{Supported};
ghost use Rattle.qt_atoms.specs.Walk.{atom_in, form_of};
ghost use Rattle.qt_text.specs.User.{udta, user_items};
ghost use Rattle.mov_plan.specs.Atoms.{AreRow};
ghost use Rattle.mov_plan.specs.Carriers.{CarriesUser, EndsBy, IsFresh, IsMade};
ghost use Rattle.mov_plan.specs.Users.{CanSet, changes_of};

use crate::bodies::{BodyFault, CarryFault, MOST_BYTES, becomes, comes, read_body, spelled};
use crate::carry::{Carry, NewAtom};
use crate::user::{UserBody, UserChange, UserFault, edit_user};
use me_disk::Depot;
use part_tree::FourCc;
use qt_atoms::{AtomAt, SizeForm};
use std::alloc::Global;

// The number of the first user data, or how many atoms there are.
fn place_of_user(atoms: &[AtomAt]) -> usize
    ensures place { result ≡ position_or_len (λ k. bytes_eq k.kind.0 (codes "udta")) atoms.now }
    ensures low { result ≤ length atoms.now }
{
    'atoms: for (k, atom) in atoms.iter().enumerate() {
        if atom.kind.is(b"udta") {
            return k;
        }
    }
    atoms.len()
}

// User data with this body: one atom more than those in it.
fn user_atom(alloc: Global, form: SizeForm, user: &UserBody) -> Result<NewAtom, CarryFault>
    requires { length user.now.bytes ≤ 2 ^ 24 }
    ensures bytes { IfOk result (λ now. now.bytes
        ≡ spell (record { form = form_of form; id = codes "udta"; body = user.now.bytes; pad = [] })) }
    ensures parts { IfOk result (λ now. now.parts ≡ user.now.items + 1) }
    ensures fault { IfErr result (λ fault. fault ≡ CarryFault.Memory) }
{
    let Some(parts) = user.items.checked_add(1) else {
        return Err(CarryFault::Memory);
    };
    match spelled(alloc, form, FourCc(*b"udta"), user.bytes.as_slice(), parts) {
        Err(_) => Err(CarryFault::Memory),
        Ok(now) => Ok(now),
    }
}

// User data with this body after the changes.
fn changed_user(
    alloc: Global,
    form: SizeForm,
    body: &[u8],
    changes: &[UserChange],
) -> Result<NewAtom, CarryFault>
    requires can { AllByRecursion CanSet changes.now }
    ensures made { (c : Chunk) → c ≡ record { form = form_of form; id = codes "udta"; body = body.now; pad = [] }
        → IsBytes c.body → (udta.opening c).stop ≡ ends
        → IsMade (edit_carrier udta user_items (changes_of changes.now) c) result }
    ensures cause { IfErr result (λ fault. fault ≢ CarryFault.Depot) }
{
    match edit_user(alloc, body, changes) {
        Err(UserFault::TooLarge { size }) => Err(CarryFault::TooLarge { size }),
        Err(UserFault::Memory) => Err(CarryFault::Memory),
        Ok(user) => user_atom(alloc, form, &user),
    }
}

// The user data that an atom is, after the changes.
fn edited_user<D: Depot>(
    alloc: Global,
    depot: &mut D,
    atom: &AtomAt,
    end: u64,
    changes: &[UserChange],
) -> Result<NewAtom, CarryFault>
    requires inside { Inside end (D.disk depot.old) }
    requires small { end < 2 ^ 63 }
    requires ends { EndsBy end atom.now }
    requires can { AllByRecursion CanSet changes.now }
    ensures made { (b : List ℕ) → Holds (D.disk depot.old) b → udta.is (atom_in b atom.now) ≡ true
        → IsBytes (atom_in b atom.now).body → (udta.opening (atom_in b atom.now)).stop ≡ ends
        → length (atom_in b atom.now).body ≤ 2 ^ 24
        → IsMade (edit_carrier udta user_items (changes_of changes.now) (atom_in b atom.now)) result }
    ensures reads { ReadsOnly (D.disk depot.old) (D.disk depot.new) }
    ensures cause { result ≡ Err CarryFault.Depot → Rose (D.disk depot.old).faults (D.disk depot.new).faults }
{
    let size = atom.body.len;
    if size > MOST_BYTES {
        return Err(CarryFault::TooLarge { size });
    }
    match read_body(alloc, depot, atom, end) {
        Err(BodyFault::Depot) => Err(CarryFault::Depot),
        Err(BodyFault::Memory) => Err(CarryFault::Memory),
        Ok(body) => changed_user(alloc, atom.form, body.as_slice(), changes),
    }
}

// New user data, where the changes set a text.
fn new_user(alloc: Global, changes: &[UserChange]) -> Result<Option<NewAtom>, CarryFault>
    requires can { AllByRecursion CanSet changes.now }
    ensures made { IsFresh (fresh udta (put_all user_items (changes_of changes.now) [])) result }
    ensures cause { IfErr result (λ fault. fault ≢ CarryFault.Depot) }
{
    let user = match edit_user(alloc, &[], changes) {
        Err(UserFault::TooLarge { size }) => return Err(CarryFault::TooLarge { size }),
        Err(UserFault::Memory) => return Err(CarryFault::Memory),
        Ok(user) => user,
    };
    if user.items == 0 {
        return Ok(None);
    }
    match user_atom(alloc, SizeForm::Short, &user) {
        Err(fault) => Err(fault),
        Ok(now) => Ok(Some(now)),
    }
}

/// What an edit makes of the user data among the atoms of `moov`, whose bodies end by the byte `end`.
pub fn user_carry<D: Depot>(
    alloc: Global,
    depot: &mut D,
    atoms: &[AtomAt],
    end: u64,
    changes: &[UserChange],
) -> Result<Carry, CarryFault>
    requires inside { Inside end (D.disk depot.old) }
    requires small { end < 2 ^ 63 }
    requires ends { AllByRecursion (EndsBy end) atoms.now }
    requires can { AllByRecursion CanSet changes.now }
    ensures carry { (b : List ℕ) → Holds (D.disk depot.old) b → IsBytes b → Supported b
        → AreRow b (inside_at (movie_of b)) atoms.now (atoms_in (movie_of b).movie).chunks
        → CarriesUser b (changes_of changes.now) result }
    ensures reads { ReadsOnly (D.disk depot.old) (D.disk depot.new) }
    ensures cause { result ≡ Err CarryFault.Depot → Rose (D.disk depot.old).faults (D.disk depot.new).faults }
{
    if changes.is_empty() {
        return Ok(Carry::Stays);
    }
    let k = place_of_user(atoms);
    if k >= atoms.len() {
        return comes(new_user(alloc, changes));
    }
    becomes(k, edited_user(alloc, depot, &atoms[k], end, changes))
}
