// The body of an atom as it is read, and an atom as it is spelled.
ghost use Rattle.std.specs.Prelude.{◌≡◌, ◌≤◌, ◌<◌, ◌^◌, [], ℕ, List, length, IfOk};
ghost use Rattle.me_disk.specs.Causes.{Rose};
ghost use Rattle.me_disk.specs.Holds.{Holds, Inside};
ghost use Rattle.me_disk.specs.Steps.{ReadsOnly};
ghost use Rattle.container_model.specs.Chunk.{spell};
ghost use Rattle.qt_atoms.specs.Walk.{atom_in, form_of};
ghost use Rattle.mov_plan.specs.Carriers.{EndsBy, becomes as becomes_one, comes as comes_one};

use crate::carry::{Carry, NewAtom};
use crate::user::put_header;
use me_disk::{Depot, Slot};
use part_tree::{Bytes, FourCc, NoMemory};
use qt_atoms::{AtomAt, SizeForm};
use std::alloc::Global;

/// Why what becomes of a carrier isn't told.
#[derive(Clone, Copy, Debug, PartialEq, Eq)]
pub enum CarryFault {
    /// The body of a carrier would have this many bytes, which are more than 16 MiB.
    TooLarge { size: u64 },
    /// The depot failed.
    Depot,
    /// There was no memory.
    Memory,
}

/// Why a body isn't read.
#[derive(Clone, Copy, Debug, PartialEq, Eq)]
pub enum BodyFault {
    /// The depot failed.
    Depot,
    /// There was no memory.
    Memory,
}

/// The most bytes of a body that is read.
pub const MOST_BYTES: u64 = 16_777_216;

/// The body of an atom of at most 16 MiB, which ends by the byte `end`.
pub fn read_body<D: Depot>(
    alloc: Global,
    depot: &mut D,
    atom: &AtomAt,
    end: u64,
) -> Result<Bytes, BodyFault>
    requires inside { Inside end (D.disk depot.old) }
    requires small { end < 2 ^ 63 }
    requires ends { EndsBy end atom.now }
    requires short { atom.now.body.len ≤ 2 ^ 24 }
    ensures bytes { (b : List ℕ) → Holds (D.disk depot.old) b → IfOk result (λ x. x ≡ (atom_in b atom.now).body) }
    ensures reads { ReadsOnly (D.disk depot.old) (D.disk depot.new) }
    ensures cause { result ≡ Err BodyFault.Depot → Rose (D.disk depot.old).faults (D.disk depot.new).faults }
{
    let mut bytes = match vec![in alloc; 0u8; atom.body.len as usize] {
        Err(_) => return Err(BodyFault::Memory),
        Ok(bytes) => bytes,
    };
    match depot.read_at(Slot::Main, atom.body.at, &mut bytes) {
        Err(_) => Err(BodyFault::Depot),
        Ok(()) => Ok(Bytes::of(bytes)),
    }
}

/// A new atom, for which so many atoms are counted.
pub fn spelled(
    alloc: Global,
    form: SizeForm,
    kind: FourCc,
    body: &[u8],
    parts: u64,
) -> Result<NewAtom, NoMemory>
    requires { length body.now ≤ 2 ^ 24 }
    ensures bytes { IfOk result (λ now. now.bytes
        ≡ spell (record { form = form_of form; id = kind.0; body = body.now; pad = [] })) }
    ensures parts { IfOk result (λ now. now.parts ≡ parts) }
{
    let mut out = Vec::new(alloc);
    put_header(&mut out, form, kind, body.len() as u64)?;
    out.extend_from_slice(body)?;
    Ok(NewAtom {
        bytes: Bytes::of(out),
        parts,
    })
}

/// The atom with a number becomes what is made of it.
pub fn becomes(k: usize, made: Result<NewAtom, CarryFault>) -> Result<Carry, CarryFault>
    ensures { result ≡ becomes_one k made }
{
    match made {
        Err(fault) => Err(fault),
        Ok(now) => Ok(Carry::Becomes(k, now)),
    }
}

/// A new atom comes, where there is one.
pub fn comes(made: Result<Option<NewAtom>, CarryFault>) -> Result<Carry, CarryFault>
    ensures { result ≡ comes_one made }
{
    match made {
        Err(fault) => Err(fault),
        Ok(None) => Ok(Carry::Stays),
        Ok(Some(now)) => Ok(Carry::Comes(now)),
    }
}
