// What an edit makes of the key table among the atoms of `moov`.
ghost use Rattle.std.specs.Prelude.{◌≡◌, ◌≢◌, ◌≤◌, ◌<◌, ◌^◌, [], ℕ, List, length, codes, Some, IfOk, IfErr, IfSome};
ghost use Rattle.std.specs.List.{AllByRecursion};
ghost use Rattle.me_bytes.specs.Bytes.{IsBytes};
ghost use Rattle.me_disk.specs.Causes.{Rose};
ghost use Rattle.me_disk.specs.Holds.{Holds, Inside};
ghost use Rattle.me_disk.specs.Steps.{ReadsOnly};
ghost use Rattle.carrier_model.specs.Lists.{sets_some};
ghost use Rattle.container_model.specs.Atoms.{atoms_in};
ghost use Rattle.container_model.specs.Chunk.{Chunk};
ghost use Rattle.mov_model.specs.Keys.{edit_meta, new_meta as fresh_meta};
ghost use Rattle.mov_model.specs.Movie.{movie_of};
ghost use Rattle.mov_model.specs.Reading.{inside_at};
ghost use Rattle.mov_model.specs.Support.{Supported};
ghost use Rattle.qt_atoms.specs.Walk.{atom_in, form_of};
ghost use Rattle.qt_keys.specs.Read.{IsRead, key_table};
ghost use Rattle.mov_plan.specs.Atoms.{AreRow};
ghost use Rattle.mov_plan.specs.Carriers.{CarriesKeys, EndsBy, IsFresh, IsMade, found_from, table_of};
ghost use Rattle.mov_plan.specs.Keyed.{CanPut, changes_of};

use crate::bodies::{BodyFault, CarryFault, MOST_BYTES, becomes, comes, read_body, spelled};
use crate::carry::{Carry, NewAtom};
use crate::keys::{KeyChange, KeysFault, edit_keys, new_keys};
use me_disk::Depot;
use part_tree::FourCc;
use qt_atoms::{AtomAt, SizeForm};
use qt_keys::{KeyTable, read_keys};
use std::alloc::Global;

/// A key table: the number of its atom, counted from 0, and the form of its header.
#[derive(Debug, Drop)]
pub struct TableFound {
    pub number: usize,
    pub form: SizeForm,
    pub table: KeyTable,
}

// The key table that an atom is, or none.
fn table_in<D: Depot>(
    alloc: Global,
    depot: &mut D,
    atom: &AtomAt,
    end: u64,
) -> Result<Option<KeyTable>, BodyFault>
    requires inside { Inside end (D.disk depot.old) }
    requires small { end < 2 ^ 63 }
    requires ends { EndsBy end atom.now }
    ensures table { (b : List ℕ) → Holds (D.disk depot.old) b
        → IfOk result (λ found. found ≡ table_of (atom_in b atom.now)) }
    ensures read { IfOk result (λ found. IfSome found IsRead) }
    ensures reads { ReadsOnly (D.disk depot.old) (D.disk depot.new) }
    ensures cause { result ≡ Err BodyFault.Depot → Rose (D.disk depot.old).faults (D.disk depot.new).faults }
{
    if !atom.kind.is(b"meta") {
        return Ok(None);
    }
    if atom.body.len > MOST_BYTES {
        return Ok(None);
    }
    let body = match read_body(alloc, depot, atom, end) {
        Err(fault) => return Err(fault),
        Ok(body) => body,
    };
    match read_keys(alloc, body.as_slice()) {
        Err(_) => Err(BodyFault::Memory),
        Ok(found) => Ok(found),
    }
}

// The first key table among atoms.
fn first_table<D: Depot>(
    alloc: Global,
    depot: &mut D,
    atoms: &[AtomAt],
    end: u64,
) -> Result<Option<TableFound>, BodyFault>
    requires inside { Inside end (D.disk depot.old) }
    requires small { end < 2 ^ 63 }
    requires ends { AllByRecursion (EndsBy end) atoms.now }
    ensures found { (b : List ℕ) → Holds (D.disk depot.old) b
        → IfOk result (λ found. found ≡ found_from b 0 atoms.now) }
    ensures read { IfOk result (λ found. IfSome found (λ f. IsRead f.table)) }
    ensures reads { ReadsOnly (D.disk depot.old) (D.disk depot.new) }
    ensures cause { result ≡ Err BodyFault.Depot → Rose (D.disk depot.old).faults (D.disk depot.new).faults }
{
    'atoms: for (number, atom) in atoms.iter().enumerate() {
        match table_in(alloc, depot, atom, end) {
            Err(fault) => return Err(fault),
            Ok(None) => {}
            Ok(Some(table)) => {
                return Ok(Some(TableFound {
                    number,
                    form: atom.form,
                    table,
                }));
            }
        }
    }
    Ok(None)
}

// A `meta` with this table after the changes.
fn edited_table(
    alloc: Global,
    form: SizeForm,
    table: &KeyTable,
    changes: &[KeyChange],
) -> Result<NewAtom, CarryFault>
    requires read { IsRead table.now }
    requires can { AllByRecursion CanPut changes.now }
    ensures made { (c : Chunk) → c.form ≡ form_of form → c.id ≡ codes "meta" → c.pad ≡ []
        → key_table c.body ≡ Some table.now → IsMade (edit_meta (changes_of changes.now) c) result }
    ensures cause { IfErr result (λ fault. fault ≢ CarryFault.Depot) }
{
    let body = match edit_keys(alloc, table, changes) {
        Err(KeysFault::TooLarge { size }) => return Err(CarryFault::TooLarge { size }),
        Err(KeysFault::Memory) => return Err(CarryFault::Memory),
        Ok(body) => body,
    };
    match spelled(alloc, form, FourCc(*b"meta"), body.as_slice(), 1) {
        Err(_) => Err(CarryFault::Memory),
        Ok(now) => Ok(now),
    }
}

// Whether a change sets a value.
fn sets_value(changes: &[KeyChange]) -> bool
    ensures { result ≡ sets_some (changes_of changes.now) }
{
    'changes: for change in changes {
        if change.value.is_some() {
            return true;
        }
    }
    false
}

// A new `meta`, where the changes set a value.
fn new_meta(alloc: Global, changes: &[KeyChange]) -> Result<Option<NewAtom>, CarryFault>
    requires can { AllByRecursion CanPut changes.now }
    ensures made { IsFresh (fresh_meta (changes_of changes.now)) result }
    ensures cause { IfErr result (λ fault. fault ≢ CarryFault.Depot) }
{
    if !sets_value(changes) {
        return Ok(None);
    }
    let table = match new_keys(alloc) {
        Err(_) => return Err(CarryFault::Memory),
        Ok(table) => table,
    };
    match edited_table(alloc, SizeForm::Short, &table, changes) {
        Err(fault) => Err(fault),
        Ok(now) => Ok(Some(now)),
    }
}

/// What an edit makes of the key table among the atoms of `moov`, whose bodies end by the byte `end`.
pub fn key_carry<D: Depot>(
    alloc: Global,
    depot: &mut D,
    atoms: &[AtomAt],
    end: u64,
    changes: &[KeyChange],
) -> Result<Carry, CarryFault>
    requires inside { Inside end (D.disk depot.old) }
    requires small { end < 2 ^ 63 }
    requires ends { AllByRecursion (EndsBy end) atoms.now }
    requires can { AllByRecursion CanPut changes.now }
    ensures carry { (b : List ℕ) → Holds (D.disk depot.old) b → IsBytes b → Supported b
        → AreRow b (inside_at (movie_of b)) atoms.now (atoms_in (movie_of b).movie).chunks
        → CarriesKeys b (changes_of changes.now) result }
    ensures reads { ReadsOnly (D.disk depot.old) (D.disk depot.new) }
    ensures cause { result ≡ Err CarryFault.Depot → Rose (D.disk depot.old).faults (D.disk depot.new).faults }
{
    if changes.is_empty() {
        return Ok(Carry::Stays);
    }
    match first_table(alloc, depot, atoms, end) {
        Err(BodyFault::Depot) => Err(CarryFault::Depot),
        Err(BodyFault::Memory) => Err(CarryFault::Memory),
        Ok(None) => comes(new_meta(alloc, changes)),
        Ok(Some(found)) => becomes(
            found.number,
            edited_table(alloc, found.form, &found.table, changes),
        ),
    }
}
