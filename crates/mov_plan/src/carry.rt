// What an edit makes of the carriers among the atoms of `moov`.
ghost use Rattle.std.specs.Prelude.{◌≡◌, ◌≤◌, ℕ, length, IfOk, OnOk};
ghost use Rattle.mov_plan.specs.Carry.{added, become_at, carried_by, is_pad, last_by, last_end};
ghost use Rattle.mov_plan.specs.Places.{Follow};

use crate::place::Place;
use part_tree::{Bytes, NoMemory};
use unit_plan::What;

/// An atom that an edit puts into `moov`: its bytes, and how many atoms are counted for it, those in it among them.
#[derive(Debug, Drop)]
pub struct NewAtom {
    pub bytes: Bytes,
    pub parts: u64,
}

/// What becomes of a carrier of items in `moov`: nothing; the atom with a number, counted from 0, becomes another one; or a new one
/// comes behind the last atom that is no padding.
#[derive(Debug, Drop)]
pub enum Carry {
    Stays,
    Becomes(usize, NewAtom),
    Comes(NewAtom),
}

// Whether padding stands at a place.
fn pads(place: &Place) -> bool
    ensures { result ≡ is_pad place.now.what }
{
    matches!(place.what, What::Pads)
}

// How many places there are up to the last one that is no padding, and where these end. They begin at the byte `from`.
fn last(places: &[Place], from: u64) -> (usize, u64)
    ensures count { result.0 ≡ last_by places.now }
    ensures bound { result.0 ≤ length places.now }
    ensures end { result.1 ≡ last_end from places.now }
{
    let mut last = 0;
    let mut end = from;
    'places: for (k, place) in places.iter().enumerate() {
        if !pads(place) {
            last = k + 1;
            end = place.next;
        }
    }
    (last, end)
}

// The place with a number gets another atom.
fn become_other(places: &mut Vec<Place>, k: usize, now: NewAtom) -> Result<(), NoMemory>
    ensures { OnOk result (places.new.items ≡ become_at k now places.old.items) }
{
    if k >= places.len() {
        return Err(NoMemory);
    }
    let old = places.remove(k);
    let place = Place {
        at: old.at,
        next: old.next,
        parts: now.parts,
        what: What::Changes(now.bytes),
    };
    match places.insert(k, place) {
        Err(_) => Err(NoMemory),
        Ok(()) => Ok(()),
    }
}

// A new atom behind the last one that is no padding.
fn add(places: &mut Vec<Place>, from: u64, now: NewAtom) -> Result<(), NoMemory>
    ensures { OnOk result (places.new.items ≡ added now from places.old.items) }
{
    let (k, at) = last(places, from);
    let place = Place {
        at,
        next: at,
        parts: now.parts,
        what: What::Changes(now.bytes),
    };
    match places.insert(k, place) {
        Err(_) => Err(NoMemory),
        Ok(()) => Ok(()),
    }
}

// One carrier.
fn carry_one(places: &mut Vec<Place>, from: u64, carry: Carry) -> Result<(), NoMemory>
    ensures { OnOk result (places.new.items ≡ carried_by from carry places.old.items) }
{
    match carry {
        Carry::Stays => Ok(()),
        Carry::Becomes(k, now) => become_other(places, k, now),
        Carry::Comes(now) => add(places, from, now),
    }
}

/// The places of the atoms of `moov`, which begin at the byte `from`, after an edit of its user data and its key table.
pub fn carry_atoms(
    atoms: Vec<Place>,
    from: u64,
    user: Carry,
    keys: Carry,
) -> Result<Vec<Place>, NoMemory>
    ensures places { IfOk result (λ places. places.items ≡ carried_by from keys (carried_by from user atoms.items)) }
    ensures follow { (end : ℕ) → Follow from atoms.items end → IfOk result (λ places. Follow from places.items end) }
{
    let mut places = atoms;
    carry_one(&mut places, from, user)?;
    carry_one(&mut places, from, keys)?;
    Ok(places)
}
