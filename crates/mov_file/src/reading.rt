// What was met so far.
ghost use Rattle.std.specs.Prelude.{◌≡◌, ◌≤◌, ◌<◌, ◌+◌, ◌++◌, ◌∷◌, ◌&&◌, ◌||◌, ℕ, List, [], Bool, map, length, codes, false, OnOk, if◌then◌else◌};
ghost use Rattle.std.specs.Str.{bytes_eq};
ghost use Rattle.part_tree.specs.Parts.{rest_parts};
ghost use Rattle.container_model.specs.Chunk.{Chunk, ends, spell};
ghost use Rattle.container_model.specs.Walk.{Step, chunk_at, end_at};
ghost use Rattle.mov_model.specs.Atoms.{Place, is_padding};
ghost use Rattle.container_model.specs.Atoms.{atom, is_listed};
ghost use Rattle.mov_model.specs.Map.{file_role, moov_role, part};
ghost use Rattle.mov_file.specs.Holder.{place_of};
ghost use Rattle.qt_atoms.specs.Walk.{InOrder};
ghost use Rattle.mov_file.specs.Sound.{LiesIn};
ghost use Rattle.mov_file.specs.declared.holder.Holder.{Holder};
ghost use Rattle.mov_file.specs.Walked.{Few, Knows, Remembers, Stands, is_moov_kid, is_top, names_after, role_by};

use crate::holder::{Holder, once_as};
use crate::track::{TablesAt, keep_tables};
use part_tree::{FourCc, NoMemory, Part, Role, Span};
use qt_atoms::AtomAt;
use std::alloc::Global;

/// What was met so far: how many atoms, whether a `moov` and user data were among them, the number of the track that is read,
/// from 1, the names that were met in it, all parts, the bodies that hold the essence, and the tables of the tracks.
#[derive(Debug, Drop)]
pub struct Reading {
    pub count: u64,
    pub has_moov: bool,
    pub has_user: bool,
    pub track: u32,
    pub names: Vec<FourCc>,
    pub parts: Vec<Part>,
    pub mdats: Vec<Span>,
    pub tracks: Vec<TablesAt>,
}

impl Reading {
    /// Nothing was met yet.
    pub fn new(alloc: Global) -> Reading
        ensures knows { Knows result [] }
        ensures few { Few result }
        ensures parts { result.parts.items ≡ [] }
        ensures mdats { result.mdats.items ≡ [] }
        ensures tracks { result.tracks.items ≡ [] }
        ensures user { result.has_user ≡ false }
    {
        Reading {
            count: 0,
            has_moov: false,
            has_user: false,
            track: 0,
            names: Vec::new(alloc),
            parts: Vec::new(alloc),
            mdats: Vec::new(alloc),
            tracks: Vec::new(alloc),
        }
    }
}

// What an atom is to an edit.
fn role_of(has_user: bool, holder: Holder, kind: FourCc) -> Role
    ensures { result ≡ role_by (place_of holder) has_user (atom kind.0 []) }
{
    match holder {
        Holder::File => file_part(kind),
        Holder::Moov => moov_part(has_user, kind),
        Holder::Stbl => {
            if kind.is(b"stco") | kind.is(b"co64") {
                Role::Tables
            } else {
                Role::Opaque
            }
        }
        _ => Role::Opaque,
    }
}

fn pads(kind: FourCc) -> bool
    ensures { result ≡ is_padding kind.0 }
{
    kind.is(b"free") | (kind.is(b"skip") | kind.is(b"wide"))
}

fn file_part(kind: FourCc) -> Role
    ensures { result ≡ file_role (atom kind.0 []) }
{
    if pads(kind) {
        Role::Padding
    } else if kind.is(b"mdat") {
        Role::Essence
    } else {
        Role::Opaque
    }
}

fn moov_part(has_user: bool, kind: FourCc) -> Role
    ensures { result ≡ moov_role has_user (atom kind.0 []) }
{
    if pads(kind) {
        Role::Padding
    } else if !has_user & kind.is(b"udta") {
        Role::UserData
    } else {
        Role::Opaque
    }
}

// Whether an atom of the file has this type.
fn is_of_file(holder: Holder, is: bool) -> bool
    ensures { result ≡ is_top (place_of holder) is }
{
    match holder {
        Holder::File => is,
        _ => false,
    }
}

// Whether an atom directly in `moov` has this type.
fn is_of_moov(holder: Holder, is: bool) -> bool
    ensures { result ≡ is_moov_kid (place_of holder) is }
{
    match holder {
        Holder::Moov => is,
        _ => false,
    }
}

// Takes the body of `mdat`.
fn keep_essence(mdats: &mut Vec<Span>, holder: Holder, atom: &AtomAt) -> Result<(), NoMemory>
    ensures { OnOk result (mdats.new.items ≡ mdats.old.items
        ++ (if is_top (place_of holder) (bytes_eq atom.now.kind.0 (codes "mdat")) then atom.now.body ∷ [] else [])) }
{
    if !is_of_file(holder, atom.kind.is(b"mdat")) {
        return Ok(());
    }
    match mdats.push(atom.body) {
        Err(_) => Err(NoMemory),
        Ok(()) => Ok(()),
    }
}

// Takes the name of an atom that stands once in a track.
fn keep_name(names: &mut Vec<FourCc>, holder: Holder, kind: FourCc) -> Result<(), NoMemory>
    ensures { OnOk result (names.new.items ≡ names_after holder kind.0 names.old.items) }
{
    match holder {
        Holder::Moov => {
            names.clear();
            Ok(())
        }
        _ => match once_as(holder, kind) {
            None => Ok(()),
            Some(name) => match names.push(name) {
                Err(_) => Err(NoMemory),
                Ok(()) => Ok(()),
            },
        },
    }
}

// The number of the track that is read.
fn track_after(track: u32, holder: Holder, kind: FourCc) -> u32
    requires { track < 65536 }
    ensures { result ≡ (if is_moov_kid (place_of holder) (bytes_eq kind.0 (codes "trak")) then track + 1 else track) }
{
    if is_of_moov(holder, kind.is(b"trak")) {
        track + 1
    } else {
        track
    }
}

// Takes an atom to what was met.
pub fn remember(reading: &mut Reading, holder: Holder, atom: &AtomAt) -> Result<(), NoMemory>
    requires few { Few reading.old }
    requires room { reading.old.count < 65536 }
    ensures lies { InOrder atom.now.at atom.now.next atom.now
        → OnOk result (LiesIn holder atom.now.at atom.now.next reading.old reading.new) }
    ensures few { OnOk result (Few reading.new) }
    ensures remembers { (c : Chunk) (before : List (Step Place)) → Stands c atom.now → Knows reading.old before
        → OnOk result (Remembers before (chunk_at (place_of holder) atom.now.at c)
        (part (role_by (place_of holder) reading.old.has_user c) atom.now.at c ∷ [])
        reading.old reading.new) }
{
    let part = Part {
        id: atom.kind,
        at: atom.at,
        body: atom.body,
        next: atom.next,
        role: role_of(reading.has_user, holder, atom.kind),
    };
    match reading.parts.push(part) {
        Err(_) => return Err(NoMemory),
        Ok(()) => {}
    }
    keep_essence(&mut reading.mdats, holder, atom)?;
    keep_tables(&mut reading.tracks, holder, atom)?;
    keep_name(&mut reading.names, holder, atom.kind)?;
    reading.count += 1;
    reading.has_moov = reading.has_moov | is_of_file(holder, atom.kind.is(b"moov"));
    reading.has_user = reading.has_user | is_of_moov(holder, atom.kind.is(b"udta"));
    reading.track = track_after(reading.track, holder, atom.kind);
    Ok(())
}

// Takes the bytes from a place up to an end as a rest, if there are some.
pub fn keep_rest(reading: &mut Reading, at: u64, end: u64) -> Result<(), NoMemory>
    requires order { at ≤ end }
    requires few { Few reading.old }
    ensures lies { (h : Holder) → OnOk result (LiesIn h at end reading.old reading.new) }
    ensures few { OnOk result (Few reading.new) }
    ensures remembers { (left : List ℕ) (before : List (Step Place)) (p : Place) → at + length left ≡ end
        → Knows reading.old before
        → OnOk result (Remembers before (end_at p at ends) (rest_parts at left) reading.old reading.new) }
{
    if at == end {
        return Ok(());
    }
    let rest = Part {
        id: FourCc([0; 4]),
        at,
        body: Span { at, len: end - at },
        next: end,
        role: Role::Rest,
    };
    match reading.parts.push(rest) {
        Err(_) => Err(NoMemory),
        Ok(()) => Ok(()),
    }
}

// Whether a name is among those that were met in the track.
pub fn was_met(names: &[FourCc], name: FourCc) -> bool
    ensures { result ≡ is_listed name.0 (map (λ n. n.0) names.now) }
{
    for met in names {
        if met.is(&name.0) {
            return true;
        }
    }
    false
}
