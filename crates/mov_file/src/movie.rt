// A movie as a whole.
ghost use Rattle.std.specs.Prelude.{◌≡◌, ◌≤◌, ◌<◌, ◌+◌, ◌^◌, ℕ, List, [], length, true, IfOk, IfErr, IfSome, OnOk};
ghost use Rattle.std.specs.List.{AllByRecursion};
ghost use Rattle.me_disk.specs.Causes.{Rose};
ghost use Rattle.me_disk.specs.Steps.{HasCause, ReadsOnly};
ghost use Rattle.me_disk.specs.Holds.{Holds, Inside};
ghost use Rattle.part_tree.specs.Fields.{values};
ghost use Rattle.part_tree.specs.Ranges.{Ascends};
ghost use Rattle.container_model.specs.Chunk.{ends};
ghost use Rattle.container_model.specs.Sizes.{inside as Inner, user as UserLevel};
ghost use Rattle.mov_model.specs.Begins.{begins_movie};
ghost use Rattle.qt_atoms.specs.Walk.{InOrder, row};
ghost use Rattle.qt_keys.specs.Read.{IsRead};
ghost use Rattle.qt_text.specs.User.{udta};
ghost use Rattle.mov_file.specs.Carriers.{kids_in};
ghost use Rattle.mov_file.specs.Chunks.{first_astray};
ghost use Rattle.mov_file.specs.Fields.{Grows, StayLawful};
ghost use Rattle.mov_file.specs.Map.{IsSound, ReadsMov, StandsIn, TrackEndsBy, first_that};
ghost use Rattle.mov_file.specs.Range.{IsNoWhy};
ghost use Rattle.mov_file.specs.Walked.{Few, Knows};
ghost use Rattle.mov_file.specs.Whole.{AreCarried, AreSound, HasPlaces, chunks_of, IsFresh, LieInFile, Meets, UserEnds, first_chunk, meta_atom, meta_held, user_held};

use crate::carriers::{Meta, find_meta, find_user};
use crate::chunks::astray_in;
use crate::keys::take_keys;
use crate::map::MovMap;
use crate::moov::{begins, find_moov};
use crate::reading::Reading;
use crate::texts::take_user;
use crate::track::tracks_by;
use crate::walk::{walk_file, walk_moov};
use me_disk::{Depot, DepotFault, Slot};
use part_tree::{Fields, ReadFault, Span, Track, Why};
use qt_atoms::AtomAt;
use std::alloc::Global;

/// The fields of a movie, and the user data and the `meta` that hold them.
#[derive(Debug, Drop)]
pub struct Carried {
    pub fields: Fields,
    pub user: Option<AtomAt>,
    pub meta: Option<AtomAt>,
}

// Meets all atoms of a movie of this length. Gives its `moov`.
fn meet<D: Depot>(reading: &mut Reading, depot: &mut D, len: u64) -> Result<AtomAt, ReadFault>
    requires inside { Inside len (D.disk depot.old) }
    requires small { len < 2 ^ 63 }
    requires fresh { IsFresh reading.old }
    requires knows { Knows reading.old [] }
    requires few { Few reading.old }
    ensures meets { (b : List ℕ) → Holds (D.disk depot.old) b → length b ≡ len → Meets b reading.new result }
    ensures sound { IfOk result (λ moov. LieInFile len reading.new moov) }
    ensures reads { ReadsOnly (D.disk depot.old) (D.disk depot.new) }
    ensures cause { result ≡ Err ReadFault.Depot → Rose (D.disk depot.old).faults (D.disk depot.new).faults }
{
    match walk_file(reading, depot, len) {
        Err(fault) => return Err(fault),
        Ok(()) => {}
    }
    let moov = match find_moov(depot, len) {
        Err(fault) => return Err(fault),
        Ok(moov) => moov,
    };
    match walk_moov(reading, depot, moov.body) {
        Err(fault) => Err(fault),
        Ok(()) => Ok(moov),
    }
}

// The number of the first chunk of a track, whose tables end here, that stands in none of the ranges, which ascend.
fn astray_of<D: Depot>(
    depot: &mut D,
    mdats: &[Span],
    track: &Track,
    end: u64,
) -> Result<Option<u32>, DepotFault>
    requires inside { Inside end (D.disk depot.old) }
    requires small { end < 2 ^ 63 }
    requires order { Ascends 0 mdats.now }
    requires tables { TrackEndsBy end track.now }
    ensures astray { (b : List ℕ) → Holds (D.disk depot.old) b → HasPlaces b track.now
        → IfOk result (λ found. found ≡ first_astray mdats.now 1 (chunks_of b track.now)) }
    ensures reads { ReadsOnly (D.disk depot.old) (D.disk depot.new) }
    ensures cause { HasCause (D.disk depot.old) (D.disk depot.new) result }
{
    astray_in(depot, mdats, track.wide, track.chunks)
}

// The first chunk of these tracks, whose tables end here, that stands in none of the ranges, which ascend.
fn chunk_why<D: Depot>(
    depot: &mut D,
    mdats: &[Span],
    tracks: &[Track],
    end: u64,
) -> Result<Option<Why>, DepotFault>
    requires inside { Inside end (D.disk depot.old) }
    requires small { end < 2 ^ 63 }
    requires order { Ascends 0 mdats.now }
    requires tables { AllByRecursion (TrackEndsBy end) tracks.now }
    requires few { length tracks.now ≤ 65536 }
    ensures why { (b : List ℕ) → Holds (D.disk depot.old) b → AllByRecursion (HasPlaces b) tracks.now
        → IfOk result (λ why. why ≡ first_chunk b mdats.now 1 tracks.now) }
    ensures reads { ReadsOnly (D.disk depot.old) (D.disk depot.new) }
    ensures cause { HasCause (D.disk depot.old) (D.disk depot.new) result }
{
    let mut number = 0;
    'tracks: for track in tracks {
        number += 1;
        match astray_of(depot, mdats, track, end)? {
            None => {}
            Some(chunk) => return Ok(Some(Why::ChunkAstray {
                track: number,
                chunk,
            })),
        }
    }
    Ok(None)
}

// Puts the texts of the user data, which stands in `moov` with this body, behind the fields.
fn take_texts<D: Depot>(
    fields: &mut Fields,
    alloc: Global,
    depot: &mut D,
    user: &Option<AtomAt>,
    moov: Span,
) -> Result<(), ReadFault>
    requires inside { Inside (moov.at + moov.len) (D.disk depot.old) }
    requires small { moov.at + moov.len < 2 ^ 63 }
    requires stands { StandsIn moov.at (moov.at + moov.len) user.now }
    ensures texts { (b : List ℕ) → Holds (D.disk depot.old) b
        → OnOk result (Grows fields.old fields.new (user_held b user.now)) }
    ensures lawful { OnOk result (StayLawful fields.old fields.new) }
    ensures why { (b : List ℕ) → Holds (D.disk depot.old) b
        → IfSome user.now (λ k. (row UserLevel b k.body.at (k.body.at + k.body.len)).stop ≡ ends)
        → IfErr result IsNoWhy }
    ensures reads { ReadsOnly (D.disk depot.old) (D.disk depot.new) }
    ensures cause { result ≡ Err ReadFault.Depot → Rose (D.disk depot.old).faults (D.disk depot.new).faults }
{
    match user {
        None => Ok(()),
        Some(atom) => take_user(fields, alloc, depot, atom.body),
    }
}

// Puts the values of the keys of a table behind the fields. Gives the `meta` that is the table.
fn take_meta(
    fields: &mut Fields,
    alloc: Global,
    meta: Option<Meta>,
) -> Result<Option<AtomAt>, ReadFault>
    requires read { IfSome meta (λ m. IsRead m.table) }
    ensures held { OnOk result (Grows fields.old fields.new (meta_held meta)) }
    ensures lawful { OnOk result (StayLawful fields.old fields.new) }
    ensures atom { IfOk result (λ found. found ≡ meta_atom meta) }
    ensures memory { IfErr result (λ fault. fault ≡ ReadFault.Memory) }
{
    let Some(meta) = meta else {
        return Ok(None);
    };
    match take_keys(fields, alloc, &meta.table) {
        Err(_) => Err(ReadFault::Memory),
        Ok(()) => Ok(Some(meta.atom)),
    }
}

// The fields of a movie, whose `moov` has this body.
fn read_carriers<D: Depot>(alloc: Global, depot: &mut D, moov: Span) -> Result<Carried, ReadFault>
    requires inside { Inside (moov.at + moov.len) (D.disk depot.old) }
    requires small { moov.at + moov.len < 2 ^ 63 }
    ensures carried { (b : List ℕ) → Holds (D.disk depot.old) b
        → IfOk result (λ c. AreCarried b moov.at (moov.at + moov.len) c) }
    ensures sound { IfOk result (λ c. AreSound moov.at (moov.at + moov.len) c) }
    ensures why { (b : List ℕ) → Holds (D.disk depot.old) b → (row Inner b moov.at (moov.at + moov.len)).stop ≡ ends
        → UserEnds (first_that udta.is (kids_in b moov.at (moov.at + moov.len))) → IfErr result IsNoWhy }
    ensures reads { ReadsOnly (D.disk depot.old) (D.disk depot.new) }
    ensures cause { result ≡ Err ReadFault.Depot → Rose (D.disk depot.old).faults (D.disk depot.new).faults }
{
    let mut fields = Fields::new(alloc);
    let user = match find_user(depot, moov) {
        Err(fault) => return Err(fault),
        Ok(user) => user,
    };
    match take_texts(&mut fields, alloc, depot, &user, moov) {
        Err(fault) => return Err(fault),
        Ok(()) => {}
    }
    let found = match find_meta(alloc, depot, moov) {
        Err(fault) => return Err(fault),
        Ok(found) => found,
    };
    let meta = match take_meta(&mut fields, alloc, found) {
        Err(fault) => return Err(fault),
        Ok(meta) => meta,
    };
    Ok(Carried { fields, user, meta })
}

// The map of a movie of this length.
fn read_movie<D: Depot>(alloc: Global, depot: &mut D, len: u64) -> Result<MovMap, ReadFault>
    requires whole { (b : List ℕ) → Holds (D.disk depot.old) b → length b ≡ len }
    requires small { len < 2 ^ 63 }
    ensures movie { (b : List ℕ) → Holds (D.disk depot.old) b → begins_movie b ≡ true → ReadsMov b result }
    ensures sound { IfOk result (λ map. IsSound map) }
    ensures reads { ReadsOnly (D.disk depot.old) (D.disk depot.new) }
    ensures cause { result ≡ Err ReadFault.Depot → Rose (D.disk depot.old).faults (D.disk depot.new).faults }
{
    let mut reading = Reading::new(alloc);
    let moov = match meet(&mut reading, depot, len) {
        Err(fault) => return Err(fault),
        Ok(moov) => moov,
    };
    let tracks = match tracks_by(alloc, reading.tracks.as_slice()) {
        Err(_) => return Err(ReadFault::Memory),
        Ok(tracks) => tracks,
    };
    match chunk_why(depot, reading.mdats.as_slice(), tracks.as_slice(), len) {
        Err(_) => return Err(ReadFault::Depot),
        Ok(Some(why)) => return Err(ReadFault::Why(why)),
        Ok(None) => {}
    }
    let carried = match read_carriers(alloc, depot, moov.body) {
        Err(fault) => return Err(fault),
        Ok(carried) => carried,
    };
    Ok(MovMap {
        len,
        parts: reading.parts,
        fields: carried.fields,
        moov,
        user: carried.user,
        meta: carried.meta,
        mdats: reading.mdats,
        tracks,
    })
}

/// Reads a QuickTime movie: its map, or the first reason for which it is refused, with its place; any other file is of another
/// kind. The depot is only read. `Depot` only where the count of the depot's faults rose. Whatever the depot, a map is sound: its
/// ranges lie inside the length, the essence is in order, and the fields are lawful.
pub fn read_mov<D: Depot>(alloc: Global, depot: &mut D) -> Result<MovMap, ReadFault>
    ensures movie { (b : List ℕ) → Holds (D.disk depot.old) b → ReadsMov b result }
    ensures sound { IfOk result (λ map. IsSound map) }
    ensures reads { ReadsOnly (D.disk depot.old) (D.disk depot.new) }
    ensures cause { result ≡ Err ReadFault.Depot → Rose (D.disk depot.old).faults (D.disk depot.new).faults }
{
    let len = match depot.len(Slot::Main) {
        Err(_) => return Err(ReadFault::Depot),
        Ok(len) => len,
    };
    match begins(depot, len) {
        Err(_) => return Err(ReadFault::Depot),
        Ok(false) => return Err(ReadFault::Why(Why::UnknownKind)),
        Ok(true) => {}
    }
    read_movie(alloc, depot, len)
}
