// The kind of a file, and its map.
ghost use Rattle.std.specs.Prelude.{◌≡◌, ℕ, List, None, Some, IfErr, IfOk};
ghost use Rattle.me_disk.specs.Causes.{Rose};
ghost use Rattle.me_disk.specs.Holds.{Holds};
ghost use Rattle.me_disk.specs.Steps.{HasCause, ReadsOnly};
ghost use Rattle.part_tree.specs.Fields.{IsMap};
ghost use Rattle.field_model.specs.KindReads.{ReadsKind};
ghost use Rattle.edit_planner.specs.Kinds.{kind_at, model_in};
ghost use Rattle.edit_planner.specs.Kinds as spec;
ghost use Rattle.edit_planner.specs.Facts.{IsRead};
ghost use Rattle.edit_planner.specs.Plan.{Maps, SoundMap};

use crate::plans::FileMap;
use avi_file::{AviMap, read_avi};
use me_disk::{Depot, DepotFault, Slot};
use mov_file::{MovMap, read_mov};
use part_tree::{Kind, ReadFault, kind_of};
use std::alloc::Global;
use wave_file::{WaveMap, read_wave};

const MOST_STREAMS: usize = 0xFFFF_FFFF;

// The kind of a file, by its first bytes.
fn read_kind<D: Depot>(depot: &mut D) -> Result<Option<Kind>, DepotFault>
    ensures kind { (o : List ℕ) → Holds (D.disk depot.old) o → IfOk result (λ k. k ≡ kind_at o) }
    ensures reads { ReadsOnly (D.disk depot.old) (D.disk depot.new) }
    ensures cause { HasCause (D.disk depot.old) (D.disk depot.new) result }
{
    let len = depot.len(Slot::Main)?;
    let mut first = [0u8; 12];
    let known = len.min(12) as usize;
    depot.read_at(Slot::Main, 0, &mut first[..known])?;
    Ok(kind_of(&first[..known]))
}

// Whether a kind is that of AVI files.
fn is_avi(kind: Option<Kind>) -> bool
    ensures { result ≡ spec.is_avi kind }
{
    match kind {
        Some(Kind::Avi) => true,
        Some(Kind::Wave | Kind::Rf64 | Kind::Bw64 | Kind::Mov) | None => false,
    }
}

// Whether a kind is that of movies.
fn is_mov(kind: Option<Kind>) -> bool
    ensures { result ≡ spec.is_mov kind }
{
    match kind {
        Some(Kind::Mov) => true,
        Some(Kind::Wave | Kind::Rf64 | Kind::Bw64 | Kind::Avi) | None => false,
    }
}

// A map of an AVI file as that of a file of some kind.
fn of_avi(map: AviMap) -> FileMap
    ensures same { result ≡ FileMap.Avi map }
    ensures ordered { IsMap map.fields }
{
    FileMap::Avi(map)
}

// The map of an AVI file. Its streams are parts, of which it has at most 65,536; so their number is never past 32 bits. It has a
// window of 64 KiB on its stack, which the reading of other kinds needn't have on theirs.
#[inline(never)]
fn read_listed<D: Depot>(alloc: Global, depot: &mut D) -> Result<FileMap, ReadFault>
    requires { (o : List ℕ) → Holds (D.disk depot.old) o → kind_at o ≡ Some Kind.Avi }
    ensures file { (o : List ℕ) → Holds (D.disk depot.old) o → ReadsKind (model_in o) Maps o result }
    ensures sound { IfOk result (λ map. SoundMap map) }
    ensures tells { IfOk result (λ map. IsRead (D.disk depot.old) map) }
    ensures reads { ReadsOnly (D.disk depot.old) (D.disk depot.new) }
    ensures cause { result ≡ Err ReadFault.Depot → Rose (D.disk depot.old).faults (D.disk depot.new).faults }
{
    let map = match read_avi(alloc, depot) {
        Err(fault) => return Err(fault),
        Ok(map) => map,
    };
    if map.streams.len() > MOST_STREAMS {
        return Err(ReadFault::Memory);
    }
    Ok(of_avi(map))
}

// A map of a movie as that of a file of some kind.
fn of_mov(map: MovMap) -> FileMap
    ensures same { result ≡ FileMap.Mov map }
    ensures ordered { IsMap map.fields }
{
    FileMap::Mov(map)
}

// The map of a movie. It has a page of rows on its stack, which the reading of other kinds needn't have on theirs.
#[inline(never)]
fn read_movie<D: Depot>(alloc: Global, depot: &mut D) -> Result<FileMap, ReadFault>
    requires { (o : List ℕ) → Holds (D.disk depot.old) o → kind_at o ≡ Some Kind.Mov }
    ensures file { (o : List ℕ) → Holds (D.disk depot.old) o → ReadsKind (model_in o) Maps o result }
    ensures sound { IfOk result (λ map. SoundMap map) }
    ensures tells { IfOk result (λ map. IsRead (D.disk depot.old) map) }
    ensures reads { ReadsOnly (D.disk depot.old) (D.disk depot.new) }
    ensures cause { result ≡ Err ReadFault.Depot → Rose (D.disk depot.old).faults (D.disk depot.new).faults }
{
    match read_mov(alloc, depot) {
        Err(fault) => Err(fault),
        Ok(map) => Ok(of_mov(map)),
    }
}

// A map of a WAVE file as that of a file of some kind.
fn of_wave(map: WaveMap) -> FileMap
    ensures same { result ≡ FileMap.Wave map }
    ensures ordered { IsMap map.fields }
{
    FileMap::Wave(map)
}

/// The map of a file, whatever its kind, or the first reason for which it is refused. The depot is only read. `Depot`
/// only where the count of the depot's faults rose.
pub fn read<D: Depot>(alloc: Global, depot: &mut D) -> Result<FileMap, ReadFault>
    ensures file { (o : List ℕ) → Holds (D.disk depot.old) o → ReadsKind (model_in o) Maps o result }
    ensures sound { IfOk result (λ map. SoundMap map) }
    ensures tells { IfOk result (λ map. IsRead (D.disk depot.old) map) }
    ensures reads { ReadsOnly (D.disk depot.old) (D.disk depot.new) }
    ensures cause { result ≡ Err ReadFault.Depot → Rose (D.disk depot.old).faults (D.disk depot.new).faults }
{
    let kind = match read_kind(depot) {
        Err(_) => return Err(ReadFault::Depot),
        Ok(kind) => kind,
    };
    if is_avi(kind) {
        return read_listed(alloc, depot);
    }
    if is_mov(kind) {
        return read_movie(alloc, depot);
    }
    match read_wave(alloc, depot) {
        Err(fault) => Err(fault),
        Ok(map) => Ok(of_wave(map)),
    }
}
