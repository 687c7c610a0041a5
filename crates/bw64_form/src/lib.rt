//! Reads BW64 files (ITU-R BS.2088), which are RF64 files with another identifier. It knows no chunk that RF64 doesn't have:
//! `chna` is kept as its bytes stand.
#![tactic(auto)]

ghost use Rattle.std.specs.Prelude.{◌≡◌, ℕ, List, IfOk};
ghost use Rattle.me_disk.specs.Causes.{Rose};
ghost use Rattle.me_disk.specs.Holds.{Holds};
ghost use Rattle.me_disk.specs.Steps.{ReadsOnly};
ghost use Rattle.field_model.specs.KindReads.{ReadsKind};
ghost use Rattle.wave_file.specs.Map.{IsMapOf, IsSound};
ghost use Rattle.bw64_form.specs.Bw64.{ReadsTwin, bw64_kind};

#[cfg(test)]
mod tests;

use me_disk::{Depot, Slot};
use part_tree::{FourCc, ReadFault, Why};
use std::alloc::Global;
use wave_file::{WaveMap, read_wave};

/// Reads a BW64 file: its map, or the first reason for which it is refused; any other file is of another kind. What is read
/// is what the RF64 file with the same bytes has. `Depot` only where the count of the depot's faults rose.
pub fn read_bw64<D: Depot>(alloc: Global, depot: &mut D) -> Result<WaveMap, ReadFault>
    ensures bw64 { (b : List ℕ) → Holds (D.disk depot.old) b → ReadsKind bw64_kind IsMapOf b result }
    ensures twin { (b : List ℕ) → Holds (D.disk depot.old) b → ReadsTwin b result }
    ensures sound { IfOk result (λ map. IsSound map) }
    ensures reads { ReadsOnly (D.disk depot.old) (D.disk depot.new) }
    ensures cause { result ≡ Err ReadFault.Depot → Rose (D.disk depot.old).faults (D.disk depot.new).faults }
{
    let len = match depot.len(Slot::Main) {
        Err(_) => return Err(ReadFault::Depot),
        Ok(len) => len,
    };
    if len < 4 {
        return Err(ReadFault::Why(Why::UnknownKind));
    }
    let mut bytes = [0u8; 4];
    match depot.read_at(Slot::Main, 0, &mut bytes) {
        Err(_) => return Err(ReadFault::Depot),
        Ok(()) => {}
    }
    if !FourCc(bytes).is(b"BW64") {
        return Err(ReadFault::Why(Why::UnknownKind));
    }
    read_wave(alloc, depot)
}
