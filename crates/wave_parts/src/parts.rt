// All parts of a file.
ghost use Rattle.std.specs.Prelude.{◌≡◌, ◌+◌, ◌<◌, ◌≤◌, ◌^◌, ◌++◌, ℕ, List, IfErr, IfOk, OnOk, length};
ghost use Rattle.std.specs.List.{AllByRecursion};
ghost use Rattle.me_bytes.specs.Bytes.{IsBytes};
ghost use Rattle.me_disk.specs.Causes.{Rose};
ghost use Rattle.me_disk.specs.Holds.{Holds, Inside as IsInside};
ghost use Rattle.me_disk.specs.Steps.{ReadsOnly};
ghost use Rattle.wave_model.specs.Map.{parts_of_file};
ghost use Rattle.wave_file.specs.Map.{Ascend, IsMapOf, IsSound};
ghost use Rattle.wave_file.specs.Reads.{IsNoWhy};
ghost use Rattle.part_tree.specs.Parts.{rest_parts};
ghost use Rattle.wave_parts.specs.Opened.{PartEnds, end_after, is_list as lists, opened_part, opened_parts, tail_at};

use crate::items::{put_items, put_rest};
use me_disk::Depot;
use part_tree::{Part, ReadFault, Role};
use std::alloc::Global;
use wave_file::WaveMap;

// Whether a part is a list of fields.
fn is_list(role: Role) -> bool
    ensures { result ≡ lists role }
{
    match role {
        Role::Info => true,
        _ => false,
    }
}

// Puts a part, with the items of a list and its rest, behind the parts.
fn put_part<D: Depot>(
    parts: &mut Vec<Part>,
    depot: &mut D,
    part: &Part,
    end: u64,
) -> Result<(), ReadFault>
    requires inside { IsInside end (D.disk depot.old) }
    requires small { end < 2 ^ 63 }
    requires body { part.now.body.at + part.now.body.len ≤ end }
    ensures part { (b : List ℕ) → Holds (D.disk depot.old) b → PartEnds b part.now
        → OnOk result (parts.new.items ≡ parts.old.items ++ opened_part b part.now) }
    ensures why { (b : List ℕ) → Holds (D.disk depot.old) b → PartEnds b part.now
        → IfErr result (λ fault. IsNoWhy fault) }
    ensures reads { ReadsOnly (D.disk depot.old) (D.disk depot.new) }
    ensures cause { result ≡ Err ReadFault.Depot → Rose (D.disk depot.old).faults (D.disk depot.new).faults }
{
    match parts.push(*part) {
        Err(_) => return Err(ReadFault::Memory),
        Ok(()) => {}
    }
    if !is_list(part.role) {
        return Ok(());
    }
    if part.body.len < 4 {
        return Ok(());
    }
    put_items(parts, depot, part.body.at + 4, part.body.at + part.body.len)
}

// Puts parts that ascend up to an end, with what stands in them, behind the parts. Gives where the last one ends.
fn put_parts<D: Depot>(
    parts: &mut Vec<Part>,
    depot: &mut D,
    more: &[Part],
    end: u64,
) -> Result<u64, ReadFault>
    requires inside { IsInside end (D.disk depot.old) }
    requires small { end < 2 ^ 63 }
    requires ascend { Ascend 12 more.now end }
    ensures parts { (b : List ℕ) → Holds (D.disk depot.old) b → AllByRecursion (PartEnds b) more.now
        → OnOk result (parts.new.items ≡ parts.old.items ++ opened_parts b more.now) }
    ensures place { IfOk result (λ at. at ≡ end_after 12 more.now) }
    ensures why { (b : List ℕ) → Holds (D.disk depot.old) b → AllByRecursion (PartEnds b) more.now
        → IfErr result (λ fault. IsNoWhy fault) }
    ensures reads { ReadsOnly (D.disk depot.old) (D.disk depot.new) }
    ensures cause { result ≡ Err ReadFault.Depot → Rose (D.disk depot.old).faults (D.disk depot.new).faults }
{
    let mut at = 12;
    'parts: for part in more {
        match put_part(parts, depot, part, end) {
            Err(fault) => return Err(fault),
            Ok(()) => {}
        }
        at = part.next;
    }
    Ok(at)
}

// Puts the rest of a form that ends at a place, and the tail of a file of this length, behind the parts.
fn put_rests(parts: &mut Vec<Part>, at: u64, form_end: u64, len: u64) -> Result<(), ReadFault>
    requires order { at ≤ form_end }
    requires inside { form_end ≤ len }
    requires small { len < 2 ^ 63 }
    ensures rests { (left tail : List ℕ) (n : ℕ) → at + length left ≡ form_end → n ≡ tail_at form_end len
        → n + length tail ≡ len
        → OnOk result (parts.new.items ≡ parts.old.items ++ (rest_parts at left ++ rest_parts n tail)) }
    ensures why { IfErr result (λ fault. IsNoWhy fault) }
    ensures never { result ≡ Err ReadFault.Depot → ⊥ }
{
    match put_rest(parts, at, form_end) {
        Err(fault) => return Err(fault),
        Ok(()) => {}
    }
    put_rest(parts, len.min(form_end + form_end % 2), len)
}

/// All parts of the file of this map in the order of reading: its chunks, behind each list of fields its items and its rest, the
/// rest of the form, and the tail. The depot is only read. `Depot` only where the count of the depot's faults rose.
pub fn tell_parts<D: Depot>(
    alloc: Global,
    depot: &mut D,
    map: &WaveMap,
) -> Result<Vec<Part>, ReadFault>
    requires mapped { (b : List ℕ) → Holds (D.disk depot.old) b → IsMapOf b map.now }
    requires sound { IsSound map.now }
    ensures parts { (b : List ℕ) → IsBytes b → Holds (D.disk depot.old) b
        → IfOk result (λ parts. parts.items ≡ parts_of_file b) }
    ensures why { (b : List ℕ) → IsBytes b → Holds (D.disk depot.old) b → IfErr result (λ fault. IsNoWhy fault) }
    ensures reads { ReadsOnly (D.disk depot.old) (D.disk depot.new) }
    ensures cause { result ≡ Err ReadFault.Depot → Rose (D.disk depot.old).faults (D.disk depot.new).faults }
{
    let mut parts = Vec::new(alloc);
    let at = match put_parts(&mut parts, depot, &map.parts, map.form_end) {
        Err(fault) => return Err(fault),
        Ok(at) => at,
    };
    match put_rests(&mut parts, at, map.form_end, map.len) {
        Err(fault) => Err(fault),
        Ok(()) => Ok(parts),
    }
}
