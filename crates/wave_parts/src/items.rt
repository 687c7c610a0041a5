// The items of a list of fields.
ghost use Rattle.std.specs.Prelude.{◌≡◌, ◌+◌, ◌<◌, ◌≤◌, ◌^◌, ◌++◌, ℕ, List, IfErr, OnOk, length};
ghost use Rattle.me_disk.specs.Causes.{Rose};
ghost use Rattle.me_disk.specs.Holds.{Holds, Inside as IsInside};
ghost use Rattle.me_disk.specs.Steps.{ReadsOnly};
ghost use Rattle.part_tree.specs.Parts.{rest_parts};
ghost use Rattle.container_model.specs.Chunk.{ends};
ghost use Rattle.riff_form.specs.Walk.{row};
ghost use Rattle.wave_model.specs.Map.{list_parts};
ghost use Rattle.wave_file.specs.Reads.{IsNoWhy};

use me_disk::Depot;
use part_tree::{FourCc, Part, ReadFault, Role, Span, Why};
use riff_form::{StepFault, Walker};

/// Puts the bytes from a place up to an end behind the parts as a rest, if there are some.
pub fn put_rest(parts: &mut Vec<Part>, at: u64, end: u64) -> Result<(), ReadFault>
    requires order { at ≤ end }
    ensures rest { (left : List ℕ) → at + length left ≡ end
        → OnOk result (parts.new.items ≡ parts.old.items ++ rest_parts at left) }
    ensures why { IfErr result (λ fault. IsNoWhy fault) }
    ensures never { result ≡ Err ReadFault.Depot → ⊥ }
{
    if at == end {
        return Ok(());
    }
    let rest = Part {
        id: FourCc([0; 4]),
        at,
        body: Span { at, len: end - at },
        next: end,
        role: Role::Rest,
    };
    match parts.push(rest) {
        Err(_) => Err(ReadFault::Memory),
        Ok(()) => Ok(()),
    }
}

/// Puts the items that stand from a place up to an end, and their rest, behind the parts.
pub fn put_items<D: Depot>(
    parts: &mut Vec<Part>,
    depot: &mut D,
    start: u64,
    end: u64,
) -> Result<(), ReadFault>
    requires inside { IsInside end (D.disk depot.old) }
    requires small { end < 2 ^ 63 }
    requires order { start ≤ end }
    ensures items { (b : List ℕ) → Holds (D.disk depot.old) b → (row b start end).stop ≡ ends
        → OnOk result (parts.new.items ≡ parts.old.items ++ list_parts start (row b start end)) }
    ensures why { (b : List ℕ) → Holds (D.disk depot.old) b → (row b start end).stop ≡ ends
        → IfErr result (λ fault. IsNoWhy fault) }
    ensures reads { ReadsOnly (D.disk depot.old) (D.disk depot.new) }
    ensures cause { result ≡ Err ReadFault.Depot → Rose (D.disk depot.old).faults (D.disk depot.new).faults }
{
    let mut walker = Walker::new(start, end);
    'items: loop {
        let chunk = match walker.step(depot) {
            Err(StepFault::Depot) => return Err(ReadFault::Depot),
            Err(StepFault::Truncated { at }) => {
                return Err(ReadFault::Why(Why::Truncated { at }));
            }
            Ok(None) => return put_rest(parts, walker.at, end),
            Ok(Some(chunk)) => chunk,
        };
        let item = Part {
            id: chunk.id,
            at: chunk.at,
            body: chunk.body,
            next: chunk.next,
            role: Role::Opaque,
        };
        match parts.push(item) {
            Err(_) => return Err(ReadFault::Memory),
            Ok(()) => {}
        }
    }
}
