// The list `hdrl` among the chunks of a form.
ghost use Rattle.std.specs.Prelude.{◌≡◌, ◌≤◌, ◌<◌, ◌+◌, ◌^◌, ℕ, List, IfOk, IfSome, length, true};
ghost use Rattle.std.specs.List.{AllByRecursion};
ghost use Rattle.me_disk.specs.Holds.{Holds, Inside};
ghost use Rattle.me_disk.specs.Steps.{HasCause, ReadsOnly};
ghost use Rattle.part_tree.specs.declared.part.Role.{Role};
ghost use Rattle.container_model.specs.Chunk.{Chunk};
ghost use Rattle.avi_model.specs.Named.{is_hdrl};
ghost use Rattle.wave_file.specs.Map.{Ascend, part_as};
ghost use Rattle.edit_planner.specs.Stand.{StandFrom, StandsAt, parts_from};
ghost use Rattle.edit_planner.specs.Tops.{IsRiff, StandsIn, head_from};

use me_disk::{Depot, DepotFault, Slot};
use part_tree::{FourCc, Part, Span};

/// A list of type `hdrl`: its number among the chunks of its form, from 0, and its body.
#[derive(Clone, Copy, Debug, PartialEq, Eq)]
pub struct Head {
    pub number: usize,
    pub body: Span,
}

// Whether a chunk is a list of type `hdrl`.
fn is_head<D: Depot>(depot: &mut D, part: &Part) -> Result<bool, DepotFault>
    requires inside { Inside (part.now.body.at + part.now.body.len) (D.disk depot.old) }
    requires small { part.now.body.at + part.now.body.len < 2 ^ 63 }
    ensures head { (b : List ℕ) → Holds (D.disk depot.old) b
        → (role : Role) (at : ℕ) (c : Chunk) → part.now ≡ part_as role at c → StandsAt b at c → IsRiff c
        → IfOk result (λ t. t ≡ is_hdrl c) }
    ensures typed { IfOk result (λ t. t ≡ true → 4 ≤ part.now.body.len) }
    ensures reads { ReadsOnly (D.disk depot.old) (D.disk depot.new) }
    ensures cause { HasCause (D.disk depot.old) (D.disk depot.new) result }
{
    if !part.id.is(b"LIST") || part.body.len < 4 {
        return Ok(false);
    }
    let mut word = [0u8; 4];
    depot.read_at(Slot::Main, part.body.at, &mut word)?;
    Ok(FourCc(word).is(b"hdrl"))
}

/// The first list of type `hdrl` among chunks, the first of which begins at the byte `from`. Of each list up to it the type is read.
pub fn head_of<D: Depot>(
    depot: &mut D,
    parts: &[Part],
    from: u64,
    end: u64,
) -> Result<Option<Head>, DepotFault>
    requires ascend { Ascend from parts.now end }
    requires inside { Inside end (D.disk depot.old) }
    requires small { end < 2 ^ 63 }
    ensures head { (b : List ℕ) → Holds (D.disk depot.old) b
        → (role : ℕ → Chunk → Role) (cs : List Chunk) → parts.now ≡ parts_from role from cs → StandFrom b from cs
        → AllByRecursion IsRiff cs → IfOk result (λ found. found ≡ head_from 0 from cs) }
    ensures number { IfOk result (λ found. IfSome found (λ h. h.number < length parts.now)) }
    ensures stands { IfOk result (λ found. IfSome found (λ h. StandsIn from end h)) }
    ensures reads { ReadsOnly (D.disk depot.old) (D.disk depot.new) }
    ensures cause { HasCause (D.disk depot.old) (D.disk depot.new) result }
{
    let mut number = 0;
    'parts: for part in parts {
        if is_head(depot, part)? {
            return Ok(Some(Head {
                number,
                body: part.body,
            }));
        }
        number += 1;
    }
    Ok(None)
}
