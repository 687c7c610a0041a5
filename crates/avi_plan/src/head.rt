// What is read of index chunks: their heads, and their first entries that are counted.
ghost use Rattle.std.specs.Prelude.{◌≡◌, ◌≤◌, ◌<◌, ◌+◌, ◌*◌, ◌∷◌, ◌^◌, [], ℕ, List, length, drop, IfOk, IfSome, Some};
ghost use Rattle.me_disk.specs.Holds.{Holds, Inside};
ghost use Rattle.me_disk.specs.Steps.{HasCause, ReadsOnly};
ghost use Rattle.container_model.specs.Written.{slice};
ghost use Rattle.opendml_index.specs.Entries.{width_by};
ghost use Rattle.opendml_index.specs.Index.{first_counted as first_of};
ghost use Rattle.opendml_index.specs.Kinds.{SoundIndex, is_index_kind};
ghost use Rattle.avi_plan.specs.Heads.{first_in, head_in as head_of};

use me_disk::{Depot, DepotFault, Slot, TableWindow};
use opendml_index::head_in;
use part_tree::{IndexHead, Span};

/// The head of the index chunk with this body. None where none stands there.
pub fn read_head<D: Depot>(depot: &mut D, body: Span) -> Result<Option<IndexHead>, DepotFault>
    requires inside { Inside (body.at + body.len) (D.disk depot.old) }
    ensures head { (b : List ℕ) → Holds (D.disk depot.old) b → SoundIndex is_index_kind (slice b body.at body.len)
        → IfOk result (λ found. found ≡ Some (head_of (slice b body.at body.len))) }
    ensures room { IfOk result (λ found. IfSome found (λ head. 24 + 4 * head.longs * head.used ≤ body.len)) }
    ensures reads { ReadsOnly (D.disk depot.old) (D.disk depot.new) }
    ensures cause { HasCause (D.disk depot.old) (D.disk depot.new) result }
{
    if body.len < 24 {
        return Ok(None);
    }
    let mut first = [0u8; 24];
    depot.read_at(Slot::Main, body.at, &mut first)?;
    match head_in(&first, body.len, false) {
        Err(_) => Ok(None),
        Ok(head) => Ok(Some(head)),
    }
}

/// The length of the entries of a standard index.
pub fn entry_width(two_fields: bool) -> u64
    ensures is { result ≡ width_by two_fields }
    ensures few { result ≤ 12 }
{
    if two_fields { 12 } else { 8 }
}

// The offset of an entry, if it is counted, by its first eight bytes.
fn offset_in(row: &[u8; 8]) -> Option<u32>
    ensures { (r : List ℕ) → row.now ≡ slice r 0 8 → result ≡ first_of (r ∷ []) }
{
    let len = u32::from_le_bytes([row[4], row[5], row[6], row[7]]);
    if len % 0x8000_0000 == 0 {
        return None;
    }
    Some(u32::from_le_bytes([row[0], row[1], row[2], row[3]]))
}

/// The offset of the first counted entry of a standard index, whose entries begin at a place, if there is one.
pub fn first_counted<D: Depot>(
    depot: &mut D,
    head: &IndexHead,
    from: u64,
) -> Result<Option<u32>, DepotFault>
    requires inside { Inside (from + width_by head.now.two_fields * head.now.used) (D.disk depot.old) }
    requires small { from + width_by head.now.two_fields * head.now.used < 2 ^ 63 }
    ensures first { (b : List ℕ) → Holds (D.disk depot.old) b
        → IfOk result (λ first. first ≡ first_in head.now (drop from b)) }
    ensures reads { ReadsOnly (D.disk depot.old) (D.disk depot.new) }
    ensures cause { HasCause (D.disk depot.old) (D.disk depot.new) result }
{
    let width = entry_width(head.two_fields);
    let end = from + width * u64::from(head.used);
    let mut window = TableWindow::new();
    'entries: for k in 0..u64::from(head.used) {
        let mut row = [0u8; 8];
        window.read_at(depot, from + width * k, end, &mut row)?;
        match offset_in(&row) {
            Some(offset) => return Ok(Some(offset)),
            None => {}
        }
    }
    Ok(None)
}
