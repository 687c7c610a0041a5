// The bytes of a range of a file.
ghost use Rattle.std.specs.Prelude.{◌≡◌, ◌+◌, ◌<◌, ◌^◌, ℕ, List, length, IfOk, IfErr};
ghost use Rattle.me_disk.specs.Causes.{Rose};
ghost use Rattle.me_disk.specs.Steps.{ReadsOnly};
ghost use Rattle.me_disk.specs.Holds.{Holds, Inside};
ghost use Rattle.container_model.specs.Written.{slice};
ghost use Rattle.mov_file.specs.Range.{IsNoWhy};

use me_disk::{Depot, Slot};
use part_tree::{Bytes, ReadFault, Span};
use std::alloc::Global;

// The bytes of a range.
pub fn read_range<D: Depot>(alloc: Global, depot: &mut D, span: Span) -> Result<Bytes, ReadFault>
    requires inside { Inside (span.at + span.len) (D.disk depot.old) }
    requires small { span.at + span.len < 2 ^ 63 }
    ensures bytes { (b : List ℕ) → Holds (D.disk depot.old) b → IfOk result (λ x. x ≡ slice b span.at span.len) }
    ensures len { IfOk result (λ x. length x ≡ span.len) }
    ensures why { IfErr result IsNoWhy }
    ensures reads { ReadsOnly (D.disk depot.old) (D.disk depot.new) }
    ensures cause { result ≡ Err ReadFault.Depot → Rose (D.disk depot.old).faults (D.disk depot.new).faults }
{
    let mut bytes = match vec![in alloc; 0u8; span.len as usize] {
        Err(_) => return Err(ReadFault::Memory),
        Ok(bytes) => bytes,
    };
    match depot.read_at(Slot::Main, span.at, &mut bytes) {
        Err(_) => Err(ReadFault::Depot),
        Ok(()) => Ok(Bytes::of(bytes)),
    }
}
