// The fields of a file: the items of its lists.
ghost use Rattle.std.specs.Prelude.{◌≡◌, ◌+◌, ◌-◌, ◌<◌, ◌≤◌, ◌^◌, ℕ, List, IfErr, IfOk, OnOk, length};
ghost use Rattle.std.specs.List.{AllByRecursion};
ghost use Rattle.me_disk.specs.Causes.{Rose};
ghost use Rattle.me_disk.specs.Holds.{Holds, Inside as IsInside};
ghost use Rattle.me_disk.specs.Steps.{ReadsOnly};
ghost use Rattle.container_model.specs.Written.{slice};
ghost use Rattle.field_model.specs.Lawful.{IsLawful};
ghost use Rattle.part_tree.specs.Fields.{values};
ghost use Rattle.opendml_index.specs.Checks.{EndInside};
ghost use Rattle.avi_file.specs.Fields.{IsNoWhy, OnlyTexts, ReadsList, ReadsLists};

use info_list::{InfoFault, add_items, read_info};
use me_disk::{Depot, Slot};
use part_tree::{Bytes, Fields, ReadFault, Span, Why};
use std::alloc::Global;

/// The bytes of a range.
pub fn read_bytes<D: Depot>(alloc: Global, depot: &mut D, span: Span) -> Result<Bytes, ReadFault>
    requires inside { IsInside (span.at + span.len) (D.disk depot.old) }
    requires small { span.at + span.len < 2 ^ 63 }
    ensures bytes { (b : List ℕ) → Holds (D.disk depot.old) b → IfOk result (λ x. x ≡ slice b span.at span.len) }
    ensures len { IfOk result (λ x. length x ≡ span.len) }
    ensures why { IfErr result (λ fault. IsNoWhy fault) }
    ensures reads { ReadsOnly (D.disk depot.old) (D.disk depot.new) }
    ensures cause { result ≡ Err ReadFault.Depot → Rose (D.disk depot.old).faults (D.disk depot.new).faults }
{
    let mut bytes = match vec![in alloc; 0u8; span.len as usize] {
        Err(_) => return Err(ReadFault::Memory),
        Ok(bytes) => bytes,
    };
    match depot.read_at(Slot::Main, span.at, &mut bytes) {
        Err(_) => Err(ReadFault::Depot),
        Ok(()) => Ok(Bytes::of(bytes)),
    }
}

// Reads the items of a list of fields with this body.
fn read_list<D: Depot>(
    fields: &mut Fields,
    alloc: Global,
    depot: &mut D,
    list: Span,
) -> Result<(), ReadFault>
    requires inside { IsInside (list.at + list.len) (D.disk depot.old) }
    requires small { list.at + list.len < 2 ^ 63 }
    ensures list { (b : List ℕ) → Holds (D.disk depot.old) b → ReadsList b list fields.old fields.new result }
    ensures only { OnOk result (OnlyTexts fields.old → OnlyTexts fields.new) }
    ensures reads { ReadsOnly (D.disk depot.old) (D.disk depot.new) }
    ensures cause { result ≡ Err ReadFault.Depot → Rose (D.disk depot.old).faults (D.disk depot.new).faults }
{
    if list.len < 4 {
        return Ok(());
    }
    let body = Span {
        at: list.at + 4,
        len: list.len - 4,
    };
    let bytes = match read_bytes(alloc, depot, body) {
        Err(fault) => return Err(fault),
        Ok(bytes) => bytes,
    };
    let info = match read_info(alloc, bytes.as_slice()) {
        Err(InfoFault::Memory) => return Err(ReadFault::Memory),
        Err(InfoFault::Truncated { at }) => {
            return Err(ReadFault::Why(Why::Truncated { at: body.at + at }));
        }
        Ok(info) => info,
    };
    match add_items(fields, alloc, info.items.as_slice()) {
        Err(_) => Err(ReadFault::Memory),
        Ok(()) => Ok(()),
    }
}

/// Puts the items of the lists of fields with these bodies behind the fields, one list after the other.
pub fn read_lists<D: Depot>(
    fields: &mut Fields,
    alloc: Global,
    depot: &mut D,
    lists: &[Span],
) -> Result<(), ReadFault>
    requires inside { (b : List ℕ) → Holds (D.disk depot.old) b → AllByRecursion (EndInside (length b)) lists.now }
    requires small { AllByRecursion (EndInside (2 ^ 63 - 1)) lists.now }
    ensures lists { (b : List ℕ) → Holds (D.disk depot.old) b → ReadsLists b lists.now fields.old fields.new result }
    ensures only { OnOk result (OnlyTexts fields.old → OnlyTexts fields.new) }
    ensures reads { ReadsOnly (D.disk depot.old) (D.disk depot.new) }
    ensures cause { result ≡ Err ReadFault.Depot → Rose (D.disk depot.old).faults (D.disk depot.new).faults }
{
    'lists: for list in lists {
        match read_list(fields, alloc, depot, *list) {
            Err(fault) => return Err(fault),
            Ok(()) => {}
        }
    }
    Ok(())
}
