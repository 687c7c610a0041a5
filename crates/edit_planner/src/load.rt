// The cells of a form, read from its parts.
ghost use Rattle.std.specs.Prelude.{◌≡◌, ◌≤◌, ◌<◌, ◌+◌, ◌^◌, ℕ, List, IfOk, length, Bool};
ghost use Rattle.me_disk.specs.Causes.{Rose};
ghost use Rattle.me_disk.specs.Steps.{ReadsOnly};
ghost use Rattle.me_disk.specs.Holds.{Holds, Inside};
ghost use Rattle.part_tree.specs.declared.part.Role.{Role};
ghost use Rattle.container_model.specs.Chunk.{Chunk};
ghost use Rattle.container_model.specs.Units.{lacks_pad as has_no_pad};
ghost use Rattle.container_model.specs.Written.{slice};
ghost use Rattle.wave_file.specs.Map.{Ascend, part_as};
ghost use Rattle.edit_planner.specs.Cells.{AreReadable, Follow, IsReadable, list_in};
ghost use Rattle.edit_planner.specs.Stand.{StandFrom, StandsAt, held_at, held_by, held_from, parts_from};

use crate::cells::{CellAt, Content};
use info_list::read_info;
use me_disk::{Depot, Slot};
use part_tree::{Bytes, Part, Role, Span};
use std::alloc::Global;

const MOST_BYTES: u64 = 16_777_216;

/// Why cells aren't read.
#[derive(Clone, Copy, Debug, PartialEq, Eq)]
pub enum LoadFault {
    /// The depot failed.
    Depot,
    /// There was no memory, or the depot gave other bytes than those that the map was made of.
    Memory,
}

// The bytes of a body of at most 16 MiB.
fn read_body<D: Depot>(alloc: Global, depot: &mut D, span: Span) -> Result<Bytes, LoadFault>
    requires inside { Inside (span.at + span.len) (D.disk depot.old) }
    requires small { span.at + span.len < 2 ^ 63 }
    ensures bytes { (b : List ℕ) → Holds (D.disk depot.old) b → IfOk result (λ x. x ≡ slice b span.at span.len) }
    ensures len { IfOk result (λ x. length x ≡ span.len) }
    ensures short { IfOk result (λ x. length x ≤ 2 ^ 24) }
    ensures reads { ReadsOnly (D.disk depot.old) (D.disk depot.new) }
    ensures cause { result ≡ Err LoadFault.Depot → Rose (D.disk depot.old).faults (D.disk depot.new).faults }
{
    if span.len > MOST_BYTES {
        return Err(LoadFault::Memory);
    }
    let mut bytes = match vec![in alloc; 0u8; span.len as usize] {
        Err(_) => return Err(LoadFault::Memory),
        Ok(bytes) => bytes,
    };
    match depot.read_at(Slot::Main, span.at, &mut bytes) {
        Err(_) => Err(LoadFault::Depot),
        Ok(()) => Ok(Bytes::of(bytes)),
    }
}

// A list of INFO items.
fn load_list<D: Depot>(alloc: Global, depot: &mut D, span: Span) -> Result<Content, LoadFault>
    requires inside { Inside (span.at + span.len) (D.disk depot.old) }
    requires small { span.at + span.len < 2 ^ 63 }
    ensures content { (b : List ℕ) → Holds (D.disk depot.old) b → (c : Chunk) → c.body ≡ slice b span.at span.len
        → IfOk result (λ content. content ≡ Content.Listed (list_in c)) }
    ensures readable { IfOk result (λ content. IsReadable content) }
    ensures reads { ReadsOnly (D.disk depot.old) (D.disk depot.new) }
    ensures cause { result ≡ Err LoadFault.Depot → Rose (D.disk depot.old).faults (D.disk depot.new).faults }
{
    let body = match read_body(alloc, depot, span) {
        Err(fault) => return Err(fault),
        Ok(body) => body,
    };
    if span.len < 4 {
        return Err(LoadFault::Memory);
    }
    match read_info(alloc, &body.as_slice()[4..]) {
        Err(_) => Err(LoadFault::Memory),
        Ok(list) => Ok(Content::Listed(list)),
    }
}

// A body of `bext`.
fn load_bext<D: Depot>(alloc: Global, depot: &mut D, span: Span) -> Result<Content, LoadFault>
    requires inside { Inside (span.at + span.len) (D.disk depot.old) }
    requires small { span.at + span.len < 2 ^ 63 }
    ensures content { (b : List ℕ) → Holds (D.disk depot.old) b
        → IfOk result (λ content. content ≡ Content.Body (slice b span.at span.len)) }
    ensures readable { IfOk result (λ content. IsReadable content) }
    ensures reads { ReadsOnly (D.disk depot.old) (D.disk depot.new) }
    ensures cause { result ≡ Err LoadFault.Depot → Rose (D.disk depot.old).faults (D.disk depot.new).faults }
{
    let body = match read_body(alloc, depot, span) {
        Err(fault) => return Err(fault),
        Ok(body) => body,
    };
    if span.len < 602 {
        return Err(LoadFault::Memory);
    }
    Ok(Content::Body(body))
}

// What stands in a part.
fn load_content<D: Depot>(alloc: Global, depot: &mut D, part: &Part) -> Result<Content, LoadFault>
    requires inside { Inside (part.now.body.at + part.now.body.len) (D.disk depot.old) }
    requires small { part.now.body.at + part.now.body.len < 2 ^ 63 }
    ensures content { (b : List ℕ) → Holds (D.disk depot.old) b
        → (role : Role) (at : ℕ) (c : Chunk) → part.now ≡ part_as role at c → StandsAt b at c
        → IfOk result (λ content. content ≡ held_by role c) }
    ensures readable { IfOk result (λ content. IsReadable content) }
    ensures reads { ReadsOnly (D.disk depot.old) (D.disk depot.new) }
    ensures cause { result ≡ Err LoadFault.Depot → Rose (D.disk depot.old).faults (D.disk depot.new).faults }
{
    match part.role {
        Role::Info => load_list(alloc, depot, part.body),
        Role::Bext => load_bext(alloc, depot, part.body),
        Role::Padding => Ok(Content::Gap),
        _ => Ok(Content::Kept {
            id: part.id,
            role: part.role,
        }),
    }
}

// Whether a part has a body of odd length and no pad byte.
fn lacks_pad(part: &Part) -> bool
    requires { part.now.body.at + part.now.body.len < 2 ^ 63 }
    ensures pad { (b : List ℕ) (role : Role) (at : ℕ) (c : Chunk) → part.now ≡ part_as role at c
        → StandsAt b at c → result ≡ has_no_pad c }
{
    part.body.len % 2 == 1 && part.next == part.body.at + part.body.len
}

// The cell of a part that begins where the one before it ends.
fn load_cell<D: Depot>(
    alloc: Global,
    depot: &mut D,
    part: &Part,
    at: u64,
) -> Result<CellAt, LoadFault>
    requires inside { Inside (part.now.body.at + part.now.body.len) (D.disk depot.old) }
    requires small { part.now.body.at + part.now.body.len < 2 ^ 63 }
    ensures cell { (b : List ℕ) → Holds (D.disk depot.old) b
        → (role : Role) (c : Chunk) → part.now ≡ part_as role at c → StandsAt b at c
        → IfOk result (λ cell. cell ≡ held_at role at c) }
    ensures place { IfOk result (λ cell. (cell.at ≡ at) × (cell.next ≡ part.now.next)) }
    ensures readable { IfOk result (λ cell. IsReadable cell.content) }
    ensures reads { ReadsOnly (D.disk depot.old) (D.disk depot.new) }
    ensures cause { result ≡ Err LoadFault.Depot → Rose (D.disk depot.old).faults (D.disk depot.new).faults }
{
    let content = match load_content(alloc, depot, part) {
        Err(fault) => return Err(fault),
        Ok(content) => content,
    };
    Ok(CellAt {
        at,
        next: part.next,
        lacks_pad: lacks_pad(part),
        content,
    })
}

/// The cells of a form, and the byte where the last one ends.
#[derive(Debug, Drop)]
pub struct Loaded {
    pub cells: Vec<CellAt>,
    pub end: u64,
}

/// Reads the cells of parts, the first of which begins at the byte `from`. Bodies of `bext` and of lists are read, and
/// no others.
pub fn load_cells<D: Depot>(
    alloc: Global,
    depot: &mut D,
    parts: &[Part],
    from: u64,
    form_end: u64,
) -> Result<Loaded, LoadFault>
    requires ascend { Ascend from parts.now form_end }
    requires inside { Inside form_end (D.disk depot.old) }
    requires small { form_end < 2 ^ 63 }
    ensures cells { (b : List ℕ) → Holds (D.disk depot.old) b
        → (role : ℕ → Chunk → Role) (cs : List Chunk) → parts.now ≡ parts_from role from cs → StandFrom b from cs
        → IfOk result (λ l. l.cells.items ≡ held_from role from cs) }
    ensures follow { IfOk result (λ l. Follow from l.cells.items l.end) }
    ensures end { IfOk result (λ l. (from ≤ l.end) × (l.end ≤ form_end)) }
    ensures readable { IfOk result (λ l. AreReadable l.cells.items) }
    ensures reads { ReadsOnly (D.disk depot.old) (D.disk depot.new) }
    ensures cause { result ≡ Err LoadFault.Depot → Rose (D.disk depot.old).faults (D.disk depot.new).faults }
{
    let mut cells = Vec::new(alloc);
    let mut at = from;
    'parts: for part in parts {
        let cell = match load_cell(alloc, depot, part, at) {
            Err(fault) => return Err(fault),
            Ok(cell) => cell,
        };
        at = part.next;
        match cells.push(cell) {
            Err(_) => return Err(LoadFault::Memory),
            Ok(()) => {}
        }
    }
    Ok(Loaded { cells, end: at })
}
