// The parts that have a role, as ranges.
ghost use Rattle.std.specs.Prelude.{◌≡◌, IfOk, length, nat_lt};
ghost use Rattle.avi_file.specs.Walk.{essence_of, is_essence};
ghost use Rattle.avi_file.specs.Chosen.{is_tables, tables_with};
ghost use Rattle.avi_file.specs.Fields.{infos_of as items_of};

use crate::list::is_info;
use part_tree::{NoMemory, Part, Role, Span};
use std::alloc::Global;

// Whether a part is essence.
fn is_frames(role: Role) -> bool
    ensures { result ≡ is_essence role }
{
    match role {
        Role::Essence => true,
        _ => false,
    }
}

// Whether a part is a table.
fn is_table(role: Role) -> bool
    ensures { result ≡ is_tables role }
{
    match role {
        Role::Tables => true,
        _ => false,
    }
}

/// Whether one of the parts is essence.
pub fn has_essence(parts: &[Part]) -> bool
    ensures { result ≡ nat_lt 0 (length (essence_of parts.now)) }
{
    'parts: for part in parts {
        if is_frames(part.role) {
            return true;
        }
    }
    false
}

/// The bodies of the parts that are essence, in file order.
pub fn movis_of(alloc: Global, parts: &[Part]) -> Result<Vec<Span>, NoMemory>
    ensures { IfOk result (λ movis. movis.items ≡ essence_of parts.now) }
{
    let mut movis = Vec::new(alloc);
    'parts: for part in parts {
        if is_frames(part.role) {
            match movis.push(part.body) {
                Err(_) => return Err(NoMemory),
                Ok(()) => {}
            }
        }
    }
    Ok(movis)
}

/// The bodies of the lists of fields, in file order.
pub fn infos_of(alloc: Global, parts: &[Part]) -> Result<Vec<Span>, NoMemory>
    ensures { IfOk result (λ infos. infos.items ≡ items_of parts.now) }
{
    let mut infos = Vec::new(alloc);
    'parts: for part in parts {
        if is_info(part.role) {
            match infos.push(part.body) {
                Err(_) => return Err(NoMemory),
                Ok(()) => {}
            }
        }
    }
    Ok(infos)
}

/// The bodies of the tables with this identifier, in file order.
pub fn tables_of(alloc: Global, parts: &[Part], id: &[u8; 4]) -> Result<Vec<Span>, NoMemory>
    ensures { IfOk result (λ tables. tables.items ≡ tables_with id.now parts.now) }
{
    let mut tables = Vec::new(alloc);
    'parts: for part in parts {
        if is_table(part.role) && part.id.is(id) {
            match tables.push(part.body) {
                Err(_) => return Err(NoMemory),
                Ok(()) => {}
            }
        }
    }
    Ok(tables)
}
