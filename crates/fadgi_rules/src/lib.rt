//! The 24 editing rules: which of them an edit of the fields of a file breaks, and which of them fields break as they
//! stand. It knows fields and edits alone, and no file. The first broken rule is found without taking memory.
#![tactic(auto)]

ghost use Rattle.std.specs.Prelude.{◌≡◌, ℕ, [], IfOk};
ghost use Rattle.part_tree.specs.Fields.{values};
ghost use Rattle.field_model.specs.Broken as spec;
ghost use Rattle.field_model.specs.Lawful.{IsLawful};

mod changed;
mod history;
mod item;
mod names;
mod present;
mod row;
mod table;
#[cfg(test)]
mod tests;
mod text;

use core_edit::Edit;
use item::first_by_items;
pub use part_tree::{Broken, RuleSet};
use part_tree::{Fields, Kind, NoMemory};
use row::{all_by_fields, first_by_fields};
use std::alloc::Global;
pub use table::{RULES, RuleRow, rule_rows};

/// The first rule of the chosen sets that an edit of a file with so many streams breaks, with the first field in field
/// order that breaks it. None where it breaks none. It takes no memory.
pub fn first_broken(
    kind: Kind,
    streams: u32,
    fields: &Fields,
    edit: &Edit,
    rules: RuleSet,
) -> Option<Broken>
    requires { IsLawful (values fields.now) }
    ensures { result ≡ spec.broken kind streams (values fields.now) edit.now rules }
{
    let items = edit.items();
    match first_by_items(kind, streams, fields, items) {
        Some(broken) => Some(broken),
        None => first_by_fields(kind, streams, fields, items, rules),
    }
}

/// Each rule of the chosen sets that fields break without an edit, and each field that breaks it: by rule, then in
/// field order. `NoMemory` where the list doesn't fit.
pub fn all_broken(
    alloc: Global,
    kind: Kind,
    fields: &Fields,
    rules: RuleSet,
) -> Result<Vec<Broken>, NoMemory>
    requires { IsLawful (values fields.now) }
    ensures { (streams : ℕ) → IfOk result (λ v. v.items ≡ spec.findings kind streams (values fields.now) [] rules) }
{
    all_by_fields(alloc, kind, fields, rules)
}
