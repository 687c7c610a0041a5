// Whether a rule on fields fails after an edit, by the item that changes the field.
ghost use Rattle.std.specs.Prelude.{◌≡◌, option_copied};
ghost use Rattle.part_tree.specs.Fields.{values};
ghost use Rattle.field_model.specs.Lawful.{IsLawful};
ghost use Rattle.field_model.specs.Update.{update};
ghost use Rattle.core_edit.specs.Edits.{AreSound};
ghost use Rattle.fadgi_rules.specs.Changed as changed;
ghost use Rattle.fadgi_rules.specs.Rows as rows;

use crate::present::fails_now;
use crate::row::FieldRule;
use crate::text::text_fails;
use core_edit::has_effect;
use part_tree::{Change, EditItem, FieldName, Fields};

/// Whether a rule fails for a field that it looks at, after an edit whose items break none of the rules 1 to 13.
pub fn fails_after(rule: FieldRule, fields: &Fields, items: &[EditItem], name: &FieldName) -> bool
    requires lawful { IsLawful (values fields.now) }
    requires sound { AreSound items.now }
    requires fine { changed.IsFine (values fields.now) items.now }
    requires looks { rows.LooksAt rule name.now }
    ensures { result ≡ rows.fails rule (update (values fields.now) items.now) name.now }
{
    match change_in(fields, items, name) {
        None => fails_now(rule, fields, name),
        Some(Change::Remove) => needs_text(rule),
        Some(Change::Set(text)) => text_fails(rule, text.as_slice()),
    }
}

// What the item that names a field and has an effect does to it.
fn change_in<'a>(fields: &Fields, items: &'a [EditItem], name: &FieldName) -> Option<&'a Change>
    requires { IsLawful (values fields.now) }
    ensures { option_copied result ≡ changed.change_in (values fields.now) items.now name.now }
{
    for item in items {
        if item.name.is(name) && has_effect(fields, item) {
            return Some(&item.change);
        }
    }
    None
}

// Whether a rule fails where nothing is shown.
fn needs_text(rule: FieldRule) -> bool
    ensures { result ≡ rows.needs_text rule }
{
    matches!(
        rule,
        FieldRule::HasDescription | FieldRule::HasOriginator | FieldRule::HasDate
    )
}
