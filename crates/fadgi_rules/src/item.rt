// The rules 1 to 13, on the items of an edit that have an effect.
ghost use Rattle.std.specs.Prelude.{◌≡◌, []};
ghost use Rattle.part_tree.specs.Fields.{values};
ghost use Rattle.field_model.specs.Broken as spec;
ghost use Rattle.field_model.specs.KindFacts as facts;
ghost use Rattle.field_model.specs.Lawful.{IsLawful};
ghost use Rattle.part_tree.specs.declared.field.RuleSet.TheVariants.{Base};
ghost use Rattle.field_model.specs.Rules.{sets_version};
ghost use Rattle.fadgi_rules.specs.Items as model;

use core_edit::{has_effect, text_rule};
use part_tree::{BextField, Broken, Change, EditItem, FieldName, Fields, Kind};

/// The first of the rules 1 to 13 that some item breaks, with the first field in field order that breaks it.
pub fn first_by_items(
    kind: Kind,
    streams: u32,
    fields: &Fields,
    items: &[EditItem],
) -> Option<Broken>
    requires { IsLawful (values fields.now) }
    ensures { result ≡ spec.broken kind streams (values fields.now) items.now Base }
{
    let mut first = None;
    for i in (0..items.len()).rev() {
        first = first_of_two(item_broken(kind, streams, fields, &items[i]), first);
    }
    first
}

// The one that comes first: the lower rule, or of one rule the field that is first in field order.
fn first_of_two(a: Option<Broken>, b: Option<Broken>) -> Option<Broken>
    ensures { result ≡ model.first_of_two a b }
{
    match (a, b) {
        (None, b) => b,
        (Some(a), None) => Some(a),
        (Some(a), Some(b)) => {
            if comes_first(&a, &b) {
                Some(a)
            } else {
                Some(b)
            }
        }
    }
}

fn comes_first(a: &Broken, b: &Broken) -> bool
    ensures { result ≡ model.comes_first a.now b.now }
{
    a.rule < b.rule || (a.rule == b.rule && !b.field.is_before(&a.field))
}

// The least of the rules that an item with an effect breaks.
fn item_broken(kind: Kind, streams: u32, fields: &Fields, item: &EditItem) -> Option<Broken>
    requires { IsLawful (values fields.now) }
    ensures { result ≡ model.item_broken kind streams (values fields.now) item.now }
{
    if !has_effect(fields, item) {
        return None;
    }
    match item_rule(kind, streams, item) {
        Some(rule) => Some(Broken {
            rule,
            field: item.name,
        }),
        None => None,
    }
}

// The least of the rules that an item breaks.
fn item_rule(kind: Kind, streams: u32, item: &EditItem) -> Option<u8>
    ensures { result ≡ model.item_rule kind streams item.now }
{
    if !has_field(kind, streams, &item.name) {
        return Some(1);
    }
    match &item.change {
        Change::Set(text) => text_rule(&item.name, text.as_slice()),
        Change::Remove => {
            if is_version(&item.name) {
                Some(2)
            } else {
                None
            }
        }
    }
}

// Whether a file of a kind, with so many streams, can have a field.
fn has_field(kind: Kind, streams: u32, name: &FieldName) -> bool
    ensures { result ≡ facts.has_field kind streams name.now }
{
    match name {
        FieldName::Bext(_) | FieldName::Whole(_) => is_wave(kind),
        FieldName::Info(_) => !is_movie(kind),
        FieldName::User(_) | FieldName::Key(_) => is_movie(kind),
        FieldName::Stream(n) => kind == Kind::Avi && *n < streams,
    }
}

fn is_wave(kind: Kind) -> bool
    ensures { result ≡ facts.is_wave kind }
{
    matches!(kind, Kind::Wave | Kind::Rf64 | Kind::Bw64)
}

fn is_movie(kind: Kind) -> bool
    ensures { result ≡ facts.is_movie kind }
{
    matches!(kind, Kind::Mov)
}

fn is_version(name: &FieldName) -> bool
    ensures { result ≡ sets_version name.now [] }
{
    matches!(name, FieldName::Bext(BextField::Version))
}
