// The rules 14 to 24, on the fields after an edit.
ghost use Rattle.std.specs.Prelude.{◌≡◌, ◌++◌, ℕ, [], filter, IfOk, OnOk, None};
ghost use Rattle.part_tree.specs.declared.field.RuleSet.TheVariants.{Base};
ghost use Rattle.part_tree.specs.Fields.{values};
ghost use Rattle.field_model.specs.Broken as spec;
ghost use Rattle.field_model.specs.KindFacts.{facts};
ghost use Rattle.field_model.specs.Lawful.{IsLawful};
ghost use Rattle.field_model.specs.Update.{update};
ghost use Rattle.core_edit.specs.Edits.{AreSound};
ghost use Rattle.fadgi_rules.specs.Findings.{row_findings};
ghost use Rattle.fadgi_rules.specs.Looked.{names_of};
ghost use Rattle.fadgi_rules.specs.Rows as rows;

use crate::changed::fails_after;
use crate::names::Names;
use crate::table::{RULES, RuleRow};
use part_tree::{
    BextField, Broken, EditItem, FieldName, Fields, FourCc, INFO_IDS, Kind, NoMemory, RuleSet,
};
use std::alloc::Global;

/// A rule on fields.
#[derive(Clone, Copy, Debug, PartialEq, Eq)]
pub enum FieldRule {
    /// The coding history is lines of items.
    History,
    /// The origination date is a date.
    Date,
    /// The origination time is a time.
    Time,
    /// The loudness range isn't negative.
    Range,
    /// The texts of `bext` are printable.
    Letters,
    /// A field of INFO has at most one value.
    Once,
    /// A value of INFO ends with 0.
    End,
    /// The date of creation in INFO is a date.
    Created,
    HasDescription,
    HasOriginator,
    HasDate,
}

/// The rules on fields, in their order.
pub const FIELD_RULES: [FieldRule; 11] = [
    FieldRule::History,
    FieldRule::Date,
    FieldRule::Time,
    FieldRule::Range,
    FieldRule::Letters,
    FieldRule::Once,
    FieldRule::End,
    FieldRule::Created,
    FieldRule::HasDescription,
    FieldRule::HasOriginator,
    FieldRule::HasDate,
];

const TEXTS: [BextField; 3] = [
    BextField::Description,
    BextField::Originator,
    BextField::OriginatorReference,
];

const TITLE: [FourCc; 1] = [FourCc(*b"INAM")];

const ARCHIVE: [FourCc; 1] = [FourCc(*b"IARL")];

const CREATED: [FourCc; 1] = [FourCc(*b"ICRD")];

const MOVIE_TITLE: [FourCc; 1] = [FourCc(*b"\xa9nam")];

const MOVIE_DATE: [FourCc; 1] = [FourCc(*b"\xa9day")];

// The table's row of a rule.
fn row_of(rule: FieldRule) -> &'static RuleRow
    ensures id { result.now.id ≡ rows.number rule }
    ensures set { result.now.set ≡ rows.set_of rule }
{
    match rule {
        FieldRule::History => &RULES[13],
        FieldRule::Date => &RULES[14],
        FieldRule::Time => &RULES[15],
        FieldRule::Range => &RULES[16],
        FieldRule::Letters => &RULES[17],
        FieldRule::Once => &RULES[18],
        FieldRule::End => &RULES[19],
        FieldRule::Created => &RULES[20],
        FieldRule::HasDescription => &RULES[21],
        FieldRule::HasOriginator => &RULES[22],
        FieldRule::HasDate => &RULES[23],
    }
}

// Whether the rules of a set are tested where some set is chosen.
fn chooses(chosen: RuleSet, set: RuleSet) -> bool
    ensures { result ≡ spec.chooses chosen set }
{
    matches!(
        (chosen, set),
        (RuleSet::Fadgi, _)
            | (_, RuleSet::Base)
            | (RuleSet::Ebu, RuleSet::Ebu)
            | (RuleSet::Info, RuleSet::Info)
    )
}

// The fields that a rule looks at in files of a kind.
fn fields_of(rule: FieldRule, kind: Kind) -> Names
    ensures { names_of result ≡ rows.fields_of rule kind }
{
    match rule {
        FieldRule::History => Names::Bext(&[BextField::CodingHistory]),
        FieldRule::Date => Names::Bext(&[BextField::OriginationDate]),
        FieldRule::Time => Names::Bext(&[BextField::OriginationTime]),
        FieldRule::Range => Names::Bext(&[BextField::LoudnessRange]),
        FieldRule::Letters => Names::Bext(&TEXTS),
        FieldRule::Once => Names::Info(&INFO_IDS),
        FieldRule::End => Names::Info(&INFO_IDS),
        FieldRule::Created => Names::Info(&CREATED),
        FieldRule::HasDescription => description_fields(kind),
        FieldRule::HasOriginator => originator_fields(kind),
        FieldRule::HasDate => date_fields(kind),
    }
}

fn description_fields(kind: Kind) -> Names
    ensures { names_of result ≡ (facts kind).description }
{
    match kind {
        Kind::Avi => Names::Info(&TITLE),
        Kind::Mov => Names::User(&MOVIE_TITLE),
        Kind::Wave | Kind::Rf64 | Kind::Bw64 => Names::Bext(&[BextField::Description]),
    }
}

fn originator_fields(kind: Kind) -> Names
    ensures { names_of result ≡ (facts kind).originator }
{
    match kind {
        Kind::Avi => Names::Info(&ARCHIVE),
        Kind::Mov => Names::User(&[]),
        Kind::Wave | Kind::Rf64 | Kind::Bw64 => Names::Bext(&[BextField::Originator]),
    }
}

fn date_fields(kind: Kind) -> Names
    ensures { names_of result ≡ (facts kind).date }
{
    match kind {
        Kind::Avi => Names::Info(&CREATED),
        Kind::Mov => Names::User(&MOVIE_DATE),
        Kind::Wave | Kind::Rf64 | Kind::Bw64 => Names::Bext(&[BextField::OriginationDate]),
    }
}

/// The first rule of the chosen sets that an edit breaks, with the first field that breaks it, where its items break
/// none of the rules 1 to 13.
pub fn first_by_fields(
    kind: Kind,
    streams: u32,
    fields: &Fields,
    items: &[EditItem],
    rules: RuleSet,
) -> Option<Broken>
    requires lawful { IsLawful (values fields.now) }
    requires sound { AreSound items.now }
    requires fine { spec.broken kind streams (values fields.now) items.now Base ≡ None }
    ensures { result ≡ spec.broken kind streams (values fields.now) items.now rules }
{
    for rule in &FIELD_RULES {
        match first_of_row(*rule, kind, streams, fields, items, rules) {
            Some(broken) => return Some(broken),
            None => {}
        }
    }
    None
}

// What a rule finds first, where its set is chosen.
fn first_of_row(
    rule: FieldRule,
    kind: Kind,
    streams: u32,
    fields: &Fields,
    items: &[EditItem],
    rules: RuleSet,
) -> Option<Broken>
    requires lawful { IsLawful (values fields.now) }
    requires sound { AreSound items.now }
    requires fine { spec.broken kind streams (values fields.now) items.now Base ≡ None }
    ensures { result ≡ spec.first_found (row_findings rule kind (values fields.now) items.now rules) }
{
    let row = row_of(rule);
    if !chooses(rules, row.set) {
        return None;
    }
    match first_failing(rule, kind, streams, fields, items) {
        Some(field) => Some(Broken {
            rule: row.id,
            field,
        }),
        None => None,
    }
}

// The first field for which a rule fails.
fn first_failing(
    rule: FieldRule,
    kind: Kind,
    streams: u32,
    fields: &Fields,
    items: &[EditItem],
) -> Option<FieldName>
    requires lawful { IsLawful (values fields.now) }
    requires sound { AreSound items.now }
    requires fine { spec.broken kind streams (values fields.now) items.now Base ≡ None }
    ensures { result
        ≡ rows.first_in (filter (rows.fails rule (update (values fields.now) items.now)) (rows.fields_of rule kind)) }
{
    let names = fields_of(rule, kind);
    for k in 0..names.len() {
        let name = names.at(k);
        if fails_after(rule, fields, items, &name) {
            return Some(name);
        }
    }
    None
}

/// Each rule of the chosen sets that fields break without an edit, and each field that breaks it.
pub fn all_by_fields(
    alloc: Global,
    kind: Kind,
    fields: &Fields,
    rules: RuleSet,
) -> Result<Vec<Broken>, NoMemory>
    requires { IsLawful (values fields.now) }
    ensures { (streams : ℕ) → IfOk result (λ v. v.items ≡ spec.findings kind streams (values fields.now) [] rules) }
{
    let mut found = Vec::new(alloc);
    for rule in &FIELD_RULES {
        match push_row(&mut found, *rule, kind, fields, rules) {
            Ok(()) => {}
            Err(fault) => return Err(fault),
        }
    }
    Ok(found)
}

// Appends what a rule finds, where its set is chosen.
fn push_row(
    found: &mut Vec<Broken>,
    rule: FieldRule,
    kind: Kind,
    fields: &Fields,
    rules: RuleSet,
) -> Result<(), NoMemory>
    requires { IsLawful (values fields.now) }
    ensures { OnOk result (found.new.items ≡ found.old.items ++ row_findings rule kind (values fields.now) [] rules) }
{
    let row = row_of(rule);
    if !chooses(rules, row.set) {
        return Ok(());
    }
    let names = fields_of(rule, kind);
    for k in 0..names.len() {
        let name = names.at(k);
        if fails_after(rule, fields, &[], &name) {
            match found.push(Broken {
                rule: row.id,
                field: name,
            }) {
                Ok(()) => {}
                Err(_) => return Err(NoMemory),
            }
        }
    }
    Ok(())
}
