// What the program says of a run.
ghost use Rattle.std.specs.Prelude.{◌≡◌, ◌++◌, IfOk, string_bytes};
ghost use Rattle.metaedit_top.specs.Text as spec;
ghost use Rattle.metaedit_top.specs.Text.{line, rule_line, status, told_line, told_words};

use crate::outcome::{Outcome, UsageFault};
use core_edit::name_text;
use core_table::TableFault;
use escapes::escape;
use me_bytes::NoMemory;
use part_tree::{Broken, Bytes, FourCc, Why, rule_name};
use std::alloc::Global;

/// What is told beside the name of a refusal.
#[derive(Clone, Copy, Debug, PartialEq, Eq)]
pub(crate) enum Told {
    Nothing,
    Number(u64),
    Numbers(u64, u64),
    Letters(FourCc),
    LettersAnd(FourCc, u64),
}

/// The status that the program ends with.
pub fn code(outcome: &Outcome) -> u8
    ensures { result ≡ status outcome.now }
{
    match outcome {
        Outcome::Done(summary) => { if summary.findings == 0 { 0 } else { 1 } }
        Outcome::Usage(_) => 2,
        Outcome::NoFile => 3,
        Outcome::JournalDamaged { at: _ } => 4,
        Outcome::NotSupported(_) => 5,
        Outcome::TableFault(_) => 6,
        Outcome::RuleBroken(_) => 7,
        Outcome::TooLarge { size: _, limit: _ } => 8,
        Outcome::DepotFault { faults: _ } => 9,
        Outcome::TableReadFault => 10,
        Outcome::OutFault { edited: _ } => 11,
        Outcome::Memory => 12,
        Outcome::FileThere => 13,
    }
}

fn usage_name(fault: &UsageFault) -> &'static str
    ensures { result.now ≡ spec.usage_name fault.now }
{
    match fault {
        UsageFault::NoCommand => "NoCommand",
        UsageFault::UnknownCommand => "UnknownCommand",
        UsageFault::Words => "Words",
        UsageFault::Value => "Value",
        UsageFault::Item { n: _ } => "Item",
        UsageFault::Field { n: _ } => "Field",
        UsageFault::Twice { n: _ } => "Twice",
        UsageFault::SameFile { n: _ } => "SameFile",
    }
}

fn usage_told(fault: &UsageFault) -> Told
    ensures { result ≡ spec.usage_told fault.now }
{
    match fault {
        UsageFault::Item { n } => Told::Number(*n),
        UsageFault::Field { n } => Told::Number(*n),
        UsageFault::Twice { n } => Told::Number(*n),
        UsageFault::SameFile { n } => Told::Number(*n),
        _ => Told::Nothing,
    }
}

fn why_name(why: &Why) -> &'static str
    ensures { result.now ≡ spec.why_name why.now }
{
    match why {
        Why::UnknownKind => "UnknownKind",
        Why::NotBuilt => "NotBuilt",
        Why::Truncated { at: _ } => "Truncated",
        Why::NoFmt => "NoFmt",
        Why::ShortFmt { len: _ } => "ShortFmt",
        Why::TwoFmt => "TwoFmt",
        Why::BlockZero => "BlockZero",
        Why::NoData => "NoData",
        Why::TwoData => "TwoData",
        Why::NoDs64 => "NoDs64",
        Why::ShortDs64 { len: _ } => "ShortDs64",
        Why::RowMissing { id: _ } => "RowMissing",
        Why::ShortBext { len: _ } => "ShortBext",
        Why::TwoBext => "TwoBext",
        Why::CarrierBig { id: _, len: _ } => "CarrierBig",
        Why::TooManyParts => "TooManyParts",
        Why::NoHdrl => "NoHdrl",
        Why::NoMovi => "NoMovi",
        Why::IndexKind { at: _ } => "IndexKind",
        Why::IndexShort { at: _ } => "IndexShort",
        Why::IndexPlace { at: _ } => "IndexPlace",
        Why::IndexOverlap { at: _ } => "IndexOverlap",
        Why::IndexAstray { at: _, entry: _ } => "IndexAstray",
        Why::IndexBase => "IndexBase",
        Why::SizeSmall { at: _ } => "SizeSmall",
        Why::NoMoov => "NoMoov",
        Why::TwoMoov => "TwoMoov",
        Why::MoovBig { len: _ } => "MoovBig",
        Why::Compressed => "Compressed",
        Why::Reference => "Reference",
        Why::Fragments { at: _ } => "Fragments",
        Why::External { track: _ } => "External",
        Why::OtherOffsets { track: _ } => "OtherOffsets",
        Why::TableTwice { track: _ } => "TableTwice",
        Why::TableShort { at: _ } => "TableShort",
        Why::ChunkAstray { track: _, chunk: _ } => "ChunkAstray",
    }
}

fn why_told(why: &Why) -> Told
    ensures { result ≡ spec.why_told why.now }
{
    match why {
        Why::Truncated { at } => Told::Number(*at),
        Why::ShortFmt { len } => Told::Number(*len),
        Why::ShortDs64 { len } => Told::Number(*len),
        Why::RowMissing { id } => Told::Letters(*id),
        Why::ShortBext { len } => Told::Number(*len),
        Why::CarrierBig { id, len } => Told::LettersAnd(*id, *len),
        Why::IndexKind { at } => Told::Number(*at),
        Why::IndexShort { at } => Told::Number(*at),
        Why::IndexPlace { at } => Told::Number(*at),
        Why::IndexOverlap { at } => Told::Number(*at),
        Why::IndexAstray { at, entry } => Told::Numbers(*at, *entry),
        Why::SizeSmall { at } => Told::Number(*at),
        Why::MoovBig { len } => Told::Number(*len),
        Why::Fragments { at } => Told::Number(*at),
        Why::External { track } => Told::Number(u64::from(*track)),
        Why::OtherOffsets { track } => Told::Number(u64::from(*track)),
        Why::TableTwice { track } => Told::Number(u64::from(*track)),
        Why::TableShort { at } => Told::Number(*at),
        Why::ChunkAstray { track, chunk } => Told::Numbers(u64::from(*track), u64::from(*chunk)),
        _ => Told::Nothing,
    }
}

fn table_name(fault: &TableFault) -> &'static str
    ensures { result.now ≡ spec.table_name fault.now }
{
    match fault {
        TableFault::Long => "Long",
        TableFault::NoHeader => "NoHeader",
        TableFault::UnknownColumn { n: _ } => "UnknownColumn",
        TableFault::TwiceColumn { n: _ } => "TwiceColumn",
        TableFault::RowLength { row: _ } => "RowLength",
        TableFault::NotUtf8 { row: _ } => "NotUtf8",
        TableFault::BadEscape { row: _, col: _ } => "BadEscape",
        TableFault::NoRow => "NoRow",
        TableFault::TwoRows {
            first: _,
            second: _,
        } => "TwoRows",
        TableFault::Line { n: _ } => "Line",
        TableFault::Memory => "Memory",
    }
}

fn table_told(fault: &TableFault) -> Told
    ensures { result ≡ spec.table_told fault.now }
{
    match fault {
        TableFault::UnknownColumn { n } => Told::Number(u64::from(*n)),
        TableFault::TwiceColumn { n } => Told::Number(u64::from(*n)),
        TableFault::RowLength { row } => Told::Number(u64::from(*row)),
        TableFault::NotUtf8 { row } => Told::Number(u64::from(*row)),
        TableFault::BadEscape { row, col } => Told::Numbers(u64::from(*row), u64::from(*col)),
        TableFault::TwoRows { first, second } => {
            Told::Numbers(u64::from(*first), u64::from(*second))
        }
        TableFault::Line { n } => Told::Number(u64::from(*n)),
        _ => Told::Nothing,
    }
}

// An identifier with escapes, behind a blank.
fn letters(alloc: Global, id: &FourCc) -> Result<Vec<u8>, NoMemory>
    ensures { IfOk result (λ text. text.items ≡ told_words (Told.Letters id.now)) }
{
    let escaped = escape(alloc, &id.0)?;
    let mut text = b" ".to_vec(alloc)?;
    text.extend_from_slice(escaped.as_slice())?;
    Ok(text)
}

// A number behind a blank.
fn number(alloc: Global, n: u64) -> Result<Vec<u8>, NoMemory>
    ensures { IfOk result (λ text. text.items ≡ told_words (Told.Number n)) }
{
    Ok(format!(in alloc; " {n}")?.into_bytes())
}

fn told_text(alloc: Global, told: &Told) -> Result<Vec<u8>, NoMemory>
    ensures { IfOk result (λ text. text.items ≡ told_words told.now) }
{
    match told {
        Told::Nothing => Ok(Vec::new(alloc)),
        Told::Number(n) => number(alloc, *n),
        Told::Numbers(m, n) => {
            let mut text = number(alloc, *m)?;
            text.extend_from_slice(&number(alloc, *n)?)?;
            Ok(text)
        }
        Told::Letters(id) => letters(alloc, id),
        Told::LettersAnd(id, n) => {
            let mut text = letters(alloc, id)?;
            text.extend_from_slice(&number(alloc, *n)?)?;
            Ok(text)
        }
    }
}

// Words, what is told beside them, and LF.
fn told_bytes(alloc: Global, words: String, told: Told) -> Result<Bytes, NoMemory>
    ensures { IfOk result (λ text. text ≡ told_line (string_bytes words) told) }
{
    let mut text = words.into_bytes();
    text.extend_from_slice(&told_text(alloc, &told)?)?;
    text.extend_from_slice(b"\n")?;
    Ok(Bytes::of(text))
}

// The line of a broken rule.
fn rule_bytes(alloc: Global, broken: &Broken) -> Result<Bytes, NoMemory>
    ensures { IfOk result (λ text. text ≡ rule_line broken.now) }
{
    let name = rule_name(broken.rule);
    let mut text = format!(in alloc; "refused 7 {name} ")?.into_bytes();
    match name_text(alloc, &broken.field)? {
        Some(field) => text.extend_from_slice(field.as_slice())?,
        None => {}
    }
    text.extend_from_slice(b"\n")?;
    Ok(Bytes::of(text))
}

/// The line that the program writes to standard error; empty where the run is done.
pub fn line_of(alloc: Global, outcome: &Outcome) -> Result<Bytes, NoMemory>
    ensures { IfOk result (λ text. text ≡ line outcome.now) }
{
    match outcome {
        Outcome::Done(_) => Ok(Bytes::of(Vec::new(alloc))),
        Outcome::Usage(fault) => {
            let name = usage_name(fault);
            let words = format!(in alloc; "refused 2 Usage {name}")?;
            told_bytes(alloc, words, usage_told(fault))
        }
        Outcome::TableReadFault => Bytes::new(alloc, b"refused 10 TableReadFault\n"),
        Outcome::TableFault(fault) => {
            let name = table_name(fault);
            let words = format!(in alloc; "refused 6 TableFault {name}")?;
            told_bytes(alloc, words, table_told(fault))
        }
        Outcome::NoFile => Bytes::new(alloc, b"refused 3 NoFile\n"),
        Outcome::FileThere => Bytes::new(alloc, b"refused 13 FileThere\n"),
        Outcome::JournalDamaged { at } => {
            let words = format!(in alloc; "refused 4 JournalDamaged")?;
            told_bytes(alloc, words, Told::Number(*at))
        }
        Outcome::NotSupported(why) => {
            let name = why_name(why);
            let words = format!(in alloc; "refused 5 NotSupported {name}")?;
            told_bytes(alloc, words, why_told(why))
        }
        Outcome::RuleBroken(broken) => rule_bytes(alloc, broken),
        Outcome::TooLarge { size, limit } => {
            let words = format!(in alloc; "refused 8 TooLarge")?;
            told_bytes(alloc, words, Told::Numbers(*size, *limit))
        }
        Outcome::DepotFault { faults } => {
            let words = format!(in alloc; "refused 9 DepotFault")?;
            told_bytes(alloc, words, Told::Number(*faults))
        }
        Outcome::OutFault { edited } => {
            let text = format!(in alloc; "refused 11 OutFault {edited}\n")?;
            Ok(Bytes::of(text.into_bytes()))
        }
        Outcome::Memory => Bytes::new(alloc, b"refused 12 Memory\n"),
    }
}
