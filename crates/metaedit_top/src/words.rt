// The words of the command line.
ghost use Rattle.std.specs.Prelude.{◌≡◌, Some, None, IfOk, MatchOption, IfSome, length, position, drop, ◌<◌, ◌==◌, true, false};
ghost use Rattle.std.specs.List.{list_any, AllByRecursion};
ghost use Rattle.core_edit.specs.Edits.{IsNamed, AreNamed, is_empty_set};
ghost use Rattle.metaedit_top.specs.Formats as form;
ghost use Rattle.metaedit_top.specs.Making as made;
ghost use Rattle.metaedit_top.specs.Words as spec;
ghost use Rattle.metaedit_top.specs.Words.{ReadsAs, ReadsEdit, ReadsItem, ReadsRequest, items_in, options_in, parts_in};

use crate::format::{Formatted, TableFormat, begins_with_form, with_format};
use crate::making::{Making, making_of};
use crate::outcome::UsageFault;
use crate::word::Word;
use core_edit::{Change, Edit, EditFault, EditItem, field_name};
use part_tree::{Bytes, Kind, NoMemory, RuleSet};
use std::alloc::Global;

/// What the program can be asked to do with a file.
#[derive(Clone, Copy, Debug, PartialEq, Eq)]
pub enum Command {
    /// Edits fields.
    Set,
    /// Settles the file after a crash, and does nothing else.
    Recover,
    /// Shows the kind, the length of the sound and the fields.
    Show,
    /// Tells which of the rules the fields break as they stand.
    Validate,
    /// Tells the checksums of the sound: those that the file stores, and the computed one.
    Md5,
    /// Prints a Core table of the fields.
    Export,
    /// Edits fields by a Core table.
    Apply,
    /// Makes a stated file and edits it.
    Make,
}

/// What the words ask for. The edit has no items where the words have none; the kind is WAVE and the number 0 where no file is
/// made.
#[derive(Debug, Drop)]
pub struct Request {
    pub command: Command,
    pub file: Bytes,
    pub rules: RuleSet,
    pub format: Option<TableFormat>,
    pub edit: Edit,
    pub kind: Kind,
    pub n: u64,
}

/// Why no request was read.
#[derive(Clone, Copy, Debug, PartialEq, Eq)]
pub enum RequestFault {
    Usage(UsageFault),
    Memory,
}

// The rules that are tested, the form of a table, and the words behind the options.
#[derive(Drop)]
struct Options<'a> {
    rules: RuleSet,
    format: Option<TableFormat>,
    rest: &'a [Word],
}

// The words behind a command: the file, the options, and the items.
#[derive(Drop)]
struct Parts<'a> {
    file: &'a [u8],
    rules: RuleSet,
    format: Option<TableFormat>,
    items: &'a [Word],
}

// The command that a word names.
fn command_of(word: &[u8]) -> Option<Command>
    ensures { result ≡ spec.command_of word.now }
{
    if word == b"set".as_slice() {
        Some(Command::Set)
    } else if word == b"recover".as_slice() {
        Some(Command::Recover)
    } else if word == b"show".as_slice() {
        Some(Command::Show)
    } else if word == b"validate".as_slice() {
        Some(Command::Validate)
    } else if word == b"md5".as_slice() {
        Some(Command::Md5)
    } else if word == b"export".as_slice() {
        Some(Command::Export)
    } else if word == b"apply".as_slice() {
        Some(Command::Apply)
    } else if word == b"make".as_slice() {
        Some(Command::Make)
    } else {
        None
    }
}

// The rules that a word names.
fn rules_of(word: &[u8]) -> Option<RuleSet>
    ensures { result ≡ spec.rules_of word.now }
{
    if word == b"base".as_slice() {
        Some(RuleSet::Base)
    } else if word == b"ebu".as_slice() {
        Some(RuleSet::Ebu)
    } else if word == b"info".as_slice() {
        Some(RuleSet::Info)
    } else if word == b"fadgi".as_slice() {
        Some(RuleSet::Fadgi)
    } else {
        None
    }
}

// The rules that are tested where no option says which.
fn usual_rules(command: Command) -> RuleSet
    ensures { result ≡ spec.usual_rules command }
{
    match command {
        Command::Validate => RuleSet::Fadgi,
        _ => RuleSet::Base,
    }
}

// Whether a command takes the option `--rules`.
fn takes_rules(command: Command) -> bool
    ensures { result ≡ spec.takes_rules command }
{
    matches!(command, Command::Set | Command::Validate | Command::Apply)
}

// Whether a command takes the option `--as`, which it then must have.
fn takes_format(command: Command) -> bool
    ensures { result ≡ spec.takes_format command }
{
    matches!(command, Command::Export | Command::Apply)
}

/// Whether a command makes a file.
pub(crate) fn makes_file(command: Command) -> bool
    ensures { result ≡ spec.makes_file command }
{
    matches!(command, Command::Make)
}

// Whether a word begins with `-`.
pub(crate) fn is_dashed(word: &[u8]) -> bool
    ensures { result ≡ spec.is_dashed word.now }
{
    match word {
        [first, ..] => *first == b'-',
        [] => false,
    }
}

// Whether a word names a file.
pub(crate) fn is_file(word: &[u8]) -> bool
    ensures { result ≡ spec.is_file word.now }
{
    !word.is_empty() && !is_dashed(word)
}

// Whether some word begins with `-`.
fn some_dashed(words: &[Word]) -> bool
    ensures { result ≡ list_any spec.is_dashed words.now }
{
    for word in words {
        if is_dashed(word.as_bytes()) {
            return true;
        }
    }
    false
}

// Whether a command may have these words as items.
fn fits(command: Command, items: &[Word]) -> bool
    ensures { result ≡ spec.fits command items.now }
{
    match command {
        Command::Set => !items.is_empty() && !some_dashed(items),
        Command::Make => items.len() == 2 && !some_dashed(items),
        _ => items.is_empty(),
    }
}

// The value of `--rules=R`.
fn joined_value(word: &[u8]) -> Option<&[u8]>
    ensures { MatchOption result (spec.is_joined word.now ≡ false)
        (λ v. (spec.is_joined word.now ≡ true) × (v.now ≡ drop 8 word.now)) }
{
    if word.len() < 8 {
        return None;
    }
    let (name, value) = word.split_at(8);
    if name == b"--rules=".as_slice() {
        Some(value)
    } else {
        None
    }
}

// These rules, where they are named, before the words that are left.
fn chosen(rules: Option<RuleSet>, rest: &[Word]) -> Option<Options<'_>>
    ensures { MatchOption result (spec.chosen rules rest.now ≡ None)
        (λ o. spec.chosen rules rest.now ≡ Some (options_in o)) }
{
    let rules = rules?;
    Some(Options {
        rules,
        format: None,
        rest,
    })
}

// `--rules R` or `--rules=R` directly behind the file, or none.
fn with_rules(usual: RuleSet, words: &[Word]) -> Option<Options<'_>>
    ensures { MatchOption result (spec.with_rules usual words.now ≡ None)
        (λ o. spec.with_rules usual words.now ≡ Some (options_in o)) }
{
    match words {
        [] => Some(Options {
            rules: usual,
            format: None,
            rest: words,
        }),
        [word, rest @ ..] => {
            if word.as_bytes() == b"--rules".as_slice() {
                return match rest {
                    [] => None,
                    [value, rest @ ..] => chosen(rules_of(value.as_bytes()), rest),
                };
            }
            match joined_value(word.as_bytes()) {
                Some(value) => chosen(rules_of(value), rest),
                None => Some(Options {
                    rules: usual,
                    format: None,
                    rest: words,
                }),
            }
        }
    }
}

// The rules alone, where the command takes them.
fn rules_alone(command: Command, words: &[Word]) -> Option<Options<'_>>
    ensures { MatchOption result (spec.rules_alone command words.now ≡ None)
        (λ o. spec.rules_alone command words.now ≡ Some (options_in o)) }
{
    let usual = usual_rules(command);
    if takes_rules(command) {
        with_rules(usual, words)
    } else {
        Some(Options {
            rules: usual,
            format: None,
            rest: words,
        })
    }
}

// The options of a command, before which the form of a table stands.
fn format_first(command: Command, words: &[Word]) -> Option<Options<'_>>
    ensures { MatchOption result (spec.format_before command (form.with_format words.now) ≡ None)
        (λ o. spec.format_before command (form.with_format words.now) ≡ Some (options_in o)) }
{
    let Formatted { format, rest } = with_format(words)?;
    let options = rules_alone(command, rest)?;
    Some(Options {
        rules: options.rules,
        format: Some(format),
        rest: options.rest,
    })
}

// The options of a command, behind which the form of a table stands.
fn format_last(command: Command, words: &[Word]) -> Option<Options<'_>>
    ensures { MatchOption result (spec.format_behind (spec.rules_alone command words.now) ≡ None)
        (λ o. spec.format_behind (spec.rules_alone command words.now) ≡ Some (options_in o)) }
{
    let options = rules_alone(command, words)?;
    let Formatted { format, rest } = with_format(options.rest)?;
    Some(Options {
        rules: options.rules,
        format: Some(format),
        rest,
    })
}

// The options of a command.
fn read_options(command: Command, words: &[Word]) -> Option<Options<'_>>
    ensures { MatchOption result (spec.options command words.now ≡ None)
        (λ o. spec.options command words.now ≡ Some (options_in o)) }
{
    if !takes_format(command) {
        rules_alone(command, words)
    } else if begins_with_form(words) {
        format_first(command, words)
    } else {
        format_last(command, words)
    }
}

// The parts of the words behind a command, where they have its form.
fn read_parts(command: Command, words: &[Word]) -> Option<Parts<'_>>
    ensures { MatchOption result (spec.parts command words.now ≡ None)
        (λ p. spec.parts command words.now ≡ Some (parts_in p)) }
{
    let [file, rest @ ..] = words else {
        return None;
    };
    if !is_file(file.as_bytes()) {
        return None;
    }
    let options = read_options(command, rest)?;
    if !fits(command, options.rest) {
        return None;
    }
    Some(Parts {
        file: file.as_bytes(),
        rules: options.rules,
        format: options.format,
        items: options.rest,
    })
}

// The place of the first `=`.
pub(crate) fn find_equals(word: &[u8]) -> Option<usize>
    ensures place { result ≡ position (λ b. b == 61) word.now }
    ensures small { IfSome result (λ k. k < length word.now) }
{
    let mut k = 0;
    for byte in word {
        if *byte == b'=' {
            return Some(k);
        }
        k += 1;
    }
    None
}

// A text that is set, and a removal where it is empty.
fn change_to(alloc: Global, text: &[u8]) -> Result<Change, NoMemory>
    ensures change { IfOk result (λ c. c ≡ spec.change_to text.now) }
    ensures some { IfOk result (λ c. is_empty_set c ≡ false) }
{
    if text.is_empty() {
        return Ok(Change::Remove);
    }
    let text = Bytes::new(alloc, text)?;
    Ok(Change::Set(text))
}

// Reads the n-th item.
fn read_item(alloc: Global, n: u64, word: &[u8]) -> Result<EditItem, RequestFault>
    ensures item { ReadsItem n word.now result }
    ensures named { IfOk result (λ i. IsNamed i.name) }
    ensures some { IfOk result (λ i. is_empty_set i.change ≡ false) }
{
    let Some(k) = find_equals(word) else {
        return Err(RequestFault::Usage(UsageFault::Item { n }));
    };
    if k == 0 {
        return Err(RequestFault::Usage(UsageFault::Item { n }));
    }
    let Some(name) = field_name(&word[..k]) else {
        return Err(RequestFault::Usage(UsageFault::Field { n }));
    };
    match change_to(alloc, &word[k + 1..]) {
        Err(_) => Err(RequestFault::Memory),
        Ok(change) => Ok(EditItem { name, change }),
    }
}

// The items up to the first word that is none, and what is wrong with that word.
#[derive(Drop)]
struct Collected {
    items: Vec<EditItem>,
    stop: Option<UsageFault>,
}

// Reads items up to the first word that is none.
fn collect_items(alloc: Global, words: &[Word]) -> Result<Collected, NoMemory>
    ensures items { IfOk result (λ c. items_in c ≡ spec.items_from 1 words.now) }
    ensures named { IfOk result (λ c. AreNamed c.items.items) }
    ensures some { IfOk result (λ c. AllByRecursion (λ i. is_empty_set i.change ≡ false) c.items.items) }
{
    let mut items = Vec::new(alloc);
    let mut n = 0u64;
    'words: for word in words {
        n += 1;
        match read_item(alloc, n, word.as_bytes()) {
            Err(RequestFault::Memory) => return Err(NoMemory),
            Err(RequestFault::Usage(fault)) => {
                return Ok(Collected {
                    items,
                    stop: Some(fault),
                });
            }
            Ok(item) => match items.push(item) {
                Err(_) => return Err(NoMemory),
                Ok(()) => {}
            },
        }
    }
    Ok(Collected { items, stop: None })
}

// The edit that the words of the items give, or the first fault of them.
pub(crate) fn read_edit(alloc: Global, words: &[Word]) -> Result<Edit, RequestFault>
    ensures { ReadsEdit words.now result }
{
    let Ok(Collected { items, stop }) = collect_items(alloc, words) else {
        return Err(RequestFault::Memory);
    };
    match Edit::new(alloc, items) {
        Err(EditFault::Twice { n }) => Err(RequestFault::Usage(UsageFault::Twice { n })),
        Err(EditFault::Empty { n }) => Err(RequestFault::Usage(UsageFault::Item { n })),
        Err(EditFault::Memory) => Err(RequestFault::Memory),
        Ok(edit) => match stop {
            None => Ok(edit),
            Some(fault) => Err(RequestFault::Usage(fault)),
        },
    }
}

// A request with these items.
fn ask(alloc: Global, command: Command, parts: &Parts<'_>) -> Result<Request, RequestFault>
    ensures { ReadsAs (spec.asked command (parts_in parts.now) (spec.edit_of parts.now.items.now)) result }
{
    let edit = read_edit(alloc, parts.items)?;
    match Bytes::new(alloc, parts.file) {
        Err(_) => Err(RequestFault::Memory),
        Ok(file) => Ok(Request {
            command,
            file,
            rules: parts.rules,
            format: parts.format,
            edit,
            kind: Kind::Wave,
            n: 0,
        }),
    }
}

// A request to make a file.
fn ask_to_make(alloc: Global, command: Command, parts: &Parts<'_>) -> Result<Request, RequestFault>
    ensures { ReadsAs (spec.asked_to_make command (parts_in parts.now) (made.making_of parts.now.items.now)) result }
{
    let Some(Making { kind, n }) = making_of(parts.items) else {
        return Err(RequestFault::Usage(UsageFault::Value));
    };
    match Bytes::new(alloc, parts.file) {
        Err(_) => Err(RequestFault::Memory),
        Ok(file) => Ok(Request {
            command,
            file,
            rules: parts.rules,
            format: parts.format,
            edit: Edit::of(Vec::new(alloc)),
            kind,
            n,
        }),
    }
}

/// What the words ask for, or the first thing that is wrong with them. The words are those behind the program's name.
pub fn read_request(alloc: Global, words: &[Word]) -> Result<Request, RequestFault>
    ensures { ReadsRequest words.now result }
{
    let [first, rest @ ..] = words else {
        return Err(RequestFault::Usage(UsageFault::NoCommand));
    };
    let Some(command) = command_of(first.as_bytes()) else {
        return Err(RequestFault::Usage(UsageFault::UnknownCommand));
    };
    let Some(parts) = read_parts(command, rest) else {
        return Err(RequestFault::Usage(UsageFault::Words));
    };
    if makes_file(command) {
        ask_to_make(alloc, command, &parts)
    } else {
        ask(alloc, command, &parts)
    }
}
