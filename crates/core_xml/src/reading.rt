// A table, line by line.
ghost use Rattle.std.specs.Prelude.{◌≡◌, ◌<◌, ◌++◌, ◌^◌, ◌+◌, [], OnOk};
ghost use Rattle.field_model.specs.Texts.{field_name as named};
ghost use Rattle.core_edit.specs.Edits.{AreSound};
ghost use Rattle.core_table.specs.Answers.{Answers};
ghost use Rattle.core_xml.specs.Lines;
ghost use Rattle.core_xml.specs.Table as spec;

use crate::line::{FieldLine, field_line, file_line};
use crate::place::Place;
use bstr::ByteSlice;
use core_edit::{Edit, field_name};
use core_table::{Seen, TableFault};
use part_tree::{Bytes, Change, EditItem, NoMemory};
use std::alloc::Global;
use std::marker::Model;

/// Items, seen as their list.
#[derive(Debug, Drop)]
pub(crate) struct Items {
    held: Vec<EditItem>,
}

impl Model for Items {
    ghost use Rattle.std.specs.Prelude.{List};
    ghost use Rattle.part_tree.specs.declared.field.EditItem.{EditItem};

    ghost Value = { List EditItem };

    ghost view = { λ i. i.held.items };
}

impl Items {
    fn new(alloc: Global) -> Items
        ensures { result ≡ [] }
    {
        Items {
            held: Vec::new(alloc),
        }
    }

    // Appends the item of a name, if it is a field's.
    fn put(&mut self, name: &[u8], change: Change) -> Result<(), NoMemory>
        ensures { OnOk result (self.new ≡ self.old ++ spec.item (named name.now) change) }
    {
        let Some(name) = field_name(name) else {
            return Ok(());
        };
        match self.held.push(EditItem { name, change }) {
            Ok(()) => Ok(()),
            Err(_) => Err(NoMemory),
        }
    }

    fn edit(self) -> Edit
        requires { AreSound self }
        ensures { result ≡ self }
    {
        Edit::of(self.held)
    }
}

/// How far a table is read.
#[derive(Debug, Drop)]
pub(crate) struct Reading {
    /// What may stand next.
    pub(crate) place: Place,
    /// How many blocks have begun.
    pub(crate) block: u32,
    /// Whether the last of them is the file's.
    pub(crate) own: bool,
    /// The names that it has used.
    pub(crate) seen: Seen,
    /// The number of the file's block, from 1, once that has begun.
    pub(crate) found: Option<u32>,
    /// Its items.
    pub(crate) items: Items,
}

impl Reading {
    /// At the start of a table.
    pub(crate) fn new(alloc: Global) -> Reading
        ensures { result ≡ spec.start }
    {
        Reading {
            place: Place::Declaration,
            block: 0,
            own: false,
            seen: Seen::new(alloc),
            found: None,
            items: Items::new(alloc),
        }
    }
}

fn is_text(line: &[u8]) -> bool
    ensures { result ≡ spec.is_text line.now }
{
    line.is_utf8()
}

// Line `n`, where only this one may stand.
fn after_fixed(
    mut reading: Reading,
    n: u32,
    this: &[u8],
    line: &[u8],
    next: Place,
) -> Result<Reading, TableFault>
    ensures { result ≡ spec.after_fixed reading n this.now line.now next }
{
    if line != this {
        return Err(TableFault::Line { n });
    }
    reading.place = next;
    Ok(reading)
}

// The first line of the file's block.
fn begin_own(mut reading: Reading, alloc: Global) -> Result<Reading, TableFault>
    requires { reading.block + 1 < 2 ^ 32 }
    ensures { result ≡ spec.begin_own reading reading.found }
{
    let block = reading.block + 1;
    if let Some(first) = reading.found {
        return Err(TableFault::TwoRows {
            first,
            second: block,
        });
    }
    reading.place = Place::Fields;
    reading.block = block;
    reading.own = true;
    reading.seen = Seen::new(alloc);
    reading.found = Some(block);
    Ok(reading)
}

// The first line of another file's block.
fn begin_other(mut reading: Reading, alloc: Global) -> Reading
    requires { reading.block + 1 < 2 ^ 32 }
    ensures { result ≡ spec.begin_other reading }
{
    reading.place = Place::Fields;
    reading.block += 1;
    reading.own = false;
    reading.seen = Seen::new(alloc);
    reading
}

// Line `n`, where a block may begin.
fn after_begin(
    reading: Reading,
    alloc: Global,
    file: &[u8],
    n: u32,
    line: &[u8],
) -> Result<Reading, TableFault>
    requires { reading.block + 1 < 2 ^ 32 }
    ensures { Answers (spec.after_begin reading file.now n (Lines.file_line line.now)) result }
{
    match file_line(alloc, line)? {
        Some(name) if name.as_slice() == file => begin_own(reading, alloc),
        Some(_) => Ok(begin_other(reading, alloc)),
        None => Err(TableFault::Line { n }),
    }
}

// Appends the item of a name, if the block is the file's own.
fn keep(items: &mut Items, own: bool, name: &[u8], change: Change) -> Result<(), NoMemory>
    ensures { OnOk result (items.new ≡ spec.kept own items.old (spec.item (named name.now) change)) }
{
    if own { items.put(name, change) } else { Ok(()) }
}

// Takes what line `n` says of a field that has no name of an earlier one in its block.
fn take(mut reading: Reading, alloc: Global, n: u32, said: FieldLine) -> Result<Reading, TableFault>
    ensures { spec.LeadsTo (spec.take reading n said) result }
{
    let FieldLine { name, change } = said;
    if field_name(name.as_slice()).is_none() {
        return Err(TableFault::Line { n });
    }
    if !reading.seen.add(alloc, name.as_slice())? {
        return Err(TableFault::Line { n });
    }
    let own = reading.own;
    keep(&mut reading.items, own, name.as_slice(), change)?;
    Ok(reading)
}

// Line `n`, where a block may say something of a field.
fn after_field(reading: Reading, alloc: Global, n: u32, line: &[u8]) -> Result<Reading, TableFault>
    ensures { spec.LeadsTo (spec.after_field reading n (Lines.field_line line.now)) result }
{
    match field_line(alloc, line)? {
        Some(said) => take(reading, alloc, n, said),
        None => Err(TableFault::Line { n }),
    }
}

// Line `n` by the place where it stands.
fn after_form(
    reading: Reading,
    alloc: Global,
    file: &[u8],
    n: u32,
    line: &[u8],
) -> Result<Reading, TableFault>
    requires { reading.block + 1 < 2 ^ 32 }
    ensures { spec.LeadsTo (spec.after_form reading file.now n line.now reading.place) result }
{
    match reading.place {
        Place::Declaration => after_fixed(
            reading,
            n,
            b"<?xml version=\"1.0\" encoding=\"UTF-8\"?>\n",
            line,
            Place::Table,
        ),
        Place::Table => after_fixed(reading, n, b"<Core>\n", line, Place::Blocks),
        Place::Blocks if line == b"</Core>\n".as_slice() => Ok(moved(reading, Place::End)),
        Place::Blocks => after_begin(reading, alloc, file, n, line),
        Place::Fields if line == b"</File>\n".as_slice() => Ok(moved(reading, Place::Blocks)),
        Place::Fields => after_field(reading, alloc, n, line),
        Place::End => Err(TableFault::Line { n }),
    }
}

fn moved(mut reading: Reading, place: Place) -> Reading
    ensures { result ≡ spec.moved reading place }
{
    reading.place = place;
    reading
}

/// How far the table is read after line `n`.
pub(crate) fn after_line(
    reading: Reading,
    alloc: Global,
    file: &[u8],
    n: u32,
    line: &[u8],
) -> Result<Reading, TableFault>
    requires { reading.block + 1 < 2 ^ 32 }
    ensures { spec.LeadsTo (spec.after_line reading file.now n line.now) result }
{
    if !is_text(line) {
        return Err(TableFault::Line { n });
    }
    after_form(reading, alloc, file, n, line)
}

/// The edit of the file's block, where line `n` would stand and there is none.
pub(crate) fn at_end(reading: Reading, n: u32) -> Result<Edit, TableFault>
    requires { AreSound reading.items }
    ensures { result ≡ spec.at_end reading n }
{
    if reading.place != Place::End {
        return Err(TableFault::Line { n });
    }
    match reading.found {
        Some(_) => Ok(reading.items.edit()),
        None => Err(TableFault::NoRow),
    }
}
