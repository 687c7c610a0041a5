// The table of an edit, and the edit of a run.
ghost use Rattle.std.specs.Prelude.{◌≡◌, ◌≤◌, ◌<◌, [], List, ℕ, Ok, Err, Some, None, false, true, length, IfOk, IfErr, OnOk, OnErr};
ghost use Rattle.me_disk.specs.Causes.{Rose};
ghost use Rattle.core_table.specs.Answers.{Answers};
ghost use Rattle.field_model.specs.Lawful.{IsLawful};
ghost use Rattle.part_tree.specs.Fields.{values};
ghost use Rattle.metaedit_top.specs.Tables as spec;
ghost use Rattle.metaedit_top.specs.Tables.{GivesEdit, RefusesTable, RunsAs, form_of, stop_of_source, stop_of_table, takes_table};
ghost use Rattle.metaedit_top.specs.declared.table.TableStop.TheVariants as stop;

use crate::format::TableFormat;
use crate::words::{Command, Request};
use core_csv::{read_table, write_row};
use core_edit::{Change, Edit, EditItem};
use core_table::TableFault;
use core_xml::{read_core, write_core};
use me_disk::Source;
use part_tree::{Bytes, FieldName, Fields, FourCc, Kind, NoMemory};
use std::alloc::Global;
use table_source::{ReadStop, read_to_end};

/// Why there is no edit.
#[derive(Clone, Copy, Debug, PartialEq, Eq)]
pub(crate) enum TableStop {
    /// The table couldn't be read.
    Read,
    /// The table is refused.
    Fault(TableFault),
    Memory,
}

impl From<NoMemory> for TableStop {
    ghost from_gives = { λ _ e. e ≡ stop.Memory };

    fn from(_: NoMemory) -> TableStop {
        TableStop::Memory
    }
}

impl From<ReadStop> for TableStop {
    ghost from_gives = { λ fault e. e ≡ stop_of_source fault };

    fn from(fault: ReadStop) -> TableStop {
        match fault {
            ReadStop::Read => TableStop::Read,
            ReadStop::Memory => TableStop::Memory,
        }
    }
}

impl From<TableFault> for TableStop {
    ghost from_gives = { λ fault e. e ≡ stop_of_table fault };

    fn from(fault: TableFault) -> TableStop {
        match fault {
            TableFault::Memory => TableStop::Memory,
            _ => TableStop::Fault(fault),
        }
    }
}

// The form of a table: CSV where none is named.
fn form(format: Option<TableFormat>) -> TableFormat
    ensures { result ≡ form_of format }
{
    match format {
        None => TableFormat::Csv,
        Some(format) => format,
    }
}

// The edit that a table gives a file.
fn edit_of(alloc: Global, form: TableFormat, bytes: &[u8], file: &[u8]) -> Result<Edit, TableFault>
    ensures { Answers (spec.table_of form bytes.now file.now) result }
{
    match form {
        TableFormat::Csv => read_table(alloc, bytes, file),
        TableFormat::Xml => read_core(alloc, bytes, file),
    }
}

// The edit that the table of a source gives, which is read to its end.
fn read_edit<S: Source>(alloc: Global, request: &Request, table: &mut S) -> Result<Edit, TableStop>
    requires takes { takes_table request.now.command ≡ true }
    ensures edit { IfOk result (λ e. GivesEdit request.now (S.left table.old) (Ok e)) }
    ensures refuses { IfErr result (RefusesTable request.now (S.left table.old)) }
    ensures whole { (all : List ℕ) → S.left table.old ≡ Some all → OnOk result (S.left table.new ≡ Some []) }
    ensures counts { S.faults table.old ≤ S.faults table.new }
    ensures cause { result ≡ Err TableStop.Read → Rose (S.faults table.old) (S.faults table.new) }
{
    let bytes = read_to_end(alloc, table)?;
    let form = form(request.format);
    let edit = edit_of(alloc, form, bytes.as_slice(), request.file.as_slice())?;
    Ok(edit)
}

// The title that a made file gets.
fn made_name(kind: Kind) -> FieldName
    ensures { result ≡ spec.made_name kind }
{
    match kind {
        Kind::Mov => FieldName::User(FourCc(*b"\xa9nam")),
        _ => FieldName::Info(FourCc(*b"INAM")),
    }
}

// The edit of a made file.
fn made_edit(alloc: Global, kind: Kind) -> Result<Edit, NoMemory>
    ensures { IfOk result (λ e. e ≡ spec.made_edit kind) }
{
    let change = Change::Set(Bytes::new(alloc, b"Made")?);
    let name = made_name(kind);
    let mut items = Vec::new(alloc);
    match items.push(EditItem { name, change }) {
        Ok(()) => Ok(Edit::of(items)),
        Err(_) => Err(NoMemory),
    }
}

/// The request with the edit of its run: that of the table that it is applied with, which is read to its end, that of a made
/// file, or that of the words.
pub(crate) fn with_edit<S: Source>(
    alloc: Global,
    request: Request,
    table: &mut S,
) -> Result<Request, TableStop>
    ensures runs { IfOk result (RunsAs request (S.left table.old)) }
    ensures refuses { IfErr result (RefusesTable request (S.left table.old)) }
    ensures whole { (all : List ℕ) → S.left table.old ≡ Some all → takes_table request.command ≡ true
        → OnOk result (S.left table.new ≡ Some []) }
    ensures unread { takes_table request.command ≡ false → table.new ≡ table.old }
    ensures counts { S.faults table.old ≤ S.faults table.new }
    ensures cause { result ≡ Err TableStop.Read → Rose (S.faults table.old) (S.faults table.new) }
{
    let edit = match request.command {
        Command::Apply => read_edit(alloc, &request, table)?,
        Command::Make => made_edit(alloc, request.kind)?,
        _ => return Ok(request),
    };
    Ok(Request { edit, ..request })
}

/// The table of a file and its fields.
pub(crate) fn exported(
    alloc: Global,
    format: Option<TableFormat>,
    file: &[u8],
    fields: &Fields,
) -> Result<Bytes, NoMemory>
    requires { IsLawful (values fields.now) }
    ensures { IfOk result (λ text. text ≡ spec.exported (form_of format) file.now fields.now) }
{
    match form(format) {
        TableFormat::Csv => write_row(alloc, file, fields),
        TableFormat::Xml => write_core(alloc, file, fields),
    }
}
