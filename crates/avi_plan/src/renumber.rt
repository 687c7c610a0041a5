// What becomes of the tables of a file whose places move.
ghost use Rattle.std.specs.Prelude.{◌≡◌, ◌≢◌, ◌≤◌, ◌<◌, ◌+◌, ◌++◌, ◌∷◌, ◌^◌, [], ℕ, List, length, map, drop, not, IfOk, OnOk};
ghost use Rattle.std.specs.List.{AllByRecursion, flat_map};
ghost use Rattle.me_disk.specs.Causes.{Rose};
ghost use Rattle.me_disk.specs.Holds.{Holds, Inside};
ghost use Rattle.me_disk.specs.Steps.{ReadsOnly};
ghost use Rattle.part_tree.specs.declared.table.TableForm.TheVariants.{Widen};
ghost use Rattle.part_tree.specs.Tables.{HasBase};
ghost use Rattle.container_model.specs.Tables.{Table};
ghost use Rattle.avi_index.specs.Checks.{model_base};
ghost use Rattle.avi_index.specs.Rows.{Base as Model};
ghost use Rattle.avi_model.specs.Index.{table_span};
ghost use Rattle.opendml_index.specs.Index.{is_super};
ghost use Rattle.avi_plan.specs.Changes.{IsNamed, IsSound, Tells, TellsFault, limit_of as limit_in, refuse, refused};
ghost use Rattle.avi_plan.specs.Heads.{first_in};
ghost use Rattle.avi_plan.specs.Tables.{IsTabled, Tabled, changes_of, index, index_changes, old_changes, standard_changes, table_at};

use crate::head::{entry_width, first_counted, read_head};
use crate::table::{Change, TableAt, TableKind};
use me_disk::Depot;
use part_tree::{Base, IndexHead, Moves, PlanFault, Span, TableForm};
use relocator::new_base;
use std::alloc::Global;
use table_misfits::misfit_in;

const MOST_NUMBER: u64 = 4_294_967_295;

const MOST_PLACE: u64 = 9_223_372_036_854_775_807;

// The limit that a place passes which a row of a table can't name: it isn't behind the base from which the row counts, or too far
// behind it.
fn limit_of(form: &TableForm, place: u64) -> u64
    ensures { result ≡ limit_in form.now place }
{
    match form {
        TableForm::Standard { old: _, new_base } => {
            if place <= *new_base { 0 } else { MOST_NUMBER }
        }
        _ => MOST_NUMBER,
    }
}

// Why an edit isn't planned where a row can't name a place. A super index can name each place of a file.
fn refusal(form: &TableForm, place: u64) -> PlanFault
    ensures told { TellsFault (refuse form.now (Some place)) result }
    ensures reads_nothing { result ≡ PlanFault.Depot → ⊥ }
{
    match form {
        TableForm::Super => PlanFault::Memory,
        _ => PlanFault::TooLarge {
            size: place,
            limit: limit_of(form, place),
        },
    }
}

// So many rows of a table more. `TooLarge` tells the first of their new places that they can't name.
fn push_rows<D: Depot>(
    changes: &mut Vec<Change>,
    depot: &mut D,
    form: TableForm,
    from: u64,
    rows: u64,
    len: u64,
    moves: &Moves,
) -> Result<(), PlanFault>
    requires narrow { form ≢ Widen }
    requires base { HasBase form }
    requires inside { Inside len (D.disk depot.old) }
    requires small { len < 2 ^ 63 }
    ensures changes { OnOk result (changes.new.items ≡ changes.old.items ++ Change.Rows form from rows ∷ []) }
    ensures sound { OnOk result (IsSound len (Change.Rows form from rows)) }
    ensures named { (b : List ℕ) → Holds (D.disk depot.old) b
        → OnOk result (IsNamed moves.now b (Change.Rows form from rows)) }
    ensures large { (b : List ℕ) → Holds (D.disk depot.old) b
        → Tells (refused moves.now b (Change.Rows form from rows ∷ [])) result }
    ensures reads { ReadsOnly (D.disk depot.old) (D.disk depot.new) }
    ensures cause { result ≡ Err PlanFault.Depot → Rose (D.disk depot.old).faults (D.disk depot.new).faults }
{
    let change = Change::Rows { form, from, rows };
    let Some(end) = change.end() else {
        return Err(PlanFault::Memory);
    };
    if end > len {
        return Err(PlanFault::Memory);
    }
    match misfit_in(depot, &form, from, rows, moves) {
        Err(_) => return Err(PlanFault::Depot),
        Ok(Some(place)) => return Err(refusal(&form, place)),
        Ok(None) => {}
    }
    match changes.push(change) {
        Err(_) => Err(PlanFault::Memory),
        Ok(()) => Ok(()),
    }
}

// `idx1` with this body more: its rows change where they count from the start of the file.
fn renumber_old<D: Depot>(
    changes: &mut Vec<Change>,
    depot: &mut D,
    body: Span,
    base: Base,
    len: u64,
    moves: &Moves,
) -> Result<(), PlanFault>
    requires inside { Inside len (D.disk depot.old) }
    requires small { len < 2 ^ 63 }
    ensures changes { (b : List ℕ) (t : Table) → Holds (D.disk depot.old) b → body.at ≡ t.at → body.len ≡ length t.body
        → OnOk result (changes.new.items ≡ changes.old.items ++ old_changes (model_base base) t) }
    ensures sound { OnOk result (AllByRecursion (IsSound len) changes.old.items
        → AllByRecursion (IsSound len) changes.new.items) }
    ensures named { (b : List ℕ) → Holds (D.disk depot.old) b
        → OnOk result (AllByRecursion (IsNamed moves.now b) changes.old.items
        → AllByRecursion (IsNamed moves.now b) changes.new.items) }
    ensures large { (b : List ℕ) (t : Table) → Holds (D.disk depot.old) b → body.at ≡ t.at → body.len ≡ length t.body
        → Tells (refused moves.now b (old_changes (model_base base) t)) result }
    ensures reads { ReadsOnly (D.disk depot.old) (D.disk depot.new) }
    ensures cause { result ≡ Err PlanFault.Depot → Rose (D.disk depot.old).faults (D.disk depot.new).faults }
{
    match base {
        Base::Movi(_) => Ok(()),
        Base::FileStart => push_rows(
            changes,
            depot,
            TableForm::Idx1(Base::FileStart),
            body.at,
            body.len / 16,
            len,
            moves,
        ),
    }
}

// The base of a standard index more, and its rows, which count from there then; its first counted entry has this offset.
fn push_standard<D: Depot>(
    changes: &mut Vec<Change>,
    depot: &mut D,
    head: &IndexHead,
    at: u64,
    offset: u32,
    len: u64,
    moves: &Moves,
) -> Result<(), PlanFault>
    requires inside { Inside len (D.disk depot.old) }
    requires small { len < 2 ^ 63 }
    requires place { at + 24 ≤ len }
    ensures changes { OnOk result (changes.new.items ≡ changes.old.items
        ++ standard_changes moves.now head.now at (Some offset)) }
    ensures sound { OnOk result (AllByRecursion (IsSound len) (standard_changes moves.now head.now at (Some offset))) }
    ensures named { (b : List ℕ) → Holds (D.disk depot.old) b
        → OnOk result (AllByRecursion (IsNamed moves.now b) (standard_changes moves.now head.now at (Some offset))) }
    ensures large { (b : List ℕ) → Holds (D.disk depot.old) b
        → Tells (refused moves.now b (standard_changes moves.now head.now at (Some offset))) result }
    ensures reads { ReadsOnly (D.disk depot.old) (D.disk depot.new) }
    ensures cause { result ≡ Err PlanFault.Depot → Rose (D.disk depot.old).faults (D.disk depot.new).faults }
{
    if head.base > MOST_PLACE {
        return Err(PlanFault::Memory);
    }
    let base = new_base(head, Some(head.base + u64::from(offset)), moves);
    match changes.push(Change::Base { at: at + 12, base }) {
        Err(_) => return Err(PlanFault::Memory),
        Ok(()) => {}
    }
    let form = TableForm::Standard {
        old: *head,
        new_base: base,
    };
    push_rows(
        changes,
        depot,
        form,
        at + 24,
        u64::from(head.used),
        len,
        moves,
    )
}

// A standard index more, whose body begins at a place: it changes where an entry is counted.
fn renumber_standard<D: Depot>(
    changes: &mut Vec<Change>,
    depot: &mut D,
    head: &IndexHead,
    at: u64,
    len: u64,
    moves: &Moves,
) -> Result<(), PlanFault>
    requires inside { Inside len (D.disk depot.old) }
    requires small { len < 2 ^ 63 }
    requires place { at + 24 ≤ len }
    ensures changes { (b : List ℕ) → Holds (D.disk depot.old) b
        → OnOk result (changes.new.items ≡ changes.old.items
        ++ standard_changes moves.now head.now at (first_in head.now (drop (at + 24) b))) }
    ensures sound { OnOk result (AllByRecursion (IsSound len) changes.old.items
        → AllByRecursion (IsSound len) changes.new.items) }
    ensures named { (b : List ℕ) → Holds (D.disk depot.old) b
        → OnOk result (AllByRecursion (IsNamed moves.now b) changes.old.items
        → AllByRecursion (IsNamed moves.now b) changes.new.items) }
    ensures large { (b : List ℕ) → Holds (D.disk depot.old) b
        → Tells (refused moves.now b (standard_changes moves.now head.now at (first_in head.now (drop (at + 24) b))))
        result }
    ensures reads { ReadsOnly (D.disk depot.old) (D.disk depot.new) }
    ensures cause { result ≡ Err PlanFault.Depot → Rose (D.disk depot.old).faults (D.disk depot.new).faults }
{
    let width = entry_width(head.two_fields);
    let Some(long) = width.checked_mul(u64::from(head.used)) else {
        return Err(PlanFault::Memory);
    };
    let Some(end) = long.checked_add(at + 24) else {
        return Err(PlanFault::Memory);
    };
    if end > len {
        return Err(PlanFault::Memory);
    }
    match first_counted(depot, head, at + 24) {
        Err(_) => Err(PlanFault::Depot),
        Ok(None) => Ok(()),
        Ok(Some(offset)) => push_standard(changes, depot, head, at, offset, len, moves),
    }
}

// An index chunk with this body more.
fn renumber_index<D: Depot>(
    changes: &mut Vec<Change>,
    depot: &mut D,
    body: Span,
    standard: bool,
    len: u64,
    moves: &Moves,
) -> Result<(), PlanFault>
    requires inside { Inside len (D.disk depot.old) }
    requires small { len < 2 ^ 63 }
    requires place { body.at + body.len ≤ len }
    ensures changes { (b : List ℕ) (t : Table) → Holds (D.disk depot.old) b → IsTabled b (index t) → body ≡ table_span t
        → standard ≡ not (is_super t.body)
        → OnOk result (changes.new.items ≡ changes.old.items ++ index_changes moves.now t (is_super t.body)) }
    ensures sound { OnOk result (AllByRecursion (IsSound len) changes.old.items
        → AllByRecursion (IsSound len) changes.new.items) }
    ensures named { (b : List ℕ) → Holds (D.disk depot.old) b
        → OnOk result (AllByRecursion (IsNamed moves.now b) changes.old.items
        → AllByRecursion (IsNamed moves.now b) changes.new.items) }
    ensures large { (b : List ℕ) (t : Table) → Holds (D.disk depot.old) b → IsTabled b (index t) → body ≡ table_span t
        → standard ≡ not (is_super t.body)
        → Tells (refused moves.now b (index_changes moves.now t (is_super t.body))) result }
    ensures reads { ReadsOnly (D.disk depot.old) (D.disk depot.new) }
    ensures cause { result ≡ Err PlanFault.Depot → Rose (D.disk depot.old).faults (D.disk depot.new).faults }
{
    let head = match read_head(depot, body) {
        Err(_) => return Err(PlanFault::Depot),
        Ok(None) => return Err(PlanFault::Memory),
        Ok(Some(head)) => head,
    };
    if standard {
        return renumber_standard(changes, depot, &head, body.at, len, moves);
    }
    push_rows(
        changes,
        depot,
        TableForm::Super,
        body.at + 24,
        u64::from(head.used),
        len,
        moves,
    )
}

// What becomes of a table more.
fn renumber<D: Depot>(
    changes: &mut Vec<Change>,
    depot: &mut D,
    table: &TableAt,
    len: u64,
    moves: &Moves,
) -> Result<(), PlanFault>
    requires inside { Inside len (D.disk depot.old) }
    requires small { len < 2 ^ 63 }
    ensures changes { (b : List ℕ) (movi : ℕ) (base : Model) (x : Tabled) → Holds (D.disk depot.old) b → IsTabled b x
        → table.now ≡ table_at movi base x
        → OnOk result (changes.new.items ≡ changes.old.items ++ changes_of moves.now base x) }
    ensures sound { OnOk result (AllByRecursion (IsSound len) changes.old.items
        → AllByRecursion (IsSound len) changes.new.items) }
    ensures named { (b : List ℕ) → Holds (D.disk depot.old) b
        → OnOk result (AllByRecursion (IsNamed moves.now b) changes.old.items
        → AllByRecursion (IsNamed moves.now b) changes.new.items) }
    ensures large { (b : List ℕ) (movi : ℕ) (base : Model) (x : Tabled) → Holds (D.disk depot.old) b → IsTabled b x
        → table.now ≡ table_at movi base x
        → Tells (refused moves.now b (changes_of moves.now base x)) result }
    ensures reads { ReadsOnly (D.disk depot.old) (D.disk depot.new) }
    ensures cause { result ≡ Err PlanFault.Depot → Rose (D.disk depot.old).faults (D.disk depot.new).faults }
{
    let Some(end) = table.body.at.checked_add(table.body.len) else {
        return Err(PlanFault::Memory);
    };
    if end > len {
        return Err(PlanFault::Memory);
    }
    match table.kind {
        TableKind::Old(base) => renumber_old(changes, depot, table.body, base, len, moves),
        TableKind::Super => renumber_index(changes, depot, table.body, false, len, moves),
        TableKind::Standard => renumber_index(changes, depot, table.body, true, len, moves),
    }
}

/// What becomes of the tables of a file of this length, in their order. `TooLarge` tells the first new place that one of their
/// rows can't name, and 0 or 2^32-1 as its limit. `Depot` only where the count of the depot's faults rose.
pub fn renumber_all<D: Depot>(
    alloc: Global,
    depot: &mut D,
    tables: &[TableAt],
    len: u64,
    moves: &Moves,
) -> Result<Vec<Change>, PlanFault>
    requires inside { Inside len (D.disk depot.old) }
    requires small { len < 2 ^ 63 }
    ensures changes { (b : List ℕ) (movi : ℕ) (base : Model) (xs : List Tabled) → Holds (D.disk depot.old) b
        → AllByRecursion (IsTabled b) xs
        → tables.now ≡ map (table_at movi base) xs
        → IfOk result (λ changes. changes.items ≡ flat_map (changes_of moves.now base) xs) }
    ensures sound { IfOk result (λ changes. AllByRecursion (IsSound len) changes.items) }
    ensures named { (b : List ℕ) → Holds (D.disk depot.old) b
        → IfOk result (λ changes. AllByRecursion (IsNamed moves.now b) changes.items) }
    ensures large { (b : List ℕ) (movi : ℕ) (base : Model) (xs : List Tabled) → Holds (D.disk depot.old) b
        → AllByRecursion (IsTabled b) xs
        → tables.now ≡ map (table_at movi base) xs
        → Tells (refused moves.now b (flat_map (changes_of moves.now base) xs)) result }
    ensures reads { ReadsOnly (D.disk depot.old) (D.disk depot.new) }
    ensures cause { result ≡ Err PlanFault.Depot → Rose (D.disk depot.old).faults (D.disk depot.new).faults }
{
    let mut changes = Vec::new(alloc);
    'tables: for table in tables {
        match renumber(&mut changes, depot, table, len, moves) {
            Err(fault) => return Err(fault),
            Ok(()) => {}
        }
    }
    Ok(changes)
}
