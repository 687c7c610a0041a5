//! What stands round the places of an AVI file changes with them: where the ranges between the spans of an edit go, the form's
//! size and pad, and the tables that name places: the rows of `idx1` and of the indexes of OpenDML name the new ones, or the first
//! that they can't name is told. It makes the segments of the new file, and the spans of an edit of the names of streams; what an edit
//! makes of any other chunk it doesn't know.
#![tactic(auto)]

ghost use Rattle.std.specs.Prelude.{◌≡◌, ℕ, List, length, map};
ghost use Rattle.std.specs.List.{AllByRecursion, flat_map};
ghost use Rattle.me_bytes.specs.Bytes.{IsBytes};
ghost use Rattle.part_tree.specs.Moves.{Move};
ghost use Rattle.part_tree.specs.Tables.{moved};
ghost use Rattle.container_model.specs.Splice.{Ascend, splice};
ghost use Rattle.container_model.specs.Tests.{first};
ghost use Rattle.avi_index.specs.Rows.{Base};
ghost use Rattle.opendml_index.specs.Index.{move};
ghost use Rattle.unit_plan.specs.Cuts.{SpansAscend, cut_in};
ghost use Rattle.unit_plan.specs.declared.cut.CutAt.{CutAt};
ghost use Rattle.avi_model.specs.Index.{base, renumbered};
ghost use Rattle.avi_model.specs.NewFile.{put_cuts, table_cuts};
ghost use Rattle.avi_model.specs.Support.{Supported};
ghost use Rattle.avi_plan.specs.Changes.{IsNamed, change_cut, merged, refused};
ghost use Rattle.avi_plan.specs.Refusals.{table_checks};
ghost use Rattle.avi_plan.specs.Renewed.{IsClear, table_cut};
ghost use Rattle.avi_plan.specs.Tables.{IsTabled, Tabled, changes_of, tables_in};

mod form;
mod head;
mod joined;
mod list;
mod moves;
mod names;
mod patches;
mod plan;
mod renumber;
mod row;
mod segments;
#[cfg(test)]
mod stream_tests;
mod streams;
mod strl;
mod table;
#[cfg(test)]
mod tests;
mod units;

pub use form::{FormAt, pad_stays, with_pad, with_size};
pub use head::{entry_width, first_counted, read_head};
pub use moves::moves_between;
pub use names::NamesAt;
pub use plan::plan_spans;
pub use renumber::renumber_all;
pub use row::plan_row;
pub use segments::segments_with;
pub use streams::{StreamName, name_spans};
pub use table::{Change, TableAt, TableKind};
pub use units::{Passed, plan_edit};

/// What changes of tables that stand one behind the other in a file, whose rows can name their new places, is the body of each with
/// its numbers moved as the model of AVI files moves them.
pub fn tables_come_to_the_same()
    ensures { (ms : List Move) (b : List ℕ) (base : Base) (xs : List Tabled) → AllByRecursion (IsTabled b) xs
        → Ascend 0 (map (table_cut (move (moved ms)) base) xs) (length b)
        → AllByRecursion (IsNamed ms b) (flat_map (changes_of ms base) xs)
        → splice b (map (change_cut ms b) (flat_map (changes_of ms base) xs))
        ≡ splice b (map (table_cut (move (moved ms)) base) xs) }
{}

/// What changes of the tables of a supported AVI file, where their rows can name their new places, makes the file with all its
/// numbers moved.
pub fn tables_are_renumbered()
    ensures { (ms : List Move) (b : List ℕ) → IsBytes b → Supported b
        → AllByRecursion (IsNamed ms b) (flat_map (changes_of ms (base b)) (tables_in b))
        → splice b (map (change_cut ms b) (flat_map (changes_of ms (base b)) (tables_in b)))
        ≡ renumbered (move (moved ms)) b }
{}

/// A supported AVI file with spans replaced that keep clear of its tables, and what changes of these between them, is the file with
/// the model's spans of the tables put among the others.
pub fn spans_go_with_tables()
    ensures { (ms : List Move) (b : List ℕ) (ks : List CutAt) → IsBytes b → Supported b → SpansAscend 0 ks (length b)
        → AllByRecursion (λ k. AllByRecursion (IsClear k) (tables_in b)) ks
        → AllByRecursion (IsNamed ms b) (flat_map (changes_of ms (base b)) (tables_in b))
        → splice b (merged ms b ks (flat_map (changes_of ms (base b)) (tables_in b)))
        ≡ splice b (put_cuts (table_cuts (move (moved ms)) b) (map (cut_in b) ks)) }
{}

/// What is told of rows that can't name a new place is the first of the model's tests of the tables' entries that fails.
pub fn refusals_are_the_models()
    ensures { (ms : List Move) (b : List ℕ) (base : Base) (xs : List Tabled) → AllByRecursion (IsTabled b) xs
        → refused ms b (flat_map (changes_of ms base) xs)
        ≡ first (flat_map (table_checks (moved ms) base) xs) }
{}
