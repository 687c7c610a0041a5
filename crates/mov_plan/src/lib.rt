//! From the places of the atoms of a QuickTime movie to the slots that an edit replaces: units of edited atoms with their padding,
//! the last of which may go on behind `moov`; the user data after an edit of its texts; the key table after an edit of its keys; and
//! the plan of an edit, in which the tables of chunk places move with the chunks, and get eight bytes a place where one wouldn't fit
//! in four. It reads no map.
#![tactic(auto)]

ghost use Rattle.std.specs.Prelude.{◌≡◌, ℕ, List, false, map};
ghost use Rattle.me_bytes.specs.Bytes.{IsBytes};
ghost use Rattle.mov_model.specs.Carried.{Changes};
ghost use Rattle.mov_model.specs.Movie.{movie_of};
ghost use Rattle.mov_model.specs.New.{kids_at};
ghost use Rattle.mov_model.specs.Support.{Supported};
ghost use Rattle.mov_plan.specs.Carry.{IsKeyStep, IsUserStep, Tell, carried_by, cells_of};
ghost use Rattle.mov_plan.specs.Edits.{IsEditOf, beyond_of, edited_cells};
ghost use Rattle.mov_plan.specs.Places.{shape_in};
ghost use Rattle.mov_plan.specs.Rows.{none, row};
ghost use Rattle.mov_plan.specs.Shapes.{shapes};

mod atoms;
mod bodies;
mod carry;
mod frame;
mod holders;
mod key_carry;
mod key_len;
mod keyed;
mod keys;
mod moov_carriers;
mod moves;
mod named;
mod nested;
#[cfg(test)]
mod nested_tests;
mod place;
mod plan;
mod row;
mod rows;
mod spread;
mod tables;
#[cfg(test)]
mod tests;
mod tracks;
mod unit;
mod user;
mod user_carry;
mod within;

pub use atoms::{AtomsFault, atoms_of};
pub use bodies::CarryFault;
pub use carry::{Carry, NewAtom, carry_atoms};
use field_model as _;
pub use frame::MoovAt;
pub use keys::{KeyChange, KeysFault, edit_keys, new_keys};
pub use moov_carriers::{Carries, carriers};
use mov_model as _;
pub use nested::{Nested, NestedFault, nested_of};
pub use place::{Behind, Place};
pub use plan::plan_movie;
use qt_text as _;
pub use row::{Units, unit_cuts};
use sample_tables as _;
pub use tables::{TableAt, segments_with};
pub use tracks::{TracksFault, tables_of};
pub use unit::{FilledUnit, OpenUnit};
pub use user::{UserBody, UserChange, UserFault, UserItem, UserItems, edit_user};

/// What the units of a supported movie's atoms come to, by their shapes alone, is what an edit of the movie replaces and patches,
/// whether that has room, and how long the body of `moov` is then.
pub fn rows_tell_edits()
    ensures { (b : List ℕ) (e : Changes) → IsBytes b → Supported b
        → IsEditOf (movie_of b) e
        (row (beyond_of (movie_of b)) (kids_at (movie_of b) e) none (shapes false (edited_cells (movie_of b) e))) }
{}

/// Places that tell the atoms of `moov`, and what becomes of the carriers among them, tell the atoms after the edit.
pub fn carriers_tell_edits()
    ensures { (b : List ℕ) (e : Changes) (from : ℕ) (atoms : List Place) (user : Carry) (keys : Carry)
        → Tell b false atoms (cells_of (movie_of b)) → IsUserStep e.users user (cells_of (movie_of b))
        → IsKeyStep e.keys keys (cells_of (movie_of b))
        → map (shape_in b) (carried_by from keys (carried_by from user atoms))
        ≡ shapes false (edited_cells (movie_of b) e) }
{}
