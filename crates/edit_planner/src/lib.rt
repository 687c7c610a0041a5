//! Plans an edit of a file: from its map and an edit to the places that change, with what is to stand there.
//! It knows the kinds of files that are edited, and no device.
#![tactic(auto)]

ghost use Rattle.std.specs.Prelude.{ℕ, List};
ghost use Rattle.field_model.specs.Kind.{IsKind};
ghost use Rattle.edit_planner.specs.Kinds.{model_in};

mod atoms;
mod avi;
mod avi_plans;
mod bext;
mod carried;
mod cells;
mod edit;
mod facts;
mod head;
mod kinds;
mod lists;
mod load;
mod moov;
mod movie;
mod places;
mod plans;
mod tables;
#[cfg(test)]
mod tests;
mod tops;
mod wave;
mod wholes;

pub use kinds::read;
pub use part_tree::PlanFault;
pub use plans::{FileMap, plan};
pub use wave::{PlaceFault, PlaceRow, places_of};

/// What a file is read as, by its first bytes, is always a kind of files: an accepted edit that isn't too large makes
/// the old file edited.
pub fn each_file_is_of_a_kind()
    ensures { (o : List ℕ) → IsKind (model_in o) }
{}
