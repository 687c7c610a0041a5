//! From a row of places to the spans of a file that an edit replaces, and from these to a plan: in place, or as a new file.
//! It knows the padding of RIFF, and no kind of file.
#![tactic(auto)]

ghost use Rattle.std.specs.Prelude.{◌≡◌, ◌∷◌, ℕ, List, Bool, true, false, length, map};
ghost use Rattle.container_model.specs.Chunk.{Chunk};
ghost use Rattle.container_model.specs.Units.{Cell};
ghost use Rattle.container_model.specs.Splice.{Ascend, Cut, splice};
ghost use Rattle.unit_plan.specs.declared.cut.CutAt.{CutAt};
ghost use Rattle.unit_plan.specs.Shapes.{shape_of};
ghost use Rattle.unit_plan.specs.Rows.{IsPartCount, cells_outcome, none, row};
ghost use Rattle.unit_plan.specs.Cuts.{SpansAscend, cut_in};
ghost use Rattle.unit_plan.specs.Sized.{size_cut, sized, spliced_len};

mod cut;
mod form;
mod length;
mod patch;
mod place;
mod plan;
mod row;
mod segment;
#[cfg(test)]
mod tests;
mod unit;

use carrier_model as _;
pub use cut::CutAt;
pub use form::size_cut;
pub use length::new_len;
pub use patch::in_place;
pub use place::{Place, What};
pub use plan::plan_of;
pub use row::{UnitCuts, unit_cuts};
pub use segment::segments;
pub use unit::{FilledUnit, OpenUnit};

/// What an edit of a row of cells comes to is told by their shapes: the spans that are replaced, the patches of these, whether
/// the units fit their slots, and the parts of the new chunks.
pub fn shapes_tell()
    ensures { (g : Chunk → ℕ) (ends : Bool) (at : ℕ) (xs : List Cell) → IsPartCount g
        → row ends at none (map (shape_of g) xs) ≡ cells_outcome g ends at xs }
{}

/// What is spliced into a form with its size is spliced with one span more: the size in the form's own field, or in a table.
pub fn size_is_a_cut()
    ensures own { (n : ℕ) (b : List ℕ) (cs : List Cut) → Ascend 8 cs (length b)
        → splice b (size_cut false n ∷ cs) ≡ sized false n (splice b cs) }
    ensures wide { (n : ℕ) (b : List ℕ) (cs : List Cut) → Ascend 28 cs (length b)
        → splice b (size_cut true n ∷ cs) ≡ sized true n (splice b cs) }
{}

/// Spans that ascend by their numbers ascend in every file, and tell its new length.
pub fn spans_tell()
    ensures ascend { (from end : ℕ) (ks : List CutAt) (b : List ℕ) → SpansAscend from ks end
        → Ascend from (map (cut_in b) ks) end }
    ensures len { (b : List ℕ) (len : ℕ) (ks : List CutAt) → length b ≡ len → SpansAscend 0 ks len
        → length (splice b (map (cut_in b) ks)) ≡ spliced_len len ks }
{}
