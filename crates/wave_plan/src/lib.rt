//! From the places of a WAVE or RF64 form to the plan of an edit: what stands round the form's chunks is changed with
//! them, and what is too large is told. It doesn't know what an edit makes of a chunk.
#![tactic(auto)]

mod frame;
mod framed;
mod plan;
mod row;
#[cfg(test)]
mod tests;
mod widen;

pub use frame::{FormAt, Frame, read_frame};
pub use plan::{Passed, plan_units};
pub use row::plan_row;
pub use widen::{Widening, plan_widened};
