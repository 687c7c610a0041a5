//! Many swaps in turns, each on its own depot, one device call a turn. What becomes of a depot is told by the turns of its own
//! member alone, whatever befell the others. This crate knows no format.
#![tactic(auto)]

mod batch;
mod member;

pub use batch::Batch;
pub use member::{BatchTurn, Member};
