//! The indexes of OpenDML (AVI File Format Extensions 1.02, AVISUPERINDEX and AVISTDINDEX): their heads, their entries, and
//! whether the entries of a standard index name bytes of the essence. No call takes memory.
//! It knows no list and no form: it is told where the essence and the index chunks stand.
#![tactic(auto)]

mod check;
mod entry;
mod head;
mod numbers;
#[cfg(test)]
mod tests;

pub use check::check_standard;
pub use entry::{StdEntry, SuperEntry, read_standard, read_super};
pub use head::{HeadFault, head_in, read_head};
