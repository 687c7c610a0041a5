//! The index `idx1` of an AVI file (AVI RIFF File Reference, AVIOLDINDEX): its entries, what their offsets count from, and
//! whether they name bytes of the essence. Tables are read in windows of 64 KiB, and no call takes memory.
//! It knows no list and no form: it is told where the table, the essence and the index chunks stand.
#![tactic(auto)]

mod base;
mod check;
mod entry;
#[cfg(test)]
mod tests;

pub use base::entry_base;
pub use check::check_idx1;
pub use entry::{IdxEntry, entry_at};
