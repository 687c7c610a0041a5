//! Pages of tables in which each number that names a place of the file gets the place's new one: entries of `idx1`, of super
//! and standard indexes, and chunk places of 32 and 64 bits. Each call works on one lent page and takes no memory. It knows no
//! file and no device.
#![tactic(auto)]

mod base;
mod narrow;
mod number;
mod page;
mod row;
#[cfg(test)]
mod tests;

pub use base::new_base;
pub use page::{
    Overflow, relocate_chunks, relocate_idx1, relocate_page, relocate_rows, relocate_standard,
    relocate_super, widen_chunks,
};
