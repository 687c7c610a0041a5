//! Worked runs of the journal, of swaps and of recovery over a depot in memory, each stopped after each of its calls and each
//! call failing once. Its tests run them; what the runs stand on is proved.
#![tactic(auto)]

mod bytes;
mod runs;
mod tables;
#[cfg(test)]
mod tests;

pub use bytes::{file_bytes, journal_bytes, old_journal_bytes, titled};
pub use runs::{
    depot_of, depot_with, edit_by_rewrite, edit_in_place, holds_alone, is_recovered,
    patches_in_place, reopened, run_in_place, run_rewrite, spell_in_place, stop, stopped_edit,
    stopped_recovery, stopped_rewrite,
};
pub use tables::{is_for, more_bytes, run_tables, stopped_tables, tables_file, tables_swap};
