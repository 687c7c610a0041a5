//! Worked edits in turns, each on its own depot in memory, one of which may fail. Its tests run them; what the runs stand on is
//! proved.
#![tactic(auto)]

mod runs;
#[cfg(test)]
mod tests;

pub use runs::{answers_of, run_turns, two_depots, two_edits};
