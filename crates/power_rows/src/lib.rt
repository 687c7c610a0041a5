//! Edits and recoveries over a folder in memory whose power is cut after each of its calls, and whatever of its names and bytes
//! that leaves is recovered. What the runs stand on is proved; the folder stands for a file system at its worst.
#![tactic(auto)]

mod disk;
mod folder;
mod runs;
#[cfg(test)]
mod tests;

pub use disk::{Left, PowerDisk};
pub use folder::Powered;
pub use runs::{Run, is_recovered, run_over};
