//! Counts the chunks of a QuickTime track, and its samples that lie in the `mdat` of their chunk (QuickTime File
//! Format, sample table atoms). It reads the tables in windows and never a sample; where all samples have one size, it
//! counts those of a chunk by a division. It takes no memory.
#![tactic(auto)]

mod count;
mod heads;
mod rooms;
mod rows;
mod runs;
mod sizes;
#[cfg(test)]
mod tests;

pub use count::{TrackCounts, count_track};
