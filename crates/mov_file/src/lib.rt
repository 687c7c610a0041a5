//! Reads QuickTime movies (QuickTime File Format): the map of a file's atoms, its fields, its essence and the tables of its
//! tracks, or why the file is refused. It reads headers, user data, key tables and sample tables, and never the essence.
#![tactic(auto)]

mod carriers;
mod chunks;
mod holder;
mod keys;
mod map;
mod moov;
mod movie;
mod range;
mod reading;
mod refusals;
mod tables;
#[cfg(test)]
mod tests;
mod texts;
mod track;
mod walk;

pub use map::MovMap;
pub use movie::read_mov;
