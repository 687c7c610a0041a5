//! Reads WAVE and RF64 files (Multimedia Programming Interface and Data Specifications 1.0; EBU Tech 3285 and 3306): the map
//! of a file's chunks, fields and sound, or why the file is refused.
#![tactic(auto)]

mod chunk;
mod fields;
mod form;
mod map;
mod range;
mod sizing;
#[cfg(test)]
mod tests;

pub use form::read_wave;
pub use map::WaveMap;
