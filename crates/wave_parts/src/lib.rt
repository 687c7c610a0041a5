//! All parts of a WAVE file in the order of reading: its chunks, behind each list of fields its items and its rest, the rest of the
//! form, and the tail. The headers in lists of fields are read once more, in windows of 4 KiB; nothing of the sound is.
#![tactic(auto)]

mod items;
mod laws;
mod parts;
#[cfg(test)]
mod tests;

pub use laws::maps_tell_their_files;
pub use parts::tell_parts;
