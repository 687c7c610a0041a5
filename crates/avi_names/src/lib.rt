//! The names of an AVI file's streams: `strn` chunks in a stream's list (AVI RIFF File Reference, strl). Headers are read in
//! windows of 4 KiB. It knows no form: it is told where the list stands.
#![tactic(auto)]

mod names;
mod spell;
#[cfg(test)]
mod tests;

pub use names::{NamesFault, strl_names, strl_new_place};
pub use spell::spell_name;
