//! A table read from a source, whatever its form: to the end of the source, or until it is too long to be a table.
#![tactic(auto)]

mod read;
#[cfg(test)]
mod tests;

pub use read::{ReadStop, read_to_end};
