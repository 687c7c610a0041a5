//! The atoms of a QuickTime file, one after the other (QuickTime File Format, atoms).
//! An atom is a big-endian size of four bytes, with the header counted, a type of four, and the body. A size of 1 says that
//! eight bytes behind the type hold the size, and a size of 0 that the atom goes on to the end of the file.
//! It knows no atom by its type.
#![tactic(auto)]

mod header;
#[cfg(test)]
mod tests;
mod walker;

pub use header::{Parent, SizeForm};
pub use walker::{AtomAt, AtomFault, AtomWalker, HeaderFault};
