//! Reads AVI files (RIFF; AVI RIFF File Reference; OpenDML AVI File Format Extensions 1.02): the forms of a file with their
//! chunks in order, what each is to an edit, its index chunks by place, and why the file is refused there.
#![tactic(auto)]

mod chosen;
mod entries;
mod fields;
mod file;
mod form;
mod hdrl;
mod index;
mod kind;
mod laws;
mod list;
mod map;
mod names;
mod order;
mod tables;
#[cfg(test)]
mod tests;
mod top;

pub use chosen::{infos_of, movis_of, tables_of};
pub use entries::{check_old, check_standards};
pub use fields::read_lists;
pub use file::read_avi;
pub use form::{Forms, read_forms};
pub use index::{IndexChunk, read_indexes};
pub use kind::{Inside, is_list};
pub use laws::maps_tell_their_files;
pub use list::{Reading, read_chunks};
pub use map::{AviMap, OldIndex};
pub use names::read_streams;
pub use order::{bodies_of, by_place, standards_of, supers_of};
pub use tables::{Tables, read_tables};
pub use top::Top;
