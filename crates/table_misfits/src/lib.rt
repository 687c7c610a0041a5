//! Whether the rows of a table in a file can name their new places, when the places that they name move: a page of rows is read at a
//! time. It knows the forms of rows, and no kind of file.
#![tactic(auto)]

mod misfit;

pub use misfit::misfit_in;
