//! The editor of the metadata of files: one call does all that the program does.
//! It reads the words, settles the file after a crash, reads it, tells of it or edits it in place or by a new file,
//! and prints one report. It knows no kind of files, and but for `run_program`, which makes the devices, no device.
#![tactic(auto)]

mod batch;
mod batch_end;
mod batch_program;
mod batch_text;
mod batch_words;
mod carry;
mod change;
mod export;
mod format;
mod made;
mod make;
mod making;
mod outcome;
mod program;
mod run;
mod set;
mod shown;
mod started;
mod stops;
mod table;
mod tell;
#[cfg(test)]
mod tests;
mod text;
mod top;
mod word;
mod words;

pub use batch::metaedit_batch;
pub use batch_end::{BatchOutcome, FileEnd};
pub use batch_program::finish_batch;
pub use batch_text::{batch_code, batch_line};
pub use batch_words::{batch_files, is_batch};
pub use core_table::TableFault;
pub use format::TableFormat;
pub use made::a_made_wave_file_is_accepted;
pub use me_report::Summary;
pub use outcome::{Outcome, UsageFault};
pub use part_tree::Why;
pub use program::run_program;
pub use shown::a_file_is_shown_once;
pub use started::{StartFault, file_of, finish, start_code, words_of};
pub use text::{code, line_of};
pub use top::metaedit;
pub use word::Word;
pub use words::{Command, Request, RequestFault, read_request};
