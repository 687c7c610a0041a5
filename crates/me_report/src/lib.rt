//! The texts that a run prints: what a file shows, its broken rules, its checksums, and the line of what was done.
//! It knows no format: a file is what `Shows` tells of it.
#![tactic(auto)]

mod checksum;
mod line;
mod rules;
mod show;
#[cfg(test)]
mod tests;
mod text;

pub use checksum::{md5_findings, md5_text, sound_md5};
pub use line::{Line, Summary, done_line};
pub use rules::validate_text;
pub use show::{ReportFault, show_text};
