//! Worked runs of the editor over depots in memory: what each run answers, leaves and prints, and what is left where a run is
//! stopped after one of its calls, or within it, and then recovered.
#![tactic(auto)]

#[cfg(test)]
mod batch_tests;
mod batches;
mod files;
#[cfg(test)]
mod hostile_tests;
mod laid;
#[cfg(test)]
mod made_tests;
#[cfg(test)]
mod media_tests;
mod rows;
mod runs;
mod sparse;
#[cfg(test)]
mod stop_tests;
mod stops;
#[cfg(test)]
mod table_tests;
mod tables;
#[cfg(test)]
mod tests;
#[cfg(test)]
mod writer_tests;

pub use batches::{
    BatchFile, BatchRan, BatchRow, batch_goes, batch_on, batch_ran, depots_of, tells_ends,
    tells_stop,
};
pub use files::{
    CHECKED, DATED, EMPTY, EMPTY_TITLED, FORMS, FRAMES, FRAMES_TITLED, JOURNAL, LARGE,
    LARGE_TITLED, LOUD, LOUD_JOURNAL, MOVIE, MOVIE_NAMED, NUMBERED, ODD, ODD_TITLED, PLAIN,
    RENAMED, SHORT, TITLED, TITLES, VERSION_AT, WRITTEN_JOURNAL, described, with_bext,
};
pub use laid::{Laid, LaidRow, bytes_of, is_laid_row};
pub use rows::{Held, Row, goes, is_row};
pub use runs::{Ran, depot_of, holds, paper, run_by, run_on, run_told, words_of};
pub use sparse::{
    FULL_WIDENED, HELLO, HI, PLACED, ROOMY_WIDENED, WIDE_SOUND, cut_and_lengthened, five_gigabytes,
    full_header, full_movie, full_wave, has_len, narrow_wave, roomy_wave, run_sparse, shows,
};
pub use stops::{
    Edit, NO_EDIT, RECOVER, calls_of, is_done_within, is_recovered, pick_of, plain, stop, stopped,
    survives, survives_fault, survives_twice,
};
pub use tables::{TableRow, goes_by, stops_at_the_table};
