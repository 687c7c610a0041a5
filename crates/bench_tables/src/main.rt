// Makes a file anew whose bytes are the rows of one table, for bench/rows.sh: `bench_tables FORM FILE`. FORM is `chunks` for the
// rows of a `stco`, `index` for the entries of an `idx1`, and `copy` for bytes that stay. Each place that a row names goes 4,096
// bytes further.
#![tactic(auto)]

mod anew;
#[cfg(test)]
mod tests;

use crate::anew::{Rows, make_anew};
use folder_depot::PathDepot;
use std::env;
use std::process::ExitCode;

// The status where the words name no form, or the file can't be made anew.
const REFUSED: u8 = 1;

fn main(rt: HostRuntime) -> ExitCode {
    let alloc = rt.alloc();
    let Ok(args) = env::args(&rt) else {
        return ExitCode::from(REFUSED);
    };
    let mut words = args.skip(1);
    let (Some(form), Some(file)) = (words.next(), words.next()) else {
        return ExitCode::from(REFUSED);
    };
    let Some(rows) = Rows::named(form.as_bytes()) else {
        return ExitCode::from(REFUSED);
    };
    let Ok(mut depot) = PathDepot::new(rt, alloc, file.as_str()) else {
        return ExitCode::from(REFUSED);
    };
    match make_anew(alloc, &mut depot, rows) {
        Ok(_) => ExitCode::from(0),
        Err(_) => ExitCode::from(REFUSED),
    }
}
