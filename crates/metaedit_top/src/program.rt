// The whole program over the objects of the system: it makes the devices, and calls the editor with them. What goes
// into the editor and what comes out of it is said by the functions that it calls.
ghost use Rattle.std.specs.Prelude.{◌≡◌, ℕ, true, Ok, IfOk, length};
ghost use Rattle.metaedit_top.specs.BatchWords.{batch_files as files_in, is_batch};

use crate::batch::metaedit_batch;
use crate::batch_program::finish_batch;
use crate::batch_words::{BatchWords, batch_files, batch_parts, is_batch};
use crate::started::{StartFault, file_of, finish, start_code, words_of};
use crate::top::metaedit;
use crate::word::Word;
use folder_depot::{ClosedStreams, PathDepot};
use me_disk::{StdSink, StdSource};
use std::env;
use std::rt::Env;

/// Runs the program, and gives its status.
pub fn run_program(rt: HostRuntime) -> u8 {
    // without the device that fills them they stay closed
    let _filled = ClosedStreams::fill(&rt);
    match run_words(rt) {
        Ok(status) => status,
        Err(fault) => start_code(fault),
    }
}

// The program's name and the words behind it.
fn arguments<R: Env + AllocGlobal>(rt: &R) -> Result<Vec<String>, StartFault> {
    match env::args(rt)?.collect(rt.alloc()) {
        Ok(args) => Ok(args),
        Err(_) => Err(StartFault::Memory),
    }
}

fn run_words(rt: HostRuntime) -> Result<u8, StartFault> {
    let alloc = rt.alloc();
    let all = words_of(alloc, &arguments(&rt)?)?;
    let words = all.as_slice();
    if is_batch(words) {
        return run_batch(rt, words);
    }
    let mut depot = PathDepot::new(rt, alloc, file_of(words))?;
    let mut table = StdSource::new(rt.stdin());
    let mut out = StdSink::new(rt.stdout());
    let mut err = StdSink::new(rt.stderr());
    let outcome = metaedit(alloc, words, &mut depot, &mut table, &mut out);
    Ok(finish(alloc, &outcome, &mut err))
}

// A depot for each file.
fn depots_on(rt: HostRuntime, files: &[Word]) -> Result<Vec<PathDepot<HostRuntime>>, StartFault>
    ensures { IfOk result (λ depots. length depots.items ≡ length files.now) }
{
    let alloc = rt.alloc();
    let mut depots = Vec::new(alloc);
    for file in files {
        let depot = PathDepot::new(rt, alloc, file.as_str())?;
        if depots.push(depot).is_err() {
            return Err(StartFault::Memory);
        }
    }
    Ok(depots)
}

// A depot for each file of a batch; none where the words are refused.
fn depots_of(rt: HostRuntime, words: &[Word]) -> Result<Vec<PathDepot<HostRuntime>>, StartFault>
    ensures { IfOk result (λ depots. (n : ℕ) → files_in words.now ≡ Ok n → length depots.items ≡ n) }
{
    let Some(BatchWords { item: _, files }) = batch_parts(words) else {
        return Ok(Vec::new(rt.alloc()));
    };
    match batch_files(words) {
        Err(_) => Ok(Vec::new(rt.alloc())),
        Ok(_) => depots_on(rt, files),
    }
}

fn run_batch(rt: HostRuntime, words: &[Word]) -> Result<u8, StartFault>
    requires { is_batch words.now ≡ true }
{
    let alloc = rt.alloc();
    let mut depots = depots_of(rt, words)?;
    let mut out = StdSink::new(rt.stdout());
    let mut err = StdSink::new(rt.stderr());
    let outcome = metaedit_batch(alloc, words, &mut depots, &mut out, None);
    Ok(finish_batch(alloc, &outcome, &mut err))
}
