// How the program is started, and how it ends.
ghost use Rattle.std.specs.Prelude.{◌≡◌, ◌⊎◌, ℕ, Ok, take, drop, map, string_bytes, IfOk};
ghost use Rattle.std.specs.Io.KnownBytes.{Appends};
ghost use Rattle.me_disk.specs.Causes.{Rose};
ghost use Rattle.metaedit_top.specs.Started.{file_in, start_status};
ghost use Rattle.metaedit_top.specs.Text.{line, status};
ghost use Rattle.metaedit_top.specs.Words.{request};
ghost use Rattle.metaedit_top.specs.declared.words.Request.{Request};

use crate::outcome::Outcome;
use crate::text::{code, line_of};
use crate::word::Word;
use me_disk::Sink;
use part_tree::NoMemory;
use std::alloc::Global;
use std::io::{Error, ErrorKind};

/// Why the program can't begin.
#[derive(Clone, Copy, Debug, PartialEq, Eq)]
pub enum StartFault {
    /// There was no memory.
    Memory,
    /// The system doesn't give the words.
    NoWords,
}

impl From<NoMemory> for StartFault {
    ghost use Rattle.std.specs.Prelude.{◌≡◌};
    ghost use Rattle.metaedit_top.specs.declared.started.StartFault.TheVariants.{Memory};

    ghost from_gives = { λ _ e. e ≡ Memory };

    fn from(_: NoMemory) -> StartFault {
        StartFault::Memory
    }
}

impl From<Error> for StartFault {
    ghost use Rattle.std.specs.Prelude.{◌≡◌};
    ghost use Rattle.std.specs.IoError.{error_kind};
    ghost use Rattle.metaedit_top.specs.Started.{fault_of};

    ghost from_gives = { λ fault e. e ≡ fault_of (error_kind fault) };

    fn from(fault: Error) -> StartFault {
        match fault.kind() {
            ErrorKind::OutOfMemory => StartFault::Memory,
            _ => StartFault::NoWords,
        }
    }
}

/// The words behind the program's name, which is the first of the arguments.
pub fn words_of(alloc: Global, args: &[String]) -> Result<Vec<Word>, NoMemory>
    ensures { IfOk result (λ words. words.items ≡ map string_bytes (drop 1 args.now)) }
{
    let mut words = Vec::new(alloc);
    let [_, args @ ..] = args else {
        return Ok(words);
    };
    'words: for arg in args {
        let word = Word::new(alloc, arg.as_str())?;
        if words.push(word).is_err() {
            return Err(NoMemory);
        }
    }
    Ok(words)
}

/// The name of the file that the words ask for; empty where they name none.
pub fn file_of(words: &[Word]) -> &str
    ensures file { result.now ≡ file_in words.now }
    ensures asked { (q : Request) → request words.now ≡ Ok q → result.now ≡ q.file }
{
    match words {
        [_, file, ..] => file.as_str(),
        _ => "",
    }
}

// Tells an outcome by its line.
fn tell<K: Sink>(alloc: Global, outcome: &Outcome, err: &mut K)
    ensures told { (n : ℕ) × Appends (K.contents err.old) (K.contents err.new) (take n (line outcome.now)) }
    ensures whole { Appends (K.contents err.old) (K.contents err.new) (line outcome.now)
        ⊎ ((err.new ≡ err.old) ⊎ Rose (K.faults err.old) (K.faults err.new)) }
{
    match line_of(alloc, outcome) {
        Ok(line) => {
            let _ = err.write_all(line.as_slice());
        }
        Err(_) => {}
    }
}

/// Ends the program: writes the line of what the run answered to the standard error, and gives the status. Nothing is
/// written where there is no memory for the line, and perhaps some of it where the standard error failed.
pub fn finish<K: Sink>(alloc: Global, outcome: &Outcome, err: &mut K) -> u8
    ensures status { result ≡ status outcome.now }
    ensures told { (n : ℕ) × Appends (K.contents err.old) (K.contents err.new) (take n (line outcome.now)) }
    ensures whole { Appends (K.contents err.old) (K.contents err.new) (line outcome.now)
        ⊎ ((err.new ≡ err.old) ⊎ Rose (K.faults err.old) (K.faults err.new)) }
{
    tell(alloc, outcome, err);
    code(outcome)
}

/// The status where the program can't begin.
pub fn start_code(fault: StartFault) -> u8
    ensures { result ≡ start_status fault }
{
    match fault {
        StartFault::Memory => code(&Outcome::Memory),
        StartFault::NoWords => 14,
    }
}
