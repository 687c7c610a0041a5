// How the program ends after a batch.
ghost use Rattle.std.specs.Prelude.{◌≡◌, ◌⊎◌, ℕ, take};
ghost use Rattle.std.specs.Io.KnownBytes.{Appends};
ghost use Rattle.me_disk.specs.Causes.{Rose};
ghost use Rattle.metaedit_top.specs.BatchText.{batch_line as line, batch_status};

use crate::batch_end::BatchOutcome;
use crate::batch_text::{batch_code, batch_line};
use me_disk::Sink;
use std::alloc::Global;

// Tells an outcome by its line.
fn tell<K: Sink>(alloc: Global, outcome: &BatchOutcome, err: &mut K)
    ensures told { (n : ℕ) × Appends (K.contents err.old) (K.contents err.new) (take n (line outcome.now)) }
    ensures whole { Appends (K.contents err.old) (K.contents err.new) (line outcome.now)
        ⊎ ((err.new ≡ err.old) ⊎ Rose (K.faults err.old) (K.faults err.new)) }
{
    match batch_line(alloc, outcome) {
        Ok(line) => {
            let _ = err.write_all(line.as_slice());
        }
        Err(_) => {}
    }
}

/// Ends the program after a batch: writes the line of what it answered to the standard error, and gives the status.
/// Nothing is written where there is no memory for the line, and perhaps some of it where the standard error failed.
pub fn finish_batch<K: Sink>(alloc: Global, outcome: &BatchOutcome, err: &mut K) -> u8
    ensures status { result ≡ batch_status outcome.now }
    ensures told { (n : ℕ) × Appends (K.contents err.old) (K.contents err.new) (take n (line outcome.now)) }
    ensures whole { Appends (K.contents err.old) (K.contents err.new) (line outcome.now)
        ⊎ ((err.new ≡ err.old) ⊎ Rose (K.faults err.old) (K.faults err.new)) }
{
    tell(alloc, outcome, err);
    batch_code(outcome)
}
