// The names in a stream's list, and where a new one stands.
ghost use Rattle.std.specs.Prelude.{◌≡◌, ◌+◌, ◌<◌, ◌^◌, ℕ, List, Bool, IfOk, if◌then◌else◌};
ghost use Rattle.me_disk.specs.Causes.{Rose};
ghost use Rattle.me_disk.specs.Holds.{Holds, Inside};
ghost use Rattle.me_disk.specs.Steps.{HasCause, ReadsOnly};
ghost use Rattle.container_model.specs.Chunk.{riff};
ghost use Rattle.riff_form.specs.Walk.{chunk_in};
ghost use Rattle.carrier_model.specs.Names.{is_head as stands_first};
ghost use Rattle.avi_names.specs.Names.{EndBy, IsWhole, names_of, new_place};

use me_disk::{Depot, DepotFault};
use part_tree::Span;
use riff_form::{ChunkAt, StepFault, Walker};
use std::alloc::Global;
use thiserror::Error;

/// Why the names of a stream aren't read.
#[derive(Clone, Copy, Debug, PartialEq, Eq, Error)]
pub enum NamesFault {
    #[error("the depot failed")]
    Depot,
    #[error("memory was refused")]
    Memory,
}

// Whether a new name may stand behind this chunk.
fn is_head(chunk: &ChunkAt) -> bool
    ensures { (b : List ℕ) → result ≡ stands_first (chunk_in b riff chunk.now) }
{
    let header = chunk.id.is(b"strh");
    let format = chunk.id.is(b"strf");
    let data = chunk.id.is(b"strd");
    header | (format | data)
}

// The place behind this chunk, if a new name may stand there, or the one that was found before.
fn place_behind(chunk: &ChunkAt, found: u64) -> u64
    ensures { (b : List ℕ) → result ≡ (if stands_first (chunk_in b riff chunk.now) then chunk.now.next else found) }
{
    let head = is_head(chunk);
    if head { chunk.next } else { found }
}

/// The bodies of the `strn` chunks of a stream's list, in order. `strl` is the list behind its type word, whose chunks end with
/// it.
pub fn strl_names<D: Depot>(
    alloc: Global,
    depot: &mut D,
    strl: Span,
) -> Result<Vec<Span>, NamesFault>
    requires inside { Inside (strl.at + strl.len) (D.disk depot.old) }
    requires small { strl.at + strl.len < 2 ^ 63 }
    requires whole { IsWhole (D.disk depot.old) strl }
    ensures names { (b : List ℕ) → Holds (D.disk depot.old) b → IfOk result (λ found. found.items ≡ names_of b strl) }
    ensures inside { IfOk result (λ found. EndBy (strl.at + strl.len) found.items) }
    ensures reads { ReadsOnly (D.disk depot.old) (D.disk depot.new) }
    ensures cause { result ≡ Err NamesFault.Depot → Rose (D.disk depot.old).faults (D.disk depot.new).faults }
{
    let mut walker = Walker::new(strl.at, strl.at + strl.len);
    let mut names = Vec::new(alloc);
    'chunks: loop {
        let chunk = match walker.step(depot) {
            Err(StepFault::Depot) => return Err(NamesFault::Depot),
            Err(StepFault::Truncated { .. }) => return Ok(names),
            Ok(None) => return Ok(names),
            Ok(Some(chunk)) => chunk,
        };
        if chunk.id.is(b"strn") {
            match names.push(chunk.body) {
                Err(_) => return Err(NamesFault::Memory),
                Ok(()) => {}
            }
        }
    }
}

/// The place of a new name in a stream's list: directly behind the last `strh`, `strf` or `strd`, or first where there is none.
/// `strl` is the list behind its type word, whose chunks end with it. It takes no memory.
pub fn strl_new_place<D: Depot>(depot: &mut D, strl: Span) -> Result<u64, DepotFault>
    requires inside { Inside (strl.at + strl.len) (D.disk depot.old) }
    requires small { strl.at + strl.len < 2 ^ 63 }
    requires whole { IsWhole (D.disk depot.old) strl }
    ensures place { (b : List ℕ) → Holds (D.disk depot.old) b → IfOk result (λ place. place ≡ new_place b strl) }
    ensures reads { ReadsOnly (D.disk depot.old) (D.disk depot.new) }
    ensures cause { HasCause (D.disk depot.old) (D.disk depot.new) result }
{
    let mut walker = Walker::new(strl.at, strl.at + strl.len);
    let mut found = strl.at;
    'chunks: loop {
        let chunk = match walker.step(depot) {
            Err(StepFault::Depot) => return Err(DepotFault),
            Err(StepFault::Truncated { .. }) => return Ok(found),
            Ok(None) => return Ok(found),
            Ok(Some(chunk)) => chunk,
        };
        found = place_behind(&chunk, found);
    }
}
