// Files of many gigabytes, of which most bytes are 0.
ghost use Rattle.std.specs.Prelude.{◌≡◌, ◌≤◌, length, IfOk};
ghost use Rattle.me_disk.specs.Sparse.{IsFresh, sparse_disk};
ghost use Rattle.me_disk.specs.Steps.{ReadsOnly};
ghost use Rattle.metaedit_top.specs.Run.{OneImage};

use crate::runs::{Ran, run_told};
use me_disk::{Depot, DepotFault, Run, Slot, SparseDepot};
use part_tree::NoMemory;
use std::alloc::Global;

// An RF64 file up to the body of its padding, and the header of its sound behind it.
const LARGE_HEAD: &[u8] =
    b"RF64\xff\xff\xff\xffWAVEds64\x1c\x00\x00\x00`\xf6\x05*\x01\x00\x00\x00\x00\xf2\x05*\x01\x00\x00\x00\x00\xf9\x02\x95\x00\x00\x00\x00\x00\x00\x00\x00fmt \x10\x00\x00\x00\x01\x00\x01\x00D\xac\x00\x00\x88X\x01\x00\x02\x00\x10\x00LIST\x10\x00\x00\x00INFOINAM\x03\x00\x00\x00Hi\x00\x00JUNK\xf8\x03\x00\x00";

const SOUND_HEAD: &[u8] = b"data\xff\xff\xff\xff";

// A WAVE file up to its sound.
const FULL_HEAD: &[u8] =
    b"RIFF\xf0\xff\xff\xffWAVEfmt \x10\x00\x00\x00\x01\x00\x01\x00D\xac\x00\x00\x88X\x01\x00\x02\x00\x10\x00data\xcc\xff\xff\xff";

// A WAVE file with a `JUNK` of 28 bytes behind its type, up to the size of its sound; and the same with two bytes less.
const ROOMY_HEAD: &[u8] =
    b"RIFF\xe8\xff\xff\xffWAVEJUNK\x1c\x00\x00\x00\x00\x00\x00\x00\x00\x00\x00\x00\x00\x00\x00\x00\x00\x00\x00\x00\x00\x00\x00\x00\x00\x00\x00\x00\x00\x00\x00\x00fmt \x10\x00\x00\x00\x01\x00\x01\x00D\xac\x00\x00\x88X\x01\x00\x02\x00\x10\x00data\xa0\xff\xff\xff";

const NARROW_HEAD: &[u8] =
    b"RIFF\xe6\xff\xff\xffWAVEJUNK\x1c\x00\x00\x00\x00\x00\x00\x00\x00\x00\x00\x00\x00\x00\x00\x00\x00\x00\x00\x00\x00\x00\x00\x00\x00\x00\x00\x00\x00\x00\x00\x00fmt \x10\x00\x00\x00\x01\x00\x01\x00D\xac\x00\x00\x88X\x01\x00\x02\x00\x10\x00data\x9e\xff\xff\xff";

// A movie up to its samples, of which the second chunk has one of the last places that 32 bits tell.
const MOVIE_HEAD: &[u8] =
    b"\x00\x00\x00\x14ftypqt  \x00\x00\x00\x00qt  \x00\x00\x00\x88moov\x00\x00\x00htrak\x00\x00\x00`mdia\x00\x00\x00Xminf\x00\x00\x00Pstbl\x00\x00\x00\x1cstsc\x00\x00\x00\x00\x00\x00\x00\x01\x00\x00\x00\x01\x00\x00\x00\x01\x00\x00\x00\x01\x00\x00\x00\x14stsz\x00\x00\x00\x00\x00\x00\x00\x08\x00\x00\x00\x02\x00\x00\x00\x18stco\x00\x00\x00\x00\x00\x00\x00\x02\x00\x00\x00\xac\xff\xff\xff\xfa\x00\x00\x00\x18udta\x00\x00\x00\x10\xa9nam\x00\x04\x15\xc7Reel\x00\x00\x00\x01mdat\x00\x00\x00\x01\x00L\xcb\x10";

/// The head of the full file with its title, made RF64: up to `fmt `.
pub const FULL_WIDENED: &[u8] =
    b"RF64\xff\xff\xff\xffWAVEds64\x1c\x00\x00\x00,\x00\x00\x00\x01\x00\x00\x00\xcc\xff\xff\xff\x00\x00\x00\x00\xe6\xff\xff\x7f\x00\x00\x00\x00\x00\x00\x00\x00";

/// The head of the roomy file with its title, made RF64: up to `fmt `.
pub const ROOMY_WIDENED: &[u8] =
    b"RF64\xff\xff\xff\xffWAVEds64\x1c\x00\x00\x00\x00\x00\x00\x00\x01\x00\x00\x00\xa0\xff\xff\xff\x00\x00\x00\x00\xd0\xff\xff\x7f\x00\x00\x00\x00\x00\x00\x00\x00";

/// `fmt ` and the header of a sound whose size stands in `ds64`.
pub const WIDE_SOUND: &[u8] =
    b"fmt \x10\x00\x00\x00\x01\x00\x01\x00D\xac\x00\x00\x88X\x01\x00\x02\x00\x10\x00data\xff\xff\xff\xff";

/// The list with the title `Hi`.
pub const HI: &[u8] = b"LIST\x10\x00\x00\x00INFOINAM\x03\x00\x00\x00Hi\x00\x00";

/// The list with the title `Hello`, and the header of the padding behind it.
pub const HELLO: &[u8] =
    b"LIST\x12\x00\x00\x00INFOINAM\x06\x00\x00\x00Hello\x00JUNK\xf6\x03\x00\x00";

/// The places of the full movie and its user data, when it has a longer name.
pub const PLACED: &[u8] =
    b"\x00\x00\x00 co64\x00\x00\x00\x00\x00\x00\x00\x02\x00\x00\x00\x00\x00\x00\x00\xba\x00\x00\x00\x01\x00\x00\x00\x08\x00\x00\x00\x1eudta\x00\x00\x00\x16\xa9nam\x00\x0a\x15\xc7abcdefghij";

// A depot that holds these runs.
fn depot_of_runs(alloc: Global, runs: Vec<Run>) -> Result<SparseDepot, NoMemory>
    ensures fresh { IfOk result IsFresh }
    ensures only { IfOk result (λ d. OneImage (sparse_disk d)) }
{
    SparseDepot::new(alloc, Some(runs))
}

/// An RF64 file with the title `Hi`, a padding of 1,016 bytes and 5,000,000,000 bytes of sound.
pub fn five_gigabytes(alloc: Global) -> Result<SparseDepot, NoMemory>
    ensures fresh { IfOk result IsFresh }
    ensures only { IfOk result (λ d. OneImage (sparse_disk d)) }
{
    let head = Run::Bytes(LARGE_HEAD.to_vec(alloc)?);
    let sound = Run::Bytes(SOUND_HEAD.to_vec(alloc)?);
    let runs = vec![in alloc; head, Run::Zero(1_016), sound, Run::Zero(5_000_000_000)];
    depot_of_runs(alloc, runs.or(Err(NoMemory))?)
}

/// A WAVE file with 4,294,967,244 bytes of sound, which its sizes can just tell. The first 5,000 of them are 7.
pub fn full_wave(alloc: Global) -> Result<SparseDepot, NoMemory>
    ensures fresh { IfOk result IsFresh }
    ensures only { IfOk result (λ d. OneImage (sparse_disk d)) }
{
    let head = Run::Bytes(FULL_HEAD.to_vec(alloc)?);
    let sevens = Run::Bytes(vec![in alloc; 7u8; 5_000]?);
    let runs = vec![in alloc; head, sevens, Run::Zero(4_294_962_244)];
    depot_of_runs(alloc, runs.or(Err(NoMemory))?)
}

/// A WAVE file with room for `ds64` behind its type and 4,294,967,200 bytes of sound, which its sizes can't tell with a title more.
pub fn roomy_wave(alloc: Global) -> Result<SparseDepot, NoMemory>
    ensures fresh { IfOk result IsFresh }
    ensures only { IfOk result (λ d. OneImage (sparse_disk d)) }
{
    let head = Run::Bytes(ROOMY_HEAD.to_vec(alloc)?);
    let runs = vec![in alloc; head, Run::Zero(4_294_967_200)];
    depot_of_runs(alloc, runs.or(Err(NoMemory))?)
}

/// The same with two bytes of sound less, which its sizes can just tell with a title more.
pub fn narrow_wave(alloc: Global) -> Result<SparseDepot, NoMemory>
    ensures fresh { IfOk result IsFresh }
    ensures only { IfOk result (λ d. OneImage (sparse_disk d)) }
{
    let head = Run::Bytes(NARROW_HEAD.to_vec(alloc)?);
    let runs = vec![in alloc; head, Run::Zero(4_294_967_198)];
    depot_of_runs(alloc, runs.or(Err(NoMemory))?)
}

/// A movie with 4,300,000,000 bytes of samples behind its `moov`, of which 32 bits can just tell where the second chunk is.
pub fn full_movie(alloc: Global) -> Result<SparseDepot, NoMemory>
    ensures { IfOk result IsFresh }
{
    let head = Run::Bytes(MOVIE_HEAD.to_vec(alloc)?);
    let runs = vec![in alloc; head, Run::Zero(4_300_000_000)];
    depot_of_runs(alloc, runs.or(Err(NoMemory))?)
}

// An AVI file up to the header of a stream whose chunk `vprp` has nearly all bytes that its form can tell, and what stands behind.
const HEADER: &[u8] =
    b"RIFF\xf8\xff\xff\xffAVI LIST\xe0\xff\xff\xffhdrlLIST\x04\x00\x00\x00strlvprp\xc8\xff\xff\xff";

const NO_FRAMES: &[u8] = b"LIST\x04\x00\x00\x00movi";

/// An AVI file without frames whose `hdrl` has nearly all bytes that its form can tell.
pub fn full_header(alloc: Global) -> Result<SparseDepot, NoMemory>
    ensures { IfOk result IsFresh }
{
    let head = Run::Bytes(HEADER.to_vec(alloc)?);
    let frames = Run::Bytes(NO_FRAMES.to_vec(alloc)?);
    let runs = vec![in alloc; head, Run::Zero(4_294_967_240), frames];
    depot_of_runs(alloc, runs.or(Err(NoMemory))?)
}

/// A run whose words are these texts.
pub fn run_sparse(alloc: Global, texts: &[&str], depot: &mut SparseDepot) -> Result<Ran, NoMemory> {
    run_told(alloc, texts, depot)
}

/// Cuts the file at its hundredth byte, and writes one byte with a gap of two before it.
pub fn cut_and_lengthened(depot: &mut SparseDepot) -> Result<(), DepotFault> {
    depot.set_main_len(100)?;
    depot.write_main(102, b"x")
}

/// Whether the file has these bytes, at most 64, from `at` on.
pub fn shows(depot: &mut SparseDepot, at: u64, want: &[u8]) -> bool
    requires { length want.now ≤ 64 }
    ensures { ReadsOnly (sparse_disk depot.old) (sparse_disk depot.new) }
{
    let mut buffer = [0u8; 64];
    let got = &mut buffer[..want.len()];
    depot.read_at(Slot::Main, at, got).is_ok() && &*got == want
}

/// Whether the file has so many bytes.
pub fn has_len(depot: &mut SparseDepot, len: u64) -> bool
    ensures { ReadsOnly (sparse_disk depot.old) (sparse_disk depot.new) }
{
    matches!(depot.len(Slot::Main), Ok(found) if found == len)
}
