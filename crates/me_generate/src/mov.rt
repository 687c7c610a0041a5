// A movie.
ghost use Rattle.std.specs.Prelude.{◌≡◌, ◌+◌, ◌*◌, ◌<◌, ◌^◌, ◌++◌, [], OnOk, IfOk};
ghost use Rattle.me_generate.specs.Movie as spec;

use crate::put::{put, put_atom, put_numbers, put_zeros};
use me_bytes::{NoMemory, put_be16, put_be32};
use part_tree::Bytes;
use std::alloc::Global;

// Appends `ftyp`.
fn put_type(alloc: Global, out: &mut Vec<u8>) -> Result<(), NoMemory>
    ensures { OnOk result (out.new.items ≡ out.old.items ++ spec.file_type) }
{
    put_atom(alloc, out, 20, b"ftyp")?;
    put(out, b"qt  ")?;
    put_be32(alloc, out, 0)?;
    put(out, b"qt  ")
}

// Appends the headers of the atoms that lead from a track to its tables.
fn put_media(alloc: Global, out: &mut Vec<u8>, n: u64) -> Result<(), NoMemory>
    requires { 88 + 4 * n < 2 ^ 32 }
    ensures { OnOk result (out.new.items ≡ out.old.items ++ spec.media n) }
{
    put_atom(alloc, out, (88 + 4 * n) as u32, b"mdia")?;
    put_atom(alloc, out, (80 + 4 * n) as u32, b"minf")?;
    put_atom(alloc, out, (72 + 4 * n) as u32, b"stbl")
}

// Appends the headers of `moov`, of its track and of the atoms that lead to its tables.
fn put_track(alloc: Global, out: &mut Vec<u8>, n: u64) -> Result<(), NoMemory>
    requires { 128 + 4 * n < 2 ^ 32 }
    ensures { OnOk result (out.new.items ≡ out.old.items ++ spec.track n) }
{
    put_atom(alloc, out, (128 + 4 * n) as u32, b"moov")?;
    put_atom(alloc, out, (96 + 4 * n) as u32, b"trak")?;
    put_media(alloc, out, n)
}

// Appends the tables of chunks and of sizes, and that of places up to its rows.
fn put_tables(alloc: Global, out: &mut Vec<u8>, n: u64) -> Result<(), NoMemory>
    requires { 128 + 4 * n < 2 ^ 32 }
    ensures { OnOk result (out.new.items ≡ out.old.items ++ spec.tables n) }
{
    put_chunks(alloc, out)?;
    put_sizes(alloc, out, n)?;
    put_places(alloc, out, n)
}

// Appends the table of chunks: from the first on, one sample a chunk.
fn put_chunks(alloc: Global, out: &mut Vec<u8>) -> Result<(), NoMemory>
    ensures { OnOk result (out.new.items ≡ out.old.items ++ spec.chunks) }
{
    put_atom(alloc, out, 28, b"stsc")?;
    put_numbers(alloc, out, &[0, 1, 1, 1, 1])
}

// Appends the table of sizes: `n` samples of eight bytes.
fn put_sizes(alloc: Global, out: &mut Vec<u8>, n: u64) -> Result<(), NoMemory>
    requires { n < 2 ^ 32 }
    ensures { OnOk result (out.new.items ≡ out.old.items ++ spec.sizes n) }
{
    put_atom(alloc, out, 20, b"stsz")?;
    put_numbers(alloc, out, &[0, 8, n as u32])
}

// Appends what stands before the rows of the table of places.
fn put_places(alloc: Global, out: &mut Vec<u8>, n: u64) -> Result<(), NoMemory>
    requires { 16 + 4 * n < 2 ^ 32 }
    ensures { OnOk result (out.new.items ≡ out.old.items ++ spec.places n) }
{
    put_atom(alloc, out, (16 + 4 * n) as u32, b"stco")?;
    put_numbers(alloc, out, &[0, n as u32])
}

/// What stands before the places of `n` samples.
pub(crate) fn movie_head(alloc: Global, n: u64) -> Result<Bytes, NoMemory>
    requires { 128 + 4 * n < 2 ^ 32 }
    ensures { IfOk result (λ head. head ≡ spec.movie_head n) }
{
    let mut out = Vec::new(alloc);
    put_type(alloc, &mut out)?;
    put_track(alloc, &mut out, n)?;
    put_tables(alloc, &mut out, n)?;
    Ok(Bytes::of(out))
}

// Appends a title.
fn put_title(alloc: Global, out: &mut Vec<u8>) -> Result<(), NoMemory>
    ensures { OnOk result (out.new.items ≡ out.old.items ++ spec.title) }
{
    put_atom(alloc, out, 16, b"\xa9nam")?;
    put_be16(alloc, out, 4)?;
    put_be16(alloc, out, 0x15c7)?;
    put(out, b"Reel")
}

// Appends user data with a title.
fn put_user(alloc: Global, out: &mut Vec<u8>) -> Result<(), NoMemory>
    ensures { OnOk result (out.new.items ≡ out.old.items ++ spec.user) }
{
    put_atom(alloc, out, 24, b"udta")?;
    put_title(alloc, out)
}

// Appends padding.
fn put_padding(alloc: Global, out: &mut Vec<u8>) -> Result<(), NoMemory>
    ensures { OnOk result (out.new.items ≡ out.old.items ++ spec.padding) }
{
    put_atom(alloc, out, 24, b"free")?;
    put_zeros(out, 16)
}

/// What stands between the places of `n` samples and the samples.
pub(crate) fn movie_middle(alloc: Global, n: u64) -> Result<Bytes, NoMemory>
    requires { 8 + 8 * n < 2 ^ 32 }
    ensures { IfOk result (λ middle. middle ≡ spec.movie_middle n) }
{
    let mut out = Vec::new(alloc);
    put_user(alloc, &mut out)?;
    put_padding(alloc, &mut out)?;
    put_atom(alloc, &mut out, (8 + 8 * n) as u32, b"mdat")?;
    Ok(Bytes::of(out))
}
