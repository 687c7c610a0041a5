// An AVI file.
ghost use Rattle.std.specs.Prelude.{◌≡◌, ◌+◌, ◌*◌, ◌<◌, ◌^◌, ◌++◌, [], OnOk, IfOk};
ghost use Rattle.me_generate.specs.Avi as spec;

use crate::put::{put, put_chunk, put_padded, put_zeros};
use me_bytes::NoMemory;
use part_tree::Bytes;
use std::alloc::Global;

// Appends the header of the file.
fn put_main(alloc: Global, out: &mut Vec<u8>) -> Result<(), NoMemory>
    ensures { OnOk result (out.new.items ≡ out.old.items ++ spec.main_header) }
{
    put_chunk(alloc, out, b"avih", 56)?;
    put_zeros(out, 56)
}

// Appends the header of a stream of pictures.
fn put_stream_header(alloc: Global, out: &mut Vec<u8>) -> Result<(), NoMemory>
    ensures { OnOk result (out.new.items ≡ out.old.items ++ spec.stream_header) }
{
    put_chunk(alloc, out, b"strh", 56)?;
    put_padded(out, b"vids", 56)
}

// Appends the format of a stream.
fn put_stream_format(alloc: Global, out: &mut Vec<u8>) -> Result<(), NoMemory>
    ensures { OnOk result (out.new.items ≡ out.old.items ++ spec.stream_format) }
{
    put_chunk(alloc, out, b"strf", 40)?;
    put_zeros(out, 40)
}

// Appends the list `strl` of a stream of pictures.
fn put_stream(alloc: Global, out: &mut Vec<u8>) -> Result<(), NoMemory>
    ensures { OnOk result (out.new.items ≡ out.old.items ++ spec.stream) }
{
    put_chunk(alloc, out, b"LIST", 116)?;
    put(out, b"strl")?;
    put_stream_header(alloc, out)?;
    put_stream_format(alloc, out)
}

// Appends the list `hdrl`, with one stream.
fn put_headers(alloc: Global, out: &mut Vec<u8>) -> Result<(), NoMemory>
    ensures { OnOk result (out.new.items ≡ out.old.items ++ spec.headers) }
{
    put_chunk(alloc, out, b"LIST", 192)?;
    put(out, b"hdrl")?;
    put_main(alloc, out)?;
    put_stream(alloc, out)
}

// Appends the header of the form.
fn put_form(alloc: Global, out: &mut Vec<u8>, n: u64) -> Result<(), NoMemory>
    requires { 224 + 32 * n < 2 ^ 32 }
    ensures { OnOk result (out.new.items ≡ out.old.items ++ spec.form n) }
{
    put_chunk(alloc, out, b"RIFF", (224 + 32 * n) as u32)?;
    put(out, b"AVI ")
}

/// What stands before `n` pictures.
pub(crate) fn avi_head(alloc: Global, n: u64) -> Result<Bytes, NoMemory>
    requires { 224 + 32 * n < 2 ^ 32 }
    ensures { IfOk result (λ head. head ≡ spec.avi_head n) }
{
    let mut out = Vec::new(alloc);
    put_form(alloc, &mut out, n)?;
    put_headers(alloc, &mut out)?;
    put_chunk(alloc, &mut out, b"LIST", (4 + 16 * n) as u32)?;
    put(&mut out, b"movi")?;
    Ok(Bytes::of(out))
}

/// What stands between `n` pictures and the entries of their index.
pub(crate) fn avi_middle(alloc: Global, n: u64) -> Result<Bytes, NoMemory>
    requires { 16 * n < 2 ^ 32 }
    ensures { IfOk result (λ middle. middle ≡ spec.avi_middle n) }
{
    let mut out = Vec::new(alloc);
    put_chunk(alloc, &mut out, b"idx1", (16 * n) as u32)?;
    Ok(Bytes::of(out))
}
