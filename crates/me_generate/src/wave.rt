// A WAVE file.
ghost use Rattle.std.specs.Prelude.{◌≡◌, ◌+◌, ◌*◌, ◌<◌, ◌^◌, ◌++◌, [], OnOk, IfOk};
ghost use Rattle.me_generate.specs.Wave as spec;

use crate::put::{put, put_chunk, put_padded, put_zeros};
use itoa::Buffer;
use me_bytes::{NoMemory, put_le16, put_le32, put_le64};
use part_tree::Bytes;
use std::alloc::Global;

// Appends the description: the word `Reel` and the number.
fn put_description(alloc: Global, out: &mut Vec<u8>, n: u64) -> Result<(), NoMemory>
    ensures { OnOk result (out.new.items ≡ out.old.items ++ spec.description n) }
{
    let mut text = Vec::new(alloc);
    let mut buffer = Buffer::new();
    put(&mut text, b"Reel ")?;
    put(&mut text, buffer.format(n).as_bytes())?;
    put_padded(out, &text, 256)
}

// Appends the chunk `bext` up to the reference.
fn put_names(alloc: Global, out: &mut Vec<u8>, n: u64) -> Result<(), NoMemory>
    ensures { OnOk result (out.new.items ≡ out.old.items ++ spec.names n) }
{
    put_chunk(alloc, out, b"bext", 631)?;
    put_description(alloc, out, n)?;
    put_padded(out, b"Archive", 32)?;
    put_zeros(out, 32)
}

// Appends the date, the time, the time reference and the version of `bext`, and the zeros behind it.
fn put_stamps(alloc: Global, out: &mut Vec<u8>) -> Result<(), NoMemory>
    ensures { OnOk result (out.new.items ≡ out.old.items ++ spec.stamps) }
{
    put(out, b"2024-01-3112:00:00")?;
    put_le64(alloc, out, 0)?;
    put_le16(alloc, out, 1)?;
    put_zeros(out, 254)
}

// Appends the chunk `bext`.
fn put_bext(alloc: Global, out: &mut Vec<u8>, n: u64) -> Result<(), NoMemory>
    ensures { OnOk result (out.new.items ≡ out.old.items ++ spec.bext n) }
{
    put_names(alloc, out, n)?;
    put_stamps(alloc, out)?;
    put(out, b"A=PCM,F=48000,W=24,M=stereo\r\n\0")
}

// Appends the header of the form and the chunk `bext`.
fn put_form(alloc: Global, out: &mut Vec<u8>, n: u64) -> Result<(), NoMemory>
    requires { 1024 + 288000 * n < 2 ^ 32 }
    ensures { OnOk result (out.new.items ≡ out.old.items ++ spec.form n) }
{
    put_chunk(alloc, out, b"RIFF", (1024 + 288_000 * n) as u32)?;
    put(out, b"WAVE")?;
    put_bext(alloc, out, n)
}

// Appends the kind of the sound, its channels and its rate.
fn put_rate(alloc: Global, out: &mut Vec<u8>) -> Result<(), NoMemory>
    ensures { OnOk result (out.new.items ≡ out.old.items ++ spec.rate) }
{
    put_chunk(alloc, out, b"fmt ", 16)?;
    put_le16(alloc, out, 1)?;
    put_le16(alloc, out, 2)?;
    put_le32(alloc, out, 48_000)
}

// Appends the chunk `fmt `.
fn put_format(alloc: Global, out: &mut Vec<u8>) -> Result<(), NoMemory>
    ensures { OnOk result (out.new.items ≡ out.old.items ++ spec.format) }
{
    put_rate(alloc, out)?;
    put_le32(alloc, out, 288_000)?;
    put_le16(alloc, out, 6)?;
    put_le16(alloc, out, 24)
}

// Appends the list `INFO` with a title.
fn put_title(alloc: Global, out: &mut Vec<u8>) -> Result<(), NoMemory>
    ensures { OnOk result (out.new.items ≡ out.old.items ++ spec.title) }
{
    put_chunk(alloc, out, b"LIST", 18)?;
    put(out, b"INFO")?;
    put_chunk(alloc, out, b"INAM", 5)?;
    put(out, b"Reel\0\0")
}

// Appends padding up to the sound.
fn put_padding(alloc: Global, out: &mut Vec<u8>) -> Result<(), NoMemory>
    ensures { OnOk result (out.new.items ≡ out.old.items ++ spec.padding) }
{
    put_chunk(alloc, out, b"JUNK", 296)?;
    put_zeros(out, 296)
}

// Appends the chunks between the format and the sound.
fn put_others(alloc: Global, out: &mut Vec<u8>) -> Result<(), NoMemory>
    ensures { OnOk result (out.new.items ≡ out.old.items ++ spec.others) }
{
    put_chunk(alloc, out, b"iXML", 9)?;
    put(out, b"<BWFXML/>\0")?;
    put_title(alloc, out)?;
    put_padding(alloc, out)
}

/// What stands before the sound of `n` seconds.
pub(crate) fn wave_head(alloc: Global, n: u64) -> Result<Bytes, NoMemory>
    requires { 1024 + 288000 * n < 2 ^ 32 }
    ensures { IfOk result (λ head. head ≡ spec.wave_head n) }
{
    let mut out = Vec::new(alloc);
    put_form(alloc, &mut out, n)?;
    put_format(alloc, &mut out)?;
    put_others(alloc, &mut out)?;
    put_chunk(alloc, &mut out, b"data", (288_000 * n) as u32)?;
    Ok(Bytes::of(out))
}
