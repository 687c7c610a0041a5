// Spells a journal: version 2 of the patches' strips.
ghost use Rattle.std.specs.Prelude.{◌≡◌, ◌+◌, ◌++◌, ◌<◌, ◌≤◌, ◌^◌, if◌then◌else◌, length, take, OnOk, IfOk};
ghost use Rattle.part_tree.specs.Patches.{most_bytes, all_bytes, FewRules};
ghost use Rattle.edit_journal.specs.Strips.{AllEndLow, cut, placed, strips, piece_of};
ghost use Rattle.edit_journal.specs.Journal.{head, spelled, spelled_strip, spelled_strips, Journal};
ghost use Rattle.edit_journal.specs.Journal.Version.{Second};

use crate::cut::{count_strips, cut_at};
use crate::strip::RUN;
use me_bytes::{put_le32, put_le64};
use part_tree::{Bytes, NoMemory, Patch};
use std::alloc::Global;

/// The journal of these patches, which make a file of `new_len` bytes out of one of `old_len` bytes. Its memory is taken at
/// once.
pub fn spell_journal(
    alloc: Global,
    old_len: u64,
    new_len: u64,
    patches: &[Patch],
) -> Result<Bytes, NoMemory>
    requires { FewRules old_len new_len patches.now }
    ensures spelled { IfOk result (λ b. b ≡ spelled old_len new_len patches.now) }
    ensures journal { IfOk result (λ b. Journal b old_len new_len patches.now) }
{
    let tally = count_strips(patches);
    let mut out = Vec::with_capacity(alloc, 24 + tally.size)?;
    put_head(alloc, &mut out, old_len, new_len, tally.strips)?;
    put_patches(alloc, &mut out, patches)?;
    Ok(Bytes::of(out))
}

// Appends the header.
fn put_head(
    alloc: Global,
    out: &mut Vec<u8>,
    old_len: u64,
    new_len: u64,
    count: u32,
) -> Result<(), NoMemory>
    ensures { OnOk result (out.new.items ≡ out.old.items ++ head Second old_len new_len count) }
{
    out.extend_from_slice(b"MEJ2")?;
    put_le64(alloc, out, old_len)?;
    put_le64(alloc, out, new_len)?;
    put_le32(alloc, out, count)
}

// Appends the strips of all patches.
fn put_patches(alloc: Global, out: &mut Vec<u8>, patches: &[Patch]) -> Result<(), NoMemory>
    requires small { all_bytes patches.now ≤ most_bytes }
    requires low { AllEndLow patches.now }
    ensures { OnOk result (out.new.items ≡ out.old.items ++ spelled_strips Second (strips patches.now)) }
{
    for patch in patches {
        put_patch(alloc, out, patch)?;
    }
    Ok(())
}

// Appends the strips of one patch.
fn put_patch(alloc: Global, out: &mut Vec<u8>, patch: &Patch) -> Result<(), NoMemory>
    requires small { length patch.now.bytes ≤ most_bytes }
    requires low { patch.now.at + length patch.now.bytes < 2 ^ 63 }
    ensures { OnOk result (out.new.items
        ≡ out.old.items ++ spelled_strips Second (placed patch.now.at (cut patch.now.bytes))) }
{
    let bytes = patch.bytes.as_slice();
    let mut from = 0;
    while from < bytes.len() {
        let cut = cut_at(bytes, from);
        let piece = &bytes[from..from + cut.len];
        put_strip(alloc, out, patch.at + from as u64, piece, cut.run)?;
        from += cut.len;
    }
    Ok(())
}

// Appends one strip: its header, and the bytes that tell it.
fn put_strip(
    alloc: Global,
    out: &mut Vec<u8>,
    at: u64,
    bytes: &[u8],
    run: bool,
) -> Result<(), NoMemory>
    requires some { 0 < length bytes.now }
    requires small { length bytes.now ≤ most_bytes }
    ensures { OnOk result (out.new.items
        ≡ out.old.items ++ spelled_strip Second (record { at = at; piece = piece_of run bytes.now })) }
{
    put_le64(alloc, out, at)?;
    put_le32(alloc, out, bytes.len() as u32)?;
    out.extend_from_slice(&[kind_of(run)])?;
    out.extend_from_slice(told_of(bytes, run))?;
    Ok(())
}

// The kind of a strip.
fn kind_of(run: bool) -> u8
    ensures { result ≡ (if run then 1 else 0) }
{
    if run { RUN } else { 0 }
}

// The bytes that tell a strip: of a run the first.
fn told_of(bytes: &[u8], run: bool) -> &[u8]
    requires { 0 < length bytes.now }
    ensures { result.now ≡ (if run then take 1 bytes.now else bytes.now) }
{
    if run { &bytes[..1] } else { bytes }
}
