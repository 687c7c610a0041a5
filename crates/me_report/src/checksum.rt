// Checksums of the sound: the computed one, and those that the file stores.
ghost use Rattle.std.specs.Prelude.{◌≡◌, ◌+◌, ◌<◌, ◌^◌, ◌++◌, ℕ, List, length, take, drop, IfOk, OnOk};
ghost use Rattle.md5.specs.Md5.{md5, Holds as HasMessage};
ghost use Rattle.me_disk.specs.Holds.{Holds, Inside};
ghost use Rattle.me_disk.specs.Steps.{HasCause, ReadsOnly};
ghost use Rattle.part_tree.specs.Fields.{values};
ghost use Rattle.me_report.specs.Checksums.{computed_line, differs, checksum_text, finding_count, stored_lines};

use crate::text::{put, put_hex};
use md5::{Digest, Md5};
use me_disk::{Depot, DepotFault, Slot};
use part_tree::{Bytes, FieldName, Fields, FourCc, NoMemory, Span, Value};
use std::alloc::Global;

const BLOCK: u64 = 65_536;

// The field of the checksums that a file stores.
const STORED: FieldName = FieldName::Whole(FourCc(*b"MD5 "));

// Adds the bytes of `Main` at a place to the message, as many as the block takes.
fn hash_block<D: Depot>(
    depot: &mut D,
    hasher: &mut Md5,
    at: u64,
    block: &mut [u8],
) -> Result<(), DepotFault>
    requires inside { Inside (at + length block.old) (D.disk depot.old) }
    ensures message { (b m : List ℕ) → Holds (D.disk depot.old) b → HasMessage hasher.old m
        → OnOk result (HasMessage hasher.new (m ++ take (length block.old) (drop at b))) }
    ensures reads { ReadsOnly (D.disk depot.old) (D.disk depot.new) }
    ensures cause { HasCause (D.disk depot.old) (D.disk depot.new) result }
{
    depot.read_at(Slot::Main, at, block)?;
    hasher.update(&*block);
    Ok(())
}

/// The MD5 of a range of `Main`. It takes no memory.
///
/// # Errors
///
/// `DepotFault` where a read failed.
pub fn sound_md5<D: Depot>(depot: &mut D, sound: Span) -> Result<[u8; 16], DepotFault>
    requires inside { Inside (sound.at + sound.len) (D.disk depot.old) }
    requires small { sound.at + sound.len < 2 ^ 63 }
    ensures digest { (b : List ℕ) → Holds (D.disk depot.old) b
        → IfOk result (λ digest. digest ≡ md5 (take sound.len (drop sound.at b))) }
    ensures reads { ReadsOnly (D.disk depot.old) (D.disk depot.new) }
    ensures cause { HasCause (D.disk depot.old) (D.disk depot.new) result }
{
    let mut hasher = Md5::new();
    let mut block = [0; 65_536];
    let mut done = 0;
    'blocks: while done < sound.len {
        let count = BLOCK.min(sound.len - done) as usize;
        hash_block(depot, &mut hasher, sound.at + done, &mut block[..count])?;
        done += count as u64;
    }
    Ok(hasher.finalize())
}

fn put_stored(alloc: Global, out: &mut Vec<u8>, stored: &[Value]) -> Result<(), NoMemory>
    ensures { OnOk result (out.new.items ≡ out.old.items ++ stored_lines stored.now) }
{
    if stored.is_empty() {
        return put(out, b"stored none\n");
    }
    'values: for value in stored {
        put_hex(alloc, out, b"stored ", value.raw.as_slice())?;
    }
    Ok(())
}

fn put_computed(
    alloc: Global,
    out: &mut Vec<u8>,
    computed: &Option<[u8; 16]>,
) -> Result<(), NoMemory>
    ensures { OnOk result (out.new.items ≡ out.old.items ++ computed_line computed.now) }
{
    match computed {
        Some(digest) => put_hex(alloc, out, b"computed ", digest.as_slice()),
        None => put(out, b"computed none\n"),
    }
}

/// A line for each checksum that the file stores, in file order, and one for the computed checksum of its sound, None
/// where it has none.
pub fn md5_text(
    alloc: Global,
    fields: &Fields,
    computed: Option<[u8; 16]>,
) -> Result<Bytes, NoMemory>
    ensures { IfOk result (λ text. text ≡ checksum_text (values fields.now) computed) }
{
    let mut out = Vec::new(alloc);
    put_stored(alloc, &mut out, fields.get(&STORED))?;
    put_computed(alloc, &mut out, &computed)?;
    Ok(Bytes::of(out))
}

// Whether some value is another checksum.
fn some_differs(stored: &[Value], digest: &[u8]) -> bool
    ensures { result ≡ differs digest.now stored.now }
{
    'values: for value in stored {
        if value.raw.as_slice() != digest {
            return true;
        }
    }
    false
}

/// How many findings there are: 1 where a checksum that the file stores isn't the computed one, else 0.
pub fn md5_findings(fields: &Fields, computed: Option<[u8; 16]>) -> u32
    ensures { result ≡ finding_count (values fields.now) computed }
{
    match computed {
        Some(digest) if some_differs(fields.get(&STORED), digest.as_slice()) => 1,
        _ => 0,
    }
}
