// Atoms in the short form that fill some bytes.
ghost use Rattle.std.specs.Prelude.{◌≡◌, ◌≤◌, ◌<◌, ◌+◌, ◌-◌, ◌^◌, Option, List, ℕ, drop, take, length, true, false, Some, None, IfOk, IfNone, IfSome, IsTrue, MatchOption};
ghost use Rattle.std.specs.Int.{w32, from_be_bytes};
ghost use Rattle.container_model.specs.Atoms.{atom};
ghost use Rattle.container_model.specs.Chunk.{Chunk};
ghost use Rattle.qt_keys.specs.Short.{atom_at, each, size_at, stands_at};

use part_tree::{FourCc, NoMemory};
use std::alloc::Global;

/// What is read of an atom in the short form, by its type and its body.
pub trait FromAtom {
    ghost reads: { Chunk → Option Self };

    /// Reads it. None where it isn't one of these.
    fn from_atom(alloc: Global, kind: FourCc, body: &[u8]) -> Result<Option<Self>, NoMemory>
        requires { length body.now ≤ 2 ^ 24 }
        ensures { IfOk result (λ found. found ≡ reads (atom kind.0 body.now)) };
}

/// Reads each of the atoms that fill the bytes. None where they don't fill them, or one isn't read.
pub fn read_all<T: FromAtom + Drop>(alloc: Global, bytes: &[u8]) -> Result<Option<Vec<T>>, NoMemory>
    requires { length bytes.now ≤ 2 ^ 24 }
    ensures { IfOk result
        (λ found. MatchOption found (each T.reads bytes.now ≡ None) (λ all. each T.reads bytes.now ≡ Some all.items)) }
{
    let mut all = Vec::new(alloc);
    let mut at = 0;
    'atoms: while at < bytes.len() {
        let Some(size) = size_of(bytes, at) else {
            return Ok(None);
        };
        let kind = kind_of(bytes, at);
        match T::from_atom(alloc, kind, &bytes[at + 8..at + size])? {
            None => return Ok(None),
            Some(one) => match all.push(one) {
                Ok(()) => {}
                Err(_) => return Err(NoMemory),
            },
        }
        at += size;
    }
    Ok(Some(all))
}

// The size of the atom at a place, with its header. None where that isn't short, or passes the end.
fn size_of(bytes: &[u8], at: usize) -> Option<usize>
    requires { at < length bytes.now }
    ensures none { IfNone result (stands_at (drop at bytes.now) ≡ false) }
    ensures whole { IfSome result (λ size. stands_at (drop at bytes.now) ≡ true) }
    ensures size { IfSome result (λ size. size ≡ size_at (drop at bytes.now)) }
    ensures low { IfSome result (λ size. 8 ≤ size) }
    ensures inside { IfSome result (λ size. at + size ≤ length bytes.now) }
{
    if bytes.len() - at < 8 {
        return None;
    }
    let size = number_at(bytes, at) as usize;
    if size < 8 {
        return None;
    }
    if bytes.len() - at < size {
        return None;
    }
    Some(size)
}

// The type of the atom at a place.
fn kind_of(bytes: &[u8], at: usize) -> FourCc
    requires { at + 8 ≤ length bytes.now }
    ensures { result.0 ≡ take 4 (drop 4 (drop at bytes.now)) }
{
    let mut kind = [0u8; 4];
    kind.copy_from_slice(&bytes[at + 4..at + 8]);
    FourCc(kind)
}

/// The number in four bytes.
pub fn number_at(bytes: &[u8], at: usize) -> u32
    requires { at + 4 ≤ length bytes.now }
    ensures { result ≡ from_be_bytes w32 (take 4 (drop at bytes.now)) }
{
    let mut word = [0u8; 4];
    word.copy_from_slice(&bytes[at..at + 4]);
    u32::from_be_bytes(word)
}
