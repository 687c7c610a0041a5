// Edits of the user data and of the key table of a small movie.
ghost use Rattle.std.specs.Prelude.{◌<◌, ◌≤◌, ◌^◌, length, IfOk};
ghost use Rattle.std.specs.List.{AllByRecursion};
ghost use Rattle.std.specs.Option.{ForSome};
ghost use Rattle.mov_plan.specs.Keyed.{CanPut};
ghost use Rattle.mov_plan.specs.Users.{CanSet};

use super::*;
use crate::atoms::atoms_of;
use crate::carry::NewAtom;
use me_disk::{Run, SparseDepot};
use part_tree::{Bytes, FourCc, NoMemory, Value};
use std::test::Fail;

// `ftyp`, and `moov` with a text: `udta` is the second atom of `moov`, behind padding.
const MOVIE: &[u8] =
    b"\0\0\0\x14ftypqt  \0\0\0\0qt  \0\0\0\x28moov\0\0\0\x08free\0\0\0\x18udta\0\0\0\x10\xA9nam\0\x04\x15\xC7Reel";

// The text of a name, or none.
fn name(alloc: Global, raw: Option<&[u8]>) -> Result<UserChange, NoMemory>
    requires { ForSome raw (λ v. length v.now < 2 ^ 16) }
    ensures { IfOk result CanSet }
{
    let kind = FourCc(*b"\xA9nam");
    match raw {
        None => Ok(UserChange { kind, value: None }),
        Some(raw) => {
            let raw = Bytes::new(alloc, raw)?;
            Ok(UserChange {
                kind,
                value: Some(Value { lang: 0x15C7, raw }),
            })
        }
    }
}

// The value of a key, or none.
fn key(alloc: Global, raw: Option<&[u8]>) -> Result<KeyChange, NoMemory>
    requires { ForSome raw (λ v. 8 ≤ length v.now) }
    ensures { IfOk result CanPut }
{
    let name = Bytes::new(alloc, b"a")?;
    match raw {
        None => Ok(KeyChange { name, value: None }),
        Some(raw) => {
            let raw = Bytes::new(alloc, raw)?;
            Ok(KeyChange {
                name,
                value: Some(raw),
            })
        }
    }
}

// What becomes of the carriers of the movie.
fn carried(alloc: Global, users: &[UserChange], keys: &[KeyChange]) -> Result<Carries, Fail>
    requires can_set { AllByRecursion CanSet users.now }
    requires can_put { AllByRecursion CanPut keys.now }
{
    let mut runs = Vec::new(alloc);
    runs.push(Run::Bytes(Vec::from_slice(alloc, MOVIE)?))?;
    let mut depot = SparseDepot::new(alloc, Some(runs))?;
    let Ok(atoms) = atoms_of(alloc, &mut depot, 28, 60) else {
        return Err(Fail::from(NoMemory));
    };
    match carriers(alloc, &mut depot, &atoms, 60, users, keys) {
        Ok(carries) => Ok(carries),
        Err(_) => Err(Fail::from(NoMemory)),
    }
}

// The number of the atom that becomes another, none where a new one comes or nothing is done; and the new atom.
fn told(carry: &Carry) -> (Option<usize>, Option<(&[u8], u64)>) {
    match carry {
        Carry::Stays => (None, None),
        Carry::Becomes(k, now) => (Some(*k), Some(atom(now))),
        Carry::Comes(now) => (None, Some(atom(now))),
    }
}

// The bytes of an atom, and how many atoms are counted for it.
fn atom(now: &NewAtom) -> (&[u8], u64) {
    (now.bytes.as_slice(), now.parts)
}

// A text is set and a key is put into a new table; both are removed; and nothing is done.
#[test]
fn carries_edits(rt: HostRuntime) -> Result<(), Fail> {
    let alloc = rt.alloc();
    let users = [name(alloc, Some(b"Reels"))?];
    let keys = [key(alloc, Some(b"\0\0\0\x01\0\0\0\0Hi"))?];
    let both = carried(alloc, &users, &keys)?;
    let text = b"\0\0\0\x19udta\0\0\0\x11\xA9nam\0\x05\x15\xC7Reels".as_slice();
    assert_eq!(rt; told(&both.user), (Some(1), Some((text, 2))));
    let table =
        b"\0\0\0\x64meta\0\0\0\x21hdlr\0\0\0\0\0\0\0\0mdta\0\0\0\0\0\0\0\0\0\0\0\0\0\0\0\0\x19keys\0\0\0\0\0\0\0\x01\0\0\0\x09mdtaa\0\0\0\x22ilst\0\0\0\x1A\0\0\0\x01\0\0\0\x12data\0\0\0\x01\0\0\0\0Hi".as_slice();
    assert_eq!(rt; told(&both.keys), (None, Some((table, 1))));
    let gone = carried(alloc, &[name(alloc, None)?], &[key(alloc, None)?])?;
    let empty = b"\0\0\0\x08udta".as_slice();
    assert_eq!(rt; told(&gone.user), (Some(1), Some((empty, 1))));
    assert_eq!(rt; told(&gone.keys), (None, None));
    let same = carried(alloc, &[], &[])?;
    assert_eq!(rt; told(&same.user), (None, None));
    assert_eq!(rt; told(&same.keys), (None, None));
    Ok(())
}
