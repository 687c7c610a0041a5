// The names of keys in QuickTime's metadata.
ghost use Rattle.std.specs.Prelude.{◌≡◌, ◌≤◌, length, IsTrue, Option, Some, None, if◌then◌else◌};
ghost use Rattle.std.specs.List.{list_all};
ghost use Rattle.part_tree.specs.Keys.{is_key_letter, is_key_name};

use std::marker::Model;

/// The most bytes that the name of a key may have.
pub const MOST_KEY_BYTES: usize = 255;

/// The name of a key that is a field, seen as its bytes: 1 to 255 of them, each from 21 to 7E and none `=`.
#[derive(Clone, Copy, Debug, PartialEq, Eq)]
pub struct KeyName {
    // The name, and zeros behind it.
    bytes: [u8; 255],
    len: u8,
}

impl Model for KeyName {
    ghost use Rattle.std.specs.Prelude.{ℕ, List, take, length};
    ghost use Rattle.std.specs.List.{list_all};
    ghost use Rattle.part_tree.specs.Keys.{filled, Keeps};

    ghost Value = { List ℕ };

    ghost view = { λ key. take key.len key.bytes };

    ghost invariant = { λ key. Keeps key.bytes key.len };

    ghost inverse = { λ name. record { bytes = filled name; len = length name } };
}

impl KeyName {
    /// The name of these bytes. None where no key that is a field has such a name.
    pub fn new(name: &[u8]) -> Option<KeyName>
        ensures { result ≡ (if is_key_name name.now then Some name.now else None) }
    {
        if !is_key(name) {
            return None;
        }
        let mut bytes = [0; 255];
        bytes[..name.len()].copy_from_slice(name);
        Some(KeyName {
            bytes,
            len: name.len() as u8,
        })
    }

    pub fn as_slice(&self) -> &[u8]
        ensures bytes { result.now ≡ self.now }
        ensures name { IsTrue (is_key_name self.now) }
    {
        &self.bytes[..usize::from(self.len)]
    }
}

/// Whether bytes are the name of a key that is a field.
pub fn is_key(name: &[u8]) -> bool
    ensures { result ≡ is_key_name name.now }
{
    !name.is_empty() && name.len() <= MOST_KEY_BYTES && has_letters(name)
}

fn has_letters(name: &[u8]) -> bool
    ensures { result ≡ list_all is_key_letter name.now }
{
    name.iter().all(|x| is_letter(*x))
}

fn is_letter(x: u8) -> bool
    ensures { result ≡ is_key_letter x }
{
    x > b' ' && x <= b'~' && x != b'='
}
