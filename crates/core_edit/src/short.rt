// Few bytes without taking memory.
ghost use Rattle.std.specs.Prelude.{◌≡◌, ◌≤◌, ◌+◌, ◌++◌, length};

use std::marker::Model;

/// At most 64 bytes, seen as their list.
#[derive(Debug, Drop)]
pub struct Short {
    bytes: [u8; 64],
    len: usize,
}

impl Model for Short {
    ghost use Rattle.std.specs.Prelude.{ℕ, List, take, ◌≤◌};

    ghost Value = { List ℕ };

    ghost view = { λ s. take s.len s.bytes };

    ghost invariant = { λ s. s.len ≤ 64 };
}

impl Short {
    /// A copy of these bytes.
    pub fn of(bytes: &[u8]) -> Short
        requires { length bytes.now ≤ 64 }
        ensures { result ≡ bytes.now }
    {
        let len = bytes.len();
        let mut held = [0; 64];
        held[..len].copy_from_slice(bytes);
        Short { bytes: held, len }
    }

    /// Appends bytes.
    pub fn extend(&mut self, bytes: &[u8])
        requires { length self.old + length bytes.now ≤ 64 }
        ensures { self.new ≡ self.old ++ bytes.now }
    {
        let end = self.len + bytes.len();
        self.bytes[self.len..end].copy_from_slice(bytes);
        self.len = end;
    }

    pub fn as_slice(&self) -> &[u8]
        ensures { result.now ≡ self.now }
    {
        &self.bytes[..self.len]
    }
}
