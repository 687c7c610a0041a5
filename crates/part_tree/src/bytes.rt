// Bytes that callers see as a list.
ghost use Rattle.std.specs.Prelude.{◌≡◌, IfOk};

use me_bytes::NoMemory;
use std::alloc::Global;
use std::marker::Model;

/// Bytes, seen as their list.
#[derive(Debug, Drop)]
pub struct Bytes {
    held: Vec<u8>,
}

impl Model for Bytes {
    ghost use Rattle.std.specs.Prelude.{ℕ, List};

    ghost Value = { List ℕ };

    ghost view = { λ b. b.held.items };
}

impl Bytes {
    /// A copy of the bytes.
    pub fn new(alloc: Global, bytes: &[u8]) -> Result<Bytes, NoMemory>
        ensures { IfOk result (λ b. b ≡ bytes.now) }
    {
        let held = Vec::from_slice(alloc, bytes)?;
        Ok(Bytes { held })
    }

    /// These bytes, without taking memory.
    pub fn of(bytes: Vec<u8>) -> Bytes
        ensures { result ≡ bytes.items }
    {
        Bytes { held: bytes }
    }

    pub fn as_slice(&self) -> &[u8]
        ensures { result.now ≡ self.now }
    {
        self.held.as_slice()
    }
}
