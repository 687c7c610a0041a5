// Numbers and identifiers in bytes, the lowest byte first.
ghost use Rattle.std.specs.Prelude.{◌≡◌, ◌+◌, ◌≤◌, length};
ghost use Rattle.std.specs.Int.{w32, w64, from_le_bytes};
ghost use Rattle.container_model.specs.Written.{slice};

use part_tree::FourCc;

// The number in the four bytes at a place.
pub fn le32_in(bytes: &[u8], at: usize) -> u32
    requires { at + 4 ≤ length bytes.now }
    ensures { result ≡ from_le_bytes w32 (slice bytes.now at 4) }
{
    let mut word = [0u8; 4];
    word.copy_from_slice(&bytes[at..at + 4]);
    u32::from_le_bytes(word)
}

// The number in the eight bytes at a place.
pub fn le64_in(bytes: &[u8], at: usize) -> u64
    requires { at + 8 ≤ length bytes.now }
    ensures { result ≡ from_le_bytes w64 (slice bytes.now at 8) }
{
    let mut word = [0u8; 8];
    word.copy_from_slice(&bytes[at..at + 8]);
    u64::from_le_bytes(word)
}

// The identifier in the four bytes at a place.
pub fn four_in(bytes: &[u8], at: usize) -> FourCc
    requires { at + 4 ≤ length bytes.now }
    ensures { result.0 ≡ slice bytes.now at 4 }
{
    let mut word = [0u8; 4];
    word.copy_from_slice(&bytes[at..at + 4]);
    FourCc(word)
}
