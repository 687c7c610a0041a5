// A name as a chunk.
ghost use Rattle.std.specs.Prelude.{◌≡◌, ◌≤◌, length, IfOk};
ghost use Rattle.container_model.specs.Chunk.{spell};
ghost use Rattle.avi_names.specs.Names.{name_chunk};

use part_tree::{Bytes, NoMemory};
use std::alloc::Global;

/// A stream's name as a whole `strn` chunk: the text, one 0, and a pad of 0 where their length is odd.
pub fn spell_name(alloc: Global, text: &[u8]) -> Result<Bytes, NoMemory>
    requires short { length text.now ≤ 65535 }
    ensures { IfOk result (λ name. name ≡ spell (name_chunk text.now)) }
{
    let mut out = Vec::new(alloc);
    out.extend_from_slice(b"strn")?;
    let len = text.len() as u32 + 1;
    out.extend_from_slice(&len.to_le_bytes())?;
    out.extend_from_slice(text)?;
    out.extend_from_slice(&[0])?;
    if len % 2 == 1 {
        out.extend_from_slice(&[0])?;
    }
    Ok(Bytes::of(out))
}
