// Why a file is refused.

use crate::names::FourCc;
use me_bytes::NoMemory;

/// Why a file isn't supported. `at` is a place in the file, and `len` a number of bytes.
#[derive(Clone, Copy, Debug, PartialEq, Eq)]
pub enum Why {
    /// The first bytes are those of no kind.
    UnknownKind,
    /// The kind isn't built yet.
    NotBuilt,
    /// What stands at `at` passes its parent's end.
    Truncated { at: u64 },
    NoFmt,
    ShortFmt { len: u64 },
    TwoFmt,
    /// The block size in `fmt ` is 0.
    BlockZero,
    NoData,
    TwoData,
    NoDs64,
    ShortDs64 { len: u64 },
    /// `ds64` has no row for this chunk.
    RowMissing { id: FourCc },
    ShortBext { len: u64 },
    TwoBext,
    CarrierBig { id: FourCc, len: u64 },
    TooManyParts,
    NoHdrl,
    NoMovi,
    IndexKind { at: u64 },
    IndexShort { at: u64 },
    IndexPlace { at: u64 },
    IndexOverlap { at: u64 },
    IndexAstray { at: u64, entry: u64 },
    IndexBase,
    SizeSmall { at: u64 },
    NoMoov,
    TwoMoov,
    MoovBig { len: u64 },
    Compressed,
    Reference,
    Fragments { at: u64 },
    External { track: u32 },
    OtherOffsets { track: u32 },
    TableTwice { track: u32 },
    TableShort { at: u64 },
    ChunkAstray { track: u32, chunk: u32 },
}

/// Why a file isn't read.
#[derive(Clone, Copy, Debug, PartialEq, Eq)]
pub enum ReadFault {
    /// The file isn't supported.
    Why(Why),
    /// The depot failed.
    Depot,
    Memory,
}

impl From<NoMemory> for ReadFault {
    ghost use Rattle.std.specs.Prelude.{◌≡◌};
    ghost use Rattle.part_tree.specs.declared.why.ReadFault.TheVariants.{Memory};

    ghost from_gives = { λ _ e. e ≡ Memory };

    fn from(_: NoMemory) -> Self {
        ReadFault::Memory
    }
}
