// Why a table is refused.
use me_bytes::NoMemory;

/// The most bytes that a table may have: 64 MiB.
pub const MOST_BYTES: usize = 67_108_864;

/// Why a table is refused: the first fault in reading order. Rows, columns, blocks and lines count from 1; the header is no row.
#[derive(Clone, Copy, Debug, PartialEq, Eq)]
pub enum TableFault {
    /// It has more than `MOST_BYTES`.
    Long,
    /// There is no record, or the first cell isn't `FileName`.
    NoHeader,
    /// No field has the name of column `n`.
    UnknownColumn { n: u32 },
    /// Column `n` is the first whose name an earlier column has.
    TwiceColumn { n: u32 },
    /// The row has more cells than the header, or fewer.
    RowLength { row: u32 },
    /// A cell of the row isn't UTF-8.
    NotUtf8 { row: u32 },
    /// A backslash in the cell begins no escape.
    BadEscape { row: u32, col: u32 },
    /// No row or block is the file's.
    NoRow,
    /// Two rows or blocks are the file's.
    TwoRows { first: u32, second: u32 },
    /// Line `n` isn't one that Core XML has there.
    Line { n: u32 },
    Memory,
}

impl From<NoMemory> for TableFault {
    ghost use Rattle.std.specs.Prelude.{◌≡◌};
    ghost use Rattle.core_table.specs.declared.fault.TableFault.TheVariants.{Memory};

    ghost from_gives = { λ _ e. e ≡ Memory };

    fn from(_: NoMemory) -> TableFault {
        TableFault::Memory
    }
}
