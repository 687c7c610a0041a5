// Tables whose rows name places of the file that they stand in.
ghost use Rattle.std.specs.Prelude.{◌≡◌};
ghost use Rattle.part_tree.specs.Tables.{new_width, width};

use crate::names::FourCc;

/// What the offsets of an `idx1` count from: the place of the word `movi`, or the start of the file.
#[derive(Clone, Copy, Debug, PartialEq, Eq)]
pub enum Base {
    Movi(u64),
    FileStart,
}

/// What the head of an index chunk tells: how many longs an entry has, whether it has two fields, whether the index is a
/// standard one, how many entries are in use, whose chunks it names, and what the offsets of a standard index count from.
#[derive(Clone, Copy, Debug, PartialEq, Eq)]
pub struct IndexHead {
    pub longs: u16,
    pub two_fields: bool,
    pub standard: bool,
    pub used: u32,
    pub id: FourCc,
    pub base: u64,
}

/// What the rows of a table are, and what becomes of them.
#[derive(Clone, Copy, Debug, PartialEq, Eq)]
pub enum TableForm {
    /// The entries of an `idx1`, whose offsets count from this base.
    Idx1(Base),
    /// The entries of a super index of OpenDML.
    Super,
    /// The entries of a standard index of OpenDML, whose head was this one, and whose offsets count from a new base.
    Standard { old: IndexHead, new_base: u64 },
    /// The rows of a `stco`.
    Chunks32,
    /// The rows of a `co64`.
    Chunks64,
    /// The rows of a `stco` that becomes a `co64`.
    Widen,
}

impl TableForm {
    /// How many bytes a row has in the old file.
    pub fn width(&self) -> usize
        ensures { result ≡ width self.now }
    {
        match self {
            TableForm::Idx1(_) => 16,
            TableForm::Super => 16,
            TableForm::Standard { old, .. } => { if old.two_fields { 12 } else { 8 } }
            TableForm::Chunks32 => 4,
            TableForm::Chunks64 => 8,
            TableForm::Widen => 4,
        }
    }

    /// How many bytes a row has in the new file.
    pub fn new_width(&self) -> usize
        ensures { result ≡ new_width self.now }
    {
        match self {
            TableForm::Widen => 8,
            _ => self.width(),
        }
    }
}
