// The parts of a file.
use crate::names::{FourCc, Span};

/// What a part is to an edit.
#[derive(Clone, Copy, Debug, PartialEq, Eq)]
pub enum Role {
    /// Kept as its bytes stand.
    Opaque,
    /// Room for an edit.
    Padding,
    Bext,
    /// A `LIST` of type `INFO`.
    Info,
    /// A field that is a whole chunk.
    Whole,
    /// `ds64`, which holds sizes.
    Sizes,
    /// A table of places.
    Tables,
    /// QuickTime's user data.
    UserData,
    /// Sound or pictures.
    Essence,
    /// Bytes at the end of a parent that are no chunk.
    Rest,
}

/// A chunk or an atom of a file: where its header begins, its body, and where what is behind it begins.
#[derive(Clone, Copy, Debug, PartialEq, Eq)]
pub struct Part {
    pub id: FourCc,
    pub at: u64,
    pub body: Span,
    pub next: u64,
    pub role: Role,
}
