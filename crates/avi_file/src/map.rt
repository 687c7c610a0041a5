// What is known of a file.
use part_tree::{Base, Fields, Part, Span};

/// The index `idx1`: its body, what its offsets count from, and how many of its entries are counted.
#[derive(Clone, Copy, Debug, PartialEq, Eq)]
pub struct OldIndex {
    pub body: Span,
    pub base: Base,
    pub counted: u64,
}

/// An AVI file: its length in bytes, the bodies of its forms, its parts in the order of reading, its fields, the bodies of the
/// `movi` lists of all forms, the index `idx1` if there is one, the bodies of the super and of the standard indexes, how many
/// entries of indexes are counted, and the bodies of the streams' lists behind their types.
#[derive(Debug, Drop)]
pub struct AviMap {
    pub len: u64,
    pub forms: Vec<Span>,
    pub parts: Vec<Part>,
    pub fields: Fields,
    pub movis: Vec<Span>,
    pub idx1: Option<OldIndex>,
    pub supers: Vec<Span>,
    pub standards: Vec<Span>,
    pub entries: u64,
    pub streams: Vec<Span>,
}
