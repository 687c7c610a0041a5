// What is known of a file.
use part_tree::{Fields, Kind, Part, Span};
use rf64_ds64::Ds64;

/// A WAVE or RF64 file: its length in bytes, where its form ends, the sizes in `ds64`, the chunks of the form in their order,
/// the fields, the body of `data` and the bytes of a block.
#[derive(Debug, Drop)]
pub struct WaveMap {
    pub len: u64,
    pub kind: Kind,
    pub form_end: u64,
    pub ds64: Option<Ds64>,
    pub parts: Vec<Part>,
    pub fields: Fields,
    pub sound: Span,
    pub align: u16,
}
