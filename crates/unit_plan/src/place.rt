// What an edit leaves of a place.
use part_tree::Bytes;

/// What is to stand at a place: what stood there, padding that may go, or these bytes.
#[derive(Debug, Drop)]
pub enum What {
    Stays,
    Pads,
    Changes(Bytes),
}

/// A place of a row of chunks, from the byte `at` up to the byte `next` of the file. `lacks_pad` tells whether the chunk that
/// stands there lacks its pad byte, and `parts` how many parts the chunks count for that are to stand there.
#[derive(Debug, Drop)]
pub struct Place {
    pub at: u64,
    pub next: u64,
    pub lacks_pad: bool,
    pub parts: u64,
    pub what: What,
}
