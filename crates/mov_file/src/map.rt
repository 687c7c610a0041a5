// What is known of a movie.
use part_tree::{Fields, Part, Span, Track};
use qt_atoms::AtomAt;

/// A QuickTime movie: its length in bytes, its atoms in the order of reading, the fields, `moov`, in it the first user data and
/// the first `meta` that is a key table, the bodies of the `mdat`s in file order, and the tables of the tracks.
#[derive(Debug, Drop)]
pub struct MovMap {
    pub len: u64,
    pub parts: Vec<Part>,
    pub fields: Fields,
    pub moov: AtomAt,
    pub user: Option<AtomAt>,
    pub meta: Option<AtomAt>,
    pub mdats: Vec<Span>,
    pub tracks: Vec<Track>,
}
