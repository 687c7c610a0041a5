// What a map of a file shows of it.
ghost use Rattle.std.specs.Prelude.{◌≡◌};
ghost use Rattle.part_tree.specs.Shows.{Told};

use crate::fields::Fields;
use crate::names::{Kind, Span};

/// The tables of a QuickTime track: the places of its chunks in 32 or 64 bits, the samples in each chunk, and their sizes.
#[derive(Clone, Copy, Debug, PartialEq, Eq)]
pub struct Track {
    pub chunks: Span,
    pub wide: bool,
    pub stsc: Option<Span>,
    pub stsz: Option<Span>,
}

/// What a report tells of a file of any kind.
pub trait Shows {
    /// All that it shows.
    ghost told: { Self → Told };

    fn kind(&self) -> Kind
        ensures { result ≡ (told self.now).kind };

    /// The length of the sound or pictures in bytes.
    fn payload(&self) -> u64
        ensures { result ≡ (told self.now).payload };

    fn fields(&self) -> &Fields
        ensures { result.now ≡ (told self.now).fields };

    /// How many index entries are counted, in AVI alone.
    fn entries(&self) -> Option<u64>
        ensures { result ≡ (told self.now).entries };

    /// The tracks of a movie.
    fn tracks(&self) -> &[Track]
        ensures { result.now ≡ (told self.now).tracks };

    /// The bodies that hold a movie's samples, in the order of the file.
    fn mdats(&self) -> &[Span]
        ensures { result.now ≡ (told self.now).mdats };
}
