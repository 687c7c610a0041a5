// Identifiers, ranges and kinds of files.
ghost use Rattle.std.specs.Prelude.{◌≡◌};
ghost use Rattle.std.specs.Str.{bytes_eq};

/// The four letters that name a chunk or an atom.
#[derive(Clone, Copy, Debug, PartialEq, Eq)]
pub struct FourCc(pub [u8; 4]);

impl FourCc {
    /// Whether these are the letters.
    pub fn is(&self, word: &[u8; 4]) -> bool
        ensures is { result ≡ bytes_eq self.now.0 word.now }
        ensures flipped { result ≡ bytes_eq word.now self.now.0 }
    {
        self.0 == *word
    }
}

/// A range of a file: its place, counted from 0, and its length in bytes.
#[derive(Clone, Copy, Debug, PartialEq, Eq)]
pub struct Span {
    pub at: u64,
    pub len: u64,
}

/// The five kinds of files.
#[derive(Clone, Copy, Debug, PartialEq, Eq)]
pub enum Kind {
    /// RIFF of type WAVE.
    Wave,
    /// RF64 of type WAVE (EBU Tech 3306).
    Rf64,
    /// BW64 of type WAVE (ITU-R BS.2088).
    Bw64,
    /// RIFF of type AVI.
    Avi,
    /// A QuickTime movie.
    Mov,
}
