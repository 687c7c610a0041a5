// The kind of a file.
ghost use Rattle.std.specs.Prelude.{◌≡◌, length, take, drop};
ghost use Rattle.std.specs.Str.{bytes_eq};
ghost use Rattle.part_tree.specs.Kinds.{is_form_of, is_movie, kind};

use crate::names::Kind;

/// The kind of a file by its first 12 bytes. None where they are of no kind.
pub fn kind_of(first: &[u8]) -> Option<Kind>
    ensures { result ≡ kind first.now }
{
    if is_form(first, b"RIFF", b"WAVE") {
        Some(Kind::Wave)
    } else if is_form(first, b"RF64", b"WAVE") {
        Some(Kind::Rf64)
    } else if is_form(first, b"BW64", b"WAVE") {
        Some(Kind::Bw64)
    } else if is_form(first, b"RIFF", b"AVI ") {
        Some(Kind::Avi)
    } else if begins_movie(first) {
        Some(Kind::Mov)
    } else {
        None
    }
}

// Whether the bytes begin a form of this identifier and type.
fn is_form(first: &[u8], id: &[u8; 4], word: &[u8; 4]) -> bool
    ensures { result ≡ is_form_of id.now word.now first.now }
{
    has_word(first, 0, id) && has_word(first, 8, word)
}

// Whether the four bytes at a place are these.
fn has_word(first: &[u8], at: usize, word: &[u8; 4]) -> bool
    ensures { result ≡ bytes_eq (take 4 (drop at first.now)) word.now }
{
    if at > first.len() || first.len() - at < 4 {
        return false;
    }
    &first[at..at + 4] == word.as_slice()
}

const MOVIE_TYPES: [[u8; 4]; 7] = [
    *b"ftyp", *b"moov", *b"mdat", *b"free", *b"skip", *b"wide", *b"pnot",
];

// Whether the bytes begin a movie.
fn begins_movie(first: &[u8]) -> bool
    ensures { result ≡ is_movie first.now }
{
    for word in &MOVIE_TYPES {
        if has_word(first, 4, word) {
            return true;
        }
    }
    false
}
