// What the map of a file tells, whatever the file's kind.
ghost use Rattle.std.specs.Prelude.{◌≡◌, ◌-◌, ◌^◌, map, min};
ghost use Rattle.avi_model.specs.Kind.{behind_word};
ghost use Rattle.edit_planner.specs.Facts.{hashed_in};
ghost use Rattle.edit_planner.specs.Plan.{streams_in, told_in, told_len};

use crate::plans::FileMap;
use part_tree::{Fields, Kind, Shows, Span, Track};

// The length of ranges together, as far as it can be told.
fn len_of(spans: &[Span]) -> u64
    ensures { result ≡ told_len spans.now }
{
    let mut len: u64 = 0;
    'spans: for span in spans {
        len = len.saturating_add(span.len);
    }
    len
}

// The length of what `movi` lists with these bodies hold behind their types, as far as it can be told.
fn len_of_movis(movis: &[Span]) -> u64
    ensures { result ≡ told_len (map behind_word movis.now) }
{
    let mut len: u64 = 0;
    'movis: for movi in movis {
        len = len.saturating_add(movi.len.saturating_sub(4));
    }
    len
}

// A count as far as 32 bits tell it.
fn few(count: usize) -> u32
    ensures { result ≡ min count (2 ^ 32 - 1) }
{
    count.min(0xFFFF_FFFF) as u32
}

impl Shows for FileMap {
    ghost told = { told_in };

    fn kind(&self) -> Kind {
        match self {
            FileMap::Wave(wave) => wave.kind,
            FileMap::Avi(_) => Kind::Avi,
            FileMap::Mov(_) => Kind::Mov,
        }
    }

    fn payload(&self) -> u64 {
        match self {
            FileMap::Wave(wave) => wave.sound.len,
            FileMap::Avi(avi) => len_of_movis(&avi.movis),
            FileMap::Mov(movie) => len_of(&movie.mdats),
        }
    }

    fn fields(&self) -> &Fields {
        match self {
            FileMap::Wave(wave) => &wave.fields,
            FileMap::Avi(avi) => &avi.fields,
            FileMap::Mov(movie) => &movie.fields,
        }
    }

    fn entries(&self) -> Option<u64> {
        match self {
            FileMap::Avi(avi) => Some(avi.entries),
            FileMap::Wave(_) | FileMap::Mov(_) => None,
        }
    }

    fn tracks(&self) -> &[Track] {
        match self {
            FileMap::Wave(_) | FileMap::Avi(_) => &[],
            FileMap::Mov(movie) => movie.tracks.as_slice(),
        }
    }

    fn mdats(&self) -> &[Span] {
        match self {
            FileMap::Wave(_) | FileMap::Avi(_) => &[],
            FileMap::Mov(movie) => movie.mdats.as_slice(),
        }
    }
}

impl FileMap {
    /// How many streams can have fields of their own.
    pub fn streams(&self) -> u32
        ensures { result ≡ streams_in self.now }
    {
        match self {
            FileMap::Avi(avi) => few(avi.streams.len()),
            FileMap::Wave(_) | FileMap::Mov(_) => 0,
        }
    }

    /// The range of the file whose checksum is told, where its kind has one.
    pub fn hashed(&self) -> Option<Span>
        ensures { result ≡ hashed_in self.now }
    {
        match self {
            FileMap::Wave(wave) => Some(wave.sound),
            FileMap::Avi(_) | FileMap::Mov(_) => None,
        }
    }
}
