// Worked tracks: their chunks, and their samples that lie in an `mdat`.
ghost use Rattle.std.specs.Prelude.{◌+◌, ◌<◌, ◌^◌, IfSome};

use crate::{TrackCounts, count_track};
use me_disk::{Run, SparseDepot};
use part_tree::{Span, Track};
use std::alloc::Global;
use std::test::Fail;

// Two `mdat` bodies of 8 bytes at 0 and 8, `stsc` (1 sample in each chunk from the first on) at 16, `stsz` (8 bytes each, 3
// samples) at 36, `stsz` (sizes 3, 5 and 9) at 48, `stco` (places 0, 8 and 12) at 72, `stsc` with 2 samples in each chunk at 92.
const FILE: [u8; 112] =
    *b"ABCDEFGHabcdefgh\0\0\0\0\0\0\0\x01\0\0\0\x01\0\0\0\x01\0\0\0\x01\0\0\0\0\0\0\0\x08\0\0\0\x03\0\0\0\0\0\0\0\0\0\0\0\x03\0\0\0\x03\0\0\0\x05\0\0\0\x09\0\0\0\0\0\0\0\x03\0\0\0\0\0\0\0\x08\0\0\0\x0C\0\0\0\0\0\0\0\x01\0\0\0\x01\0\0\0\x02\0\0\0\x01";

const MDATS: [Span; 2] = [Span { at: 0, len: 8 }, Span { at: 8, len: 8 }];

const PLACES: Span = Span { at: 72, len: 20 };

const ONE_EACH: (u16, u16) = (16, 20);

const TWO_EACH: (u16, u16) = (92, 20);

const SAME: (u16, u16) = (36, 12);

const SIZES: (u16, u16) = (48, 24);

const NONE: (u16, u16) = (0, 0);

// A table at a place, of so many bytes; none of no bytes.
fn table(span: (u16, u16)) -> Option<Span>
    ensures { IfSome result (λ s. s.at + s.len < 2 ^ 63) }
{
    let (at, len) = span;
    if len == 0 {
        return None;
    }
    Some(Span {
        at: u64::from(at),
        len: u64::from(len),
    })
}

fn counts_of(alloc: Global, runs: (u16, u16), sizes: (u16, u16)) -> Result<TrackCounts, Fail> {
    let mut runs_of_file = Vec::new(alloc);
    runs_of_file.push(Run::Bytes(FILE.to_vec(alloc)?))?;
    let mut depot = SparseDepot::new(alloc, Some(runs_of_file))?;
    let track = Track {
        chunks: PLACES,
        wide: false,
        stsc: table(runs),
        stsz: table(sizes),
    };
    Ok(count_track(&mut depot, &track, MDATS.as_slice())?)
}

#[test]
fn samples_are_counted(rt: HostRuntime) -> Result<(), Fail> {
    let rows = [
        // 8, 8 and 8 bytes, of which the last passes the second body, or the second passes the first
        (ONE_EACH, SAME, 2),
        (TWO_EACH, SAME, 2),
        // 3 bytes; 5 bytes; 9 bytes, for which there is no room
        (ONE_EACH, SIZES, 2),
        // 3 and 5 bytes in the first body; 9 bytes in the second
        (TWO_EACH, SIZES, 2),
        (NONE, SIZES, 0),
        (ONE_EACH, NONE, 0),
        // a table that is too short for its rows
        (ONE_EACH, (48, 23), 0),
    ];
    for (runs, sizes, samples) in rows.iter() {
        let counts = counts_of(rt.alloc(), *runs, *sizes)?;
        assert_eq!(rt; counts.chunks, 3);
        assert_eq!(rt; counts.samples, *samples);
    }
    Ok(())
}
