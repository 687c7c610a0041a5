// Worked rows of places, and worked edits of whole movies.
ghost use Rattle.std.specs.Prelude.{◌≡◌, ◌≤◌, ◌+◌, length};
ghost use Rattle.mov_plan.specs.Frame.{IsSoundMoov};
ghost use Rattle.mov_plan.specs.Places.{Follow};

use crate::{Behind, MoovAt, Place, TableAt, Units, plan_movie, unit_cuts};
use me_disk::{MemoryDepot, Room, Run, SparseDepot};
use part_tree::{Bytes, FourCc, NoMemory, Plan, PlanFault, Segment, Span};
use qt_atoms::{AtomAt, SizeForm};
use std::alloc::Global;
use std::test::Fail;
use unit_plan::What;

// A place of one atom.
fn place(at: u64, next: u64, what: What) -> Place
    ensures at { result.at ≡ at }
    ensures next { result.next ≡ next }
{
    Place {
        at,
        next,
        parts: 1,
        what,
    }
}

// So many bytes of 7.
fn sevens(alloc: Global, count: usize) -> Result<What, NoMemory> {
    let mut bytes = Vec::new(alloc);
    for _ in 0..count {
        bytes.extend_from_slice(&[7])?;
    }
    Ok(What::Changes(Bytes::of(bytes)))
}

// The one span of a row in numbers: its place and length, how many bytes it has, and how many of the slot's it keeps; then
// whether the unit fits, the atoms and the bytes in `moov`.
fn told(units: &Units) -> (Option<(u64, u64, usize, u64)>, bool, u64, u64) {
    let cut = match units.cuts.as_slice() {
        [cut] => Some((
            cut.span.at,
            cut.span.len,
            cut.bytes.as_slice().len(),
            cut.keep,
        )),
        _ => None,
    };
    (cut, units.fits, units.parts, units.inner)
}

// User data at the end of `moov` with padding behind that; the same with bytes left in `moov`; and at the end of the file.
#[test]
fn slots_go_on_behind_moov(rt: HostRuntime) -> Result<(), Fail> {
    let alloc = rt.alloc();
    let row = [
        place(28, 130, What::Stays),
        place(130, 160, sevens(alloc, 34)?),
    ];
    let behind = Behind {
        goes_on: true,
        gap: 20,
        gaps: 1,
        last: false,
    };
    let units = unit_cuts(alloc, &row, 28, 160, behind)?;
    assert_eq!(rt; told(&units), (Some((130, 50, 42, 8)), true, 3, 136));
    let shut = Behind {
        goes_on: false,
        ..behind
    };
    let units = unit_cuts(alloc, &row, 28, 160, shut)?;
    assert_eq!(rt; told(&units), (Some((130, 30, 34, 0)), false, 3, 136));
    let last = Behind {
        last: true,
        ..behind
    };
    let units = unit_cuts(alloc, &row, 28, 160, last)?;
    assert_eq!(rt; told(&units), (Some((130, 50, 34, 0)), true, 2, 136));
    Ok(())
}

// Movies of two chunks of eight bytes: `ftyp`, `moov` with one track and a text, padding of 24 bytes, and `mdat`. The places of the
// chunks have four bytes in the one, and eight in the other.
const NARROW: &[u8] =
    b"\0\0\0\x14ftypqt  \0\0\0\0qt  \0\0\0\x88moov\0\0\0htrak\0\0\0`mdia\0\0\0Xminf\0\0\0Pstbl\0\0\0\x1Cstsc\0\0\0\0\0\0\0\x01\0\0\0\x01\0\0\0\x01\0\0\0\x01\0\0\0\x14stsz\0\0\0\0\0\0\0\x08\0\0\0\x02\0\0\0\x18stco\0\0\0\0\0\0\0\x02\0\0\0\xBC\0\0\0\xC4\0\0\0\x18udta\0\0\0\x10\xA9nam\0\x04\x15\xC7Reel\0\0\0\x18free\0\0\0\0\0\0\0\0\0\0\0\0\0\0\0\0\0\0\0\x18mdat\0\0\0\0\0\0\0\0\0\0\0\0\0\0\0\x01";

const WIDE: &[u8] =
    b"\0\0\0\x14ftypqt  \0\0\0\0qt  \0\0\0\x90moov\0\0\0ptrak\0\0\0hmdia\0\0\0`minf\0\0\0Xstbl\0\0\0\x1Cstsc\0\0\0\0\0\0\0\x01\0\0\0\x01\0\0\0\x01\0\0\0\x01\0\0\0\x14stsz\0\0\0\0\0\0\0\x08\0\0\0\x02\0\0\0 co64\0\0\0\0\0\0\0\x02\0\0\0\0\0\0\0\xC4\0\0\0\0\0\0\0\xCC\0\0\0\x18udta\0\0\0\x10\xA9nam\0\x04\x15\xC7Reel\0\0\0\x18free\0\0\0\0\0\0\0\0\0\0\0\0\0\0\0\0\0\0\0\x18mdat\0\0\0\0\0\0\0\0\0\0\0\0\0\0\0\x01";

// Where `moov` stands in such a movie, of which so many atoms don't stand in it.
fn moov_at(end: u64, others: u64) -> MoovAt
    requires order { 28 ≤ end }
    requires small { end ≤ 1000 }
    ensures sound { IsSoundMoov result }
    ensures from { result.from ≡ 28 }
    ensures end { result.end ≡ end }
    ensures len { result.len ≡ end + 48 }
{
    MoovAt {
        at: 20,
        form: SizeForm::Short,
        from: 28,
        end,
        left: 0,
        behind: Behind {
            goes_on: true,
            gap: 24,
            gaps: 1,
            last: false,
        },
        others,
        len: end + 48,
    }
}

// The plan that puts so many bytes of 7 in the place of the text.
fn planned(
    alloc: Global,
    file: &[u8],
    moov: &MoovAt,
    wide: bool,
    count: usize,
) -> Result<Result<Plan, PlanFault>, Fail>
    requires sound { IsSoundMoov moov.now }
    requires from { moov.now.from ≡ 28 }
    requires text { 52 ≤ moov.now.end }
    requires len { moov.now.len ≡ length file.now }
{
    let mut bytes = Vec::new(alloc);
    bytes.extend_from_slice(file)?;
    let room = Room {
        calls: 100,
        bytes: 1000,
    };
    let mut depot = match MemoryDepot::new(alloc, Some(bytes), None, room, Vec::new(alloc)) {
        Err(_) => return Err(Fail::from(NoMemory)),
        Ok(depot) => depot,
    };
    let tables = [TableAt {
        at: 124,
        wide,
        rows: 2,
    }];
    let at = moov.end - 24;
    let places = [
        place(28, at, What::Stays),
        place(at, moov.end, sevens(alloc, count)?),
    ];
    Ok(plan_movie(alloc, &mut depot, moov, &tables, &[], &places))
}

// What a plan puts together: the place and the length of each copy, the length of each of the bytes beside, and the place and the rows
// of each table.
fn pieces(alloc: Global, segments: &[Segment]) -> Result<Vec<(u64, u64)>, Fail> {
    let mut pieces = Vec::new(alloc);
    for segment in segments {
        let piece = match segment {
            Segment::Copy(span) => (span.at, span.len),
            Segment::Literal(bytes) => (0, bytes.as_slice().len() as u64),
            Segment::Table {
                form: _,
                from,
                rows,
            } => (*from, *rows),
        };
        pieces.push(piece)?;
    }
    Ok(pieces)
}

// 48 bytes fill the padding behind `moov` in place. With one more, all chunks move by a byte, in tables of both widths. And more atoms
// than a movie may have.
#[test]
fn plans_texts(rt: HostRuntime) -> Result<(), Fail> {
    let alloc = rt.alloc();
    match planned(alloc, NARROW, &moov_at(156, 3), false, 48)?? {
        Plan::Rewrite { .. } => return Err(Fail::from(NoMemory)),
        Plan::InPlace {
            old_len,
            new_len,
            patches,
        } => {
            assert_eq!(rt; (old_len, new_len), (204, 204));
            let mut found = Vec::new(alloc);
            for patch in patches.as_slice() {
                let bytes = patch.bytes.as_slice();
                found.push((patch.at, bytes.len(), bytes.last().copied()))?;
            }
            assert_eq!(rt;
                found.as_slice(),
                [(20, 4, Some(160)), (132, 48, Some(7))].as_slice()
            );
        }
    }
    match planned(alloc, NARROW, &moov_at(156, 3), false, 49)?? {
        Plan::InPlace { .. } => return Err(Fail::from(NoMemory)),
        Plan::Rewrite {
            new_len,
            moves,
            segments,
        } => {
            assert_eq!(rt; (new_len, moves.place(188)), (205, Some(189)));
            assert_eq!(rt;
                pieces(alloc, segments.as_slice())?.as_slice(),
                [(0, 20), (0, 4), (24, 100), (124, 2), (0, 49), (180, 24)].as_slice()
            );
        }
    }
    match planned(alloc, WIDE, &moov_at(164, 3), true, 49)?? {
        Plan::InPlace { .. } => return Err(Fail::from(NoMemory)),
        Plan::Rewrite {
            new_len,
            moves,
            segments,
        } => {
            assert_eq!(rt; (new_len, moves.place(196)), (213, Some(197)));
            assert_eq!(rt;
                pieces(alloc, segments.as_slice())?.as_slice(),
                [(0, 20), (0, 4), (24, 100), (124, 2), (0, 49), (188, 24)].as_slice()
            );
        }
    }
    let fault = match planned(alloc, NARROW, &moov_at(156, 65_535), false, 49)? {
        Err(fault) => Some(fault),
        Ok(_) => None,
    };
    let large = PlanFault::TooLarge {
        size: 65_537,
        limit: 65_536,
    };
    assert_eq!(rt; fault, Some(large));
    Ok(())
}

// The same without padding, with 4,300,000,000 zeros in `mdat`, where the second chunk stands near the last place of four bytes.
const LARGE: &[u8] =
    b"\0\0\0\x14ftypqt  \0\0\0\0qt  \0\0\0\x88moov\0\0\0htrak\0\0\0`mdia\0\0\0Xminf\0\0\0Pstbl\0\0\0\x1Cstsc\0\0\0\0\0\0\0\x01\0\0\0\x01\0\0\0\x01\0\0\0\x01\0\0\0\x14stsz\0\0\0\0\0\0\0\x08\0\0\0\x02\0\0\0\x18stco\0\0\0\0\0\0\0\x02\0\0\0\xAC\xFF\xFF\xFF\xFA\0\0\0\x18udta\0\0\0\x10\xA9nam\0\x04\x15\xC7Reel\0\0\0\x01mdat\0\0\0\x01\0L\xCB\x10";

// An atom with a short header that holds a table.
fn holder(kind: &[u8; 4], at: u64, next: u64) -> AtomAt
    requires { at + 8 ≤ next }
{
    AtomAt {
        kind: FourCc(*kind),
        at,
        body: Span {
            at: at + 8,
            len: next - at - 8,
        },
        form: SizeForm::Short,
        next,
    }
}

// The plan that puts so many bytes of 7 in the place of the text.
fn planned_large(alloc: Global, count: usize) -> Result<Result<Plan, PlanFault>, Fail> {
    let mut runs = Vec::new(alloc);
    let head = Vec::from_slice(alloc, LARGE)?;
    runs.push(Run::Bytes(head))?;
    runs.push(Run::Zero(4_300_000_000))?;
    let mut depot = SparseDepot::new(alloc, Some(runs))?;
    let moov = MoovAt {
        at: 20,
        form: SizeForm::Short,
        from: 28,
        end: 156,
        left: 0,
        behind: Behind {
            goes_on: true,
            gap: 0,
            gaps: 0,
            last: false,
        },
        others: 3,
        len: 4_300_000_172,
    };
    let tables = [TableAt {
        at: 124,
        wide: false,
        rows: 2,
    }];
    let holders = [
        holder(b"trak", 28, 132),
        holder(b"mdia", 36, 132),
        holder(b"minf", 44, 132),
        holder(b"stbl", 52, 132),
        holder(b"stco", 108, 132),
    ];
    let places = [
        place(28, 132, What::Stays),
        place(132, 156, sevens(alloc, count)?),
    ];
    Ok(plan_movie(alloc, &mut depot, &moov, &tables, &holders, &places))
}

// The new bytes of a plan, one after the other.
fn literals(alloc: Global, segments: &[Segment]) -> Result<Vec<u8>, Fail> {
    let mut all = Vec::new(alloc);
    for segment in segments {
        match segment {
            Segment::Literal(bytes) => all.extend_from_slice(bytes.as_slice())?,
            Segment::Copy(_) | Segment::Table { .. } => {}
        }
    }
    Ok(all)
}

// Six bytes more put a place past four bytes: the table and the atoms that hold it grow by eight, and all that stands behind `moov`
// moves by fourteen.
#[test]
fn widens_tables(rt: HostRuntime) -> Result<(), Fail> {
    let alloc = rt.alloc();
    match planned_large(alloc, 30)?? {
        Plan::InPlace { .. } => return Err(Fail::from(NoMemory)),
        Plan::Rewrite {
            new_len,
            moves,
            segments,
        } => {
            assert_eq!(rt; new_len, 4_300_000_186);
            assert_eq!(rt;
                (moves.place(172), moves.place(4_294_967_290)),
                (Some(186), Some(4_294_967_304))
            );
            assert_eq!(rt;
                pieces(alloc, segments.as_slice())?.as_slice(),
                [
                    (0, 20),
                    (0, 4),
                    (24, 4),
                    (0, 8),
                    (0, 8),
                    (0, 8),
                    (0, 8),
                    (60, 48),
                    (0, 8),
                    (116, 8),
                    (124, 2),
                    (0, 30),
                    (156, 4_300_000_016),
                ]
                .as_slice()
            );
            assert_eq!(rt;
                literals(alloc, segments.as_slice())?.as_slice(),
                b"\0\0\0\x96\0\0\0ptrak\0\0\0hmdia\0\0\0`minf\0\0\0Xstbl\0\0\0 co64\x07\x07\x07\x07\x07\x07\x07\x07\x07\x07\x07\x07\x07\x07\x07\x07\x07\x07\x07\x07\x07\x07\x07\x07\x07\x07\x07\x07\x07\x07".as_slice()
            );
        }
    }
    match planned_large(alloc, 24)?? {
        Plan::InPlace { .. } => Ok(()),
        Plan::Rewrite { .. } => Err(Fail::from(NoMemory)),
    }
}
