// Worked rows of places, in numbers.
ghost use Rattle.std.specs.Prelude.{◌≡◌, IfOk};

use crate::{CutAt, Place, UnitCuts, What, new_len, plan_of, size_cut, unit_cuts};
use part_tree::{Bytes, NoMemory, Plan, Segment, Span};
use std::alloc::Global;
use std::test::Fail;

// A chunk of one part that stays.
fn stays(at: u64, next: u64) -> Place
    ensures at { result.at ≡ at }
    ensures next { result.next ≡ next }
{
    Place {
        at,
        next,
        lacks_pad: false,
        parts: 1,
        what: What::Stays,
    }
}

// The same without its pad.
fn lacks_pad(at: u64, next: u64) -> Place
    ensures at { result.at ≡ at }
    ensures next { result.next ≡ next }
{
    Place {
        at,
        next,
        lacks_pad: true,
        parts: 1,
        what: What::Stays,
    }
}

// Padding.
fn pads(at: u64, next: u64) -> Place
    ensures at { result.at ≡ at }
    ensures next { result.next ≡ next }
{
    Place {
        at,
        next,
        lacks_pad: false,
        parts: 1,
        what: What::Pads,
    }
}

// So many bytes of 7, of so many parts.
fn sevens(alloc: Global, at: u64, next: u64, count: usize, parts: u64) -> Result<Place, NoMemory>
    ensures at { IfOk result (λ p. p.at ≡ at) }
    ensures next { IfOk result (λ p. p.next ≡ next) }
{
    let mut bytes = Vec::new(alloc);
    for _ in 0..count {
        bytes.extend_from_slice(&[7])?;
    }
    Ok(Place {
        at,
        next,
        lacks_pad: false,
        parts,
        what: What::Changes(Bytes::of(bytes)),
    })
}

// The one span of a row in numbers: its place and length, its first byte and how many it has, and how many of the slot's it
// keeps; then whether its unit fits, and the parts of the row.
fn told(units: &UnitCuts) -> (Option<(u64, u64, Option<u8>, usize, u64)>, bool, u64) {
    let cut = match units.cuts.as_slice() {
        [cut] => {
            let bytes = cut.bytes.as_slice();
            Some((
                cut.span.at,
                cut.span.len,
                bytes.first().copied(),
                bytes.len(),
                cut.keep,
            ))
        }
        _ => None,
    };
    (cut, units.fits, units.parts)
}

// A new list of 24 bytes at the end of a file; a chunk before it that lacks its pad; and a list that grows there.
#[test]
fn units_at_the_end(rt: HostRuntime) -> Result<(), Fail> {
    let alloc = rt.alloc();
    let new = [stays(12, 36), stays(36, 48), sevens(alloc, 48, 48, 24, 2)?];
    let units = unit_cuts(alloc, &new, 12, 48, true)?;
    assert_eq!(rt; told(&units), (Some((48, 0, Some(7), 24, 0)), true, 4));
    let odd = [
        stays(12, 36),
        lacks_pad(36, 47),
        sevens(alloc, 47, 47, 24, 2)?,
    ];
    let units = unit_cuts(alloc, &odd, 12, 47, true)?;
    assert_eq!(rt; told(&units), (Some((47, 0, Some(0), 25, 0)), true, 4));
    let more = [stays(12, 36), stays(36, 48), sevens(alloc, 48, 80, 46, 4)?];
    let units = unit_cuts(alloc, &more, 12, 80, true)?;
    assert_eq!(rt; told(&units), (Some((48, 32, Some(7), 46, 0)), true, 6));
    Ok(())
}

// A list with padding behind it; with 17 and with 6 bytes left, which no padding fills; and a chunk that is taken away.
#[test]
fn units_before_others(rt: HostRuntime) -> Result<(), Fail> {
    let alloc = rt.alloc();
    let roomy = [
        stays(48, 72),
        sevens(alloc, 72, 96, 26, 2)?,
        pads(96, 1_120),
        stays(1_120, 5_000_001_128),
    ];
    let units = unit_cuts(alloc, &roomy, 48, 5_000_001_128, false)?;
    assert_eq!(rt;
        told(&units),
        (Some((72, 1_048, Some(7), 34, 1_014)), true, 5)
    );
    let odd = [
        sevens(alloc, 72, 96, 24, 2)?,
        pads(96, 113),
        stays(113, 121),
    ];
    let units = unit_cuts(alloc, &odd, 72, 121, false)?;
    assert_eq!(rt; told(&units), (Some((72, 41, Some(7), 32, 10)), false, 4));
    let tight = [
        sevens(alloc, 72, 96, 26, 2)?,
        pads(96, 104),
        stays(104, 112),
    ];
    let units = unit_cuts(alloc, &tight, 72, 112, false)?;
    assert_eq!(rt; told(&units), (Some((72, 32, Some(7), 34, 0)), false, 4));
    let less = [sevens(alloc, 72, 96, 0, 0)?, stays(96, 104), pads(104, 112)];
    let units = unit_cuts(alloc, &less, 72, 112, true)?;
    assert_eq!(rt; told(&units), (Some((72, 24, Some(0x4A), 8, 16)), true, 3));
    Ok(())
}

// A file of 48 bytes gets two bytes at its end, and its form's size is set.
#[test]
fn plans_in_place(rt: HostRuntime) -> Result<(), Fail> {
    let alloc = rt.alloc();
    let more = CutAt {
        span: Span { at: 48, len: 0 },
        bytes: Bytes::new(alloc, b"Hi")?,
        keep: 0,
    };
    let cuts = [size_cut(alloc, false, 42)?, more];
    assert_eq!(rt; new_len(&cuts, 48), Some(50));
    match plan_of(alloc, &cuts, true, 48, 50)? {
        Plan::Rewrite { .. } => Err(Fail::from(NoMemory)),
        Plan::InPlace {
            old_len,
            new_len,
            patches,
        } => {
            assert_eq!(rt; (old_len, new_len), (48, 50));
            let mut found = Vec::new(alloc);
            for patch in patches.as_slice() {
                found.push((patch.at, patch.bytes.as_slice().len()))?;
            }
            assert_eq!(rt; found.as_slice(), [(4, 4), (48, 2)].as_slice());
            Ok(())
        }
    }
}

#[test]
fn plans_a_new_file(rt: HostRuntime) -> Result<(), Fail> {
    let alloc = rt.alloc();
    let more = CutAt {
        span: Span { at: 48, len: 0 },
        bytes: Bytes::new(alloc, b"Hi")?,
        keep: 0,
    };
    let cuts = [size_cut(alloc, true, 5_000_001_120)?, more];
    match plan_of(alloc, &cuts, false, 48, 50)? {
        Plan::InPlace { .. } => Err(Fail::from(NoMemory)),
        Plan::Rewrite {
            new_len,
            segments,
            ..
        } => {
            assert_eq!(rt; new_len, 50);
            let mut found = Vec::new(alloc);
            for segment in segments.as_slice() {
                match segment {
                    Segment::Copy(span) => found.push((span.at, span.len, None))?,
                    Segment::Literal(bytes) => found.push((
                        0,
                        0,
                        bytes.as_slice().first().copied(),
                    ))?,
                    Segment::Table { .. } => return Err(Fail::from(NoMemory)),
                }
            }
            assert_eq!(rt;
                found.as_slice(),
                [
                    (0, 20, None),
                    (0, 0, Some(0x60)),
                    (28, 20, None),
                    (0, 0, Some(0x48))
                ]
                .as_slice()
            );
            Ok(())
        }
    }
}
