// Files and journals whose sizes, counts and places are made to mislead.
use crate::files::{FORMS, JOURNAL, LARGE, LOUD_JOURNAL, MOVIE, PLAIN, with_bext};
use crate::laid::{Laid, bytes_of};
use crate::runs::{depot_of, holds, run_told};
use me_disk::Depot;
use metaedit_top::line_of;
use part_tree::NoMemory;
use std::alloc::Global;
use std::process::Abort;
use std::test::Fail;

// The RF64 file with a chunk `abcd` whose size is to stand in a row that there is not.
const ROWLESS: &[u8] =
    b"RF64\xff\xff\xff\xffWAVEds64\x1c\x00\x00\x00T\x00\x00\x00\x00\x00\x00\x00\x04\x00\x00\x00\x00\x00\x00\x00\x02\x00\x00\x00\x00\x00\x00\x00\x00\x00\x00\x00abcd\xff\xff\xff\xfffmt \x10\x00\x00\x00\x01\x00\x01\x00D\xac\x00\x00\x88X\x01\x00\x02\x00\x10\x00data\xff\xff\xff\xff\x01\x02\x03\x04";

// How many calls of its device a refused run may make.
const FEW: u64 = 40;

// Bytes that are refused with this line.
#[derive(Clone, Copy)]
struct Hostile<'a> {
    laid: Laid<'a>,
    line: &'a str,
}

// The bytes in which these stand at `at`.
fn told_as<'a>(file: &'a [u8], at: usize, bytes: &'a [u8], line: &'a str) -> Hostile<'a> {
    let laid = Laid { file, at, bytes };
    Hostile { laid, line }
}

// Whether a run is refused with this line within few calls of the device, prints and writes nothing, and leaves all as it is.
fn is_refused(
    alloc: Global,
    words: &[&str],
    main: &[u8],
    journal: Option<&[u8]>,
    line: &str,
) -> Result<bool, NoMemory> {
    let mut depot = depot_of(alloc, Some(main), journal, &[])?;
    depot.stop_after(FEW);
    let ran = run_told(alloc, words, &mut depot)?;
    let told = line_of(alloc, &ran.outcome)?;
    Ok(
        told.as_slice() == line.as_bytes()
            && ran.out.written().is_empty()
            && depot.written() == 0
            && holds(&depot, Some(main), journal),
    )
}

// Whether the file is refused however it is to be used.
fn refuses(
    alloc: Global,
    main: &[u8],
    journal: Option<&[u8]>,
    line: &str,
) -> Result<bool, NoMemory> {
    let commands: [&[&str]; 4] = [
        &["show", "f.wav"],
        &["set", "f.wav", "INAM=Hi"],
        &["md5", "f.wav"],
        &["validate", "f.wav"],
    ];
    for words in commands {
        if !is_refused(alloc, words, main, journal, line)? {
            return Ok(false);
        }
    }
    Ok(true)
}

// Each file is refused as its row says.
fn check(rt: &(impl Abort + AllocGlobal), rows: &[Hostile<'_>]) -> Result<(), Fail> {
    for row in rows {
        let file = bytes_of(rt.alloc(), &row.laid)?;
        assert!(rt; refuses(rt.alloc(), &file, None, row.line)?);
    }
    Ok(())
}

// The file beside each journal is refused as its row says.
fn check_beside(
    rt: &(impl Abort + AllocGlobal),
    file: &[u8],
    rows: &[Hostile<'_>],
) -> Result<(), Fail> {
    for row in rows {
        let journal = bytes_of(rt.alloc(), &row.laid)?;
        assert!(rt; refuses(rt.alloc(), file, Some(&journal), row.line)?);
    }
    Ok(())
}

#[test]
fn hostile_wave_files_are_refused(rt: HostRuntime) -> Result<(), Fail> {
    let rows = [
        told_as(
            PLAIN,
            16,
            b"\xff\xff\xff\xff",
            "refused 5 NotSupported Truncated 12\n",
        ),
        told_as(PLAIN, 4, b"\x03", "refused 5 NotSupported Truncated 0\n"),
        told_as(PLAIN, 4, b"\x29", "refused 5 NotSupported Truncated 0\n"),
        told_as(PLAIN, 4, b"\x27", "refused 5 NotSupported Truncated 36\n"),
        told_as(
            LARGE,
            44,
            b"\xff\xff\xff\xff",
            "refused 5 NotSupported ShortDs64 28\n",
        ),
        told_as(ROWLESS, 0, b"", "refused 5 NotSupported RowMissing abcd\n"),
    ];
    check(&rt, &rows)
}

#[test]
fn hostile_avi_files_are_refused(rt: HostRuntime) -> Result<(), Fail> {
    let line = "refused 5 NotSupported IndexOverlap 320\n";
    let rows = [
        told_as(FORMS, 352, b"\x18\x00\x00\x00\x08\x00\x00\x00\x1c", line),
        told_as(FORMS, 260, b"\x40", line),
    ];
    check(&rt, &rows)
}

#[test]
fn hostile_movies_are_refused(rt: HostRuntime) -> Result<(), Fail> {
    let rows = [
        told_as(MOVIE, 23, b"\x07", "refused 5 NotSupported SizeSmall 20\n"),
        told_as(
            MOVIE,
            120,
            b"\xff\xff\xff\xff",
            "refused 5 NotSupported TableShort 108\n",
        ),
        told_as(
            MOVIE,
            127,
            b"\xb4",
            "refused 5 NotSupported ChunkAstray 1 1\n",
        ),
    ];
    check(&rt, &rows)
}

#[test]
fn hostile_journals_are_refused(rt: HostRuntime) -> Result<(), Fail> {
    let mut longer = JOURNAL.to_vec(rt.alloc())?;
    longer.push(0)?;
    let rows = [
        told_as(
            JOURNAL,
            20,
            b"\x01\x00\x01\x00",
            "refused 4 JournalDamaged 20\n",
        ),
        told_as(JOURNAL, 40, b"\x07", "refused 4 JournalDamaged 40\n"),
        told_as(&longer, 0, b"", "refused 4 JournalDamaged 76\n"),
    ];
    check_beside(&rt, PLAIN, &rows)?;
    let bext = with_bext(rt.alloc(), 0, &[])?;
    let row = told_as(LOUD_JOURNAL, 36, b"\x02", "refused 4 JournalDamaged 24\n");
    check_beside(&rt, &bext, &[row])
}
