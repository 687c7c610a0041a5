// Files that are made, and edited at once.
ghost use Rattle.std.specs.Prelude.{◌≡◌, IfOk};
ghost use Rattle.me_disk.specs.Memory.{memory_disk};
ghost use Rattle.me_disk.specs.Sparse.{sparse_disk};
ghost use Rattle.metaedit_top.specs.Run.{OneImage};

use crate::files::MOVIE;
use crate::laid::{Laid, bytes_of};
use crate::rows::{Held, Row, is_row};
use crate::runs::{Ran, run_told};
use crate::sparse::{has_len, run_sparse, shows};
use me_disk::{FailAt, MemoryDepot, Room, Slot, SparseDepot};
use metaedit_top::{Outcome, Summary, code};
use part_tree::NoMemory;
use std::alloc::Global;
use std::process::Abort;
use std::test::Fail;

const ROOM: Room = Room {
    calls: 30,
    bytes: 400_000,
};

const MADE: &str = "made wave 1 bytes 289032\ndone changed in-place essence 288000\n";

const MINUTE: &str = "made wave 60 bytes 17281032\ndone changed in-place essence 17280000\n";

// The movie that is made of two samples, which has another name when it is edited.
const MADE_MOVIE: Laid<'static> = Laid {
    file: MOVIE,
    at: 152,
    bytes: b"Made",
};

// The AVI file that is made of three frames, when it is edited.
const MADE_FRAMES: &[u8] =
    b"RIFFZ\x01\x00\x00AVI LIST\xc0\x00\x00\x00hdrlavih8\x00\x00\x00\x00\x00\x00\x00\x00\x00\x00\x00\x00\x00\x00\x00\x00\x00\x00\x00\x00\x00\x00\x00\x00\x00\x00\x00\x00\x00\x00\x00\x00\x00\x00\x00\x00\x00\x00\x00\x00\x00\x00\x00\x00\x00\x00\x00\x00\x00\x00\x00\x00\x00\x00\x00\x00\x00\x00\x00LISTt\x00\x00\x00strlstrh8\x00\x00\x00vids\x00\x00\x00\x00\x00\x00\x00\x00\x00\x00\x00\x00\x00\x00\x00\x00\x00\x00\x00\x00\x00\x00\x00\x00\x00\x00\x00\x00\x00\x00\x00\x00\x00\x00\x00\x00\x00\x00\x00\x00\x00\x00\x00\x00\x00\x00\x00\x00\x00\x00\x00\x00strf(\x00\x00\x00\x00\x00\x00\x00\x00\x00\x00\x00\x00\x00\x00\x00\x00\x00\x00\x00\x00\x00\x00\x00\x00\x00\x00\x00\x00\x00\x00\x00\x00\x00\x00\x00\x00\x00\x00\x00\x00\x00\x00\x00LIST\x12\x00\x00\x00INFOINAM\x05\x00\x00\x00Made\x00\x00LIST4\x00\x00\x00movi00db\x08\x00\x00\x00\x00\x00\x00\x00\x00\x00\x00\x0000db\x08\x00\x00\x00\x01\x00\x00\x00\x00\x00\x00\x0000db\x08\x00\x00\x00\x02\x00\x00\x00\x00\x00\x00\x00idx10\x00\x00\x0000db\x10\x00\x00\x00\x04\x00\x00\x00\x08\x00\x00\x0000db\x10\x00\x00\x00\x14\x00\x00\x00\x08\x00\x00\x0000db\x10\x00\x00\x00$\x00\x00\x00\x08\x00\x00\x00";

// A depot without a file, of which these calls fail.
fn no_file(alloc: Global, failing: &[FailAt]) -> Result<MemoryDepot, NoMemory>
    ensures { IfOk result (λ d. OneImage (memory_disk d)) }
{
    MemoryDepot::new(alloc, None, None, ROOM, failing.to_vec(alloc)?)
}

// A depot without a file beside whose place a journal stands.
fn only_journal(alloc: Global, journal: &[u8]) -> Result<MemoryDepot, NoMemory>
    ensures { IfOk result (λ d. OneImage (memory_disk d)) }
{
    let journal = journal.to_vec(alloc)?;
    MemoryDepot::new(alloc, None, Some(journal), ROOM, Vec::new(alloc))
}

// A depot for a file of which most bytes are 0.
fn no_sparse_file(alloc: Global) -> Result<SparseDepot, NoMemory>
    ensures { IfOk result (λ d. OneImage (sparse_disk d)) }
{
    SparseDepot::new(alloc, None)
}

// Makes one second of sound.
fn make_second(alloc: Global, depot: &mut MemoryDepot) -> Result<Ran, NoMemory> {
    run_told(alloc, &["make", "t.wav", "wave", "1"], depot)
}

// Whether the file is one second of sound whose title was set.
fn is_second(file: &[u8]) -> bool {
    file.len() == 289_032 && &file[706..720] == b"INAM\x05\0\0\0Made\0\0".as_slice()
}

#[test]
fn a_second_of_sound_is_made_and_edited(rt: HostRuntime) -> Result<(), Fail> {
    let mut depot = no_file(rt.alloc(), &[])?;
    let ran = make_second(rt.alloc(), &mut depot)?;
    let summary = Summary {
        changed: true,
        in_place: true,
        payload: 288_000,
        findings: 0,
    };
    assert!(rt; ran.outcome == Outcome::Done(summary));
    assert!(rt; ran.out.written() == MADE.as_bytes());
    let file = depot.content(Slot::Main).expect(&rt, "a file");
    assert!(rt; is_second(file));
    Ok(())
}

#[test]
fn a_minute_of_sound_is_made_and_edited(rt: HostRuntime) -> Result<(), Fail> {
    let mut depot = no_sparse_file(rt.alloc())?;
    let ran = run_sparse(rt.alloc(), &["make", "t.wav", "wave", "60"], &mut depot)?;
    assert!(rt; ran.out.written() == MINUTE.as_bytes());
    assert!(rt; has_len(&mut depot, 17_281_032));
    assert!(rt; shows(&mut depot, 706, b"INAM\x05\0\0\0Made\0\0"));
    assert!(rt; shows(&mut depot, 16_993_032, b"\x3b\0\0\0"));
    Ok(())
}

const HOUR: &str = "made wave 3600 bytes 1036801032\ndone changed in-place essence 1036800000\n";

// A file of an hour is edited in place, where its `bext` has room, and else by a new file.
#[test]
fn an_hour_of_sound_is_made_and_edited(rt: HostRuntime) -> Result<(), Fail> {
    let mut depot = no_sparse_file(rt.alloc())?;
    let ran = run_sparse(rt.alloc(), &["make", "t.wav", "wave", "3600"], &mut depot)?;
    assert!(rt; ran.out.written() == HOUR.as_bytes());
    assert!(rt; has_len(&mut depot, 1_036_801_032));
    assert!(rt; shows(&mut depot, 1_036_513_032, b"\x0f\x0e\0\0"));
    let made = depot.written();
    let ran = run_sparse(
        rt.alloc(),
        &["set", "t.wav", "Originator=Library"],
        &mut depot,
    )?;
    assert!(rt; ran.out.written() == b"done changed in-place essence 1036800000\n".as_slice());
    assert!(rt; depot.written().checked_sub(made) == Some(869));
    assert!(rt; has_len(&mut depot, 1_036_801_032));
    assert!(rt; shows(&mut depot, 12, b"bext\x77\x02\0\0Reel 3600\0"));
    assert!(rt; shows(&mut depot, 276, b"Library\0"));
    let history = "CodingHistory=A=PCM,F=48000,W=24,M=stereo\r\nA=PCM,F=48000,W=24,M=stereo\r\n";
    let ran = run_sparse(rt.alloc(), &["set", "t.wav", history], &mut depot)?;
    assert!(rt; ran.out.written() == b"done changed rewrite essence 1036800000\n".as_slice());
    assert!(rt; depot.written().checked_sub(made) == Some(869 + 1_036_801_060));
    assert!(rt; has_len(&mut depot, 1_036_801_060));
    assert!(rt; shows(&mut depot, 680, b"fmt \x10\0\0\0"));
    assert!(rt; shows(&mut depot, 1_036_513_060, b"\x0f\x0e\0\0"));
    Ok(())
}

const PICTURES: &str = "made avi 100000 bytes 3200232\ndone changed rewrite essence 1600000\n";

#[test]
fn many_pictures_are_made_and_edited(rt: HostRuntime) -> Result<(), Fail> {
    let mut depot = no_sparse_file(rt.alloc())?;
    let ran = run_sparse(rt.alloc(), &["make", "a.avi", "avi", "100000"], &mut depot)?;
    assert!(rt; ran.out.written() == PICTURES.as_bytes());
    assert!(rt; depot.written() == 3_200_232 + 3_200_258);
    assert!(rt; has_len(&mut depot, 3_200_258));
    assert!(rt;
        shows(
            &mut depot,
            212,
            b"LIST\x12\0\0\0INFOINAM\x05\0\0\0Made\0\0LIST"
        )
    );
    assert!(rt;
        shows(
            &mut depot,
            1_600_234,
            b"00db\x08\0\0\0\x9f\x86\x01\0\0\0\0\0idx1"
        )
    );
    assert!(rt;
        shows(
            &mut depot,
            3_200_242,
            b"00db\x10\0\0\0\xf4\x69\x18\0\x08\0\0\0"
        )
    );
    Ok(())
}

// The run makes this file, and tells so.
fn check_made<'a>(
    rt: &(impl Abort + AllocGlobal),
    words: &'a [&'a str],
    printed: &'a str,
    file: &'a [u8],
    written: u64,
) -> Result<(), Fail> {
    let before = Held {
        main: None,
        journal: None,
    };
    let row = Row::leaving(words, file, printed, file, written);
    assert!(rt; is_row(rt.alloc(), &Row { before, ..row })?);
    Ok(())
}

#[test]
fn movies_and_avi_files_are_made_and_edited(rt: HostRuntime) -> Result<(), Fail> {
    let movie = bytes_of(rt.alloc(), &MADE_MOVIE)?;
    let printed = "made mov 2 bytes 204\ndone changed in-place essence 16\n";
    check_made(&rt, &["make", "f.wav", "mov", "2"], printed, &movie, 305)?;
    let printed = "made avi 3 bytes 328\ndone changed rewrite essence 48\n";
    check_made(
        &rt,
        &["make", "f.wav", "avi", "3"],
        printed,
        MADE_FRAMES,
        682,
    )
}

#[test]
fn no_file_is_made_beside_a_journal(rt: HostRuntime) -> Result<(), Fail> {
    let mut depot = only_journal(rt.alloc(), b"MEJ1")?;
    let ran = make_second(rt.alloc(), &mut depot)?;
    assert!(rt; ran.outcome == Outcome::JournalDamaged { at: 4 });
    assert!(rt; depot.content(Slot::Main).is_none());
    Ok(())
}

// Making one second of sound, where this call of the device fails undone.
fn make_failing(alloc: Global, call: u64) -> Result<Ran, NoMemory> {
    let mut depot = no_file(alloc, &[FailAt { call, done: false }])?;
    make_second(alloc, &mut depot)
}

// Each call of the device fails in turn, up to the first that isn't made.
#[test]
fn a_file_that_cannot_be_made_is_told(rt: HostRuntime) -> Result<(), Fail> {
    for call in 1..30 {
        let ran = make_failing(rt.alloc(), call)?;
        if code(&ran.outcome) == 0 {
            assert!(rt; 15 < call);
            return Ok(());
        }
        assert!(rt; ran.outcome == Outcome::DepotFault { faults: 1 });
        assert!(rt; ran.out.written().is_empty());
    }
    assert!(rt; false);
    Ok(())
}
