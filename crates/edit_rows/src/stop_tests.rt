// Worked edits that are stopped, that crash, and of which a call fails, and what is left of their files.
use crate::files::{
    FRAMES, FRAMES_TITLED, MOVIE, MOVIE_NAMED, PLAIN, TITLED, described, with_bext,
};
use crate::stops::{Edit, calls_of, survives, survives_fault, survives_twice};
use me_disk::FailAt;
use std::process::Abort;
use std::test::Fail;

// From the fourth of the eight calls of an edit in place on the journal stands beside the file.
const TITLE: Edit<'static> = Edit {
    words: &["set", "f.wav", "INAM=Hi"],
    before: PLAIN,
    after: TITLED,
    behind: 4,
    bytes: 28,
};

const NAME: Edit<'static> = Edit {
    words: &["set", "f.wav", "@nam=abcdefghijklmnopqrstuvwxyz01"],
    before: MOVIE,
    after: MOVIE_NAMED,
    behind: 4,
    bytes: 52,
};

// The last call of a rewrite puts the new file in place of the old one.
const FRAMES_TITLE: Edit<'static> = Edit {
    words: &["set", "f.wav", "INAM=Hi"],
    before: FRAMES,
    after: FRAMES_TITLED,
    behind: 0,
    bytes: 320,
};

// Stopped after each of its calls, and then each crash, the edit is recovered as the old file or the new one.
fn check_stops(rt: &(impl Abort + AllocGlobal), edit: &Edit<'_>) -> Result<(), Fail> {
    let calls = calls_of(rt.alloc(), edit)?;
    assert!(rt; 8 < calls && calls < 100);
    for n in 0..calls + 1 {
        for k in 0..edit.crashes() {
            assert!(rt; survives(rt.alloc(), edit, n, k, edit.left(calls, n))?);
        }
    }
    Ok(())
}

#[test]
fn an_edit_in_place_stopped_anywhere_is_recovered(rt: HostRuntime) -> Result<(), Fail> {
    check_stops(&rt, &TITLE)?;
    check_stops(&rt, &NAME)
}

#[test]
fn a_rewrite_stopped_anywhere_leaves_the_old_file_or_the_new(rt: HostRuntime) -> Result<(), Fail> {
    check_stops(&rt, &FRAMES_TITLE)?;
    let item = described(rt.alloc(), 256)?;
    let new = with_bext(rt.alloc(), 0, &[b'x'; 256])?;
    let words = ["set", "f.wav", item.as_str()];
    let edit = Edit {
        words: &words,
        before: PLAIN,
        after: &new,
        behind: 0,
        bytes: 658,
    };
    check_stops(&rt, &edit)
}

// The k-th crash after n calls of the edit is recovered, also where the recovery is stopped after each of its calls, and
// crashes. It makes fewer than twenty.
fn check_twice(
    rt: &(impl Abort + AllocGlobal),
    edit: &Edit<'_>,
    first: (u64, u64),
    want: &[u8],
) -> Result<(), Fail> {
    for m in 0..20 {
        for again in 0..3 {
            assert!(rt; survives_twice(rt.alloc(), edit, first, (m, again), want)?);
        }
    }
    Ok(())
}

// The same of the last nine stops of the edit, and so many crashes of each.
fn check_recoveries(
    rt: &(impl Abort + AllocGlobal),
    edit: &Edit<'_>,
    crashes: u64,
) -> Result<(), Fail> {
    let calls = calls_of(rt.alloc(), edit)?;
    assert!(rt; 8 < calls && calls < 100);
    for n in calls - 8..calls + 1 {
        for k in 0..crashes {
            check_twice(rt, edit, (n, k), edit.left(calls, n))?;
        }
    }
    Ok(())
}

#[test]
fn a_stopped_recovery_is_taken_up_again(rt: HostRuntime) -> Result<(), Fail> {
    for edit in [TITLE, NAME] {
        check_recoveries(&rt, &edit, edit.crashes())?;
    }
    check_recoveries(&rt, &FRAMES_TITLE, 3)
}

// Within each of its last calls a recovery leaves any number of bytes.
#[test]
fn a_torn_recovery_is_taken_up_again(rt: HostRuntime) -> Result<(), Fail> {
    for edit in [TITLE, NAME] {
        let calls = calls_of(rt.alloc(), &edit)?;
        assert!(rt; 4 < calls);
        for m in 0..20 {
            for again in 0..edit.crashes() {
                let first = (calls - 4, 0);
                assert!(rt; survives_twice(rt.alloc(), &edit, first, (m, again), edit.after)?);
            }
        }
    }
    Ok(())
}

// Whichever call fails, done or undone, one fault is told, and each crash is recovered as the old file or the new one.
fn check_faults(
    rt: &(impl Abort + AllocGlobal),
    edit: &Edit<'_>,
    call: u64,
    done: bool,
    want: &[u8],
) -> Result<(), Fail> {
    for k in 0..edit.crashes() {
        assert!(rt; survives_fault(rt.alloc(), edit, FailAt { call, done }, k, want)?);
    }
    Ok(())
}

#[test]
fn each_call_of_an_edit_that_fails_once_is_told(rt: HostRuntime) -> Result<(), Fail> {
    for edit in [TITLE, NAME, FRAMES_TITLE] {
        let calls = calls_of(rt.alloc(), &edit)?;
        assert!(rt; 8 < calls && calls < 100);
        for call in 1..calls + 1 {
            check_faults(&rt, &edit, call, false, edit.left(calls, call - 1))?;
            check_faults(&rt, &edit, call, true, edit.left(calls, call))?;
        }
    }
    Ok(())
}
