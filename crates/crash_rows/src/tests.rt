// A worked edit, stopped and recovered.
use crate::bytes::{file_bytes, journal_bytes, old_journal_bytes, titled};
use crate::runs::{
    broken_off, check_of, depot_with, failing_edit, holds_alone, is_recovered, recovery_of,
    reopened, spell_in_place, stopped_edit, stopped_recovery, stopped_rewrite, whole_rewrite,
};
use crate::tables::{more_bytes, stopped_tables, tables_file};
use edit_journal::{JournalFault, JournalHead};
use me_disk::{Depot, FailAt, Pick};
use part_tree::NoMemory;
use recovery::{RecoverFault, Recovered};
use std::alloc::Global;
use std::process::Abort;
use std::test::Fail;

// The k-th way in which a crash may leave the writes: none of them, all, or so many bytes.
fn pick_of(k: u64) -> Pick {
    match k {
        0 => Pick::Before,
        1 => Pick::After,
        _ => Pick::Torn(k - 2),
    }
}

// The file before the edit, or after it.
fn file_or_titled(alloc: Global, old: bool) -> Result<Vec<u8>, NoMemory> {
    if old {
        file_bytes(alloc)
    } else {
        Ok(titled().to_vec(alloc)?)
    }
}

// The journal of this version.
fn journal_of(alloc: Global, version: u8) -> Result<Vec<u8>, NoMemory> {
    if version == 1 {
        old_journal_bytes(alloc)
    } else {
        journal_bytes(alloc)
    }
}

// The first bytes of the journal.
fn cut_journal(alloc: Global, version: u8, len: usize) -> Result<Vec<u8>, NoMemory> {
    let mut journal = journal_of(alloc, version)?;
    journal.truncate(len);
    Ok(journal)
}

// The journal with another byte at this place.
fn changed_journal(alloc: Global, version: u8, at: usize, byte: u8) -> Result<Vec<u8>, NoMemory> {
    let mut journal = journal_of(alloc, version)?;
    if let Some(place) = journal.get_mut(at) {
        *place = byte;
    }
    Ok(journal)
}

// The k-th crash after n calls of the edit is recovered, also where the recovery is stopped after each of its own calls.
fn check_stop(rt: &impl Abort, alloc: Global, n: u64, k: u64) -> Result<(), NoMemory> {
    let want = file_or_titled(alloc, n < 4)?;
    let depot = stopped_edit(alloc, n, pick_of(k))?;
    assert!(rt; is_recovered(depot, &want));
    for m in 0..20 {
        for again in 0..4 {
            let depot = stopped_edit(alloc, n, pick_of(k))?;
            let depot = stopped_recovery(depot, m, pick_of(again));
            assert!(rt; is_recovered(depot, &want));
        }
    }
    Ok(())
}

#[test]
fn an_edit_in_place_stopped_anywhere_is_recovered(rt: HostRuntime) -> Result<(), Fail> {
    for n in 0..9 {
        for k in 0..31 {
            check_stop(&rt, rt.alloc(), n, k)?;
        }
    }
    Ok(())
}

#[test]
fn a_rewrite_stopped_anywhere_leaves_the_old_file_or_the_new(rt: HostRuntime) -> Result<(), Fail> {
    for n in 0..10 {
        let want = file_or_titled(rt.alloc(), n < 9)?;
        for k in 0..10 {
            let depot = stopped_rewrite(rt.alloc(), n, pick_of(k))?;
            assert!(rt; is_recovered(depot, &want));
        }
    }
    Ok(())
}

// The call of this number fails once in an edit in place, done or undone.
fn check_failing_edit(
    rt: &impl Abort,
    alloc: Global,
    call: u64,
    done: bool,
) -> Result<(), NoMemory> {
    let old = call < 4 || (call == 4 && !done);
    let want = file_or_titled(alloc, old)?;
    for k in 0..31 {
        let failing = [FailAt { call, done }].to_vec(alloc)?;
        let (depot, is_done) = failing_edit(alloc, failing)?;
        assert!(rt; !is_done);
        assert_eq!(rt; depot.faults(), 1);
        assert!(rt; is_recovered(reopened(depot, pick_of(k)), &want));
    }
    Ok(())
}

#[test]
fn an_edit_in_place_survives_each_call_failing_once(rt: HostRuntime) -> Result<(), Fail> {
    for call in 1..9 {
        check_failing_edit(&rt, rt.alloc(), call, false)?;
        check_failing_edit(&rt, rt.alloc(), call, true)?;
    }
    Ok(())
}

// The call of this number fails once in a recovery, done or undone.
fn check_failing_recovery(
    rt: &impl Abort,
    alloc: Global,
    old: bool,
    call: u64,
    done: bool,
) -> Result<(), NoMemory> {
    for k in 0..31 {
        let failing = [FailAt { call, done }].to_vec(alloc)?;
        let mut depot = broken_off(alloc, old, failing)?;
        assert!(rt; recovery_of(&mut depot) == Err(RecoverFault::Depot));
        assert!(rt; is_recovered(reopened(depot, pick_of(k)), titled()));
    }
    Ok(())
}

#[test]
fn a_recovery_survives_each_call_failing_once(rt: HostRuntime) -> Result<(), Fail> {
    for call in 1..18 {
        for old in [false, true] {
            check_failing_recovery(&rt, rt.alloc(), old, call, false)?;
            check_failing_recovery(&rt, rt.alloc(), old, call, true)?;
        }
    }
    Ok(())
}

#[test]
fn both_edits_make_the_same_file(rt: HostRuntime) -> Result<(), Fail> {
    let (depot, done) = failing_edit(rt.alloc(), Vec::new(rt.alloc()))?;
    assert!(rt; done && holds_alone(&depot, titled()));
    assert_eq!(rt; depot.written(), 106);
    let (depot, done) = whole_rewrite(rt.alloc())?;
    assert!(rt; done && holds_alone(&depot, titled()));
    assert_eq!(rt; depot.written(), 72);
    Ok(())
}

#[test]
fn the_journal_is_spelled_as_it_is_laid_out(rt: HostRuntime) -> Result<(), Fail> {
    let journal = spell_in_place(rt.alloc())?;
    let want = journal_bytes(rt.alloc())?;
    assert_eq!(rt; journal.as_slice(), want.as_slice());
    Ok(())
}

#[test]
fn a_journal_cut_short_is_damaged_at_its_length(rt: HostRuntime) -> Result<(), Fail> {
    for (version, all) in [(1, 76), (2, 78)] {
        for len in 0..all {
            let answer = check_of(rt.alloc(), Some(48), cut_journal(rt.alloc(), version, len)?)?;
            let at = len as u64;
            assert!(rt; answer == Err(JournalFault::Damaged { at }));
        }
        let answer = check_of(rt.alloc(), Some(48), journal_of(rt.alloc(), version)?)?;
        let whole = JournalHead {
            version,
            old_len: 48,
            new_len: 72,
            count: 2,
            len: all as u64,
        };
        assert!(rt; answer == Ok(whole));
    }
    Ok(())
}

// One byte of the journal of version 1 is another, and the place that is damaged by it.
const WRONG_OLD: [(usize, u8, u64); 15] = [
    // the magic, each length, and the count
    (0, b'X', 0),
    (3, b'3', 0),
    (11, 0x80, 4),
    (19, 0x80, 12),
    (22, 1, 20),
    // one patch less, and one more
    (20, 1, 40),
    (20, 3, 76),
    // the first patch is past the new length, or has no bytes
    (24, 69, 24),
    (32, 0, 24),
    // the second lies inside the first, leaves a gap before it, or is past the new length
    (40, 7, 40),
    (40, 49, 40),
    (48, 25, 40),
    // the new length leaves a gap at its end
    (12, 74, 76),
    // the old length leaves a gap before the second patch
    (4, 40, 40),
    // all patches have too many bytes
    (34, 255, 24),
];

// The same of the journal that is written.
const WRONG: [(usize, u8, u64); 19] = [
    // the magic, each length, and the count
    (0, b'X', 0),
    (3, b'3', 0),
    (11, 0x80, 4),
    (19, 0x80, 12),
    (22, 0x10, 20),
    // one strip less, and one more
    (20, 1, 41),
    (20, 3, 78),
    // the first strip is past the new length, or has no bytes
    (24, 69, 24),
    (32, 0, 24),
    // a kind that there isn't
    (36, 2, 24),
    (53, 2, 41),
    // a run has one byte, so what stands behind it is no strip, or is left over
    (36, 1, 38),
    (53, 1, 55),
    // the second lies inside the first, leaves a gap before it, or is past the new length
    (41, 7, 41),
    (41, 49, 41),
    (49, 25, 41),
    // the new length leaves a gap at its end
    (12, 74, 78),
    // the old length leaves a gap before the second strip
    (4, 40, 41),
    // all strips have too many bytes
    (34, 255, 24),
];

#[test]
fn each_wrong_field_is_found_at_its_place(rt: HostRuntime) -> Result<(), Fail> {
    for (i, byte, at) in WRONG_OLD {
        let journal = changed_journal(rt.alloc(), 1, i, byte)?;
        assert!(rt; check_of(rt.alloc(), Some(72), journal)? == Err(JournalFault::Damaged { at }));
    }
    for (i, byte, at) in WRONG {
        let journal = changed_journal(rt.alloc(), 2, i, byte)?;
        assert!(rt; check_of(rt.alloc(), Some(72), journal)? == Err(JournalFault::Damaged { at }));
    }
    Ok(())
}

#[test]
fn a_journal_needs_its_file_and_nothing_behind_it(rt: HostRuntime) -> Result<(), Fail> {
    for (version, at) in [(1, 76), (2, 78)] {
        for len in [None, Some(47)] {
            let answer = check_of(rt.alloc(), len, journal_of(rt.alloc(), version)?)?;
            assert!(rt; answer == Err(JournalFault::Damaged { at }));
        }
        let mut journal = journal_of(rt.alloc(), version)?;
        journal.push(0)?;
        let answer = check_of(rt.alloc(), Some(48), journal)?;
        assert!(rt; answer == Err(JournalFault::Damaged { at }));
    }
    Ok(())
}

// What a recovery answers of a file, if there is one, beside the first bytes of the journal.
fn answer_of(
    alloc: Global,
    main: Option<Vec<u8>>,
    len: usize,
) -> Result<Result<Recovered, RecoverFault>, NoMemory> {
    let journal = cut_journal(alloc, 1, len)?;
    let mut depot = depot_with(alloc, main, journal, Vec::new(alloc))?;
    Ok(recovery_of(&mut depot))
}

#[test]
fn a_recovery_answers_what_it_found(rt: HostRuntime) -> Result<(), Fail> {
    let main = file_bytes(rt.alloc())?;
    assert!(rt; answer_of(rt.alloc(), Some(main), 76)? == Ok(Recovered::Redone { len: 72 }));
    let main = file_bytes(rt.alloc())?;
    assert!(rt; answer_of(rt.alloc(), Some(main), 75)? == Err(RecoverFault::Damaged { at: 75 }));
    assert!(rt; answer_of(rt.alloc(), None, 76)? == Err(RecoverFault::NoFile));
    let mut depot = stopped_edit(rt.alloc(), 0, Pick::Before)?;
    assert!(rt; recovery_of(&mut depot) == Ok(Recovered::Nothing));
    Ok(())
}

// The file with tables, before the rewrite or after it.
fn table_bytes(alloc: Global, old: bool) -> Result<Vec<u8>, NoMemory> {
    if old {
        tables_file(alloc, &[])
    } else {
        tables_file(alloc, more_bytes())
    }
}

// The rewrite with tables, stopped after n calls: it has 16, each segment's reads and appends, two pages of chunk places, and
// three others. What each of some crashes leaves is recovered.
fn check_tables(
    rt: &impl Abort,
    alloc: Global,
    n: u64,
    failing: Option<FailAt>,
    old: bool,
) -> Result<(), Fail> {
    let want = table_bytes(alloc, old)?;
    for k in 0..4 {
        let mut list = Vec::new(alloc);
        if let Some(call) = failing {
            list.push(call)?;
        }
        let Some((depot, done)) = stopped_tables(alloc, n, list, pick_of(k))? else {
            return Err(Fail::from(NoMemory));
        };
        assert_eq!(rt; done, n >= 16 && failing.is_none());
        assert!(rt; is_recovered(depot, &want));
    }
    Ok(())
}

#[test]
fn tables_stopped_anywhere_leave_the_old_file_or_the_new(rt: HostRuntime) -> Result<(), Fail> {
    for n in 0..17 {
        check_tables(&rt, rt.alloc(), n, None, n < 16)?;
    }
    Ok(())
}

#[test]
fn a_rewrite_with_tables_survives_each_call_failing_once(rt: HostRuntime) -> Result<(), Fail> {
    for call in 1..17 {
        let done = FailAt { call, done: true };
        let undone = FailAt { call, done: false };
        check_tables(&rt, rt.alloc(), 17, Some(undone), true)?;
        check_tables(&rt, rt.alloc(), 17, Some(done), call < 16)?;
    }
    Ok(())
}
