// Worked schedules of two edits, and what a crash then leaves.
use crate::runs::{answers_of, run_turns, two_depots, two_edits};
use crash_rows::{file_bytes, holds_alone, is_recovered, reopened, titled};
use me_bytes::NoMemory;
use me_disk::{FailAt, MemoryDepot, Pick};
use std::alloc::Global;
use std::process::Abort;
use std::test::Fail;
use turn_batch::BatchTurn::{Done, Ended, Fault, More};

// The k-th way in which a crash may leave the writes: none of them, all, or so many bytes.
fn pick_of(k: u64) -> Pick {
    match k {
        0 => Pick::Before,
        1 => Pick::After,
        _ => Pick::Torn(k - 2),
    }
}

// The first depot was left by its edit after five turns, the second by its own after three.
fn check_crash(rt: &impl Abort, alloc: Global, first: u64, second: u64) -> Result<(), Fail> {
    let mut batch = two_edits(alloc)?;
    let mut depots = two_depots(alloc, Vec::new(alloc))?;
    run_turns(&mut batch, &mut depots, &[0, 0, 0, 0, 1, 1, 1, 0]);
    let untouched = file_bytes(alloc)?;
    match (depots.pop(), depots.pop()) {
        (Some(later), Some(former)) => {
            assert!(rt; is_recovered(reopened(former, pick_of(first)), titled()));
            assert!(rt; is_recovered(reopened(later, pick_of(second)), &untouched));
        }
        _ => assert!(rt; false),
    }
    Ok(())
}

#[test]
fn a_schedule_that_stops_leaves_each_file_where_its_own_turns_did(
    rt: HostRuntime,
) -> Result<(), Fail> {
    for k in 0..31 {
        check_crash(&rt, rt.alloc(), k, 0)?;
        check_crash(&rt, rt.alloc(), k, 1)?;
    }
    Ok(())
}

#[test]
fn a_fault_ends_its_own_member_alone(rt: HostRuntime) -> Result<(), Fail> {
    let alloc = rt.alloc();
    let failing = [FailAt {
        call: 3,
        done: false,
    }]
    .to_vec(alloc)?;
    let mut batch = two_edits(alloc)?;
    let mut depots = two_depots(alloc, failing)?;
    let schedule = [0, 0, 0, 0, 1, 1, 1, 1, 0, 0, 0, 0];
    let answers = answers_of(alloc, &mut batch, &mut depots, &schedule)?;
    let want = [
        More, More, More, More, More, More, Fault, Ended, More, More, More, Done,
    ];
    assert!(rt; answers.as_slice() == want.as_slice());
    let untouched = file_bytes(alloc)?;
    match (depots.pop(), depots.pop()) {
        (Some(later), Some(former)) => {
            assert!(rt; holds_alone(&former, titled()));
            assert!(rt; is_recovered(reopened(later, Pick::After), &untouched));
        }
        _ => assert!(rt; false),
    }
    Ok(())
}
