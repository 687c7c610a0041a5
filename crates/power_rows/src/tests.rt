// A power cut after each call, with each remainder of it.
use crate::disk::{Left, PowerDisk};
use crate::runs::{Run, is_recovered, run_over};
use crash_rows::{file_bytes, journal_bytes, titled};
use me_bytes::NoMemory;
use me_disk::Slot;
use std::alloc::Global;
use std::process::Abort;
use std::test::Fail;

// A run whose power is cut, perhaps behind another that was killed; a journal may lie there at first.
#[derive(Clone, Copy)]
struct Row {
    journal: bool,
    killed: Option<Run>,
    run: Run,
}

fn make_row(journal: bool, killed: Option<Run>, run: Run) -> Row {
    Row {
        journal,
        killed,
        run,
    }
}

fn rows() -> [Row; 6] {
    [
        make_row(false, None, Run::InPlace),
        make_row(false, None, Run::Rewrite),
        make_row(true, None, Run::Recovery),
        make_row(true, Some(Run::Recovery), Run::Rewrite),
        make_row(true, Some(Run::Recovery), Run::InPlace),
        make_row(false, Some(Run::Rewrite), Run::InPlace),
    ]
}

// The disk as a run left it that was killed after so many calls.
fn disk_of(alloc: Global, row: Row, killed: u64) -> Result<PowerDisk, NoMemory> {
    let journal = match row.journal {
        true => Some(journal_bytes(alloc)?),
        false => None,
    };
    let mut disk = PowerDisk::new(alloc, Some(file_bytes(alloc)?), journal)?;
    if let Some(run) = row.killed {
        disk.cut_after(killed);
        run_over(alloc, &mut disk, run)?;
    }
    Ok(disk)
}

// Each remainder of the disk is recovered: the old file or the new one, and nothing beside it.
fn check_remainders(rt: &impl Abort, alloc: Global, disk: &PowerDisk) -> Result<(), NoMemory> {
    let old = file_bytes(alloc)?;
    for main in 0..4 {
        for journal in 0..4 {
            for main_bytes in 0..12 {
                for journal_bytes in 0..4 {
                    let left = Left {
                        main,
                        journal,
                        main_bytes,
                        journal_bytes,
                    };
                    if let Some(mut left) = disk.after_cut(left)? {
                        assert!(rt; is_recovered(alloc, &mut left, &old, titled())?);
                    }
                }
            }
        }
    }
    Ok(())
}

// The power is cut after each call of the run, behind a run that was killed after so many calls.
fn check_cuts(rt: &impl Abort, alloc: Global, row: Row, killed: u64) -> Result<(), NoMemory> {
    for calls in 0..40 {
        let mut disk = disk_of(alloc, row, killed)?;
        disk.cut_after(calls);
        let is_done = run_over(alloc, &mut disk, row.run)?;
        check_remainders(rt, alloc, &disk)?;
        if is_done {
            return Ok(());
        }
    }
    assert!(rt; false);
    Ok(())
}

#[test]
fn what_a_power_cut_leaves_is_recovered(rt: HostRuntime) -> Result<(), Fail> {
    for row in rows() {
        let kills = match row.killed {
            Some(_) => 16,
            None => 1,
        };
        for killed in 0..kills {
            check_cuts(&rt, rt.alloc(), row, killed)?;
        }
    }
    Ok(())
}

#[test]
fn a_run_without_a_cut_is_done(rt: HostRuntime) -> Result<(), Fail> {
    for row in rows() {
        let mut disk = disk_of(rt.alloc(), row, 0)?;
        disk.cut_after(100);
        assert!(rt; run_over(rt.alloc(), &mut disk, row.run)?);
        assert!(rt; disk.held(Slot::Main) == Some(titled()));
        assert!(rt; disk.held(Slot::Journal).is_none());
    }
    Ok(())
}
