// Runs over such a folder.
ghost use Rattle.std.specs.Prelude.{IfOk, IsTrue};
ghost use Rattle.power_rows.specs.Power.{HoldsOne};

use crate::disk::PowerDisk;
use crate::folder::Powered;
use crash_rows::{edit_by_rewrite, edit_in_place, run_in_place, run_rewrite};
use folder_depot::FolderDepot;
use me_bytes::NoMemory;
use me_disk::Slot;
use recovery::recover;
use std::alloc::Global;

/// What is run: the worked edit in either way, or a recovery alone.
#[derive(Clone, Copy, Debug, PartialEq, Eq)]
pub enum Run {
    InPlace,
    Rewrite,
    Recovery,
}

/// Recovers the disk as it stands and then runs the edit, in one run of the program. It says whether that was done.
///
/// # Errors
///
/// `NoMemory` where there is none for the edit.
pub fn run_over(alloc: Global, disk: &mut PowerDisk, run: Run) -> Result<bool, NoMemory> {
    let mut depot = FolderDepot::over(Powered(disk));
    if recover(&mut depot).is_err() {
        return Ok(false);
    }
    match run {
        Run::InPlace => {
            let swap = edit_in_place(alloc)?;
            Ok(run_in_place(&mut depot, swap))
        }
        Run::Rewrite => {
            let swap = edit_by_rewrite(alloc)?;
            Ok(run_rewrite(&mut depot, swap))
        }
        Run::Recovery => Ok(true),
    }
}

/// Whether a recovery of the disk is done and leaves one of these files, and nothing beside it.
///
/// # Errors
///
/// `NoMemory` where there is none for the recovery.
pub fn is_recovered(
    alloc: Global,
    disk: &mut PowerDisk,
    old: &[u8],
    new: &[u8],
) -> Result<bool, NoMemory>
    ensures { IfOk result (λ ok. IsTrue ok → HoldsOne old.now new.now disk.new) }
{
    if !run_over(alloc, disk, Run::Recovery)? {
        return Ok(false);
    }
    Ok(holds_one(disk, old, new))
}

// Whether one of these files stands there, and nothing beside it.
fn holds_one(disk: &PowerDisk, old: &[u8], new: &[u8]) -> bool
    ensures { IsTrue result → HoldsOne old.now new.now disk.now }
{
    let is_one = match disk.held(Slot::Main) {
        Some(bytes) => bytes == old || bytes == new,
        None => false,
    };
    is_one && disk.held(Slot::Journal).is_none() && disk.held(Slot::Work).is_none()
}
