// What holds of swaps, over their definitions.
ghost use Rattle.std.specs.Prelude.{◌≡◌, ◌+◌, ◌≤◌, ◌<◌, ℕ, List, Some, IsTrue};
ghost use Rattle.part_tree.specs.declared.plan.Plan.{Plan};
ghost use Rattle.me_disk.specs.Disk.{Image, Only, plain};
ghost use Rattle.edit_journal.specs.Settled.{Settles, Stands};
ghost use Rattle.file_swap.specs.Steps.{install_call, bytes_by, bytes_written, calls};
ghost use Rattle.part_tree.specs.Plans.{applied, CanRun, Belongs};
ghost use Rattle.file_swap.specs.Midway.{Phase};
ghost use Rattle.file_swap.specs.Swap.{fresh, Underway, IsSure};

use me_disk::Depot;

/// What a crash may leave after the first k calls stands for the old file before the install call was Ok, and for the new one
/// from then on. All calls of a plan write together what `bytes_written` says.
pub fn phases_settle()
    ensures before { (p : Plan) (o : List ℕ) (k : ℕ) (i : Image) → Belongs p o → k < install_call p → Phase p o k i
        → Settles (Some o) i }
    ensures after { (p : Plan) (o : List ℕ) (k : ℕ) (i : Image) → Belongs p o → install_call p ≤ k → Phase p o k i
        → Settles (Some (applied p o)) i }
    ensures written { (p : Plan) → CanRun p → bytes_by p (calls p) ≡ bytes_written p }
{}

/// A fresh swap of a plan for a file that stands is under way. Where the file stands alone, each image is one before the
/// first call.
pub fn swap_begins<D: Depot>(_depot: &D)
    ensures underway { (p : Plan) (o : List ℕ) → Stands o (D.disk _depot.now)
        → (IsTrue (D.disk _depot.now).tells → Belongs p o) → Underway (fresh p) o (D.disk _depot.now) }
    ensures sure { (p : Plan) (o : List ℕ) → Only (plain (Some o)) (D.disk _depot.now)
        → IsSure (fresh p) o (D.disk _depot.now) }
{}
