// Recoveries that are stopped.
ghost use Rattle.std.specs.Prelude.{◌≡◌, ℕ, ◌≤◌, min, length, List, Option, Some, None};
ghost use Rattle.part_tree.specs.declared.plan.Patch.{Patch};
ghost use Rattle.me_disk.specs.Disk.{Image};
ghost use Rattle.edit_journal.specs.Journal.{Journal};
ghost use Rattle.edit_journal.specs.Settled.{Settles};
ghost use Rattle.recovery.specs.Redo.{SettlesAlike};
ghost use Rattle.recovery.specs.Stopped.{StoppedAt, last_of};
ghost use Rattle.recovery.specs.Recovered.{bytes_to_redo};
ghost use Rattle.part_tree.specs.Patches.{all_bytes};

/// Any number of recoveries that are stopped, each begun on one of the images that the one before it left, leave what the first
/// image stands for; an image stands for one file at most. A recovery writes the bytes of the journal's patches where the image
/// stands for a file, and none where it stands for none.
pub fn stopped_recoveries()
    ensures alike { (e : Image) (is : List Image) → StoppedAt e is → SettlesAlike e (last_of e is) }
    ensures once { (i : Image) (f g : Option (List ℕ)) → Settles f i → Settles g i → f ≡ g }
    ensures bytes { (m j : List ℕ) (old new : ℕ) (ps : List Patch) → Journal j old new ps → min old new ≤ length m
        → bytes_to_redo (record { main = Some m; journal = Some j }) ≡ all_bytes ps }
    ensures plain { (m : Option (List ℕ)) → bytes_to_redo (record { main = m; journal = None }) ≡ 0 }
{}
