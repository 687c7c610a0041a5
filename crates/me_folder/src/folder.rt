// The trait of a folder: what its calls answer and change, and what a power cut may leave.
ghost use Rattle.std.specs.Prelude.{◌≡◌, ◌↔◌, ◌+◌, ◌<◌, ◌≤◌, ◌^◌, length, take, drop, IsTrue, IsSome, IfOk, OnOk, Option, is_some};
ghost use Rattle.me_disk.specs.Disk.{held, bytes_of};
ghost use Rattle.me_folder.specs.Ops.Op.{Create, WriteAt, Append, Resize, SyncFile, Rename, Remove, SyncNames};
ghost use Rattle.me_folder.specs.Ops.{Meets, IsMove};
ghost use Rattle.me_folder.specs.Tree.{Tree};
ghost use Rattle.me_folder.specs.Told.{slots_of};

use me_disk::{DepotFault, Slot};

/// Three names in a folder, and the files that they stand for. Each call may fail: done, not done, or for a write done
/// with the first so many of its bytes. Places and lengths are in bytes, places from 0.
///
/// What a power cut may leave is told by `tree`: a name stands for any file that it stood for since the names were last made
/// safe, whatever the other names stand for; of a file the written ranges and all past the least length may hold anything since
/// it was last made safe; a rename replaces in one step. POSIX promises no more of `fsync` and `rename`, and ext4, XFS and btrfs
/// keep names in the order of the calls, which is not used here.
pub trait Folder {
    /// Its names and files, and what a power cut may leave of them. None where it tells nothing.
    ghost tree: { Self → Option Tree };

    /// Whether the name stands for a file.
    fn stands(&mut self, name: Slot) -> Result<bool, DepotFault>
        ensures same { tree self.new ≡ tree self.old }
        ensures answer { IfOk result (λ there. IsTrue (is_some (tree self.old))
            → (IsTrue there ↔ IsSome (held name (slots_of (tree self.old))))) };

    /// The length of the file, 0 where there is none.
    fn len(&mut self, name: Slot) -> Result<u64, DepotFault>
        ensures same { tree self.new ≡ tree self.old }
        ensures answer { IfOk result (λ n. IsTrue (is_some (tree self.old))
            → n ≡ length (bytes_of (held name (slots_of (tree self.old))))) }
        ensures limit { IfOk result (λ n. n < 2 ^ 63) };

    /// Fills `into` with the file's bytes from `at` on.
    fn read_at(&mut self, name: Slot, at: u64, into: &mut [u8]) -> Result<(), DepotFault>
        requires { IsTrue (is_some (tree self.old))
            → at + length into.old ≤ length (bytes_of (held name (slots_of (tree self.old)))) }
        ensures same { tree self.new ≡ tree self.old }
        ensures bytes { OnOk result (IsTrue (is_some (tree self.old))
            → into.new ≡ take (length into.old) (drop at (bytes_of (held name (slots_of (tree self.old)))))) };

    /// Makes a new file, which is empty, under a name that stands for none.
    fn create(&mut self, name: Slot) -> Result<(), DepotFault>
        ensures { Meets (Create name) (tree self.old) (tree self.new) result };

    /// Writes at the end of the file.
    fn append(&mut self, name: Slot, bytes: &[u8]) -> Result<(), DepotFault>
        ensures { Meets (Append name bytes.now) (tree self.old) (tree self.new) result };

    /// Writes over what the file holds, and past its end.
    fn write_at(&mut self, name: Slot, at: u64, bytes: &[u8]) -> Result<(), DepotFault>
        ensures { Meets (WriteAt name at bytes.now) (tree self.old) (tree self.new) result };

    /// Gives the file this length.
    fn set_len(&mut self, name: Slot, n: u64) -> Result<(), DepotFault>
        ensures { Meets (Resize name n) (tree self.old) (tree self.new) result };

    /// Makes the bytes of the file safe: after it a power cut leaves them as they are, under whatever name. Where a sync of
    /// this file failed before, it makes nothing safe.
    fn sync_file(&mut self, name: Slot) -> Result<(), DepotFault>
        ensures { Meets (SyncFile name) (tree self.old) (tree self.new) result };

    /// The file gets another name, in one step. A power cut may leave each name as it was.
    fn rename(&mut self, from: Slot, to: Slot) -> Result<(), DepotFault>
        requires { IsMove from to }
        ensures { Meets (Rename from to) (tree self.old) (tree self.new) result };

    /// Takes the name away. A power cut may leave it.
    fn remove(&mut self, name: Slot) -> Result<(), DepotFault>
        ensures { Meets (Remove name) (tree self.old) (tree self.new) result };

    /// Makes all names safe: after it a power cut leaves each standing for what it stands for.
    fn sync_names(&mut self) -> Result<(), DepotFault>
        ensures { Meets SyncNames (tree self.old) (tree self.new) result };
}
