// The calls of a depot, as calls of its folder.
ghost use Rattle.std.specs.Prelude.{◌≡◌, ◌⊎◌, IsTrue, None, OnOk, is_some};
ghost use Rattle.folder_depot.specs.Cleared.{Cleared, Synced};
ghost use Rattle.folder_depot.specs.Moves.{On, Makes, MovesWork, Shrinks, SameOthers, IsCalm, install_call};
ghost use Rattle.me_disk.specs.Calls.Call.{BeginWork, AppendWork, SyncWork, DropWork, DropJournal};
ghost use Rattle.me_disk.specs.Disk.{held};
ghost use Rattle.me_disk.specs.declared.depot.Slot.TheVariants.{Main, Work};
ghost use Rattle.me_folder.specs.Ops.{IsMove};
ghost use Rattle.me_folder.specs.Told.{slots_of, file_at, is_safe, is_trusted, is_settled, trusts};

use me_disk::{DepotFault, Slot};
use me_folder::Folder;

// Takes the name away, which may stand for nothing.
fn clear<F: Folder>(folder: &mut F, name: Slot) -> Result<(), DepotFault>
    ensures cleared { Cleared name (F.tree folder.old) (F.tree folder.new) }
    ensures gone { OnOk result (IsTrue (is_some (F.tree folder.new))
        → held name (slots_of (F.tree folder.new)) ≡ None) }
{
    match folder.stands(name) {
        Ok(true) => folder.remove(name),
        Ok(false) => Ok(()),
        Err(fault) => Err(fault),
    }
}

// Takes `Work` away after a fault, whatever becomes of that.
fn give_up<F: Folder>(folder: &mut F, fault: DepotFault) -> DepotFault
    ensures work { On MovesWork (F.tree folder.old) (F.tree folder.new) }
    ensures same { result ≡ fault }
{
    let _ = clear(folder, Slot::Work);
    fault
}

fn make_anew<F: Folder>(folder: &mut F) -> Result<(), DepotFault>
    ensures made { Makes BeginWork (F.tree folder.old) (F.tree folder.new) result }
    ensures work { On MovesWork (F.tree folder.old) (F.tree folder.new) }
    ensures trusted { OnOk result (IsTrue (is_trusted (file_at Work (F.tree folder.new)))) }
{
    clear(folder, Slot::Work)?;
    folder.create(Slot::Work)
}

pub(crate) fn begin_work<F: Folder>(folder: &mut F) -> Result<(), DepotFault>
    ensures made { Makes BeginWork (F.tree folder.old) (F.tree folder.new) result }
    ensures others { SameOthers (F.tree folder.old) (F.tree folder.new) }
    ensures trusted { OnOk result (IsTrue (is_trusted (file_at Work (F.tree folder.new)))) }
{
    match make_anew(folder) {
        Ok(()) => Ok(()),
        Err(fault) => Err(give_up(folder, fault)),
    }
}

pub(crate) fn append_work<F: Folder>(folder: &mut F, bytes: &[u8]) -> Result<(), DepotFault>
    ensures made { Makes (AppendWork bytes.now) (F.tree folder.old) (F.tree folder.new) result }
    ensures others { SameOthers (F.tree folder.old) (F.tree folder.new) }
    ensures trusted { OnOk result (is_trusted (file_at Work (F.tree folder.new))
        ≡ is_trusted (file_at Work (F.tree folder.old))) }
{
    match folder.append(Slot::Work, bytes) {
        Ok(()) => Ok(()),
        Err(fault) => Err(give_up(folder, fault)),
    }
}

pub(crate) fn sync_work<F: Folder>(folder: &mut F) -> Result<(), DepotFault>
    requires { IsTrue (is_trusted (file_at Work (F.tree folder.old))) }
    ensures made { Makes SyncWork (F.tree folder.old) (F.tree folder.new) result }
    ensures others { SameOthers (F.tree folder.old) (F.tree folder.new) }
    ensures safe { OnOk result (IsTrue (is_safe (file_at Work (F.tree folder.new)))) }
{
    match folder.sync_file(Slot::Work) {
        Ok(()) => Ok(()),
        Err(fault) => Err(give_up(folder, fault)),
    }
}

pub(crate) fn drop_work<F: Folder>(folder: &mut F) -> Result<(), DepotFault>
    ensures made { Makes DropWork (F.tree folder.old) (F.tree folder.new) result }
    ensures others { SameOthers (F.tree folder.old) (F.tree folder.new) }
{
    clear(folder, Slot::Work)
}

// Makes the file safe that the name stands for, where there is one.
fn sync_standing<F: Folder>(folder: &mut F, name: Slot) -> Result<(), DepotFault>
    requires { IsTrue (is_trusted (file_at name (F.tree folder.old))) }
    ensures synced { Synced name (F.tree folder.old) (F.tree folder.new) }
    ensures safe { OnOk result (IsTrue (is_safe (file_at name (F.tree folder.new)))) }
{
    match folder.stands(name) {
        Ok(true) => folder.sync_file(name),
        Ok(false) => Ok(()),
        Err(fault) => Err(fault),
    }
}

// Makes both files and all names safe.
pub(crate) fn settle<F: Folder>(folder: &mut F) -> Result<(), DepotFault>
    requires { IsTrue (trusts (F.tree folder.old)) }
    ensures shrunk { On Shrinks (F.tree folder.old) (F.tree folder.new) }
    ensures work { file_at Work (F.tree folder.new) ≡ file_at Work (F.tree folder.old) }
    ensures calm { OnOk result (IsCalm (F.tree folder.new)) }
{
    sync_standing(folder, Slot::Main)?;
    sync_standing(folder, Slot::Journal)?;
    folder.sync_names()
}

// `Work` gets this name.
pub(crate) fn install<F: Folder>(folder: &mut F, to: Slot) -> Result<(), DepotFault>
    requires moves { IsMove Work to }
    requires safe { IsTrue (is_safe (file_at Work (F.tree folder.old))) }
    ensures made { Makes (install_call to) (F.tree folder.old) (F.tree folder.new) result }
    ensures settled { OnOk result (IsTrue (is_settled (F.tree folder.old)) → IsTrue (is_settled (F.tree folder.new))) }
    ensures trusted { IsTrue (trusts (F.tree folder.old)) → IsTrue (trusts (F.tree folder.new)) }
{
    match folder.rename(Slot::Work, to) {
        Ok(()) => match folder.sync_names() {
            Ok(()) => Ok(()),
            Err(fault) => Err(give_up(folder, fault)),
        },
        Err(fault) => Err(give_up(folder, fault)),
    }
}

// An earlier call may have taken the name away and failed to make that safe.
pub(crate) fn drop_journal<F: Folder>(folder: &mut F) -> Result<(), DepotFault>
    ensures made { Makes DropJournal (F.tree folder.old) (F.tree folder.new) result }
    ensures work { file_at Work (F.tree folder.new) ≡ file_at Work (F.tree folder.old) }
    ensures settled { OnOk result (IsTrue (is_settled (F.tree folder.new))) }
    ensures trusted { IsTrue (trusts (F.tree folder.old)) → IsTrue (trusts (F.tree folder.new)) }
{
    clear(folder, Slot::Journal)?;
    folder.sync_names()
}
