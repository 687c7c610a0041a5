// Runs of the depot over a path of the file system.
ghost use Rattle.std.specs.Prelude.{◌<◌, length};

use crate::{Lock, PathDepot};
use me_disk::{Depot, DepotFault, Slot};
use std::process::Abort;
use std::rt::Files;
use std::test::Fail;
use std::{fs, process};

fn put_journal(depot: &mut impl Depot, bytes: &[u8]) -> Result<(), DepotFault>
    requires { length bytes.now < 100 }
{
    depot.begin_work()?;
    depot.append_work(bytes)?;
    depot.sync_work()?;
    depot.install_journal()
}

fn edit_in_place<R: Files + Clone + Drop>(depot: &mut PathDepot<R>) -> Result<(), DepotFault>
where
    R::File: Lock,
{
    depot.write_main(2, b"XY")?;
    depot.set_main_len(5)?;
    depot.sync_main()?;
    depot.drop_journal()
}

fn put_main<R: Files + Clone + Drop>(depot: &mut PathDepot<R>) -> Result<(), DepotFault>
where
    R::File: Lock,
{
    depot.begin_work()?;
    depot.append_work(b"new")?;
    depot.sync_work()?;
    depot.install_main()
}

fn check_edit<R: Files + Clone + Drop>(rt: &impl Abort, depot: &mut PathDepot<R>)
where
    R::File: Lock,
{
    let mut into = [0u8; 4];
    assert!(rt; put_journal(depot, b"redo").is_ok());
    assert_eq!(rt; depot.len(Slot::Journal).ok(), Some(4));
    assert!(rt; edit_in_place(depot).is_ok());
    assert_eq!(rt; depot.has(Slot::Journal).ok(), Some(false));
    assert!(rt; depot.read_at(Slot::Main, 1, &mut into).is_ok());
    assert_eq!(rt; &into, b"bXYe");
    assert!(rt; depot.read_at(Slot::Main, 2, &mut into).is_err());
    assert_eq!(rt; depot.faults(), 1);
}

#[test]
fn a_depot_over_a_path_keeps_its_files(rt: HostRuntime) -> Result<(), Fail> {
    let name = format!(in rt.alloc(); "/tmp/me-disk-test-{}", process::id(rt.process()))?;
    fs::write(&rt, name.as_str(), b"abcdef")?;
    let mut depot = PathDepot::new(rt.clone()?, rt.alloc(), name.as_str())?;
    check_edit(&rt, &mut depot);
    assert!(rt; put_main(&mut depot).is_ok());
    assert_eq!(rt; fs::read(&rt, name.as_str())?.as_slice(), b"new".as_slice());
    fs::remove_file(&rt, name.as_str())?;
    Ok(())
}
