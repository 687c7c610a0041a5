// A folder of the file system, which tells nothing of what it holds.
ghost use Rattle.std.specs.Prelude.{None};

use crate::handle::{Handle, Lock};
use crate::paths::Paths;
use crate::seen::Seen;
use me_bytes::NoMemory;
use me_disk::{DepotFault, Slot};
use me_folder::Folder;
use std::alloc::Global;
use std::fs::{OpenFile, OpenOptions, Permissions};
use std::os::unix::fs::{OpenOptionsExt, PermissionsExt};
use std::rt::Files;
use std::{fs, io};

/// The file at a path, its journal at the path with `.mej` appended, and the file that is being made at the path with
/// `.met` appended. A link at the path is followed first. Only a regular file is a file or a journal. The first call waits
/// until no other such folder holds the file, where the system has locks.
#[derive(Drop)]
pub struct PathFolder<R: Files + Clone + Drop>
where
    R::File: Lock,
{
    rt: R,
    paths: Paths,
    // open for reading, and held
    main: Option<Handle<R::File>>,
    writer: Option<Handle<R::File>>,
    journal: Option<Handle<R::File>>,
    work: Option<Handle<R::File>>,
    folder: Option<R::File>,
    // the file that `Main` stood for, held still
    replaced: Option<Handle<R::File>>,
    // `Main` as it was when its reading began
    seen: Option<Seen>,
    journal_stands: Option<bool>,
    work_stands: Option<bool>,
}

// The path that a link names, or this one.
fn followed<R: Files>(rt: &R, alloc: Global, path: &str) -> Result<String, NoMemory> {
    if let Ok(metadata) = rt.symlink_metadata(path)
        && metadata.is_symlink()
        && let Ok(target) = rt.canonicalize(alloc, path)
    {
        return Ok(String::from_str(alloc, target.as_str())?);
    }
    Ok(String::from_str(alloc, path)?)
}

fn unsupported<T>() -> io::Result<T> {
    Err(io::ErrorKind::Unsupported.into())
}

// The file at this name is another than it was.
fn changed<T>() -> io::Result<T> {
    Err(io::ErrorKind::Other.into())
}

impl<R: Files + Clone + Drop> PathFolder<R>
where
    R::File: Lock,
{
    /// The folder of the file at this path. It keeps the runtime and makes the names; no file is opened.
    ///
    /// # Errors
    ///
    /// `NoMemory` where there is none for the names.
    pub fn new(rt: R, alloc: Global, path: &str) -> Result<PathFolder<R>, NoMemory> {
        let main = followed(&rt, alloc, path)?;
        Ok(PathFolder {
            paths: Paths::new(alloc, main.as_str())?,
            rt,
            main: None,
            writer: None,
            journal: None,
            work: None,
            folder: None,
            replaced: None,
            seen: None,
            journal_stands: None,
            work_stands: None,
        })
    }

    // What stands at the name, and whether that is a regular file. A companion whose name is too long is absent.
    fn look(&self, name: Slot) -> io::Result<Option<(Seen, bool)>> {
        match self.rt.symlink_metadata(self.paths.of(name)) {
            Ok(metadata) => Ok(Some((Seen::of(&metadata), metadata.is_file()))),
            Err(e) if e.kind() == io::ErrorKind::NotFound => Ok(None),
            Err(e) if e.kind() == io::ErrorKind::InvalidFilename && name != Slot::Main => Ok(None),
            Err(e) => Err(e),
        }
    }

    // The regular file at the name, None where nothing stands.
    fn look_up(&self, name: Slot) -> io::Result<Option<Seen>> {
        match self.look(name)? {
            None => Ok(None),
            Some((seen, true)) => Ok(Some(seen)),
            Some((_, false)) => unsupported(),
        }
    }

    // Opens `Main` and waits until no other run holds it. Another run may have given the name to another file meanwhile.
    fn hold_main(&mut self) -> io::Result<Option<Seen>> {
        let mut looked = self.look_up(Slot::Main)?;
        for _ in 0..u32::MAX {
            let Some(seen) = looked else {
                return Ok(None);
            };
            let file = fs::open(&self.rt, self.paths.of(Slot::Main))?;
            // where the system has no locks nobody waits
            let _ = file.hold();
            looked = self.look_up(Slot::Main)?;
            if let Some(now) = looked
                && now.is_file(&seen)
            {
                self.main = Some(Handle::new(file));
                return Ok(Some(now));
            }
        }
        changed()
    }

    // `Main` as it stands now, which may not be another than it was when its reading began.
    fn main_now(&mut self) -> io::Result<Option<Seen>> {
        if self.main.is_none() {
            self.seen = self.hold_main()?;
            return Ok(self.seen);
        }
        let now = self.look_up(Slot::Main)?;
        if let Some(seen) = self.seen
            && !now.is_some_and(|found| found.is_unchanged(&seen))
        {
            return changed();
        }
        self.seen = now;
        Ok(now)
    }

    fn stands_now(&mut self, name: Slot) -> io::Result<bool> {
        match name {
            Slot::Main if self.seen.is_some() => Ok(true),
            Slot::Main => Ok(self.main_now()?.is_some()),
            Slot::Journal => {
                let there = match self.journal_stands {
                    Some(there) => there,
                    None => self.look_up(Slot::Journal)?.is_some(),
                };
                self.journal_stands = Some(there);
                Ok(there)
            }
            Slot::Work => {
                let there = match self.work_stands {
                    Some(there) => there,
                    None => self.look(Slot::Work)?.is_some(),
                };
                self.work_stands = Some(there);
                Ok(there)
            }
        }
    }

    fn length(&mut self, name: Slot) -> io::Result<u64> {
        let seen = match name {
            Slot::Main => self.main_now()?,
            _ => self.look_up(name)?,
        };
        Ok(seen.map_or(0, |found| found.len))
    }

    // The file that is open for reading, or newly opened.
    fn reader(&mut self, name: Slot) -> io::Result<Handle<R::File>> {
        let open = match name {
            Slot::Main => self.main.take(),
            Slot::Journal => self.journal.take(),
            Slot::Work => None,
        };
        match open {
            Some(handle) => Ok(handle),
            None => Ok(Handle::new(fs::open(&self.rt, self.paths.of(name))?)),
        }
    }

    fn fill(&mut self, name: Slot, at: u64, into: &mut [u8]) -> io::Result<()> {
        if name == Slot::Main && self.main.is_none() {
            self.main_now()?;
        }
        let mut handle = self.reader(name)?;
        handle.fill(at, into)?;
        match name {
            Slot::Main => self.main = Some(handle),
            Slot::Journal => self.journal = Some(handle),
            Slot::Work => {}
        }
        Ok(())
    }

    // Makes `Work` anew, with the rights of the file. A link that stands there is not followed.
    fn make(&mut self) -> io::Result<()> {
        let like = match self.seen {
            Some(seen) => Some(seen),
            None => self.main_now()?,
        };
        self.work_stands = None;
        let mut options = OpenOptions::new();
        options.write(true).create_new(true);
        if let Some(seen) = like {
            options.mode(seen.mode & 0o777);
        }
        let file = options.open(&self.rt, self.paths.of(Slot::Work))?;
        self.work_stands = Some(true);
        if let Some(seen) = like {
            self.give_rights(&file, &seen)?;
        }
        self.work = Some(Handle::new(file));
        Ok(())
    }

    // Gives it the owner and the group where the system lets us, and the permissions.
    fn give_rights(&self, file: &R::File, like: &Seen) -> io::Result<()> {
        let made = Seen::of(&file.metadata()?);
        if made.owner != like.owner || made.group != like.group {
            file.set_permissions(Permissions::from_mode(made.rights() & 0o700))?;
            let path = self.paths.of(Slot::Work);
            if self
                .rt
                .chown(path, Some(like.owner), Some(like.group))
                .is_err()
            {
                let _ = self.rt.chown(path, None, Some(like.group));
            }
        } else if made.rights() == like.rights() {
            return Ok(());
        }
        file.set_permissions(Permissions::from_mode(like.rights()))
    }

    fn append_to(&mut self, name: Slot, bytes: &[u8]) -> io::Result<()> {
        match (name, self.work.take()) {
            (Slot::Work, Some(mut handle)) => {
                handle.put_more(bytes)?;
                self.work = Some(handle);
                Ok(())
            }
            _ => unsupported(),
        }
    }

    // `Main` open for writing: the file that was looked up, as long as it was, and no other.
    fn main_writer(&mut self) -> io::Result<Handle<R::File>> {
        if let Some(handle) = self.writer.take() {
            return Ok(handle);
        }
        let file = OpenOptions::new()
            .read(true)
            .write(true)
            .open(&self.rt, self.paths.of(Slot::Main))?;
        let opened = Seen::of(&file.metadata()?);
        if let Some(seen) = self.seen
            && !seen.is_unchanged(&opened)
        {
            return changed();
        }
        Ok(Handle::new(file))
    }

    fn put(&mut self, name: Slot, at: u64, bytes: &[u8]) -> io::Result<()> {
        if name != Slot::Main {
            return unsupported();
        }
        let mut handle = self.main_writer()?;
        self.seen = None;
        handle.put(at, bytes)?;
        self.writer = Some(handle);
        Ok(())
    }

    fn resize(&mut self, name: Slot, n: u64) -> io::Result<()> {
        if name != Slot::Main {
            return unsupported();
        }
        let handle = self.main_writer()?;
        self.seen = None;
        handle.file().set_len(n)?;
        self.writer = Some(handle);
        Ok(())
    }

    fn sync(&mut self, name: Slot) -> io::Result<()> {
        match name {
            Slot::Main => {
                let handle = self.main_writer()?;
                handle.file().sync_all()?;
                self.writer = Some(handle);
            }
            Slot::Journal => {
                let handle = self.reader(Slot::Journal)?;
                handle.file().sync_all()?;
                self.journal = Some(handle);
            }
            Slot::Work => match &self.work {
                Some(handle) => handle.file().sync_all()?,
                None => return unsupported(),
            },
        }
        Ok(())
    }

    // A name that is safe is one whose folder is.
    fn sync_folder(&mut self) -> io::Result<()> {
        let folder = match self.folder.take() {
            Some(folder) => folder,
            None => fs::open(&self.rt, self.paths.folder())?,
        };
        folder.sync_all()?;
        self.folder = Some(folder);
        Ok(())
    }

    // `Work` gets the name of `Main`, which is still the file that was read.
    fn replace(&mut self) -> io::Result<()> {
        self.main_now()?;
        self.seen = None;
        self.replaced = self.main.take();
        self.writer = None;
        self.rt
            .rename(self.paths.of(Slot::Work), self.paths.of(Slot::Main))
    }

    fn move_work(&mut self, to: Slot) -> io::Result<()> {
        self.work = None;
        self.work_stands = None;
        match to {
            Slot::Main => self.replace()?,
            Slot::Journal => {
                self.journal = None;
                self.journal_stands = None;
                self.rt
                    .rename(self.paths.of(Slot::Work), self.paths.of(Slot::Journal))?;
                self.journal_stands = Some(true);
            }
            Slot::Work => return unsupported(),
        }
        self.work_stands = Some(false);
        Ok(())
    }

    fn take_away(&mut self, name: Slot) -> io::Result<()> {
        match name {
            Slot::Main => return unsupported(),
            Slot::Journal => {
                self.journal = None;
                self.journal_stands = None;
            }
            Slot::Work => {
                self.work = None;
                self.work_stands = None;
            }
        }
        self.rt.remove_file(self.paths.of(name))?;
        match name {
            Slot::Journal => self.journal_stands = Some(false),
            _ => self.work_stands = Some(false),
        }
        Ok(())
    }
}

fn or_fault<T>(done: io::Result<T>) -> Result<T, DepotFault> {
    match done {
        Ok(value) => Ok(value),
        Err(_) => Err(DepotFault),
    }
}

impl<R: Files + Clone + Drop> Folder for PathFolder<R>
where
    R::File: Lock,
{
    ghost tree = { λ d. None };

    fn stands(&mut self, name: Slot) -> Result<bool, DepotFault> {
        or_fault(self.stands_now(name))
    }

    fn len(&mut self, name: Slot) -> Result<u64, DepotFault> {
        match self.length(name) {
            Ok(len) if len < 1 << 63 => Ok(len),
            _ => Err(DepotFault),
        }
    }

    fn read_at(&mut self, name: Slot, at: u64, into: &mut [u8]) -> Result<(), DepotFault> {
        or_fault(self.fill(name, at, into))
    }

    fn create(&mut self, name: Slot) -> Result<(), DepotFault> {
        match name {
            Slot::Work => or_fault(self.make()),
            _ => Err(DepotFault),
        }
    }

    fn append(&mut self, name: Slot, bytes: &[u8]) -> Result<(), DepotFault> {
        or_fault(self.append_to(name, bytes))
    }

    fn write_at(&mut self, name: Slot, at: u64, bytes: &[u8]) -> Result<(), DepotFault> {
        or_fault(self.put(name, at, bytes))
    }

    fn set_len(&mut self, name: Slot, n: u64) -> Result<(), DepotFault> {
        or_fault(self.resize(name, n))
    }

    fn sync_file(&mut self, name: Slot) -> Result<(), DepotFault> {
        or_fault(self.sync(name))
    }

    fn rename(&mut self, _from: Slot, to: Slot) -> Result<(), DepotFault> {
        or_fault(self.move_work(to))
    }

    fn remove(&mut self, name: Slot) -> Result<(), DepotFault> {
        or_fault(self.take_away(name))
    }

    fn sync_names(&mut self) -> Result<(), DepotFault> {
        or_fault(self.sync_folder())
    }
}
