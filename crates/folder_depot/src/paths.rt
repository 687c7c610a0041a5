// The three paths of a folder, and the one that they stand in.
use me_bytes::NoMemory;
use me_disk::Slot;
use std::alloc::Global;

// The file's path, its companions' beside it, and the folder's.
#[derive(Drop)]
pub(crate) struct Paths {
    main: String,
    journal: String,
    work: String,
    folder: String,
}

fn with_suffix(alloc: Global, path: &str, suffix: &str) -> Result<String, NoMemory> {
    let mut text = String::from_str(alloc, path)?;
    text.push_str(suffix)?;
    Ok(text)
}

fn folder_of(alloc: Global, path: &str) -> Result<String, NoMemory> {
    match path.rsplit_once('/') {
        Some(("", _)) => Ok(String::from_str(alloc, "/")?),
        Some((folder, _)) => Ok(String::from_str(alloc, folder)?),
        None => Ok(String::from_str(alloc, ".")?),
    }
}

impl Paths {
    // The journal is named `.mej` and the file that is being made `.met` behind the file's name.
    pub(crate) fn new(alloc: Global, path: &str) -> Result<Paths, NoMemory> {
        Ok(Paths {
            main: String::from_str(alloc, path)?,
            journal: with_suffix(alloc, path, ".mej")?,
            work: with_suffix(alloc, path, ".met")?,
            folder: folder_of(alloc, path)?,
        })
    }

    pub(crate) fn of(&self, name: Slot) -> &str {
        match name {
            Slot::Main => self.main.as_str(),
            Slot::Journal => self.journal.as_str(),
            Slot::Work => self.work.as_str(),
        }
    }

    pub(crate) fn folder(&self) -> &str {
        self.folder.as_str()
    }
}
