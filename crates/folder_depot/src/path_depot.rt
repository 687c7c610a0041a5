// The depot over a path of the file system.
ghost use Rattle.std.specs.Prelude.{◌≡◌, IfOk};

use crate::depot::FolderDepot;
use crate::handle::Lock;
use crate::path::PathFolder;
use me_bytes::NoMemory;
use me_disk::WorkState;
use std::alloc::Global;
use std::rt::Files;

/// The depot over a folder of the file system.
pub type PathDepot<R> = FolderDepot<PathFolder<R>>;

impl<R: Files + Clone + Drop> FolderDepot<PathFolder<R>>
where
    R::File: Lock,
{
    /// The depot of the file at this path, with its companions beside it. It keeps the runtime and makes the names; no file is
    /// opened. Any error of a later call is counted as a fault.
    ///
    /// # Errors
    ///
    /// `NoMemory` where there is none for the names.
    pub fn new(rt: R, alloc: Global, path: &str) -> Result<PathDepot<R>, NoMemory>
        ensures { IfOk result (λ d. (d.faults ≡ 0) × (d.written ≡ 0) × (d.state ≡ WorkState.Closed)) }
    {
        Ok(FolderDepot::over(PathFolder::new(rt, alloc, path)?))
    }
}
