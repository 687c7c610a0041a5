//! A depot that is made of a folder's calls, and one over a path of the file system.
#![tactic(auto)]

mod calls;
mod depot;
mod handle;
mod path;
mod path_depot;
mod paths;
mod seen;
mod streams;
#[cfg(test)]
mod tests;

pub use depot::FolderDepot;
pub use handle::Lock;
pub use path::PathFolder;
pub use path_depot::PathDepot;
pub use streams::ClosedStreams;
