// Why the entries of an index are refused.

/// Why the entries of an index of an AVI file are refused, with the number of the first such entry, from 0.
#[derive(Clone, Copy, Debug, PartialEq, Eq)]
pub enum IndexFault {
    /// The entry that decides stands where neither base says.
    NoBase,
    /// An entry doesn't lie inside the essence.
    Astray { entry: u64 },
    /// An entry has bytes in an index chunk.
    Overlap { entry: u64 },
    /// The depot failed.
    Depot,
}
