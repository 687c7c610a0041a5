//! A file with its two companions, as a disk that may fail and crash; a source of bytes and a sink.
#![tactic(auto)]

mod counts;
mod depot;
mod limits;
mod memory;
mod pieces;
mod reopen;
mod sparse;
mod store;
mod stream;
#[cfg(test)]
mod tests;
mod window;

pub use counts::count_fault;
pub use depot::{Depot, DepotFault, Slot, WorkState};
pub use limits::{FailAt, Room};
pub use memory::{MemoryDepot, Pick};
pub use pieces::Run;
pub use sparse::SparseDepot;
pub use stream::{
    MemorySink, MemorySource, Sink, SinkFault, Source, SourceFault, StdSink, StdSource,
};
pub use window::{HeaderWindow, TableWindow, Window};
