// A span of a file that an edit replaces.
use part_tree::{Bytes, Span};

/// A span of the old file, and what stands in its place: these bytes, and behind them so many of the span's last bytes.
#[derive(Debug, Drop)]
pub struct CutAt {
    pub span: Span,
    pub bytes: Bytes,
    pub keep: u64,
}
