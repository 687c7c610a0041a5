// Where a line stands.

/// What may stand next.
#[derive(Clone, Copy, Debug, Drop, PartialEq, Eq)]
pub(crate) enum Place {
    /// The line that says what XML this is.
    Declaration,
    /// The line that begins the table.
    Table,
    /// A block's first line, or the line that ends the table.
    Blocks,
    /// A field of a block, or the line that ends the block.
    Fields,
    /// Nothing.
    End,
}
